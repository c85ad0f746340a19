//! The statuses of the library itself, beside 0 and the numbers of the layer's errors.

/// No identifier octets: the number of `DecodeError::BadTag`.
pub(crate) const BAD_TAG: u8 = 2;

/// The contents are not those of the type: the number of `DecodeError::Content`.
pub(crate) const CONTENT: u8 = 5;

/// Allocation failed: the number of `DecodeError::OutOfMemory`.
pub(crate) const OUT_OF_MEMORY: u8 = 7;

/// The caller's array or buffer has no room.
pub(crate) const TOO_SMALL: u8 = 9;

/// What is asked for doesn't exist.
pub(crate) const NO_ANSWER: u8 = 10;

/// No profile has the number.
pub(crate) const NO_PROFILE: u8 = 12;

/// An algorithm identifier is there, and not one of those that are read.
pub(crate) const OTHER_ALGORITHM: u8 = 13;

/// The places are not laid out as those of the parts of a text are.
pub(crate) const OTHER_PARTS: u8 = 14;

/// Contents would have 2^32 octets or more, or numbers have more octets than a key may have.
pub(crate) const TOO_LONG: u8 = 15;

/// A name has no common name.
pub(crate) const MISSING_COMMON_NAME: u8 = 32;

/// A name has a second common name.
pub(crate) const SECOND_COMMON_NAME: u8 = 33;

/// A name has a second serial number.
pub(crate) const SECOND_SERIAL_NUMBER: u8 = 34;

/// A name has a second organization name.
pub(crate) const SECOND_ORGANIZATION_NAME: u8 = 35;

/// An attribute of a name has a value that is no string of the profile.
pub(crate) const STRING_NOT_PERMITTED: u8 = 36;

/// A name has an attribute that the profile doesn't permit.
pub(crate) const ATTRIBUTE_NOT_PERMITTED: u8 = 37;

/// A text in base 64 has an octet that is no symbol.
pub(crate) const INVALID_SYMBOL: u8 = 40;

/// A text in base 64 has a length that none has.
pub(crate) const INVALID_LENGTH: u8 = 41;

/// The last symbol of a text in base 64 has bits that stand for nothing.
pub(crate) const INVALID_LAST_SYMBOL: u8 = 42;

/// A text in base 64 has other padding.
pub(crate) const INVALID_PADDING: u8 = 43;

/// What is added to the number of an error of the second of two texts.
pub(crate) const SECOND: u8 = 16;

/// What is handed in as an issuer is no certificate.
pub(crate) const NO_ISSUER: u8 = 152;

/// The issuer of a certificate has another name than the subject of what is handed in as its issuer.
pub(crate) const OTHER_ISSUER: u8 = 153;

/// The authority key identifier of a certificate isn't there, or isn't that of the issuer's key.
pub(crate) const OTHER_AUTHORITY: u8 = 154;

/// What is added to the number of an error of a URI, so that no status says two things.
pub(crate) const URI: u8 = 159;

/// A public key is none that signatures are verified by.
pub(crate) const KEY_NOT_ACCEPTED: u8 = 52;

/// A signature is not one of the message by the key.
pub(crate) const BAD_SIGNATURE: u8 = 53;

/// A period of validity begins after the moment.
pub(crate) const TOO_NEW: u8 = 50;

/// A period of validity ended before the moment.
pub(crate) const TOO_OLD: u8 = 51;

/// The digest of octets is not the one that is said.
pub(crate) const OTHER_DIGEST: u8 = 54;

/// The type of a content is not the one that is signed.
pub(crate) const OTHER_TYPE: u8 = 55;

/// The subject key identifier of a certificate isn't there, or isn't that of the signer.
pub(crate) const OTHER_SIGNER: u8 = 56;

/// The subject key identifier of a certificate isn't there, or isn't that of its own key.
pub(crate) const OTHER_KEY: u8 = 57;

/// Resources are not within those of the issuer.
pub(crate) const OTHER_RESOURCES: u8 = 58;

/// A certificate has no policies: the number of that rule of certificates.
pub(crate) const NO_POLICIES: u8 = 108;

/// A certificate has resources of the other version than its policy's: the number of that rule.
pub(crate) const OTHER_VERSION: u8 = 115;

/// The resources of a certificate are not critical, or not in canonical form: the number of that rule of certificates.
pub(crate) const WRONG_RESOURCES: u8 = 116;

/// The resources of a manifest's certificate are not those of its issuer.
pub(crate) const NOT_INHERITED: u8 = 59;

/// The key of a certificate is not that of the locator.
pub(crate) const OTHER_ANCHOR: u8 = 60;

/// A certificate lists other kinds of resources than one that signs an object of a type has to.
pub(crate) const OTHER_KINDS: u8 = 61;

/// An authority would be more steps below its trust anchor than a path may have.
pub(crate) const TOO_DEEP: u8 = 44;

/// An authority has no revocation list yet.
pub(crate) const NO_LIST: u8 = 45;

/// An authority has no manifest yet.
pub(crate) const NO_MANIFEST: u8 = 48;

/// A manifest names two of its files alike.
pub(crate) const SAME_NAMES: u8 = 46;

/// A manifest lists another revocation list than the authority has, none, or more than one.
pub(crate) const OTHER_LIST: u8 = 47;

/// The certificate of a manifest names another revocation list than the manifest lists.
pub(crate) const OTHER_LIST_URI: u8 = 49;

/// A certificate is on the revocation list of its issuer.
pub(crate) const REVOKED: u8 = 62;

/// An authority has the key of one that is on its path already.
pub(crate) const ON_PATH: u8 = 63;

/// The octets end before the value does: the number of `DecodeError::Truncated`.
pub(crate) const TRUNCATED: u8 = 1;
