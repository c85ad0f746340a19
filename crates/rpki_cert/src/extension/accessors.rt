//! What the extensions of a certificate say (RFC 6487 4.8).

ghost use Rattle.std.specs.Prelude.{◌≡◌, ◌↔◌, true, false, Option, Some, None, IfOk, IfErr, IfSome, IfNone, IsTrue};
ghost use Rattle.std.specs.Option.{option_copied};
ghost use Rattle.rpki.specs.KeyIdentifier.{SpellsKeyIdentifier};
ghost use Rattle.rpki_der.specs.Cursor.{left};
ghost use Rattle.rpki_der.specs.Reading.{AnyFault, Decodes};
ghost use Rattle.rpki_der.specs.ErrorText.{text_of};
ghost use Rattle.rpki.specs.ErrorContent.{content_of};
ghost use Rattle.rpki.specs.ExtensionValue.{ExtensionParts};
ghost use Rattle.rpki_cert.specs.Known.{subject_key_identifier, key_usage, basic_constraints};
ghost use Rattle.rpki_x509.specs.Authority.{authority_key_identifier};
ghost use Rattle.rpki_cert.specs.Known.{extended_key_usage, certificate_policies, critical_text, IsOtherCritical};
ghost use Rattle.rpki_cert.specs.Known.{IsSaid, IsSaidThere, FindsOnly, FindsThere};
ghost use Rattle.rpki_cert.specs.Access.{SpellsPoints, IsSaidUri};
ghost use Rattle.rpki_cert.specs.AccessInformation.{SpellsUriOf, IsTold};
ghost use Rattle.rpki_cert.specs.ExtensionContent.{SpellsConstraints, SpellsUsage, SpellsPurposes};
ghost use Rattle.rpki_x509.specs.Authority.{SpellsAuthority};
ghost use Rattle.rpki_cert.specs.ExtensionContent.{SpellsPolicies};
ghost use Rattle.rpki_x509.specs.Authority.{WholeFault, authority_content};
ghost use Rattle.rpki_cert.specs.ExtensionContent.{constraints_content};
ghost use Rattle.rpki_cert.specs.ExtensionContent.{policies_content, subject_content, usage_content};

use crate::extension::access_information::AccessInformation;
use crate::extension::access_method::AccessMethod;
use crate::extension::access_view::read_points;
use crate::extension::contents::{
    AuthorityContent, ConstraintsContent, ExtensionContent, PoliciesContent, SubjectContent,
    UsageContent,
};
use crate::extension::key_usage::KeyUsage;
use crate::extension::policy::Overclaim;
use crate::extension::purposes::read_purposes;
use crate::extension::source::find_kept;
use crate::tbs::TbsCert;
use rpki::crypto::KeyIdentifier;
use rpki::der::{Constructed, ContentError, DecodeError};
use rpki::oid;
use rpki::repository::error::{InspectionError, ValidationError};
use rpki::repository::x509::ExtensionView;

/// The error of an extension that isn't as critical as it has to be.
fn other_critical() -> InspectionError
    ensures { text_of (content_of result) ≡ critical_text }
{
    InspectionError::new(ContentError::from_static("extension is not as critical as it has to be"))
}

/// Whether the key identifier is there and is this one.
pub fn is_identifier(found: Option<KeyIdentifier>, wanted: KeyIdentifier) -> bool
    ensures { IsTrue result ↔ (found ≡ Option.Some wanted) }
{
    match found {
        Some(found) => found == wanted,
        None => false,
    }
}

/// What was found of an extension, which has to be critical or not.
pub fn wanted<'a>(
    found: Option<ExtensionView<'a>>,
    critical: bool,
) -> Result<Option<ExtensionView<'a>>, InspectionError>
    ensures some { IfOk result (λ o. IfSome o (λ x. (found.entry ≡ Some x) × (x.critical ≡ critical))) }
    ensures none { IfOk result (λ o. IfNone o (found.entry ≡ None)) }
    ensures err { IfErr result (λ e. IsOtherCritical critical found.entry e) }
{
    match found {
        Some(extension) => {
            if extension.critical() != critical {
                return Err(other_critical());
            }
            Ok(Some(extension))
        }
        None => Ok(None),
    }
}

/// The value that the octets are.
fn value_of<T: ExtensionContent>(octets: Constructed<'_>) -> Result<T::Value, DecodeError>
    ensures { Decodes (λ v. v) T.content.spells (WholeFault T.content) (left octets.entry) result }
{
    let mut rest = octets;
    match T::take_from(&mut rest) {
        Ok(value) => match rest.finish() {
            Ok(()) => Ok(value),
            Err(e) => Err(e),
        },
        Err(e) => Err(e),
    }
}

/// What the extension says that was found (RFC 6487 4.8).
pub fn said<T: ExtensionContent>(
    found: Option<ExtensionView<'_>>,
) -> Result<Option<T::Value>, ValidationError>
    ensures { IsSaid T.CRITICAL T.content.spells (WholeFault T.content) found.entry result }
{
    match wanted(found, T::CRITICAL) {
        Ok(Some(extension)) => match value_of::<T>(Constructed::from_slice(extension.octets())) {
            Ok(value) => Ok(Some(value)),
            Err(e) => Err(ValidationError::Decoding(e)),
        },
        Ok(None) => Ok(None),
        Err(e) => Err(ValidationError::Inspection(e)),
    }
}

/// Whether basic constraints were found (RFC 6487 4.8.1).
pub fn constraints_in(found: Option<ExtensionView<'_>>) -> Result<bool, ValidationError>
    ensures { IsSaidThere true SpellsConstraints (WholeFault constraints_content) found.entry result }
{
    match said::<ConstraintsContent>(found) {
        Ok(Some(())) => Ok(true),
        Ok(None) => Ok(false),
        Err(e) => Err(e),
    }
}

/// Whether a router's purpose is among those that the extension that was found names (RFC 8209 3.1.3.2).
pub fn purposes_in(found: Option<ExtensionView<'_>>) -> Result<Option<bool>, ValidationError>
    ensures { IsSaid false SpellsPurposes AnyFault found.entry result }
{
    match wanted(found, false) {
        Ok(Some(extension)) => match read_purposes(Constructed::from_slice(extension.octets())) {
            Ok(found) => Ok(Some(found)),
            Err(e) => Err(ValidationError::Decoding(e)),
        },
        Ok(None) => Ok(None),
        Err(e) => Err(ValidationError::Inspection(e)),
    }
}

/// The URI of the revocation list, as the extension that was found says it (RFC 6487 4.8.6).
pub fn points_in<'a>(found: Option<ExtensionView<'a>>) -> Result<Option<&'a [u8]>, ValidationError>
    ensures { IsSaidUri option_copied SpellsPoints found.entry result }
{
    match wanted(found, false) {
        Ok(Some(extension)) => match read_points(Constructed::from_slice(extension.octets())) {
            Ok(found) => Ok(found),
            Err(e) => Err(ValidationError::Decoding(e)),
        },
        Ok(None) => Ok(None),
        Err(e) => Err(ValidationError::Inspection(e)),
    }
}

/// What the access information that was found tells (RFC 6487 4.8.7, 4.8.8).
pub fn information_in<'a>(
    found: Option<ExtensionView<'a>>,
) -> Result<Option<AccessInformation<'a>>, ValidationError>
    ensures { IsTold found.entry result }
{
    match wanted(found, false) {
        Ok(Some(extension)) => match AccessInformation::read(Constructed::from_slice(
            extension.octets(),
        )) {
            Ok(found) => Ok(Some(found)),
            Err(e) => Err(ValidationError::Decoding(e)),
        },
        Ok(None) => Ok(None),
        Err(e) => Err(ValidationError::Inspection(e)),
    }
}

/// The URI of this method, as access information tells it.
pub fn uri_in<'a>(
    told: &Result<Option<AccessInformation<'a>>, ValidationError>,
    method: AccessMethod,
) -> Result<Option<&'a [u8]>, ValidationError>
    ensures { (found : Option ExtensionParts) → IsTold found told.now
        → IsSaidUri option_copied (SpellsUriOf method) found result }
{
    match told {
        Ok(Some(access)) => Ok(access.uri(method)),
        Ok(None) => Ok(None),
        Err(e) => Err(*e),
    }
}

impl TbsCert {
    /// The identifier of the subject's key, where the extension is there: twenty octets, and not critical
    /// (RFC 6487 4.8.2).
    ///
    /// Returns `Inspection` if the extension is critical; `Decoding` if its octets are another value.
    pub fn subject_key_identifier(&self) -> Result<Option<KeyIdentifier>, ValidationError>
        ensures { FindsOnly subject_key_identifier false SpellsKeyIdentifier (WholeFault subject_content)
            self.now.extensions result }
    {
        said::<SubjectContent>(find_kept(self.extensions(), oid::CE_SUBJECT_KEY_IDENTIFIER))
    }

    /// The identifier of the issuer's key, where the extension is there: the key identifier alone, and not critical
    /// (RFC 6487 4.8.3).
    ///
    /// Returns `Inspection` if the extension is critical; `Decoding` if its octets are another value.
    pub fn authority_key_identifier(&self) -> Result<Option<KeyIdentifier>, ValidationError>
        ensures { FindsOnly authority_key_identifier false SpellsAuthority (WholeFault authority_content)
            self.now.extensions result }
    {
        said::<AuthorityContent>(find_kept(self.extensions(), oid::CE_AUTHORITY_KEY_IDENTIFIER))
    }

    /// Whether the subject is a certification authority: the basic constraints are there, critical, with cA TRUE and
    /// without a length of paths (RFC 6487 4.8.1). Of an end entity the extension is not there.
    ///
    /// Returns `Inspection` if the extension is not critical; `Decoding` if its octets are another value.
    pub fn basic_ca(&self) -> Result<bool, ValidationError>
        ensures { FindsThere basic_constraints true SpellsConstraints (WholeFault constraints_content)
            self.now.extensions result }
    {
        constraints_in(find_kept(self.extensions(), oid::CE_BASIC_CONSTRAINTS))
    }

    /// What the subject's key may be used for, where the extension is there: critical, and exactly the bits of one of
    /// the two uses (RFC 6487 4.8.4).
    ///
    /// Returns `Inspection` if the extension is not critical; `Decoding` if its octets are another value.
    pub fn key_usage(&self) -> Result<Option<KeyUsage>, ValidationError>
        ensures { FindsOnly key_usage true SpellsUsage (WholeFault usage_content) self.now.extensions result }
    {
        said::<UsageContent>(find_kept(self.extensions(), oid::CE_KEY_USAGE))
    }

    /// Whether the purpose of a BGPsec router is among those of the subject's key, where the extension is there: one
    /// purpose at least, and not critical (RFC 6487 4.8.5, RFC 8209 3.1.3.2).
    ///
    /// Returns `Inspection` if the extension is critical; `Decoding` if its octets are another value.
    pub fn extended_key_usage(&self) -> Result<Option<bool>, ValidationError>
        ensures { FindsOnly extended_key_usage false SpellsPurposes AnyFault self.now.extensions result }
    {
        purposes_in(find_kept(self.extensions(), oid::CE_EXTENDED_KEY_USAGE))
    }

    /// What the policy of the certificate says of resources that the issuer's certificate hasn't, where the extension
    /// is there: critical, and exactly one policy of the RPKI (RFC 6487 4.8.9, RFC 8360 4.2.1).
    ///
    /// Returns `Inspection` if the extension is not critical; `Decoding` if its octets are another value.
    pub fn overclaim(&self) -> Result<Option<Overclaim>, ValidationError>
        ensures { FindsOnly certificate_policies true SpellsPolicies (WholeFault policies_content)
            self.now.extensions result }
    {
        said::<PoliciesContent>(find_kept(self.extensions(), oid::CE_CERTIFICATE_POLICIES))
    }
}
