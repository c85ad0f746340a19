//! What is signed of a revocation list, as it is written (RFC 5280 5.1.2, RFC 6487 5).

ghost use Rattle.std.specs.Prelude.{◌≡◌, ◌<◌, ◌^◌, ◌↔◌, length};
ghost use Rattle.rpki_der.specs.Prelude.{optional_of};
ghost use Rattle.rpki_crl.specs.Crl.{entries_of, extensions_of, extensions, list_of};
ghost use Rattle.rpki_crl.specs.EncodedCrl.{revoked_octets, AreEntries, extensions_octets, list_octets};
ghost use Rattle.rpki_crl.specs.EncodedCrl.{IsListReadBack, authority_extension, number_extension, IsWrittenShort};
ghost use Rattle.rpki_crl.specs.EncodedCrl.{version_2, IsShortList, behind_octets, IsShortBehind, IsBehindReadBack};
ghost use Rattle.rpki_crl.specs.Crl.{IsAuthority, IsCrlNumber};
ghost use Rattle.rpki.specs.Prelude.{written_extension};

use crate::crl_entry::CrlEntry;
use crate::crl_extensions::CrlExtensions;
use crate::tbs_cert_list::TbsCertList;
use rpki::crypto::{KeyIdentifier, RpkiSignatureAlgorithm, SignatureAlgorithm};
use rpki::der::{
    Around, Class, ConstOid, Each, Primitive, PrimitiveContent, Sequence, StandingValue, Tag,
    Values,
};
use rpki::oid;
use rpki::repository::x509::{Extension, Serial, VariedTime, encode_extension};
use rpki_x509::ContextZeroFrame;

/// An encoder for the authority key identifier, as an extension.
type AuthorityEncoder = Extension<Sequence<Primitive<KeyIdentifier>>>;

/// An encoder for the number of a list, as an extension.
type NumberEncoder = Extension<Primitive<Serial>>;

/// An encoder for the extensions of a list, under their tag.
pub type CrlExtensionsEncoder = Around<
    ContextZeroFrame,
    Sequence<(AuthorityEncoder, NumberEncoder)>,
>;

/// An encoder for the entries, where there is a list of them.
type EntriesEncoder<'a> = Option<Sequence<Each<'a, CrlEntry>>>;

/// An encoder for what follows the issuer: the two times, the entries and the extensions.
type BehindIssuerEncoder<'a> = (
    VariedTime,
    (VariedTime, (EntriesEncoder<'a>, CrlExtensionsEncoder)),
);

/// An encoder for what is signed of a list: the version, the algorithm, the issuer, the two times, the entries and the
/// extensions.
pub type TbsCertListEncoder<'a> = Sequence<
    (
        Primitive<Serial>,
        (
            Sequence<(Primitive<ConstOid>, Primitive<()>)>,
            (StandingValue<'a>, BehindIssuerEncoder<'a>),
        ),
    ),
>;

/// The authority key identifier, as an extension.
fn encode_authority(identifier: KeyIdentifier) -> AuthorityEncoder
    ensures octets { ⟦<AuthorityEncoder as Values>⟧.encoded result
        ≡ written_extension (authority_extension identifier) }
    ensures short { ⟦<AuthorityEncoder as Values>⟧.is_short result }
    ensures read_back { IsWrittenShort (authority_extension identifier) }
    ensures authority { IsAuthority identifier (authority_extension identifier) }
{
    // its clause says that it has twenty octets
    let _ = identifier.as_slice();
    let content = Sequence::new(identifier.encode_as(Tag::new(Class::Context, 0)));
    encode_extension(oid::CE_AUTHORITY_KEY_IDENTIFIER, false, content)
}

/// The number of a list, as an extension.
fn encode_number(number: Serial) -> NumberEncoder
    ensures octets { ⟦<NumberEncoder as Values>⟧.encoded result ≡ written_extension (number_extension number) }
    ensures short { ⟦<NumberEncoder as Values>⟧.is_short result }
    ensures read_back { IsWrittenShort (number_extension number) }
    ensures number { IsCrlNumber number (number_extension number) }
{
    // its clause says that it is below 2^159
    let _ = number.into_array();
    encode_extension(oid::CE_CRL_NUMBER, false, number.encode())
}

impl CrlExtensions {
    /// An encoder for the extensions: the authority key identifier, and then the number, under the explicit tag 0;
    /// neither is critical. It always fits.
    pub fn encode(self) -> CrlExtensionsEncoder
        ensures octets { ⟦<CrlExtensionsEncoder as Values>⟧.encoded result ≡ extensions_octets (extensions_of self) }
        ensures fits { ⟦<CrlExtensionsEncoder as Values>⟧.is_short result
            × (length (extensions_octets (extensions_of self)) < 2 ^ 63) }
        // The encoding is read as the same extensions.
        ensures read_back { extensions.spells (extensions_of self) (extensions_octets (extensions_of self)) }
    {
        let authority = encode_authority(self.authority_key_identifier);
        Around::new(Sequence::new((authority, encode_number(self.crl_number))))
    }
}

/// An encoder for the entries, where there is a list of them.
fn encode_entries(entries: &Option<Vec<CrlEntry>>) -> EntriesEncoder<'_>
    ensures octets { ⟦<EntriesEncoder<'static> as Values>⟧.encoded result
        ≡ revoked_octets (optional_of entries_of entries.now) }
    ensures short { length (revoked_octets (optional_of entries_of entries.now)) < 2 ^ 32
        → ⟦<EntriesEncoder<'static> as Values>⟧.is_short result }
{
    match entries {
        Some(entries) => Some(Sequence::new(Each::new(entries.as_slice()))),
        None => None,
    }
}

/// The version of a list: 2, whose number is 1 (RFC 5280 5.1.2.1).
fn encode_version() -> Primitive<Serial>
    ensures octets { ⟦<Primitive<Serial> as Values>⟧.encoded result ≡ version_2 }
    ensures short { ⟦<Primitive<Serial> as Values>⟧.is_short result }
{
    Serial::from(1u128).encode()
}

impl TbsCertList {
    /// An encoder for what follows the issuer.
    fn encode_behind(&self) -> BehindIssuerEncoder<'_>
        ensures octets { ⟦<BehindIssuerEncoder<'static> as Values>⟧.encoded result ≡ behind_octets (list_of self.now) }
        ensures short { IsShortBehind (list_of self.now) → ⟦<BehindIssuerEncoder<'static> as Values>⟧.is_short result }
        ensures read_back { IsBehindReadBack (list_of self.now) }
    {
        let issued = self.this_update.encode_varied();
        let next = self.next_update.encode_varied();
        let entries = encode_entries(&self.revoked_certs);
        let extensions = self.extensions.encode();
        (issued, (next, (entries, extensions)))
    }

    /// An encoder for what is signed, which borrows the list: its octets are what an authority signs. The algorithm is
    /// written with its parameters, and times as certificates have them. It allocates nothing.
    ///
    /// It fits exactly where the contents have fewer than 2^32 octets.
    pub fn encode_ref(&self) -> TbsCertListEncoder<'_>
        ensures octets { ⟦<TbsCertListEncoder<'static> as Values>⟧.encoded result ≡ list_octets (list_of self.now) }
        ensures short { ⟦<TbsCertListEncoder<'static> as Values>⟧.is_short result ↔ IsShortList (list_of self.now) }
        // The encoding is read as the normal form; serial numbers and times are as [Serial] and [Time] have them.
        ensures read_back { AreEntries (list_of self.now).revoked → IsShortList (list_of self.now)
            → IsListReadBack (list_of self.now) }
    {
        let version = encode_version();
        let algorithm = RpkiSignatureAlgorithm::default().x509_encode();
        let issuer = self.issuer.encode_ref();
        let behind = self.encode_behind();
        Sequence::new((version, (algorithm, (issuer, behind))))
    }
}
