//! What the extensions of a certificate contain, as it is written (RFC 5280 4.2, RFC 6487 4.8).

ghost use Rattle.std.specs.Prelude.{◌≡◌, ◌<◌, ◌≤◌, [], ◌∷◌, true, Some, length, option_map};
ghost use Rattle.rpki_der.specs.Prelude.{IsOid};
ghost use Rattle.rpki_der.specs.OptionalPart.{optional_octets, OfPart};
ghost use Rattle.rpki.specs.KeyIdentifier.{SpellsKeyIdentifier};
ghost use Rattle.rpki_x509.specs.Authority.{SpellsAuthority};
ghost use Rattle.rpki_cert.specs.declared.extension.policy.Overclaim.TheVariants.{Refuse};
ghost use Rattle.rpki_cert.specs.Access.{SpellsPoints, rpki_notify};
ghost use Rattle.rpki_cert.specs.ExtensionContent.{SpellsConstraints, SpellsUsage, SpellsPolicies, SpellsPurposes};
ghost use Rattle.rpki_issue.specs.Contents.{constraints_octets, usage_octets, subject_octets, authority_octets};
ghost use Rattle.rpki_issue.specs.Contents.{policies_octets, points_octets, description_octets, access_octets};
ghost use Rattle.rpki_issue.specs.Contents.{purposes_octets, qualifiers_octets, repository_access};
ghost use Rattle.rpki_issue.specs.Contents.{described_octets, notification_access};
ghost use Rattle.rpki_issue.specs.Contents.{CanPoint, CanTell, CanState, CanPublish, SpellsListed};

use crate::kind::Repository;
use rpki::crypto::KeyIdentifier;
use rpki::der::{
    Around, Class, ConstOid, Oid, Primitive, PrimitiveContent, Sequence, Tag, Values, write_whole,
};
use rpki::oid;
use rpki::uri::{Https, Rsync};
use rpki_cert::KeyUsage;
use rpki_x509::ContextZeroFrame;
use std::io;
use std::io::Write;

/// The qualifier of a policy that points to a statement of practices: `id-qt-cps`, 1.3.6.1.5.5.7.2.1 (RFC 5280
/// 4.2.1.4).
const STATEMENT: ConstOid = Oid(&[43, 6, 1, 5, 5, 7, 2, 1]);

/// An encoder for basic constraints.
pub type ConstraintsEncoder = Sequence<Primitive<bool>>;

/// An encoder for purposes of a key.
pub type PurposesEncoder = Sequence<Primitive<ConstOid>>;

/// An encoder for the qualifiers of a policy, of which there is one: where the statement of practices is.
pub type QualifiersEncoder<'a> = Sequence<Sequence<(Primitive<ConstOid>, Primitive<&'a Https>)>>;

/// An encoder for certificate policies.
pub type PoliciesEncoder<'a> = Sequence<
    Sequence<(Primitive<ConstOid>, Option<QualifiersEncoder<'a>>)>,
>;

/// An encoder for distribution points of revocation lists.
pub type PointsEncoder<'a> = Sequence<
    Sequence<Around<ContextZeroFrame, Around<ContextZeroFrame, Primitive<&'a Rsync>>>>,
>;

/// An encoder for an access description: a method, and a URI.
pub type DescriptionEncoder<U> = Sequence<(Primitive<ConstOid>, Primitive<U>)>;

/// An encoder for access descriptions, of which there are one to three.
pub type AccessEncoder<'a> = Sequence<
    (
        DescriptionEncoder<&'a Rsync>,
        (
            Option<DescriptionEncoder<&'a Rsync>>,
            Option<DescriptionEncoder<&'a Https>>,
        ),
    ),
>;

/// The basic constraints of an authority: cA is TRUE (RFC 6487 4.8.1).
pub fn encode_constraints() -> ConstraintsEncoder
    ensures octets { ⟦<ConstraintsEncoder as Values>⟧.encoded result ≡ constraints_octets }
    ensures short { ⟦<ConstraintsEncoder as Values>⟧.is_short result }
    // The encoding is read as this.
    ensures read_back { SpellsConstraints tt constraints_octets }
{
    Sequence::new(true.encode())
}

/// A use of a key, as the contents of a BIT STRING.
#[derive(Clone, Copy)]
pub struct UsageContent {
    usage: KeyUsage,
}

impl PrimitiveContent for UsageContent {
    ghost use Rattle.rpki_der.specs.TagName.{bit_string};
    ghost use Rattle.rpki_issue.specs.Contents.{usage_contents};

    ghost plain = { bit_string };

    const TAG: Tag = Tag::BIT_STRING;

    ghost contents = { λ x. usage_contents x.usage };

    fn encoded_len(&self) -> u64 {
        2
    }

    #[tactic(auto, using(rpki_der::proofs::WritingLaws::writes_of_cut))]
    fn write_encoded<W: Write>(&self, out: &mut W) -> Result<(), io::Error> {
        match self.usage {
            KeyUsage::Ca => write_whole(out, &[1, 6]),
            KeyUsage::Ee => write_whole(out, &[7, 128]),
        }
    }

    fn plain_tag(&self) -> Tag {
        Self::TAG
    }
}

/// The use of a key (RFC 6487 4.8.4).
pub fn encode_usage(usage: KeyUsage) -> Primitive<UsageContent>
    ensures octets { ⟦<Primitive<UsageContent> as Values>⟧.encoded result ≡ usage_octets usage }
    ensures short { ⟦<Primitive<UsageContent> as Values>⟧.is_short result }
    // The encoding is read as this use.
    ensures read_back { SpellsUsage usage (usage_octets usage) }
{
    UsageContent { usage }.encode()
}

/// The purpose of a router's key (RFC 8209 3.1.3.2).
pub fn encode_purposes() -> PurposesEncoder
    ensures octets { ⟦<PurposesEncoder as Values>⟧.encoded result ≡ purposes_octets }
    ensures short { ⟦<PurposesEncoder as Values>⟧.is_short result }
    // The encoding is read as purposes that a router's is among.
    ensures read_back { SpellsPurposes true purposes_octets }
{
    Sequence::new(oid::KP_BGPSEC_ROUTER.encode())
}

/// The identifier of the subject's key (RFC 6487 4.8.2).
pub fn encode_subject_identifier(identifier: KeyIdentifier) -> Primitive<KeyIdentifier>
    ensures octets { ⟦<Primitive<KeyIdentifier> as Values>⟧.encoded result ≡ subject_octets identifier }
    ensures short { ⟦<Primitive<KeyIdentifier> as Values>⟧.is_short result }
    // The encoding is read as this identifier.
    ensures read_back { SpellsKeyIdentifier identifier (subject_octets identifier) }
    ensures size { length identifier ≡ 20 }
{
    // its clause says that it has twenty octets
    let _ = identifier.as_slice();
    identifier.encode()
}

/// The identifier of the issuer's key (RFC 6487 4.8.3).
pub fn encode_authority(identifier: KeyIdentifier) -> Sequence<Primitive<KeyIdentifier>>
    ensures octets { ⟦<Sequence<Primitive<KeyIdentifier>> as Values>⟧.encoded result ≡ authority_octets identifier }
    ensures short { ⟦<Sequence<Primitive<KeyIdentifier>> as Values>⟧.is_short result }
    // The encoding is read as this identifier.
    ensures read_back { SpellsAuthority identifier (authority_octets identifier) }
    ensures size { length identifier ≡ 20 }
{
    // its clause says that it has twenty octets
    let _ = identifier.as_slice();
    Sequence::new(identifier.encode_as(Tag::new(Class::Context, 0)))
}

/// Where the statement of practices is, as qualifiers of a policy (RFC 7318 2).
fn encode_qualifiers(practices: &Https) -> QualifiersEncoder<'_>
    requires { length practices.now < 3080 }
    ensures octets { ⟦<QualifiersEncoder<'static> as Values>⟧.encoded result ≡ qualifiers_octets practices.now }
    ensures short { ⟦<QualifiersEncoder<'static> as Values>⟧.is_short result }
{
    Sequence::new(Sequence::new((STATEMENT.encode(), practices.encode())))
}

/// The same where a certificate says so.
fn encode_statement(practices: Option<&Https>) -> Option<QualifiersEncoder<'_>>
    requires { CanState (option_map (λ u. u.now) practices) }
    ensures octets { ⟦<Option<QualifiersEncoder<'static>> as Values>⟧.encoded result
        ≡ optional_octets qualifiers_octets (option_map (λ u. u.now) practices.entry) }
    ensures short { ⟦<Option<QualifiersEncoder<'static>> as Values>⟧.is_short result }
{
    match practices {
        Some(uri) => Some(encode_qualifiers(uri)),
        None => None,
    }
}

/// The policy of the RPKI, and where the statement of practices is (RFC 6487 4.8.9, RFC 7318 2).
pub fn encode_policies(practices: Option<&Https>) -> PoliciesEncoder<'_>
    requires { CanState (option_map (λ u. u.now) practices) }
    ensures octets { ⟦<PoliciesEncoder<'static> as Values>⟧.encoded result
        ≡ policies_octets (option_map (λ u. u.now) practices.entry) }
    ensures short { ⟦<PoliciesEncoder<'static> as Values>⟧.is_short result }
    // The encoding is read as the policy that refuses resources that the issuer doesn't have.
    ensures read_back { SpellsPolicies Refuse (policies_octets (option_map (λ u. u.now) practices.entry)) }
{
    let qualifiers = encode_statement(practices);
    Sequence::new(Sequence::new((oid::CP_IPADDR_ASNUMBER.encode(), qualifiers)))
}

/// Where the issuer's revocation list is (RFC 6487 4.8.6).
pub fn encode_points(uri: &Rsync) -> PointsEncoder<'_>
    requires { CanPoint uri.now }
    ensures octets { ⟦<PointsEncoder<'static> as Values>⟧.encoded result ≡ points_octets uri.now }
    ensures short { ⟦<PointsEncoder<'static> as Values>⟧.is_short result }
    // The encoding is read as this URI.
    ensures read_back { SpellsPoints (Some uri.now) (points_octets uri.now) }
{
    Sequence::new(Sequence::new(Around::new(Around::new(uri.encode_general_name()))))
}

/// An access description of an rsync URI.
fn encode_description(method: ConstOid, uri: &Rsync) -> DescriptionEncoder<&Rsync>
    requires method { length method.0.now ≤ 8 }
    requires uri { length uri.now < 3080 }
    ensures octets { ⟦<DescriptionEncoder<&'static Rsync> as Values>⟧.encoded result
        ≡ description_octets method.entry.0.now uri.now }
    ensures short { ⟦<DescriptionEncoder<&'static Rsync> as Values>⟧.is_short result }
{
    Sequence::new((method.encode(), uri.encode_general_name()))
}

/// An access description of an https URI.
fn encode_notification(uri: &Https) -> DescriptionEncoder<&Https>
    requires { length uri.now < 3080 }
    ensures octets { ⟦<DescriptionEncoder<&'static Https> as Values>⟧.encoded result
        ≡ description_octets rpki_notify uri.now }
    ensures short { ⟦<DescriptionEncoder<&'static Https> as Values>⟧.is_short result }
{
    Sequence::new((oid::AD_RPKI_NOTIFY.encode(), uri.encode_general_name()))
}

/// One access description: where the issuer's certificate is (RFC 6487 4.8.7), or the signed object (RFC 6487
/// 4.8.8.2).
pub fn encode_access(method: ConstOid, uri: &Rsync) -> AccessEncoder<'_>
    requires method { IsOid method.0.now × (length method.0.now ≤ 8) }
    requires uri { CanPoint uri.now }
    ensures octets { ⟦<AccessEncoder<'static> as Values>⟧.encoded result
        ≡ access_octets ((method.entry.0.now, uri.now) ∷ []) }
    ensures short { ⟦<AccessEncoder<'static> as Values>⟧.is_short result }
    // The encoding is read as this description.
    ensures read_back { SpellsListed ((method.entry.0.now, uri.now) ∷ []) }
{
    Sequence::new((encode_description(method, uri), (None, None)))
}

/// Where changes of a repository are told, if it says so.
fn encode_changes(notification: Option<&Https>) -> Option<DescriptionEncoder<&Https>>
    requires { OfPart CanTell (option_map (λ u. u.now) notification) }
    ensures octets { ⟦<Option<DescriptionEncoder<&'static Https>> as Values>⟧.encoded result
        ≡ described_octets (notification_access (option_map (λ u. u.now) notification.entry)) }
    ensures short { ⟦<Option<DescriptionEncoder<&'static Https>> as Values>⟧.is_short result }
{
    match notification {
        Some(uri) => Some(encode_notification(uri)),
        None => None,
    }
}

/// Where an authority publishes (RFC 6487 4.8.8.1, RFC 8182 3.2).
pub fn encode_repository<'a>(repository: &Repository<'a>) -> AccessEncoder<'a>
    requires { CanPublish repository.now }
    ensures octets { ⟦<AccessEncoder<'static> as Values>⟧.encoded result
        ≡ access_octets (repository_access repository.now) }
    ensures short { ⟦<AccessEncoder<'static> as Values>⟧.is_short result }
    // The encoding is read as these descriptions.
    ensures read_back { SpellsListed (repository_access repository.now) }
{
    let changes = encode_changes(repository.notification);
    let manifest = encode_description(oid::AD_RPKI_MANIFEST, repository.manifest);
    let base = encode_description(oid::AD_CA_REPOSITORY, repository.base);
    Sequence::new((base, (Some(manifest), changes)))
}
