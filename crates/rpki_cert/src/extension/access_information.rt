//! Access information: what all of its descriptions tell, gathered in one reading, in place without memory (RFC 5280
//! 4.2.2).

ghost use Rattle.std.specs.Prelude.{◌≡◌, ◌≢◌, ◌∷◌, ◌&&◌, ◌||◌, [], true, false, not, bytes_eq, IfErr};
ghost use Rattle.std.specs.Option.{option_copied, option_or, is_some};
ghost use Rattle.rpki_der.specs.Cursor.{left};
ghost use Rattle.rpki_der.specs.TagName.{oid};
ghost use Rattle.rpki_der.specs.Leaves.{IsOidOf};
ghost use Rattle.rpki_der.specs.Parts.{Then};
ghost use Rattle.rpki_der.specs.Values.{SpellsLeaf};
ghost use Rattle.rpki_der.specs.Each.{SpellsSome};
ghost use Rattle.rpki_x509.specs.InPlace.{Gives, GivesAll};
ghost use Rattle.rpki_cert.specs.GeneralName.{SpellsName};
ghost use Rattle.rpki_cert.specs.Access.{Through, first_rsync, first_https, chosen, SpellsDescription, SpellsAccess};
ghost use Rattle.rpki_cert.specs.AccessInformation.{access_parts, parts_of, joined, uri_at, obeyed};

use crate::extension::access_method::AccessMethod;
use crate::extension::access_rule::AccessRule;
use crate::extension::access_view::rsync_in;
use crate::extension::general_name::take_name;
use crate::extension::kind::ending;
use rpki::der::{ConstOid, Constructed, DecodeError, Oid, Tag};
use rpki::oid;
use rpki::uri::HttpsView;
use rpki_x509::inside;

/// What access descriptions tell: of each method the first URI, and which rules all of them obey.
#[derive(Clone, Copy)]
pub struct AccessInformation<'a> {
    /// The rsync URI of `id-ad-caIssuers` (RFC 6487 4.8.7).
    pub issuer: Option<&'a [u8]>,
    /// The rsync URI of `id-ad-caRepository` (RFC 6487 4.8.8.1).
    pub repository: Option<&'a [u8]>,
    /// The rsync URI of `id-ad-rpkiManifest` (RFC 6487 4.8.8.1).
    pub manifest: Option<&'a [u8]>,
    /// The rsync URI of `id-ad-signedObject` (RFC 6487 4.8.8.2).
    pub object: Option<&'a [u8]>,
    /// The https URI of `id-ad-rpkiNotify` (RFC 8182 3.2).
    pub notifications: Option<&'a [u8]>,
    /// Whether each of them obeys [AccessRule::EndEntity].
    pub of_end_entity: bool,
    /// Whether each of them obeys [AccessRule::Notification].
    pub by_https: bool,
}

/// Whether a method is this one. No two of those that are looked for end alike, so the last octets are compared first.
fn is_method(method: Oid<&[u8]>, expected: ConstOid) -> bool
    ensures { result ≡ bytes_eq method.entry.0.now expected.entry.0.now }
{
    ending(method.0) == ending(expected.0) && method == expected
}

/// The name of a description of this method.
fn choose<'a>(same: bool, name: Option<&'a [u8]>) -> Option<&'a [u8]>
    ensures { option_copied result ≡ chosen (same, option_copied name.entry) }
{
    if same { name } else { None }
}

/// The text, if it is an https URI.
fn https_in<'a>(name: Option<&'a [u8]>) -> Option<&'a [u8]>
    ensures { option_copied result ≡ first_https (option_copied name.entry ∷ []) }
{
    match name {
        Some(text) => match HttpsView::from_slice(text) {
            Ok(_) => Some(text),
            Err(_) => None,
        },
        None => None,
    }
}

/// The URI that was found; or else the name, if it is of the method and an rsync URI.
fn rsync_or<'a>(found: Option<&'a [u8]>, same: bool, name: Option<&'a [u8]>) -> Option<&'a [u8]>
    ensures { option_copied result ≡ option_or (option_copied found.entry)
        (first_rsync (chosen (same, option_copied name.entry) ∷ [])) }
{
    found.or(rsync_in(choose(same, name)))
}

/// Whether both are true.
fn are_both(one: bool, other: bool) -> bool
    ensures { result ≡ (one && other) }
{
    one && other
}

/// Whether a description is of one of the two methods.
fn is_of_end_entity(signs: bool, notifies: bool) -> bool
    ensures { result ≡ (signs || notifies) }
{
    signs || notifies
}

/// Whether a description is of another method, or has a URI.
fn is_located(same: bool, uri: Option<&[u8]>) -> bool
    ensures { result ≡ (not same || is_some (option_copied uri.entry)) }
{
    !same || uri.is_some()
}

/// The method and the name of the description that these contents are.
fn description_in<'a>(
    contents: Constructed<'a>,
) -> Result<(Oid<&'a [u8]>, Option<&'a [u8]>), DecodeError>
    ensures gives { GivesAll (λ d. (d.0.0.now, option_copied d.1)) (Then (SpellsLeaf oid false IsOidOf) SpellsName)
        (left contents.entry) result }
    ensures kind { IfErr result (λ e. e ≢ DecodeError.OutOfMemory) }
{
    let mut rest = contents;
    let method = rest.take_oid()?;
    let name = take_name(&mut rest)?;
    rest.finish()?;
    Ok((method, name))
}

/// An access description: its method and its name.
fn take_description<'a>(
    cons: &mut Constructed<'a>,
) -> Result<(Oid<&'a [u8]>, Option<&'a [u8]>), DecodeError>
    ensures gives { Gives (λ d. (d.0.0.now, option_copied d.1)) SpellsDescription (left cons.old) (left cons.new)
        result }
    ensures kind { IfErr result (λ e. e ≢ DecodeError.OutOfMemory) }
{
    let contents = cons.take_sequence()?;
    description_in(contents)
}

/// What the descriptions tell that these contents are; there is one at least.
fn gather<'a>(contents: Constructed<'a>) -> Result<AccessInformation<'a>, DecodeError>
    ensures gives { GivesAll parts_of (Through access_parts (SpellsSome SpellsDescription)) (left contents.entry)
        result }
    ensures kind { IfErr result (λ e. e ≢ DecodeError.OutOfMemory) }
{
    if contents.is_empty() {
        return Err(DecodeError::content("empty SEQUENCE"));
    }
    let mut rest = contents;
    let mut found = AccessInformation::empty();
    'descriptions: while !rest.is_empty() {
        let description = take_description(&mut rest)?;
        found = found.with(description.0, description.1);
    }
    Ok(found)
}

impl<'a> AccessInformation<'a> {
    /// What no description tells.
    fn empty() -> AccessInformation<'a>
        ensures { parts_of result ≡ access_parts [] }
    {
        AccessInformation {
            issuer: None,
            repository: None,
            manifest: None,
            object: None,
            notifications: None,
            of_end_entity: true,
            by_https: true,
        }
    }

    /// What is told with one more description after it.
    fn with(self, method: Oid<&[u8]>, name: Option<&'a [u8]>) -> AccessInformation<'a>
        ensures { parts_of result ≡ joined (parts_of self.entry)
            (access_parts ((method.entry.0.now, option_copied name.entry) ∷ [])) }
    {
        let issues = is_method(method, oid::AD_CA_ISSUERS);
        let publishes = is_method(method, oid::AD_CA_REPOSITORY);
        let lists = is_method(method, oid::AD_RPKI_MANIFEST);
        let signs = is_method(method, oid::AD_SIGNED_OBJECT);
        let notifies = is_method(method, oid::AD_RPKI_NOTIFY);
        let https = https_in(choose(notifies, name));
        AccessInformation {
            issuer: rsync_or(self.issuer, issues, name),
            repository: rsync_or(self.repository, publishes, name),
            manifest: rsync_or(self.manifest, lists, name),
            object: rsync_or(self.object, signs, name),
            notifications: self.notifications.or(https),
            of_end_entity: are_both(self.of_end_entity, is_of_end_entity(signs, notifies)),
            by_https: are_both(self.by_https, is_located(notifies, https)),
        }
    }

    /// Access descriptions: a SEQUENCE of one at least, and nothing else. Allocates nothing.
    pub fn read(octets: Constructed<'a>) -> Result<AccessInformation<'a>, DecodeError>
        ensures gives { GivesAll parts_of (SpellsAccess access_parts) (left octets.entry) result }
        ensures kind { IfErr result (λ e. e ≢ DecodeError.OutOfMemory) }
    {
        let contents = inside(octets, Tag::SEQUENCE)?;
        gather(contents)
    }

    /// The URI of this method.
    pub fn uri(&self, method: AccessMethod) -> Option<&'a [u8]>
        ensures { option_copied result ≡ uri_at method (parts_of self.now) }
    {
        match method {
            AccessMethod::CaIssuers => self.issuer,
            AccessMethod::CaRepository => self.repository,
            AccessMethod::RpkiManifest => self.manifest,
            AccessMethod::SignedObject => self.object,
            AccessMethod::RpkiNotify => self.notifications,
        }
    }

    /// Whether each of the descriptions obeys the rule.
    pub fn obeys(&self, rule: AccessRule) -> bool
        ensures { result ≡ obeyed rule (parts_of self.now) }
    {
        match rule {
            AccessRule::EndEntity => self.of_end_entity,
            AccessRule::Notification => self.by_https,
        }
    }
}
