//! The extensions of a revocation list: an authority key identifier and a number (RFC 6487 5).

ghost use Rattle.std.specs.Prelude.{◌≡◌, ◌↔◌, ℕ, List, [], ◌∷◌, false, IsTrue, IfSome, IfNone};
ghost use Rattle.rpki_der.specs.Fold.{TakesStep};
ghost use Rattle.rpki_der.specs.Prelude.{left, Decodes, SpellsNothing, Takes, TakesAll};
ghost use Rattle.rpki.specs.ExtensionFault.{extension};
ghost use Rattle.rpki_x509.specs.Authority.{SpellsAuthority};
ghost use Rattle.rpki_crl.specs.Crl.{AreExtensions, IsAuthority, IsCrlNumber, ListExtensions, extensions_of};
ghost use Rattle.rpki_crl.specs.Crl.{each_extension, extension_list, known_extensions, extensions};
ghost use Rattle.rpki_crl.specs.CrlView.{AreExtensionsFault, AreTwo, AreTwoFault, Passes};
ghost use Rattle.rpki_x509.specs.InPlace.{IsWholeOf};
ghost use Rattle.rpki_x509.specs.Authority.{WholeFault, authority_content};

use rpki::crypto::KeyIdentifier;
use rpki::der::{Class, Constructed, DecodeError, Keep, Oid, Tag};
use rpki::oid;
use rpki::repository::x509::{ExtensionOctets, ExtensionView, Serial};
use rpki_x509::take_authority;

/// What the extensions of a revocation list say.
#[derive(Clone, Copy)]
pub struct CrlExtensions {
    /// The identifier of the key that signed the list (RFC 5280 5.2.1).
    pub authority_key_identifier: KeyIdentifier,
    /// The number of the list: a later list of the issuer has a higher one (RFC 5280 5.2.3).
    pub crl_number: Serial,
}

/// Whether the extension has this identifier, and isn't critical.
fn is_plain(extension: &ExtensionView<'_>, id: Oid<&[u8]>) -> bool
    ensures { IsTrue result ↔ ((extension.now.identifier ≡ id.entry.0.now) × (extension.now.critical ≡ false)) }
{
    if extension.id() != id {
        return false;
    }
    !extension.critical()
}

/// The identifier of an issuer's key that the octets are.
fn identifier_of(octets: Constructed<'_>) -> Result<KeyIdentifier, DecodeError>
    ensures { Decodes (λ k. k) SpellsAuthority (WholeFault authority_content) (left octets.entry) result }
{
    octets.whole(|cons| take_authority(cons))
}

/// The key identifier, if the extension is an authority key identifier that isn't critical.
fn authority_of(extension: &ExtensionView<'_>) -> Option<KeyIdentifier>
    ensures some { IfSome result (λ k. IsAuthority k extension.now) }
    ensures only { IfSome result (λ k. (j : List ℕ) → IsAuthority j extension.now → j ≡ k) }
    ensures none { IfNone result ((k : List ℕ) → IsAuthority k extension.now → ⊥) }
{
    if !is_plain(extension, oid::CE_AUTHORITY_KEY_IDENTIFIER) {
        return None;
    }
    match identifier_of(Constructed::from_slice(extension.octets())) {
        Ok(identifier) => Some(identifier),
        Err(_) => None,
    }
}

/// The number, if the extension is a number of a list that isn't critical.
fn number_of(extension: &ExtensionView<'_>) -> Option<Serial>
    ensures some { IfSome result (λ n. IsCrlNumber n extension.now) }
    ensures only { IfSome result (λ n. (m : ℕ) → IsCrlNumber m extension.now → m ≡ n) }
    ensures none { IfNone result ((n : ℕ) → IsCrlNumber n extension.now → ⊥) }
{
    if !is_plain(extension, oid::CE_CRL_NUMBER) {
        return None;
    }
    match Serial::decode(extension.octets()) {
        Ok(number) => Some(number),
        Err(_) => None,
    }
}

/// What the two say, if the first is an authority key identifier and the second a number.
fn both_of(authority: &ExtensionView<'_>, number: &ExtensionView<'_>) -> Option<CrlExtensions>
    ensures some { IfSome result (λ x. IsAuthority x.authority_key_identifier authority.now
        × IsCrlNumber x.crl_number number.now) }
    ensures only { IfSome result (λ x. (v : ListExtensions) → IsAuthority v.authority authority.now
        → IsCrlNumber v.number number.now → v ≡ extensions_of x) }
    ensures none { IfNone result ((v : ListExtensions) → IsAuthority v.authority authority.now
        → IsCrlNumber v.number number.now → ⊥) }
{
    let authority_key_identifier = authority_of(authority)?;
    let crl_number = number_of(number)?;
    Some(CrlExtensions {
        authority_key_identifier,
        crl_number,
    })
}

/// What the two say, in either order.
fn of_two(first: &ExtensionView<'_>, second: &ExtensionView<'_>) -> Option<CrlExtensions>
    ensures some { IfSome result (λ x. AreExtensions (extensions_of x) (first.now ∷ second.now ∷ [])) }
    ensures only { IfSome result (λ x. (v : ListExtensions) → AreExtensions v (first.now ∷ second.now ∷ [])
        → v ≡ extensions_of x) }
    ensures none { IfNone result ((v : ListExtensions) → AreExtensions v (first.now ∷ second.now ∷ []) → ⊥) }
{
    if first.id() == oid::CE_AUTHORITY_KEY_IDENTIFIER {
        return both_of(first, second);
    }
    both_of(second, first)
}

impl CrlExtensions {
    /// What the extensions of a list say: two, in either order.
    fn of(all: &[ExtensionOctets]) -> Option<CrlExtensions>
        ensures some { IfSome result (λ x. AreExtensions (extensions_of x) all.now) }
        ensures only { IfSome result (λ x. (v : ListExtensions) → AreExtensions v all.now → v ≡ extensions_of x) }
        ensures none { IfNone result ((v : ListExtensions) → AreExtensions v all.now → ⊥) }
    {
        let [first, second] = all else {
            return None;
        };
        of_two(&first.view(), &second.view())
    }
}

/// What the extensions of a list say that are all of these contents: two, in either order. Allocates nothing.
fn read_two(contents: Constructed<'_>) -> Option<CrlExtensions>
    ensures { IsWholeOf extensions_of AreTwo (left contents.entry) result }
{
    let mut rest = contents;
    let first = match ExtensionView::take_from(&mut rest) {
        Ok(first) => first,
        Err(_) => return None,
    };
    let second = match ExtensionView::take_from(&mut rest) {
        Ok(second) => second,
        Err(_) => return None,
    };
    if !rest.is_empty() {
        return None;
    }
    of_two(&first, &second)
}

/// The error of contents that are no such two: of the first that is no extension; else `Content` with the text
/// `extensions that no revocation list has`. Requires that they are none.
fn two_fault(contents: Constructed<'_>) -> DecodeError
    requires { SpellsNothing AreTwo (left contents) }
    ensures { AreTwoFault (left contents.entry) result }
{
    let mut rest = contents;
    let read = rest.fold_each(
        (),
        |rest, all|
            ensures { TakesStep Passes extension all (left rest.old) (left rest.new) result }
        {
            match ExtensionView::take_from(rest) {
                Ok(_) => Ok(all),
                Err(e) => Err(e),
            }
        },
    );
    match read {
        Ok(()) => DecodeError::content("extensions that no revocation list has"),
        Err(e) => e,
    }
}

/// What the extensions of a list say, which are the whole rest, under their tag: as [CrlExtensions::take_from] reads
/// them, with the same errors but for `OutOfMemory`; then `Trailing`. Allocates nothing.
pub(crate) fn read_extensions(rest: Constructed<'_>) -> Result<CrlExtensions, DecodeError>
    ensures { Decodes extensions_of extensions.spells AreExtensionsFault (left rest.entry) result }
{
    let mut after = rest;
    let mut list = match after.take_constructed_if(Tag::new(Class::Context, 0)) {
        Ok(list) => list,
        Err(e) => return Err(e),
    };
    let contents = match list.take_sequence() {
        Ok(contents) => contents,
        Err(e) => return Err(e),
    };
    let found = match read_two(contents) {
        Some(found) => found,
        None => return Err(two_fault(contents)),
    };
    if !list.is_empty() {
        return Err(DecodeError::Trailing);
    }
    if !after.is_empty() {
        return Err(DecodeError::Trailing);
    }
    Ok(found)
}

/// The extensions that these contents are, in sequence.
fn take_each_extension<K: Keep>(
    keep: K,
    contents: &mut Constructed<'_>,
) -> Result<Vec<ExtensionOctets>, DecodeError>
    requires { K.holds keep (left contents.old) }
    ensures { TakesAll (λ v. v.items) each_extension (left contents.old) (left contents.new) result }
{
    contents.take_each_with(
        keep,
        |rest, keep|
            requires { K.holds keep (left rest.old) }
        { ExtensionOctets::take_from(keep, rest) },
    )
}

/// The SEQUENCE of extensions.
fn take_extension_list<K: Keep>(
    keep: K,
    cons: &mut Constructed<'_>,
) -> Result<Vec<ExtensionOctets>, DecodeError>
    requires { K.holds keep (left cons.old) }
    ensures { Takes (λ v. v.items) extension_list (left cons.old) (left cons.new) result }
{
    cons.in_sequence_with(
        keep,
        |contents, keep|
            requires { K.holds keep (left contents.old) }
        { take_each_extension(keep, contents) },
    )
}

/// The SEQUENCE of the extensions that a revocation list has.
fn take_known<K: Keep>(keep: K, cons: &mut Constructed<'_>) -> Result<CrlExtensions, DecodeError>
    requires { K.holds keep (left cons.old) }
    ensures { Takes extensions_of known_extensions (left cons.old) (left cons.new) result }
{
    let mut after = *cons;
    let all = take_extension_list(keep, &mut after)?;
    match CrlExtensions::of(&all) {
        Some(known) => {
            *cons = after;
            Ok(known)
        }
        None => Err(DecodeError::content("extensions that no revocation list has")),
    }
}

impl CrlExtensions {
    /// Reads the extensions of a revocation list, under the explicit context tag 0: an authority key identifier and a
    /// number, in either order, neither critical (RFC 6487 5). Requires that `keep` can keep parts of the rest.
    ///
    /// The errors are those of the tag, of the SEQUENCE in it, and of [ExtensionOctets::take_from] for what that holds;
    /// then `Content` with the text `extensions that no revocation list has`; then `Trailing`. An error leaves the
    /// cursor where it was.
    pub fn take_from<K: Keep>(
        keep: K,
        cons: &mut Constructed<'_>,
    ) -> Result<CrlExtensions, DecodeError>
        requires { K.holds keep (left cons.old) }
        ensures { Takes extensions_of extensions (left cons.old) (left cons.new) result }
    {
        cons.in_constructed_with(
            Tag::new(Class::Context, 0),
            keep,
            |contents, keep|
                requires { K.holds keep (left contents.old) }
            { take_known(keep, contents) },
        )
    }
}
