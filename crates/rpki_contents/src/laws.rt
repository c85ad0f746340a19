//! Laws of the definitions. A law over definitions alone is a function that does nothing; a law of a call makes that
//! call. The contract is the law.

ghost use Rattle.std.specs.Prelude.{◌≡◌, ◌↔◌, ℕ, Bool, List, IsTrue, Ok};
ghost use Rattle.rpki_contents.specs.AspaView.{FoundAspa, IsAspaOf, attestation};
ghost use Rattle.rpki_contents.specs.declared.aspa_view.AspaPart.{AspaPart as WrongAspa};
ghost use Rattle.rpki_contents.specs.declared.manifest_part.ManifestPart.{ManifestPart as WrongManifest};
ghost use Rattle.rpki_contents.specs.declared.manifest_view.ManifestView.{ManifestView as View};
ghost use Rattle.rpki_contents.specs.declared.roa_address.RoaIpAddress.{RoaIpAddress as Address};
ghost use Rattle.rpki_contents.specs.declared.roa_view.RoaPart.{RoaPart as WrongRoa};
ghost use Rattle.rpki_contents.specs.declared.route_origin.FriendlyRoaIpAddress.{FriendlyRoaIpAddress as Friendly};
ghost use Rattle.rpki_contents.specs.declared.route_origin.RouteOrigin.{RouteOrigin as Origin};
ghost use Rattle.rpki_contents.specs.ListedFile.{ListedFile, AreDistinct};
ghost use Rattle.rpki_contents.specs.ManifestView.{IsDecodedAs, IsManifestAt, IsManifestWrong, IsNotDecoded, parts_in};
ghost use Rattle.rpki_contents.specs.RoaView.{FoundRoa, IsRoaOf, route_origin};

use crate::aspa_view::AspaPart;
use crate::manifest::ManifestContent;
use crate::manifest_part::ManifestPart;
use crate::roa_address::RoaIpAddress;
use crate::roa_view::RoaPart;
use crate::route_origin::{FriendlyRoaIpAddress, RouteOrigin};
use bytes::Bytes;
use rpki::der::DecodeError;
use rpki_x509::MessageDigest;
use std::alloc::Global;

/// What [ManifestView::read](crate::ManifestView::read) reads is decoded exactly where no two of its files have the
/// same name, as [FilesView::names_differ](crate::FilesView::names_differ) tests, and is then the same manifest, unless
/// allocation fails. Nothing else is decoded.
pub fn manifests_in_place_are_decoded(
    alloc: Global,
    bytes: Bytes,
) -> Result<ManifestContent, DecodeError>
    ensures decoded { (v : View) (xs : List ListedFile) → IsManifestAt bytes v xs → AreDistinct xs
        → IsDecodedAs (parts_in v xs) result }
    ensures doubled { (v : View) (xs : List ListedFile) → IsManifestAt bytes v xs → (AreDistinct xs → ⊥)
        → IsNotDecoded result }
    ensures wrong { (part : WrongManifest) → IsManifestWrong bytes part → IsNotDecoded result }
{
    ManifestContent::decode(alloc, bytes)
}

/// What [AspaView::read](crate::AspaView::read) finds is an attestation, in the words of its grammar: returns how many
/// octets there are.
pub fn attestations_in_place_are_spelled(octets: &[u8]) -> usize
    ensures { (x : FoundAspa) → attestation octets.now ≡ Ok x → IsAspaOf octets.now x }
{
    octets.len()
}

/// What [RoaView::read](crate::RoaView::read) finds is an attestation, in the words of its grammar: returns how many
/// octets there are.
pub fn route_origins_in_place_are_spelled(octets: &[u8]) -> usize
    ensures { (strict : Bool) (x : FoundRoa) → route_origin strict octets.now ≡ Ok x → IsRoaOf strict octets.now x }
{
    octets.len()
}

/// Digests are equal exactly where their octets are.
pub fn equal_digests_are_one()
    ensures { (d e : List ℕ) → IsTrue (⟦<MessageDigest as PartialEq>⟧.eq d e) ↔ (d ≡ e) }
{}

/// Prefixes of attestations are equal exactly where their bits and their maximum lengths are; one that is left out is
/// equal to none that is there.
pub fn equal_prefixes_are_one()
    ensures { (x y : Address) → IsTrue (⟦<RoaIpAddress as PartialEq>⟧.eq x y) ↔ (x ≡ y) }
{}

/// What attestations authorize is equal exactly where the prefixes, the maximum lengths and the AS numbers are.
pub fn equal_origins_are_one()
    ensures prefix { (x y : Friendly) → IsTrue (⟦<FriendlyRoaIpAddress as PartialEq>⟧.eq x y) ↔ (x ≡ y) }
    ensures origin { (x y : Origin) → IsTrue (⟦<RouteOrigin as PartialEq>⟧.eq x y) ↔ (x ≡ y) }
{}

/// Malformed parts are equal exactly where they are one.
pub fn equal_parts_are_one()
    ensures manifest { (p q : WrongManifest) → IsTrue (⟦<ManifestPart as PartialEq>⟧.eq p q) ↔ (p ≡ q) }
    ensures roa { (p q : WrongRoa) → IsTrue (⟦<RoaPart as PartialEq>⟧.eq p q) ↔ (p ≡ q) }
    ensures aspa { (p q : WrongAspa) → IsTrue (⟦<AspaPart as PartialEq>⟧.eq p q) ↔ (p ≡ q) }
{}
