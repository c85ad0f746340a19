//! Laws of the definitions.

ghost use Rattle.std.specs.Prelude.{◌≡◌, ◌↔◌, IsTrue};
ghost use Rattle.rpki_valid.specs.ResourceSet.{AreSameSets};
ghost use Rattle.rpki.specs.Checkers.{checkers_of};
ghost use Rattle.rpki_valid.specs.Verified.{SettleWithin};
ghost use Rattle.rpki_valid.specs.declared.staleness.Staleness.{Staleness as Asked};

use crate::resource::set::ResourceSet;
use crate::staleness::Staleness;
use rpki::crypto::Provider;

/// Down a path nobody has more than an authority above: what a certificate has is within what each above it has. The
/// signatures of the path are those that the provider verifies.
pub fn paths_settle_within<P: Provider>(provider: &P)
    ensures { SettleWithin (checkers_of P.Provider provider.now) }
{}

/// Resources are equal where the sets of each kind are, which have the same numbers then
/// (`rpki_resources::laws::equal_blocks_are_one_set`).
pub fn equal_resources_are_equal_sets()
    ensures { (a b : ResourceSet) → IsTrue (⟦<ResourceSet as PartialEq>⟧.eq a b) ↔ AreSameSets a b }
{}

/// What is asked of stale lists is equal exactly where it is one.
pub fn equal_staleness_is_one()
    ensures { (x y : Asked) → IsTrue (⟦<Staleness as PartialEq>⟧.eq x y) ↔ (x ≡ y) }
{}
