//! The resources that certificates have, down a chain (RFC 6487 7.2, RFC 8360 4.2).

ghost use Rattle.std.specs.Prelude.{◌≡◌, ◌≢◌, ◌↔◌, List, [], IsTrue, IfOk, IfErr};
ghost use Rattle.rpki_resources.specs.declared.block.Block.{Block};
ghost use Rattle.rpki_resources.specs.Settled.{IsWithin, IsAnchored, IsSettled, IsTrimmed};

use crate::blocks::Blocks;
use crate::choice::ResourcesChoice;
use std::alloc::{AllocError, Global};

/// Why the resources of a certificate could not be settled.
#[derive(Clone, Copy, Debug, PartialEq, Eq)]
pub enum SettleError {
    /// It lists resources that its issuer doesn't have (RFC 6487 7.2).
    Overclaim,
    /// It is a trust anchor, and names an issuer's resources.
    Inherits,
    /// Allocation failed.
    OutOfMemory,
}

impl From<AllocError> for SettleError {
    ghost from_gives = { λ _ e. e ≡ OutOfMemory };

    ghost use Rattle.rpki_resources.specs.declared.settlement.SettleError.TheVariants.{OutOfMemory};

    fn from(_error: AllocError) -> SettleError {
        SettleError::OutOfMemory
    }
}

impl ResourcesChoice {
    /// Whether they are those of the issuer.
    pub fn is_inherited(&self) -> bool
        ensures { IsTrue result ↔ (self.now ≡ ResourcesChoice.Inherit) }
    {
        match self {
            ResourcesChoice::Inherit => true,
            _ => false,
        }
    }

    /// Whether the kind is named.
    pub fn is_present(&self) -> bool
        ensures { IsTrue result ↔ (self.now ≢ ResourcesChoice.Missing) }
    {
        match self {
            ResourcesChoice::Missing => false,
            _ => true,
        }
    }

    /// Whether these are a part of the issuer's, which are settled: those that are listed have to be; none, and those
    /// of the issuer, always are.
    pub fn is_within(&self, issuer: &Blocks) -> bool
        ensures { IsTrue result ↔ IsWithin self.now issuer.now }
    {
        match self {
            ResourcesChoice::Missing => true,
            ResourcesChoice::Inherit => true,
            ResourcesChoice::Blocks(blocks) => issuer.encompasses(blocks),
        }
    }

    /// The resources of a trust anchor: none, or those that are listed.
    ///
    /// Returns `Inherits` exactly where they are those of an issuer; else `OutOfMemory` if allocation fails,
    /// only where there are any.
    pub fn settle_anchor(&self, alloc: Global) -> Result<Blocks, SettleError>
        ensures settled { IfOk result (λ x. IsAnchored self.now x) }
        ensures refused { IfErr result (λ e. (e ≡ SettleError.Inherits) ↔ (self.now ≡ ResourcesChoice.Inherit)) }
        ensures other { IfErr result (λ e. e ≢ SettleError.Overclaim) }
        ensures memory { IfErr result (λ e. (x : List Block) → IsAnchored self.now x → x ≢ []) }
    {
        match self {
            ResourcesChoice::Missing => Ok(Blocks::empty(alloc)),
            ResourcesChoice::Inherit => Err(SettleError::Inherits),
            ResourcesChoice::Blocks(blocks) => Ok(blocks.clone(alloc)?),
        }
    }

    /// The resources of a certificate under those of its issuer, which are settled, as RFC 6487 7.2 wants them: none,
    /// the issuer's, or those that are listed.
    ///
    /// Returns `Overclaim` exactly where resources are listed that the issuer doesn't have; else `OutOfMemory` if
    /// allocation fails, only where there are any.
    pub fn settle(&self, alloc: Global, issuer: &Blocks) -> Result<Blocks, SettleError>
        ensures settled { IfOk result (λ x. IsSettled self.now issuer.now x) }
        ensures refused { IfErr result (λ e. (e ≡ SettleError.Overclaim) ↔ ¬ IsWithin self.now issuer.now) }
        ensures other { IfErr result (λ e. e ≢ SettleError.Inherits) }
        ensures memory { IfErr result (λ e. (x : List Block) → IsSettled self.now issuer.now x → x ≢ []) }
    {
        if !self.is_within(issuer) {
            return Err(SettleError::Overclaim);
        }
        match self {
            ResourcesChoice::Missing => Ok(Blocks::empty(alloc)),
            ResourcesChoice::Inherit => Ok(issuer.clone(alloc)?),
            ResourcesChoice::Blocks(blocks) => Ok(blocks.clone(alloc)?),
        }
    }

    /// The resources of a certificate under those of its issuer, which are settled, where the certificate's policy is
    /// that of RFC 8360: none, the issuer's, or of those that are listed the ones that the issuer has.
    ///
    /// Returns `AllocError` if allocation fails, only where there are any.
    pub fn trim(&self, alloc: Global, issuer: &Blocks) -> Result<Blocks, AllocError>
        ensures trimmed { IfOk result (λ x. IsTrimmed self.now issuer.now x) }
        ensures memory { IfErr result (λ _. (x : List Block) → IsTrimmed self.now issuer.now x → x ≢ []) }
    {
        match self {
            ResourcesChoice::Missing => Ok(Blocks::empty(alloc)),
            ResourcesChoice::Inherit => issuer.clone(alloc),
            ResourcesChoice::Blocks(blocks) => {
                let both = blocks.intersection(alloc, issuer)?;
                Ok(both.sharing(issuer))
            }
        }
    }
}
