//! Resources that are kept: made of those that were read in place.

ghost use Rattle.std.specs.Prelude.{IfOk, IfErr};
ghost use Rattle.rpki_der.specs.Prelude.{left, Takes, TakesWhole};
ghost use Rattle.rpki_resources.specs.Kept.{IsOnlyChoiceOf, ListsBlocks, kept_ip, kept_as};

use crate::blocks::Blocks;
use crate::choice::ResourcesChoice;
use crate::choice_reading::take_as_resources;
use crate::choice_view::ChoiceView;
use crate::ip_reading::take_ip_resources;
use crate::resources::{AsResources, IpResources};
use rpki_der::{Constructed, DecodeError};
use std::alloc::{AllocError, Global};

impl ResourcesChoice {
    /// Keeps resources that were read in place. A list of blocks is allocated once, and nothing else is allocated.
    ///
    /// Returns `AllocError` if allocation fails, only where it is a list.
    pub fn from_view(alloc: Global, view: &ChoiceView<'_>) -> Result<ResourcesChoice, AllocError>
        ensures kept { IfOk result (λ v. IsOnlyChoiceOf v view.now) }
        ensures memory { IfErr result (λ _. ListsBlocks view.now) }
    {
        match view {
            ChoiceView::Missing => Ok(ResourcesChoice::Missing),
            ChoiceView::Inherit => Ok(ResourcesChoice::Inherit),
            ChoiceView::Blocks(listed) => {
                let kept = Blocks::from_view(alloc, listed)?;
                Ok(ResourcesChoice::Blocks(kept))
            }
        }
    }
}

impl IpResources {
    /// Reads the contents of the extension of IP address blocks, as [take_ip_resources], and keeps them.
    ///
    /// The error is that of the leftmost part that isn't there; `OutOfMemory` if allocation fails, only where all parts
    /// are there. An error leaves the cursor where it was.
    pub fn take_from(alloc: Global, cons: &mut Constructed<'_>) -> Result<IpResources, DecodeError>
        ensures { Takes (λ v. v) kept_ip (left cons.old) (left cons.new) result }
    {
        let mut after = *cons;
        let view = take_ip_resources(&mut after)?;
        let v4 = ResourcesChoice::from_view(alloc, &view.v4)?;
        let v6 = ResourcesChoice::from_view(alloc, &view.v6)?;
        *cons = after;
        Ok(IpResources { v4, v6 })
    }

    /// As [IpResources::take_from], of all of the octets; then `Trailing` if something follows.
    pub fn decode(alloc: Global, octets: &[u8]) -> Result<IpResources, DecodeError>
        ensures { TakesWhole (λ v. v) kept_ip octets.now result }
    {
        Constructed::from_slice(octets).whole(|cons| IpResources::take_from(alloc, cons))
    }
}

impl AsResources {
    /// Reads the contents of the extension of AS identifiers, as [take_as_resources], and keeps them.
    ///
    /// The error is that of the leftmost part that isn't there; `OutOfMemory` if allocation fails, only where all parts
    /// are there. An error leaves the cursor where it was.
    pub fn take_from(alloc: Global, cons: &mut Constructed<'_>) -> Result<AsResources, DecodeError>
        ensures { Takes (λ v. v) kept_as (left cons.old) (left cons.new) result }
    {
        let mut after = *cons;
        let view = take_as_resources(&mut after)?;
        let numbers = ResourcesChoice::from_view(alloc, &view)?;
        *cons = after;
        Ok(AsResources { numbers })
    }

    /// As [AsResources::take_from], of all of the octets; then `Trailing` if something follows.
    pub fn decode(alloc: Global, octets: &[u8]) -> Result<AsResources, DecodeError>
        ensures { TakesWhole (λ v. v) kept_as octets.now result }
    {
        Constructed::from_slice(octets).whole(|cons| AsResources::take_from(alloc, cons))
    }
}
