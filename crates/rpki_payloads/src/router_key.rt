//! Keys of BGPsec routers (RFC 8210 5.10, RFC 8635).

ghost use Rattle.std.specs.Prelude.{◌≡◌, ◌++◌, OnOk};
ghost use Rattle.std.specs.List.{Contains, flat_map};
ghost use Rattle.rpki_payloads.specs.RouterKey.{block_keys, key_cmp};
ghost use Rattle.rpki_payloads.specs.Sets.{IsSetOf};

use crate::order::sort_once;
use bytes::Bytes;
use rpki::crypto::keys::KeyIdentifier;
use rpki_resources::Block;
use std::alloc::AllocError;

/// A key by which routers sign for autonomous systems (RFC 8205, RFC 8209): for one, or for a range of them, as the
/// certificate of the router has it. In order the AS numbers decide, then the identifier, and then the key.
#[derive(Debug, Drop, PartialEq, Eq, PartialOrd, Ord)]
pub struct RouterKey {
    /// The lowest AS number.
    pub first: u32,
    /// The highest AS number: the same, where there is one.
    pub last: u32,
    /// The identifier of the key (RFC 6487 4.8.2).
    pub identifier: KeyIdentifier,
    /// The key: a SubjectPublicKeyInfo in DER (RFC 5280 4.1, RFC 8608).
    pub info: Bytes,
}

/// Puts the keys in order, each once.
pub fn sort_keys(keys: &mut Vec<RouterKey>)
    ensures { IsSetOf key_cmp (Contains keys.old.items) keys.new.items }
{
    sort_once(keys);
}

/// Adds the key of this identifier for a block of AS numbers; nothing where they are none.
fn push_key(
    keys: &mut Vec<RouterKey>,
    identifier: KeyIdentifier,
    info: &Bytes,
    block: Block,
) -> Result<(), AllocError>
    ensures { OnOk result (keys.new.items ≡ keys.old.items ++ block_keys identifier info.now block) }
{
    if block.low >= 4_294_967_296 || block.high >= 4_294_967_296 {
        return Ok(());
    }
    let info = info.clone()?;
    keys.push(RouterKey {
        first: block.low as u32,
        last: block.high as u32,
        identifier,
        info,
    })?;
    Ok(())
}

/// Adds the key of this identifier for each block of AS numbers, as the certificate of a router has them. A block is
/// one entry however many numbers it has, since there may be 2^32.
///
/// Returns `AllocError` if allocation fails.
pub fn push_router_keys(
    keys: &mut Vec<RouterKey>,
    identifier: KeyIdentifier,
    info: &Bytes,
    blocks: &[Block],
) -> Result<(), AllocError>
    ensures { OnOk result (keys.new.items ≡ keys.old.items ++ flat_map (block_keys identifier info.now) blocks.now) }
{
    'each: for block in blocks {
        push_key(keys, identifier, info, *block)?;
    }
    Ok(())
}
