//! Texts of lists of blocks, as they are read: `10.0.0.0/8, 192.0.2.0-192.0.2.9`, `AS3-AS5, AS1`.

ghost use Rattle.std.specs.Prelude.{◌≡◌, ◌-◌, ◌≤◌, ◌^◌, ◌∷◌, MatchResult};
ghost use Rattle.std.specs.Option.{option_map};
ghost use Rattle.rpki_resources.specs.declared.kind.ResourceKind.TheVariants.{Addresses};
ghost use Rattle.rpki_resources.specs.ListRead.{family_of_block, ip_numbers, as_numbers, parts_at_commas};
ghost use Rattle.rpki_resources.specs.ListRead.{parts_of_rest, IsBlockText, IsBlockTextError, AreBlockTexts};
ghost use Rattle.rpki_resources.specs.ListRead.{AreBlockTextsError, IsBlocksText, IsBlocksTextError};

use crate::as_read::ParseAsBlockError;
use crate::as_text::AsBlock;
use crate::block::Block;
use crate::blocks::Blocks;
use crate::family::AddressFamily;
use crate::ip_read::{family_of, number_of, width_of};
use crate::ip_text::IpBlock;
use crate::kind::ResourceKind;
use crate::merge::push_some;
use std::alloc::{AllocError, Global};
use std::error::Error;
use std::fmt;
use std::fmt::Display;

/// The numbers of a block of AS numbers.
fn numbers_of_as(block: AsBlock) -> Block
    ensures { result ≡ as_numbers block }
{
    match block {
        AsBlock::Id(number) => Block {
            low: u128::from(number.0),
            high: u128::from(number.0),
        },
        AsBlock::Range(range) => Block {
            low: u128::from(range.min.0),
            high: u128::from(range.max.0),
        },
    }
}

/// The number of so many bits that are all 1.
fn ones(count: u8) -> u128
    requires { count ≤ 128 }
    ensures { result ≡ 2 ^ count - 1 }
{
    if count == 128 {
        return u128::MAX;
    }
    (1u128 << count) - 1
}

/// The numbers of a block of addresses.
fn numbers_of_ip(block: IpBlock) -> Block
    ensures { result ≡ ip_numbers block }
{
    match block {
        IpBlock::Prefix(prefix) => {
            let low = number_of(prefix.addr);
            Block {
                low,
                high: low | ones(width_of(prefix.addr).saturating_sub(prefix.len)),
            }
        }
        IpBlock::Range(range) => Block {
            low: number_of(range.min),
            high: number_of(range.max),
        },
    }
}

/// The family of the addresses of a block.
fn family_of_block(block: IpBlock) -> AddressFamily
    ensures { result ≡ family_of_block block }
{
    match block {
        IpBlock::Prefix(prefix) => family_of(prefix.addr),
        IpBlock::Range(range) => family_of(range.min),
    }
}

/// The block of addresses of the family that a text writes.
fn ip_block_of_text(family: AddressFamily, text: &str) -> Result<Block, ParseBlocksError>
    ensures { MatchResult result (IsBlockText (Addresses family) text.now)
        (IsBlockTextError (Addresses family) text.now) }
{
    let Ok(block) = text.parse::<IpBlock>() else {
        return Err(ParseBlocksError::BadIpBlock);
    };
    match (family_of_block(block), family) {
        (AddressFamily::Ipv4, AddressFamily::Ipv4) => Ok(numbers_of_ip(block)),
        (AddressFamily::Ipv6, AddressFamily::Ipv6) => Ok(numbers_of_ip(block)),
        _ => Err(ParseBlocksError::BadIpBlock),
    }
}

/// The block of the kind that a text writes.
fn block_of_text(kind: ResourceKind, text: &str) -> Result<Block, ParseBlocksError>
    ensures { MatchResult result (IsBlockText kind text.now) (IsBlockTextError kind text.now) }
{
    match kind {
        ResourceKind::Addresses(family) => ip_block_of_text(family, text),
        ResourceKind::AsNumbers => match text.parse::<AsBlock>() {
            Ok(block) => Ok(numbers_of_as(block)),
            Err(e) => Err(ParseBlocksError::BadAsBlock(e)),
        },
    }
}

/// What is before the first comma of a text, and what is after it, where there is one.
fn first_part(text: &str) -> (&str, Option<&str>)
    ensures { parts_at_commas text.now ≡ result.0.now ∷ parts_of_rest (option_map (λ t. t.now) result.1) }
{
    match text.split_once(',') {
        Some((part, rest)) => (part, Some(rest)),
        None => (text, None),
    }
}

/// The blocks of the kind that the parts of the text at its commas write, in their order.
fn listed_blocks(
    alloc: Global,
    kind: ResourceKind,
    text: &str,
) -> Result<Vec<Block>, ParseBlocksError>
    ensures { MatchResult result (λ v. AreBlockTexts kind (parts_at_commas text.now) v.items)
        (AreBlockTextsError kind (parts_at_commas text.now)) }
{
    let mut found = Vec::new(alloc);
    let mut left = Some(text);
    'parts: while let Some(text) = left {
        let (part, rest) = first_part(text);
        let block = block_of_text(kind, part.trim())?;
        push_some(&mut found, Some(block))?;
        left = rest;
    }
    Ok(found)
}

impl Blocks {
    /// Reads a set of numbers of the kind as its blocks, in any order, with commas between them and white space around
    /// each, where there is any: what [Blocks::text] writes is read back. A text of white space is the empty set.
    /// Blocks of addresses are those of the family alone.
    ///
    /// The error is that of the first part that is no block of the kind; `OutOfMemory` if allocation fails, only after
    /// a part that is one.
    pub fn from_text(
        alloc: Global,
        kind: ResourceKind,
        text: &str,
    ) -> Result<Blocks, ParseBlocksError>
        ensures { MatchResult result (IsBlocksText kind text.now) (IsBlocksTextError kind text.now) }
    {
        if text.trim().is_empty() {
            return Ok(Blocks::empty(alloc));
        }
        let found = listed_blocks(alloc, kind, text)?;
        match Blocks::of(alloc, found.as_slice()) {
            Ok(blocks) => Ok(blocks),
            Err(_) => Err(ParseBlocksError::OutOfMemory),
        }
    }
}

/// Error returned when a text is not a list of blocks.
#[derive(Clone, Copy, Debug, PartialEq, Eq)]
pub enum ParseBlocksError {
    /// What is there is not a block of addresses of the family.
    BadIpBlock,
    /// What is there is not a block of AS numbers, and why.
    BadAsBlock(ParseAsBlockError),
    /// Allocation failed.
    OutOfMemory,
}

impl From<AllocError> for ParseBlocksError {
    ghost use Rattle.std.specs.Prelude.{◌≡◌};
    ghost use Rattle.rpki_resources.specs.declared.list_read.ParseBlocksError.TheVariants.{OutOfMemory};

    ghost from_gives = { λ e r. r ≡ OutOfMemory };

    fn from(_: AllocError) -> ParseBlocksError {
        ParseBlocksError::OutOfMemory
    }
}

impl Display for ParseBlocksError {
    ghost use Rattle.std.specs.Prelude.{Some};
    ghost use Rattle.rpki_resources.specs.ListRead.{blocks_error_text};

    ghost output = { λ e. Some (blocks_error_text e) };

    fn fmt<W: fmt::Write>(&self, f: &mut fmt::Formatter<W>) -> fmt::Result {
        match self {
            ParseBlocksError::BadIpBlock => f.write_str("invalid block of addresses"),
            ParseBlocksError::BadAsBlock(e) => Display::fmt(e, f),
            ParseBlocksError::OutOfMemory => f.write_str("allocation failed"),
        }
    }
}

impl Error for ParseBlocksError {}
