//! Texts of AS numbers and of blocks of them, as they are read: `AS64496`, `64496`, `AS1-AS5`.

ghost use Rattle.std.specs.Prelude.{◌≡◌, ◌<◌, MatchResult};
ghost use Rattle.std.specs.Option.{option_map};
ghost use Rattle.rpki_resources.specs.AsRead.{after_letter, without_as, IsAsRangeText, IsAsRangeError};

use crate::as_text::{AsBlock, Asn};
use crate::block::Block;
use std::error::Error;
use std::fmt;
use std::fmt::Display;
use std::str::FromStr;

/// What follows the letter, in either case.
fn after_letter<'a>(text: &'a str, upper: char, lower: char) -> Option<&'a str>
    requires upper { upper < 128 }
    requires lower { lower < 128 }
    ensures { option_map (λ t. t.now) result ≡ after_letter upper lower text.now }
{
    match text.strip_prefix(upper) {
        Some(rest) => Some(rest),
        None => text.strip_prefix(lower),
    }
}

/// What follows `AS`, in any case; else the text.
fn without_as(text: &str) -> &str
    ensures { result.now ≡ without_as text.now }
{
    match after_letter(text, 'A', 'a') {
        Some(rest) => match after_letter(rest, 'S', 's') {
            Some(number) => number,
            None => text,
        },
        None => text,
    }
}

/// Reads a number as `64496`, or with `AS` in front, in any case.
impl FromStr for Asn {
    type Err = ParseAsnError;

    ghost use Rattle.std.specs.Net.Grammar.{Parses};
    ghost use Rattle.rpki_resources.specs.AsRead.{IsAsnText};

    ghost from_str_gives = { λ s r. Parses IsAsnText s r };

    fn from_str(s: &str) -> Result<Asn, ParseAsnError> {
        match without_as(s).parse::<u32>() {
            Ok(number) => Ok(Asn(number)),
            Err(_) => Err(ParseAsnError),
        }
    }
}

/// The block of the numbers from the one that the first text writes to the one that the second does.
fn range_of(low: &str, high: &str) -> Result<AsBlock, ParseAsBlockError>
    ensures { MatchResult result (IsAsRangeText low.now high.now) (IsAsRangeError low.now high.now) }
{
    let Ok(min) = low.parse::<Asn>() else {
        return Err(ParseAsBlockError::BadAsn);
    };
    let Ok(max) = high.parse::<Asn>() else {
        return Err(ParseAsBlockError::BadAsn);
    };
    let block = Block {
        low: u128::from(min.0),
        high: u128::from(max.0),
    };
    match AsBlock::of(block) {
        Some(block) => Ok(block),
        None => Err(ParseAsBlockError::BadRange),
    }
}

/// Reads one number, as `AS64496`, or two with a hyphen between them, as `AS1-AS5`. Where both are the same, the block
/// is that one number.
///
/// Returns `BadRange` where the first of two numbers is above the second; else `BadAsn`.
impl FromStr for AsBlock {
    type Err = ParseAsBlockError;

    ghost use Rattle.std.specs.Prelude.{MatchResult};
    ghost use Rattle.rpki_resources.specs.AsRead.{IsAsBlockText, IsAsBlockError};

    ghost from_str_gives = { λ s r. MatchResult r (IsAsBlockText s) (IsAsBlockError s) };

    fn from_str(s: &str) -> Result<AsBlock, ParseAsBlockError> {
        match s.split_once('-') {
            Some((low, high)) => range_of(low, high),
            None => match s.parse::<Asn>() {
                Ok(number) => Ok(AsBlock::Id(number)),
                Err(_) => Err(ParseAsBlockError::BadAsn),
            },
        }
    }
}

/// Error returned when a text is not an AS number.
#[derive(Clone, Copy, Debug, PartialEq, Eq)]
pub struct ParseAsnError;

impl Display for ParseAsnError {
    ghost use Rattle.std.specs.Prelude.{Some, codes};

    ghost output = { λ _. Some (codes "invalid AS number") };

    fn fmt<W: fmt::Write>(&self, f: &mut fmt::Formatter<W>) -> fmt::Result {
        f.write_str("invalid AS number")
    }
}

impl Error for ParseAsnError {}

/// Error returned when a text is not a block of AS numbers.
#[derive(Clone, Copy, Debug, PartialEq, Eq)]
pub enum ParseAsBlockError {
    /// What is there is not an AS number.
    BadAsn,
    /// The first number of a range is above the last.
    BadRange,
}

impl Display for ParseAsBlockError {
    ghost use Rattle.std.specs.Prelude.{Some};
    ghost use Rattle.rpki_resources.specs.AsRead.{as_block_error_text};

    ghost output = { λ e. Some (as_block_error_text e) };

    fn fmt<W: fmt::Write>(&self, f: &mut fmt::Formatter<W>) -> fmt::Result {
        match self {
            ParseAsBlockError::BadAsn => f.write_str("invalid AS number"),
            ParseAsBlockError::BadRange => f.write_str("invalid range of AS numbers"),
        }
    }
}

impl Error for ParseAsBlockError {}
