//! The vCard of a Ghostbusters record (RFC 6493 4, RFC 6350), read in place without memory.

ghost use Rattle.std.specs.Prelude.{◌≡◌, ◌<◌, IfSome, length};
ghost use Rattle.std.specs.Option.{option_map};
ghost use Rattle.std.specs.Str.{is_utf8};
ghost use Rattle.rpki_der.specs.Prelude.{left};
ghost use Rattle.rpki_parse.specs.Words.{kinds};
ghost use Rattle.rpki_records.specs.Card.{card_in, card_line_at, card_lines_in, found_card, found_property};
ghost use Rattle.rpki_records.specs.Card.{given_property_at, holds, seen_end, seen_with};
ghost use Rattle.rpki_parse.specs.Parts.{told};

use crate::card_octets::{is_word, take_line, take_text_line};
use crate::card_property::{CardProperty, PropertyKind, read_property};
use rpki_der::{Constructed, DecodeError};
use rpki_parse::{Malformed, Step, at_part, fold};

/// The malformed part of a card.
#[derive(Clone, Copy, Debug, PartialEq, Eq)]
pub enum CardPart {
    /// The text: it is no UTF-8.
    Text,
    /// The first line.
    Begin,
    /// The second line, with the version.
    Version,
    /// A line that follows: it is no property of the profile, or is after the end.
    Property,
    /// The last line, which is missing.
    End,
    /// The name, which is missing.
    Name,
    /// The address, the telephone number and the email address, which are all missing.
    Contact,
}

/// A card, whose lines are borrowed from the octets that it was read from.
#[derive(Clone, Copy)]
pub struct Card<'a> {
    /// The lines that follow the version: the properties, and the end.
    pub lines: &'a [u8],
    /// How many properties there are.
    pub count: usize,
}

/// The properties of a card that have yet to be given, in order.
#[derive(Clone, Copy)]
pub struct PropertyCursor<'a> {
    /// The rest of their octets.
    pub rest: Constructed<'a>,
}

/// What was seen of a card so far.
#[derive(Clone, Copy)]
pub(crate) struct Seen {
    /// A name.
    pub(crate) name: bool,
    /// An address, a telephone number or an email address.
    pub(crate) contact: bool,
    /// The end.
    pub(crate) end: bool,
}

impl Seen {
    /// The same with a property of this kind.
    fn with(self, kind: PropertyKind) -> Seen
        ensures { result ≡ seen_with kind self }
    {
        match kind {
            PropertyKind::Name => Seen { name: true, ..self },
            PropertyKind::Organization => self,
            PropertyKind::Address => Seen {
                contact: true,
                ..self
            },
            PropertyKind::Telephone => Seen {
                contact: true,
                ..self
            },
            PropertyKind::Email => Seen {
                contact: true,
                ..self
            },
        }
    }
}

/// Reads a property, or the end.
#[derive(Drop)]
struct LineStep;

impl Step for LineStep {
    type State = Seen;

    ghost next_at = { λ _. card_line_at };

    fn next(&self, seen: Seen, cons: &mut Constructed<'_>) -> Result<Seen, DecodeError> {
        if seen.end {
            return Err(DecodeError::Trailing);
        }
        let mut after = *cons;
        let line = take_line(&mut after)?;
        if is_word(line, b"END:VCARD") {
            *cons = after;
            return Ok(Seen { end: true, ..seen });
        }
        let property = read_property(line)?;
        *cons = after;
        Ok(seen.with(property.kind))
    }
}

/// What is seen of the lines, which are the whole rest, and how many they are.
#[tactic(auto, unfolding(crate::specs::Card::card_lines_in))]
fn read_lines(contents: Constructed<'_>) -> Result<(Seen, usize), DecodeError>
    ensures { kinds result ≡ card_lines_in (left contents.entry) }
{
    let nothing = Seen {
        name: false,
        contact: false,
        end: false,
    };
    fold(contents, nothing, &LineStep)
}

/// Returns Ok where it is so, else `Content`.
fn holds(is_so: bool) -> Result<(), DecodeError>
    ensures { kinds result ≡ holds is_so }
{
    if is_so {
        Ok(())
    } else {
        Err(DecodeError::content("missing part of a vCard"))
    }
}

/// Whether the octets are UTF-8.
fn is_utf8(octets: &[u8]) -> bool
    ensures { result ≡ is_utf8 octets.now }
{
    match str::from_utf8(octets) {
        Ok(_) => true,
        Err(_) => false,
    }
}

impl<'a> Card<'a> {
    /// The vCard of a Ghostbusters record (RFC 6493 4): `BEGIN:VCARD`, `VERSION:4.0`, lines of FN, ORG, ADR, TEL and
    /// EMAIL, of which one FN at least and one ADR, TEL or EMAIL at least, and `END:VCARD`, and nothing else. The text
    /// is UTF-8 (RFC 6350 3.1), each line ends with CR LF, may be folded (3.2), and is as RFC 6350 3.3 says, whatever
    /// the case of letters of its words. Allocates nothing.
    ///
    /// The error is that of a text that isn't UTF-8; then of the first malformed line, `Trailing` of one after the end;
    /// then of the first part that is missing: the end, a name, or all of address, telephone number and email address.
    pub fn read(octets: &'a [u8]) -> Result<Card<'a>, Malformed<CardPart>>
        ensures { told found_card result ≡ card_in octets.entry.now }
    {
        at_part(CardPart::Text, holds(is_utf8(octets)))?;
        let mut rest = Constructed::from_slice(octets);
        at_part(CardPart::Begin, take_text_line(&mut rest, b"BEGIN:VCARD"))?;
        at_part(CardPart::Version, take_text_line(&mut rest, b"VERSION:4.0"))?;
        let (seen, count) = at_part(CardPart::Property, read_lines(rest))?;
        at_part(CardPart::End, holds(seen.end))?;
        at_part(CardPart::Name, holds(seen.name))?;
        at_part(CardPart::Contact, holds(seen.contact))?;
        Ok(Card {
            lines: rest.rest(),
            count: count.saturating_sub(1),
        })
    }

    /// A cursor over the properties, in order.
    pub fn properties(self) -> PropertyCursor<'a>
        ensures { left result.rest ≡ self.entry.lines.now }
    {
        PropertyCursor {
            rest: Constructed::from_slice(self.lines),
        }
    }
}

impl<'a> PropertyCursor<'a> {
    /// The next property; None where none remains, or the remaining octets are no properties.
    pub fn next_property(&mut self) -> Option<CardProperty<'a>>
        ensures given { (option_map found_property result, left self.new.rest)
            ≡ given_property_at (left self.old.rest) }
        ensures shorter { IfSome result (λ _. length (left self.new.rest) < length (left self.old.rest)) }
    {
        match CardProperty::take_from(&mut self.rest) {
            Ok(property) => Some(property),
            Err(_) => None,
        }
    }
}
