//! Key identifiers.

ghost use Rattle.std.specs.Prelude.{◌≡◌, ◌≢◌, ◌<◌, ℕ, Bool, true, false, [], ◌∷◌, length, IsTrue, IfOk, IfErr, IfSome};
ghost use Rattle.std.specs.Prelude.{IfNone, MatchResult, nat_eq};
ghost use Rattle.std.specs.Char.{to_ascii_uppercase};
ghost use Rattle.std.specs.Cmp.Lexicographic.{pointwise};
ghost use Rattle.rpki_der.specs.declared.error.DecodeError.TheVariants.{Unexpected};
ghost use Rattle.rpki_der.specs.Prelude.{left, AreOctets, is_constructed, octets_of, octet_string, Takes, TakesWhere};
ghost use Rattle.rpki_text.specs.HexText.{hex_digit, hex_text};
ghost use Rattle.rpki.specs.UnknownAlgorithm.{IsContentWith};
ghost use Rattle.rpki.specs.KeyIdentifier.{IsKeyIdentifier, key_identifier, any_identifier, identifier_error};

use rpki_der::{Constructed, Content, DecodeError, PrimitiveContent, Tag, write_whole};
use rpki_text::util::hex;
use std::error::Error;
use std::io::Write;
use std::marker::Model;
use std::str::FromStr;
use std::{fmt, io};

/// The identifier of a key: the SHA-1 digest of its bits, twenty octets (RFC 6487 4.8.2).
#[derive(Clone, Copy, PartialEq, Eq, PartialOrd, Ord, Hash)]
pub struct KeyIdentifier {
    octets: [u8; 20],
}

impl Model for KeyIdentifier {
    ghost use Rattle.std.specs.Prelude.{ℕ, List};

    ghost Value = { List ℕ };

    ghost view = { λ k. k.octets };

    ghost inverse = { λ o. record { octets = o } };
}

impl KeyIdentifier {
    /// The twenty octets.
    pub fn as_slice(&self) -> &[u8]
        ensures octets { result.now ≡ self.now }
        ensures size { length self.now ≡ 20 }
    {
        &self.octets
    }

    /// The octets as hexadecimal digits in upper case (RFC 4648 8).
    pub fn into_hex(self) -> [u8; 40]
        ensures digits { result ≡ hex_text self }
        ensures octets { AreOctets self }
    {
        hex_of(self.as_slice())
    }

    /// Whether these are its octets.
    pub fn eq_bytes(&self, octets: &[u8]) -> bool
        ensures { result ≡ pointwise nat_eq self.now octets.now }
    {
        self.as_slice() == octets
    }

    /// A key identifier: an OCTET STRING of twenty octets (RFC 5280 4.2.1.2). Allocates nothing.
    ///
    /// The errors are those of a header; then `Unexpected` for another tag or form; then `Truncated`; then `Content`
    /// with the text `invalid key identifier` for another number of octets.
    pub fn take_from(cons: &mut Constructed<'_>) -> Result<KeyIdentifier, DecodeError>
        ensures { Takes (λ k. k) key_identifier (left cons.old) (left cons.new) result }
    {
        let mut after = *cons;
        let octets = after.take_octets()?;
        match key_identifier_of(octets) {
            Ok(identifier) => {
                *cons = after;
                Ok(identifier)
            }
            Err(e) => Err(e),
        }
    }

    /// As [KeyIdentifier::take_from] where the rest begins with the identifier octets of an OCTET STRING, in either
    /// form; else None, and the cursor stays where it is.
    pub fn take_opt_from(cons: &mut Constructed<'_>) -> Result<Option<KeyIdentifier>, DecodeError>
        ensures { TakesWhere octet_string (λ k. k) key_identifier (left cons.old) (left cons.new) result }
    {
        if !cons.has_tag(Tag::OCTET_STRING) {
            return Ok(None);
        }
        match KeyIdentifier::take_from(cons) {
            Ok(identifier) => Ok(Some(identifier)),
            Err(e) => Err(e),
        }
    }

    /// Moves past a key identifier where [KeyIdentifier::take_opt_from] reads one; else None. The errors are the same.
    pub fn skip_opt_in(cons: &mut Constructed<'_>) -> Result<Option<()>, DecodeError>
        ensures { TakesWhere octet_string (λ _. tt) any_identifier (left cons.old) (left cons.new) result }
    {
        match KeyIdentifier::take_opt_from(cons) {
            Ok(None) => Ok(None),
            Ok(Some(_)) => Ok(Some(())),
            Err(e) => Err(e),
        }
    }

    /// The key identifier with these contents.
    ///
    /// Returns `Unexpected` for values as contents; `Content` with the text `invalid key identifier` if there are not
    /// twenty octets.
    pub fn from_content(content: &Content<'_>) -> Result<KeyIdentifier, DecodeError>
        ensures value { IfOk result (λ k. (is_constructed content.now ≡ false)
            × IsKeyIdentifier k (octets_of content.now)) }
        ensures form { is_constructed content.now ≡ true → MatchResult result (λ _. ⊥) (λ e. e ≡ Unexpected) }
        ensures size { is_constructed content.now ≡ false
            → IfErr result (λ e. (length (octets_of content.now) ≢ 20) × IsContentWith identifier_error e) }
    {
        match content {
            Content::Primitive(octets) => key_identifier_of(octets),
            Content::Constructed(_) => Err(DecodeError::Unexpected),
        }
    }
}

/// The key identifier of twenty octets.
fn key_identifier_of(octets: &[u8]) -> Result<KeyIdentifier, DecodeError>
    ensures { MatchResult result (λ k. IsKeyIdentifier k octets.now)
        (λ e. (length octets.now ≢ 20) × IsContentWith identifier_error e) }
{
    match KeyIdentifier::try_from(octets) {
        Ok(identifier) => Ok(identifier),
        Err(_) => Err(DecodeError::content("invalid key identifier")),
    }
}

impl From<[u8; 20]> for KeyIdentifier {
    ghost use Rattle.std.specs.Prelude.{◌≡◌};

    ghost from_gives = { λ octets k. k ≡ octets };

    fn from(octets: [u8; 20]) -> KeyIdentifier {
        KeyIdentifier { octets }
    }
}

impl From<KeyIdentifier> for [u8; 20] {
    ghost use Rattle.std.specs.Prelude.{◌≡◌};

    ghost from_gives = { λ k octets. octets ≡ k };

    fn from(identifier: KeyIdentifier) -> [u8; 20] {
        identifier.octets
    }
}

/// Twenty octets are a key identifier; any other number is an error.
impl TryFrom<&[u8]> for KeyIdentifier {
    type Error = KeyIdentifierSliceError;

    ghost use Rattle.std.specs.Prelude.{◌≢◌, MatchResult, length};
    ghost use Rattle.rpki.specs.KeyIdentifier.{IsKeyIdentifier};

    ghost try_from_gives = { λ octets r. MatchResult r (λ k. IsKeyIdentifier k octets.now)
        (λ _. length octets.now ≢ 20) };

    fn try_from(octets: &[u8]) -> Result<KeyIdentifier, KeyIdentifierSliceError> {
        match <[u8; 20]>::try_from(octets) {
            Ok(octets) => Ok(KeyIdentifier { octets }),
            Err(_) => Err(KeyIdentifierSliceError),
        }
    }
}

/// Forty hexadecimal digits of either case are a key identifier; any other text is an error.
impl FromStr for KeyIdentifier {
    type Err = ParseKeyIdentifierError;

    ghost use Rattle.std.specs.Prelude.{ℕ, List, MatchResult};
    ghost use Rattle.rpki.specs.KeyIdentifier.{IsHexOf};

    ghost from_str_gives = { λ text r. MatchResult r (λ k. IsHexOf k text) (λ _. (k : List ℕ) → IsHexOf k text → ⊥) };

    fn from_str(text: &str) -> Result<KeyIdentifier, ParseKeyIdentifierError> {
        let digits = text.as_bytes();
        if digits.len() != 40 {
            return Err(ParseKeyIdentifierError);
        }
        let mut octets = [0; 20];
        for i in 0..20 {
            match octet_of(digits[2 * i], digits[2 * i + 1]) {
                Some(octet) => octets[i] = octet,
                None => return Err(ParseKeyIdentifierError),
            }
        }
        Ok(KeyIdentifier { octets })
    }
}

/// The octet that two hexadecimal digits of either case write, the high one first.
fn octet_of(high: u8, low: u8) -> Option<u8>
    ensures octet { IfSome result (λ b. b < 256) }
    ensures some { IfSome result (λ b. hex_text (b ∷ []) ≡ to_ascii_uppercase high ∷ to_ascii_uppercase low ∷ []) }
    ensures none { IfNone result ((b : ℕ) → b < 256
        → hex_text (b ∷ []) ≡ to_ascii_uppercase high ∷ to_ascii_uppercase low ∷ [] → ⊥) }
{
    match (number_of_digit(high), number_of_digit(low)) {
        (Some(high), Some(low)) => Some(16 * high + low),
        _ => None,
    }
}

/// The number that a hexadecimal digit of either case writes.
fn number_of_digit(digit: u8) -> Option<u8>
    ensures some { IfSome result (λ n. (n < 16) × (hex_digit n ≡ to_ascii_uppercase digit)) }
    ensures none { IfNone result ((n : ℕ) → n < 16 → hex_digit n ≡ to_ascii_uppercase digit → ⊥) }
{
    match digit {
        b'0'..=b'9' => Some(digit - b'0'),
        b'A'..=b'F' => Some(digit - b'A' + 10),
        b'a'..=b'f' => Some(digit - b'a' + 10),
        _ => None,
    }
}

/// The octets as hexadecimal digits in upper case.
impl fmt::Display for KeyIdentifier {
    ghost use Rattle.std.specs.Prelude.{Some};
    ghost use Rattle.rpki_text.specs.HexText.{hex_text};

    ghost output = { λ k. Some (hex_text k) };

    fn fmt<W: fmt::Write>(&self, f: &mut fmt::Formatter<W>) -> fmt::Result {
        let mut buffer = [0; 40];
        f.write_str(hex::encode(&self.octets, &mut buffer))
    }
}

/// `KeyIdentifier(`, the octets as hexadecimal digits in upper case, and `)`.
impl fmt::Debug for KeyIdentifier {
    fn fmt<W: fmt::Write>(&self, f: &mut fmt::Formatter<W>) -> fmt::Result {
        write!(f, "KeyIdentifier({self})")
    }
}

/// OCTET STRING: the twenty octets (RFC 5280 4.2.1.2).
impl PrimitiveContent for KeyIdentifier {
    ghost use Rattle.rpki_der.specs.Prelude.{octet_string, octet_string_contents};

    ghost plain = { octet_string };

    const TAG: Tag = Tag::OCTET_STRING;

    ghost contents = { octet_string_contents };

    fn plain_tag(&self) -> Tag {
        key_identifier_tag()
    }

    fn encoded_len(&self) -> u64 {
        self.as_slice().len() as u64
    }

    #[tactic(auto, using(rpki_der::proofs::WritingLaws::writes_of_cut))]
    fn write_encoded<W: Write>(&self, out: &mut W) -> Result<(), io::Error> {
        write_whole(out, self.as_slice())
    }
}

/// The tag of key identifiers: the constant of [KeyIdentifier].
fn key_identifier_tag() -> Tag
    ensures { result ≡ octet_string }
{
    <KeyIdentifier as PrimitiveContent>::TAG
}

/// Error returned when a text is not a key identifier.
#[derive(Clone, Debug, Drop)]
pub struct ParseKeyIdentifierError;

impl fmt::Display for ParseKeyIdentifierError {
    ghost use Rattle.std.specs.Prelude.{Some};
    ghost use Rattle.rpki.specs.ErrorTexts.{parse_text};

    ghost output = { λ _. Some parse_text };

    fn fmt<W: fmt::Write>(&self, f: &mut fmt::Formatter<W>) -> fmt::Result {
        f.write_str("invalid key identifier")
    }
}

impl Error for ParseKeyIdentifierError {}

/// Error returned when octets are not a key identifier, since there are not twenty.
#[derive(Clone, Debug, Drop)]
pub struct KeyIdentifierSliceError;

impl fmt::Display for KeyIdentifierSliceError {
    ghost use Rattle.std.specs.Prelude.{Some};
    ghost use Rattle.rpki.specs.ErrorTexts.{slice_text};

    ghost output = { λ _. Some slice_text };

    fn fmt<W: fmt::Write>(&self, f: &mut fmt::Formatter<W>) -> fmt::Result {
        f.write_str("invalid slice for key identifier")
    }
}

impl Error for KeyIdentifierSliceError {}

/// Twenty octets as hexadecimal digits.
fn hex_of(identifier: &[u8]) -> [u8; 40]
    requires { length identifier.now ≡ 20 }
    ensures digits { result ≡ hex_text identifier.now }
    ensures octets { AreOctets identifier.now }
{
    let mut buffer = [0; 40];
    let mut digits = [0; 40];
    digits.copy_from_slice(hex::encode(identifier, &mut buffer).as_bytes());
    digits
}
