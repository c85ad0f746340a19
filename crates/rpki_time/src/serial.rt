//! Serial numbers of certificates.

ghost use Rattle.std.specs.Prelude.{◌≡◌, ◌<◌, ◌≤◌, ◌^◌, ◌==◌, ◌↔◌, [], length, IsOk, IfOk, IfErr, Err, slice_index};
ghost use Rattle.std.specs.Ordering.{nat_cmp, as_partial_cmp};
ghost use Rattle.std.specs.Cmp.{partial_order_from_own_ties};
ghost use Rattle.std.specs.Cmp.Rules.{comparing, hashing};
ghost use Rattle.std.specs.Hash as fed;
ghost use Rattle.std.specs.Result.{OkIff};
ghost use Rattle.std.proofs.Common.{rules};
ghost use Rattle.rpki_der.specs.Prelude.{left, Takes, TakesWholeInPlace, number_of, low_octets, Reads, integer};
ghost use Rattle.rpki_time.specs.Serial.{IsLong, serial_contents, serial_number};
ghost use Rattle.rpki_time.specs.declared.serial.SerialSliceError.TheVariants.{Long};

use rpki_der::{Constructed, ContentError, DecodeError, PrimitiveContent, Tag, write_whole};
use std::cmp::Ordering;
use std::error::Error;
use std::hash::{Hash, Hasher};
use std::io::Write;
use std::marker::Model;
use std::{fmt, io};

/// Error returned when octets are not a valid serial number.
#[derive(Clone, Copy, Debug, PartialEq, Eq)]
pub enum SerialSliceError {
    /// The input is empty.
    Empty,
    /// The input has more than 20 octets, or 20 of which the first bit is set.
    Long,
}

impl SerialSliceError {
    ghost use Rattle.rpki_time.specs.ErrorTexts.{serial_error_text};

    fn text(self) -> &'static str
        ensures { result.now ≡ serial_error_text self }
    {
        match self {
            SerialSliceError::Empty => "empty serial number",
            SerialSliceError::Long => "serial number longer than 20 bytes",
        }
    }
}

impl fmt::Display for SerialSliceError {
    ghost use Rattle.std.specs.Prelude.{Some};
    ghost use Rattle.rpki_time.specs.ErrorTexts.{serial_error_text};

    ghost output = { λ e. Some (serial_error_text e) };

    fn fmt<W: fmt::Write>(&self, f: &mut fmt::Formatter<W>) -> fmt::Result {
        f.write_str(self.text())
    }
}

impl Error for SerialSliceError {}

/// The error of contents that has the same text.
impl From<SerialSliceError> for ContentError {
    ghost use Rattle.std.specs.Prelude.{◌≡◌};
    ghost use Rattle.rpki_der.specs.Prelude.{text_of};
    ghost use Rattle.rpki_time.specs.ErrorTexts.{serial_error_text};

    ghost from_gives = { λ e c. text_of c ≡ serial_error_text e };

    fn from(e: SerialSliceError) -> ContentError {
        ContentError::from_static(e.text())
    }
}

/// The serial number of a certificate: a non-negative number below 2^159, so that its INTEGER has at most 20 contents
/// octets (RFC 5280 4.1.2.2).
#[derive(Clone, Copy, Debug)]
pub struct Serial {
    octets: [u8; 20],
}

impl Model for Serial {
    ghost use Rattle.std.specs.Prelude.{ℕ, ◌≡◌, ◌<◌, length, slice_index};
    ghost use Rattle.rpki_der.specs.Prelude.{number_of, AreOctets, low_octets, low_octets-full};

    ghost Value = { ℕ };

    ghost view = { λ s. number_of s.octets };

    ghost invariant = { λ s. (length s.octets ≡ 20) × AreOctets s.octets × (slice_index s.octets 0 < 128) };

    ghost inverse = { λ n. record { octets = low_octets 20 n } };

    ghost inverse_ok = { λ s h i. record { octets = low_octets-full s.octets 20 h.0 h.1 i } };
}

impl Serial {
    /// The 20 octets of the number, the most significant first, with leading zeros.
    pub fn into_array(self) -> [u8; 20]
        ensures value { number_of result ≡ self }
        ensures first_bit { slice_index result 0 < 128 }
        ensures below { self < 2 ^ 159 }
    {
        self.octets
    }

    /// The number that the octets write, the most significant first. Leading zeros count as octets.
    ///
    /// Returns `Empty` if there are no octets; `Long` if they are more than 20, or 20 of which the first bit is set.
    pub fn from_slice(octets: &[u8]) -> Result<Serial, SerialSliceError>
        ensures value { IfOk result (λ s. s ≡ number_of octets.now) }
        ensures empty { (result ≡ Err SerialSliceError.Empty) ↔ (octets.now ≡ []) }
        ensures long { (result ≡ Err SerialSliceError.Long) ↔ IsLong octets.now }
    {
        if octets.is_empty() {
            return Err(SerialSliceError::Empty);
        }
        if octets.len() > 20 {
            return Err(SerialSliceError::Long);
        }
        if octets.len() == 20 && octets[0] >= 128 {
            return Err(SerialSliceError::Long);
        }
        let mut padded = [0; 20];
        padded[20 - octets.len()..].copy_from_slice(octets);
        Ok(Serial { octets: padded })
    }

    /// The number that the octets write, the most significant first.
    ///
    /// Returns `Long` if the first bit is set.
    pub fn from_array(octets: [u8; 20]) -> Result<Serial, SerialSliceError>
        ensures value { IfOk result (λ s. s ≡ number_of octets) }
        ensures succeeds { IsOk result ↔ (slice_index octets 0 < 128) }
        ensures err { IfErr result (λ e. e ≡ SerialSliceError.Long) }
    {
        Serial::from_slice(&octets)
    }

    /// The contents octets of the INTEGER of the number: as few as can be, with the first bit 0 (X.690 8.3).
    fn contents(&self) -> &[u8]
        ensures contents { result.now ≡ serial_contents self.now }
        ensures few { length result.now ≤ 20 }
    {
        let mut start = 0;
        while start < 19 && self.octets[start] == 0 && self.octets[start + 1] < 128 {
            start += 1;
        }
        &self.octets[start..]
    }

    /// A serial number: a non-negative INTEGER (X.690 8.3) of at most 20 contents octets, and nothing else. Allocates
    /// nothing.
    ///
    /// The errors are those of [Serial::take_from]; then `Trailing` if something follows the number.
    pub fn decode(octets: &[u8]) -> Result<Serial, DecodeError>
        ensures { TakesWholeInPlace (λ n. n) serial_number octets.now result }
    {
        Constructed::from_slice(octets).whole(|cons| Serial::take_from(cons))
    }

    /// Reads a serial number: a non-negative INTEGER (X.690 8.3) of at most 20 contents octets. Allocates nothing.
    ///
    /// The errors are those of a header; then `Unexpected` for another tag or form; then `Truncated`; then `Content`
    /// for contents that are empty, negative or begin with nine equal bits, and, with the text `serial number longer
    /// than 20 bytes`, for a number with more octets. An error leaves the cursor where it was.
    pub fn take_from(cons: &mut Constructed<'_>) -> Result<Serial, DecodeError>
        ensures { Takes (λ n. n) serial_number (left cons.old) (left cons.new) result }
    {
        let mut after = *cons;
        let number = after.take_unsigned()?;
        match Serial::from_slice(number.as_slice()) {
            Ok(serial) => {
                *cons = after;
                Ok(serial)
            }
            Err(e) => Err(DecodeError::Content(ContentError::from(e))),
        }
    }
}

/// Returns `Long` if the first bit is set.
impl TryFrom<[u8; 20]> for Serial {
    type Error = SerialSliceError;

    ghost try_from_gives = { λ octets r. OkIff r (slice_index octets 0 < 128) (number_of octets)
        × IfErr r (λ e. e ≡ Long) };

    fn try_from(octets: [u8; 20]) -> Result<Serial, SerialSliceError> {
        Serial::from_array(octets)
    }
}

impl From<Serial> for [u8; 20] {
    ghost from_gives = { λ serial octets. (number_of octets ≡ serial) × (slice_index octets 0 < 128) };

    fn from(serial: Serial) -> [u8; 20] {
        serial.into_array()
    }
}

impl From<u128> for Serial {
    ghost from_gives = { λ number serial. serial ≡ number };

    fn from(number: u128) -> Serial {
        let mut octets = [0; 20];
        octets[4..].copy_from_slice(&number.to_be_bytes());
        Serial { octets }
    }
}

impl From<u64> for Serial {
    ghost from_gives = { λ number serial. serial ≡ number };

    fn from(number: u64) -> Serial {
        Serial::from(u128::from(number))
    }
}

/// Zero.
impl Default for Serial {
    ghost is_default = { λ serial. serial ≡ 0 };

    fn default() -> Serial {
        Serial { octets: [0; 20] }
    }
}

impl PartialEq for Serial {
    ghost eq = { ◌==◌ };

    ghost laws = { Prim.search (comparing, rules) };

    fn eq(&self, other: &Serial) -> bool {
        self.octets == other.octets
    }
}

impl Eq for Serial {
    ghost laws = { Prim.search (comparing, rules) };
}

/// The order of the numbers.
impl Ord for Serial {
    ghost cmp = { nat_cmp };

    ghost total = { Prim.search (comparing, rules) };

    ghost matches_partial_cmp = { Prim.search (comparing, rules) };

    ghost matches_eq = { Prim.search (comparing, rules) };

    fn cmp(&self, other: &Serial) -> Ordering {
        self.octets.cmp(&other.octets)
    }
}

impl PartialOrd for Serial {
    ghost partial_cmp = { as_partial_cmp nat_cmp };

    ghost laws = { partial_order_from_own_ties (Prim.search (comparing, rules))
        (Prim.search (comparing, rules)) };

    fn partial_cmp(&self, other: &Serial) -> Option<Ordering> {
        Some(self.cmp(other))
    }
}

impl Hash for Serial {
    ghost hash_input = { λ n. fed.slice fed.u8 (low_octets 20 n) };

    ghost respects_eq = { Prim.search (hashing, rules) };

    fn hash<H: Hasher>(&self, state: &mut H) {
        self.octets.hash(state);
    }
}

/// INTEGER: as few octets as can be, with the first bit 0 (X.690 8.3).
impl PrimitiveContent for Serial {
    ghost plain = { integer };

    const TAG: Tag = Tag::INTEGER;

    ghost contents = { serial_contents };

    fn encoded_len(&self) -> u64 {
        self.contents().len() as u64
    }

    #[tactic(auto, using(rpki_der::proofs::WritingLaws::writes_of_cut))]
    fn write_encoded<W: Write>(&self, out: &mut W) -> Result<(), io::Error> {
        write_whole(out, self.contents())
    }

    fn plain_tag(&self) -> Tag {
        Self::TAG
    }
}
