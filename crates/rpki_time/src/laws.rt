//! Laws of serial numbers, times and validity periods. A law over definitions alone is a function that does nothing; a
//! law of a call makes that call. The contract is the law.

ghost use Rattle.std.specs.Prelude.{◌≡◌, ◌≤◌, ◌<◌, ◌^◌, ◌<ℤ◌, ◌↔◌, ℕ, ℤ, List, ◌++◌, length, true, IsTrue, IfOk, Ok};
ghost use Rattle.std.specs.Ordering.{int_cmp};
ghost use Rattle.jiff.specs.Types.{DateTime as Civil};
ghost use Rattle.jiff.specs.Words.{civil_nanos};
ghost use Rattle.rpki_der.specs.Prelude.{left, IsUnsigned};
ghost use Rattle.rpki_time.specs.PeriodValue.{period_octets};
ghost use Rattle.rpki_time.specs.Serial.{IsSerialContents, SpellsSerial, serial_contents, serial_octets};
ghost use Rattle.rpki_time.specs.Time.{IsTimeYear, cut, ReadsCut};
ghost use Rattle.rpki_time.specs.TimeText.{IsUtcYear, is_utc_year, utc_text, generalized_text, ReadsAsUtc};
ghost use Rattle.rpki_time.specs.TimeText.{ReadsAsGeneralized};
ghost use Rattle.rpki_time.specs.TimeValue.{time_octets, utc_octets, generalized_octets};
ghost use Rattle.rpki_time.specs.declared.decimal.RepresentationError.{RepresentationError as NoDecimal};
ghost use Rattle.rpki_time.specs.declared.serial.SerialSliceError.{SerialSliceError as NoSerial};
ghost use Rattle.rpki_time.specs.declared.time.TimeParseError.{TimeParseError as NoTime};
ghost use Rattle.rpki_time.specs.Validity.{Period, AreTimeYears, HaveSameEnds, IsTrimmed, cut_period};

use crate::decimal::RepresentationError;
use crate::serial::{Serial, SerialSliceError};
use crate::time::{Time, TimeParseError};
use crate::time_encoder::{GeneralizedTime, UtcTime, VariedTime};
use crate::validity::Validity;
use rpki_der::{Constructed, DecodeError, PrimitiveContent, Values};
use std::hash::Hash;

/// The contents that are written of a number below 2^159 are the shortest that write it, at most 20 octets; and the
/// numbers below 2^159 are those whose INTEGER has at most 20 contents octets.
pub fn serial_contents_are_shortest()
    ensures written { (n : ℕ) → n < 2 ^ 159 → IsSerialContents n (serial_contents n) }
    ensures bound { (n : ℕ) (c : List ℕ) → IsUnsigned n c → (n < 2 ^ 159) ↔ (length c ≤ 20) }
{}

/// What is written has few octets: 22 at most of a serial number, 17 of a time, 36 of a period.
pub fn few_octets_are_written()
    ensures serial { (n : ℕ) → length (serial_octets n) ≤ 22 }
    ensures time { (t : Civil) → length (time_octets t) ≤ 17 }
    ensures period { (p : Period) → length (period_octets p) ≤ 36 }
{}

/// What is written of a serial number is that number, and is read as itself, and what follows remains; and what is read
/// is written as the same octets.
pub fn serials_read_back(cons: &mut Constructed<'_>) -> Result<Serial, DecodeError>
    ensures spelled { (n : ℕ) → n < 2 ^ 159 → SpellsSerial n (serial_octets n) }
    ensures read { (n : ℕ) (rest : List ℕ) → n < 2 ^ 159 → left cons.old ≡ serial_octets n ++ rest
        → (result ≡ Ok n) × (left cons.new ≡ rest) }
    ensures written { IfOk result (λ n. left cons.old ≡ serial_octets n ++ left cons.new) }
{
    Serial::take_from(cons)
}

/// Two serial numbers are written the same exactly where they are one.
pub fn serials_written_the_same()
    ensures { (m n : ℕ) → m < 2 ^ 159 → n < 2 ^ 159 → (serial_octets m ≡ serial_octets n) ↔ (m ≡ n) }
{}

/// The octets of a serial number are taken for that number.
pub fn octets_read_back(serial: Serial) -> Result<Serial, SerialSliceError>
    ensures { result ≡ Ok serial }
{
    Serial::from_array(serial.into_array())
}

/// The order of serial numbers is that of the numbers.
pub fn serials_in_order(a: Serial, b: Serial) -> bool
    ensures { IsTrue result ↔ (a < b) }
{
    a < b
}

/// The order of times is that of the moments.
pub fn times_in_order(a: Time, b: Time) -> bool
    ensures { IsTrue result ↔ (civil_nanos a <ℤ civil_nanos b) }
{
    a < b
}

/// The text of a time reads as the time without parts of a second, as UTC time exactly in the years 1950 to 2049; and
/// a text reads as one time at most.
pub fn texts_read_back()
    ensures utc { (t : Civil) → ReadsAsUtc (utc_text t) (cut t) ↔ IsUtcYear t.date.year }
    ensures generalized { (t : Civil) → IsTimeYear t.date.year → ReadsAsGeneralized (generalized_text t) (cut t) }
    ensures one_utc { (text : List ℕ) (t u : Civil) → ReadsAsUtc text t → ReadsAsUtc text u → t ≡ u }
    ensures one_generalized { (text : List ℕ) (t u : Civil) → ReadsAsGeneralized text t → ReadsAsGeneralized text u
        → t ≡ u }
    ensures window { (y : ℤ) → (is_utc_year y ≡ true) ↔ IsUtcYear y }
{}

/// What is written of a time is read as the time without parts of a second, and what follows remains: always, where
/// the year chooses the text; always, as generalized time; and as UTC time exactly in the years 1950 to 2049.
pub fn times_read_back(cons: &mut Constructed<'_>) -> Result<Time, DecodeError>
    ensures varied { (t : Civil) (r : List ℕ) → IsTimeYear t.date.year → left cons.old ≡ time_octets t ++ r
        → ReadsCut t r result (left cons.new) }
    ensures generalized { (t : Civil) (r : List ℕ) → IsTimeYear t.date.year
        → left cons.old ≡ generalized_octets t ++ r → ReadsCut t r result (left cons.new) }
    ensures utc { (t : Civil) (r : List ℕ) → left cons.old ≡ utc_octets t ++ r
        → ReadsCut t r result (left cons.new) ↔ IsUtcYear t.date.year }
{
    Time::take_from(cons)
}

/// Two times are written the same exactly where they differ in parts of a second alone.
pub fn times_written_the_same()
    ensures { (t u : Civil) → IsTimeYear t.date.year → IsTimeYear u.date.year
        → (time_octets t ≡ time_octets u) ↔ (cut t ≡ cut u) }
{}

/// What is written of a period is read as the period without parts of a second, and what follows remains.
pub fn periods_read_back(cons: &mut Constructed<'_>) -> Result<Validity, DecodeError>
    ensures { (p : Period) (rest : List ℕ) → AreTimeYears p → left cons.old ≡ period_octets p ++ rest
        → (result ≡ Ok (cut_period p)) × (left cons.new ≡ rest) }
{
    Validity::take_from(cons)
}

/// Two periods are written the same exactly where they differ in parts of a second alone.
pub fn periods_written_the_same()
    ensures { (p q : Period) → AreTimeYears p → AreTimeYears q
        → (period_octets p ≡ period_octets q) ↔ (cut_period p ≡ cut_period q) }
{}

/// Trimming is commutative, associative and idempotent.
pub fn trim_laws()
    ensures commutes { (p q r s : Period) → IsTrimmed p q r → IsTrimmed q p s → r ≡ s }
    ensures associates { (p q r pq qr first second : Period) → IsTrimmed p q pq → IsTrimmed pq r first
        → IsTrimmed q r qr → IsTrimmed p qr second → first ≡ second }
    ensures repeats { (p r : Period) → IsTrimmed p p r → r ≡ p }
{}

/// Serial numbers are equal where the numbers are one.
pub fn equal_serials_are_one()
    ensures { (m n : ℕ) → IsTrue (⟦<Serial as PartialEq>⟧.eq m n) ↔ (m ≡ n) }
{}

/// Times are equal where the moments are one.
pub fn equal_times_are_one()
    ensures { (t u : Civil) → IsTrue (⟦<Time as PartialEq>⟧.eq t u) ↔ (civil_nanos t ≡ civil_nanos u) }
{}

/// Times are in the order of their moments.
pub fn times_are_in_order_of_moments()
    ensures { (t u : Civil) → ⟦<Time as Ord>⟧.cmp t u ≡ int_cmp (civil_nanos t) (civil_nanos u) }
{}

/// Periods are equal where the moments of their starts are one, and those of their ends.
pub fn equal_periods_are_one()
    ensures { (p q : Period) → IsTrue (⟦<Validity as PartialEq>⟧.eq p q) ↔ HaveSameEnds p q }
{}

/// Serial numbers are hashed as the same octets exactly where they are one.
pub fn serials_are_hashed_by_value()
    ensures { (m n : ℕ) → m < 2 ^ 159 → n < 2 ^ 159
        → (⟦<Serial as Hash>⟧.hash_input m ≡ ⟦<Serial as Hash>⟧.hash_input n) ↔ (m ≡ n) }
{}

/// Times are hashed as the same octets exactly where the moments are one, as they are compared.
pub fn times_are_hashed_by_moment()
    ensures { (t u : Civil) → (⟦<Time as Hash>⟧.hash_input t ≡ ⟦<Time as Hash>⟧.hash_input u)
        ↔ (civil_nanos t ≡ civil_nanos u) }
{}

/// Periods are hashed as the same octets exactly where the moments of their starts are one, and those of their ends.
pub fn periods_are_hashed_by_moments()
    ensures { (p q : Period) → (⟦<Validity as Hash>⟧.hash_input p ≡ ⟦<Validity as Hash>⟧.hash_input q)
        ↔ HaveSameEnds p q }
{}

/// Errors of slices and of texts are equal exactly where they are one.
pub fn equal_errors_are_of_one_kind()
    ensures slice { (d e : NoSerial) → IsTrue (⟦<SerialSliceError as PartialEq>⟧.eq d e) ↔ (d ≡ e) }
    ensures decimal { (d e : NoDecimal) → IsTrue (⟦<RepresentationError as PartialEq>⟧.eq d e) ↔ (d ≡ e) }
    ensures time { (d e : NoTime) → IsTrue (⟦<TimeParseError as PartialEq>⟧.eq d e) ↔ (d ≡ e) }
{}

/// What is written of serial numbers and times is what the standards say (RFC 5280 4.1.2.2, 4.1.2.5).
pub fn contents_that_are_written()
    ensures serial { (n : ℕ) → ⟦<Serial as PrimitiveContent>⟧.contents n ≡ serial_contents n }
    ensures utc { (t : Civil) → ⟦<UtcTime as PrimitiveContent>⟧.contents t ≡ utc_text t }
    ensures generalized { (t : Civil) → ⟦<GeneralizedTime as PrimitiveContent>⟧.contents t ≡ generalized_text t }
    ensures varied { (t : Civil) → ⟦<VariedTime as Values>⟧.encoded t ≡ time_octets t }
{}
