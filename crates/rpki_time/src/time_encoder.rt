//! Writing times.

ghost use Rattle.std.specs.Prelude.{◌≡◌, ◌<◌, ◌^◌, ◌↔◌, false, length};
ghost use Rattle.rpki_der.specs.Prelude.{tlv, utc_time, generalized_time, Writes};
ghost use Rattle.jiff.specs.Types.{DateTime as Civil};
ghost use Rattle.rpki_time.specs.Time.{IsTimeYear, cut};
ghost use Rattle.rpki_time.specs.TimeText.{utc_text, generalized_text, IsUtcYear};
ghost use Rattle.rpki_time.specs.TimeValue.{SpellsTime, utc_octets, generalized_octets, time_octets};

use crate::time::Time;
use rpki_der::{Primitive, PrimitiveContent, Tag, Values, write_whole};
use std::io;
use std::io::Write;
use std::marker::Model;

/// The contents of a UTC time: YYMMDDHHMMSSZ (X.690 11.8, RFC 5280 4.1.2.5.1).
#[derive(Drop)]
pub struct UtcTime {
    time: Time,
}

impl Model for UtcTime {
    ghost use Rattle.jiff.specs.Types.{DateTime as Civil};

    ghost Value = { Civil };

    ghost view = { λ x. x.time };
}

impl PrimitiveContent for UtcTime {
    ghost plain = { utc_time };

    const TAG: Tag = Tag::UTC_TIME;

    ghost contents = { utc_text };

    fn encoded_len(&self) -> u64 {
        13
    }

    #[tactic(auto, using(rpki_der::proofs::WritingLaws::writes_of_cut))]
    fn write_encoded<W: Write>(&self, out: &mut W) -> Result<(), io::Error> {
        write_whole(out, &self.time.utc_text())
    }

    fn plain_tag(&self) -> Tag {
        Self::TAG
    }
}

/// The contents of a generalized time: YYYYMMDDHHMMSSZ (X.690 11.7, RFC 5280 4.1.2.5.2).
#[derive(Drop)]
pub struct GeneralizedTime {
    time: Time,
}

impl Model for GeneralizedTime {
    ghost use Rattle.jiff.specs.Types.{DateTime as Civil};

    ghost Value = { Civil };

    ghost view = { λ x. x.time };
}

impl PrimitiveContent for GeneralizedTime {
    ghost plain = { generalized_time };

    const TAG: Tag = Tag::GENERALIZED_TIME;

    ghost contents = { generalized_text };

    fn encoded_len(&self) -> u64 {
        15
    }

    #[tactic(auto, using(rpki_der::proofs::WritingLaws::writes_of_cut))]
    fn write_encoded<W: Write>(&self, out: &mut W) -> Result<(), io::Error> {
        write_whole(out, &self.time.generalized_text())
    }

    fn plain_tag(&self) -> Tag {
        Self::TAG
    }
}

/// A time as certificates have it: UTC time in the years 1950 to 2049, and generalized time in the others
/// (RFC 5280 4.1.2.5).
#[derive(Clone, Copy)]
pub struct VariedTime {
    time: Time,
}

impl Model for VariedTime {
    ghost use Rattle.jiff.specs.Types.{DateTime as Civil};
    ghost use Rattle.rpki_time.specs.Time.{IsTimeYear};

    ghost Value = { Civil };

    ghost view = { λ x. x.time };

    ghost inverse = { λ t. record { time = t } };
}

impl Values for VariedTime {
    ghost use Rattle.rpki_time.specs.TimeValue.{time_tree};
    ghost use Rattle.rpki_time.specs.TimeValueLaws.{time_is_value_list, time_spelled, time_measured};

    ghost tree = { time_tree };

    ghost encoded = { time_octets };

    ghost is_short = { λ _. Unit {0} };

    ghost spelled = { time_spelled };

    ghost measured = { time_measured };

    ghost are_values = { λ t _. time_is_value_list t };

    #[tactic(auto, using(crate::proofs::TimeValueLaws::time_fits))]
    fn fits(&self) -> bool {
        true
    }

    #[tactic(auto, using(crate::specs::TimeValueLaws::time_is_value))]
    fn count(&self) -> u64 {
        1
    }

    fn encoded_len(&self) -> u64 {
        if self.time.is_utc() {
            self.time.encode_utc_time().encoded_len()
        } else {
            self.time.encode_generalized_time().encoded_len()
        }
    }

    fn write_encoded<W: Write>(&self, out: &mut W) -> Result<(), io::Error> {
        if self.time.is_utc() {
            self.time.encode_utc_time().write_encoded(out)
        } else {
            self.time.encode_generalized_time().write_encoded(out)
        }
    }
}

impl Time {
    /// An encoder for the time as UTC time, in any year: the last two digits of the year are written. It always fits.
    #[tactic(auto, using(crate::proofs::TimeValueLaws::utc_fits))]
    pub fn encode_utc_time(self) -> Primitive<UtcTime>
        ensures encoded { ⟦<Primitive<UtcTime> as Values>⟧.encoded result ≡ utc_octets self }
        ensures fits { ⟦<Primitive<UtcTime> as Values>⟧.is_short result × (length (utc_octets self) < 2 ^ 63) }
        // In the years 1950 to 2049 they are this time without parts of a second.
        ensures read_back { IsUtcYear self.date.year → SpellsTime (cut self) (utc_octets self) }
        // Two times of the years 1950 to 2049 have the same encoding exactly where they differ in parts of a second
        // alone.
        ensures same { (other : Civil) → IsUtcYear self.date.year → IsUtcYear other.date.year
            → (utc_octets self ≡ utc_octets other) ↔ (cut self ≡ cut other) }
    {
        UtcTime { time: self }.encode()
    }

    /// An encoder for the time as generalized time. It always fits.
    #[tactic(auto, using(crate::proofs::TimeValueLaws::generalized_fits))]
    pub fn encode_generalized_time(self) -> Primitive<GeneralizedTime>
        ensures encoded { ⟦<Primitive<GeneralizedTime> as Values>⟧.encoded result ≡ generalized_octets self }
        ensures fits { ⟦<Primitive<GeneralizedTime> as Values>⟧.is_short result
            × (length (generalized_octets self) < 2 ^ 63) }
        // They are this time without parts of a second.
        ensures read_back { SpellsTime (cut self) (generalized_octets self) }
        // Two times have the same encoding exactly where they differ in parts of a second alone.
        ensures same { (other : Civil) → IsTimeYear other.date.year
            → (generalized_octets self ≡ generalized_octets other) ↔ (cut self ≡ cut other) }
    {
        GeneralizedTime { time: self }.encode()
    }

    /// An encoder for the time as certificates have it: UTC time in the years 1950 to 2049, and generalized time in the
    /// others. It always fits.
    #[tactic(auto, using(crate::proofs::TimeValueLaws::time_fits))]
    pub fn encode_varied(self) -> VariedTime
        ensures time { result ≡ self }
        ensures year { IsTimeYear self.date.year }
        ensures encoded { ⟦<VariedTime as Values>⟧.encoded result ≡ time_octets self }
        ensures fits { ⟦<VariedTime as Values>⟧.is_short result × (length (time_octets self) < 2 ^ 63) }
        // They are this time without parts of a second.
        ensures read_back { SpellsTime (cut self) (time_octets self) }
        // Two times have the same encoding exactly where they differ in parts of a second alone.
        ensures same { (other : Civil) → IsTimeYear other.date.year
            → (time_octets self ≡ time_octets other) ↔ (cut self ≡ cut other) }
    {
        VariedTime { time: self }
    }
}
