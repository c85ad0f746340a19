//! Values around values.

ghost use Rattle.std.specs.Prelude.{◌≡◌, ℕ, List, Bool, ◌<◌, ◌^◌, ◌↔◌, length, IsTrue};
ghost use Rattle.rpki_der.specs.TagName.{TagName, IsTag};
ghost use Rattle.rpki_der.specs.Header.{tlv};
ghost use Rattle.rpki_der.specs.Written.{Writes, FitInside};

use super::header::{header_len, write_header};
use super::values::Values;
use crate::tag::Tag;
use std::io;
use std::io::Write;
use std::marker::{Model, PhantomData};

/// Whether the values can be written as the contents of a value, of any tag and form.
#[tactic(auto, using(crate::proofs::EncodeLaws::tlv_at_most))]
fn fit_inside<V: Values>(values: &V) -> bool
    ensures { (t : TagName) (f : Bool) → IsTrue result
        ↔ FitInside (V.is_short values.now) (V.encoded values.now) t f }
{
    values.fits() && values.encoded_len() < 1 << 32
}

/// How many octets a value of this tag and form around the values has.
#[tactic(auto, using(crate::proofs::EncodeLaws::header_at_most))]
fn len_around<V: Values>(tag: Tag, constructed: bool, values: &V) -> u64
    requires { V.is_short values.now × (length (V.encoded values.now) < 2 ^ 32) }
    ensures { result ≡ length (tlv tag constructed (V.encoded values.now)) }
{
    let length = values.encoded_len();
    header_len(tag, constructed, length) + length
}

/// Writes a value of this tag and form around the values.
#[tactic(auto, using(crate::proofs::WritingLaws::writes_then, crate::proofs::WritingLaws::beginning_more))]
fn write_around<V: Values, W: Write>(
    out: &mut W,
    tag: Tag,
    constructed: bool,
    values: &V,
) -> Result<(), io::Error>
    requires { V.is_short values.now × (length (V.encoded values.now) < 2 ^ 32) }
    ensures { Writes (W.contents out.old) (W.contents out.new) result (tlv tag constructed (V.encoded values.now)) }
{
    write_header(out, tag, constructed, values.encoded_len())?;
    values.write_encoded(out)
}

/// The tag and the form of a value around values.
pub trait Frame {
    /// The tag.
    ghost tag: { TagName };

    /// The form: whether the values are the contents of a constructed value, or those of a primitive one.
    ghost constructed: { Bool };

    /// The tag is one that values have.
    ghost legal: { IsTag tag };

    /// The tag.
    fn tag() -> Tag
        ensures { result ≡ tag };

    /// Whether the value is constructed.
    fn is_constructed() -> bool
        ensures { result ≡ constructed };
}

/// One value around values: [Sequence], [Set] or [Wrapped].
#[derive(Drop)]
pub struct Around<F, V> {
    values: V,
    frame: PhantomData<F>,
}

impl<F, V> Model for Around<F, V> {
    ghost Value = { V };

    ghost view = { λ x. x.values };
}

impl<F, V> Around<F, V> {
    /// The value around these values.
    pub fn new(values: V) -> Around<F, V>
        ensures { result ≡ values }
    {
        Around {
            values,
            frame: PhantomData,
        }
    }
}

impl<F: Frame, V: Values> Values for Around<F, V> {
    ghost use Rattle.rpki_der.specs.Tree.{around};
    ghost use Rattle.rpki_der.specs.TreeLaws.{around_spelled, around_measured};
    ghost use Rattle.rpki_der.specs.ValueListLaws.{around_value};

    ghost tree = { λ x. around ⟦<F as Frame>⟧.tag ⟦<F as Frame>⟧.constructed (V.tree x) };

    ghost encoded = { λ x. tlv ⟦<F as Frame>⟧.tag ⟦<F as Frame>⟧.constructed (V.encoded x) };

    ghost is_short = { λ x. V.is_short x × (length (V.encoded x) < 2 ^ 32) };

    ghost spelled = { λ x. around_spelled ⟦<F as Frame>⟧.tag ⟦<F as Frame>⟧.constructed (V.encoded x) (V.tree x)
        (V.spelled x) };

    ghost measured = { λ x. around_measured ⟦<F as Frame>⟧.tag ⟦<F as Frame>⟧.constructed (V.encoded x) (V.tree x)
        (V.spelled x) (V.measured x) };

    ghost are_values = { λ x h. (
      1,
      around_value ⟦<F as Frame>⟧.tag ⟦<F as Frame>⟧.constructed (V.encoded x) ⟦<F as Frame>⟧.legal h.1
          (V.are_values x h.0),
    ) };

    fn fits(&self) -> bool {
        fit_inside(&self.values)
    }

    #[tactic(auto, using(crate::specs::ValueListLaws::around_value))]
    fn count(&self) -> u64 {
        1
    }

    fn encoded_len(&self) -> u64 {
        len_around(F::tag(), F::is_constructed(), &self.values)
    }

    fn write_encoded<W: Write>(&self, out: &mut W) -> Result<(), io::Error> {
        write_around(out, F::tag(), F::is_constructed(), &self.values)
    }
}

/// A SEQUENCE of the values (X.690 8.9, 8.10).
pub type Sequence<V> = Around<SequenceFrame, V>;

/// A SET of the values (X.690 8.11).
///
/// They are written in the order in which they are here; the order of X.690 10.3 and 11.6 is the caller's to keep.
pub type Set<V> = Around<SetFrame, V>;

/// An OCTET STRING around the values, in the primitive form (X.690 8.7, 10.2).
pub type Wrapped<V> = Around<OctetStringFrame, V>;

/// The tag and the form of a SEQUENCE.
#[derive(Clone, Copy)]
pub struct SequenceFrame;

impl Frame for SequenceFrame {
    ghost use Rattle.std.specs.Prelude.{true};
    ghost use Rattle.rpki_der.specs.TagName.{sequence};
    ghost use Rattle.rpki_der.specs.ValueListLaws.{sequence_legal};

    ghost tag = { sequence };

    ghost constructed = { true };

    ghost legal = { sequence_legal };

    fn tag() -> Tag {
        Tag::SEQUENCE
    }

    fn is_constructed() -> bool {
        true
    }
}

/// The tag and the form of a SET.
#[derive(Clone, Copy)]
pub struct SetFrame;

impl Frame for SetFrame {
    ghost use Rattle.std.specs.Prelude.{true};
    ghost use Rattle.rpki_der.specs.TagName.{set};
    ghost use Rattle.rpki_der.specs.ValueListLaws.{set_legal};

    ghost tag = { set };

    ghost constructed = { true };

    ghost legal = { set_legal };

    fn tag() -> Tag {
        Tag::SET
    }

    fn is_constructed() -> bool {
        true
    }
}

/// The tag and the primitive form of an OCTET STRING.
#[derive(Clone, Copy)]
pub struct OctetStringFrame;

impl Frame for OctetStringFrame {
    ghost use Rattle.std.specs.Prelude.{false};
    ghost use Rattle.rpki_der.specs.TagName.{octet_string};
    ghost use Rattle.rpki_der.specs.ValueListLaws.{octet_string_legal};

    ghost tag = { octet_string };

    ghost constructed = { false };

    ghost legal = { octet_string_legal };

    fn tag() -> Tag {
        Tag::OCTET_STRING
    }

    fn is_constructed() -> bool {
        false
    }
}
