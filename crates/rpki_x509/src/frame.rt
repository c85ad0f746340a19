//! The tag 0 around values: of the extensions of a revocation list, and of the content of a signed object.

use rpki::der::{Class, Frame, Tag};

/// The explicit context-specific tag 0, around values (X.690 8.14.2).
#[derive(Clone, Copy)]
pub struct ContextZeroFrame;

impl Frame for ContextZeroFrame {
    ghost use Rattle.std.specs.Prelude.{true};
    ghost use Rattle.rpki_x509.specs.Tag.{zero_tag};
    ghost use Rattle.rpki_x509.specs.TagLaws.{zero_legal};

    ghost tag = { zero_tag };

    ghost constructed = { true };

    ghost legal = { zero_legal };

    fn tag() -> Tag {
        Tag::new(Class::Context, 0)
    }

    fn is_constructed() -> bool {
        true
    }
}
