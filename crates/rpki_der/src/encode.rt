//! Encoders: values written in the distinguished encoding rules.

mod captured;
mod constructed;
mod contents;
mod each;
mod header;
mod lists;
mod primitive;
mod standing;
mod unsigned;
mod values;
mod whole;

pub use constructed::{
    Around, Frame, OctetStringFrame, Sequence, SequenceFrame, Set, SetFrame, Wrapped,
};
pub use each::Each;
pub use primitive::{Primitive, PrimitiveContent};
pub use standing::StandingValue;
pub use values::Values;
pub use whole::write_whole;
