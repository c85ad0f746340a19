//! The distinguished encoding rules of X.690: headers, values, a cursor that reads them, and encoders.
//!
//! A reader takes a [Constructed], the cursor, and moves it past what it reads: `Constructed::new(&octets).take_oid()`.
//! One that keeps octets asks for a [Keep]: an allocator, which copies them, or [Shared].
//! An encoder implements the trait [Values]: call `fits`, then `write_encoded`, or `Captured::from_values` to keep its
//! octets.
//! `crates/rpki_examples/src/revoked.rt` reads a SEQUENCE of its own, and docs/CALLING.md explains it; `number_list.rt`
//! beside it reads one with a context tag and a list.
#![tactic(auto)]

mod bit_string;
mod capture;
mod captured;
mod composed;
mod composed_with;
mod contents;
mod cursor;
mod each;
mod encode;
pub mod equal_laws;
mod error;
mod from_values;
mod front;
mod header;
mod index;
mod indexed;
mod integer;
mod keep;
mod kind;
pub mod laws;
mod leaf;
mod members;
mod nested;
mod oid;
mod section;
mod tag;
mod text;
mod value;
mod walk;

pub use bit_string::{BitSlice, BitString};
pub use captured::Captured;
pub use contents::{
    take_ia5_contents, take_oid_contents, take_printable_contents, take_utf8_contents,
};
pub use cursor::{Constructed, Cursor};
pub use encode::{
    Around, Each, Frame, OctetStringFrame, Primitive, PrimitiveContent, Sequence, SequenceFrame,
    Set, SetFrame, StandingValue, Values, Wrapped, write_whole,
};
pub use error::{ContentError, DecodeError};
pub use from_values::write_to_bytes;
pub use front::{index_octets, read_header, walk_octets};
pub use index::HeaderEntry;
pub use indexed::IndexedCursor;
pub use integer::{InvalidInteger, Unsigned};
pub use keep::{Keep, Shared};
pub use members::Members;
pub use oid::{ConstOid, Oid};
pub use section::Section;
pub use tag::{Class, Header, Steps, Tag};
pub use text::{Ia5String, PrintableString, Utf8String};
pub use value::Content;
