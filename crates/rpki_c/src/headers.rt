//! Headers.

ghost use Rattle.std.specs.Prelude.{◌≡◌, ◌≤◌, IfOk, IfErr, length, drop};
ghost use Rattle.rpki_der.specs.Header.{class_number};
ghost use Rattle.rpki_c.specs.Front.{AreParts, IsHeaderRead};

use rpki_der::{Class, Header, read_header};

/// The parts of a header.
#[repr(C)]
#[derive(Clone, Copy)]
pub struct HeaderParts {
    /// The class: 0 universal, 1 application, 2 context, 3 private.
    pub tag_class: u8,
    /// Whether the contents are values themselves.
    pub constructed: bool,
    /// The number of the tag.
    pub number: u32,
    /// How many contents octets the value has.
    pub length: u32,
    /// How many octets the header has.
    pub size: usize,
}

/// The number of a class (X.690 8.1.2.2, table 1).
pub(crate) fn class_number(class: Class) -> u8
    ensures { result ≡ class_number class }
{
    match class {
        Class::Universal => 0,
        Class::Application => 1,
        Class::Context => 2,
        Class::Private => 3,
    }
}

/// The parts of a header of so many octets.
pub(crate) fn parts_of(header: Header, size: usize) -> HeaderParts
    ensures parts { AreParts header result }
    ensures size { result.size ≡ size }
{
    HeaderParts {
        tag_class: class_number(header.tag.class()),
        constructed: header.constructed,
        number: header.tag.number(),
        length: header.length,
        size,
    }
}

/// Reads the header at the front of the octets (X.690 8.1.2, 8.1.3). Allocates nothing.
///
/// The status is 0, or the number of the error: `Truncated`, `BadTag` or `BadLength`; then `out` is unchanged.
#[unsafe(no_mangle)]
pub extern "C" fn rpki_header(octets: &[u8], out: &mut HeaderParts) -> u8
    ensures { IsHeaderRead octets.now result out.old out.new }
{
    match read_header(octets) {
        Ok((header, size)) => {
            *out = parts_of(header, size);
            0
        }
        Err(e) => e.number(),
    }
}
