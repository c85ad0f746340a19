//! A part of the caller's octets.

ghost use Rattle.std.specs.Prelude.{◌≡◌};

/// A part of the caller's octets, or no octets. To C it is a pointer and a size.
#[repr(C)]
#[derive(Clone, Copy)]
pub struct Span<'a> {
    /// The octets.
    pub octets: &'a [u8],
}

impl<'a> Span<'a> {
    /// The span of these octets.
    pub(crate) fn of(octets: &'a [u8]) -> Span<'a>
        ensures { result.octets.now ≡ octets.now }
    {
        Span { octets }
    }
}
