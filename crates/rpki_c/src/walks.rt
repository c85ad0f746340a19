//! Values, with everything nested in them.

ghost use Rattle.std.specs.Prelude.{◌≡◌};
ghost use Rattle.rpki_c.specs.Front.{IsWalked};

use rpki_der::{Steps, walk_octets};
use std::alloc::Global;

/// A value at the front of octets.
#[repr(C)]
#[derive(Clone, Copy)]
pub struct Walked {
    /// How many headers it has, at every depth.
    pub headers: u64,
    /// How many octets it takes.
    pub size: usize,
}

/// Walks the value at the front of the octets, with everything nested in it (X.690 8.1.1, 8.1.2.5).
///
/// The status is 0, or the number of the error, the leftmost; then `out` is unchanged. Allocation can fail only if a
/// constructed value begins the octets.
#[unsafe(no_mangle)]
pub extern "C" fn rpki_walk(alloc: Global, octets: &[u8], out: &mut Walked) -> u8
    ensures { IsWalked octets.now result out.old out.new }
{
    let mut steps = Steps::new();
    match walk_octets(alloc, octets, &mut steps) {
        Ok(size) => {
            *out = Walked {
                headers: steps.count(),
                size,
            };
            0
        }
        Err(e) => e.number(),
    }
}
