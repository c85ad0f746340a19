//! What one list of payloads has, and another one has not.

ghost use Rattle.std.specs.Prelude.{◌≡◌, ◌++◌, IfOk, OnOk, codes};
ghost use Rattle.std.specs.List.{flat_map};
ghost use Rattle.rpki_payloads.specs.Alone.{alone_line, is_among, is_same, only_in};
ghost use Rattle.rpki_payloads.specs.Vrp.{AreInOrder};

use crate::vrp::Vrp;
use std::alloc::{AllocError, Global};

impl Vrp {
    /// Whether it is this payload.
    fn is_same(self, vrp: Vrp) -> bool
        ensures { result ≡ is_same self vrp }
    {
        vrp.cmp(&self).is_eq()
    }

    /// Whether it is one of these payloads.
    pub fn is_among(self, vrps: &[Vrp]) -> bool
        ensures { result ≡ is_among self vrps.now }
    {
        vrps.iter().any(|vrp| self.is_same(*vrp))
    }

    /// Whether it is one of these payloads, which are in order.
    fn is_found(self, vrps: &[Vrp]) -> bool
        requires { AreInOrder vrps.now }
        ensures { result ≡ is_among self vrps.now }
    {
        vrps.binary_search(&self).is_ok()
    }
}

/// The payloads that are none of the others, which are in order.
///
/// Returns `AllocError` if allocation fails.
pub fn only_in(alloc: Global, vrps: &[Vrp], others: &[Vrp]) -> Result<Vec<Vrp>, AllocError>
    requires { AreInOrder others.now }
    ensures { IfOk result (λ only. only.items ≡ only_in vrps.now others.now) }
{
    let mut only = Vec::new(alloc);
    'vrps: for vrp in vrps {
        if !vrp.is_found(others) {
            only.push(*vrp)?;
        }
    }
    Ok(only)
}

/// Adds the line of a payload, which ends in this.
fn push_alone(text: &mut Vec<u8>, end: &[u8], vrp: Vrp) -> Result<(), AllocError>
    ensures { OnOk result (text.new.items ≡ text.old.items ++ alone_line end.now vrp) }
{
    let payload = vrp.text(*text.allocator())?;
    text.extend_from_slice(payload.as_bytes())?;
    text.extend_from_slice(end)
}

/// Adds the lines of payloads, each of which ends in this.
fn push_all_alone(text: &mut Vec<u8>, end: &[u8], vrps: &[Vrp]) -> Result<(), AllocError>
    ensures { OnOk result (text.new.items ≡ text.old.items ++ flat_map (alone_line end.now) vrps.now) }
{
    'vrps: for vrp in vrps {
        push_alone(text, end, *vrp)?;
    }
    Ok(())
}

/// A line for each payload that is here alone, and then one for each that is there alone, in their order.
///
/// Returns `AllocError` if allocation fails.
pub fn alone_text(alloc: Global, here: &[Vrp], there: &[Vrp]) -> Result<Vec<u8>, AllocError>
    ensures { IfOk result (λ text. text.items ≡ flat_map (alone_line (codes ": only here\n")) here.now
        ++ flat_map (alone_line (codes ": only there\n")) there.now) }
{
    let mut text = Vec::new(alloc);
    push_all_alone(&mut text, b": only here\n", here)?;
    push_all_alone(&mut text, b": only there\n", there)?;
    Ok(text)
}
