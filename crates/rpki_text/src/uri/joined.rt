//! Texts with a path joined to them, before they are written.

ghost use Rattle.std.specs.Prelude.{◌≡◌, ◌≤◌, ◌<◌, ◌++◌, length, drop, IfOk, IfSome, IfNone};
ghost use Rattle.rpki_text.specs.RsyncText.{joined_by, size_joined_by};
ghost use Rattle.rpki_text.specs.Buffer.{IsWritten};

use bytes::Bytes;
use std::alloc::{AllocError, Global};

/// The text of a URI with a path joined to it, or with a slash last: the parts of which it is written.
#[derive(Clone, Copy)]
pub struct Joined<'a> {
    base: &'a [u8],
    slash: bool,
    path: &'a [u8],
}

impl<'a> Joined<'a> {
    ghost use Rattle.rpki_text.specs.Cuts.{joined_text};

    /// The base, perhaps a slash, and the path.
    pub(super) fn new(base: &'a [u8], slash: bool, path: &'a [u8]) -> Joined<'a>
        ensures { joined_text result ≡ joined_by slash base.now path.now }
    {
        Joined { base, slash, path }
    }

    /// The length of the text.
    pub fn len(&self) -> usize
        ensures { result ≡ length (joined_text self.now) }
    {
        self.base.len() + usize::from(self.slash) + self.path.len()
    }

    /// Writes the text to the front of the buffer, and returns its length; `None` if the buffer is shorter, and then
    /// nothing is written. Allocates nothing.
    pub fn write_to(&self, buffer: &mut [u8]) -> Option<usize>
        ensures some { IfSome result (λ n. IsWritten (joined_text self.now) buffer.old buffer.new n) }
        ensures none { IfNone result ((length buffer.old < length (joined_text self.now))
            × (buffer.new ≡ buffer.old)) }
    {
        let len = self.len();
        if buffer.len() < len {
            return None;
        }
        write_joined(self.base, self.slash, self.path, buffer);
        Some(len)
    }

    /// The text in memory of its own: one allocation of its length.
    ///
    /// Returns `AllocError` if allocation fails.
    pub(super) fn to_bytes(&self, alloc: Global) -> Result<Bytes, AllocError>
        ensures { IfOk result (λ b. b ≡ joined_text self.now) }
    {
        let mut text = Vec::with_capacity(alloc, self.len())?;
        text.resize(self.len(), 0)?;
        write_joined(self.base, self.slash, self.path, text.as_mut_slice());
        Ok(Bytes::from_vec(text)?)
    }
}

/// Writes the base, perhaps a slash, and the path to the front of a buffer that has room for them.
fn write_joined(base: &[u8], slash: bool, path: &[u8], buffer: &mut [u8])
    requires { size_joined_by slash base.now path.now ≤ length buffer.old }
    ensures { buffer.new ≡ joined_by slash base.now path.now
        ++ drop (size_joined_by slash base.now path.now) buffer.old }
{
    let (front, rest) = buffer.split_at_mut(base.len());
    front.copy_from_slice(base);
    let path_start = usize::from(slash);
    if slash {
        rest[0] = b'/';
    }
    rest[path_start..path_start + path.len()].copy_from_slice(path);
}
