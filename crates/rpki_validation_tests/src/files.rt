//! A repository in memory.

use bytes::Bytes;
use rpki::uri::Rsync;
use rpki_der_tests::hexadecimal::octets_of;
use rpki_locator::AnchorUri;
use rpki_validation::Snapshot;
use std::alloc::{AllocError, Global};

/// What is done to the object at a URI.
#[derive(Clone, Copy, Debug, PartialEq, Eq)]
pub enum Change {
    /// Nothing.
    None,
    /// It isn't there.
    Remove,
    /// Its last octet is another.
    LastOctet,
    /// The object at this number is in its place.
    Exchange(usize),
}

/// Objects as hexadecimal digits, by their URIs; one of which is changed.
#[derive(Clone, Copy)]
pub struct Files {
    /// The objects.
    pub objects: &'static [(&'static str, &'static str)],
    /// The number of the one that is changed.
    pub number: usize,
    /// What is done to it.
    pub change: Change,
}

impl Files {
    /// The octets of the object of this number.
    fn octets(&self, alloc: Global, number: usize) -> Result<Option<Bytes>, AllocError> {
        let Some((_, text)) = self.objects.get(number) else {
            return Ok(None);
        };
        let mut octets = octets_of(alloc, text)?;
        if number == self.number && self.change == Change::LastOctet {
            if let Some(last) = octets.pop() {
                octets.push(last ^ 1)?;
            }
        }
        Ok(Some(Bytes::from_vec(octets)?))
    }

    /// The octets at the URI of this text.
    pub fn at(&self, alloc: Global, uri: &str) -> Result<Option<Bytes>, AllocError> {
        let Some(number) = self.objects.iter().position(|it| it.0 == uri) else {
            return Ok(None);
        };
        if number == self.number {
            match self.change {
                Change::Remove => return Ok(None),
                Change::Exchange(other) => return self.octets(alloc, other),
                _ => {}
            }
        }
        self.octets(alloc, number)
    }
}

impl Snapshot for Files {
    ghost use Rattle.std.specs.Prelude.{None};

    ghost holds = { λ _. None };

    fn object(&self, alloc: Global, uri: &Rsync) -> Result<Option<Bytes>, AllocError> {
        self.at(alloc, uri.as_str())
    }

    fn anchor(&self, alloc: Global, uri: &AnchorUri) -> Result<Option<Bytes>, AllocError> {
        match uri {
            AnchorUri::Rsync(uri) => self.at(alloc, uri.as_str()),
            AnchorUri::Https(uri) => self.at(alloc, uri.as_str()),
        }
    }
}
