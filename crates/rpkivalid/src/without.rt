//! Files but one.

use crate::sources::Sources;
use bytes::Bytes;
use rpki::repository::x509::Time;
use std::alloc::{AllocError, Global};

/// Files but the one at this path, where there is none.
#[derive(Drop)]
pub struct Without<'a, S> {
    /// The files.
    pub sources: &'a S,
    /// The path.
    pub path: &'a str,
}

impl<S: Sources> Sources for Without<'_, S> {
    ghost use Rattle.rpkivalid.specs.Walked.{without};

    ghost holds = { λ w. without w.path.now (S.holds w.sources.now) };

    ghost clock = { λ w. S.clock w.sources.now };

    fn read(&self, alloc: Global, path: &str) -> Result<Option<Bytes>, AllocError> {
        if path == self.path {
            return Ok(None);
        }
        self.sources.read(alloc, path)
    }

    fn read_in(
        &self,
        alloc: Global,
        folder: &str,
        path: &str,
    ) -> Result<Option<Bytes>, AllocError> {
        if path == self.path {
            Ok(None)
        } else {
            self.sources.read_in(alloc, folder, path)
        }
    }

    fn read_large(&self, alloc: Global, path: &str) -> Result<Option<Bytes>, AllocError> {
        if path == self.path {
            Ok(None)
        } else {
            self.sources.read_large(alloc, path)
        }
    }

    fn is_read(&self) -> bool {
        self.sources.is_read()
    }

    fn unread(&self, alloc: Global) -> Result<Vec<u8>, AllocError> {
        self.sources.unread(alloc)
    }

    fn seconds(&self) -> u64 {
        self.sources.seconds()
    }

    fn now(&self) -> Option<Time> {
        self.sources.now()
    }
}
