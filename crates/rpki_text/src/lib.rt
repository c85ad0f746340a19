//! URIs as RPKI certificates carry them, and the texts of octets: base 64 and hexadecimal digits.
//!
//! `uri::Rsync::from_str(alloc, "rsync://host/module/ca")` reads a URI, `join` puts a path after it, `relative_to`
//! gives the path back. `crates/rpki_examples/src/uris.rt` does so; docs/CALLING.md explains it.
#![tactic(auto)]

pub mod laws;
pub mod uri;
pub mod util;
