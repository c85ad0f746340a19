//! The published vectors, as tables. A test is proved too, so each is one loop over a table with a helper that makes
//! the one call.

mod base_64;
mod cuts;
mod failing;
mod general_name;
mod hex;
mod https;
mod rsync;
mod rsync_comparisons;
mod views;
mod words;

use std::alloc::Global;
use std::fmt;
use std::test::Fail;

/// The text that Display prints.
fn shown<D: fmt::Display + Drop>(alloc: Global, value: D) -> Result<String, Fail> {
    Ok(format!(in alloc; "{value}")?)
}
