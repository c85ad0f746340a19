//! One call on an rsync URI, made so many times.

use crate::refusal::Failure;
use crate::report::Report;
use rpki::uri::{Error, Rsync};
use std::alloc::{AllocError, Global};

/// A directory with so many segments.
fn directory(alloc: Global, segments: usize) -> Result<String, AllocError> {
    let mut text = String::from_str(alloc, "rsync://host/module/")?;
    for _ in 0..segments {
        text.push_str("segment/")?;
    }
    Ok(text)
}

/// The length of the text that a call returns, or 1 for true. `file` is a file in the directory `base`.
fn answer(alloc: Global, call: &str, base: &Rsync, file: &Rsync) -> Result<usize, Error> {
    match call {
        "join" => Ok(base.join(alloc, b"file")?.as_slice().len()),
        "parent" => match file.parent()? {
            Some(parent) => Ok(parent.as_slice().len()),
            None => Ok(0),
        },
        "relative_to" => match file.relative_to(base) {
            Some(path) => Ok(path.len()),
            None => Ok(0),
        },
        "is_parent_of" => Ok(usize::from(base.is_parent_of(file))),
        _ => Ok(usize::from(file.is_identical_to(file))),
    }
}

/// The sum of so many results.
fn sum(alloc: Global, call: &str, segments: usize, times: usize) -> Result<usize, Error> {
    let base = Rsync::from_string(directory(alloc, segments)?)?;
    let file = base.join(alloc, b"file")?;
    let mut sum = 0usize;
    for _ in 0..times {
        sum = sum.wrapping_add(answer(alloc, call, &base, &file)?);
    }
    Ok(sum)
}

/// Makes the call so many times on a URI of so many segments, and reports the sum of its results.
pub fn tell(
    alloc: Global,
    report: Report,
    call: &str,
    segments: &str,
    times: &str,
) -> Result<(), Failure> {
    let (Ok(segments), Ok(times)) = (segments.parse::<usize>(), times.parse::<usize>()) else {
        return Err(Failure::Usage);
    };
    let sum = sum(alloc, call, segments, times)?;
    report.number(call, sum as u64)?;
    Ok(())
}
