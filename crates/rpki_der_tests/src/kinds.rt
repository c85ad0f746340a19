//! How readers end, with errors by their kinds, for tables.

use rpki_der::DecodeError;

/// How a reader ended: with a value, with None, or with an error of this kind.
#[derive(Clone, Copy, Debug, PartialEq)]
pub enum Outcome {
    Read,
    Absent,
    Truncated,
    BadTag,
    BadLength,
    Unexpected,
    Content,
    Trailing,
    OutOfMemory,
}

/// The outcome that is this error.
pub fn refused(error: &DecodeError) -> Outcome {
    match error {
        DecodeError::Truncated => Outcome::Truncated,
        DecodeError::BadTag => Outcome::BadTag,
        DecodeError::BadLength => Outcome::BadLength,
        DecodeError::Unexpected => Outcome::Unexpected,
        DecodeError::Content(_) => Outcome::Content,
        DecodeError::Trailing => Outcome::Trailing,
        DecodeError::OutOfMemory => Outcome::OutOfMemory,
    }
}

/// What was read, or the kind of the error.
pub fn by_kind<T: Drop>(answer: Result<T, DecodeError>) -> Result<T, Outcome> {
    match answer {
        Ok(found) => Ok(found),
        Err(e) => Err(refused(&e)),
    }
}

/// The outcome of a reader that is not optional.
pub fn outcome_of<T: Drop>(answer: Result<T, DecodeError>) -> Outcome {
    match answer {
        Ok(_) => Outcome::Read,
        Err(e) => refused(&e),
    }
}

/// The outcome of an optional reader.
pub fn optional_outcome_of<T: Drop>(answer: Result<Option<T>, DecodeError>) -> Outcome {
    match answer {
        Ok(Some(_)) => Outcome::Read,
        Ok(None) => Outcome::Absent,
        Err(e) => refused(&e),
    }
}
