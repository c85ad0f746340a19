//! Why nothing is handed out.

use rpki::repository::error::ValidationError;
use rpki_issue::IssueError;
use std::error::Error;
use std::fmt;

/// Why nothing is handed out.
#[derive(Clone, Copy, Debug)]
pub enum CheckError {
    /// The second step refuses the signature, or what it makes.
    Refused(IssueError),
    /// A validator refuses what was made, with this error.
    Invalid(ValidationError),
}

/// The text of the error.
impl fmt::Display for CheckError {
    ghost use Rattle.rpki_checked.specs.Checked.{check_text};

    ghost output = { check_text };

    fn fmt<W: fmt::Write>(&self, f: &mut fmt::Formatter<W>) -> fmt::Result {
        match self {
            CheckError::Refused(e) => e.fmt(f),
            CheckError::Invalid(e) => e.fmt(f),
        }
    }
}

impl Error for CheckError {}
