//! Why nothing is issued.

ghost use Rattle.std.specs.Prelude.{◌≡◌};

use rpki_cert::CertRule;
use std::alloc::AllocError;
use std::error::Error;
use std::fmt;

/// Why nothing is issued.
#[derive(Clone, Copy, Debug, PartialEq, Eq)]
pub enum IssueError {
    /// A URI has 3,080 octets or more, so that no reader accepts it (RFC 5781 2).
    Uri,
    /// The next list is to be issued before this one is (RFC 5280 5.1.2.5).
    Period,
    /// Two entries of the list have the same serial number (RFC 5280 5.1.2.6).
    Doubled,
    /// No extension says these resources: there are none of a kind, a kind without a block, or a number that is none of
    /// the kind (RFC 3779 2.2.3, 3.2.3).
    Resources,
    /// There are more octets than a length announces: 2^31 in resources, or 2^32 in all.
    TooLong,
    /// The certificate breaks this rule of its profile, the first in the profile's order.
    Rule(CertRule),
    /// The content type is no object identifier, or has 2^31 octets or more (RFC 5652 11.1).
    ContentType,
    /// The signer's certificate is none.
    Certificate,
    /// The signature is not one of these octets by the signer's key.
    BadSignature,
    /// Allocation failed.
    OutOfMemory,
}

/// What a person reads.
impl fmt::Display for IssueError {
    ghost use Rattle.std.specs.Prelude.{Some};
    ghost use Rattle.rpki_issue.specs.Refusal.{issue_text};

    ghost output = { λ e. Some (issue_text e) };

    fn fmt<W: fmt::Write>(&self, f: &mut fmt::Formatter<W>) -> fmt::Result {
        match self {
            IssueError::Uri => f.write_str("URI of 3,080 octets or more"),
            IssueError::Period => f.write_str("period that ends before it begins"),
            IssueError::Doubled => f.write_str("serial number listed twice"),
            IssueError::Resources => f.write_str("resources that no extension says"),
            IssueError::TooLong => f.write_str("more octets than a length announces"),
            IssueError::Rule(_) => f.write_str("rule of the profile broken"),
            IssueError::ContentType => f.write_str("content type that is no object identifier"),
            IssueError::Certificate => f.write_str("certificate that is none"),
            IssueError::BadSignature => f.write_str("signature not by the key"),
            IssueError::OutOfMemory => f.write_str("out of memory"),
        }
    }
}

impl Error for IssueError {}

/// `OutOfMemory`.
impl From<AllocError> for IssueError {
    ghost use Rattle.std.specs.Prelude.{◌≡◌};
    ghost use Rattle.rpki_issue.specs.declared.error.IssueError.TheVariants.{OutOfMemory};

    ghost from_gives = { λ _ e. e ≡ OutOfMemory };

    fn from(_: AllocError) -> IssueError {
        IssueError::OutOfMemory
    }
}
