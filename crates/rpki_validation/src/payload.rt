//! Payloads, and how long they are valid.

use rpki::repository::x509::Validity;

/// What is valid, and the period in which it is.
#[derive(Debug, Drop)]
pub struct Payload<T> {
    /// What is valid.
    pub value: T,
    /// The period in which its certificate and all of the path to the trust anchor are valid, and the revocation lists
    /// count that have none of them: its end is the first of their ends. A manifest may end earlier.
    pub period: Validity,
}
