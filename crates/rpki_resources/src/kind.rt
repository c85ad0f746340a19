//! What the numbers of blocks are.

use crate::family::AddressFamily;

/// What the numbers of blocks are: addresses of one family, or AS numbers.
#[derive(Clone, Copy, Debug, PartialEq, Eq)]
pub enum ResourceKind {
    /// Addresses of the family (RFC 3779 2).
    Addresses(AddressFamily),
    /// AS numbers (RFC 3779 3).
    AsNumbers,
}
