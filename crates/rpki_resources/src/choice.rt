//! Resources of one kind: those of the issuer, or a list (RFC 3779 2.2.3.4, 3.2.3.2).

use crate::blocks::Blocks;

/// Resources of one kind.
#[derive(Debug, Drop)]
pub enum ResourcesChoice {
    /// None: the kind isn't named.
    Missing,
    /// Those of the issuer.
    Inherit,
    /// These.
    Blocks(Blocks),
}
