//! Resources of one kind, in place: those of the issuer, or a list (RFC 3779 2.2.3.4, 3.2.3.2).

use crate::view::BlocksView;

/// Resources of one kind, in place.
#[derive(Drop)]
pub enum ChoiceView<'a> {
    /// None: the kind isn't named.
    Missing,
    /// Those of the issuer.
    Inherit,
    /// These.
    Blocks(BlocksView<'a>),
}
