//! Resources of both families of addresses, in place.

use crate::choice_view::ChoiceView;

/// The IP resources of a certificate, in place (RFC 3779 2.2.3.1).
#[derive(Drop)]
pub struct IpResourcesView<'a> {
    /// Those of IP version 4.
    pub v4: ChoiceView<'a>,
    /// Those of IP version 6.
    pub v6: ChoiceView<'a>,
}
