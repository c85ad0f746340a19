//! Trust anchor locators (RFC 8630): where the certificate of a trust anchor is, and its key.
#![tactic(auto)]

mod anchor_uri;
mod error;
mod lines;
mod locator;

pub use anchor_uri::AnchorUri;
pub use error::LocatorError;
pub use locator::Locator;
