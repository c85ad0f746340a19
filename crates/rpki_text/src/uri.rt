//! The URIs that RPKI objects carry: rsync URIs (RFC 5781) and https URIs.
//!
//! A URI is kept as the text that it was spelled with, in shared memory. Its parts are cut out of that text, and
//! equality and hash go by what the text stands for.

mod characters;
mod error;
mod general_name;
mod https;
mod https_cut;
mod https_view;
mod joined;
mod path;
mod read_general_name;
mod rsync;
mod rsync_cut;
mod rsync_view;
mod scheme;

pub use characters::{check_uri_ascii, starts_with_ignore_case};
pub use error::Error;
pub use https::Https;
pub use https_cut::HttpsCut;
pub use https_view::HttpsView;
pub use joined::Joined;
pub use rsync::Rsync;
pub use rsync_cut::RsyncCut;
pub use rsync_view::RsyncView;
pub use scheme::Scheme;
