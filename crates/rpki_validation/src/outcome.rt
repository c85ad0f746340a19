//! What a walk finds.

ghost use Rattle.std.specs.Prelude.{◌≡◌, []};

use crate::payload::Payload;
use crate::reason::Reason;
use crate::router::RouterCert;
use rpki::uri::Rsync;
use rpki_contents::RouteOrigin;
use rpki_objects::Aspa;
use std::alloc::Global;

/// An object that is rejected, or all that an authority publishes.
#[derive(Debug, Drop)]
pub struct Rejection {
    /// The URI of the file; where all that an authority publishes is rejected, that of its manifest. None where the
    /// certificate of the authority names no manifest.
    pub uri: Option<Rsync>,
    /// Whether all that the authority publishes is rejected (RFC 9286 6.6).
    pub is_point: bool,
    /// Why.
    pub reason: Reason,
}

/// What is valid below a trust anchor, and what is rejected, in the order in which it was met. A payload is there as
/// often as it was found, each time with the period of the path by which it was.
#[derive(Drop)]
pub struct Outcome {
    /// The prefixes that may be announced, each with its AS number.
    pub origins: Vec<Payload<RouteOrigin>>,
    /// The attestations of providers.
    pub providers: Vec<Payload<Aspa>>,
    /// The certificates of routers.
    pub routers: Vec<Payload<RouterCert>>,
    /// What is rejected.
    pub rejections: Vec<Rejection>,
}

impl Outcome {
    /// Nothing.
    pub(crate) fn new(alloc: Global) -> Outcome
        ensures origins { result.origins.items ≡ [] }
        ensures providers { result.providers.items ≡ [] }
        ensures routers { result.routers.items ≡ [] }
        ensures rejections { result.rejections.items ≡ [] }
    {
        Outcome {
            origins: Vec::new(alloc),
            providers: Vec::new(alloc),
            routers: Vec::new(alloc),
            rejections: Vec::new(alloc),
        }
    }
}
