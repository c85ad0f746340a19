//! The payloads under one locator.

ghost use Rattle.std.specs.Prelude.{◌≡◌, IfOk, string_bytes};
ghost use Rattle.rpki_payloads.specs.Payloads.{payload_parts};

use crate::router_key::RouterKey;
use crate::tally::Tally;
use crate::timed::TimedVrp;
use crate::vap::CustomerProvider;
use crate::vrp::Vrp;
use std::alloc::{AllocError, Global};
use std::marker::Model;

/// The payloads under the locator of a trust anchor, with the name of that.
#[derive(Drop)]
pub struct Payloads {
    name: String,
    vrps: Vec<Vrp>,
    timed: Vec<TimedVrp>,
    pairs: Vec<CustomerProvider>,
    keys: Vec<RouterKey>,
    tally: Option<Tally>,
}

impl Model for Payloads {
    ghost use Rattle.std.specs.Prelude.{string_bytes};
    ghost use Rattle.rpki_payloads.specs.Payloads.{PayloadParts, payload_parts};

    ghost Value = { PayloadParts };

    ghost view = { λ p. payload_parts (string_bytes p.name) p.vrps.items p.timed.items p.pairs.items p.keys.items
        p.tally };
}

impl Payloads {
    /// These payloads, under the locator of this name; the prefixes that may be announced without their ends, and with
    /// them; and what was counted, where a validation found them.
    pub fn new(
        name: String,
        vrps: Vec<Vrp>,
        timed: Vec<TimedVrp>,
        pairs: Vec<CustomerProvider>,
        keys: Vec<RouterKey>,
        tally: Option<Tally>,
    ) -> Payloads
        ensures { result ≡ payload_parts (string_bytes name) vrps.items timed.items pairs.items keys.items tally }
    {
        Payloads {
            name,
            vrps,
            timed,
            pairs,
            keys,
            tally,
        }
    }

    /// The name of the locator.
    pub fn name(&self) -> &[u8]
        ensures { result.now ≡ self.now.name }
    {
        self.name.as_bytes()
    }

    /// A copy of the name of the locator.
    ///
    /// Returns `AllocError` if allocation fails.
    pub fn copied_name(&self, alloc: Global) -> Result<String, AllocError>
        ensures { IfOk result (λ name. string_bytes name ≡ self.now.name) }
    {
        String::from_str(alloc, self.name.as_str())
    }

    /// The prefixes that may be announced.
    pub fn vrps(&self) -> &[Vrp]
        ensures { result.now ≡ self.now.vrps }
    {
        self.vrps.as_slice()
    }

    /// The prefixes that may be announced, and until when.
    pub fn timed(&self) -> &[TimedVrp]
        ensures { result.now ≡ self.now.timed }
    {
        self.timed.as_slice()
    }

    /// The providers of autonomous systems.
    pub fn pairs(&self) -> &[CustomerProvider]
        ensures { result.now ≡ self.now.pairs }
    {
        self.pairs.as_slice()
    }

    /// The keys of routers.
    pub fn keys(&self) -> &[RouterKey]
        ensures { result.now ≡ self.now.keys }
    {
        self.keys.as_slice()
    }

    /// What was counted beside them, where a validation found them.
    pub fn tally(&self) -> Option<Tally>
        ensures { result ≡ self.now.tally }
    {
        self.tally
    }
}
