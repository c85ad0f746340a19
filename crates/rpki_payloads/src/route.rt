//! What payloads say of a route (RFC 6811 2).

ghost use Rattle.std.specs.Prelude.{◌≡◌, ◌++◌, IfOk, OnOk, string_bytes};
ghost use Rattle.std.specs.List.{flat_map, list_any};
ghost use Rattle.rpki_payloads.specs.Route.{IsRouteText, covering_line, has_origin, is_covered_by, is_matched_by};
ghost use Rattle.rpki_payloads.specs.Route.{is_short, match_text, payload_text, route_line, route_text, state_of};
ghost use Rattle.rpki_payloads.specs.Route.{state_text};

use crate::covered::is_covered;
use crate::order::united;
use crate::payloads::Payloads;
use crate::vrp::Vrp;
use rpki_resources::Prefix;
use std::alloc::{AllocError, Global};

/// A route: a prefix, and the AS that announces it.
#[derive(Clone, Copy, Debug)]
pub struct Route {
    /// The prefix.
    pub prefix: Prefix,
    /// The AS number.
    pub as_id: u32,
}

/// What payloads say of a route.
#[derive(Clone, Copy, Debug)]
pub enum RouteState {
    /// A payload matches it.
    Valid,
    /// A payload covers it, and none matches it.
    Invalid,
    /// No payload covers it.
    NotFound,
}

impl RouteState {
    /// The text of the state, which ends a line.
    fn text(self) -> &'static str
        ensures { result.now ≡ state_text self }
    {
        match self {
            RouteState::Valid => ": valid\n",
            RouteState::Invalid => ": invalid\n",
            RouteState::NotFound => ": not found\n",
        }
    }
}

/// Whether a payload that covers a route matches it, and what doesn't, which ends a line.
fn match_text(origin: bool, short: bool) -> &'static str
    ensures { result.now ≡ match_text origin short }
{
    if origin {
        if short {
            return ": match\n";
        }
        return ": no match: the length\n";
    }
    if short {
        return ": no match: the AS number\n";
    }
    ": no match: the AS number and the length\n"
}

impl Vrp {
    /// The payload as csv has it, without the name of a locator: `AS64496,10.0.0.0/8,24`.
    ///
    /// Returns `AllocError` if allocation fails.
    #[tactic(auto, unfolding(crate::specs::Route::payload_text))]
    pub fn text(self, alloc: Global) -> Result<String, AllocError>
        ensures { IfOk result (λ text. string_bytes text ≡ payload_text self) }
    {
        let prefix = self.prefix();
        format!(in alloc; "AS{},{},{}", self.as_id, prefix, self.max_length)
    }
}

impl Route {
    /// Whether the payload covers the route: its prefix has all addresses of the route's.
    pub fn is_covered_by(self, vrp: Vrp) -> bool
        ensures { result ≡ is_covered_by self vrp }
    {
        is_covered(vrp.prefix(), self.prefix)
    }

    /// Whether the payload has the AS of the route, which is not AS 0.
    pub fn has_origin(self, vrp: Vrp) -> bool
        ensures { result ≡ has_origin self vrp }
    {
        self.as_id == vrp.as_id && self.as_id != 0
    }

    /// Whether the route is no longer than the maximum length of the payload.
    pub fn is_short(self, vrp: Vrp) -> bool
        ensures { result ≡ is_short self vrp }
    {
        self.prefix.len <= vrp.max_length
    }

    /// Whether the payload matches the route: it covers it, has its AS, and a maximum length that the route doesn't
    /// exceed.
    pub fn is_matched_by(self, vrp: Vrp) -> bool
        ensures { result ≡ is_matched_by self vrp }
    {
        self.is_covered_by(vrp) && (self.has_origin(vrp) && self.is_short(vrp))
    }

    /// Whether one of the payloads matches the route.
    fn is_matched(self, vrps: &[Vrp]) -> bool
        ensures { result ≡ list_any (is_matched_by self) vrps.now }
    {
        vrps.iter().any(|vrp| self.is_matched_by(*vrp))
    }

    /// Whether one of the payloads covers the route.
    fn is_covered(self, vrps: &[Vrp]) -> bool
        ensures { result ≡ list_any (is_covered_by self) vrps.now }
    {
        vrps.iter().any(|vrp| self.is_covered_by(*vrp))
    }

    /// What the payloads say of the route: valid where one matches it; invalid where one covers it, and none matches
    /// it; else not found (RFC 6811 2).
    pub fn state(self, vrps: &[Vrp]) -> RouteState
        ensures { result ≡ state_of self vrps.now }
    {
        if self.is_matched(vrps) {
            return RouteState::Valid;
        }
        if self.is_covered(vrps) {
            return RouteState::Invalid;
        }
        RouteState::NotFound
    }

    /// The route, as payloads are in csv.
    #[tactic(auto, unfolding(crate::specs::Route::route_line))]
    fn line(self, alloc: Global) -> Result<String, AllocError>
        ensures { IfOk result (λ text. string_bytes text ≡ route_line self) }
    {
        format!(in alloc; "AS{},{}", self.as_id, self.prefix)
    }

    /// Adds the line of the payload, if it covers the route.
    fn push_covering(self, text: &mut Vec<u8>, vrp: Vrp) -> Result<(), AllocError>
        ensures { OnOk result (text.new.items ≡ text.old.items ++ covering_line self vrp) }
    {
        if self.is_covered_by(vrp) {
            let payload = vrp.text(*text.allocator())?;
            let found = match_text(self.has_origin(vrp), self.is_short(vrp));
            text.extend_from_slice(payload.as_bytes())?;
            text.extend_from_slice(found.as_bytes())?;
        }
        Ok(())
    }

    /// Adds the lines of the payloads that cover the route.
    fn push_all_covering(self, text: &mut Vec<u8>, vrps: &[Vrp]) -> Result<(), AllocError>
        ensures { OnOk result (text.new.items ≡ text.old.items ++ flat_map (covering_line self) vrps.now) }
    {
        'vrps: for vrp in vrps {
            self.push_covering(text, *vrp)?;
        }
        Ok(())
    }

    /// The text of what the payloads say: a line of the route and its state, and then a line for each payload that
    /// covers it, and what of it doesn't match.
    fn text_by(self, alloc: Global, vrps: &[Vrp]) -> Result<Vec<u8>, AllocError>
        ensures { IfOk result (λ text. text.items ≡ route_text self vrps.now) }
    {
        let line = self.line(alloc)?;
        let mut text = line.into_bytes();
        text.extend_from_slice(self.state(vrps).text().as_bytes())?;
        self.push_all_covering(&mut text, vrps)?;
        Ok(text)
    }

    /// What the payloads of all locators say of the route (RFC 6811 2), as a text: a line of the AS number, the prefix
    /// and the state; and a line for each payload that covers it, each once, in order, and what of it doesn't match.
    ///
    /// Returns `AllocError` if allocation fails.
    pub fn text_of(self, alloc: Global, all: &[Payloads]) -> Result<Vec<u8>, AllocError>
        ensures { IfOk result (λ text. IsRouteText self all.now text.items) }
    {
        let vrps = united(alloc, all)?;
        self.text_by(alloc, vrps.as_slice())
    }
}
