//! The forms in which payloads are written.

ghost use Rattle.std.specs.Prelude.{IfOk};
ghost use Rattle.rpki_payloads.specs.Form.{IsTextIn};

use crate::bird::bird_text;
use crate::client::client_text;
use crate::csv_lines::csv_text;
use crate::json_form::json_text;
use crate::openbgpd::openbgpd_text;
use crate::order::{united, united_pairs};
use crate::payloads::Payloads;
use crate::stayrtr::stay_text;
use crate::timed::united_timed;
use crate::vap::vaps_of;
use rpki::repository::x509::Time;
use std::alloc::{AllocError, Global};

/// How payloads are written.
#[derive(Clone, Copy, Debug, PartialEq, Eq)]
pub enum Form {
    /// A line a payload, under a line of titles: AS number, prefix, maximum length, name of the locator.
    Csv,
    /// An object of JSON as of Routinator: when it was made, and arrays of objects: prefixes, keys of routers, and
    /// customers with their providers.
    Json,
    /// An object of JSON as StayRTR serves it to routers: the same, each prefix with the last second in which it is
    /// valid, since 1970-01-01T00:00:00Z; a key once for each of its AS numbers, where they are 256 at most.
    StayRtr,
    /// A set of origins, each with that second, and a set of customers with their providers, where there are any, as
    /// OpenBGPD reads them.
    OpenBgpd,
    /// The set of origins alone, for versions of OpenBGPD that know no set of customers.
    OpenBgpdOrigins,
    /// A table of origins for each family of addresses, and a protocol that fills it, as BIRD reads them.
    Bird,
    /// As [Form::Csv], with a fifth column, as rpki-client writes it: the last second in which the payload is valid,
    /// since 1970-01-01T00:00:00Z.
    RpkiClient,
}

impl Form {
    /// The text of the payloads of all locators in this form, where the list is made at this moment. In csv and JSON,
    /// of both kinds, each prefix and each key has the name of its locator, and those of a locator follow those of the
    /// one before; in the others there is each once, with its latest end. JSON has the moment.
    ///
    /// The providers of a customer are together, whichever attestations say them, and under whichever locators: a
    /// customer has them all (draft-ietf-sidrops-aspa-verification), for both families of addresses
    /// (draft-ietf-sidrops-aspa-profile, version 1). So a customer has no locator's name. Csv and BIRD have prefixes
    /// alone.
    ///
    /// Returns `AllocError` if allocation fails.
    pub fn text_of(self, alloc: Global, all: &[Payloads], made: Time) -> Result<Vec<u8>, AllocError>
        ensures { IfOk result (λ text. IsTextIn self all.now made text.items) }
    {
        match self {
            Form::Csv => csv_text(alloc, all),
            Form::Json => {
                let pairs = united_pairs(alloc, all)?;
                let vaps = vaps_of(alloc, pairs.as_slice())?;
                json_text(alloc, all, vaps.as_slice(), made)
            }
            Form::StayRtr => {
                let pairs = united_pairs(alloc, all)?;
                let vaps = vaps_of(alloc, pairs.as_slice())?;
                stay_text(alloc, all, vaps.as_slice(), made)
            }
            Form::OpenBgpd => {
                let timed = united_timed(alloc, all)?;
                let pairs = united_pairs(alloc, all)?;
                let vaps = vaps_of(alloc, pairs.as_slice())?;
                openbgpd_text(alloc, timed.as_slice(), vaps.as_slice())
            }
            Form::OpenBgpdOrigins => {
                let timed = united_timed(alloc, all)?;
                openbgpd_text(alloc, timed.as_slice(), &[])
            }
            Form::Bird => {
                let vrps = united(alloc, all)?;
                bird_text(alloc, vrps.as_slice())
            }
            Form::RpkiClient => client_text(alloc, all),
        }
    }
}
