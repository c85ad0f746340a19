//! What local exceptions change of the payloads that cover a route (RFC 8416).

ghost use Rattle.std.specs.Prelude.{◌≡◌, ◌↔◌, ◌++◌, IfOk, IfSome, IsTrue, OnOk, string_bytes};
ghost use Rattle.std.specs.List.{flat_map};
ghost use Rattle.rpki_payloads.specs.Changed.{IsChangedText, added_by, added_line, asked_text, covers_if, filtered_by};
ghost use Rattle.rpki_payloads.specs.Changed.{filtered_line, filtered_lines, is_number, matches};
ghost use Rattle.rpki_payloads.specs.Covered.{IsCoveredBy};
ghost use Rattle.rpki_payloads.specs.Filtered.{IsFilteredBy};

use crate::covered::is_covered;
use crate::exceptions::NamedExceptions;
use crate::filters::PrefixFilter;
use crate::order::united;
use crate::payloads::Payloads;
use crate::route::Route;
use crate::vrp::Vrp;
use rpki_resources::Prefix;
use std::alloc::{AllocError, Global};

/// Whether the prefix is covered, where there is one that covers it.
fn covers_if(cover: Option<Prefix>, prefix: Prefix) -> bool
    ensures meaning { IsTrue result ↔ IfSome cover (λ cover. IsCoveredBy cover prefix) }
    ensures value { result ≡ covers_if cover prefix }
{
    match cover {
        Some(cover) => is_covered(cover, prefix),
        None => true,
    }
}

/// Whether the AS number is this one, where there is one.
fn is_number(asn: Option<u32>, number: u32) -> bool
    ensures meaning { IsTrue result ↔ IfSome asn (λ asn. number ≡ asn) }
    ensures value { result ≡ is_number asn number }
{
    match asn {
        Some(asn) => number == asn,
        None => true,
    }
}

/// What a filter asks: a prefix, an AS number, or both.
fn asked_text(alloc: Global, prefix: Option<Prefix>, asn: Option<u32>) -> Result<String, AllocError>
    ensures { IfOk result (λ text. string_bytes text ≡ asked_text prefix asn) }
{
    match prefix {
        Some(prefix) => match asn {
            Some(asn) => format!(in alloc; "{}, AS{}", prefix, asn),
            None => format!(in alloc; "{}", prefix),
        },
        None => match asn {
            Some(asn) => format!(in alloc; "AS{}", asn),
            None => Ok(String::new(alloc)),
        },
    }
}

impl PrefixFilter {
    /// Whether the filter matches the payload: its prefix covers that of the payload, and its AS number is that of the
    /// payload, as far as it has them (RFC 8416 3.3.1).
    fn matches(self, vrp: Vrp) -> bool
        ensures meaning { IsTrue result ↔ IsFilteredBy self vrp }
        ensures value { result ≡ matches self vrp }
    {
        covers_if(self.prefix, vrp.prefix()) && is_number(self.asn, vrp.as_id)
    }
}

/// Adds the line of the payload, if the filter of the file of this name matches it.
fn push_filtered(
    text: &mut Vec<u8>,
    name: &str,
    vrp: Vrp,
    filter: PrefixFilter,
) -> Result<(), AllocError>
    ensures { OnOk result (text.new.items ≡ text.old.items ++ filtered_line name.now vrp filter) }
{
    if filter.matches(vrp) {
        let alloc = *text.allocator();
        let payload = vrp.text(alloc)?;
        let asked = asked_text(alloc, filter.prefix, filter.asn)?;
        let line = format!(in alloc; "{payload}: filtered by {name}: {asked}\n")?;
        text.extend_from_slice(line.as_bytes())?;
    }
    Ok(())
}

/// Adds a line for each of the filters that matches the payload.
fn push_each_filtered(
    text: &mut Vec<u8>,
    name: &str,
    vrp: Vrp,
    filters: &[PrefixFilter],
) -> Result<(), AllocError>
    ensures { OnOk result (text.new.items ≡ text.old.items ++ flat_map (filtered_line name.now vrp) filters.now) }
{
    'filters: for filter in filters {
        push_filtered(text, name, vrp, *filter)?;
    }
    Ok(())
}

/// The same of the filters of a file.
fn push_filtered_by(text: &mut Vec<u8>, vrp: Vrp, file: &NamedExceptions) -> Result<(), AllocError>
    ensures { OnOk result (text.new.items ≡ text.old.items ++ filtered_by vrp file.now) }
{
    let filters = file.exceptions.prefix_filters.as_slice();
    push_each_filtered(text, file.name.as_str(), vrp, filters)?;
    Ok(())
}

/// The same of all files, if the payload covers the route.
fn push_filtered_lines(
    text: &mut Vec<u8>,
    route: Route,
    files: &[NamedExceptions],
    vrp: Vrp,
) -> Result<(), AllocError>
    ensures { OnOk result (text.new.items ≡ text.old.items ++ filtered_lines route files.now vrp) }
{
    if !route.is_covered_by(vrp) {
        return Ok(());
    }
    'files: for file in files {
        push_filtered_by(text, vrp, file)?;
    }
    Ok(())
}

/// The same of all payloads.
fn push_all_filtered(
    text: &mut Vec<u8>,
    route: Route,
    files: &[NamedExceptions],
    vrps: &[Vrp],
) -> Result<(), AllocError>
    ensures { OnOk result (text.new.items ≡ text.old.items ++ flat_map (filtered_lines route files.now) vrps.now) }
{
    'vrps: for vrp in vrps {
        push_filtered_lines(text, route, files, *vrp)?;
    }
    Ok(())
}

/// Adds the line of a payload that the file of this name adds, if it covers the route.
fn push_added(text: &mut Vec<u8>, route: Route, name: &str, vrp: Vrp) -> Result<(), AllocError>
    ensures { OnOk result (text.new.items ≡ text.old.items ++ added_line route name.now vrp) }
{
    if route.is_covered_by(vrp) {
        let alloc = *text.allocator();
        let payload = vrp.text(alloc)?;
        let line = format!(in alloc; "{payload}: added by {name}\n")?;
        text.extend_from_slice(line.as_bytes())?;
    }
    Ok(())
}

/// Adds a line for each of the payloads that covers the route.
fn push_each_added(
    text: &mut Vec<u8>,
    route: Route,
    name: &str,
    vrps: &[Vrp],
) -> Result<(), AllocError>
    ensures { OnOk result (text.new.items ≡ text.old.items ++ flat_map (added_line route name.now) vrps.now) }
{
    'vrps: for vrp in vrps {
        push_added(text, route, name, *vrp)?;
    }
    Ok(())
}

/// The same of the payloads that a file adds.
fn push_added_by(text: &mut Vec<u8>, route: Route, file: &NamedExceptions) -> Result<(), AllocError>
    ensures { OnOk result (text.new.items ≡ text.old.items ++ added_by route file.now) }
{
    push_each_added(
        text,
        route,
        file.name.as_str(),
        file.exceptions.vrps.as_slice(),
    )?;
    Ok(())
}

/// The same of all files.
fn push_all_added(
    text: &mut Vec<u8>,
    route: Route,
    files: &[NamedExceptions],
) -> Result<(), AllocError>
    ensures { OnOk result (text.new.items ≡ text.old.items ++ flat_map (added_by route) files.now) }
{
    'files: for file in files {
        push_added_by(text, route, file)?;
    }
    Ok(())
}

impl Route {
    /// What the exceptions of these files change of the payloads of all locators that cover the route, as a text: a
    /// line for each filter that matches one, and then for each that is added (RFC 8416 3.3.1, 3.4.1). It takes a step
    /// for each filter and each payload that covers the route.
    ///
    /// Returns `AllocError` if allocation fails.
    pub fn changed_text(
        self,
        alloc: Global,
        files: &[NamedExceptions],
        all: &[Payloads],
    ) -> Result<Vec<u8>, AllocError>
        ensures { IfOk result (λ text. IsChangedText self files.now all.now text.items) }
    {
        let vrps = united(alloc, all)?;
        let mut text = Vec::new(alloc);
        push_all_filtered(&mut text, self, files, vrps.as_slice())?;
        push_all_added(&mut text, self, files)?;
        Ok(text)
    }
}
