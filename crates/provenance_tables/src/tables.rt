//! The rules on a driver and its certificate as a whole.
#![tactic(auto)]

ghost use Rattle.std.specs.Prelude.{◌≡◌, ◌<◌, IfOk, Some, length};
ghost use Rattle.prov_cert.specs.Kept.{IsCert};
ghost use Rattle.provenance_tables.specs.Regions.{lens_of, starts_of};
ghost use Rattle.provenance_tables.specs.Tables.{TablesGive, first_in_tables, first_number, phase_number, tests, tests_of};

use crate::notified::check_notified;
use crate::regions::{check_regions, kept_with, lens_of, starts_of};
use crate::spans::{check_data, check_spans};
use map_faults::Kept;
use prov_cert::Cert;
use provenance_check::{Marks, Rule, check_entries, reached_from_each};
use std::alloc::{AllocError, Global};
use virtual_map::RuntimeState;

/// The number at which the rule `Phase` fails where the image stays.
fn phase_number(state: &RuntimeState) -> Option<u32>
    ensures { result ≡ phase_number state.now }
{
    if state.gone && !state.mapped {
        None
    } else {
        Some(0)
    }
}

/// The first rule from `Region` to `Notify` that fails, with its number.
#[tactic(auto, using(crate::proofs::Formed::nodes_formed, crate::proofs::Formed::entries_formed, crate::proofs::Formed::spans_sound), unfolding(crate::specs::Tables::first_number))]
fn first_test(
    state: &RuntimeState,
    image: &Kept,
    cert: &Cert,
    starts: &[u64],
    lens: &[u64],
    marks: &[Marks],
) -> Option<(Rule, u32)>
    requires cert { IsCert cert.now }
    requires regions { length starts.now < 256 }
    ensures { result ≡ first_number (tests state.now image.now cert.now starts.now lens.now marks.now) }
{
    let own = cert.regions.as_slice();
    let spans = cert.spans.as_slice();
    if let Some(n) = check_regions(state, starts, lens, own, spans) {
        return Some((Rule::Region, n));
    }
    if let Some(n) = check_spans(state, starts, lens, spans) {
        return Some((Rule::Span, n));
    }
    if let Some(n) = check_data(state, image, starts, lens, spans) {
        return Some((Rule::Data, n));
    }
    if let Some(n) = check_entries(cert.nodes.as_slice(), cert.entries.as_slice()) {
        return Some((Rule::Entry, n));
    }
    let functions = state.notifies.as_slice();
    if let Some(n) = check_notified(image, starts, lens, functions, cert, marks) {
        return Some((Rule::Notify, n));
    }
    None
}

/// The first rule from `Phase` to `Notify` that fails for a driver that stays, with its number.
#[tactic(auto, using(crate::proofs::Formed::starts_long), unfolding(crate::specs::Tables::first_number))]
fn first_of_kept(
    alloc: Global,
    state: &RuntimeState,
    image: &Kept,
    cert: &Cert,
    marks: &[Marks],
) -> Result<Option<(Rule, u32)>, AllocError>
    requires { IsCert cert.now }
    ensures { IfOk result (λ first. first ≡ first_number (tests_of state.now cert.now marks.now (Some image.now))) }
{
    let starts = starts_of(alloc, state, image, cert.regions.as_slice())?;
    let lens = lens_of(alloc, image, cert.regions.as_slice())?;
    if let Some(n) = phase_number(state) {
        return Ok(Some((Rule::Phase, n)));
    }
    Ok(first_test(
        state,
        image,
        cert,
        starts.as_slice(),
        lens.as_slice(),
        marks,
    ))
}

/// The first rule from `Phase` to `Notify` that fails, by the nodes that are reached from each function.
#[tactic(auto, unfolding(crate::specs::Tables::first_in_tables, crate::specs::Tables::first_number))]
pub(crate) fn first_in_tables(
    alloc: Global,
    state: &RuntimeState,
    handle: u64,
    cert: &Cert,
    marks: &[Marks],
) -> Result<Option<(Rule, u32)>, AllocError>
    requires { IsCert cert.now }
    ensures { IfOk result (λ first. first ≡ first_in_tables state.now handle cert.now marks.now) }
{
    match kept_with(state.kept.as_slice(), handle) {
        Some(image) => first_of_kept(alloc, state, image, cert, marks),
        None => Ok(Some((Rule::Phase, 0))),
    }
}

/// The first rule from `Phase` to `Notify` that the driver with a handle and a certificate of it fail, with the number of
/// the region, span, entry or function; None where none fails. A handle of no driver that stays fails `Phase`.
pub fn check_tables(
    alloc: Global,
    state: &RuntimeState,
    handle: u64,
    cert: &Cert,
) -> Result<Option<(Rule, u32)>, AllocError>
    requires { IsCert cert.now }
    ensures { IfOk result (TablesGive state.now handle cert.now) }
{
    let marks = reached_from_each(alloc, cert.nodes.as_slice(), cert.notify.as_slice())?;
    let first = first_in_tables(alloc, state, handle, cert, marks.as_slice())?;
    Ok(first)
}
