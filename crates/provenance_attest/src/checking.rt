//! A check of a driver and its certificate.
#![tactic(auto)]

ghost use Rattle.std.specs.Prelude.{◌≡◌, Bool, IfOk, List};
ghost use Rattle.guest_memory.specs.Pages.{bytes_of};
ghost use Rattle.map_transition.specs.Wholes.{Whole};
ghost use Rattle.prov_cert.specs.Kept.{IsCert};
ghost use Rattle.provenance_tables.specs.Passed.{Stands};
ghost use Rattle.provenance_tables.specs.Regions.{kept_with};
ghost use Rattle.provenance_attest.specs.Attested.{Attests, state_by, verdict_of};
ghost use Rattle.provenance_attest.specs.Frames.{AreInRam, OnlyTouches, Reserves, frames_of, marks_with, with_regions};

use crate::frames::{frames_for, reserve_all};
use crate::regions::{kept_with, lens_of, starts_of};
use crate::rules::check_rules;
use guest_memory::only_marks_are_added;
use map_transition::whole_stays;
use memory_map::map_is_map;
use prov_cert::Cert;
use provenance_check::Rule;
use provenance_tables::none_fails_stands;
use std::alloc::{AllocError, Global};
use uh_base::FRAME_LIMIT;
use virtual_map::RuntimeState;

/// What a check of a driver and its certificate comes to.
#[derive(Clone, Copy, Debug, PartialEq, Eq, Drop)]
pub enum Verdict {
    /// No rule fails.
    Yes,
    /// The first rule that fails, and the number of the region, span, entry, function or node, or of the pages.
    No(Rule, u32),
}

/// Touches the pages of regions, or gives how many pages would be touched, where these are more than `FRAME_LIMIT`.
fn reserve_these(
    alloc: Global,
    state: &mut RuntimeState,
    starts: &[u64],
    lens: &[u64],
) -> Result<Option<u32>, AllocError>
    requires base { state.old.memory.base ≡ state.old.layout.base }
    requires ram { AreInRam state.old.layout.base state.old.memory.pages starts.now lens.now }
    ensures gives { IfOk result (Reserves state.old state.new (with_regions state.old.memory.base state.old.memory.touched starts.now lens.now)) }
    ensures only { OnlyTouches state.old state.new }
{
    let base = state.layout.base;
    let pages = frames_for(alloc, &state.memory, base, starts, lens)?;
    if pages > FRAME_LIMIT {
        return Ok(Some(pages));
    }
    reserve_all(&mut state.memory, base, starts, lens)?;
    Ok(None)
}

/// Touches the pages in which the regions of a driver lie that passes the rules from `Phase` to `Notify`, or gives the
/// number with which the rule `Frames` fails: how many pages would be touched, where these are more than `FRAME_LIMIT`. No
/// byte changes. Where the host lacks memory some of the pages may be touched.
pub fn reserve_regions(
    alloc: Global,
    state: &mut RuntimeState,
    handle: u64,
    cert: &Cert,
) -> Result<Option<u32>, AllocError>
    requires whole { Whole state.old }
    requires stands { (marks : List (List Bool)) × Stands state.old handle cert.now marks }
    ensures gives { IfOk result (Reserves state.old state.new (marks_with state.old cert.now (kept_with handle state.old.kept))) }
    ensures only { OnlyTouches state.old state.new }
{
    map_is_map();
    state.memory.whole();
    let own = cert.regions.as_slice();
    match kept_with(state.kept.as_slice(), handle) {
        Some(image) => {
            let starts = starts_of(alloc, state, image, own)?;
            let lens = lens_of(alloc, image, own)?;
            reserve_these(alloc, state, starts.as_slice(), lens.as_slice())
        }
        None => Ok(None),
    }
}

/// What a check comes to where no rule but `Frames` fails.
fn touch_or_refuse(
    alloc: Global,
    state: &mut RuntimeState,
    handle: u64,
    cert: &Cert,
) -> Result<Verdict, AllocError>
    requires whole { Whole state.old }
    requires stands { (marks : List (List Bool)) × Stands state.old handle cert.now marks }
    ensures gives { IfOk result (λ verdict. verdict ≡ verdict_of (frames_of state.old cert.now (kept_with handle state.old.kept))) }
    ensures state { IfOk result (λ verdict. state.new ≡ state_by state.old handle cert.now verdict) }
    ensures only { OnlyTouches state.old state.new }
{
    match reserve_regions(alloc, state, handle, cert)? {
        Some(pages) => Ok(Verdict::No(Rule::Frames, pages)),
        None => Ok(Verdict::Yes),
    }
}

/// Checks a driver with a handle and its certificate: `Yes` exactly where no rule fails, else `No` with the first that does.
/// The rules from `Phase` to `Notify` are judged first, then those of the nodes, node by node, then `Frames`. After `Yes` the
/// pages in which the driver's regions lie are touched, after `No` nothing has changed. Where the host lacks memory some of
/// these pages may be touched.
pub fn attest(
    alloc: Global,
    state: &mut RuntimeState,
    handle: u64,
    cert: &Cert,
) -> Result<Verdict, AllocError>
    requires whole { Whole state.old }
    requires cert { IsCert cert.now }
    ensures gives { IfOk result (Attests state.old state.new handle cert.now) }
    ensures only { OnlyTouches state.old state.new }
    ensures bytes { bytes_of state.new.memory ≡ bytes_of state.old.memory }
    ensures whole { Whole state.new }
{
    none_fails_stands();
    only_marks_are_added();
    whole_stays();
    match check_rules(alloc, state, handle, cert)? {
        Some((rule, n)) => Ok(Verdict::No(rule, n)),
        None => touch_or_refuse(alloc, state, handle, cert),
    }
}
