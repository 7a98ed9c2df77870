//! The rules on a driver and its certificate, up to those of its nodes.
#![tactic(auto)]

ghost use Rattle.std.specs.Prelude.{◌≡◌, ◌<◌, ◌^◌, Bool, IfOk, List, length};
ghost use Rattle.map_transition.specs.Wholes.{Whole};
ghost use Rattle.prov_cert.specs.Kept.{IsCert};
ghost use Rattle.prov_cert.specs.Reading.{cells_in, is_convert};
ghost use Rattle.provenance_tables.specs.Regions.{kept_with, rights_in};
ghost use Rattle.provenance_tables.specs.Passed.{Stands};
ghost use Rattle.provenance_attest.specs.Grounds.{CanBeJudged, ground_of};
ghost use Rattle.provenance_attest.specs.Rules.{RulesGive, first_in_nodes, nodes_of};

use crate::nodes::first_in_nodes;
use crate::reaches::{Reached, reaches_of};
use crate::regions::{kept_with, lens_of, size_of, starts_of};
use crate::rights::SeenRights;
use crate::sites::sites_laid;
use crate::targets::targets_of;
use address_view::load_bytes;
use map_faults::Kept;
use memory_map::map_is_map;
use prov_cert::{Cert, CertSpan, Class};
use prov_layout::{laid_is_ordered, lay};
use provenance_check::{Ground, Rule};
use provenance_tables::{check_tables, none_fails_stands};
use std::alloc::{AllocError, Global};
use virtual_map::RuntimeState;

/// How many spans are convertible cells.
fn cells_in(spans: &[CertSpan]) -> u32
    requires { length spans.now < 2 ^ 32 }
    ensures { result ≡ cells_in spans.now }
{
    let mut cells = 0;
    for s in spans {
        if is_convert(s.class) {
            cells += 1;
        }
    }
    cells
}

fn is_convert(class: Class) -> bool
    ensures { result ≡ is_convert class }
{
    matches!(class, Class::Convert(_))
}

/// The first rule from `Insn` to `Unconverted` that fails at a node of a driver that stays, with the node's number.
#[tactic(auto, unfolding(crate::specs::Grounds::ground_of))]
fn judge_nodes(
    alloc: Global,
    state: &RuntimeState,
    image: &Kept,
    cert: &Cert,
    reached: &Reached,
) -> Result<Option<(Rule, u32)>, AllocError>
    requires cert { IsCert cert.now }
    requires can { CanBeJudged state.now image.now cert.now }
    ensures { IfOk result (λ first. first ≡ first_in_nodes (ground_of state.now image.now cert.now reached.now) (rights_in state.now)) }
{
    let spans = cert.spans.as_slice();
    let starts = starts_of(alloc, state, image, cert.regions.as_slice())?;
    let lens = lens_of(alloc, image, cert.regions.as_slice())?;
    let bytes = load_bytes(
        alloc,
        &state.memory,
        &state.view,
        image.base,
        size_of(image),
    )?;
    let sites = sites_laid(alloc, &state.memory, &state.view, image)?;
    let targets = targets_of(alloc, state, image, starts.as_slice(), spans)?;
    let pieces = lay(alloc, targets.as_slice(), spans)?;
    let ground = Ground {
        starts: starts.as_slice(),
        lens: lens.as_slice(),
        image: bytes.as_slice(),
        sites: sites.as_slice(),
        pieces: pieces.as_slice(),
        nodes: cert.nodes.as_slice(),
        called: reached.called.as_slice(),
        notified: reached.notified.as_slice(),
        last: reached.last.as_slice(),
        cells: cells_in(spans),
    };
    let rights = SeenRights {
        memory: &state.memory,
        view: &state.view,
    };
    Ok(first_in_nodes(&ground, &rights))
}

/// The first rule from `Insn` to `Unconverted` that fails at a node, where none fails before.
fn check_nodes(
    alloc: Global,
    state: &RuntimeState,
    handle: u64,
    cert: &Cert,
    reached: &Reached,
) -> Result<Option<(Rule, u32)>, AllocError>
    requires whole { Whole state.now }
    requires cert { IsCert cert.now }
    requires stands { (marks : List (List Bool)) × Stands state.now handle cert.now marks }
    ensures { IfOk result (λ first. first ≡ nodes_of state.now cert.now reached.now (kept_with handle state.now.kept)) }
{
    laid_is_ordered();
    map_is_map();
    match kept_with(state.kept.as_slice(), handle) {
        Some(image) => judge_nodes(alloc, state, image, cert, reached),
        None => Ok(None),
    }
}

/// The first rule that fails, from `Phase` to `Unconverted`, with its number: that of a region, span, entry or function,
/// or that of a node. The rules of nodes are judged node by node, where no rule before them fails. None where none fails.
pub fn check_rules(
    alloc: Global,
    state: &RuntimeState,
    handle: u64,
    cert: &Cert,
) -> Result<Option<(Rule, u32)>, AllocError>
    requires whole { Whole state.now }
    requires cert { IsCert cert.now }
    ensures { IfOk result (RulesGive state.now handle cert.now) }
{
    none_fails_stands();
    let reached = reaches_of(alloc, cert)?;
    match check_tables(alloc, state, handle, cert)? {
        Some(first) => Ok(Some(first)),
        None => check_nodes(alloc, state, handle, cert, &reached),
    }
}
