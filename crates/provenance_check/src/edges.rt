//! Whether what is known where a run goes on serves the node there.
#![tactic(auto)]

ghost use Rattle.std.specs.Prelude.{◌≡◌, ◌==◌, [], ◌∷◌, ℕ, slice_get, Some};
ghost use Rattle.std.specs.List.{list_any};
ghost use Rattle.prov_types.specs.Kinds.{IsProperKind};
ghost use Rattle.prov_layout.specs.Stack.{without};
ghost use Rattle.provenance_check.specs.Ground.{AreFormed, AreParts, IsFormed};
ghost use Rattle.provenance_check.specs.Registers.{kind_at};
ghost use Rattle.provenance_check.specs.Rules.{are_among, edges, has_part, kinds_fit, parts_fit, same_cells, serves};
ghost use Rattle.provenance_check.specs.Seen.{behind_seen, parts_with, seen};
ghost use Rattle.provenance_check.specs.Successors.{and_cell};

use crate::ground::Ground;
use crate::registers::kinds_of;
use prov_cert::{Node, StackPart};
use prov_layout::meets;
use prov_types::{Kind, fits};

/// Where a run may go on, an offset of the image, and what is known there.
#[derive(Clone, Copy, Drop)]
pub(crate) struct Behind<'a> {
    pub to: u64,
    pub kinds: [Kind; 32],
    /// The parts of the stack before, and one that is stored.
    pub parts: &'a [StackPart],
    pub stored: Option<StackPart>,
    /// The cells that were converted before, and one more.
    pub done: &'a [u32],
    pub converted: Option<u32>,
}

/// Whether each register's kind fits another.
pub(crate) fn kinds_fit(have: &[Kind; 32], want: &[Kind; 32]) -> bool
    requires { (r : ℕ) → IsProperKind (kind_at want.now r) }
    ensures { result ≡ kinds_fit have.now want.now }
{
    for r in 0..32 {
        if !fits(&have[r], &want[r]) {
            return false;
        }
    }
    true
}

/// Whether one of the parts has just the bytes of another, and its kind fits.
#[tactic(auto, unfolding(crate::specs::Rules::has_part))]
fn has_part(have: &[StackPart], p: &StackPart) -> bool
    requires { IsProperKind p.now.kind }
    ensures { result ≡ has_part have.now p.now }
{
    for q in have {
        if q.at == p.at && q.width == p.width && fits(&q.kind, &p.kind) {
            return true;
        }
    }
    false
}

/// Whether one of the parts that have none of so many bytes does.
#[tactic(auto, unfolding(crate::specs::Rules::has_part, prov_layout::specs::Stack::without))]
fn has_part_outside(have: &[StackPart], o: u64, width: u64, p: &StackPart) -> bool
    requires { IsProperKind p.now.kind }
    ensures { result ≡ has_part (without o width have.now) p.now }
{
    for q in have {
        if !meets(o, width, q) && q.at == p.at && q.width == p.width && fits(&q.kind, &p.kind) {
            return true;
        }
    }
    false
}

#[tactic(auto, unfolding(crate::specs::Rules::has_part))]
fn has_part_behind(stored: Option<StackPart>, parts: &[StackPart], p: &StackPart) -> bool
    requires { IsProperKind p.now.kind }
    ensures { result ≡ has_part (parts_with stored parts.now) p.now }
{
    match stored {
        Some(q) => {
            q.at == p.at && q.width == p.width && fits(&q.kind, &p.kind)
                || has_part_outside(parts, q.at, u64::from(q.width), p)
        }
        None => has_part(parts, p),
    }
}

/// Whether each part that is wanted is there.
#[tactic(auto, unfolding(crate::specs::Rules::parts_fit))]
pub(crate) fn parts_fit(stored: Option<StackPart>, parts: &[StackPart], want: &[StackPart]) -> bool
    requires { AreParts want.now }
    ensures { result ≡ parts_fit (parts_with stored parts.now) want.now }
{
    for p in want {
        if !has_part_behind(stored, parts, p) {
            return false;
        }
    }
    true
}

/// Whether a cell is one of these, or the one besides.
fn has_cell(done: &[u32], besides: Option<u32>, cell: u32) -> bool
    ensures { result ≡ list_any (λ c. c == cell) (and_cell besides done.now) }
{
    match besides {
        Some(c) => c == cell || done.contains(&cell),
        None => done.contains(&cell),
    }
}

#[tactic(auto, unfolding(crate::specs::Rules::are_among))]
fn are_among(done: &[u32], besides: Option<u32>, cells: &[u32]) -> bool
    ensures { result ≡ are_among (and_cell besides done.now) cells.now }
{
    for cell in cells {
        if !has_cell(done, besides, *cell) {
            return false;
        }
    }
    true
}

/// Whether these cells and the one besides are just the others.
#[tactic(auto, unfolding(crate::specs::Rules::are_among))]
pub(crate) fn same_cells(done: &[u32], besides: Option<u32>, others: &[u32]) -> bool
    ensures { result ≡ same_cells (and_cell besides done.now) others.now }
{
    are_among(done, besides, others)
        && match besides {
            Some(c) => others.contains(&c) && are_among(others, None, done),
            None => are_among(others, None, done),
        }
}

/// Whether what is known serves a node.
fn serves(s: &Behind<'_>, node: &Node) -> bool
    requires { IsFormed node.now }
    ensures { result ≡ serves (behind_seen s.now) (Some node.now) }
{
    node.at == s.to
        && kinds_fit(&s.kinds, &kinds_of(node.regs.as_slice()))
        && parts_fit(s.stored, s.parts, node.stack.as_slice())
        && same_cells(s.done, s.converted, node.done.as_slice())
}

fn serves_at(ground: &Ground<'_>, number: u32, s: &Behind<'_>) -> bool
    requires { AreFormed ground.now.nodes.now }
    ensures { result ≡ serves (behind_seen s.now) (slice_get ground.now.nodes.now number) }
{
    let n = number as usize;
    if n < ground.nodes.len() {
        serves(s, &ground.nodes[n])
    } else {
        false
    }
}

/// Whether NEXT names no node.
#[tactic(auto, using(crate::proofs::NextLemmas::no_edge_is))]
pub(crate) fn no_edge(ground: &Ground<'_>, next: &[u32]) -> bool
    ensures { result ≡ edges ground.now.nodes.now next.now [] }
{
    next.is_empty()
}

/// Whether NEXT names one node, which what is known serves.
#[tactic(auto, using(crate::proofs::NextLemmas::one_edge_is))]
pub(crate) fn one_edge(ground: &Ground<'_>, next: &[u32], s: &Behind<'_>) -> bool
    requires { AreFormed ground.now.nodes.now }
    ensures { result ≡ edges ground.now.nodes.now next.now (behind_seen s.now ∷ []) }
{
    next.len() == 1 && serves_at(ground, next[0], s)
}

/// Whether NEXT names two nodes, in order.
#[tactic(auto, using(crate::proofs::NextLemmas::two_edge_is))]
pub(crate) fn two_edges(ground: &Ground<'_>, next: &[u32], s: &Behind<'_>, t: &Behind<'_>) -> bool
    requires { AreFormed ground.now.nodes.now }
    ensures { result ≡ edges ground.now.nodes.now next.now (behind_seen s.now ∷ behind_seen t.now ∷ []) }
{
    next.len() == 2 && serves_at(ground, next[0], s) && serves_at(ground, next[1], t)
}
