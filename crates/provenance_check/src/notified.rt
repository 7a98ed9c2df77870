//! The rule of a notified function.
#![tactic(auto)]

ghost use Rattle.std.specs.Prelude.{◌≡◌, ◌+◌, ◌-◌, ◌<◌, ◌^◌, IfOk, Some, length, not, slice_get};
ghost use Rattle.prov_layout.specs.Offsets.{every};
ghost use Rattle.provenance_check.specs.Ground.{IsFormed};
ghost use Rattle.provenance_check.specs.Notified.{AreMarksOfEach, begins_notified, exit_leaves, exits_leave, is_in_region, notified_kinds, serves_in, serves_with};

use crate::edges::{kinds_fit, parts_fit, same_cells};
use crate::ground::{is_marked, of_region};
use crate::marks::reached;
use crate::registers::{kinds_of, write};
use prov_cert::Node;
use prov_types::{Kind, Span};
use std::alloc::{AllocError, Global};
use std::marker::Model;

/// Which nodes are reached from the first of a function: a mark for each node.
#[derive(Drop)]
pub struct Marks {
    marks: Vec<bool>,
}

impl Model for Marks {
    ghost use Rattle.std.specs.Prelude.{Bool, List};

    ghost Value = { List Bool };

    ghost view = { λ m. m.marks.items };
}

impl Marks {
    /// A mark for each node.
    pub fn as_slice(&self) -> &[bool]
        ensures { result.now ≡ self.now }
    {
        self.marks.as_slice()
    }
}

/// What is known of the registers where a notified function begins, with its context of a kind.
#[tactic(auto, unfolding(crate::specs::Notified::notified_kinds))]
fn notified_kinds(context: Kind) -> [Kind; 32]
    ensures { result ≡ notified_kinds context }
{
    let mut kinds = kinds_of(&[]);
    write(
        &mut kinds,
        1,
        Kind::Ptr(
            5,
            Span {
                lo: 1072,
                hi: 1072,
                by: 1,
            },
        ),
    );
    write(
        &mut kinds,
        2,
        Kind::Ptr(
            1,
            Span {
                lo: 65536,
                hi: 65536,
                by: 1,
            },
        ),
    );
    write(&mut kinds, 11, context);
    kinds
}

fn serves_with(node: &Node, context: Kind) -> bool
    requires { IsFormed node.now }
    ensures { result ≡ serves_with node.now context }
{
    kinds_fit(&notified_kinds(context), &kinds_of(node.regs.as_slice()))
}

/// Whether an address is in a region, or right behind it.
fn is_in_region(starts: &[u64], lens: &[u64], at: u64, region: u8) -> bool
    ensures { result ≡ is_in_region starts.now lens.now at region }
{
    let start = of_region(starts, region);
    at >= start && at - start <= of_region(lens, region)
}

fn serves_in(starts: &[u64], lens: &[u64], context: u64, node: &Node, region: u8) -> bool
    requires { IsFormed node.now }
    ensures { result ≡ serves_in starts.now lens.now context node.now region }
{
    if !is_in_region(starts, lens, context, region) {
        return false;
    }
    let offset = context - of_region(starts, region);
    serves_with(
        node,
        Kind::Ptr(
            region,
            Span {
                lo: offset,
                hi: offset,
                by: 1,
            },
        ),
    )
}

/// Whether the context as an address of none of the regions serves a node.
fn serves_in_none(starts: &[u64], lens: &[u64], context: u64, node: &Node) -> bool
    requires few { length starts.now < 256 }
    requires node { IsFormed node.now }
    ensures { result ≡ every (λ r. not (serves_in starts.now lens.now context node.now r)) 0 1 (length starts.now) }
{
    for r in 0..starts.len() {
        if serves_in(starts, lens, context, node, r as u8) {
            return false;
        }
    }
    true
}

/// Whether what is known where a notified function begins serves a node, by the regions and the function's context.
pub fn begins_notified(starts: &[u64], lens: &[u64], context: u64, node: &Node) -> bool
    requires few { length starts.now < 256 }
    requires node { IsFormed node.now }
    ensures { result ≡ begins_notified starts.now lens.now context node.now }
{
    let number = Kind::Num(Span {
        lo: context,
        hi: context,
        by: 1,
    });
    (serves_with(node, number) || !serves_in_none(starts, lens, context, node))
        && parts_fit(None, &[], node.stack.as_slice())
}

/// Whether a node isn't an exit that is reached, or leaves just these cells converted.
fn exit_leaves(done: &[u32], marks: &[bool], number: u32, node: &Node) -> bool
    ensures { result ≡ exit_leaves done.now marks.now number (Some node.now) }
{
    !(is_marked(marks, number) && node.next.is_empty())
        || same_cells(done, None, node.done.as_slice())
}

/// Whether the node of a number isn't an exit that is reached, or leaves just these cells converted.
fn exit_leaves_at(done: &[u32], marks: &[bool], nodes: &[Node], n: usize) -> bool
    requires inside { n < length nodes.now }
    requires few { n < 2 ^ 32 }
    ensures { result ≡ exit_leaves done.now marks.now n (slice_get nodes.now n) }
{
    exit_leaves(done, marks, n as u32, &nodes[n])
}

/// Whether just these cells are converted at each exit of a function, by marks for the nodes that are reached from its
/// first.
pub fn exits_leave(nodes: &[Node], marks: &[bool], done: &[u32]) -> bool
    requires { length nodes.now < 2 ^ 32 }
    ensures { result ≡ exits_leave nodes.now marks.now done.now }
{
    for n in 0..nodes.len() {
        if !exit_leaves_at(done, marks, nodes, n) {
            return false;
        }
    }
    true
}

/// For the first node of each notified function, which nodes are reached from it.
pub fn reached_from_each(
    alloc: Global,
    nodes: &[Node],
    notify: &[u32],
) -> Result<Vec<Marks>, AllocError>
    ensures { IfOk result (λ marks. AreMarksOfEach nodes.now notify.now marks.items) }
{
    let mut all = Vec::with_capacity(alloc, notify.len())?;
    for i in 0..notify.len() {
        let marks = reached(alloc, nodes, &[notify[i]])?;
        all.push(Marks { marks })?;
    }
    Ok(all)
}
