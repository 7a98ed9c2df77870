//! Which nodes are reached along NEXT.
#![tactic(auto)]

ghost use Rattle.std.specs.Prelude.{◌≡◌, ◌||◌, [], ◌∷◌, ◌<◌, ℕ, false, length, IfOk};
ghost use Rattle.provenance_check.specs.Rules.{is_marked};
ghost use Rattle.provenance_check.specs.Reached.{MarkedTo, MarksReached, NextMarked, SpreadTo};

use prov_cert::Node;
use std::alloc::{AllocError, Global};

/// Marks a node, where it is there, and says whether the mark is new.
fn mark(marks: &mut [bool], number: u32) -> bool
    ensures { MarkedTo 1 (number ∷ []) marks.old marks.new result }
{
    let n = number as usize;
    if n >= marks.len() || marks[n] {
        return false;
    }
    marks[n] = true;
    true
}

fn either(a: bool, b: bool) -> bool
    ensures { result ≡ (a || b) }
{
    a || b
}

/// Marks nodes, and says whether a mark is new.
fn mark_all(marks: &mut [bool], numbers: &[u32]) -> bool
    ensures { MarkedTo (length numbers.now) numbers.now marks.old marks.new result }
{
    let mut more = false;
    for i in 0..numbers.len() {
        let new = mark(marks, numbers[i]);
        more = either(more, new);
    }
    more
}

/// Marks all to which a node leads, and says whether a mark is new.
fn mark_from(marks: &mut [bool], node: &Node) -> bool
    ensures { MarkedTo (length node.now.next) node.now.next marks.old marks.new result }
{
    mark_all(marks, node.next.as_slice())
}

/// Marks all to which the node of a number leads, where it is marked, and says whether a mark is new.
fn mark_next(marks: &mut [bool], nodes: &[Node], n: usize) -> bool
    requires { n < length nodes.now }
    ensures { NextMarked n nodes.now marks.old marks.new result }
{
    if n < marks.len() && marks[n] {
        mark_from(marks, &nodes[n])
    } else {
        false
    }
}

/// Marks all to which marked nodes lead, and says whether a mark is new.
fn spread(marks: &mut [bool], nodes: &[Node]) -> bool
    ensures { SpreadTo (length nodes.now) nodes.now marks.old marks.new result }
{
    let mut more = false;
    for n in 0..nodes.len() {
        let new = mark_next(marks, nodes, n);
        more = either(more, new);
    }
    more
}

/// Marks just the nodes that are reached from some.
fn settle(marks: &mut [bool], nodes: &[Node], starts: &[u32])
    requires none { (k : ℕ) → is_marked marks.old k ≡ false }
    requires long { length marks.old ≡ length nodes.now }
    ensures { MarksReached nodes.now starts.now marks.new }
{
    mark_all(marks, starts);
    loop {
        if !spread(marks, nodes) {
            return;
        }
    }
}

/// Which nodes are reached from some along NEXT: a mark for each node.
pub fn reached(alloc: Global, nodes: &[Node], starts: &[u32]) -> Result<Vec<bool>, AllocError>
    ensures { IfOk result (λ marks. MarksReached nodes.now starts.now marks.items) }
{
    let mut marks = Vec::new(alloc);
    marks.resize(nodes.len(), false)?;
    settle(marks.as_mut_slice(), nodes, starts);
    Ok(marks)
}
