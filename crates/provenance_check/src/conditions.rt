//! What the calls of this crate ask for.
#![tactic(auto)]

ghost use Rattle.std.specs.Prelude.{◌≡◌, ◌+◌, ◌<◌, ◌^◌, IsTrue, length, slice_index};
ghost use Rattle.prov_types.specs.Kinds.{length_of};
ghost use Rattle.prov_layout.specs.Pieces.{AreOrdered, IsBefore, IsProperClass};
ghost use Rattle.provenance_check.specs.Ground.{AreFormed, AreParts, AreRegisters, BehindAt, End, IsFormed, ProperAt};

use prov_cert::{Node, RegKind, StackPart};
use prov_layout::{Class, Piece};
use prov_types::is_proper;

/// Whether each register is there and has a proper kind.
fn are_registers(regs: &[RegKind]) -> bool
    ensures { IsTrue result → AreRegisters regs.now }
{
    for k in regs {
        if k.reg >= 32 || !is_proper(&k.kind) {
            return false;
        }
    }
    true
}

/// Whether each part of the stack has a proper kind.
fn are_parts(parts: &[StackPart]) -> bool
    ensures { IsTrue result → AreParts parts.now }
{
    for p in parts {
        if !is_proper(&p.kind) {
            return false;
        }
    }
    true
}

fn is_formed(node: &Node) -> bool
    ensures { IsTrue result → IsFormed node.now }
{
    are_registers(node.regs.as_slice()) && are_parts(node.stack.as_slice())
}

/// Whether each node names registers that there are, and has proper kinds.
pub fn are_formed(nodes: &[Node]) -> bool
    ensures { IsTrue result → AreFormed nodes.now }
{
    for n in 0..nodes.len() {
        if !is_formed(&nodes[n]) {
            return false;
        }
    }
    true
}

/// Whether each region ends below 2^64.
pub fn regions_end(starts: &[u64], lens: &[u64]) -> bool
    ensures { IsTrue result → End starts.now lens.now }
{
    if starts.len() != lens.len() {
        return false;
    }
    for r in 0..starts.len() {
        if starts[r].checked_add(lens[r]).is_none() {
            return false;
        }
    }
    true
}

/// Whether a piece ends where another begins, or before.
fn is_before(p: &Piece, q: &Piece) -> bool
    ensures { IsTrue result → IsBefore p.now q.now }
{
    p.region < q.region || p.region == q.region && q.at >= p.at && q.at - p.at >= p.len
}

fn is_proper_class(class: Class) -> bool
    ensures { IsTrue result → IsProperClass class }
{
    match class {
        Class::Number(kind) | Class::Fixed(kind) | Class::Convert(kind, _) => is_proper(&kind),
        _ => true,
    }
}

/// Whether a piece has a proper kind, and the one before it ends where it begins, or before.
fn is_in_place(pieces: &[Piece], i: usize) -> bool
    requires { i < length pieces.now }
    ensures proper { IsTrue result → ProperAt pieces.now i }
    ensures behind { IsTrue result → BehindAt pieces.now i }
{
    if !is_proper_class(pieces[i].class) {
        return false;
    }
    i == 0 || is_before(&pieces[i - 1], &pieces[i])
}

/// Whether pieces are in the order of their places, no two of them meet, and their kinds are proper.
pub fn are_ordered(pieces: &[Piece]) -> bool
    ensures { IsTrue result → AreOrdered pieces.now }
{
    for i in 0..pieces.len() {
        if !is_in_place(pieces, i) {
            return false;
        }
    }
    true
}
