//! The rule of an entry.
#![tactic(auto)]

ghost use Rattle.std.specs.Prelude.{◌≡◌, ◌<◌, ◌^◌, ℕ, [], Some, length, slice_get};
ghost use Rattle.prov_cert.specs.Cert.{Entry};
ghost use Rattle.provenance_check.specs.Entries.{are_arguments, begins_at, entry_passes, entry_rule, first_entry, is_argument, is_given, start_kinds};
ghost use Rattle.provenance_check.specs.Ground.{AreFormed, AreRegisters, IsFormed};
ghost use Rattle.provenance_check.specs.Registers.{naming};

use crate::edges::{kinds_fit, parts_fit};
use crate::registers::{kinds_of, write};
use prov_cert::{CertEntry, Node, RegKind};
use prov_types::{Kind, Span};

fn is_given(kind: Kind) -> bool
    ensures { result ≡ is_given kind }
{
    match kind {
        Kind::Num(_) => true,
        Kind::Ptr(r, _) | Kind::Opt(r, _) => r == 2,
        Kind::Any => false,
    }
}

fn is_argument(k: &RegKind) -> bool
    ensures { result ≡ is_argument k.now }
{
    k.reg >= 10 && k.reg <= 17 && is_given(k.kind)
}

#[tactic(auto, unfolding(crate::specs::Entries::are_arguments))]
fn are_arguments(arguments: &[RegKind]) -> bool
    ensures { result ≡ are_arguments arguments.now }
{
    for k in arguments {
        if !is_argument(k) {
            return false;
        }
    }
    true
}

/// What is known of the registers where a call begins.
#[tactic(auto, unfolding(crate::specs::Entries::start_kinds, crate::specs::Registers::naming))]
fn start_kinds(arguments: &[RegKind]) -> [Kind; 32]
    requires { AreRegisters arguments.now }
    ensures { result ≡ start_kinds arguments.now }
{
    let mut kinds = [Kind::Num(Span {
        lo: 0,
        hi: 0,
        by: 1,
    }); 32];
    write(
        &mut kinds,
        1,
        Kind::Ptr(
            3,
            Span {
                lo: 0,
                hi: 0,
                by: 1,
            },
        ),
    );
    write(
        &mut kinds,
        2,
        Kind::Ptr(
            1,
            Span {
                lo: 65536,
                hi: 65536,
                by: 1,
            },
        ),
    );
    for k in arguments {
        write(&mut kinds, k.reg, k.kind);
    }
    kinds
}

/// Whether what is known where a call begins serves a node.
fn begins_at(arguments: &[RegKind], node: &Node) -> bool
    requires arguments { AreRegisters arguments.now }
    requires node { IsFormed node.now }
    ensures { result ≡ begins_at arguments.now (Some node.now) }
{
    kinds_fit(&start_kinds(arguments), &kinds_of(node.regs.as_slice()))
        && parts_fit(None, &[], node.stack.as_slice())
}

/// Whether what is known where a call begins serves the node of a number.
fn begins_in(arguments: &[RegKind], nodes: &[Node], number: u32) -> bool
    requires nodes { AreFormed nodes.now }
    requires arguments { AreRegisters arguments.now }
    ensures { result ≡ begins_at arguments.now (slice_get nodes.now number) }
{
    let n = number as usize;
    if n < nodes.len() {
        begins_at(arguments, &nodes[n])
    } else {
        false
    }
}

/// Whether an entry's arguments are ones, and what is known where the call begins serves its node.
fn entry_rule(nodes: &[Node], entry: &CertEntry) -> bool
    requires nodes { AreFormed nodes.now }
    requires arguments { AreRegisters entry.now.arg_kinds }
    ensures { result ≡ entry_rule nodes.now entry.now }
{
    are_arguments(entry.arg_kinds.as_slice())
        && begins_in(entry.arg_kinds.as_slice(), nodes, entry.node)
}

/// Whether the rule of the entry of a number passes.
fn entry_passes(nodes: &[Node], entries: &[CertEntry], i: usize) -> bool
    requires inside { i < length entries.now }
    requires nodes { AreFormed nodes.now }
    requires arguments { (i : ℕ) (e : Entry) → slice_get entries.now i ≡ Some e → AreRegisters e.arg_kinds }
    ensures { result ≡ entry_passes nodes.now (slice_get entries.now i) }
{
    entry_rule(nodes, &entries[i])
}

/// The number of the first entry whose rule `Entry` fails, None where none fails.
pub fn check_entries(nodes: &[Node], entries: &[CertEntry]) -> Option<u32>
    requires nodes { AreFormed nodes.now }
    requires arguments { (i : ℕ) (e : Entry) → slice_get entries.now i ≡ Some e → AreRegisters e.arg_kinds }
    requires few { length entries.now < 2 ^ 32 }
    ensures { result ≡ first_entry nodes.now entries.now (length entries.now) }
{
    for i in 0..entries.len() {
        if !entry_passes(nodes, entries, i) {
            return Some(i as u32);
        }
    }
    None
}
