//! The first rule that fails at a node.
#![tactic(auto)]

ghost use Rattle.std.specs.Prelude.{◌≡◌, [], ◌∷◌, ◌<◌, ◌≤◌, IsTrue, List, slice_get, true, false};
ghost use Rattle.rv_decode.specs.Means.{NamesRegisters};
ghost use Rattle.uh_base.specs.Bytes.{plus};
ghost use Rattle.prov_types.specs.Kinds.{IsProperKind};
ghost use Rattle.prov_types.specs.Narrow.{is_branch, narrow};
ghost use Rattle.prov_types.specs.Asked.{Jumps, Loads, Stores, asked_kinds, may_compare};
ghost use Rattle.prov_cert.specs.declared.cert.StackPart.{StackPart as StackPartOf};
ghost use Rattle.prov_layout.specs.Pieces.{AreOrdered};
ghost use Rattle.provenance_check.specs.declared.rule.Rule.TheVariants as rules;
ghost use Rattle.provenance_check.specs.Ground.{AreFormed, End, IsFormed};
ghost use Rattle.provenance_check.specs.Registers.{kind_at, kinds_of, written};
ghost use Rattle.provenance_check.specs.Rules.{before, convert_rule, edges, exit_rule, first_of, first_rule, first_rule_of, is_marked, jump_rule, load_rule, store_rule, tests, tests_behind};
ghost use Rattle.provenance_check.specs.Seen.{IsFit, ask_of, behind_seen, parts_with, seen, target_seen};
ghost use Rattle.provenance_check.specs.Successors.{behind_jump, behind_load, behind_store, link_kind, narrowed, parts_behind, target_by};

use crate::accesses::{loaded, stores};
use crate::asked::{Asked, asked_of, link_kind};
use crate::branches::may_compare;
use crate::edges::{Behind, no_edge, one_edge, two_edges};
use crate::ground::{Ground, PageRights, is_marked};
use crate::jumps::{JumpTarget, cell_number, converts_by, even_offset, leads, leaves, target_by};
use crate::order::first_behind;
use crate::reading::{insn_at, place_of, site_rule};
use crate::registers::{kinds_of, write};
use crate::rule::Rule;
use prov_cert::{Node, StackPart};
use prov_layout::{Reader, read_kind, stored_kind};
use prov_types::{Kind, Place, Span, narrow};
use rv_decode::{Insn, Op};

/// The offset behind an instruction.
fn next_to(place: &Place) -> u64
    ensures { result ≡ plus place.now.at place.now.len }
{
    place.at.wrapping_add(u64::from(place.len))
}

/// On at an offset, where nothing changes but the kinds of registers.
fn on_at<'a>(node: &'a Node, to: u64, kinds: &[Kind; 32]) -> Behind<'a>
    ensures { behind_seen result ≡ record { to = to; kinds = kinds.now; parts = node.now.stack; done = node.now.done } }
{
    Behind {
        to,
        kinds: *kinds,
        parts: node.stack.as_slice(),
        stored: None,
        done: node.done.as_slice(),
        converted: None,
    }
}

/// The first rule from `Edge` on that fails where a run goes on at one offset, and nothing changes but the kinds of
/// registers.
fn goes_on(
    ground: &Ground<'_>,
    number: u32,
    node: &Node,
    to: u64,
    kinds: &[Kind; 32],
) -> Option<Rule>
    requires { AreFormed ground.now.nodes.now }
    ensures { result ≡ first_of (tests_behind (seen ground.now) number node.now (edges ground.now.nodes.now node.now.next (record { to = to; kinds = kinds.now; parts = node.now.stack; done = node.now.done } ∷ []))) }
{
    let edge = one_edge(ground, node.next.as_slice(), &on_at(node, to, kinds));
    first_behind(ground, number, node, edge)
}

/// The kinds with a register written.
fn with(kinds: &[Kind; 32], register: u8, kind: Kind) -> [Kind; 32]
    requires { register < 32 }
    ensures { result ≡ written kinds.now register kind }
{
    let mut after = *kinds;
    write(&mut after, register, kind);
    after
}

/// The first rule from `Load` on that fails at a load from an address of the kind.
#[tactic(auto, unfolding(crate::specs::Rules::first_of))]
fn judge_load<R: PageRights>(
    ground: &Ground<'_>,
    rights: &R,
    number: u32,
    node: &Node,
    kinds: &[Kind; 32],
    place: &Place,
    rd: u8,
    at: &Kind,
    width: u8,
    sign: bool,
) -> Option<Rule>
    requires formed { AreFormed ground.now.nodes.now }
    requires order { AreOrdered ground.now.pieces.now }
    requires end { End ground.now.starts.now ground.now.lens.now }
    requires kinds { kinds.now ≡ kinds_of node.now.regs }
    requires register { rd < 32 }
    requires proper { IsProperKind at.now }
    requires some { 0 < width }
    requires width { width ≤ 8 }
    ensures { result ≡ first_of ((rules.Load, load_rule (seen ground.now) (R.allows rights.now) (before (seen ground.now) number node.now) (Loads rd at.now width sign))
        ∷ tests_behind (seen ground.now) number node.now (edges ground.now.nodes.now node.now.next (behind_load (seen ground.now) (R.allows rights.now) (before (seen ground.now) number node.now) place.now rd at.now width sign))) }
{
    match *at {
        Kind::Ptr(r, s) => {
            let reader = Reader {
                notified: is_marked(ground.notified, number),
                done: node.done.as_slice(),
            };
            let wide = u64::from(width);
            match loaded(ground, rights, &reader, node.stack.as_slice(), r, &s, wide) {
                Some(kind) => {
                    let after = with(kinds, rd, read_kind(sign, wide, &kind));
                    goes_on(ground, number, node, next_to(place), &after)
                }
                None => Some(Rule::Load),
            }
        }
        _ => Some(Rule::Load),
    }
}

/// The part of the stack that a store leaves, None where it stores elsewhere.
#[tactic(auto, unfolding(prov_layout::specs::Stack::with_part))]
fn stored_part(region: u8, s: &Span, width: u8, kind: &Kind) -> Option<StackPart>
    requires { width ≤ 8 }
    ensures { (parts : List StackPartOf) → parts_with result parts ≡ parts_behind parts region s.now width kind.now }
{
    if region == 1 {
        Some(StackPart {
            at: s.lo,
            width,
            kind: stored_kind(u64::from(width), kind),
        })
    } else {
        None
    }
}

/// What is known behind a store.
fn stored_behind<'a>(
    node: &'a Node,
    kinds: &[Kind; 32],
    place: &Place,
    region: u8,
    s: &Span,
    width: u8,
    kind: &Kind,
) -> Behind<'a>
    requires { width ≤ 8 }
    ensures { behind_seen result ≡ record { to = plus place.now.at place.now.len; kinds = kinds.now; parts = parts_behind node.now.stack region s.now width kind.now; done = node.now.done } }
{
    Behind {
        to: next_to(place),
        kinds: *kinds,
        parts: node.stack.as_slice(),
        stored: stored_part(region, s, width, kind),
        done: node.done.as_slice(),
        converted: None,
    }
}

/// The first rule from `Store` on that fails at a store to an address of the kind.
#[tactic(auto, unfolding(crate::specs::Rules::first_of))]
fn judge_store<R: PageRights>(
    ground: &Ground<'_>,
    rights: &R,
    number: u32,
    node: &Node,
    kinds: &[Kind; 32],
    place: &Place,
    at: &Kind,
    width: u8,
    kind: &Kind,
) -> Option<Rule>
    requires formed { AreFormed ground.now.nodes.now }
    requires order { AreOrdered ground.now.pieces.now }
    requires end { End ground.now.starts.now ground.now.lens.now }
    requires kinds { kinds.now ≡ kinds_of node.now.regs }
    requires proper { IsProperKind at.now }
    requires some { 0 < width }
    requires width { width ≤ 8 }
    ensures { result ≡ first_of ((rules.Store, store_rule (seen ground.now) (R.allows rights.now) (before (seen ground.now) number node.now) (Stores at.now width kind.now))
        ∷ tests_behind (seen ground.now) number node.now (edges ground.now.nodes.now node.now.next (behind_store (before (seen ground.now) number node.now) place.now at.now width kind.now))) }
{
    match *at {
        Kind::Ptr(r, s) => {
            let notified = is_marked(ground.notified, number);
            if !stores(ground, rights, notified, r, &s, u64::from(width), kind) {
                return Some(Rule::Store);
            }
            let behind = stored_behind(node, kinds, place, r, &s, width, kind);
            let edge = one_edge(ground, node.next.as_slice(), &behind);
            first_behind(ground, number, node, edge)
        }
        _ => Some(Rule::Store),
    }
}

/// On at an edge of a branch, with the kinds of its two registers narrowed.
fn narrowed_at<'a>(
    node: &'a Node,
    kinds: &[Kind; 32],
    insn: &Insn,
    to: u64,
    pair: (Kind, Kind),
) -> Behind<'a>
    requires { NamesRegisters insn.now }
    ensures { behind_seen result ≡ record { to = to; kinds = written (written kinds.now insn.now.rs1 pair.0) insn.now.rs2 pair.1; parts = node.now.stack; done = node.now.done } }
{
    let first = with(kinds, insn.rs1, pair.0);
    let both = with(&first, insn.rs2, pair.1);
    on_at(node, to, &both)
}

/// Whether NEXT names a node for each edge of a branch that is possible, the taken one first.
fn branch_edges(
    ground: &Ground<'_>,
    number: u32,
    node: &Node,
    kinds: &[Kind; 32],
    insn: &Insn,
    behind: u64,
    target: u64,
    taken: Option<(Kind, Kind)>,
    passed: Option<(Kind, Kind)>,
) -> bool
    requires formed { AreFormed ground.now.nodes.now }
    requires names { NamesRegisters insn.now }
    requires kinds { kinds.now ≡ kinds_of node.now.regs }
    ensures { result ≡ edges ground.now.nodes.now node.now.next (narrowed (before (seen ground.now) number node.now) insn.now target taken (narrowed (before (seen ground.now) number node.now) insn.now behind passed [])) }
{
    let next = node.next.as_slice();
    match (taken, passed) {
        (Some(p), Some(q)) => two_edges(
            ground,
            next,
            &narrowed_at(node, kinds, insn, target, p),
            &narrowed_at(node, kinds, insn, behind, q),
        ),
        (Some(p), None) => one_edge(ground, next, &narrowed_at(node, kinds, insn, target, p)),
        (None, Some(q)) => one_edge(ground, next, &narrowed_at(node, kinds, insn, behind, q)),
        (None, None) => no_edge(ground, next),
    }
}

/// The first rule from `Jump` on that fails at a branch.
#[tactic(auto, unfolding(crate::specs::Rules::first_of))]
fn judge_branch(
    ground: &Ground<'_>,
    number: u32,
    node: &Node,
    kinds: &[Kind; 32],
    insn: &Insn,
    op: Op,
    a: &Kind,
    b: &Kind,
    behind: u64,
    target: u64,
) -> Option<Rule>
    requires formed { AreFormed ground.now.nodes.now }
    requires names { NamesRegisters insn.now }
    requires kinds { kinds.now ≡ kinds_of node.now.regs }
    requires branch { IsTrue (is_branch insn.now.op) }
    requires first { IsProperKind a.now }
    requires second { IsProperKind b.now }
    ensures { result ≡ first_of ((rules.Jump, may_compare op a.now b.now)
        ∷ tests_behind (seen ground.now) number node.now (edges ground.now.nodes.now node.now.next (narrowed (before (seen ground.now) number node.now) insn.now target (narrow insn.now true a.now b.now) (narrowed (before (seen ground.now) number node.now) insn.now behind (narrow insn.now false a.now b.now) [])))) }
{
    if !may_compare(op, a, b) {
        return Some(Rule::Jump);
    }
    let taken = narrow(insn, true, a, b);
    let passed = narrow(insn, false, a, b);
    let edge = branch_edges(
        ground, number, node, kinds, insn, behind, target, taken, passed,
    );
    first_behind(ground, number, node, edge)
}

/// Whether NEXT names the node behind a jump, with the kinds once its link is written.
fn jump_edge(
    ground: &Ground<'_>,
    number: u32,
    node: &Node,
    kinds: &[Kind; 32],
    target: JumpTarget,
) -> bool
    requires formed { AreFormed ground.now.nodes.now }
    requires order { AreOrdered ground.now.pieces.now }
    ensures { result ≡ edges ground.now.nodes.now node.now.next (behind_jump (seen ground.now) (before (seen ground.now) number node.now) kinds.now (target_seen target)) }
{
    let next = node.next.as_slice();
    match target {
        JumpTarget::Inner(to) => one_edge(ground, next, &on_at(node, to, kinds)),
        JumpTarget::Converts => match even_offset(&kinds[1]) {
            Some(to) => {
                let after = with(
                    kinds,
                    10,
                    Kind::Num(Span {
                        lo: 0,
                        hi: 0,
                        by: 1,
                    }),
                );
                let behind = Behind {
                    to,
                    kinds: after,
                    parts: node.stack.as_slice(),
                    stored: None,
                    done: node.done.as_slice(),
                    converted: cell_number(ground.pieces, &kinds[11]),
                };
                one_edge(ground, next, &behind)
            }
            None => no_edge(ground, next),
        },
        _ => no_edge(ground, next),
    }
}

/// The first rule from `Jump` on that fails at a jump to an address of the kind.
#[tactic(auto, unfolding(crate::specs::Rules::first_of))]
fn judge_jump<R: PageRights>(
    ground: &Ground<'_>,
    rights: &R,
    number: u32,
    node: &Node,
    kinds: &[Kind; 32],
    place: &Place,
    to: &Kind,
    rd: u8,
) -> Option<Rule>
    requires formed { AreFormed ground.now.nodes.now }
    requires order { AreOrdered ground.now.pieces.now }
    requires end { End ground.now.starts.now ground.now.lens.now }
    requires kinds { kinds.now ≡ kinds_of node.now.regs }
    requires register { rd < 32 }
    ensures { result ≡ first_of ((rules.Jump, jump_rule (seen ground.now) (before (seen ground.now) number node.now) place.now (Jumps to.now rd))
        ∷ (rules.Exit, exit_rule (seen ground.now) (before (seen ground.now) number node.now) place.now (Jumps to.now rd))
        ∷ (rules.Convert, convert_rule (seen ground.now) (R.allows rights.now) (before (seen ground.now) number node.now) place.now (Jumps to.now rd))
        ∷ tests_behind (seen ground.now) number node.now (edges ground.now.nodes.now node.now.next (behind_jump (seen ground.now) (before (seen ground.now) number node.now) (written (kinds_of node.now.regs) rd (link_kind (seen ground.now) place.now)) (target_by (is_marked ground.now.notified.now number) to.now)))) }
{
    let after = with(kinds, rd, link_kind(ground, place));
    let notified = is_marked(ground.notified, number);
    let target = target_by(notified, to);
    if !leads(&after, target) {
        return Some(Rule::Jump);
    }
    if !leaves(notified, &after, target) {
        return Some(Rule::Exit);
    }
    if !converts_by(ground, rights, node.done.as_slice(), &after, target) {
        return Some(Rule::Convert);
    }
    let edge = jump_edge(ground, number, node, &after, target);
    first_behind(ground, number, node, edge)
}

/// The first rule from `Load` on that fails where this is asked.
#[tactic(auto, unfolding(crate::specs::Rules::first_of))]
fn judge_asked<R: PageRights>(
    ground: &Ground<'_>,
    rights: &R,
    number: u32,
    node: &Node,
    kinds: &[Kind; 32],
    place: &Place,
    insn: &Insn,
    asked: Asked,
) -> Option<Rule>
    requires formed { AreFormed ground.now.nodes.now }
    requires order { AreOrdered ground.now.pieces.now }
    requires end { End ground.now.starts.now ground.now.lens.now }
    requires kinds { kinds.now ≡ kinds_of node.now.regs }
    requires names { NamesRegisters insn.now }
    requires fit { IsFit insn.now asked }
    ensures { result ≡ first_of (tests (seen ground.now) (R.allows rights.now) number node.now place.now insn.now (ask_of asked)) }
{
    match asked {
        Asked::Sets { rd, kind } => {
            let after = with(kinds, rd, kind);
            goes_on(ground, number, node, next_to(place), &after)
        }
        Asked::Loads {
            rd,
            at,
            width,
            sign,
        } => judge_load(
            ground, rights, number, node, kinds, place, rd, &at, width, sign,
        ),
        Asked::Stores { at, width, kind } => {
            judge_store(
                ground, rights, number, node, kinds, place, &at, width, &kind,
            )
        }
        Asked::Forks {
            op,
            a,
            b,
            behind,
            target,
        } => judge_branch(
            ground, number, node, kinds, insn, op, &a, &b, behind, target,
        ),
        Asked::Goes { to, rd } => {
            let after = with(kinds, rd, link_kind(ground, place));
            goes_on(ground, number, node, to, &after)
        }
        Asked::Jumps { to, rd } => judge_jump(ground, rights, number, node, kinds, place, &to, rd),
        Asked::Stops => {
            let edge = no_edge(ground, node.next.as_slice());
            first_behind(ground, number, node, edge)
        }
    }
}

/// The first rule from `Load` on that fails at an instruction.
#[tactic(auto, unfolding(prov_types::specs::Asked::asked_kinds))]
fn judge_insn<R: PageRights>(
    ground: &Ground<'_>,
    rights: &R,
    number: u32,
    node: &Node,
    place: &Place,
    insn: &Insn,
) -> Option<Rule>
    requires formed { AreFormed ground.now.nodes.now }
    requires node { IsFormed node.now }
    requires order { AreOrdered ground.now.pieces.now }
    requires end { End ground.now.starts.now ground.now.lens.now }
    requires names { NamesRegisters insn.now }
    ensures { result ≡ first_of (tests (seen ground.now) (R.allows rights.now) number node.now place.now insn.now (asked_kinds ground.now.lens.now insn.now place.now (kind_at (kinds_of node.now.regs)))) }
{
    let kinds = kinds_of(node.regs.as_slice());
    let asked = asked_of(
        ground.lens,
        insn,
        place,
        &kinds[insn.rs1 as usize],
        &kinds[insn.rs2 as usize],
    );
    judge_asked(ground, rights, number, node, &kinds, place, insn, asked)
}

/// The first rule that fails at a node.
#[tactic(auto, unfolding(crate::specs::Rules::first_of, crate::specs::Rules::first_rule))]
fn judge<R: PageRights>(ground: &Ground<'_>, rights: &R, number: u32, node: &Node) -> Option<Rule>
    requires formed { AreFormed ground.now.nodes.now }
    requires node { IsFormed node.now }
    requires order { AreOrdered ground.now.pieces.now }
    requires sites { AreOrdered ground.now.sites.now }
    requires end { End ground.now.starts.now ground.now.lens.now }
    ensures { result ≡ first_rule (seen ground.now) (R.allows rights.now) number node.now }
{
    match insn_at(ground, node.at) {
        Some((insn, len)) => {
            let place = place_of(ground, node.at, len);
            if !site_rule(ground, &place, &insn) {
                return Some(Rule::Site);
            }
            judge_insn(ground, rights, number, node, &place, &insn)
        }
        None => Some(Rule::Insn),
    }
}

/// The first rule from `Insn` to `Unconverted` that fails at the node of a number, None where none fails.
pub fn check_node<R: PageRights>(ground: &Ground<'_>, rights: &R, number: u32) -> Option<Rule>
    requires formed { AreFormed ground.now.nodes.now }
    requires order { AreOrdered ground.now.pieces.now }
    requires sites { AreOrdered ground.now.sites.now }
    requires end { End ground.now.starts.now ground.now.lens.now }
    ensures { result ≡ first_rule_of (seen ground.now) (R.allows rights.now) number (slice_get ground.now.nodes.now number) }
{
    let n = number as usize;
    if n < ground.nodes.len() {
        judge(ground, rights, number, &ground.nodes[n])
    } else {
        None
    }
}
