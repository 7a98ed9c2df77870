//! What a conditional branch says of the kinds that it compares.
#![tactic(auto)]

ghost use Rattle.std.specs.Prelude.{◌≡◌, ◌==◌, ◌&&◌, IsTrue, if◌then◌else◌};
ghost use Rattle.prov_types.specs.declared.kinds.Kind.TheVariants.{Num, Ptr, Opt};
ghost use Rattle.prov_types.specs.Spans.{IsProper};
ghost use Rattle.prov_types.specs.Kinds.{IsProperKind};
ghost use Rattle.prov_types.specs.Fits.{is_null};
ghost use Rattle.prov_types.specs.Narrow.{capped, floored, without_end, only, below_some, above_some, equal_some, unlike_some, both_low, order_said, equality_said, pair_of, narrow_numbers, narrow_pointers, says_equal, against_null, is_equality, is_branch, said_by, narrow_between, narrow};

use crate::fitting::is_null;
use crate::kinds::{Kind, Span};
use crate::spans::spanning;
use rv_decode::{Insn, Op};

/// What an edge says of the number in rs1 beside the one in rs2.
#[derive(Clone, Copy, Debug, PartialEq, Eq, Drop)]
pub enum Said {
    Below,
    NotBelow,
    Equal,
    Unlike,
    Nothing,
}

/// The numbers of a span up to a bound.
#[tactic(auto, unfolding(crate::specs::Narrow::capped))]
fn capped(s: Span, top: u64) -> Option<Span>
    requires { IsProper s }
    ensures { result ≡ capped s top }
{
    if top < s.lo {
        return None;
    }
    if s.hi <= top {
        return Some(s);
    }
    let room = top - s.lo;
    Some(spanning(
        s.lo,
        s.lo + room / s.by * s.by,
        if room < s.by { 0 } else { s.by },
    ))
}

/// The numbers of a span from a bound on.
#[tactic(auto, unfolding(crate::specs::Narrow::floored))]
fn floored(s: Span, bottom: u64) -> Option<Span>
    requires { IsProper s }
    ensures { result ≡ floored s bottom }
{
    if s.hi < bottom {
        return None;
    }
    if bottom <= s.lo {
        return Some(s);
    }
    let room = s.hi - bottom;
    Some(spanning(
        s.hi - room / s.by * s.by,
        s.hi,
        if room < s.by { 0 } else { s.by },
    ))
}

/// A span without one of its ends.
#[tactic(auto, unfolding(crate::specs::Narrow::without_end))]
fn without_end(s: Span, v: u64) -> Option<Span>
    requires { IsProper s }
    ensures { result ≡ without_end s v }
{
    if s.lo == s.hi {
        return if s.lo == v { None } else { Some(s) };
    }
    let step = if s.hi - s.lo == s.by { 0 } else { s.by };
    if s.lo == v {
        Some(spanning(s.lo + s.by, s.hi, step))
    } else if s.hi == v {
        Some(spanning(s.lo, s.hi - s.by, step))
    } else {
        Some(s)
    }
}

/// One value of a span.
#[tactic(auto, unfolding(crate::specs::Narrow::only))]
fn only(s: Span, v: u64) -> Option<Span>
    requires { IsProper s }
    ensures { result ≡ only s v }
{
    if v >= s.lo && v <= s.hi && (v - s.lo) % s.by == 0 {
        Some(spanning(v, v, 0))
    } else {
        None
    }
}

#[tactic(auto, unfolding(crate::specs::Narrow::below_some))]
fn below_some(s: Span, t: Span) -> Option<Span>
    requires { IsProper s }
    ensures { result ≡ below_some s t }
{
    if t.hi == 0 { None } else { capped(s, t.hi - 1) }
}

#[tactic(auto, unfolding(crate::specs::Narrow::above_some, crate::specs::Narrow::floored))]
fn above_some(s: Span, t: Span) -> Option<Span>
    requires { IsProper s }
    ensures { result ≡ above_some s t }
{
    if t.lo >= s.hi {
        None
    } else {
        floored(s, t.lo + 1)
    }
}

#[tactic(auto, unfolding(crate::specs::Narrow::equal_some))]
fn equal_some(s: Span, t: Span) -> Option<Span>
    requires { IsProper s }
    ensures { result ≡ equal_some s t }
{
    if t.lo == t.hi { only(s, t.lo) } else { Some(s) }
}

#[tactic(auto, unfolding(crate::specs::Narrow::unlike_some))]
fn unlike_some(s: Span, t: Span) -> Option<Span>
    requires { IsProper s }
    ensures { result ≡ unlike_some s t }
{
    if t.lo == t.hi {
        without_end(s, t.lo)
    } else {
        Some(s)
    }
}

fn order_said(less: bool) -> Said
    ensures { result ≡ order_said less }
{
    if less { Said::Below } else { Said::NotBelow }
}

fn equality_said(equal: bool) -> Said
    ensures { result ≡ equality_said equal }
{
    if equal { Said::Equal } else { Said::Unlike }
}

fn both_low(s: Span, t: Span) -> bool
    ensures { result ≡ both_low s t }
{
    s.hi < 1 << 63 && t.hi < 1 << 63
}

/// What the edge of a branch says, where it is taken or isn't.
#[tactic(auto, unfolding(crate::specs::Narrow::said_by))]
fn said_by(op: Op, went: bool, s: Span, t: Span) -> Said
    ensures { result ≡ said_by op went s t }
{
    match op {
        Op::Beq => equality_said(went),
        Op::Bne => equality_said(!went),
        Op::Bltu => order_said(went),
        Op::Bgeu => order_said(!went),
        Op::Blt => {
            if both_low(s, t) {
                order_said(went)
            } else {
                Said::Nothing
            }
        }
        Op::Bge => {
            if both_low(s, t) {
                order_said(!went)
            } else {
                Said::Nothing
            }
        }
        _ => Said::Nothing,
    }
}

fn number_pair(s: Option<Span>, t: Option<Span>) -> Option<(Kind, Kind)>
    ensures { result ≡ pair_of Num Num s t }
{
    match (s, t) {
        (Some(s), Some(t)) => Some((Kind::Num(s), Kind::Num(t))),
        _ => None,
    }
}

fn pointer_pair(r: u8, q: u8, s: Option<Span>, t: Option<Span>) -> Option<(Kind, Kind)>
    ensures { result ≡ pair_of (Ptr r) (Ptr q) s t }
{
    match (s, t) {
        (Some(s), Some(t)) => Some((Kind::Ptr(r, s), Kind::Ptr(q, t))),
        _ => None,
    }
}

#[tactic(auto, unfolding(crate::specs::Narrow::narrow_numbers))]
fn narrow_numbers(said: Said, s: Span, t: Span) -> Option<(Kind, Kind)>
    requires first { IsProper s }
    requires second { IsProper t }
    ensures { result ≡ narrow_numbers said s t }
{
    match said {
        Said::Below => number_pair(below_some(s, t), above_some(t, s)),
        Said::NotBelow => number_pair(floored(s, t.lo), capped(t, s.hi)),
        Said::Equal => number_pair(equal_some(s, t), equal_some(t, s)),
        Said::Unlike => number_pair(unlike_some(s, t), unlike_some(t, s)),
        Said::Nothing => Some((Kind::Num(s), Kind::Num(t))),
    }
}

#[tactic(auto, unfolding(crate::specs::Narrow::narrow_pointers))]
fn narrow_pointers(said: Said, r: u8, q: u8, s: Span, t: Span) -> Option<(Kind, Kind)>
    requires first { IsProper s }
    requires second { IsProper t }
    ensures { result ≡ narrow_pointers said r q s t }
{
    match said {
        Said::Unlike => {
            if r == q {
                pointer_pair(r, q, unlike_some(s, t), unlike_some(t, s))
            } else {
                Some((Kind::Ptr(r, s), Kind::Ptr(q, t)))
            }
        }
        _ => Some((Kind::Ptr(r, s), Kind::Ptr(q, t))),
    }
}

fn is_equality(op: Op) -> bool
    ensures { result ≡ is_equality op }
{
    match op {
        Op::Beq | Op::Bne => true,
        _ => false,
    }
}

fn says_equal(op: Op, went: bool) -> bool
    ensures { result ≡ says_equal op went }
{
    match op {
        Op::Beq => went,
        _ => !went,
    }
}

/// What may be 0, against the number of a span.
#[tactic(auto, unfolding(crate::specs::Narrow::against_null))]
fn against(op: Op, went: bool, r: u8, s: Span, t: Span) -> Kind
    ensures { result ≡ (if is_equality op && is_null t then against_null op went r s else Opt r s) }
{
    if is_equality(op) && is_null(t) {
        if says_equal(op, went) {
            Kind::Num(spanning(0, 0, 0))
        } else {
            Kind::Ptr(r, s)
        }
    } else {
        Kind::Opt(r, s)
    }
}

#[tactic(auto, unfolding(crate::specs::Narrow::narrow_between))]
fn narrow_between(op: Op, went: bool, a: Kind, b: Kind) -> Option<(Kind, Kind)>
    requires first { IsProperKind a }
    requires second { IsProperKind b }
    ensures { result ≡ narrow_between op went a b }
{
    match (a, b) {
        (Kind::Num(s), Kind::Num(t)) => narrow_numbers(said_by(op, went, s, t), s, t),
        (Kind::Ptr(r, s), Kind::Ptr(q, t)) => narrow_pointers(said_by(op, went, s, t), r, q, s, t),
        (Kind::Opt(r, s), Kind::Num(t)) => Some((against(op, went, r, s, t), b)),
        (Kind::Num(s), Kind::Opt(r, t)) => Some((a, against(op, went, r, t, s))),
        _ => Some((a, b)),
    }
}

/// Whether a name is a conditional branch's.
pub fn is_branch(op: Op) -> bool
    ensures { result ≡ is_branch op }
{
    match op {
        Op::Beq | Op::Bne | Op::Blt | Op::Bge | Op::Bltu | Op::Bgeu => true,
        _ => false,
    }
}

/// The kinds of rs1 and rs2 on the edge of a conditional branch where it is taken, or on the one where it isn't. None
/// where the edge isn't possible, since no number of one of the kinds is left.
#[tactic(auto, unfolding(crate::specs::Narrow::narrow))]
pub fn narrow(insn: &Insn, taken: bool, a: &Kind, b: &Kind) -> Option<(Kind, Kind)>
    requires branch { IsTrue (is_branch insn.now.op) }
    requires first { IsProperKind a.now }
    requires second { IsProperKind b.now }
    ensures { result ≡ narrow insn.now taken a.now b.now }
{
    if insn.rs1 == insn.rs2 {
        Some((*a, *b))
    } else {
        narrow_between(insn.op, taken, *a, *b)
    }
}
