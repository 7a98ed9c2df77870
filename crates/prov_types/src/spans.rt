//! Arithmetic of spans.
#![tactic(auto)]

ghost use Rattle.std.specs.Prelude.{◌≡◌, ◌<◌};
ghost use Rattle.prov_types.specs.Spans.{gcd, spanning, made, sum, difference, raised, lowered, below, step_of};

use crate::kinds::Span;

/// The greatest common divisor, by Euclid's algorithm.
fn gcd(a: u64, b: u64) -> u64
    ensures { result ≡ gcd a b }
{
    let mut x = a;
    let mut y = b;
    while y != 0 {
        let rest = x % y;
        x = y;
        y = rest;
    }
    x
}

/// The step of a span, 0 of one value.
pub(crate) fn step_of(s: Span) -> u64
    ensures { result ≡ step_of s }
{
    if s.lo == s.hi { 0 } else { s.by }
}

/// The span with these ends and this step; a step of 0 is written as 1.
pub(crate) fn spanning(lo: u64, hi: u64, step: u64) -> Span
    ensures { result ≡ spanning lo hi step }
{
    Span {
        lo,
        hi,
        by: if step == 0 { 1 } else { step },
    }
}

fn made(lo: u128, hi: u128, step: u128) -> Option<Span>
    ensures { result ≡ made lo hi step }
{
    if lo < 1 << 64 && hi < 1 << 64 && step < 1 << 64 {
        Some(spanning(lo as u64, hi as u64, step as u64))
    } else {
        None
    }
}

/// The sums of two numbers of the spans, None where one could wrap.
#[tactic(auto, unfolding(crate::specs::Spans::sum))]
pub(crate) fn sum(s: Span, t: Span) -> Option<Span>
    ensures { result ≡ sum s t }
{
    made(
        u128::from(s.lo) + u128::from(t.lo),
        u128::from(s.hi) + u128::from(t.hi),
        u128::from(gcd(step_of(s), step_of(t))),
    )
}

/// The differences of two numbers of the spans, None where one could wrap.
#[tactic(auto, unfolding(crate::specs::Spans::difference))]
pub(crate) fn difference(s: Span, t: Span) -> Option<Span>
    ensures { result ≡ difference s t }
{
    if s.lo < t.hi {
        return None;
    }
    let step = gcd(step_of(s), step_of(t));
    made(
        u128::from(s.lo - t.hi),
        u128::from(s.hi.saturating_sub(t.lo)),
        u128::from(step),
    )
}

/// A span shifted left, None where a bit could be lost.
#[tactic(auto, unfolding(crate::specs::Spans::raised))]
pub(crate) fn raised(s: Span, k: u64) -> Option<Span>
    requires { k < 64 }
    ensures { result ≡ raised s k }
{
    made(
        u128::from(s.lo) << k,
        u128::from(s.hi) << k,
        u128::from(step_of(s)) << k,
    )
}

/// A span shifted right.
#[tactic(auto, unfolding(crate::specs::Spans::lowered))]
pub(crate) fn lowered(s: Span, k: u64) -> Span
    requires { k < 64 }
    ensures { result ≡ lowered s k }
{
    spanning(s.lo >> k, s.hi >> k, 1)
}

/// The numbers from 0 to `m` and at most to the span's high end.
#[tactic(auto, unfolding(crate::specs::Spans::below))]
pub(crate) fn below(s: Span, m: u64) -> Span
    ensures { result ≡ below s m }
{
    spanning(0, s.hi.min(m), 1)
}
