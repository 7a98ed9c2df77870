//! The least kind that two kinds fit.
#![tactic(auto)]

ghost use Rattle.std.specs.Prelude.{◌≡◌};
ghost use Rattle.prov_types.specs.Spans.{gcd_in, gcd, step_of, spanning};
ghost use Rattle.prov_types.specs.Fits.{is_null};
ghost use Rattle.prov_types.specs.declared.kinds.Kind.TheVariants.{Ptr, Opt};
ghost use Rattle.prov_layout.specs.Joins.{both, distance, join, join_spans, or_null, region_join};

use prov_types::{Kind, Span};

/// So many steps of Euclid's algorithm.
#[tactic(auto, unfolding(prov_types::specs::Spans::gcd_in))]
fn gcd_in(steps: u64, a: u64, b: u64) -> u64
    ensures { result ≡ gcd_in steps a b }
{
    if steps == 0 || b == 0 {
        a
    } else {
        gcd_in(steps - 1, b, a % b)
    }
}

#[tactic(auto, unfolding(prov_types::specs::Spans::gcd))]
fn gcd(a: u64, b: u64) -> u64
    ensures { result ≡ gcd a b }
{
    gcd_in(b, a, b)
}

fn step_of(s: Span) -> u64
    ensures { result ≡ step_of s }
{
    if s.lo == s.hi { 0 } else { s.by }
}

fn distance(a: u64, b: u64) -> u64
    ensures { result ≡ distance a b }
{
    if a <= b { b - a } else { a - b }
}

#[tactic(auto, unfolding(crate::specs::Joins::join_spans))]
fn join_spans(s: Span, t: Span) -> Span
    ensures { result ≡ join_spans s t }
{
    let step = gcd(gcd(step_of(s), step_of(t)), distance(s.lo, t.lo));
    Span {
        lo: s.lo.min(t.lo),
        hi: s.hi.max(t.hi),
        by: if step == 0 { 1 } else { step },
    }
}

fn or_null(nought: Span, region: u8, s: Span) -> Kind
    ensures { result ≡ or_null nought region s }
{
    if nought.lo == 0 && nought.hi == 0 {
        Kind::Opt(region, s)
    } else {
        Kind::Any
    }
}

fn join_addresses(r: u8, q: u8, s: Span, t: Span) -> Kind
    ensures { result ≡ region_join Ptr r q s t }
{
    if r == q {
        Kind::Ptr(r, join_spans(s, t))
    } else {
        Kind::Any
    }
}

fn join_options(r: u8, q: u8, s: Span, t: Span) -> Kind
    ensures { result ≡ region_join Opt r q s t }
{
    if r == q {
        Kind::Opt(r, join_spans(s, t))
    } else {
        Kind::Any
    }
}

/// The least kind that both kinds fit, Any where there is no other.
#[tactic(auto, unfolding(crate::specs::Joins::join))]
pub fn join(a: &Kind, b: &Kind) -> Kind
    ensures { result ≡ join a.now b.now }
{
    match (*a, *b) {
        (Kind::Num(s), Kind::Num(t)) => Kind::Num(join_spans(s, t)),
        (Kind::Ptr(r, s), Kind::Ptr(q, t)) => join_addresses(r, q, s, t),
        (Kind::Opt(r, s), Kind::Opt(q, t)) => join_options(r, q, s, t),
        (Kind::Ptr(r, s), Kind::Opt(q, t)) => join_options(r, q, s, t),
        (Kind::Opt(r, s), Kind::Ptr(q, t)) => join_options(r, q, s, t),
        (Kind::Num(s), Kind::Ptr(q, t)) => or_null(s, q, t),
        (Kind::Num(s), Kind::Opt(q, t)) => or_null(s, q, t),
        (Kind::Ptr(r, s), Kind::Num(t)) => or_null(t, r, s),
        (Kind::Opt(r, s), Kind::Num(t)) => or_null(t, r, s),
        _ => Kind::Any,
    }
}

/// The least kind of two accesses, where both are allowed.
pub(crate) fn both(a: Option<Kind>, b: Option<Kind>) -> Option<Kind>
    ensures { result ≡ both a b }
{
    match (a, b) {
        (Some(x), Some(y)) => Some(join(&x, &y)),
        _ => None,
    }
}
