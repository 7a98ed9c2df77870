//! When a kind serves in place of another.
#![tactic(auto)]

ghost use Rattle.std.specs.Prelude.{◌≡◌};
ghost use Rattle.prov_types.specs.Spans.{IsProper};
ghost use Rattle.prov_types.specs.Kinds.{IsProperKind};
ghost use Rattle.prov_types.specs.Fits.{inside, fits, is_null};

use crate::kinds::{Kind, Span};
use crate::spans::step_of;

#[tactic(auto, unfolding(crate::specs::Fits::inside))]
fn is_inside(s: Span, t: Span) -> bool
    requires { IsProper t }
    ensures { result ≡ inside s t }
{
    s.lo >= t.lo && s.hi <= t.hi && step_of(s) % t.by == 0 && (s.lo - t.lo) % t.by == 0
}

/// The value 0 alone.
pub(crate) fn is_null(s: Span) -> bool
    ensures { result ≡ is_null s }
{
    s.lo == 0 && s.hi == 0
}

/// Whether every value of kind `a` is of kind `b`, as far as spans tell.
#[tactic(auto, unfolding(crate::specs::Fits::fits))]
pub fn fits(a: &Kind, b: &Kind) -> bool
    requires { IsProperKind b.now }
    ensures { result ≡ fits a.now b.now }
{
    match (*a, *b) {
        (_, Kind::Any) => true,
        (Kind::Num(s), Kind::Num(t)) => is_inside(s, t),
        (Kind::Ptr(r, s), Kind::Ptr(q, t)) => r == q && is_inside(s, t),
        (Kind::Opt(r, s), Kind::Opt(q, t)) => r == q && is_inside(s, t),
        (Kind::Ptr(r, s), Kind::Opt(q, t)) => r == q && is_inside(s, t),
        (Kind::Num(s), Kind::Opt(_, _)) => is_null(s),
        _ => false,
    }
}
