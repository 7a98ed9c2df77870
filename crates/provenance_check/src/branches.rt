//! Which kinds a branch may compare.
#![tactic(auto)]

ghost use Rattle.std.specs.Prelude.{◌≡◌, ◌==◌, ◌&&◌};
ghost use Rattle.prov_types.specs.Fits.{is_null};
ghost use Rattle.prov_types.specs.Narrow.{is_equality};
ghost use Rattle.prov_types.specs.Asked.{is_equality_or_unsigned, may_compare};

use prov_types::{Kind, Span};
use rv_decode::Op;

fn is_equality(op: Op) -> bool
    ensures { result ≡ is_equality op }
{
    match op {
        Op::Beq | Op::Bne => true,
        _ => false,
    }
}

fn is_equality_or_unsigned(op: Op) -> bool
    ensures { result ≡ is_equality_or_unsigned op }
{
    match op {
        Op::Beq | Op::Bne | Op::Bltu | Op::Bgeu => true,
        _ => false,
    }
}

fn is_null(s: Span) -> bool
    ensures { result ≡ is_null s }
{
    s.lo == 0 && s.hi == 0
}

/// Whether a branch may compare values of two kinds: two numbers; two pointers into one region, but not by BLT and BGE;
/// and a pointer, or what may be 0, with 0, by BEQ and BNE.
#[tactic(auto, unfolding(prov_types::specs::Asked::may_compare))]
pub(crate) fn may_compare(op: Op, a: &Kind, b: &Kind) -> bool
    ensures { result ≡ may_compare op a.now b.now }
{
    match (*a, *b) {
        (Kind::Num(_), Kind::Num(_)) => true,
        (Kind::Ptr(r, _), Kind::Ptr(q, _)) => r == q && is_equality_or_unsigned(op),
        (Kind::Ptr(_, _), Kind::Num(t)) => is_equality(op) && is_null(t),
        (Kind::Opt(_, _), Kind::Num(t)) => is_equality(op) && is_null(t),
        (Kind::Num(s), Kind::Ptr(_, _)) => is_equality(op) && is_null(s),
        (Kind::Num(s), Kind::Opt(_, _)) => is_equality(op) && is_null(s),
        _ => false,
    }
}
