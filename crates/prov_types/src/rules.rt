//! What an instruction makes of kinds.
#![tactic(auto)]

ghost use Rattle.std.specs.Prelude.{◌≡◌, ◌<◌, ◌+◌, ◌^◌, ◌==◌, ◌&&◌, nat_lt, if◌then◌else◌, Option, Some, None};
ghost use Rattle.rv_step.specs.Values.{extended, bits_of};
ghost use Rattle.prov_types.specs.declared.kinds.Kind.TheVariants.{Num};
ghost use Rattle.prov_types.specs.Spans.{one, whole};
ghost use Rattle.prov_types.specs.Kinds.{length_of, IsProperKind};
ghost use Rattle.prov_types.specs.Transfer.{number, pointer, added, subtracted, moved, shifted_left, shifted_right, masked, ordered_unsigned, any_of, transfer, anded, rest_of, ordered, moved_span, moved_word, image_kind, upper_kind};

use crate::kinds::{Kind, Place, Span};
use crate::spans::{below, difference, lowered, raised, spanning, sum};
use rv_decode::{Insn, Op};

const WHOLE: Span = Span {
    lo: 0,
    hi: u64::MAX,
    by: 1,
};

const FLAG: Kind = Kind::Num(Span {
    lo: 0,
    hi: 1,
    by: 1,
});

fn number(s: Option<Span>) -> Kind
    ensures { result ≡ number s }
{
    match s {
        None => Kind::Num(WHOLE),
        Some(s) => Kind::Num(s),
    }
}

fn length_of(lens: &[u64], region: u8) -> u64
    ensures { result ≡ length_of lens.now region }
{
    let r = region as usize;
    if r < lens.len() { lens[r] } else { 0 }
}

fn pointer(lens: &[u64], region: u8, s: Option<Span>) -> Kind
    ensures { result ≡ pointer lens.now region s }
{
    match s {
        None => Kind::Any,
        Some(span) => {
            if length_of(lens, region) < span.hi {
                Kind::Any
            } else {
                Kind::Ptr(region, span)
            }
        }
    }
}

#[tactic(auto, unfolding(crate::specs::Transfer::added))]
fn added(lens: &[u64], a: Kind, b: Kind) -> Kind
    ensures { result ≡ added lens.now a b }
{
    match (a, b) {
        (Kind::Num(s), Kind::Num(t)) => number(sum(s, t)),
        (Kind::Ptr(region, span), Kind::Num(t)) => pointer(lens, region, sum(span, t)),
        (Kind::Num(s), Kind::Ptr(region, span)) => pointer(lens, region, sum(s, span)),
        _ => Kind::Any,
    }
}

#[tactic(auto, unfolding(crate::specs::Transfer::subtracted))]
fn subtracted(lens: &[u64], a: Kind, b: Kind) -> Kind
    ensures { result ≡ subtracted lens.now a b }
{
    match (a, b) {
        (Kind::Num(s), Kind::Num(t)) => number(difference(s, t)),
        (Kind::Ptr(region, span), Kind::Num(t)) => pointer(lens, region, difference(span, t)),
        (Kind::Ptr(r, _), Kind::Ptr(q, _)) => { if r == q { Kind::Num(WHOLE) } else { Kind::Any } }
        _ => Kind::Any,
    }
}

#[tactic(auto, unfolding(crate::specs::Transfer::moved))]
fn moved(lens: &[u64], a: Kind, imm: i64) -> Kind
    ensures { result ≡ moved lens.now a imm }
{
    let size = imm.unsigned_abs();
    if imm < 0 {
        subtracted(lens, a, Kind::Num(spanning(size, size, 0)))
    } else {
        added(lens, a, Kind::Num(spanning(size, size, 0)))
    }
}

#[tactic(auto, unfolding(crate::specs::Transfer::shifted_left))]
fn shifted_left(a: Kind, k: u64) -> Kind
    requires { k < 64 }
    ensures { result ≡ shifted_left a k }
{
    match a {
        Kind::Num(s) => number(raised(s, k)),
        _ => Kind::Any,
    }
}

#[tactic(auto, unfolding(crate::specs::Transfer::shifted_right))]
fn shifted_right(a: Kind, k: u64) -> Kind
    requires { k < 64 }
    ensures { result ≡ shifted_right a k }
{
    match a {
        Kind::Num(s) => Kind::Num(lowered(s, k)),
        _ => Kind::Any,
    }
}

#[tactic(auto, unfolding(crate::specs::Transfer::masked))]
fn masked(a: Kind, m: u64) -> Kind
    ensures { result ≡ masked a m }
{
    match a {
        Kind::Num(s) => {
            if m < 1 << 63 {
                Kind::Num(below(s, m))
            } else {
                Kind::Num(WHOLE)
            }
        }
        _ => Kind::Any,
    }
}

#[tactic(auto, unfolding(crate::specs::Transfer::ordered_unsigned))]
fn ordered_unsigned(a: Kind, b: Kind) -> Kind
    ensures { result ≡ ordered_unsigned a b }
{
    match (a, b) {
        (Kind::Num(_), Kind::Num(_)) => FLAG,
        (Kind::Ptr(r, _), Kind::Ptr(q, _)) => { if r == q { FLAG } else { Kind::Any } }
        _ => Kind::Any,
    }
}

#[tactic(auto, unfolding(crate::specs::Transfer::any_of))]
fn any_of(a: Kind, b: Kind) -> Kind
    ensures { result ≡ any_of a b }
{
    match (a, b) {
        (Kind::Num(_), Kind::Num(_)) => Kind::Num(WHOLE),
        _ => Kind::Any,
    }
}

#[tactic(auto, unfolding(crate::specs::Transfer::anded))]
fn anded(a: Kind, b: Kind) -> Kind
    ensures { result ≡ anded a b }
{
    match (a, b) {
        (Kind::Num(s), Kind::Num(t)) => {
            if t.lo == t.hi && t.lo < 1 << 63 {
                Kind::Num(below(s, t.lo))
            } else if s.lo == s.hi && s.lo < 1 << 63 {
                Kind::Num(below(t, s.lo))
            } else {
                Kind::Num(WHOLE)
            }
        }
        _ => Kind::Any,
    }
}

#[tactic(auto, unfolding(crate::specs::Transfer::rest_of))]
fn rest_of(a: Kind, b: Kind) -> Kind
    ensures { result ≡ rest_of a b }
{
    match (a, b) {
        (Kind::Num(s), Kind::Num(t)) => {
            if t.lo == t.hi && t.lo > 0 {
                Kind::Num(below(s, t.lo - 1))
            } else {
                Kind::Num(WHOLE)
            }
        }
        _ => Kind::Any,
    }
}

#[tactic(auto, unfolding(crate::specs::Transfer::ordered))]
fn ordered(a: Kind, b: Kind) -> Kind
    ensures { result ≡ ordered a b }
{
    match (a, b) {
        (Kind::Num(_), Kind::Num(_)) => FLAG,
        _ => Kind::Any,
    }
}

#[tactic(auto, unfolding(crate::specs::Transfer::moved_span))]
fn moved_span(s: Span, imm: i64) -> Option<Span>
    ensures { result ≡ moved_span s imm }
{
    let size = imm.unsigned_abs();
    if imm < 0 {
        difference(s, spanning(size, size, 0))
    } else {
        sum(s, spanning(size, size, 0))
    }
}

fn extended(n: u64) -> u64
    ensures { result ≡ extended n }
{
    let low = (n % (1 << 32)) as u32;
    i64::from(low.cast_signed()).cast_unsigned()
}

/// A word of one value.
fn word_of_one(s: Span, imm: i64) -> Kind
    ensures { result ≡ (if s.lo == s.hi && nat_lt (extended (s.lo + bits_of imm)) (2 ^ 31) then Num (one (extended (s.lo + bits_of imm))) else Num whole) }
{
    let bits = extended(s.lo.wrapping_add(imm.cast_unsigned()));
    if s.lo == s.hi && bits < 1 << 31 {
        Kind::Num(spanning(bits, bits, 0))
    } else {
        Kind::Num(WHOLE)
    }
}

#[tactic(auto, unfolding(crate::specs::Transfer::moved_word))]
fn moved_word(a: Kind, imm: i64) -> Kind
    ensures { result ≡ moved_word a imm }
{
    match a {
        Kind::Num(s) => match moved_span(s, imm) {
            Some(u) => {
                if u.hi < 1 << 31 {
                    Kind::Num(u)
                } else {
                    word_of_one(s, imm)
                }
            }
            None => Kind::Num(WHOLE),
        },
        _ => Kind::Any,
    }
}

/// An offset of the image as a pointer.
fn image_kind(lens: &[u64], offset: u64) -> Kind
    ensures { result ≡ image_kind lens.now offset }
{
    if length_of(lens, 0) < offset {
        Kind::Any
    } else {
        Kind::Ptr(0, spanning(offset, offset, 0))
    }
}

fn upper_kind(lens: &[u64], imm: i64, target: Option<u64>) -> Kind
    ensures { result ≡ upper_kind lens.now imm target }
{
    match target {
        None => {
            let value = imm.cast_unsigned();
            Kind::Num(spanning(value, value, 0))
        }
        Some(target) => image_kind(lens, target),
    }
}

/// The kind of what an instruction writes, where `a` and `b` are the kinds of rs1 and rs2, and `lens` holds the lengths of
/// the regions by their numbers, so that a region that isn't listed has length 0. Any for what writes no register, and for
/// loads, whose result rests on memory.
#[tactic(auto, unfolding(crate::specs::Transfer::transfer))]
pub fn transfer(insn: &Insn, place: &Place, a: &Kind, b: &Kind, lens: &[u64]) -> Kind
    ensures { result ≡ transfer insn.now place.now a.now b.now lens.now }
{
    let (a, b, imm) = (*a, *b, insn.imm);
    match insn.op {
        Op::Lui => upper_kind(lens, imm, place.target),
        Op::Auipc => image_kind(lens, place.at.wrapping_add(imm.cast_unsigned())),
        Op::Jal | Op::Jalr => image_kind(lens, place.at.wrapping_add(u64::from(place.len))),
        Op::Add => added(lens, a, b),
        Op::Addi => moved(lens, a, imm),
        Op::Sub => subtracted(lens, a, b),
        Op::Slli => shifted_left(a, imm.cast_unsigned() % 64),
        Op::Srli => shifted_right(a, imm.cast_unsigned() % 64),
        Op::Andi => masked(a, imm.cast_unsigned()),
        Op::Sltu => ordered_unsigned(a, b),
        Op::And => anded(a, b),
        Op::Remu => rest_of(a, b),
        Op::Addiw => moved_word(a, imm),
        Op::Slt => ordered(a, b),
        Op::Slti | Op::Sltiu => ordered(a, Kind::Num(WHOLE)),
        Op::Xori | Op::Ori | Op::Srai | Op::Slliw | Op::Srliw | Op::Sraiw => any_of(
            a,
            Kind::Num(WHOLE),
        ),
        Op::Sll
        | Op::Xor
        | Op::Srl
        | Op::Sra
        | Op::Or
        | Op::Addw
        | Op::Subw
        | Op::Sllw
        | Op::Srlw
        | Op::Sraw
        | Op::Mul
        | Op::Mulh
        | Op::Mulhsu
        | Op::Mulhu
        | Op::Mulw
        | Op::Div
        | Op::Divu
        | Op::Rem
        | Op::Divw
        | Op::Divuw
        | Op::Remw
        | Op::Remuw => any_of(a, b),
        _ => Kind::Any,
    }
}
