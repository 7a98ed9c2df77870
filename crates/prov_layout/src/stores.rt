//! Which stores keep what the bytes of a region are.
#![tactic(auto)]

ghost use Rattle.std.specs.Prelude.{◌≡◌, ◌≤◌, ◌<◌, ◌^◌, ◌+◌, ◌*◌, ℕ, true, false};
ghost use Rattle.prov_types.specs.Spans.{IsProper};
ghost use Rattle.prov_layout.specs.Offsets.{every, count};
ghost use Rattle.prov_layout.specs.Pieces.{AreOrdered, IsProperClass, piece_at};
ghost use Rattle.prov_layout.specs.Stores.{is_number, is_within, store_keeps, takes};

use crate::find::{all_plain, piece_at};
use crate::piece::{Class, Piece, is_plain};
use prov_types::{Kind, Span, fits};

/// How many numbers have fewer than 8 bytes.
pub(crate) fn power(width: u64) -> u64
    requires { width < 8 }
    ensures is { result ≡ 256 ^ width }
    ensures some { 0 < result }
{
    match width {
        0 => 1,
        1 => 1 << 8,
        2 => 1 << 16,
        3 => 1 << 24,
        4 => 1 << 32,
        5 => 1 << 40,
        6 => 1 << 48,
        _ => 1 << 56,
    }
}

/// Whether a kind is that of numbers.
pub fn is_number(kind: Kind) -> bool
    ensures { result ≡ is_number kind }
{
    matches!(kind, Kind::Num(_))
}

pub(crate) fn is_within(width: u64, kind: Kind) -> bool
    requires { width ≤ 8 }
    ensures { result ≡ is_within width kind }
{
    match kind {
        Kind::Num(s) => width == 8 || s.hi < power(width),
        _ => false,
    }
}

/// Whether exactly a piece of a class takes a store.
fn takes(class: Class, width: u64, kind: Kind) -> bool
    requires width { width ≤ 8 }
    requires proper { IsProperClass class }
    ensures { result ≡ takes class width kind }
{
    match class {
        Class::Plain => is_number(kind),
        Class::Number(own) => is_number(kind) && is_within(width, kind) && fits(&kind, &own),
        Class::Convert(own, _) => width == 8 && fits(&kind, &own),
        _ => false,
    }
}

/// Whether a store at an offset keeps what is there.
#[tactic(auto, unfolding(crate::specs::Stores::store_keeps))]
fn keeps(pieces: &[Piece], region: u8, o: u64, width: u64, kind: Kind) -> bool
    requires width { width ≤ 8 }
    requires fits { o + width < 2 ^ 64 }
    requires order { AreOrdered pieces.now }
    ensures { result ≡ store_keeps (piece_at pieces.now region) o width kind }
{
    match piece_at(pieces, region, o) {
        None => false,
        Some(p) => {
            if p.at == o && p.len == width {
                takes(p.class, width, kind)
            } else {
                is_number(kind) && all_plain(pieces, region, o, width)
            }
        }
    }
}

/// How many of the next offsets keep, those of one plain piece at a time: 0 exactly where the first doesn't.
fn kept_run(pieces: &[Piece], region: u8, o: u64, by: u64, left: u64, width: u64, kind: Kind) -> u64
    requires width { width ≤ 8 }
    requires some { 0 < width }
    requires step { 0 < by }
    requires left { 0 < left }
    requires fits { o + width < 2 ^ 64 }
    requires order { AreOrdered pieces.now }
    ensures keeps { (i : ℕ) → i < result → store_keeps (piece_at pieces.now region) (o + i * by) width kind ≡ true }
    ensures none { result ≡ 0 → store_keeps (piece_at pieces.now region) o width kind ≡ false }
    ensures most { result ≤ left }
{
    if let Some(p) = piece_at(pieces, region, o) {
        if is_plain(p.class)
            && is_number(kind)
            && p.at <= o
            && p.len >= width
            && o - p.at <= p.len - width
        {
            let room = p.len - width - (o - p.at);
            return (room / by).min(left - 1) + 1;
        }
    }
    if keeps(pieces, region, o, width, kind) {
        1
    } else {
        0
    }
}

/// Whether a store at each offset of a span keeps what is there, offsets in one plain piece judged at once.
pub fn each_keeps(pieces: &[Piece], region: u8, s: &Span, width: u64, kind: &Kind) -> bool
    requires width { width ≤ 8 }
    requires some { 0 < width }
    requires span { IsProper s.now }
    requires fits { s.now.hi + width < 2 ^ 64 }
    requires order { AreOrdered pieces.now }
    ensures { result ≡ every (λ o. store_keeps (piece_at pieces.now region) o width kind.now) s.now.lo s.now.by (count s.now) }
{
    let n = (s.hi - s.lo) / s.by + 1;
    let mut done = 0;
    while done < n {
        let run = kept_run(
            pieces,
            region,
            s.lo + done * s.by,
            s.by,
            n - done,
            width,
            *kind,
        );
        if run == 0 {
            return false;
        }
        done += run;
    }
    true
}
