//! What loads give.
#![tactic(auto)]

ghost use Rattle.std.specs.Prelude.{◌≡◌, ◌≤◌, ◌<◌, ◌^◌, ◌+◌, ◌/◌};
ghost use Rattle.prov_types.specs.Spans.{IsProper};
ghost use Rattle.prov_layout.specs.Pieces.{AreOrdered, is_shut, shown};
ghost use Rattle.prov_layout.specs.Loads.{class_kind, load_kind, read_kind, span_kind, width_kind};

use crate::find::{all_open, shown};
use crate::joins::both;
use crate::piece::{Class, Piece, Reader};
use crate::stores::power;
use prov_types::{Kind, Span};

/// Any number of so many bytes.
pub(crate) fn width_kind(width: u64) -> Kind
    requires { width ≤ 8 }
    ensures { result ≡ width_kind width }
{
    Kind::Num(Span {
        lo: 0,
        hi: if width == 8 {
            u64::MAX
        } else {
            power(width) - 1
        },
        by: 1,
    })
}

fn class_kind(class: Class, width: u64) -> Option<Kind>
    requires { width ≤ 8 }
    ensures { result ≡ class_kind class width }
{
    match class {
        Class::Code => None,
        Class::Plain => Some(width_kind(width)),
        Class::Number(kind) | Class::Fixed(kind) | Class::Convert(kind, _) => Some(kind),
    }
}

/// What a load at an offset gives.
#[tactic(auto, unfolding(crate::specs::Loads::load_kind))]
fn load_kind(pieces: &[Piece], reader: &Reader<'_>, region: u8, o: u64, width: u64) -> Option<Kind>
    requires width { width ≤ 8 }
    requires fits { o + width < 2 ^ 64 }
    requires order { AreOrdered pieces.now }
    ensures { result ≡ load_kind (shown (is_shut reader.now.notified reader.now.done.now) pieces.now region) o width }
{
    match shown(pieces, reader, region, o) {
        None => None,
        Some(p) => {
            if p.at == o && p.len == width {
                class_kind(p.class, width)
            } else if all_open(pieces, reader, region, o, width) {
                Some(width_kind(width))
            } else {
                None
            }
        }
    }
}

/// The least common kind of loads at each offset of a span, None where one isn't allowed.
pub fn load_kinds(
    pieces: &[Piece],
    reader: &Reader<'_>,
    region: u8,
    s: &Span,
    width: u64,
) -> Option<Kind>
    requires width { width ≤ 8 }
    requires span { IsProper s.now }
    requires fits { s.now.hi + width < 2 ^ 64 }
    requires order { AreOrdered pieces.now }
    ensures { result ≡ span_kind (shown (is_shut reader.now.notified reader.now.done.now) pieces.now region) s.now width }
{
    let n = (s.hi - s.lo) / s.by;
    let mut kind = load_kind(pieces, reader, region, s.lo + n * s.by, width);
    for k in 0..n {
        let here = load_kind(pieces, reader, region, s.lo + (n - 1 - k) * s.by, width);
        kind = both(here, kind);
    }
    kind
}

/// Half of how many numbers have so many bytes.
fn half_range(width: u64) -> u64
    requires { width ≤ 8 }
    ensures { result ≡ 256 ^ width / 2 }
{
    if width == 8 {
        1 << 63
    } else {
        power(width) / 2
    }
}

/// The kind of what is read of a loaded kind, with or without its sign.
pub fn read_kind(sign: bool, width: u64, kind: &Kind) -> Kind
    requires { width ≤ 8 }
    ensures { result ≡ read_kind sign width kind.now }
{
    match *kind {
        Kind::Num(s) => {
            if sign && s.hi >= half_range(width) {
                width_kind(8)
            } else {
                *kind
            }
        }
        _ => { if sign { Kind::Any } else { *kind } }
    }
}
