//! Where jumps lead, and what they have to leave.
#![tactic(auto)]

ghost use Rattle.std.specs.Prelude.{◌≡◌, ◌<◌, ◌^◌, ◌+◌};
ghost use Rattle.prov_types.specs.Kinds.{length_of};
ghost use Rattle.prov_layout.specs.Pieces.{AreOrdered};
ghost use Rattle.provenance_check.specs.Ground.{End};
ghost use Rattle.provenance_check.specs.Registers.{kind_at};
ghost use Rattle.provenance_check.specs.Rules.{converts, converts_by, converts_cell, disposition, is_value, leads, leaves};
ghost use Rattle.provenance_check.specs.Seen.{seen, target_seen};
ghost use Rattle.provenance_check.specs.Successors.{cell_in, cell_number, cell_of, even_offset, is_out, is_place, target_by};

use crate::accesses::is_allowed;
use crate::ground::{Ground, PageRights};
use prov_layout::{Class, Piece, is_number, piece_at};
use prov_types::{Kind, Span, fits};

/// Where a jump leads.
#[derive(Clone, Copy, Drop)]
pub(crate) enum JumpTarget {
    /// To an even offset of the image.
    Inner(u64),
    /// Out of the function.
    Out,
    /// To the slot of ConvertPointer. (UEFI 2.10, 8.4)
    Converts,
    /// Where no node may go.
    Astray,
}

/// The one even offset of the image that a kind is the address of.
pub(crate) fn even_offset(kind: &Kind) -> Option<u64>
    ensures { result ≡ even_offset kind.now }
{
    match *kind {
        Kind::Ptr(r, s) => {
            if r == 0 && s.lo == s.hi && s.lo % 2 == 0 {
                Some(s.lo)
            } else {
                None
            }
        }
        _ => None,
    }
}

fn is_place(region: u8, o: u64, kind: &Kind) -> bool
    ensures { result ≡ is_place region o kind.now }
{
    match *kind {
        Kind::Ptr(q, s) => q == region && s.lo == o && s.hi == o,
        _ => false,
    }
}

fn is_out(notified: bool, kind: &Kind) -> bool
    ensures { result ≡ is_out notified kind.now }
{
    if notified {
        is_place(5, 1072, kind)
    } else {
        is_place(3, 0, kind)
    }
}

/// Where a jump to an address of a kind leads.
#[tactic(auto, unfolding(crate::specs::Successors::target_by))]
pub(crate) fn target_by(notified: bool, kind: &Kind) -> JumpTarget
    ensures { target_seen result ≡ target_by notified kind.now }
{
    match even_offset(kind) {
        Some(to) => JumpTarget::Inner(to),
        None => {
            if is_out(notified, kind) {
                JumpTarget::Out
            } else if notified && is_place(5, 784, kind) {
                JumpTarget::Converts
            } else {
                JumpTarget::Astray
            }
        }
    }
}

/// Whether a jump leads somewhere, with the kinds once its link is written.
pub(crate) fn leads(kinds: &[Kind; 32], target: JumpTarget) -> bool
    ensures { result ≡ leads kinds.now (target_seen target) }
{
    match target {
        JumpTarget::Inner(_) | JumpTarget::Out => true,
        JumpTarget::Converts => even_offset(&kinds[1]).is_some(),
        JumpTarget::Astray => false,
    }
}

const STACK_END: Kind = Kind::Ptr(
    1,
    Span {
        lo: 65536,
        hi: 65536,
        by: 1,
    },
);

/// Whether a jump out of the function leaves the stack as it was, and in a call a number in a0.
pub(crate) fn leaves(notified: bool, kinds: &[Kind; 32], target: JumpTarget) -> bool
    ensures { result ≡ leaves notified kinds.now (target_seen target) }
{
    match target {
        JumpTarget::Out => fits(&kinds[2], &STACK_END) && (notified || is_number(kinds[10])),
        _ => true,
    }
}

fn is_value(v: u64, kind: &Kind) -> bool
    ensures { result ≡ is_value v kind.now }
{
    match *kind {
        Kind::Num(s) => s.lo == v && s.hi == v,
        _ => false,
    }
}

/// The debug disposition of ConvertPointer. (UEFI 2.10, 8.4.2)
fn disposition(kind: &Kind) -> u64
    ensures { result ≡ disposition kind.now }
{
    match *kind {
        Kind::Opt(_, _) => 1,
        _ => 0,
    }
}

fn cell_of(class: Class) -> Option<(Kind, u32)>
    ensures { result ≡ cell_of class }
{
    match class {
        Class::Convert(kind, cell) => Some((kind, cell)),
        _ => None,
    }
}

fn cell_in(o: u64, piece: Option<Piece>) -> Option<(Kind, u32)>
    ensures { result ≡ cell_in o piece }
{
    match piece {
        Some(p) => { if p.at == o { cell_of(p.class) } else { None } }
        None => None,
    }
}

/// The number of the convertible cell at an address.
pub(crate) fn cell_number(pieces: &[Piece], kind: &Kind) -> Option<u32>
    requires { AreOrdered pieces.now }
    ensures { result ≡ cell_number pieces.now kind.now }
{
    match *kind {
        Kind::Ptr(r, s) => match cell_in(s.lo, piece_at(pieces, r, s.lo)) {
            Some((_, cell)) => Some(cell),
            None => None,
        },
        _ => None,
    }
}

fn converts_cell<R: PageRights>(
    ground: &Ground<'_>,
    rights: &R,
    done: &[u32],
    debug: &Kind,
    region: u8,
    o: u64,
    found: Option<(Kind, u32)>,
) -> bool
    requires { End ground.now.starts.now ground.now.lens.now }
    ensures { result ≡ converts_cell (seen ground.now) (R.allows rights.now) done.now debug.now region o found }
{
    match found {
        Some((kind, cell)) => {
            is_value(disposition(&kind), debug)
                && is_allowed(ground, rights, true, region, 8, o)
                && !done.contains(&cell)
        }
        None => false,
    }
}

#[tactic(auto, unfolding(crate::specs::Rules::converts))]
fn converts<R: PageRights>(
    ground: &Ground<'_>,
    rights: &R,
    done: &[u32],
    debug: &Kind,
    address: &Kind,
) -> bool
    requires end { End ground.now.starts.now ground.now.lens.now }
    requires order { AreOrdered ground.now.pieces.now }
    ensures { result ≡ converts (seen ground.now) (R.allows rights.now) done.now debug.now address.now }
{
    match *address {
        Kind::Ptr(r, s) => {
            s.lo == s.hi
                && converts_cell(
                    ground,
                    rights,
                    done,
                    debug,
                    r,
                    s.lo,
                    cell_in(s.lo, piece_at(ground.pieces, r, s.lo)),
                )
        }
        _ => false,
    }
}

/// Whether a call of ConvertPointer may be made, with the kinds once its link is written.
pub(crate) fn converts_by<R: PageRights>(
    ground: &Ground<'_>,
    rights: &R,
    done: &[u32],
    kinds: &[Kind; 32],
    target: JumpTarget,
) -> bool
    requires end { End ground.now.starts.now ground.now.lens.now }
    requires order { AreOrdered ground.now.pieces.now }
    ensures { result ≡ converts_by (seen ground.now) (R.allows rights.now) done.now kinds.now (target_seen target) }
{
    match target {
        JumpTarget::Converts => converts(ground, rights, done, &kinds[10], &kinds[11]),
        _ => true,
    }
}
