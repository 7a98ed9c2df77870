//! The piece of a byte.
#![tactic(auto)]

ghost use Rattle.std.specs.Prelude.{◌≡◌, ◌<◌, ◌+◌, ◌^◌, IfSome};
ghost use Rattle.prov_layout.specs.Pieces.{AreOrdered, IsListed, all_of, begins_behind, is_code, is_open, is_plain, is_shut, piece_at, shown};

use crate::piece::{Piece, Reader, has_byte, is_code, is_open, is_plain, is_shut};

/// Whether a piece begins behind the byte of a region at an offset.
pub(crate) fn begins_behind(p: &Piece, region: u8, o: u64) -> bool
    ensures { result ≡ begins_behind p.now region o }
{
    region < p.region || region == p.region && o < p.at
}

/// The piece that has the byte of a region at an offset, by halving; None where the byte is closed.
pub fn piece_at(pieces: &[Piece], region: u8, o: u64) -> Option<Piece>
    requires { AreOrdered pieces.now }
    ensures is { result ≡ piece_at pieces.now region o }
    ensures listed { IfSome result (IsListed pieces.now) }
{
    let mut low = 0;
    let mut high = pieces.len();
    while low < high {
        let middle = low + (high - low) / 2;
        let p = pieces[middle];
        if has_byte(&p, region, o) {
            return Some(p);
        }
        if begins_behind(&p, region, o) {
            high = middle;
        } else {
            low = middle + 1;
        }
    }
    None
}

/// The piece that has a byte, where it may be loaded.
pub(crate) fn shown(pieces: &[Piece], reader: &Reader<'_>, region: u8, o: u64) -> Option<Piece>
    requires { AreOrdered pieces.now }
    ensures { result ≡ shown (is_shut reader.now.notified reader.now.done.now) pieces.now region o }
{
    match piece_at(pieces, region, o) {
        Some(p) => { if is_shut(reader, &p) { None } else { Some(p) } }
        None => None,
    }
}

/// Whether each of so many bytes is plain.
#[tactic(auto, unfolding(crate::specs::Pieces::all_of))]
pub(crate) fn all_plain(pieces: &[Piece], region: u8, o: u64, n: u64) -> bool
    requires order { AreOrdered pieces.now }
    requires fits { o + n < 2 ^ 64 }
    ensures { result ≡ all_of is_plain (piece_at pieces.now region) o n }
{
    if n == 0 {
        return true;
    }
    match piece_at(pieces, region, o) {
        Some(p) => is_plain(p.class) && all_plain(pieces, region, o + 1, n - 1),
        None => false,
    }
}

/// Whether each of so many bytes is code.
#[tactic(auto, unfolding(crate::specs::Pieces::all_of))]
pub fn all_code(pieces: &[Piece], region: u8, o: u64, n: u64) -> bool
    requires order { AreOrdered pieces.now }
    requires fits { o + n < 2 ^ 64 }
    ensures { result ≡ all_of is_code (piece_at pieces.now region) o n }
{
    if n == 0 {
        return true;
    }
    match piece_at(pieces, region, o) {
        Some(p) => is_code(p.class) && all_code(pieces, region, o + 1, n - 1),
        None => false,
    }
}

/// Whether a load of any width may read each of so many bytes.
#[tactic(auto, unfolding(crate::specs::Pieces::all_of))]
pub(crate) fn all_open(pieces: &[Piece], reader: &Reader<'_>, region: u8, o: u64, n: u64) -> bool
    requires order { AreOrdered pieces.now }
    requires fits { o + n < 2 ^ 64 }
    ensures { result ≡ all_of is_open (shown (is_shut reader.now.notified reader.now.done.now) pieces.now region) o n }
{
    if n == 0 {
        return true;
    }
    match shown(pieces, reader, region, o) {
        Some(p) => is_open(p.class) && all_open(pieces, reader, region, o + 1, n - 1),
        None => false,
    }
}
