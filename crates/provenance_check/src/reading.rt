//! The instruction at an offset of the image, and the HIGH20 sites on it.
#![tactic(auto)]

ghost use Rattle.std.specs.Prelude.{◌≡◌, ◌+◌, ◌<◌, ◌≤◌, ◌^◌, IfSome, IsTrue, length};
ghost use Rattle.rv_decode.specs.Means.{NamesRegisters, decoded};
ghost use Rattle.rv_decode.specs.RowLaws.{HasLength};
ghost use Rattle.prov_types.specs.Kinds.{length_of};
ghost use Rattle.prov_layout.specs.Pieces.{AreOrdered};
ghost use Rattle.provenance_check.specs.Ground.{target_in};
ghost use Rattle.provenance_check.specs.Reading.{decoded_by, half_at, insn_at, is_at_most, is_clear, is_code_at, is_lui, place_of, stops, target_at, target_of, unless_it_stops};
ghost use Rattle.provenance_check.specs.Rules.{site_rule};
ghost use Rattle.provenance_check.specs.Seen.{seen};

use crate::ground::{Ground, of_region};
use prov_layout::{Class, Piece, all_code, piece_at};
use prov_types::{Kind, Place};
use rv_decode::{Insn, Op, decode, length_is_of_the_low_bits};

fn half_at(image: &[u8], o: usize) -> u16
    requires { o + 1 < length image.now }
    ensures { result ≡ half_at image.now o }
{
    u16::from(image[o]) + 256 * u16::from(image[o + 1])
}

/// Whether so many bytes of the image from an offset on are code.
fn is_code_at(ground: &Ground<'_>, o: u64, len: u64) -> bool
    requires order { AreOrdered ground.now.pieces.now }
    ensures is { result ≡ is_code_at (seen ground.now) o len }
    ensures inside { IsTrue result → o + len ≤ length ground.now.image.now }
{
    let size = ground.image.len() as u64;
    if len > size || o > size - len {
        return false;
    }
    all_code(ground.pieces, 0, o, len)
}

/// Whether an instruction is a trap by itself.
fn stops(op: Op) -> bool
    ensures { result ≡ stops op }
{
    match op {
        Op::Ecall | Op::Ebreak => true,
        _ => false,
    }
}

/// The instruction of two halves and its length, None where they are no instruction, and where it is a trap by itself.
fn read(half0: u16, half1: u16) -> Option<(Insn, u8)>
    ensures is { result ≡ unless_it_stops (decoded half0 half1) }
    ensures registers { IfSome result (λ found. NamesRegisters found.0) }
    ensures long { IfSome result (λ found. HasLength half0 found.1) }
{
    length_is_of_the_low_bits();
    match decode(half0, half1) {
        Some((insn, len)) => {
            if stops(insn.op) {
                None
            } else {
                Some((insn, len))
            }
        }
        None => None,
    }
}

/// The instruction at an offset of the image and its length, None where its bytes aren't all code, where they are no
/// instruction, and where it is ECALL or EBREAK.
#[tactic(auto, unfolding(crate::specs::Reading::insn_at))]
pub(crate) fn insn_at(ground: &Ground<'_>, o: u64) -> Option<(Insn, u8)>
    requires order { AreOrdered ground.now.pieces.now }
    ensures is { result ≡ insn_at (seen ground.now) o }
    ensures registers { IfSome result (λ found. NamesRegisters found.0) }
    ensures inside { IfSome result (λ found. o + found.1 ≤ length ground.now.image.now) }
{
    if !is_code_at(ground, o, 2) {
        return None;
    }
    let half0 = half_at(ground.image, o as usize);
    if half0 % 4 == 3 {
        if !is_code_at(ground, o, 4) {
            return None;
        }
        read(half0, half_at(ground.image, o as usize + 2))
    } else {
        read(half0, 0)
    }
}

/// Whether no HIGH20 site has one of so many bytes.
fn is_clear(sites: &[Piece], o: u64, len: u8) -> bool
    requires order { AreOrdered sites.now }
    requires fits { o + len < 2 ^ 64 }
    ensures { result ≡ is_clear sites.now o len }
{
    for i in 0..len {
        if piece_at(sites, 0, o + u64::from(i)).is_some() {
            return false;
        }
    }
    true
}

fn target_in(class: Class) -> Option<u64>
    ensures { result ≡ target_in class }
{
    match class {
        Class::Fixed(Kind::Ptr(_, s)) => Some(s.lo),
        _ => None,
    }
}

/// The offset of the image that a HIGH20 site of just the 4 bytes from an offset on names.
fn target_at(sites: &[Piece], o: u64) -> Option<u64>
    requires { AreOrdered sites.now }
    ensures { result ≡ target_at sites.now o }
{
    match piece_at(sites, 0, o) {
        Some(p) => {
            if p.at == o && p.len == 4 {
                target_in(p.class)
            } else {
                None
            }
        }
        None => None,
    }
}

/// Where an instruction of so many bytes stands.
pub(crate) fn place_of(ground: &Ground<'_>, o: u64, len: u8) -> Place
    requires { AreOrdered ground.now.sites.now }
    ensures { result ≡ place_of (seen ground.now) o len }
{
    Place {
        at: o,
        len,
        target: target_at(ground.sites, o),
    }
}

fn is_lui(op: Op) -> bool
    ensures { result ≡ is_lui op }
{
    match op {
        Op::Lui => true,
        _ => false,
    }
}

fn is_at_most(most: u64, target: Option<u64>) -> bool
    ensures { result ≡ is_at_most most target }
{
    match target {
        Some(n) => n <= most,
        None => false,
    }
}

/// No HIGH20 site meets the instruction, or it is the 32-bit LUI at one that names an offset of the image.
#[tactic(auto, unfolding(crate::specs::Rules::site_rule))]
pub(crate) fn site_rule(ground: &Ground<'_>, place: &Place, insn: &Insn) -> bool
    requires order { AreOrdered ground.now.sites.now }
    requires fits { place.now.at + place.now.len < 2 ^ 64 }
    ensures { result ≡ site_rule (seen ground.now) place.now insn.now }
{
    is_clear(ground.sites, place.at, place.len)
        || is_lui(insn.op) && place.len == 4 && is_at_most(of_region(ground.lens, 0), place.target)
}
