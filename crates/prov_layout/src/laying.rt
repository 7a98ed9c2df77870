//! What a certificate lays over the bytes of regions.
#![tactic(auto)]

ghost use Rattle.std.specs.Prelude.{◌≡◌, ◌≤◌, ◌<◌, ◌+◌, ◌^◌, ◌==◌, IfOk, OnOk, insert, length, slice_index, if◌then◌else◌};
ghost use Rattle.prov_types.specs.declared.kinds.Kind.TheVariants.{Ptr};
ghost use Rattle.prov_types.specs.Spans.{one};
ghost use Rattle.prov_layout.specs.Laid.{class_of, given, laid, next_cell, piece_of, pieces_from, put_all, put_in, service_cell, service_cells};

use crate::find::begins_behind;
use crate::piece::{Class, Piece};
use prov_cert::{CertSpan, Class as SpanClass};
use prov_types::{Kind, Span};
use std::alloc::{AllocError, Global};

/// Where a piece goes: in front of the first that begins behind it.
fn place_for(pieces: &[Piece], p: &Piece) -> usize
    ensures inside { result ≤ length pieces.now }
    ensures put { insert pieces.now result p.now ≡ put_in p.now pieces.now }
{
    for i in 0..pieces.len() {
        if begins_behind(&pieces[i], p.region, p.at) {
            return i;
        }
    }
    pieces.len()
}

fn put_in(pieces: &mut Vec<Piece>, p: Piece) -> Result<(), AllocError>
    ensures { OnOk result (pieces.new.items ≡ put_in p pieces.old.items) }
{
    let i = place_for(pieces.as_slice(), &p);
    pieces.insert(i, p)?;
    Ok(())
}

/// The OS arguments, of 65,536 bytes.
const ARGUMENTS: Piece = Piece {
    region: 2,
    at: 0,
    len: 65536,
    class: Class::Plain,
};

/// The address of the runtime services table, in the system table.
const TABLE_CELL: Piece = Piece {
    region: 4,
    at: 88,
    len: 8,
    class: Class::Fixed(Kind::Ptr(
        4,
        Span {
            lo: 256,
            hi: 256,
            by: 1,
        },
    )),
};

fn address(region: u8, offset: u64) -> Kind
    ensures { result ≡ Ptr region (one offset) }
{
    Kind::Ptr(
        region,
        Span {
            lo: offset,
            hi: offset,
            by: 1,
        },
    )
}

/// The address of a runtime service, in the runtime services table.
fn service_cell(i: u64) -> Piece
    requires { i < 14 }
    ensures { result ≡ service_cell i }
{
    Piece {
        region: 4,
        at: 280 + 8 * i,
        len: 8,
        class: Class::Fixed(address(5, 16 * (44 + i))),
    }
}

/// Lays what is given: the OS arguments, and the cells of the system page.
#[tactic(auto, unfolding(crate::specs::Laid::put_all))]
fn lay_given(pieces: &mut Vec<Piece>) -> Result<(), AllocError>
    ensures { OnOk result (pieces.new.items ≡ put_all pieces.old.items given) }
{
    put_in(pieces, ARGUMENTS)?;
    put_in(pieces, TABLE_CELL)?;
    for i in 0..14 {
        put_in(pieces, service_cell(i))?;
    }
    Ok(())
}

fn class_of(target: u64, cell: u32, class: SpanClass) -> Class
    ensures { result ≡ class_of target cell class }
{
    match class {
        SpanClass::Code => Class::Code,
        SpanClass::Plain => Class::Plain,
        SpanClass::Num(kind) => Class::Number(kind),
        SpanClass::Fixed => Class::Fixed(address(0, target)),
        SpanClass::Convert(kind) => Class::Convert(kind, cell),
    }
}

fn piece_of(target: u64, cell: u32, s: &CertSpan) -> Piece
    ensures { result ≡ piece_of target cell s.now }
{
    Piece {
        region: s.region,
        at: s.at,
        len: s.len,
        class: class_of(target, cell, s.class),
    }
}

/// The number of the next convertible cell behind a span.
fn next_cell(cell: u32, class: SpanClass) -> u32
    requires { cell + 1 < 2 ^ 32 }
    ensures is { result ≡ next_cell cell class }
    ensures most { result ≤ cell + 1 }
{
    match class {
        SpanClass::Convert(_) => cell + 1,
        _ => cell,
    }
}

/// Lays a span that has bytes.
fn lay_span(pieces: &mut Vec<Piece>, target: u64, cell: u32, s: &CertSpan) -> Result<(), AllocError>
    ensures { OnOk result (pieces.new.items ≡ (if s.now.len == 0 then pieces.old.items else put_in (piece_of target cell s.now) pieces.old.items)) }
{
    if s.len == 0 {
        return Ok(());
    }
    put_in(pieces, piece_of(target, cell, s))
}

fn target_of(targets: &[u64], i: usize) -> u64
    ensures { result ≡ slice_index targets.now i }
{
    if i < targets.len() { targets[i] } else { 0 }
}

/// Lays spans, whose convertible cells are numbered from 0 on.
fn lay_spans(pieces: &mut Vec<Piece>, targets: &[u64], spans: &[CertSpan]) -> Result<(), AllocError>
    requires { length spans.now < 2 ^ 32 }
    ensures { OnOk result (pieces.new.items ≡ put_all pieces.old.items (pieces_from (slice_index targets.now) 0 0 spans.now)) }
{
    let mut cell = 0;
    let mut i = 0;
    for s in spans {
        lay_span(pieces, target_of(targets, i), cell, s)?;
        cell = next_cell(cell, s.class);
        i += 1;
    }
    Ok(())
}

/// All that a certificate lays over regions, in the order of places: what is given, and its spans, with the offset of the
/// image that each fixed one holds, by the span's number.
#[tactic(auto, using(crate::proofs::LaidLemmas::one_behind), unfolding(crate::specs::Laid::laid))]
pub fn lay(alloc: Global, targets: &[u64], spans: &[CertSpan]) -> Result<Vec<Piece>, AllocError>
    requires { length spans.now < 2 ^ 32 }
    ensures { IfOk result (λ pieces. pieces.items ≡ laid (slice_index targets.now) spans.now) }
{
    let mut pieces = Vec::new(alloc);
    lay_given(&mut pieces)?;
    lay_spans(&mut pieces, targets, spans)?;
    Ok(pieces)
}
