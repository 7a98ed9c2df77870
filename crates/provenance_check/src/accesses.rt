//! Which loads and stores are allowed.
#![tactic(auto)]

ghost use Rattle.std.specs.Prelude.{◌≡◌, ◌+◌, ◌-◌, ◌/◌, ◌*◌, ◌<◌, ◌≤◌, ◌^◌, ◌&&◌, IsTrue, if◌then◌else◌, nat_le, slice_index};
ghost use Rattle.rv_step.specs.declared.bus.Access.TheVariants as access;
ghost use Rattle.prov_types.specs.Spans.{IsProper};
ghost use Rattle.prov_types.specs.Kinds.{length_of};
ghost use Rattle.prov_layout.specs.Offsets.{at_each};
ghost use Rattle.prov_layout.specs.Pieces.{AreOrdered};
ghost use Rattle.provenance_check.specs.Accesses.{is_allowed, loaded, loaded_outside, stack_allows, stores, stores_at};
ghost use Rattle.provenance_check.specs.Ground.{End};
ghost use Rattle.provenance_check.specs.Seen.{seen};

use crate::ground::{Ground, PageRights, of_region};
use prov_cert::StackPart;
use prov_layout::{Reader, each_keeps, load_kinds, part_kind};
use prov_types::{Kind, Span};

/// Whether so many bytes of a region from an offset on are inside it.
fn ends_inside(ground: &Ground<'_>, region: u8, o: u64, width: u64) -> bool
    ensures { result ≡ nat_le (o + width) (length_of ground.now.lens.now region) }
{
    let len = of_region(ground.lens, region);
    width <= len && o <= len - width
}

/// Whether so many bytes of a region from an offset on are inside it and may be read, or written.
pub(crate) fn is_allowed<R: PageRights>(
    ground: &Ground<'_>,
    rights: &R,
    write: bool,
    region: u8,
    width: u64,
    o: u64,
) -> bool
    requires { slice_index ground.now.starts.now region + length_of ground.now.lens.now region < 2 ^ 64 }
    ensures { result ≡ is_allowed (seen ground.now) (R.allows rights.now (if write then access.Store else access.Load)) region width o }
{
    if !ends_inside(ground, region, o, width) {
        return false;
    }
    rights.allowed(of_region(ground.starts, region) + o, width, write)
}

/// Whether an access at each offset of a span of at most 65,536 is allowed, all of them at once where that is so.
fn each_allowed<R: PageRights>(
    ground: &Ground<'_>,
    rights: &R,
    write: bool,
    region: u8,
    s: &Span,
    width: u64,
) -> bool
    requires region { slice_index ground.now.starts.now region + length_of ground.now.lens.now region < 2 ^ 64 }
    requires span { IsProper s.now }
    ensures is { result ≡ at_each (is_allowed (seen ground.now) (R.allows rights.now (if write then access.Store else access.Load)) region width) s.now }
    ensures inside { IsTrue result → s.now.hi + width ≤ length_of ground.now.lens.now region }
{
    let more = (s.hi - s.lo) / s.by;
    if more >= 65536 {
        return false;
    }
    if !ends_inside(ground, region, s.hi, width) {
        return false;
    }
    if is_allowed(ground, rights, write, region, s.hi - s.lo + width, s.lo) {
        return true;
    }
    for k in 0..more + 1 {
        if !is_allowed(ground, rights, write, region, width, s.lo + k * s.by) {
            return false;
        }
    }
    true
}

/// Whether an access to the stack at the one offset of a span is allowed.
#[tactic(auto, unfolding(crate::specs::Accesses::stack_allows))]
fn stack_allows<R: PageRights>(
    ground: &Ground<'_>,
    rights: &R,
    write: bool,
    s: &Span,
    width: u64,
) -> bool
    requires some { 0 < width }
    requires region { slice_index ground.now.starts.now 1 + length_of ground.now.lens.now 1 < 2 ^ 64 }
    ensures { result ≡ stack_allows (seen ground.now) (R.allows rights.now (if write then access.Store else access.Load)) s.now width }
{
    s.lo == s.hi && s.lo % width == 0 && is_allowed(ground, rights, write, 1, width, s.lo)
}

#[tactic(auto, unfolding(crate::specs::Accesses::loaded_outside))]
fn loaded_outside<R: PageRights>(
    ground: &Ground<'_>,
    rights: &R,
    reader: &Reader<'_>,
    region: u8,
    s: &Span,
    width: u64,
) -> Option<Kind>
    requires width { width ≤ 8 }
    requires region { slice_index ground.now.starts.now region + length_of ground.now.lens.now region < 2 ^ 64 }
    requires span { IsProper s.now }
    requires order { AreOrdered ground.now.pieces.now }
    ensures { result ≡ loaded_outside (seen ground.now) (R.allows rights.now) reader.now.notified reader.now.done.now region s.now width }
{
    if each_allowed(ground, rights, false, region, s, width) {
        load_kinds(ground.pieces, reader, region, s, width)
    } else {
        None
    }
}

/// What loads at each offset of a span give, None where one isn't allowed.
#[tactic(auto, unfolding(crate::specs::Accesses::loaded))]
pub(crate) fn loaded<R: PageRights>(
    ground: &Ground<'_>,
    rights: &R,
    reader: &Reader<'_>,
    parts: &[StackPart],
    region: u8,
    s: &Span,
    width: u64,
) -> Option<Kind>
    requires width { width ≤ 8 }
    requires some { 0 < width }
    requires end { End ground.now.starts.now ground.now.lens.now }
    requires span { IsProper s.now }
    requires order { AreOrdered ground.now.pieces.now }
    ensures { result ≡ loaded (seen ground.now) (R.allows rights.now) reader.now.notified reader.now.done.now parts.now region s.now width }
{
    if region == 1 {
        if stack_allows(ground, rights, false, s, width) {
            Some(part_kind(parts, s.lo, width))
        } else {
            None
        }
    } else {
        loaded_outside(ground, rights, reader, region, s, width)
    }
}

/// Whether a store at each offset of a span of a region other than the stack is allowed, and keeps what is there.
fn each_stores<R: PageRights>(
    ground: &Ground<'_>,
    rights: &R,
    region: u8,
    s: &Span,
    width: u64,
    kind: &Kind,
) -> bool
    requires width { width ≤ 8 }
    requires some { 0 < width }
    requires region { slice_index ground.now.starts.now region + length_of ground.now.lens.now region < 2 ^ 64 }
    requires span { IsProper s.now }
    requires order { AreOrdered ground.now.pieces.now }
    ensures { result ≡ at_each (stores_at (seen ground.now) (R.allows rights.now) region width kind.now) s.now }
{
    each_allowed(ground, rights, true, region, s, width)
        && each_keeps(ground.pieces, region, s, width, kind)
}

/// Whether stores at each offset of a span are allowed, and keep what is there. A notified function stores to the stack
/// alone.
#[tactic(auto, unfolding(crate::specs::Accesses::stores))]
pub(crate) fn stores<R: PageRights>(
    ground: &Ground<'_>,
    rights: &R,
    notified: bool,
    region: u8,
    s: &Span,
    width: u64,
    kind: &Kind,
) -> bool
    requires width { width ≤ 8 }
    requires some { 0 < width }
    requires end { End ground.now.starts.now ground.now.lens.now }
    requires span { IsProper s.now }
    requires order { AreOrdered ground.now.pieces.now }
    ensures { result ≡ stores (seen ground.now) (R.allows rights.now) notified region s.now width kind.now }
{
    if region == 1 {
        stack_allows(ground, rights, true, s, width)
    } else {
        !notified && each_stores(ground, rights, region, s, width, kind)
    }
}
