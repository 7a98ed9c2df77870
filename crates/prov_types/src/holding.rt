//! The plain tests: whether spans are proper, and whether two values are of a kind.
#![tactic(auto)]

ghost use Rattle.std.specs.Prelude.{◌≡◌, ◌<◌, ◌↔◌, IsTrue, slice_index};
ghost use Rattle.prov_types.specs.Spans.{IsProper};
ghost use Rattle.prov_types.specs.Kinds.{IsProperKind, regions_of};
ghost use Rattle.prov_types.specs.Tests.{is_in, is_at, holds, TestIsExact};

use crate::kinds::{Kind, Span};

fn is_proper_span(s: Span) -> bool
    ensures { IsTrue result ↔ IsProper s }
{
    s.by > 0 && s.lo <= s.hi && (s.hi - s.lo) % s.by == 0
}

/// Whether the spans of a kind are proper.
pub fn is_proper(kind: &Kind) -> bool
    ensures { IsTrue result ↔ IsProperKind kind.now }
{
    match *kind {
        Kind::Any => true,
        Kind::Num(s) | Kind::Ptr(_, s) | Kind::Opt(_, s) => is_proper_span(s),
    }
}

#[tactic(auto, unfolding(crate::specs::Tests::is_in))]
fn is_in(s: Span, v: u64) -> bool
    requires { IsProper s }
    ensures { result ≡ is_in s v }
{
    s.lo <= v && v <= s.hi && (v - s.lo) % s.by == 0
}

fn at(numbers: &[u64], region: u8) -> u64
    ensures { result ≡ slice_index numbers.now region }
{
    let r = region as usize;
    if r < numbers.len() { numbers[r] } else { 0 }
}

/// Where regions begin in the two runs, and how long they are, by their numbers.
#[derive(Clone, Copy, Debug, Drop)]
pub struct RegionLists<'a> {
    pub old: &'a [u64],
    pub new: &'a [u64],
    pub lens: &'a [u64],
}

#[tactic(auto, unfolding(crate::specs::Tests::is_at))]
fn is_at(regions: &RegionLists<'_>, r: u8, s: Span, v: u64, w: u64) -> bool
    requires { IsProper s }
    ensures { result ≡ is_at (regions_of regions.now.old.now regions.now.new.now regions.now.lens.now) r s v w }
{
    let old = at(regions.old, r);
    let new = at(regions.new, r);
    if v < old || w < new {
        return false;
    }
    let offset = v - old;
    offset == w - new && offset <= at(regions.lens, r) && is_in(s, offset)
}

/// Whether the value `v` of the first run and the value `w` of the second are of a kind. A region that isn't listed
/// begins at 0 and has length 0.
#[tactic(auto, unfolding(crate::specs::Tests::holds))]
pub fn holds(kind: &Kind, v: u64, w: u64, regions: &RegionLists<'_>) -> bool
    requires { IsProperKind kind.now }
    ensures { result ≡ holds (regions_of regions.now.old.now regions.now.new.now regions.now.lens.now) kind.now v w }
{
    match *kind {
        Kind::Any => true,
        Kind::Num(s) => v == w && is_in(s, v),
        Kind::Ptr(r, s) => is_at(regions, r, s, v, w),
        Kind::Opt(r, s) => v == 0 && w == 0 || is_at(regions, r, s, v, w),
    }
}

/// A law: `holds` says what a kind means.
pub fn test_is_exact()
    ensures { TestIsExact }
{}
