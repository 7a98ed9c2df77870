//! The rules on spans: where they lie, and what their bytes hold.
#![tactic(auto)]

ghost use Rattle.std.specs.Prelude.{◌≡◌, ◌+◌, ◌<◌, ◌≤◌, ◌==◌, ◌&&◌, ◌||◌, ◌^◌, ℕ, Some, length, nat_le, nat_lt, not, slice_get};
ghost use Rattle.prov_types.specs.Kinds.{IsProperKind, length_of};
ghost use Rattle.prov_cert.specs.declared.cert.CertSpan.{CertSpan as AnySpan};
ghost use Rattle.prov_layout.specs.Offsets.{every};
ghost use Rattle.prov_layout.specs.Laid.{spans_meet};
ghost use Rattle.provenance_check.specs.Entries.{first_from};
ghost use Rattle.provenance_tables.specs.Regions.{bytes_in, rights_in};
ghost use Rattle.provenance_tables.specs.Spans.{IsSound, converts_in, data_of, data_passes, fixed_target, holds_now, holds_well, lies_well, may_convert, may_run, share_a_byte, shares_with, span_passes, value_of};

use crate::regions::{address_of, of_region, ranges_meet, size_of};
use crate::sites::{loaded_at, meets_address, meets_site, target_by};
use address_view::{number_slowly, refused};
use map_faults::Kept;
use prov_cert::{CertSpan, Class};
use prov_layout::every_is_each;
use prov_types::{Kind, RegionLists, holds};
use provenance_check::first_is_first;
use rv_step::Access;
use virtual_map::RuntimeState;

/// Whether two spans have a byte in common.
fn share_a_byte(s: &CertSpan, t: &CertSpan) -> bool
    ensures { result ≡ share_a_byte s.now t.now }
{
    s.region == t.region && ranges_meet(s.at, s.len, t.at, t.len)
}

/// Whether a span shares no byte with that of a number, or has the number.
fn is_apart(spans: &[CertSpan], i: usize, s: &CertSpan, j: usize) -> bool
    requires { j < length spans.now }
    ensures { result ≡ (j == i || not (shares_with s.now (slice_get spans.now j))) }
{
    j == i || !share_a_byte(s, &spans[j])
}

/// Whether a span shares no byte with those of other numbers.
fn shares_with_none(spans: &[CertSpan], i: usize, s: &CertSpan) -> bool
    ensures { result ≡ every (λ j. j == i || not (shares_with s.now (slice_get spans.now j))) 0 1 (length spans.now) }
{
    every_is_each();
    for j in 0..spans.len() {
        if !is_apart(spans, i, s, j) {
            return false;
        }
    }
    true
}

/// Whether a span's bytes may be executed, where they are code.
fn may_run(state: &RuntimeState, starts: &[u64], s: &CertSpan, class: Class) -> bool
    ensures { result ≡ may_run (rights_in state.now) starts.now s.now class }
{
    match class {
        Class::Code => {
            let at = address_of(starts, s.region, s.at);
            refused(&state.memory, &state.view, at, s.len, Access::Fetch).is_none()
        }
        _ => true,
    }
}

/// Whether a span is inside its region, which is the image or an own one.
fn is_placed(lens: &[u64], s: &CertSpan) -> bool
    ensures { result ≡ (nat_le (s.now.at + s.now.len) (length_of lens.now s.now.region) && (s.now.region == 0 || nat_lt 5 s.now.region)) }
{
    let len = of_region(lens, s.region as usize);
    s.len <= len && s.at <= len - s.len && (s.region == 0 || s.region > 5)
}

fn lies_well(
    state: &RuntimeState,
    starts: &[u64],
    lens: &[u64],
    spans: &[CertSpan],
    i: usize,
    s: &CertSpan,
) -> bool
    ensures { result ≡ lies_well (rights_in state.now) starts.now lens.now spans.now i (Some s.now) }
{
    is_placed(lens, s) && shares_with_none(spans, i, s) && may_run(state, starts, s, s.class)
}

/// Whether a span passes the rule `Span`.
#[tactic(auto, unfolding(crate::specs::Spans::span_passes))]
fn span_passes(
    state: &RuntimeState,
    starts: &[u64],
    lens: &[u64],
    spans: &[CertSpan],
    i: usize,
) -> bool
    requires { i < length spans.now }
    ensures { result ≡ span_passes state.now starts.now lens.now spans.now i }
{
    lies_well(state, starts, lens, spans, i, &spans[i])
}

/// The number of the first span that fails the rule `Span`.
pub(crate) fn check_spans(
    state: &RuntimeState,
    starts: &[u64],
    lens: &[u64],
    spans: &[CertSpan],
) -> Option<u32>
    requires { length spans.now < 2 ^ 32 }
    ensures { result ≡ first_from (span_passes state.now starts.now lens.now spans.now) 0 (length spans.now) }
{
    first_is_first();
    for i in 0..spans.len() {
        if !span_passes(state, starts, lens, spans, i) {
            return Some(i as u32);
        }
    }
    None
}

/// What a span of at most 8 bytes holds, as a number.
fn value_of(state: &RuntimeState, starts: &[u64], s: &CertSpan) -> u64
    requires { s.now.len ≤ 8 }
    ensures { result ≡ value_of (bytes_in state.now) starts.now s.now }
{
    let at = address_of(starts, s.region, s.at);
    number_slowly(&state.memory, &state.view, at, s.len as u8)
}

/// Whether a value is of a kind.
fn holds_now(starts: &[u64], lens: &[u64], kind: Kind, value: u64) -> bool
    requires { IsProperKind kind }
    ensures { result ≡ holds_now starts.now lens.now kind value }
{
    let regions = RegionLists {
        old: starts,
        new: starts,
        lens,
    };
    holds(&kind, value, value, &regions)
}

/// The offset of the image that a fixed span holds the address of.
pub(crate) fn fixed_target(
    state: &RuntimeState,
    image: &Kept,
    starts: &[u64],
    s: &CertSpan,
) -> Option<u64>
    requires { s.now.len ≤ 8 }
    ensures { result ≡ fixed_target image.now (bytes_in state.now) starts.now s.now }
{
    if s.region != 0 {
        return None;
    }
    let loaded = loaded_at(s.at, image.sites.as_slice(), image.words.as_slice());
    let value = value_of(state, starts, s);
    target_by(image.base, size_of(image), value, loaded)
}

fn converts_in(lens: &[u64], r: u8, hi: u64) -> bool
    ensures { result ≡ converts_in lens.now r hi }
{
    (r == 0 || r > 3) && hi < of_region(lens, r as usize)
}

fn may_convert(lens: &[u64], kind: Kind) -> bool
    ensures { result ≡ may_convert lens.now kind }
{
    match kind {
        Kind::Ptr(r, s) | Kind::Opt(r, s) => converts_in(lens, r, s.hi),
        _ => false,
    }
}

/// Whether a span holds what its class says.
fn holds_well(
    state: &RuntimeState,
    image: &Kept,
    starts: &[u64],
    lens: &[u64],
    s: &CertSpan,
    class: Class,
) -> bool
    requires { IsSound s.now class }
    ensures { result ≡ holds_well image.now (bytes_in state.now) starts.now lens.now s.now class }
{
    let sites = image.sites.as_slice();
    match class {
        Class::Code => !meets_address(s, sites),
        Class::Plain => !meets_site(s, sites),
        Class::Num(kind) => {
            !meets_site(s, sites) && holds_now(starts, lens, kind, value_of(state, starts, s))
        }
        Class::Fixed => fixed_target(state, image, starts, s).is_some(),
        Class::Convert(kind) => {
            !meets_site(s, sites)
                && holds_now(starts, lens, kind, value_of(state, starts, s))
                && may_convert(lens, kind)
        }
    }
}

/// Whether a span passes the rule `Data`.
#[tactic(auto, unfolding(crate::specs::Spans::data_passes))]
fn data_passes(
    state: &RuntimeState,
    image: &Kept,
    starts: &[u64],
    lens: &[u64],
    spans: &[CertSpan],
    i: usize,
) -> bool
    requires inside { i < length spans.now }
    requires sound { (i : ℕ) (s : AnySpan) → slice_get spans.now i ≡ Some s → IsSound s s.class }
    ensures { result ≡ data_passes image.now state.now starts.now lens.now spans.now i }
{
    let s = spans[i];
    holds_well(state, image, starts, lens, &s, s.class)
}

/// The number of the first span that fails the rule `Data`.
pub(crate) fn check_data(
    state: &RuntimeState,
    image: &Kept,
    starts: &[u64],
    lens: &[u64],
    spans: &[CertSpan],
) -> Option<u32>
    requires few { length spans.now < 2 ^ 32 }
    requires sound { (i : ℕ) (s : AnySpan) → slice_get spans.now i ≡ Some s → IsSound s s.class }
    ensures { result ≡ first_from (data_passes image.now state.now starts.now lens.now spans.now) 0 (length spans.now) }
{
    first_is_first();
    for i in 0..spans.len() {
        if !data_passes(state, image, starts, lens, spans, i) {
            return Some(i as u32);
        }
    }
    None
}
