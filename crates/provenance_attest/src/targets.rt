//! The offsets of the image that fixed spans hold the addresses of.
#![tactic(auto)]

ghost use Rattle.std.specs.Prelude.{◌≡◌, ◌≤◌, ℕ, Some, IfOk, slice_get};
ghost use Rattle.prov_cert.specs.declared.cert.CertSpan.{CertSpan as AnySpan};
ghost use Rattle.provenance_tables.specs.Regions.{bytes_in};
ghost use Rattle.provenance_tables.specs.Sites.{is_dir64, loaded_at, target_by};
ghost use Rattle.provenance_tables.specs.Spans.{IsSound, fixed_target, value_of};
ghost use Rattle.provenance_attest.specs.Grounds.{target_of, targets_of};
ghost use Rattle.provenance_attest.specs.Sites.{or_nought};

use crate::regions::{address_of, size_of};
use address_view::number_slowly;
use base_reloc::{Site, SiteKind};
use map_faults::Kept;
use prov_cert::{CertSpan, Class};
use std::alloc::{AllocError, Global};
use virtual_map::RuntimeState;

fn is_dir64(kind: SiteKind) -> bool
    ensures { result ≡ is_dir64 kind }
{
    matches!(kind, SiteKind::Dir64)
}

/// The word that the load left at a DIR64 site at an offset.
#[tactic(auto, unfolding(provenance_tables::specs::Sites::loaded_at))]
fn loaded_at(o: u64, sites: &[Site], words: &[u64]) -> Option<u64>
    ensures { result ≡ loaded_at o sites.now words.now }
{
    let mut rest = words;
    for site in sites {
        match rest.split_first() {
            Some((word, words)) => {
                if is_dir64(site.kind) && u64::from(site.at) == o {
                    return Some(*word);
                }
                rest = words;
            }
            None => return None,
        }
    }
    None
}

/// The offset of the image that a word names, where it is the one that the load left.
fn target_by(base: u64, size: u64, word: u64, loaded: Option<u64>) -> Option<u64>
    ensures { result ≡ target_by base size word loaded }
{
    match loaded {
        Some(loaded) => {
            if word == loaded && base <= word && word - base < size {
                Some(word - base)
            } else {
                None
            }
        }
        None => None,
    }
}

/// What a span of at most 8 bytes holds, as a number.
fn value_of(state: &RuntimeState, starts: &[u64], s: &CertSpan) -> u64
    requires { s.now.len ≤ 8 }
    ensures { result ≡ value_of (bytes_in state.now) starts.now s.now }
{
    let at = address_of(starts, s.region, s.at);
    number_slowly(&state.memory, &state.view, at, s.len as u8)
}

/// The offset of the image that a span holds the address of.
fn fixed_target(state: &RuntimeState, image: &Kept, starts: &[u64], s: &CertSpan) -> Option<u64>
    requires { s.now.len ≤ 8 }
    ensures { result ≡ fixed_target image.now (bytes_in state.now) starts.now s.now }
{
    if s.region != 0 {
        return None;
    }
    let loaded = loaded_at(s.at, image.sites.as_slice(), image.words.as_slice());
    let value = value_of(state, starts, s);
    target_by(image.base, size_of(image), value, loaded)
}

/// A number, or 0 where there is none.
pub(crate) fn or_nought(n: Option<u64>) -> u64
    ensures { result ≡ or_nought n }
{
    match n {
        Some(n) => n,
        None => 0,
    }
}

/// The offset of the image that a span holds the address of, where it is a fixed one.
fn target_of(state: &RuntimeState, image: &Kept, starts: &[u64], s: &CertSpan, class: Class) -> u64
    requires { IsSound s.now class }
    ensures { result ≡ target_of image.now (bytes_in state.now) starts.now s.now class }
{
    match class {
        Class::Fixed => or_nought(fixed_target(state, image, starts, s)),
        _ => 0,
    }
}

/// The offsets of the image that fixed spans hold the addresses of, by the spans' numbers.
pub(crate) fn targets_of(
    alloc: Global,
    state: &RuntimeState,
    image: &Kept,
    starts: &[u64],
    spans: &[CertSpan],
) -> Result<Vec<u64>, AllocError>
    requires { (i : ℕ) (s : AnySpan) → slice_get spans.now i ≡ Some s → IsSound s s.class }
    ensures { IfOk result (λ targets. targets.items ≡ targets_of image.now (bytes_in state.now) starts.now spans.now) }
{
    let mut targets = Vec::new(alloc);
    for s in spans {
        targets.push(target_of(state, image, starts, s, s.class))?;
    }
    Ok(targets)
}
