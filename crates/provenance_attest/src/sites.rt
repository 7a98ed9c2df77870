//! The HIGH20 sites of an image.
#![tactic(auto)]

ghost use Rattle.std.specs.Prelude.{◌≡◌, ◌<◌, ◌^◌, IfOk, length};
ghost use Rattle.base_reloc.specs.Moved.{upper_of};
ghost use Rattle.guest_memory.specs.Pages.{bytes_of};
ghost use Rattle.address_view.specs.Windows.{see, seen_bytes};
ghost use Rattle.provenance_tables.specs.Regions.{size_of};
ghost use Rattle.provenance_tables.specs.Sites.{is_high20};
ghost use Rattle.provenance_attest.specs.Sites.{named_by, site_spans, site_targets, sites_laid, span_of, upper_target};

use crate::regions::size_of;
use crate::targets::or_nought;
use address_view::{View, number_slowly};
use base_reloc::{Site, SiteKind};
use guest_memory::GuestMemory;
use map_faults::Kept;
use prov_cert::{CertSpan, Class};
use prov_layout::{Piece, lay};
use std::alloc::{AllocError, Global};

/// The bits 31 to 12 of a word as a signed multiple of 4,096, in 64 bits.
fn upper_of(word: u32) -> u64
    ensures { result ≡ upper_of word }
{
    i64::from((word / 4096 * 4096).cast_signed()).cast_unsigned()
}

/// The offset that a HIGH20 site's word names, where it is the one that the load left.
fn upper_target(base: u64, size: u64, word: u32, loaded: u64) -> Option<u64>
    ensures { result ≡ upper_target base size word loaded }
{
    let upper = upper_of(word);
    if u64::from(word) == loaded && base <= upper && upper - base <= size {
        Some(upper - base)
    } else {
        None
    }
}

/// The offset that the word of a site names.
fn named_by(
    memory: &GuestMemory,
    view: &View,
    base: u64,
    size: u64,
    site: Site,
    loaded: u64,
) -> Option<u64>
    ensures { result ≡ named_by (seen_bytes (see view.now) (bytes_of memory.now)) base size site loaded }
{
    let at = base.wrapping_add(u64::from(site.at));
    upper_target(
        base,
        size,
        number_slowly(memory, view, at, 4) as u32,
        loaded,
    )
}

fn is_high20(kind: SiteKind) -> bool
    ensures { result ≡ is_high20 kind }
{
    matches!(kind, SiteKind::High20)
}

/// A HIGH20 site as 4 bytes of the image, another as none.
fn span_of(site: Site, target: Option<u64>) -> CertSpan
    ensures { result ≡ span_of site target }
{
    CertSpan {
        region: 0,
        at: u64::from(site.at),
        len: if is_high20(site.kind) { 4 } else { 0 },
        class: if target.is_some() {
            Class::Fixed
        } else {
            Class::Plain
        },
    }
}

/// Sites as spans, with the offset that each names.
#[derive(Drop)]
struct SiteSpans {
    spans: Vec<CertSpan>,
    targets: Vec<u64>,
}

/// The sites of an image as spans.
#[tactic(auto, unfolding(crate::specs::Sites::site_spans, crate::specs::Sites::site_targets))]
fn spans_of(
    alloc: Global,
    memory: &GuestMemory,
    view: &View,
    image: &Kept,
) -> Result<SiteSpans, AllocError>
    ensures spans { IfOk result (λ s. s.spans.items ≡ site_spans (seen_bytes (see view.now) (bytes_of memory.now)) image.now.base (size_of image.now) image.now.sites image.now.words) }
    ensures targets { IfOk result (λ s. s.targets.items ≡ site_targets (seen_bytes (see view.now) (bytes_of memory.now)) image.now.base (size_of image.now) image.now.sites image.now.words) }
{
    let mut spans = Vec::new(alloc);
    let mut targets = Vec::new(alloc);
    let size = size_of(image);
    let sites = image.sites.as_slice();
    let mut rest = image.words.as_slice();
    for site in sites {
        match rest.split_first() {
            Some((word, words)) => {
                let target = named_by(memory, view, image.base, size, *site, *word);
                spans.push(span_of(*site, target))?;
                targets.push(or_nought(target))?;
                rest = words;
            }
            None => return Ok(SiteSpans { spans, targets }),
        }
    }
    Ok(SiteSpans { spans, targets })
}

/// The HIGH20 sites of an image as pieces of region 0, in the order of their places.
pub(crate) fn sites_laid(
    alloc: Global,
    memory: &GuestMemory,
    view: &View,
    image: &Kept,
) -> Result<Vec<Piece>, AllocError>
    requires { length image.now.sites < 2 ^ 32 }
    ensures { IfOk result (λ pieces. pieces.items ≡ sites_laid (seen_bytes (see view.now) (bytes_of memory.now)) image.now) }
{
    let s = spans_of(alloc, memory, view, image)?;
    lay(alloc, s.targets.as_slice(), s.spans.as_slice())
}
