//! Where the sections lie in the image.
ghost use Rattle.std.specs.Prelude.{◌≡◌, ◌<◌, ◌≤◌, length, IfOk};
ghost use Rattle.guest_build.specs.Places.{round_up, file_alignment, counted, section_count, headers_size, text_at, data_at, origins_of};
ghost use Rattle.guest_build.specs.Layout.{has_sites, layout_of, is_large};
ghost use Rattle.guest_build.specs.Views.{sections_of, frame_of};
ghost use Rattle.guest_build.specs.Measures.{IsMeasure, size_with};

use crate::measure::Measure;
use crate::places::{Extent, Origins};
use crate::relocation::{all_sites, table_of};
use crate::sections::Sections;
use std::alloc::{AllocError, Global};

/// Where the sections lie in an image, and how large it is. All are numbers of bytes.
#[derive(Clone, Copy, Debug)]
pub struct Frame {
    pub alignment: u64,
    /// SizeOfHeaders.
    pub headers: u64,
    pub text_from: u64,
    pub data_from: u64,
    pub reloc_from: u64,
    /// SizeOfImage.
    pub size: u64,
}

/// The next multiple, modulo 2^64.
pub fn round_up(unit: u64, n: u64) -> u64
    requires { 0 < unit }
    ensures { result ≡ round_up unit n }
{
    n.wrapping_add(unit - 1) / unit * unit
}

/// FileAlignment.
pub fn file_alignment(alignment: u64) -> u64
    ensures value { result ≡ file_alignment alignment }
    ensures positive { 0 < result }
{
    if alignment == 32 { 32 } else { 512 }
}

fn counted(present: bool) -> u64
    ensures value { result ≡ counted present }
    ensures small { result ≤ 1 }
{
    if present { 1 } else { 0 }
}

/// How many sections there are.
pub fn section_count(data_len: u64, moved: bool) -> u64
    ensures value { result ≡ section_count data_len moved }
    ensures small { result ≤ 3 }
{
    1 + counted(data_len != 0) + counted(moved)
}

/// SizeOfHeaders.
#[tactic(auto, unfolding(crate::specs::Places::headers_size))]
fn headers_size(alignment: u64, data_len: u64, moved: bool) -> u64
    ensures { result ≡ headers_size alignment data_len moved }
{
    let end = 0x148 + 40 * section_count(data_len, moved);
    round_up(file_alignment(alignment), end)
}

/// Where `.text` begins.
#[tactic(auto, unfolding(crate::specs::Places::text_at))]
fn text_at(alignment: u64, data_len: u64, moved: bool) -> u64
    requires { 0 < alignment }
    ensures { result ≡ text_at alignment data_len moved }
{
    round_up(alignment, headers_size(alignment, data_len, moved))
}

/// Where `.data` begins.
#[tactic(auto, unfolding(crate::specs::Places::data_at))]
fn data_at(alignment: u64, text_len: u64, data_len: u64, moved: bool) -> u64
    requires { 0 < alignment }
    ensures { result ≡ data_at alignment text_len data_len moved }
{
    round_up(
        alignment,
        text_at(alignment, data_len, moved).wrapping_add(text_len),
    )
}

/// Where the sections of the whole text begin.
#[tactic(auto, unfolding(crate::specs::Places::origins_of))]
pub fn origins_of(whole: &Extent) -> Origins
    ensures { result ≡ origins_of whole.now }
{
    let alignment = whole.settings.alignment();
    Origins {
        base: whole.settings.base(),
        text_from: text_at(alignment, whole.data_len, whole.moved),
        data_from: data_at(alignment, whole.text_len, whole.data_len, whole.moved),
    }
}

/// Whether there are base relocations.
pub fn has_sites(all: &Sections) -> bool
    ensures { result ≡ has_sites (sections_of all.now) }
{
    !(all.in_text.sites.is_empty() && all.in_data.sites.is_empty())
}

/// Where `.text` begins in an image.
#[tactic(auto, unfolding(crate::specs::Layout::layout_of))]
fn text_from(all: &Sections) -> u64
    ensures { result ≡ (layout_of (sections_of all.now)).text_from }
{
    text_at(
        all.settings.alignment(),
        all.in_data.bytes.len() as u64,
        has_sites(all),
    )
}

/// Where `.data` begins in an image.
#[tactic(auto, unfolding(crate::specs::Layout::layout_of))]
fn data_from(all: &Sections) -> u64
    ensures { result ≡ (layout_of (sections_of all.now)).data_from }
{
    let text_len = all.in_text.bytes.len() as u64;
    let data_len = all.in_data.bytes.len() as u64;
    data_at(all.settings.alignment(), text_len, data_len, has_sites(all))
}

/// Where `.reloc` begins in an image.
#[tactic(auto, unfolding(crate::specs::Layout::layout_of))]
fn reloc_from(all: &Sections) -> u64
    ensures { result ≡ (layout_of (sections_of all.now)).reloc_from }
{
    let data_len = all.in_data.bytes.len() as u64;
    round_up(
        all.settings.alignment(),
        data_from(all).wrapping_add(data_len),
    )
}

/// SizeOfImage, with a table of so many bytes.
fn size_with(all: &Sections, table_len: u64) -> u64
    ensures { result ≡ size_with (sections_of all.now) table_len }
{
    round_up(
        all.settings.alignment(),
        reloc_from(all).wrapping_add(table_len),
    )
}

/// Where sections lie in an image whose table has so many bytes.
#[tactic(auto, unfolding(crate::specs::Layout::layout_of))]
pub fn layout_of(all: &Sections, table_len: u64) -> Frame
    requires { table_len ≡ length (layout_of (sections_of all.now)).table }
    ensures { result ≡ frame_of (layout_of (sections_of all.now)) }
{
    let data_len = all.in_data.bytes.len() as u64;
    Frame {
        alignment: all.settings.alignment(),
        headers: headers_size(all.settings.alignment(), data_len, has_sites(all)),
        text_from: text_from(all),
        data_from: data_from(all),
        reloc_from: reloc_from(all),
        size: size_with(all, table_len),
    }
}

/// The bytes of `.reloc`.
#[tactic(auto, unfolding(crate::specs::Layout::layout_of))]
pub fn reloc_table(alloc: Global, all: &Sections) -> Result<Vec<u8>, AllocError>
    ensures { IfOk result (λ table. table.items ≡ (layout_of (sections_of all.now)).table) }
{
    let sites = all_sites(
        alloc,
        text_from(all),
        all.in_text.sites.as_slice(),
        data_from(all),
        all.in_data.sites.as_slice(),
    )?;
    table_of(alloc, sites.as_slice())
}

/// Whether the image has more than 1 MiB. The measure then has all its sites.
pub fn is_large(all: &Sections, measure: &mut Measure) -> bool
    requires { IsMeasure measure.old all.now.in_text.sites.items all.now.in_data.sites.items }
    ensures value { result ≡ is_large (sections_of all.now) }
    ensures measure { IsMeasure measure.new all.now.in_text.sites.items all.now.in_data.sites.items }
{
    let next = measure.over(
        text_from(all),
        all.in_text.sites.as_slice(),
        data_from(all),
        all.in_data.sites.as_slice(),
    );
    *measure = next;
    size_with(all, next.run.table_len()) > 1 << 20
}
