//! Reading the sites of an image.
#![tactic(auto)]

ghost use Rattle.std.specs.Prelude.{◌≡◌, ◌≤◌, ◌<◌, ◌+◌, ◌*◌, ◌/◌, ◌^◌, length, OnOk, IfOk, IfSome};
ghost use Rattle.pe_image.specs.ImageOf.{fields_of};
ghost use Rattle.pe_image.specs.Placed.{in_pages};
ghost use Rattle.pe_image.specs.Sound.{IsImage};
ghost use Rattle.base_reloc.specs.Sites.{AreSites};
ghost use Rattle.base_reloc.specs.Kept.{kept_with, sites_from, sites_in, Reads};
ghost use Rattle.base_reloc.specs.Blocks.{entries_at, entry_count, parts_of};
ghost use Rattle.base_reloc.specs.Steps.{block_at, IsBlock};
ghost use Rattle.base_reloc.specs.Marks.{AreMarked, unmarked, Keeps};

use crate::entry::{EntryKind, entry_kind};
use crate::fault::RelocFault;
use crate::site::Site;
use pe_image::{Image, u16_in, u32_in};
use std::alloc::Global;

/// Whether an entry's bytes lie in the image and have no mark.
fn find_room(marks: &[bool], at: u64, width: usize, index: u32) -> Result<(), RelocFault>
    requires at { at < 2 ^ 33 }
    requires width { width ≤ 8 }
    ensures { result ≡ unmarked marks.now at width index }
{
    let from = at as usize;
    if from + width > marks.len() {
        return Err(RelocFault::Outside(index));
    }
    if marks[from..from + width].contains(&true) {
        return Err(RelocFault::Overlap(index));
    }
    Ok(())
}

/// Keeps an entry, if it has a site.
fn keep_entry(
    sites: &mut Vec<Site>,
    marks: &mut [bool],
    kind: EntryKind,
    at: u64,
    index: u32,
) -> Result<(), RelocFault>
    requires at { at < 2 ^ 33 }
    requires marks { length marks.old ≤ 0x800000 }
    requires marked { AreMarked sites.old.items marks.old }
    ensures kept { Keeps result sites.new.items (kept_with (length marks.old) sites.old.items index at kind) }
    ensures marked { OnOk result (AreMarked sites.new.items marks.new) }
{
    match kind {
        EntryKind::Padding => Ok(()),
        EntryKind::Unknown => Err(RelocFault::Kind(index)),
        EntryKind::Unmoved => find_room(marks, at, 4, index),
        EntryKind::Moved(kind) => {
            let width = kind.width();
            find_room(marks, at, width, index)?;
            let from = at as usize;
            let site = Site {
                at: at as u32,
                kind,
            };
            sites.push(site)?;
            marks[from..from + width].fill(true);
            Ok(())
        }
    }
}

/// The header of a block, whose size counts its 8 bytes ("Base Relocation Block").
#[derive(Clone, Copy)]
struct Block {
    page: u32,
    size: u32,
}

/// The header of the block at an offset, or none where the list ends there.
fn block_at(table: &[u8], at: usize, index: u32) -> Result<Option<Block>, RelocFault>
    requires { at < length table.now }
    ensures read { result ≡ block_at table.now at index }
    ensures sound { IfOk result (λ found. IfSome found (IsBlock table.now at)) }
{
    let left = table.len() - at;
    if left < 8 {
        return Err(RelocFault::BlockSize(index));
    }
    let page = u32_in(table, at);
    let size = u32_in(table, at + 4);
    if page == 0 && size == 0 {
        return Ok(None);
    }
    if size < 8 || size % 2 != 0 || size as usize > left {
        return Err(RelocFault::BlockSize(index));
    }
    Ok(Some(Block { page, size }))
}

/// Keeps the sites of the block at an offset, whose first entry has a number.
fn read_block(
    sites: &mut Vec<Site>,
    marks: &mut [bool],
    table: &[u8],
    at: usize,
    block: &Block,
    index: u32,
) -> Result<(), RelocFault>
    requires size { 8 ≤ block.now.size }
    requires inside { at + block.now.size ≤ length table.now }
    requires few { index + block.now.size < 2 ^ 32 }
    requires marks { length marks.old ≤ 0x800000 }
    requires marked { AreMarked sites.old.items marks.old }
    ensures kept { Keeps result sites.new.items (sites_from (length marks.old) sites.old.items index (entries_at table.now block.now.page (at + 8) (entry_count block.now.size))) }
    ensures marked { OnOk result (AreMarked sites.new.items marks.new) }
{
    for i in 0..(block.size - 8) / 2 {
        let word = u16_in(table, at + 8 + 2 * i as usize);
        let place = block.page as u64 + (word % 4096) as u64;
        keep_entry(sites, marks, entry_kind(word), place, index + i)?;
    }
    Ok(())
}

/// Keeps the sites of a table of blocks.
fn read_blocks(sites: &mut Vec<Site>, marks: &mut [bool], table: &[u8]) -> Result<(), RelocFault>
    requires table { length table.now ≤ 0x800000 }
    requires marks { length marks.old ≤ 0x800000 }
    requires marked { AreMarked sites.old.items marks.old }
    ensures { Keeps result sites.new.items (sites_from (length marks.old) sites.old.items 0 (parts_of table.now)) }
{
    let mut at = 0;
    let mut number = 0;
    let mut entries = 0;
    while at < table.len() {
        let found = block_at(table, at, number)?;
        match found {
            None => return Ok(()),
            Some(block) => {
                read_block(sites, marks, table, at, &block, entries)?;
                entries += (block.size - 8) / 2;
                at += block.size as usize;
                number += 1;
            }
        }
    }
    Ok(())
}

/// The sites of an image that was read and placed, or the first fault of its base relocations. `placed` has the
/// image's size rounded up to whole pages of 4,096 bytes.
pub fn read_sites(alloc: Global, image: &Image, placed: &[u8]) -> Result<Vec<Site>, RelocFault>
    requires image { IsImage (fields_of image.now) }
    requires room { length placed.now ≡ in_pages image.now.size }
    ensures read { Reads (λ sites. sites.items) result (sites_in (fields_of image.now) placed.now) }
    ensures sound { IfOk result (λ sites. AreSites image.now.size sites.items) }
{
    let mut sites = Vec::new(alloc);
    if image.reloc_len == 0 {
        return Ok(sites);
    }
    let at = image.reloc_at as usize;
    let table = &placed[at..at + image.reloc_len as usize];
    let mut marks = vec![in alloc; false; image.size as usize]?;
    read_blocks(&mut sites, marks.as_mut_slice(), table)?;
    Ok(sites)
}
