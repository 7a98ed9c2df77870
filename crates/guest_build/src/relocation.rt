//! Base relocations.
ghost use Rattle.std.specs.Prelude.{◌≡◌, ◌≤◌, ◌<◌, ◌^◌, ◌+◌, ◌%◌, ◌++◌, ◌∷◌, List, length, Some, IfOk, OnOk};
ghost use Rattle.std.specs.List.{prefix_len};
ghost use Rattle.guest_build.specs.Relocations.{place_of, placed, page_of, is_on, type_of, entry_bytes, block_header, padding, table_behind, table_of};
ghost use Rattle.guest_build.specs.declared.relocation.Site.{Site as AnySite};

use crate::little_endian::put;
use std::alloc::{AllocError, Global};

/// How a site is moved with the image.
#[derive(Clone, Copy, Debug, PartialEq, Eq)]
pub enum SiteKind {
    /// The upper 20 bits of an address, in an instruction.
    High20,
    /// An address of 8 bytes.
    Dir64,
}

/// A site, by its offset.
#[derive(Clone, Copy, Debug, PartialEq, Eq)]
pub struct Site {
    pub at: u64,
    pub kind: SiteKind,
}

/// How far a table goes: the page of its last block, whether that has an odd number of entries, and the bytes
/// before its padding, modulo 2^64.
#[derive(Clone, Copy, Debug)]
pub struct Run {
    page: Option<u64>,
    odd: bool,
    len: u64,
}

/// Whether a site is on a page.
fn is_on(page: Option<u64>, site: Site) -> bool
    ensures { result ≡ is_on page site }
{
    match page {
        Some(page) => site.at / 4096 == page,
        None => false,
    }
}

/// A site of a section that begins at an offset.
fn place(from: u64, site: Site) -> Site
    ensures { result ≡ place_of from site }
{
    Site {
        at: from.wrapping_add(site.at),
        kind: site.kind,
    }
}

/// How many bytes a block's padding has.
fn padding_len(odd: bool) -> u64
    ensures { result ≡ length (padding odd) }
{
    if odd { 2 } else { 0 }
}

impl Run {
    ghost use Rattle.std.specs.Prelude.{◌≡◌, ◌^◌, ◌+◌, ◌%◌, ◌++◌, ◌∷◌, List, [], length};
    ghost use Rattle.guest_build.specs.Measures.{IsRun};
    ghost use Rattle.guest_build.specs.Relocations.{placed, padding, table_behind};
    ghost use Rattle.guest_build.specs.declared.relocation.Site.{Site as AnySite};

    /// One site more.
    fn with(self, site: Site) -> Run
        ensures { (others : List AnySite) → (result.len + length (table_behind result.page result.odd others)) % 2 ^ 64 ≡ (self.len + length (table_behind self.page self.odd (site ∷ others))) % 2 ^ 64 }
    {
        if is_on(self.page, site) {
            return Run {
                page: self.page,
                odd: !self.odd,
                len: self.len.wrapping_add(2),
            };
        }
        Run {
            page: Some(site.at / 4096),
            odd: true,
            len: self
                .len
                .wrapping_add(padding_len(self.odd))
                .wrapping_add(10),
        }
    }

    /// The sites of a section that begins at an offset.
    pub fn with_all(self, from: u64, sites: &[Site]) -> Run
        ensures { (others : List AnySite) → (result.len + length (table_behind result.page result.odd others)) % 2 ^ 64 ≡ (self.len + length (table_behind self.page self.odd (placed from sites.now ++ others))) % 2 ^ 64 }
    {
        let mut run = self;
        for site in sites {
            run = run.with(place(from, *site));
        }
        run
    }

    /// No sites.
    pub fn new() -> Run
        ensures { IsRun result [] }
    {
        Run {
            page: None,
            odd: false,
            len: 0,
        }
    }

    /// How many bytes the table has that ends here, modulo 2^64.
    pub fn table_len(self) -> u64
        ensures { result ≡ (self.len + length (padding self.odd)) % 2 ^ 64 }
    {
        self.len.wrapping_add(padding_len(self.odd))
    }
}

/// The sites of two sections.
pub fn all_sites(
    alloc: Global,
    text_from: u64,
    in_text: &[Site],
    data_from: u64,
    in_data: &[Site],
) -> Result<Vec<Site>, AllocError>
    ensures { IfOk result (λ sites. sites.items ≡ placed text_from in_text.now ++ placed data_from in_data.now) }
{
    let mut sites = Vec::new(alloc);
    place_all(&mut sites, text_from, in_text)?;
    place_all(&mut sites, data_from, in_data)?;
    Ok(sites)
}

/// Appends the sites of a section that begins at an offset.
fn place_all(out: &mut Vec<Site>, from: u64, sites: &[Site]) -> Result<(), AllocError>
    ensures { OnOk result (out.new.items ≡ out.old.items ++ placed from sites.now) }
{
    for site in sites {
        out.push(place(from, *site))?;
    }
    Ok(())
}

fn type_of(kind: SiteKind) -> u64
    ensures value { result ≡ type_of kind }
    ensures small { result < 16 }
{
    match kind {
        SiteKind::High20 => 5,
        SiteKind::Dir64 => 10,
    }
}

/// How many sites at the beginning are on a page.
fn on_page(page: u64, sites: &[Site]) -> usize
    ensures value { result ≡ prefix_len (is_on (Some page)) sites.now }
    ensures bound { result ≤ length sites.now }
{
    for i in 0..sites.len() {
        if !is_on(Some(page), sites[i]) {
            return i;
        }
    }
    sites.len()
}

/// An entry of a block.
fn put_entry(out: &mut Vec<u8>, site: Site) -> Result<(), AllocError>
    ensures { OnOk result (out.new.items ≡ out.old.items ++ entry_bytes site) }
{
    put(out, 2, type_of(site.kind) * 4096 + site.at % 4096)
}

/// The padding of a block.
fn put_padding(out: &mut Vec<u8>, odd: bool) -> Result<(), AllocError>
    ensures { OnOk result (out.new.items ≡ out.old.items ++ padding odd) }
{
    if odd {
        out.push(0)?;
        out.push(0)?;
    }
    Ok(())
}

/// The header of a block.
fn put_header(out: &mut Vec<u8>, page: u64, count: u64) -> Result<(), AllocError>
    requires page { page < 2 ^ 52 }
    requires count { count < 2 ^ 62 }
    ensures { OnOk result (out.new.items ≡ out.old.items ++ block_header page count) }
{
    put(out, 4, page * 4096)?;
    put(out, 4, 8 + 2 * (count + count % 2))
}

/// A block: its page, and whether it has an odd number of entries by now.
#[derive(Clone, Copy)]
struct Block {
    page: Option<u64>,
    odd: bool,
}

/// Appends a site behind a block, and what begins a new block where the site is on another page.
fn put_site(
    out: &mut Vec<u8>,
    block: Block,
    site: Site,
    others: &[Site],
) -> Result<Block, AllocError>
    ensures { IfOk result (λ next. out.new.items ++ table_behind next.page next.odd others.now ≡ out.old.items ++ table_behind block.page block.odd (site ∷ others.now)) }
{
    if is_on(block.page, site) {
        put_entry(out, site)?;
        return Ok(Block {
            page: block.page,
            odd: !block.odd,
        });
    }
    let page = site.at / 4096;
    put_padding(out, block.odd)?;
    put_header(out, page, 1 + on_page(page, others) as u64)?;
    put_entry(out, site)?;
    Ok(Block {
        page: Some(page),
        odd: true,
    })
}

/// The table of ascending sites.
pub fn table_of(alloc: Global, sites: &[Site]) -> Result<Vec<u8>, AllocError>
    ensures { IfOk result (λ table. table.items ≡ table_of sites.now) }
{
    let mut out = Vec::new(alloc);
    let mut block = Block {
        page: None,
        odd: false,
    };
    for i in 0..sites.len() {
        block = put_site(&mut out, block, sites[i], &sites[i + 1..])?;
    }
    put_padding(&mut out, block.odd)?;
    Ok(out)
}
