//! The lines of an image's base relocations.
ghost use Rattle.std.specs.Prelude.{◌≡◌, ◌≤◌, ◌<◌, ◌++◌, [], length, drop, IfOk, OnOk};
ghost use Rattle.image_dump.specs.Puts.{Puts};
ghost use Rattle.image_dump.specs.Reports.{line_bytes, site_line, sites_text, kind_of};

use crate::stop::{PIECE, Stop, push_line, put_text};
use base_reloc::{Site, SiteKind};
use record_text::{ImageLine, RelocKind};
use std::alloc::AllocError;
use uh_base::Sink;

fn kind_of(kind: SiteKind) -> RelocKind
    ensures { result ≡ kind_of kind }
{
    match kind {
        SiteKind::Dir64 => RelocKind::Dir64,
        SiteKind::Highlow => RelocKind::Highlow,
        SiteKind::High20 => RelocKind::High20,
    }
}

fn site_line(site: &Site) -> ImageLine
    ensures { result ≡ site_line site.now }
{
    ImageLine::Site {
        kind: kind_of(site.kind),
        at: site.at,
    }
}

/// Appends the line of a site.
fn push_site(text: &mut Vec<u8>, site: &Site) -> Result<(), AllocError>
    ensures { OnOk result (text.new.items ≡ text.old.items ++ line_bytes (site_line site.now)) }
{
    push_line(text, &site_line(site))
}

/// Appends the lines of the first sites, until there is enough to put at once. Gives how many these are.
fn push_sites(text: &mut Vec<u8>, sites: &[Site]) -> Result<usize, AllocError>
    requires { 0 < length sites.now }
    ensures text { IfOk result (λ count. text.old.items ++ sites_text sites.now ≡ text.new.items ++ sites_text (drop count sites.now)) }
    ensures some { IfOk result (λ count. 0 < count) }
    ensures within { IfOk result (λ count. count ≤ length sites.now) }
{
    let mut count = 0;
    for site in sites {
        push_site(text, site)?;
        count += 1;
        if text.len() >= PIECE {
            return Ok(count);
        }
    }
    Ok(count)
}

/// The sites behind the first so many.
fn behind(sites: &[Site], count: usize) -> &[Site]
    requires { count ≤ length sites.now }
    ensures { result.now ≡ drop count sites.now }
{
    &sites[count..]
}

/// Puts the lines of sites, in pieces.
pub fn put_sites<O: Sink>(text: &mut Vec<u8>, sites: &[Site], out: &mut O) -> Result<(), Stop>
    requires { text.old.items ≡ [] }
    ensures puts { Puts result (sites_text sites.now) (O.written out.old) (O.faults out.old) (O.written out.new) (O.faults out.new) }
    ensures empty { OnOk result (text.new.items ≡ []) }
{
    let mut left = sites;
    while !left.is_empty() {
        match push_sites(text, left) {
            Ok(count) => left = behind(left, count),
            Err(_) => return Err(Stop::Memory),
        }
        match put_text(text, out) {
            Ok(()) => {}
            Err(stop) => return Err(stop),
        }
    }
    Ok(())
}
