//! What base relocation says of a driver's bytes.
#![tactic(auto)]

ghost use Rattle.std.specs.Prelude.{◌≡◌, ◌&&◌, not};
ghost use Rattle.std.specs.List.{list_any};
ghost use Rattle.base_reloc.specs.declared.site.Site.{Site as AnySite};
ghost use Rattle.provenance_tables.specs.Sites.{is_dir64, is_high20, loaded_at, meets_address, meets_site, site_meets, target_by};

use base_reloc::{Site, SiteKind};
use prov_cert::CertSpan;

fn is_dir64(kind: SiteKind) -> bool
    ensures { result ≡ is_dir64 kind }
{
    matches!(kind, SiteKind::Dir64)
}

fn is_high20(kind: SiteKind) -> bool
    ensures { result ≡ is_high20 kind }
{
    matches!(kind, SiteKind::High20)
}

/// The word that the load left at a DIR64 site at an offset.
#[tactic(auto, unfolding(crate::specs::Sites::loaded_at))]
pub(crate) fn loaded_at(o: u64, sites: &[Site], words: &[u64]) -> Option<u64>
    ensures { result ≡ loaded_at o sites.now words.now }
{
    let mut rest = words;
    for site in sites {
        match rest.split_first() {
            Some((word, words)) => {
                if is_dir64(site.kind) && u64::from(site.at) == o {
                    return Some(*word);
                }
                rest = words;
            }
            None => return None,
        }
    }
    None
}

/// The offset of the image that a word names, where it is the one that the load left.
pub(crate) fn target_by(base: u64, size: u64, word: u64, loaded: Option<u64>) -> Option<u64>
    ensures { result ≡ target_by base size word loaded }
{
    match loaded {
        Some(loaded) => {
            if word == loaded && base <= word && word - base < size {
                Some(word - base)
            } else {
                None
            }
        }
        None => None,
    }
}

/// Whether a site has one of the bytes of a span of the image.
fn site_meets(s: &CertSpan, site: &Site) -> bool
    ensures { result ≡ site_meets s.now site.now }
{
    let at = u64::from(site.at);
    let width = site.kind.width() as u64;
    s.len > 0 && (at < s.at || at - s.at < s.len) && s.at < at + width
}

/// Whether a site does.
pub(crate) fn meets_site(s: &CertSpan, sites: &[Site]) -> bool
    ensures { result ≡ meets_site s.now sites.now }
{
    s.region == 0 && meets_one(s, sites)
}

fn meets_one(s: &CertSpan, sites: &[Site]) -> bool
    ensures { result ≡ list_any (λ (site : AnySite). site_meets s.now site) sites.now }
{
    sites.iter().any(|site| site_meets(s, site))
}

fn meets_one_of_address(s: &CertSpan, sites: &[Site]) -> bool
    ensures { result ≡ list_any (λ (site : AnySite). not (is_high20 site.kind) && site_meets s.now site) sites.now }
{
    sites
        .iter()
        .any(|site| !is_high20(site.kind) && site_meets(s, site))
}

/// Whether a site does that isn't a HIGH20 one.
pub(crate) fn meets_address(s: &CertSpan, sites: &[Site]) -> bool
    ensures { result ≡ meets_address s.now sites.now }
{
    s.region == 0 && meets_one_of_address(s, sites)
}
