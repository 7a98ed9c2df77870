//! What an image file holds.
ghost use Rattle.std.specs.Prelude.{◌≡◌, ◌≤◌, ◌+◌, ◌*◌, ◌%◌, ◌/◌, IfOk, Ok, length};
ghost use Rattle.pe_image.specs.ImageOf.{fields_of, image_of};
ghost use Rattle.pe_image.specs.Placed.{in_pages};
ghost use Rattle.pe_image.specs.Sound.{IsImage};
ghost use Rattle.base_reloc.specs.Sites.{AreSites, end_of};
ghost use Rattle.base_reloc.specs.Moved.{word_at};
ghost use Rattle.base_reloc.specs.Kept.{sites_in};
ghost use Rattle.image_services.specs.Placing.{placed, moved, words_of};
ghost use Rattle.image_services.specs.Loads.{read_image, read_sites, read_file};
ghost use Rattle.image_services.specs.Views.{Judges, Moves, file_image};

use crate::refusal::{LoadRefusal, pe_refusal, reloc_refusal};
use base_reloc::{Site, SiteKind, apply, read_sites};
use pe_image::{Image, place, read_image, u32_in, u64_in};
use std::alloc::{AllocError, Global};

/// What an image file holds: its image, the image's bytes in whole pages, and the sites in them.
#[derive(Drop)]
pub(crate) struct FileImage {
    pub image: Image,
    pub bytes: Vec<u8>,
    pub sites: Vec<Site>,
}

/// The image of a file of at most 4 MiB.
#[tactic(auto, using(crate::proofs::LoadLemmas::judged_image))]
fn image_in(alloc: Global, file: &[u8]) -> Result<Image, LoadRefusal>
    requires { length file.now ≤ 0x400000 }
    ensures judged { Judges fields_of result (read_image (image_of file.now)) }
    ensures read { IfOk result (λ image. image_of file.now ≡ Ok (fields_of image)) }
    ensures sound { IfOk result (λ image. IsImage (fields_of image)) }
{
    match read_image(alloc, file) {
        Ok(image) => Ok(image),
        Err(fault) => Err(pe_refusal(fault)),
    }
}

/// Places an image.
#[tactic(auto, using(crate::proofs::LoadLemmas::each_value))]
fn place_whole(image: &Image, file: &[u8], to: &mut [u8])
    requires read { image_of file.now ≡ Ok (fields_of image.now) }
    requires room { length to.old ≡ in_pages image.now.size }
    ensures { to.new ≡ placed (fields_of image.now) file.now }
{
    place(image, file, to);
}

/// The bytes of a placed image, in whole pages.
#[tactic(auto, using(crate::proofs::LoadLemmas::whole_written))]
fn placed(alloc: Global, image: &Image, file: &[u8]) -> Result<Vec<u8>, AllocError>
    requires image { IsImage (fields_of image.now) }
    requires read { image_of file.now ≡ Ok (fields_of image.now) }
    ensures bytes { IfOk result (λ bytes. bytes.items ≡ placed (fields_of image.now) file.now) }
    ensures room { IfOk result (λ bytes. length bytes.items ≡ in_pages image.now.size) }
{
    let size = (image.size as usize + 4095) / 4096 * 4096;
    let mut bytes = vec![in alloc; 0u8; size]?;
    place_whole(image, file, bytes.as_mut_slice());
    Ok(bytes)
}

/// The sites of a placed image.
#[tactic(auto, using(crate::proofs::LoadLemmas::judged_sites))]
fn sites_in(alloc: Global, image: &Image, bytes: &[u8]) -> Result<Vec<Site>, LoadRefusal>
    requires image { IsImage (fields_of image.now) }
    requires room { length bytes.now ≡ in_pages image.now.size }
    ensures judged { Judges (λ sites. sites.items) result (read_sites (sites_in (fields_of image.now) bytes.now)) }
    ensures sound { IfOk result (λ sites. AreSites (length bytes.now) sites.items) }
{
    match read_sites(alloc, image, bytes) {
        Ok(sites) => Ok(sites),
        Err(fault) => Err(reloc_refusal(fault)),
    }
}

/// What a file of at most 4 MiB holds.
#[tactic(auto, unfolding(crate::specs::Loads::read_file))]
pub(crate) fn read_file(alloc: Global, file: &[u8]) -> Result<FileImage, LoadRefusal>
    requires { length file.now ≤ 0x400000 }
    ensures judged { Judges file_image result (read_file file.now) }
    ensures room { IfOk result (λ file. length file.bytes.items ≡ in_pages file.image.size) }
    ensures sound { IfOk result (λ file. IsImage (fields_of file.image)) }
    ensures sites { IfOk result (λ file. AreSites (length file.bytes.items) file.sites.items) }
{
    let image = image_in(alloc, file)?;
    let bytes = placed(alloc, &image, file)?;
    let sites = sites_in(alloc, &image, bytes.as_slice())?;
    Ok(FileImage {
        image,
        bytes,
        sites,
    })
}

/// Moves the sites of a placed image, or refuses it.
#[tactic(auto, using(crate::proofs::LoadLemmas::leaving_moved))]
pub(crate) fn move_sites(
    bytes: &mut [u8],
    sites: &[Site],
    displacement: u64,
) -> Result<(), LoadRefusal>
    requires sites { AreSites (length bytes.old) sites.now }
    requires pages { displacement % 4096 ≡ 0 }
    ensures moves { Moves result bytes.new (moved bytes.old sites.now displacement) }
    ensures long { length bytes.new ≡ length bytes.old }
{
    match apply(bytes, sites, displacement) {
        Ok(()) => Ok(()),
        Err(fault) => Err(LoadRefusal::Reloc(fault)),
    }
}

/// The word of a site of a placed image.
fn word_of(bytes: &[u8], site: Site) -> u64
    requires { end_of site ≤ length bytes.now }
    ensures { result ≡ word_at site.kind bytes.now site.at }
{
    let at = site.at as usize;
    match site.kind {
        SiteKind::Dir64 => u64_in(bytes, at),
        SiteKind::Highlow | SiteKind::High20 => u64::from(u32_in(bytes, at)),
    }
}

/// The words of the sites of a placed image.
#[tactic(auto, unfolding(crate::specs::Placing::words_of))]
pub(crate) fn words_of(alloc: Global, bytes: &[u8], sites: &[Site]) -> Result<Vec<u64>, AllocError>
    requires { AreSites (length bytes.now) sites.now }
    ensures { IfOk result (λ words. words.items ≡ words_of bytes.now sites.now) }
{
    let mut words = Vec::with_capacity(alloc, sites.len())?;
    for site in sites {
        words.push(word_of(bytes, *site))?;
    }
    Ok(words)
}
