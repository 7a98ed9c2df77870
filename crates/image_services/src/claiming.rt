//! Pages for an image, and a block of the pool behind them.
ghost use Rattle.std.specs.Prelude.{◌≡◌, ◌≤◌, ◌+◌, ◌*◌, ◌%◌, List, IfOk, length};
ghost use Rattle.pool_alloc.specs.Pool.{BlockPage, IsPool, Together};
ghost use Rattle.pe_image.specs.ImageOf.{fields_of};
ghost use Rattle.pe_image.specs.Sound.{IsImage};
ghost use Rattle.image_services.specs.Blocks.{code_type};
ghost use Rattle.image_services.specs.Placing.{page_count};
ghost use Rattle.image_services.specs.Loads.{kind_for, lacks_pages, base_for, with_image_pages, place_for};
ghost use Rattle.image_services.specs.Views.{Judges, Within, place_by};

use crate::refusal::LoadRefusal;
use page_alloc::{Owner, PageMap, given_are_owned};
use pe_image::Image;
use pool_alloc::{PageSpan, Pool, PoolRefusal, lowest_is_lowest, pool_stays_together};

/// The memory type of a block: EfiBootServicesData.
const BLOCK_TYPE: u32 = 4;

/// How many bytes a block has.
pub(crate) const BLOCK_SIZE: u64 = 96;

/// Where an image and its block lie, the page that was taken for the block, and the page map and the pool behind.
#[derive(Drop)]
pub(crate) struct Claim {
    pub base: u64,
    pub block: u64,
    pub new: Option<PageSpan>,
    pub pages: PageMap,
    pub pool: Pool,
}

/// The memory type of the code of an image of a subsystem.
pub(crate) fn code_type(subsystem: u16) -> u32
    requires { 10 ≤ subsystem }
    ensures { result ≡ code_type subsystem }
{
    1 + 2 * (u32::from(subsystem) - 10)
}

/// The kind by which an image's pages are asked for.
fn kind_for(stripped: bool) -> u32
    ensures { result ≡ kind_for stripped }
{
    if stripped { 2 } else { 0 }
}

/// Why there are no pages for an image.
fn lacks_pages(stripped: bool) -> LoadRefusal
    ensures { result ≡ lacks_pages stripped }
{
    if stripped {
        LoadRefusal::Placed
    } else {
        LoadRefusal::NoPages
    }
}

/// Gives an image its pages, and answers the address of the first.
#[tactic(auto, unfolding(crate::specs::Loads::base_for))]
fn give_pages(map: &mut PageMap, image: &Image) -> Result<u64, LoadRefusal>
    requires image { IsImage (fields_of image.now) }
    ensures base { result ≡ base_for map.old (fields_of image.now) }
    ensures map { IfOk result (λ base. map.new ≡ with_image_pages map.old (fields_of image.now) base) }
    ensures low { IfOk result (λ base. map.old.base ≤ base) }
    ensures high { IfOk result (λ base. base + 4096 * page_count (fields_of image.now) ≤ map.old.base + 4096 * length map.old.pages) }
    ensures even { IfOk result (λ base. base % 4096 ≡ 0) }
    ensures map_base { map.new.base ≡ map.old.base }
    ensures map_count { length map.new.pages ≡ length map.old.pages }
    ensures together { (pool : List BlockPage) → IsPool pool → Together pool map.old → Together pool map.new }
{
    map.whole();
    given_are_owned();
    pool_stays_together();
    let kind = kind_for(image.stripped);
    let memory_type = code_type(image.subsystem);
    let count = u64::from((image.size + 4095) / 4096);
    match map.allocate(Owner::Image, kind, memory_type, count, image.image_base) {
        Ok(base) => Ok(base),
        Err(_) => Err(lacks_pages(image.stripped)),
    }
}

/// Finds an image its pages and a block behind them, in copies of the page map and the pool.
#[tactic(auto, unfolding(crate::specs::Loads::place_for))]
pub(crate) fn claim_pages(pages: &PageMap, pool: &Pool, image: &Image) -> Result<Claim, LoadRefusal>
    requires image { IsImage (fields_of image.now) }
    requires together { Together pool.now pages.now }
    ensures judged { Judges place_by result (place_for pages.now pool.now (fields_of image.now)) }
    ensures within { IfOk result (λ claim. Within pages.now.base (length pages.now.pages) (place_by claim) (page_count (fields_of image.now))) }
    ensures base { IfOk result (λ claim. claim.pages.base ≡ pages.now.base) }
    ensures count { IfOk result (λ claim. length claim.pages.pages ≡ length pages.now.pages) }
    ensures together { IfOk result (λ claim. Together claim.pool claim.pages) }
{
    given_are_owned();
    lowest_is_lowest();
    let mut map = pages.copy()?;
    let mut blocks = pool.copy()?;
    let base = give_pages(&mut map, image)?;
    map.whole();
    blocks.whole();
    let new = blocks.pages_allocated(&map, BLOCK_TYPE, BLOCK_SIZE);
    match blocks.allocate(&mut map, BLOCK_TYPE, BLOCK_SIZE) {
        Ok(block) => Ok(Claim {
            base,
            block,
            new,
            pages: map,
            pool: blocks,
        }),
        Err(PoolRefusal::Memory) => Err(LoadRefusal::Memory),
        Err(PoolRefusal::Invalid) => Err(LoadRefusal::NoPages),
        Err(PoolRefusal::NoPages) => Err(LoadRefusal::NoPages),
    }
}
