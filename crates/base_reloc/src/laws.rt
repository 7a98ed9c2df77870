//! Laws of sites and of moving them.
#![tactic(auto)]

ghost use Rattle.std.specs.Prelude.{◌≡◌, ◌<◌, ◌+◌, ◌*◌, ◌%◌, ◌^◌, ℕ, List, [], length, nat_le, Some, Ok, if◌then◌else◌};
ghost use Rattle.pe_image.specs.ImageOf.{Fields};
ghost use Rattle.base_reloc.specs.Sites.{AreSites, width_of};
ghost use Rattle.base_reloc.specs.Blocks.{parts_from, with_block};
ghost use Rattle.base_reloc.specs.Kept.{sites_in};
ghost use Rattle.base_reloc.specs.Moved.{moved_word, sum};
ghost use Rattle.base_reloc.specs.Laws.{SitesAreEntries, OtherBytesStay, Dir64Moves, WordsMove, WordsMoveTwice};
ghost use Rattle.base_reloc.specs.declared.site.Site.{Site as AnySite};
ghost use Rattle.base_reloc.specs.declared.site.SiteKind.{SiteKind as AnyKind};

/// The sites that are read lie in the image, and no two share a byte.
pub fn read_sites_are_sound()
    ensures { (image : Fields) (placed : List ℕ) (sites : List AnySite) → sites_in image placed ≡ Ok sites → AreSites image.size sites }
{}

/// The entries from an offset on are those of the block there, and of the blocks behind it.
pub fn blocks_follow_each_other()
    ensures { (table : List ℕ) (at block : ℕ) → parts_from table at block ≡ (if nat_le (length table) at then [] else with_block table at block (parts_from table)) }
{}

/// Moving by one displacement and then by another is moving by their sum, where all stay in their ranges.
pub fn moves_add()
    ensures { (kind : AnyKind) (word one other moved twice : ℕ) → word < 2 ^ (8 * width_of kind) → one % 4096 ≡ 0 → moved_word kind word one ≡ Some moved → moved_word kind moved other ≡ Some twice → moved_word kind word (sum one other) ≡ Some twice }
{}

/// Moving by nothing changes no word.
pub fn no_move_changes_nothing()
    ensures { (kind : AnyKind) (word : ℕ) → word < 2 ^ (8 * width_of kind) → moved_word kind word 0 ≡ Some word }
{}

/// The sites that are read are those of exactly the entries of types 3, 5 and 10, in order.
pub fn sites_are_entries()
    ensures { SitesAreEntries }
{}

/// A byte that no site has stays.
pub fn other_bytes_stay()
    ensures { OtherBytesStay }
{}

/// A word of 64 bits moves by the displacement, modulo 2^64.
pub fn dir64_moves()
    ensures { Dir64Moves }
{}

/// The word of 64 bits at a site is, behind `apply`, what it was, and the displacement, modulo 2^64; and behind two
/// of them it is what it was at first, and both displacements.
pub fn words_move()
    ensures once { WordsMove }
    ensures twice { WordsMoveTwice }
{}
