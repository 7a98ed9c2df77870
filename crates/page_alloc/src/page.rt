//! What a page is, and why pages are refused.
#![tactic(auto)]

ghost use Rattle.std.specs.Prelude.{◌≡◌, ◌≢◌, ◌<◌, ◌≤◌, IsTrue};
ghost use Rattle.page_alloc.specs.Opening.{firmware};
ghost use Rattle.page_alloc.specs.Calls.{is_same_owner, is_request, may_be_given};

/// Who a page belongs to.
#[derive(Clone, Copy, Debug, PartialEq, Eq, Drop)]
pub enum Owner {
    /// Nobody.
    Free,
    /// The tables, stacks and arguments that are there at opening.
    Firmware,
    /// A guest that allocated pages.
    Pages,
    /// The pool.
    Pool,
    /// A loaded image.
    Image,
}

/// What is known of a page of 4,096 bytes: its memory type by UEFI 2.10, table 7.10, and its owner.
#[derive(Clone, Copy, Debug, PartialEq, Eq, Drop)]
pub struct Page {
    /// The memory type, 7 for conventional memory.
    pub memory_type: u32,
    /// The owner.
    pub owner: Owner,
}

impl Owner {
    /// Whether the owners are one.
    pub fn is(self, other: Owner) -> bool
        ensures { result ≡ is_same_owner self other }
    {
        self == other
    }
}

/// A page that may be given.
pub const CONVENTIONAL: Page = Page {
    memory_type: 7,
    owner: Owner::Free,
};

/// Whether pages may be given a memory type: 0 to 6, 8 to 13, and 0x70000000 or more (UEFI 2.10, section 7.2). Type 7
/// is conventional memory, and type 14 and those up to 0x6fffffff are not used.
pub fn may_be_given(memory_type: u32) -> bool
    ensures { result ≡ may_be_given memory_type }
{
    memory_type < 7 || (memory_type >= 8 && memory_type <= 13) || memory_type >= 0x7000_0000
}

/// Whether a kind and a memory type have a meaning, and pages are asked for.
#[tactic(auto, unfolding(crate::specs::Calls::is_request))]
pub fn is_request(kind: u32, memory_type: u32, pages: u64) -> bool
    ensures request { result ≡ is_request kind memory_type pages }
    ensures kind { IsTrue result → kind ≤ 2 }
    ensures some { IsTrue result → 0 < pages }
    ensures other { IsTrue result → memory_type ≢ 7 }
{
    kind <= 2 && pages > 0 && may_be_given(memory_type)
}

/// A page that is in use at opening.
pub fn firmware(memory_type: u32) -> Page
    ensures { result ≡ firmware memory_type }
{
    Page {
        memory_type,
        owner: Owner::Firmware,
    }
}

/// Why pages are not given or not taken back.
#[derive(Clone, Copy, Debug, PartialEq, Eq, Drop)]
pub enum PageRefusal {
    /// An argument has no meaning: the kind, the memory type, the count or the address.
    Invalid,
    /// The pages asked for by address are not there, or not to be had.
    NotFound,
    /// No conventional pages fit.
    NoPages,
}
