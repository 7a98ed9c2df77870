//! Where RAM lies, and its use at opening.
#![tactic(auto)]

ghost use Rattle.std.specs.Prelude.{◌≡◌};
ghost use Rattle.page_alloc.specs.Layout.{IsRam, IsLayout, layout_at};

/// Where RAM lies, and where its top is used at opening. Each place is the physical address of its first byte,
/// and all of them are multiples of 4,096. Between `base` and `os_stack` all pages are conventional.
#[derive(Clone, Copy, Debug, PartialEq, Eq, Drop)]
pub struct Layout {
    /// The first byte of RAM.
    pub base: u64,
    /// How many pages of 4,096 bytes RAM has.
    pub pages: u32,
    /// The slot page, 1 page: the 16 bytes of a service's slot k begin 16 * k behind it.
    pub slots: u64,
    /// The page of the system table and the runtime services table, 1 page.
    pub system: u64,
    /// The page of the boot services table and the console, 1 page.
    pub boot: u64,
    /// The lowest byte of the boot stack, 32 pages. The stack's top is `boot`.
    pub boot_stack: u64,
    /// The page to which a call of the operating system returns, 1 page.
    pub os_return: u64,
    /// The operating system's arguments, 16 pages.
    pub os_args: u64,
    /// The lowest byte of the operating system's stack, 16 pages. The stack's top is `os_args`.
    pub os_stack: u64,
}

impl Layout {
    /// The layout of a RAM of so many pages of 4,096 bytes from `base` on.
    #[tactic(auto, unfolding(crate::specs::Layout::layout_at))]
    pub fn at(base: u64, pages: u32) -> Layout
        requires { IsRam base pages }
        ensures places { result ≡ layout_at base pages }
        ensures layout { IsLayout result }
    {
        let top = base + u64::from(pages) * 0x1000;
        Layout {
            base,
            pages,
            slots: top - 0x1000,
            system: top - 0x2000,
            boot: top - 0x3000,
            boot_stack: top - 0x23000,
            os_return: top - 0x24000,
            os_args: top - 0x34000,
            os_stack: top - 0x44000,
        }
    }
}
