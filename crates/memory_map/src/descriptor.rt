//! Descriptors of memory.
#![tactic(auto)]

ghost use Rattle.std.specs.Prelude.{◌≡◌};
ghost use Rattle.memory_map.specs.Map.{attribute_of, described, holds};

/// Pages of one memory type in a row, as UEFI's EFI_MEMORY_DESCRIPTOR (UEFI 2.10, section 7.2).
#[derive(Clone, Copy, Debug, PartialEq, Eq, Drop)]
pub struct Descriptor {
    /// The memory type, by UEFI 2.10, table 7.10.
    pub memory_type: u32,
    /// The physical address of the first byte, a multiple of 4,096.
    pub start: u64,
    /// The virtual address of the first byte, 0 where there is none.
    pub virt: u64,
    /// How many pages of 4,096 bytes there are.
    pub pages: u64,
    /// What the memory can do: bit 3 is write-back caching, bit 63 that the firmware needs it at run time.
    pub attribute: u64,
}

impl Descriptor {
    /// Whether an address is in the pages.
    pub fn holds(&self, at: u64) -> bool
        ensures { result ≡ holds at self.now }
    {
        at >= self.start && (at - self.start) / 4096 < self.pages
    }
}

/// A buffer is too small for a memory map. It holds the size that is needed, in bytes.
#[derive(Clone, Copy, Debug, PartialEq, Eq, Drop)]
pub struct TooSmall(pub usize);

/// So many pages of a type from an address on.
pub fn described(at: u64, memory_type: u32, pages: u64) -> Descriptor
    ensures { result ≡ described at memory_type pages }
{
    let attribute = if memory_type == 5 || memory_type == 6 {
        0x8000_0000_0000_0008
    } else {
        8
    };
    Descriptor {
        memory_type,
        start: at,
        virt: 0,
        pages,
        attribute,
    }
}
