//! What an image is.
#![tactic(auto)]

/// A section of an image ("Section Table").
#[derive(Clone, Copy, Debug, PartialEq, Eq)]
pub struct Section {
    /// Where it begins in the image, in bytes (VirtualAddress).
    pub at: u32,
    /// How many bytes it has in the image.
    pub len: u32,
    /// Where its bytes begin in the file (PointerToRawData).
    pub raw: u32,
    /// How many bytes are copied from the file. The rest of the section is zero.
    pub copied: u32,
    /// 1 for read, 2 for write and 4 for execute, added up.
    pub rights: u8,
}

/// An image ("COFF File Header", "Optional Header"). Sizes and offsets are in bytes.
#[derive(Debug, Drop)]
pub struct Image {
    /// 10 for an application, 11 for a boot driver, 12 for a runtime driver.
    pub subsystem: u16,
    /// The address for which the image is linked.
    pub image_base: u64,
    /// The alignment of its sections in memory.
    pub alignment: u32,
    /// How many bytes it has in memory (SizeOfImage).
    pub size: u32,
    /// How many bytes of the file's beginning are placed with it (SizeOfHeaders).
    pub headers: u32,
    /// The offset of its entry point.
    pub entry: u32,
    /// Its sections, ascending.
    pub sections: Vec<Section>,
    /// Where the base relocations begin in the image, and how many bytes they have; both 0 without them.
    pub reloc_at: u32,
    pub reloc_len: u32,
    /// Whether its relocations are stripped, so that it runs at its image base alone.
    pub stripped: bool,
}
