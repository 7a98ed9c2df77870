//! A line on what an image file holds.
use uh_base::Text;

/// What moving an image adds to, as PE/COFF, "Base Relocation Types", names it.
#[derive(Clone, Copy, Debug, PartialEq, Eq)]
pub enum RelocKind {
    /// An address of 64 bits.
    Dir64,
    /// An address of 32 bits.
    Highlow,
    /// The bits 31 to 12 of an instruction.
    High20,
}

/// Why an image is refused: what is wrong with its file, up to `Directory`, or with its base relocations. The numbers
/// are an offset in the file, and places among sections, blocks, entries and sites, from 0.
#[derive(Clone, Copy, Debug, PartialEq, Eq)]
pub enum ImageFault {
    Truncated(u32),
    Magic,
    Machine,
    Header,
    Subsystem,
    Alignment,
    TooLarge,
    SectionOutside(u16),
    SectionOverlap(u16),
    EntryOutside,
    Directory,
    BlockSize(u32),
    Kind(u32),
    Outside(u32),
    Overlap(u32),
    Range32(u32),
}

/// A line on what an image file holds. Offsets and lengths are of bytes of the placed image.
#[derive(Drop)]
pub enum ImageLine {
    /// `image SUBSYSTEM BASE SIZE ENTRY ALIGNMENT stripped|relocatable`: the image. The base has 16 hexadecimal digits.
    Image {
        subsystem: u16,
        base: u64,
        size: u32,
        entry: u32,
        alignment: u32,
        is_stripped: bool,
    },
    /// `section N AT LEN COPIED RIGHTS`: a section, of whose bytes the first COPIED are the file's. The rights are the
    /// letters `r`, `w` and `x`, with a `-` in place of each that is absent.
    Section {
        number: u16,
        at: u32,
        len: u32,
        copied: u32,
        is_read: bool,
        is_written: bool,
        is_executed: bool,
    },
    /// `site KIND AT`: bytes that move with the image.
    Site {
        kind: RelocKind,
        at: u32,
    },
    /// `section N`: the instructions of this section follow.
    Listed {
        number: u16,
    },
    /// `AT WORD TEXT`: an instruction of 4 bytes. AT and the word have 8 hexadecimal digits.
    Word {
        at: u32,
        word: u32,
        text: Text,
    },
    /// `AT HALF TEXT`: an instruction of 2 bytes. The half has 4 hexadecimal digits.
    Half {
        at: u32,
        half: u16,
        text: Text,
    },
    /// `AT HALF -`: 2 bytes that are no instruction.
    NoInstruction {
        at: u32,
        half: u16,
    },
    /// `AT BYTE -`: a last byte alone, with 2 hexadecimal digits.
    LastByte {
        at: u32,
        byte: u8,
    },
    /// `refused FAULT`: why the image is refused, the last line.
    Refused {
        fault: ImageFault,
    },
    /// `end`: that is all, the last line.
    End,
}
