//! What is wrong with a file.
#![tactic(auto)]

ghost use Rattle.std.specs.Prelude.{◌≡◌};
ghost use Rattle.pe_image.specs.declared.fault.PeFault.TheVariants.{Memory};

use std::alloc::{AllocError, AllocFailed};
use thiserror::Error;

/// The first thing that is wrong with a file, in the order of the variants, but for `Truncated`, which comes
/// where the field is read.
#[derive(Clone, Copy, Debug, PartialEq, Eq, Error)]
pub enum PeFault {
    /// The field at this offset isn't wholly in the file.
    #[error("the file ends before the end of the field at {0}")]
    Truncated(u32),
    /// `MZ`, `PE\0\0` or the optional header's 0x20B isn't there.
    #[error("a magic number is missing")]
    Magic,
    /// The machine isn't a RISC-V of 64 bits.
    #[error("the image is for another machine")]
    Machine,
    /// The optional header is too short for its directories, or the headers are longer than the file or the
    /// image.
    #[error("the sizes of the headers do not fit")]
    Header,
    /// Neither an application, nor a boot driver, nor a runtime driver.
    #[error("the subsystem is none of EFI's")]
    Subsystem,
    /// The section alignment is no power of two from 32 on, or the image base no multiple of 4,096.
    #[error("the section alignment or the image base is out of form")]
    Alignment,
    /// The image has no bytes, or more than 8 MiB, or more than 96 sections.
    #[error("the image is empty or too large")]
    TooLarge,
    /// This section isn't aligned, ends behind the image, or has bytes that aren't in the file.
    #[error("section {0} does not lie in the image and the file")]
    SectionOutside(u16),
    /// This section begins before the end of the one before it, or of the headers.
    #[error("section {0} overlaps what is before it")]
    SectionOverlap(u16),
    /// The entry point is 0, odd or behind the image.
    #[error("the entry point does not lie in the image")]
    EntryOutside,
    /// The base relocations end behind the image.
    #[error("the base relocations do not lie in the image")]
    Directory,
    /// There is no memory for the sections.
    #[error("out of memory")]
    Memory,
}

impl From<AllocError> for PeFault {
    ghost from_gives = { λ _ e. e ≡ Memory };

    fn from(_error: AllocError) -> PeFault {
        PeFault::Memory
    }
}

impl<T: Drop> From<AllocFailed<T>> for PeFault {
    ghost from_gives = { λ _ e. e ≡ Memory };

    fn from(_error: AllocFailed<T>) -> PeFault {
        PeFault::Memory
    }
}
