//! Why a file isn't loaded, and why an image isn't unloaded.
ghost use Rattle.std.specs.Prelude.{◌≡◌};
ghost use Rattle.image_services.specs.Status.{load_status, pe_status};
ghost use Rattle.image_services.specs.Views.{pe_refusal, reloc_refusal};

use base_reloc::RelocFault;
use pe_image::PeFault;
use std::alloc::AllocError;
use uh_base::EfiStatus;

/// Why a file isn't loaded: the first of these, in their order, that stands in the way. Want of memory may come at any
/// time.
#[derive(Clone, Copy, Debug, PartialEq, Eq, Drop)]
pub enum LoadRefusal {
    /// 16 images are loaded.
    TooMany,
    /// The file isn't an image that runs here.
    Pe(PeFault),
    /// Its base relocations are faulty; or, behind `Placed` and `NoPages`, a word would leave its range.
    Reloc(RelocFault),
    /// Its relocations are stripped, and not all pages from its ImageBase on are conventional pages of RAM.
    Placed,
    /// There are no pages for it, or none for its block.
    NoPages,
    /// 1,024 handles are live, or 2^60 - 1 were made.
    Full,
    /// More than 65,536 pages would be touched.
    Frames,
    /// The host lacks memory.
    Memory,
}

/// Why an image isn't unloaded.
#[derive(Clone, Copy, Debug, PartialEq, Eq, Drop)]
pub enum UnloadRefusal {
    /// No loaded image has the handle.
    Unknown,
    /// The image was started.
    Started,
}

impl From<AllocError> for LoadRefusal {
    ghost use Rattle.image_services.specs.declared.refusal.LoadRefusal.TheVariants.{Memory};

    ghost from_gives = { λ _ refusal. refusal ≡ Memory };

    fn from(_error: AllocError) -> LoadRefusal {
        LoadRefusal::Memory
    }
}

impl LoadRefusal {
    /// Its status, as LoadImage answers it (UEFI 2.10, 7.4).
    pub fn status(self) -> EfiStatus
        ensures { result.0 ≡ load_status self }
    {
        match self {
            LoadRefusal::Pe(fault) => pe_status(fault),
            LoadRefusal::Reloc(_) | LoadRefusal::Placed => EfiStatus::LOAD_ERROR,
            LoadRefusal::TooMany
            | LoadRefusal::NoPages
            | LoadRefusal::Full
            | LoadRefusal::Frames
            | LoadRefusal::Memory => EfiStatus::OUT_OF_RESOURCES,
        }
    }
}

/// The status of a fault of an image file.
fn pe_status(fault: PeFault) -> EfiStatus
    ensures { result.0 ≡ pe_status fault }
{
    match fault {
        PeFault::Machine | PeFault::Subsystem => EfiStatus::UNSUPPORTED,
        PeFault::Truncated(_)
        | PeFault::Magic
        | PeFault::Header
        | PeFault::Alignment
        | PeFault::TooLarge
        | PeFault::SectionOutside(_)
        | PeFault::SectionOverlap(_)
        | PeFault::EntryOutside
        | PeFault::Directory
        | PeFault::Memory => EfiStatus::LOAD_ERROR,
    }
}

/// Why a fault of an image file refuses it.
pub(crate) fn pe_refusal(fault: PeFault) -> LoadRefusal
    ensures { result ≡ pe_refusal fault }
{
    match fault {
        PeFault::Memory => LoadRefusal::Memory,
        PeFault::Machine
        | PeFault::Subsystem
        | PeFault::Truncated(_)
        | PeFault::Magic
        | PeFault::Header
        | PeFault::Alignment
        | PeFault::TooLarge
        | PeFault::SectionOutside(_)
        | PeFault::SectionOverlap(_)
        | PeFault::EntryOutside
        | PeFault::Directory => LoadRefusal::Pe(fault),
    }
}

/// Why a fault of base relocations refuses a file.
pub(crate) fn reloc_refusal(fault: RelocFault) -> LoadRefusal
    ensures { result ≡ reloc_refusal fault }
{
    match fault {
        RelocFault::Memory => LoadRefusal::Memory,
        RelocFault::BlockSize(_)
        | RelocFault::Kind(_)
        | RelocFault::Outside(_)
        | RelocFault::Overlap(_)
        | RelocFault::Range32(_) => LoadRefusal::Reloc(fault),
    }
}
