//! The last line of a report.
ghost use Rattle.std.specs.Prelude.{◌≡◌, [], Some, OnOk};
ghost use Rattle.image_dump.specs.Puts.{Puts, Gives};
ghost use Rattle.image_dump.specs.Reports.{line_bytes, pe_fault, reloc_fault, refused, end_report};

use crate::stop::{Stop, push_line, put_text};
use base_reloc::RelocFault;
use pe_image::PeFault;
use record_text::{ImageFault, ImageLine};
use uh_base::Sink;

/// The fault of a file that is no image; None where memory was wanting.
pub fn pe_fault(fault: PeFault) -> Option<ImageFault>
    ensures { result ≡ pe_fault fault }
{
    match fault {
        PeFault::Truncated(at) => Some(ImageFault::Truncated(at)),
        PeFault::Magic => Some(ImageFault::Magic),
        PeFault::Machine => Some(ImageFault::Machine),
        PeFault::Header => Some(ImageFault::Header),
        PeFault::Subsystem => Some(ImageFault::Subsystem),
        PeFault::Alignment => Some(ImageFault::Alignment),
        PeFault::TooLarge => Some(ImageFault::TooLarge),
        PeFault::SectionOutside(i) => Some(ImageFault::SectionOutside(i)),
        PeFault::SectionOverlap(i) => Some(ImageFault::SectionOverlap(i)),
        PeFault::EntryOutside => Some(ImageFault::EntryOutside),
        PeFault::Directory => Some(ImageFault::Directory),
        PeFault::Memory => None,
    }
}

/// The fault of base relocations; None where memory was wanting.
pub fn reloc_fault(fault: RelocFault) -> Option<ImageFault>
    ensures { result ≡ reloc_fault fault }
{
    match fault {
        RelocFault::BlockSize(i) => Some(ImageFault::BlockSize(i)),
        RelocFault::Kind(i) => Some(ImageFault::Kind(i)),
        RelocFault::Outside(i) => Some(ImageFault::Outside(i)),
        RelocFault::Overlap(i) => Some(ImageFault::Overlap(i)),
        RelocFault::Range32(i) => Some(ImageFault::Range32(i)),
        RelocFault::Memory => None,
    }
}

/// Puts a line.
pub fn put_line<O: Sink>(text: &mut Vec<u8>, line: &ImageLine, out: &mut O) -> Result<(), Stop>
    requires { text.old.items ≡ [] }
    ensures puts { Puts result (line_bytes line.now) (O.written out.old) (O.faults out.old) (O.written out.new) (O.faults out.new) }
    ensures empty { OnOk result (text.new.items ≡ []) }
{
    match push_line(text, line) {
        Ok(()) => put_text(text, out),
        Err(_) => Err(Stop::Memory),
    }
}

/// Puts why a file is refused.
pub fn put_refused<O: Sink>(
    text: &mut Vec<u8>,
    fault: ImageFault,
    out: &mut O,
) -> Result<bool, Stop>
    requires { text.old.items ≡ [] }
    ensures { Gives (refused (Some fault)) result (O.written out.old) (O.faults out.old) (O.written out.new) (O.faults out.new) }
{
    match put_line(text, &ImageLine::Refused { fault }, out) {
        Ok(()) => Ok(true),
        Err(stop) => Err(stop),
    }
}

/// Puts that a report is at its end.
pub fn put_end<O: Sink>(text: &mut Vec<u8>, out: &mut O) -> Result<bool, Stop>
    requires { text.old.items ≡ [] }
    ensures { Gives end_report result (O.written out.old) (O.faults out.old) (O.written out.new) (O.faults out.new) }
{
    match put_line(text, &ImageLine::End, out) {
        Ok(()) => Ok(false),
        Err(stop) => Err(stop),
    }
}
