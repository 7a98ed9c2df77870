//! Putting a text in pieces.
ghost use Rattle.std.specs.Prelude.{◌≡◌, ◌++◌, [], OnOk};
ghost use Rattle.image_dump.specs.Puts.{Puts};
ghost use Rattle.image_dump.specs.Reports.{line_bytes};

use record_text::{ImageLine, push_image_line};
use std::alloc::AllocError;
use uh_base::Sink;

/// Why a text wasn't put whole.
#[derive(Clone, Copy, Debug, PartialEq, Eq)]
pub enum Stop {
    /// The output failed.
    Write,
    /// Memory was wanting.
    Memory,
}

/// How many bytes are put at once, or a line more.
pub const PIECE: usize = 32768;

/// Appends a line and LF.
pub fn push_line(text: &mut Vec<u8>, line: &ImageLine) -> Result<(), AllocError>
    ensures { OnOk result (text.new.items ≡ text.old.items ++ line_bytes line.now) }
{
    push_image_line(text, line)?;
    text.push(b'\n')?;
    Ok(())
}

/// Puts a text, and empties it.
pub fn put_text<O: Sink>(text: &mut Vec<u8>, out: &mut O) -> Result<(), Stop>
    ensures puts { Puts result text.old.items (O.written out.old) (O.faults out.old) (O.written out.new) (O.faults out.new) }
    ensures empty { OnOk result (text.new.items ≡ []) }
{
    match out.put(text.as_slice()) {
        Ok(()) => {
            text.clear();
            Ok(())
        }
        Err(_) => Err(Stop::Write),
    }
}
