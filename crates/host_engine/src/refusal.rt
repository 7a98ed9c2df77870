//! Why the text of a command wasn't put whole.
ghost use Rattle.std.specs.Prelude.{◌≡◌, ◌≤◌, ℕ, List, IfOk, IfErr, vec_len};
ghost use Rattle.host_engine.specs.Plans.{Plan, Reads, IsFile};
ghost use Rattle.host_engine.specs.Stages.{Onward, Refuses};

use crate::assembly::Unassembled;
use std::alloc::Global;
use uh_base::{FileEnd, Files, Text};

/// Why the text of a command wasn't put whole. Names are those of files.
#[derive(Drop)]
pub enum Refusal {
    /// A file couldn't be read.
    Read(Text),
    /// A file is longer than its limit.
    Size(Text),
    /// The script is refused: at which step and why.
    Script(String),
    /// An assembly text is refused: of which image or file, at which line and why.
    Assembly(String),
    /// The output failed.
    Write,
    /// Memory was wanting.
    Memory,
}

impl Refusal {
    ghost use Rattle.std.specs.Prelude.{◌≡◌};
    ghost use Rattle.host_engine.specs.Stages.{refusal_of};

    /// The refusal for a text that isn't assembled.
    pub fn of_text(why: Unassembled) -> Refusal
        ensures { result ≡ refusal_of why }
    {
        match why {
            Unassembled::Refused(text) => Refusal::Assembly(text),
            Unassembled::Memory => Refusal::Memory,
        }
    }
}

/// Reads a file of at most `most` bytes.
pub fn read_file<F: Files>(
    alloc: Global,
    name: &str,
    most: usize,
    files: &mut F,
) -> Result<Vec<u8>, Refusal>
    ensures had { IfOk result (λ file. IsFile (F.told files.old) (record { name = name.now; most = most }) file.items) }
    ensures most { IfOk result (λ file. vec_len file ≤ most) }
    ensures refused { IfErr result (λ refusal. (next : List ℕ → Plan) → Refuses (Reads (record { name = name.now; most = most }) next) refusal (F.told files.old) (F.faults files.old) (F.longs files.old) (F.faults files.new) (F.longs files.new)) }
    ensures onward { Onward (F.told files.old) (F.told files.new) (F.faults files.old) (F.faults files.new) (F.longs files.old) (F.longs files.new) }
{
    let end = match files.read(alloc, name, most) {
        Ok(file) => return Ok(file),
        Err(end) => end,
    };
    let name = match Text::new(alloc, name) {
        Ok(name) => name,
        Err(_) => return Err(Refusal::Memory),
    };
    match end {
        FileEnd::Failed => Err(Refusal::Read(name)),
        FileEnd::TooLong => Err(Refusal::Size(name)),
        FileEnd::Memory => Err(Refusal::Memory),
    }
}
