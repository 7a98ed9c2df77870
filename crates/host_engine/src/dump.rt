//! The commands `image FILE` and `list FILE`.
ghost use Rattle.std.specs.Prelude.{◌≡◌};
ghost use Rattle.host_engine.specs.Commands.{plan_of};
ghost use Rattle.host_engine.specs.Gives.{CommandGives};
ghost use Rattle.host_engine.specs.Outside.{outside};
ghost use Rattle.host_engine.specs.Stages.{stop_refusal};
ghost use Rattle.host_engine.specs.Words.{Image, Listing};

use crate::limits::CODE_LIMIT;
use crate::refusal::{Refusal, read_file};
use image_dump::{Stop, put_image, put_list};
use std::alloc::Global;
use uh_base::{Files, Sink};

/// The refusal for lines that weren't put whole.
fn stop_refusal(stop: Stop) -> Refusal
    ensures { result ≡ stop_refusal stop }
{
    match stop {
        Stop::Write => Refusal::Write,
        Stop::Memory => Refusal::Memory,
    }
}

/// Reads an image file and puts what it holds; true where the file is refused.
pub fn image<F: Files, O: Sink>(
    alloc: Global,
    name: &str,
    files: &mut F,
    out: &mut O,
) -> Result<bool, Refusal>
    ensures { CommandGives (plan_of (Image name.now)) result
        (outside (F.told files.old) (F.faults files.old) (F.longs files.old) (O.written out.old) (O.faults out.old))
        (outside (F.told files.new) (F.faults files.new) (F.longs files.new) (O.written out.new) (O.faults out.new)) }
{
    let file = match read_file(alloc, name, CODE_LIMIT, files) {
        Ok(file) => file,
        Err(refusal) => return Err(refusal),
    };
    match put_image(alloc, file.as_slice(), out) {
        Ok(is_refused) => Ok(is_refused),
        Err(stop) => Err(stop_refusal(stop)),
    }
}

/// Reads an image file and puts its instructions; true where the file is refused.
pub fn list<F: Files, O: Sink>(
    alloc: Global,
    name: &str,
    files: &mut F,
    out: &mut O,
) -> Result<bool, Refusal>
    ensures { CommandGives (plan_of (Listing name.now)) result
        (outside (F.told files.old) (F.faults files.old) (F.longs files.old) (O.written out.old) (O.faults out.old))
        (outside (F.told files.new) (F.faults files.new) (F.longs files.new) (O.written out.new) (O.faults out.new)) }
{
    let file = match read_file(alloc, name, CODE_LIMIT, files) {
        Ok(file) => file,
        Err(refusal) => return Err(refusal),
    };
    match put_list(alloc, file.as_slice(), out) {
        Ok(is_refused) => Ok(is_refused),
        Err(stop) => Err(stop_refusal(stop)),
    }
}
