//! What is said to the error output.
#![tactic(auto)]

ghost use Rattle.std.specs.Prelude.{◌≡◌, ◌≤◌, ◌++◌, OnOk, OnErr};
ghost use Rattle.uh_base.specs.Counts.{Rose};
ghost use Rattle.uh_base.specs.Told.{grown, GrownByPart};
ghost use Rattle.host_engine.specs.Gives.{message, Says, ErrGives};

use crate::status::Status;
use uh_base::{Failed, Sink};

/// Puts two texts, up to the first put that fails.
fn put_both<E: Sink>(err: &mut E, a: &[u8], b: &[u8]) -> Result<(), Failed>
    ensures ok { OnOk result (E.written err.new ≡ grown (E.written err.old) (a.now ++ b.now)) }
    ensures failed { OnErr result (Rose (E.faults err.old) (E.faults err.new)) }
    ensures part { OnErr result (GrownByPart (E.written err.old) (a.now ++ b.now) (E.written err.new)) }
    ensures faults { E.faults err.old ≤ E.faults err.new }
{
    match err.put(a) {
        Ok(()) => err.put(b),
        Err(failed) => Err(failed),
    }
}

/// Puts a reason and a name, up to the first put that fails.
fn put_message<E: Sink>(err: &mut E, reason: &[u8], name: &[u8]) -> Result<(), Failed>
    ensures ok { OnOk result (E.written err.new ≡ grown (E.written err.old) (message reason.now name.now)) }
    ensures failed { OnErr result (Rose (E.faults err.old) (E.faults err.new)) }
    ensures part { OnErr result (GrownByPart (E.written err.old) (message reason.now name.now) (E.written err.new)) }
{
    match put_both(err, b"uefihost: ", reason) {
        Ok(()) => put_both(err, name, b"\n"),
        Err(failed) => Err(failed),
    }
}

/// Says a reason and a name. A failing output is left as it is.
fn say<E: Sink>(err: &mut E, reason: &str, name: &str)
    ensures { Says (message reason.now name.now) (E.written err.old) (E.faults err.old) (E.written err.new) (E.faults err.new) }
{
    let _ = put_message(err, reason.as_bytes(), name.as_bytes());
}

/// Says why not all was put, with the name of a file or a fault.
pub fn explain<E: Sink>(err: &mut E, status: Status, name: &str)
    ensures { ErrGives status name.now (E.written err.old) (E.faults err.old) (E.written err.new) (E.faults err.new) }
{
    match status {
        Status::Done | Status::Halted => {}
        Status::Words => say(err, "usage", ""),
        Status::Script => say(err, "script ", name),
        Status::Read => say(err, "read ", name),
        Status::Size => say(err, "size ", name),
        Status::Assembly => say(err, "assembly ", name),
        Status::Write => say(err, "write", ""),
        Status::Memory => say(err, "memory", ""),
    }
}
