//! Outputs of the system.

ghost use Rattle.std.specs.Prelude.{None, OnOk, ◌≡◌};
ghost use Rattle.std.specs.Io.KnownBytes.{Appends};

use std::io;
use std::io::Write;
use uh_base::{Failed, Sink};

/// An output of the system. It tells no bytes; what it takes is trusted.
#[derive(Drop)]
pub struct HostOut<W> {
    to: W,
    faults: u64,
}

impl<W: Write> HostOut<W> {
    /// An output that hasn't failed.
    pub fn new(to: W) -> HostOut<W>
        ensures { result.faults ≡ 0 }
    {
        HostOut { to, faults: 0 }
    }
}

/// Writes all bytes, and hands them on at once.
fn write_through<W: Write>(to: &mut W, bytes: &[u8]) -> io::Result<()>
    ensures { OnOk result (Appends (W.contents to.old) (W.contents to.new) bytes.now) }
{
    to.write_all(bytes)?;
    to.flush()
}

impl<W: Write> Sink for HostOut<W> {
    ghost written = { λ sink. None };

    ghost faults = { λ sink. sink.faults };

    fn put(&mut self, bytes: &[u8]) -> Result<(), Failed> {
        match write_through(&mut self.to, bytes) {
            Ok(()) => Ok(()),
            Err(_) => {
                self.faults = self.faults.saturating_add(1);
                Err(Failed)
            }
        }
    }
}
