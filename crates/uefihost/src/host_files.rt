//! Files of the system.

ghost use Rattle.std.specs.Prelude.{None, IfOk, IfSome, IsErrOf, vec_len, length, ◌≡◌, ◌≤◌, ◌<◌};

use std::alloc::Global;
use std::io::{ErrorKind, Read};
use std::{fs, rt};
use uh_base::{FileEnd, Files};

/// The files of the system. It tells no bytes; what a file holds is trusted.
#[derive(Drop)]
pub struct HostFiles<'a, R> {
    rt: &'a R,
    faults: u64,
    longs: u64,
}

impl<'a, R: rt::Files> HostFiles<'a, R> {
    /// The files under the program's working directory, of which none has failed.
    pub fn new(rt: &'a R) -> HostFiles<'a, R>
        ensures faults { result.faults ≡ 0 }
        ensures longs { result.longs ≡ 0 }
    {
        HostFiles {
            rt,
            faults: 0,
            longs: 0,
        }
    }
}

/// The bytes that a source gives up to its end, of which there are at most `most`.
#[tactic(auto, using(crate::proofs::TakeLemmas::longer))]
pub fn read_all<S: Read + Drop>(source: S, alloc: Global, most: usize) -> Result<Vec<u8>, FileEnd>
    ensures most { IfOk result (λ bytes. vec_len bytes ≤ most) }
    ensures whole { IfOk result (λ bytes. IfSome (S.remaining source) (λ told. bytes.items ≡ told)) }
    ensures longer { IsErrOf result FileEnd.TooLong → IfSome (S.remaining source) (λ told. most < length told) }
{
    let limit = (most as u64).saturating_add(1);
    let mut bytes = Vec::new(alloc);
    match source.take(limit).read_to_end(&mut bytes) {
        Ok(_) => {
            if bytes.len() as u64 >= limit {
                Err(FileEnd::TooLong)
            } else {
                Ok(bytes)
            }
        }
        Err(e) => match e.kind() {
            ErrorKind::OutOfMemory => Err(FileEnd::Memory),
            _ => Err(FileEnd::Failed),
        },
    }
}

/// The bytes of a file, of which there are at most `most`.
fn read_file<R: rt::Files>(
    rt: &R,
    alloc: Global,
    name: &str,
    most: usize,
) -> Result<Vec<u8>, FileEnd>
    ensures { IfOk result (λ bytes. vec_len bytes ≤ most) }
{
    match fs::open(rt, name) {
        Ok(file) => read_all(file, alloc, most),
        Err(_) => Err(FileEnd::Failed),
    }
}

impl<'a, R: rt::Files> Files for HostFiles<'a, R> {
    ghost told = { λ files. None };

    ghost faults = { λ files. files.faults };

    ghost longs = { λ files. files.longs };

    fn read(&mut self, alloc: Global, name: &str, most: usize) -> Result<Vec<u8>, FileEnd> {
        let end = match read_file(self.rt, alloc, name, most) {
            Ok(bytes) => return Ok(bytes),
            Err(end) => end,
        };
        match end {
            FileEnd::Failed => self.faults = self.faults.saturating_add(1),
            FileEnd::TooLong => self.longs = self.longs.saturating_add(1),
            FileEnd::Memory => {}
        }
        Err(end)
    }
}
