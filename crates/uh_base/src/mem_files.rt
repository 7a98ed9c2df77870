//! Files in memory.
use crate::counts::is_among;
use crate::files::{FileEnd, Files};
use crate::text::{Bytes, Text};
use std::alloc::{AllocError, Global};
use std::marker::Model;

/// Files in memory, which tell their map. The reads of the numbers that they are given fail.
#[derive(Drop)]
pub struct MemFiles {
    entries: Vec<(Text, Bytes)>,
    fail: Vec<u32>,
    reads: u64,
    faults: u64,
    longs: u64,
}

impl Model for MemFiles {
    ghost use Rattle.uh_base.specs.MemFiles.{HeldFiles};

    ghost Value = { HeldFiles };

    ghost view = { λ f. record { files = f.entries.items; fail = f.fail.items; reads = f.reads; faults = f.faults; longs = f.longs } };
}

ghost use Rattle.std.specs.Prelude.{◌≡◌, ◌<◌, ◌≤◌, ◌⊎◌, [], List, ℕ, OnErr, OnOk, Option, Some, IfOk, IsErrOf, IfSome, IfNone, IsNone, vec_len, length, position};
ghost use Rattle.std.specs.Option.{option_copied};
ghost use Rattle.std.specs.Str.{bytes_eq};
ghost use Rattle.uh_base.specs.Counts.{Rose};
ghost use Rattle.uh_base.specs.Told.{Lacks, HasFile, IsLonger};
ghost use Rattle.uh_base.specs.MemFiles.{HeldFiles, Adds, Reads, file_of, file_in, is_failing};

impl MemFiles {
    /// No files. Reads are numbered from 0 over all names, absent ones too; a read of a name that is there fails
    /// exactly where its number stands in `fail`.
    pub fn new(alloc: Global, fail: Vec<u32>) -> MemFiles
        ensures { result ≡ record { files = []; fail = fail.items; reads = 0; faults = 0; longs = 0 } }
    {
        MemFiles {
            entries: Vec::new(alloc),
            fail,
            reads: 0,
            faults: 0,
            longs: 0,
        }
    }

    /// Adds a file. The bytes of a name that is there are replaced.
    pub fn add(&mut self, alloc: Global, name: &str, bytes: &[u8]) -> Result<(), AllocError>
        ensures ok { OnOk result (Adds name.now bytes.now self.old self.new) }
        ensures err { OnErr result (self.new ≡ self.old) }
    {
        let file = (Text::new(alloc, name)?, Bytes::new(alloc, bytes)?);
        match place_of(self.entries.as_slice(), name) {
            Some(place) => self.entries[place] = file,
            None => self.entries.push(file)?,
        }
        Ok(())
    }
}

/// The place of a name.
fn place_of(entries: &[(Text, Bytes)], name: &str) -> Option<usize>
    ensures { result ≡ position (λ file. bytes_eq file.0 name.now) entries.now }
{
    entries.iter().position(|entry| entry.0.as_str() == name)
}

/// The bytes of a name.
fn bytes_of<'a>(entries: &'a [(Text, Bytes)], name: &str) -> Option<&'a [u8]>
    ensures { option_copied result ≡ file_in entries.now name.now }
{
    for entry in entries {
        if entry.0.as_str() == name {
            return Some(entry.1.as_slice());
        }
    }
    None
}

impl Files for MemFiles {
    ghost told = { λ f. Some (file_of f) };

    ghost faults = { λ f. f.faults };

    ghost longs = { λ f. f.longs };

    fn read(&mut self, alloc: Global, name: &str, most: usize) -> Result<Vec<u8>, FileEnd>
        ensures reads { Reads (λ bytes. bytes.items) result (file_of self.old name.now) (is_failing self.old) most self.old self.new }

        ensures told { Some (file_of self.new) ≡ Some (file_of self.old) }
        ensures faults_never_fall { self.old.faults ≤ self.new.faults }
        ensures longs_never_fall { self.old.longs ≤ self.new.longs }

        ensures most { IfOk result (λ bytes. vec_len bytes ≤ most) }
        ensures bytes { IfOk result (λ bytes. HasFile (Some (file_of self.old)) name.now bytes.items) }

        ensures failed { IsErrOf result FileEnd.Failed → Rose self.old.faults self.new.faults ⊎ Lacks (Some (file_of self.old)) name.now }
        ensures too_long { IsErrOf result FileEnd.TooLong → Rose self.old.longs self.new.longs }
        ensures longer { IsErrOf result FileEnd.TooLong → IsLonger (Some (file_of self.old)) name.now most }

        ensures absent { Lacks (Some (file_of self.old)) name.now → IsErrOf result FileEnd.Failed }
        ensures absent_faults { Lacks (Some (file_of self.old)) name.now → self.new.faults ≡ self.old.faults }
        ensures absent_longs { Lacks (Some (file_of self.old)) name.now → self.new.longs ≡ self.old.longs }
    {
        let is_failing = is_among(self.reads, self.fail.as_slice());
        self.reads = self.reads.saturating_add(1);
        let Some(bytes) = bytes_of(self.entries.as_slice(), name) else {
            return Err(FileEnd::Failed);
        };
        if is_failing {
            self.faults = self.faults.saturating_add(1);
            return Err(FileEnd::Failed);
        }
        if bytes.len() > most {
            self.longs = self.longs.saturating_add(1);
            return Err(FileEnd::TooLong);
        }
        match Vec::from_slice(alloc, bytes) {
            Ok(bytes) => Ok(bytes),
            Err(_) => Err(FileEnd::Memory),
        }
    }
}
