//! The words of the command line, and what the program answers to them.
ghost use Rattle.std.specs.Prelude.{◌≡◌, ◌≢◌, [], IfOk, IfErr, OnErr, map, string_bytes};
ghost use Rattle.std.specs.IoError.{error_kind};
ghost use Rattle.host_engine.specs.Gives.{HostDoes, ErrGives};
ghost use Rattle.host_engine.specs.Outside.{outside};
ghost use Rattle.host_engine.specs.Words.{command_of};

use host_engine::{Status, explain, host_main};
use std::alloc::Global;
use std::io::ErrorKind;
use std::rt::Env;
use std::{env, io};
use uh_base::{Files, Sink};

/// The words behind the program's name.
pub fn words<R: Env + AllocGlobal>(rt: &R) -> io::Result<Vec<String>> {
    let mut words = Vec::new(rt.alloc());
    for (i, word) in env::args(rt)?.enumerate() {
        if i > 0 {
            words.push(word)?;
        }
    }
    Ok(words)
}

/// The answer where the words can't be had, by why not: where memory isn't wanting they aren't text, and ask for no
/// command.
fn without_words(why: ErrorKind) -> Status
    ensures memory { why ≡ ErrorKind.OutOfMemory → result ≡ Status.Memory }
    ensures usage { why ≢ ErrorKind.OutOfMemory → result ≡ Status.Words }
{
    match why {
        ErrorKind::OutOfMemory => Status::Memory,
        _ => Status::Words,
    }
}

/// Does what the words ask for, if they can be had, and answers how it ended.
pub fn answer<F: Files, O: Sink, E: Sink>(
    alloc: Global,
    words: io::Result<Vec<String>>,
    files: &mut F,
    out: &mut O,
    err: &mut E,
) -> Status
    ensures had { IfOk words (λ words. HostDoes (command_of (map string_bytes words.items)) result
        (outside (F.told files.old) (F.faults files.old) (F.longs files.old) (O.written out.old) (O.faults out.old))
        (outside (F.told files.new) (F.faults files.new) (F.longs files.new) (O.written out.new) (O.faults out.new))
        (E.written err.old) (E.faults err.old) (E.written err.new) (E.faults err.new)) }
    ensures memory { IfErr words (λ why. error_kind why ≡ ErrorKind.OutOfMemory → result ≡ Status.Memory) }
    ensures usage { IfErr words (λ why. error_kind why ≢ ErrorKind.OutOfMemory → result ≡ Status.Words) }
    ensures nothing_put { OnErr words (O.written out.new ≡ O.written out.old) }
    ensures said { OnErr words (ErrGives result [] (E.written err.old) (E.faults err.old) (E.written err.new) (E.faults err.new)) }
{
    match words {
        Ok(words) => host_main(alloc, words.as_slice(), files, out, err),
        Err(why) => {
            let status = without_words(why.kind());
            explain(err, status, "");
            status
        }
    }
}
