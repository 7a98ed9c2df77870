//! The top call.
#![tactic(auto)]

ghost use Rattle.std.specs.Prelude.{◌≡◌, map, string_bytes};
ghost use Rattle.host_engine.specs.Commands.{plan_of};
ghost use Rattle.host_engine.specs.Outside.{outside};
ghost use Rattle.host_engine.specs.Texts.{help_text, version_text};
ghost use Rattle.host_engine.specs.Gives.{CommandGives, text_in, HostDoes};
ghost use Rattle.host_engine.specs.Views.{asked};
ghost use Rattle.host_engine.specs.Words.{Help, Version, command_of};

use crate::build::build;
use crate::command::{Command, read_words};
use crate::dump::{image, list};
use crate::flat::flat;
use crate::message::explain;
use crate::refusal::Refusal;
use crate::run::run;
use crate::status::Status;
use std::alloc::Global;
use uh_base::{Files, Sink};

/// The text that explains the program.
const HELP: &str = "uefihost: runs RISC-V code and prints what it came to

uefihost run SCRIPT        run the steps of a script
uefihost build FILE        assemble the text of FILE and write the image
uefihost image FILE        print what the image FILE holds, or why it is refused
uefihost list FILE         print the instructions of the image FILE
uefihost flat FILE BOUND   put FILE at 0x40000000 and make at most BOUND steps
uefihost --help            print this text
uefihost --version         print the version

SCRIPT is a TOML document of at most 1048576 bytes that names images and steps.
FILE is at most 4194304 bytes: of RV64IMC code for flat, of assembly text for build, of a
PE32+ image for image and list. BOUND is a number from 1 to 50000000.
The line of flat is: flat CAUSE PC STEPS A0, with PC and A0 in hexadecimal. CAUSE is ebreak,
ecall, illegal, load, store, fetch or bound.
Status: 0 ebreak or end, 1 another cause, a halt or a refused image, 2 usage, 3 the script is refused,
4 a file can't be read, 5 the output fails, 6 no memory, 7 a file is too long, 8 a text isn't assembled.
";

/// The program's name and version.
const VERSION: &str = "uefihost 0.1.0\n";

/// Puts the text that explains the program.
fn help<F: Files, O: Sink>(files: &F, out: &mut O) -> Result<bool, Refusal>
    ensures { CommandGives (plan_of Help) result
        (outside (F.told files.now) (F.faults files.now) (F.longs files.now) (O.written out.old) (O.faults out.old))
        (outside (F.told files.now) (F.faults files.now) (F.longs files.now) (O.written out.new) (O.faults out.new)) }
{
    match out.put(HELP.as_bytes()) {
        Ok(()) => Ok(false),
        Err(_) => Err(Refusal::Write),
    }
}

/// Puts the program's name and version.
fn version<F: Files, O: Sink>(files: &F, out: &mut O) -> Result<bool, Refusal>
    ensures { CommandGives (plan_of Version) result
        (outside (F.told files.now) (F.faults files.now) (F.longs files.now) (O.written out.old) (O.faults out.old))
        (outside (F.told files.now) (F.faults files.now) (F.longs files.now) (O.written out.new) (O.faults out.new)) }
{
    match out.put(VERSION.as_bytes()) {
        Ok(()) => Ok(false),
        Err(_) => Err(Refusal::Write),
    }
}

/// Does what is asked; true where a run is halted.
fn obey<F: Files, O: Sink>(
    alloc: Global,
    command: Command<'_>,
    files: &mut F,
    out: &mut O,
) -> Result<bool, Refusal>
    ensures { CommandGives (plan_of (asked command.entry)) result
        (outside (F.told files.old) (F.faults files.old) (F.longs files.old) (O.written out.old) (O.faults out.old))
        (outside (F.told files.new) (F.faults files.new) (F.longs files.new) (O.written out.new) (O.faults out.new)) }
{
    match command {
        Command::Help => help(files, out),
        Command::Version => version(files, out),
        Command::Flat { name, bound } => flat(alloc, name, bound, files, out),
        Command::Build { name } => build(alloc, name, files, out),
        Command::Image { name } => image(alloc, name, files, out),
        Command::Listing { name } => list(alloc, name, files, out),
        Command::Run { script } => run(alloc, script, files, out),
    }
}

/// The name of a file or the fault in an answer.
fn text_in(answer: &Result<bool, Refusal>) -> &str
    ensures { result.now ≡ text_in answer.now }
{
    match answer {
        Err(Refusal::Read(name)) => name.as_str(),
        Err(Refusal::Size(name)) => name.as_str(),
        Err(Refusal::Script(text)) => text.as_str(),
        Err(Refusal::Assembly(text)) => text.as_str(),
        _ => "",
    }
}

/// Does what the words behind the program's name ask for, and answers how it ended.
///
/// Files are read through `files`; what a command prints is put to `out`, and why it was refused to `err`.
/// A failing `err` changes no answer. The exit status of the answer is its `code`.
pub fn host_main<F: Files, O: Sink, E: Sink>(
    alloc: Global,
    words: &[String],
    files: &mut F,
    out: &mut O,
    err: &mut E,
) -> Status
    ensures { HostDoes (command_of (map string_bytes words.now)) result
        (outside (F.told files.old) (F.faults files.old) (F.longs files.old) (O.written out.old) (O.faults out.old))
        (outside (F.told files.new) (F.faults files.new) (F.longs files.new) (O.written out.new) (O.faults out.new))
        (E.written err.old) (E.faults err.old) (E.written err.new) (E.faults err.new) }
{
    let command = match read_words(words) {
        Some(command) => command,
        None => {
            explain(err, Status::Words, "");
            return Status::Words;
        }
    };
    let answer = obey(alloc, command, files, out);
    let status = Status::of(&answer);
    explain(err, status, text_in(&answer));
    status
}
