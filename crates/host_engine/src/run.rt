//! The command `run SCRIPT`.
#![tactic(auto)]

ghost use Rattle.std.specs.Prelude.{◌≡◌, IfOk, IfErr, Ok, length};
ghost use Rattle.host_script.specs.Forms.{IsScript};
ghost use Rattle.host_engine.specs.Commands.{plan_of, script_plan, run_answer, place_text};
ghost use Rattle.host_engine.specs.Outside.{outside};
ghost use Rattle.host_engine.specs.Gives.{CommandGives};
ghost use Rattle.host_engine.specs.Plans.{Over, Leads};
ghost use Rattle.host_engine.specs.ScriptRuns.{run_of};
ghost use Rattle.host_engine.specs.Stages.{Onward, Refuses, IsScriptRefusal};
ghost use Rattle.host_engine.specs.Words.{Run};

use crate::inputs::{Inputs, assemble_texts, read_images, read_store};
use crate::limits::SCRIPT_LIMIT;
use crate::refusal::{Refusal, read_file};
use crate::script_run::{Outcome, run_script};
use crate::unbuilt::read_runnable;
use host_script::{Script, ScriptFault, ScriptKind};
use std::alloc::Global;
use uh_base::{Files, Sink};

/// The refusal of a script: at which step and why.
fn script_refusal(alloc: Global, step: u32, kind: ScriptKind) -> Refusal
    ensures { IsScriptRefusal (place_text (step, kind)) result }
{
    match format!(in alloc; "{} {}", step, kind.name()) {
        Ok(text) => Refusal::Script(text),
        Err(_) => Refusal::Memory,
    }
}

/// Reads a script's file and judges it.
fn script_in<F: Files>(alloc: Global, name: &str, files: &mut F) -> Result<Script, Refusal>
    ensures had { IfOk result (λ script. Leads (F.told files.old) (plan_of (Run name.now)) (script_plan (Ok script))) }
    ensures forms { IfOk result (λ script. IsScript script) }
    ensures refused { IfErr result (λ refusal. Refuses (plan_of (Run name.now)) refusal (F.told files.old) (F.faults files.old) (F.longs files.old) (F.faults files.new) (F.longs files.new)) }
    ensures onward { Onward (F.told files.old) (F.told files.new) (F.faults files.old) (F.faults files.new) (F.longs files.old) (F.longs files.new) }
{
    let file = match read_file(alloc, name, SCRIPT_LIMIT, files) {
        Ok(file) => file,
        Err(refusal) => return Err(refusal),
    };
    match read_runnable(alloc, file.as_slice()) {
        Ok(script) => Ok(script),
        Err(ScriptFault::Memory) => Err(Refusal::Memory),
        Err(ScriptFault::At { step, kind }) => Err(script_refusal(alloc, step, kind)),
    }
}

/// Reads the files of a script's images and of its store, and assembles the texts of its images.
fn inputs_of<F: Files>(alloc: Global, script: &Script, files: &mut F) -> Result<Inputs, Refusal>
    requires { IsScript script.now }
    ensures had { IfOk result (λ inputs. Leads (F.told files.old) (script_plan (Ok script.now)) (Over (run_answer (run_of script.now inputs)))) }
    ensures many { IfOk result (λ inputs. length inputs.images ≡ length script.now.image) }
    ensures refused { IfErr result (λ refusal. Refuses (script_plan (Ok script.now)) refusal (F.told files.old) (F.faults files.old) (F.longs files.old) (F.faults files.new) (F.longs files.new)) }
    ensures onward { Onward (F.told files.old) (F.told files.new) (F.faults files.old) (F.faults files.new) (F.longs files.old) (F.longs files.new) }
{
    let codes = match read_images(alloc, script, files) {
        Ok(codes) => codes,
        Err(refusal) => return Err(refusal),
    };
    let store = match read_store(alloc, script, files) {
        Ok(store) => store,
        Err(refusal) => return Err(refusal),
    };
    match assemble_texts(alloc, codes) {
        Ok(images) => Ok(Inputs { images, store }),
        Err(why) => Err(Refusal::of_text(why)),
    }
}

/// Runs the script of a file: reads it, reads the files of its images and its store, assembles the texts of its images, and
/// makes its steps; true where the run is halted.
pub fn run<F: Files, O: Sink>(
    alloc: Global,
    name: &str,
    files: &mut F,
    out: &mut O,
) -> Result<bool, Refusal>
    ensures { CommandGives (plan_of (Run name.now)) result
        (outside (F.told files.old) (F.faults files.old) (F.longs files.old) (O.written out.old) (O.faults out.old))
        (outside (F.told files.new) (F.faults files.new) (F.longs files.new) (O.written out.new) (O.faults out.new)) }
{
    let script = match script_in(alloc, name, files) {
        Ok(script) => script,
        Err(refusal) => return Err(refusal),
    };
    let inputs = match inputs_of(alloc, &script, files) {
        Ok(inputs) => inputs,
        Err(refusal) => return Err(refusal),
    };
    match run_script(alloc, &script, &inputs, out) {
        Outcome::Done => Ok(false),
        Outcome::Halted => Ok(true),
        Outcome::Store => Err(script_refusal(alloc, 0, ScriptKind::Store)),
        Outcome::Write => Err(Refusal::Write),
        Outcome::Memory => Err(Refusal::Memory),
    }
}
