//! Scripts that ask for what isn't built yet.
#![tactic(auto)]

ghost use Rattle.std.specs.Prelude.{◌≡◌, ◌≤◌, IfOk, length};
ghost use Rattle.host_script.specs.Faults.{Reads};
ghost use Rattle.host_script.specs.Forms.{IsScript};
ghost use Rattle.host_engine.specs.Unbuilt.{asks_unbuilt, is_built, unbuilt_step, first_unbuilt, runnable};

use host_script::{Script, ScriptFault, ScriptKind, Step, read_script, scripts_keep_forms};
use std::alloc::Global;

/// Whether a key is given that isn't built.
#[tactic(auto, unfolding(crate::specs::Unbuilt::asks_unbuilt))]
fn asks_unbuilt(script: &Script) -> bool
    ensures { result ≡ asks_unbuilt script.now }
{
    script.os_virtual.is_some()
}

/// Whether a step is carried out.
fn is_built(step: &Step) -> bool
    ensures { result ≡ is_built step.now }
{
    match step {
        Step::Load { .. } => true,
        Step::Unload { .. } => true,
        Step::Start { .. } => true,
        Step::ExitBoot { .. } => true,
        Step::Check { .. } => false,
        Step::Map(_) => false,
        Step::Call(_) => true,
        Step::Peek { .. } => true,
        Step::MemMap => true,
        Step::Vars => true,
    }
}

/// The first of some steps that isn't carried out, by its number from 1.
fn unbuilt_step(steps: &[Step]) -> Option<(u32, ScriptKind)>
    requires { length steps.now ≤ 4096 }
    ensures { result ≡ unbuilt_step 1 steps.now }
{
    let mut number = 1;
    for step in steps {
        if !is_built(step) {
            return Some((number, ScriptKind::Value));
        }
        number += 1;
    }
    None
}

/// Where a script asks for what isn't built.
#[tactic(auto, unfolding(crate::specs::Unbuilt::first_unbuilt))]
fn first_unbuilt(script: &Script) -> Option<(u32, ScriptKind)>
    requires { IsScript script.now }
    ensures { result ≡ first_unbuilt script.now }
{
    if asks_unbuilt(script) {
        Some((0, ScriptKind::Value))
    } else {
        unbuilt_step(script.step.as_slice())
    }
}

/// Reads a script, and refuses one that asks for what isn't built.
#[tactic(auto, unfolding(crate::specs::Unbuilt::runnable))]
pub fn read_runnable(alloc: Global, bytes: &[u8]) -> Result<Script, ScriptFault>
    ensures reads { Reads (λ script. script) result (runnable bytes.now) }
    ensures forms { IfOk result (λ script. IsScript script) }
{
    scripts_keep_forms();
    let script = match read_script(alloc, bytes) {
        Ok(script) => script,
        Err(fault) => return Err(fault),
    };
    match first_unbuilt(&script) {
        None => Ok(script),
        Some((step, kind)) => Err(ScriptFault::At { step, kind }),
    }
}
