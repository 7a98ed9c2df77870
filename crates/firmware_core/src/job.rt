//! A job: an image that is started or runtime code that is called, and its turns to the end.
ghost use Rattle.std.specs.Prelude.{◌≡◌, ◌<◌, IfOk, OnOk};
ghost use Rattle.image_services.specs.Images.{find_image};
ghost use Rattle.firmware_core.specs.declared.happened.Happened.TheVariants.{Turned};
ghost use Rattle.firmware_core.specs.Turns.{turn_of};
ghost use Rattle.firmware_core.specs.Jobs.{fresh_entry, begun, started, called, Says};
ghost use Rattle.firmware_core.specs.Views.{potential};

use crate::call_spec::CallSpec;
use crate::firmware::Firmware;
use crate::frame::Purpose;
use crate::happened::Happened;
use crate::laws::jobs_are_turns;
use crate::machine::Machine;
use crate::turn::step_machine;
use event_queue::{next_is_above, ticks_once};
use std::alloc::{AllocError, Global};

/// What a machine is to do.
#[derive(Drop)]
pub enum Job {
    /// Runs a loaded image, for at most so many steps.
    Start { handle: u64, bound: u64 },
    /// Calls runtime code, as the operating system.
    Call { call: CallSpec },
}

impl Machine {
    /// Begins the image of a handle at its entry point.
    #[tactic(auto, unfolding(crate::specs::Jobs::started))]
    fn start(&mut self, handle: u64, entry: u64, bound: u64) -> Result<(), AllocError>
        ensures { OnOk result (self.new ≡ started self.old handle entry bound) }
    {
        let runtime = &self.firmware.runtime;
        let boot = runtime.layout.boot;
        self.firmware
            .start(Purpose::Job(handle), handle, boot, entry)?;
        self.steps = 0;
        self.bound = bound;
        Ok(())
    }

    /// Begins a call of runtime code.
    #[tactic(auto, unfolding(crate::specs::Jobs::called))]
    fn call(&mut self, call: &CallSpec) -> Result<(), AllocError>
        ensures { OnOk result (self.new ≡ called self.old call.now) }
    {
        self.firmware.call_runtime(call)?;
        self.steps = 0;
        self.bound = call.bound;
        Ok(())
    }
}

impl Firmware {
    /// The entry point of the image of a handle, if it is loaded and wasn't started.
    fn fresh_entry(&self, handle: u64) -> Option<u64>
        ensures { result ≡ fresh_entry (find_image self.now.images handle) }
    {
        match self.images.find(handle) {
            Some(image) => {
                if image.started {
                    None
                } else {
                    Some(image.entry)
                }
            }
            None => None,
        }
    }
}

/// Begins a job. False where its image isn't loaded or was started before, where an image is to start and boot services are over,
/// or where code is to be called and they last; then nothing changes. After want of memory the machine may only be dropped.
#[tactic(auto, unfolding(crate::specs::Jobs::begun))]
pub fn begin(machine: &mut Machine, job: &Job) -> Result<bool, AllocError>
    ensures { IfOk result (λ begins. record { begins = begins; state = machine.new } ≡ begun machine.old job.now) }
{
    match job {
        Job::Start { handle, bound } => {
            if machine.firmware.runtime.gone {
                return Ok(false);
            }
            match machine.firmware.fresh_entry(*handle) {
                Some(entry) => {
                    machine.start(*handle, entry, *bound)?;
                    Ok(true)
                }
                None => Ok(false),
            }
        }
        Job::Call { call } => {
            if !machine.firmware.runtime.gone {
                return Ok(false);
            }
            machine.call(call)?;
            Ok(true)
        }
    }
}

/// Makes one turn. One that doesn't end the job brings its end nearer.
#[tactic(auto, using(crate::proofs::NearerLemmas::nearer))]
fn make_turn(alloc: Global, machine: &mut Machine) -> Result<Happened, AllocError>
    ensures turn { IfOk result (λ h. record { happened = h; state = machine.new } ≡ turn_of machine.old) }
    ensures nearer { IfOk result (λ h. h ≡ Turned → potential machine.new < potential machine.old) }
{
    machine.whole();
    machine.firmware.events.whole();
    next_is_above();
    ticks_once();
    step_machine(alloc, machine)
}

/// Makes turns up to the next one that says a line or ends the job. After want of memory the machine may only be dropped.
pub fn run_machine(alloc: Global, machine: &mut Machine) -> Result<Happened, AllocError>
    ensures { IfOk result (λ happened. Says happened machine.old machine.new) }
{
    machine.whole();
    jobs_are_turns();
    loop {
        let end = machine.quiet_end();
        match machine.run_plain(end) {
            Ok(_) => {}
            Err(_) => return Err(AllocError),
        }
        match make_turn(alloc, machine) {
            Ok(Happened::Turned) => {}
            Ok(Happened::Said(line)) => return Ok(Happened::Said(line)),
            Ok(Happened::Left { value, steps }) => return Ok(Happened::Left { value, steps }),
            Ok(Happened::Trapped { cause, steps }) => {
                return Ok(Happened::Trapped { cause, steps });
            }
            Ok(Happened::Reset { kind, status }) => return Ok(Happened::Reset { kind, status }),
            Ok(Happened::Halted(halt)) => return Ok(Happened::Halted(halt)),
            Err(_) => return Err(AllocError),
        }
    }
}
