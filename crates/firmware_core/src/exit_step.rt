//! The end of boot services that a host asks for in place of an image (UEFI 2.10, 7.4.6).
ghost use Rattle.std.specs.Prelude.{◌≡◌, true, IfOk};
ghost use Rattle.std.specs.Result.{is_ok};
ghost use Rattle.firmware_core.specs.ExitSteps.{exit_hart, with_exit_job, key_or, exited_at_boot, exited};

use crate::boot_end::exit_address;
use crate::firmware::Firmware;
use crate::frame::{Hart, Phase};
use crate::machine::Machine;
use boot_exit::ExitRefusal;
use rv_step::Regs;
use std::alloc::AllocError;
use uh_base::EfiStatus;

/// The most steps that the notifications and the finish take.
const BOUND: u64 = 1_000_000;

/// The key that is given, or else the present one.
fn key_or(present: u64, key: Option<u64>) -> u64
    ensures { result ≡ key_or present key }
{
    match key {
        Some(key) => key,
        None => present,
    }
}

impl Firmware {
    /// The hart at the slot of ExitBootServices, behind its begin, with no caller.
    fn exit_hart(&self) -> Hart
        ensures { result ≡ exit_hart self.now.runtime.layout self.now.hart.tpl }
    {
        self.whole();
        let runtime = &self.runtime;
        let mut x = [0; 32];
        x[2] = runtime.layout.boot;
        Hart {
            regs: Regs {
                x,
                pc: exit_address(&runtime.layout),
            },
            phase: Phase::Notified,
            tpl: self.hart.tpl,
        }
    }
}

impl Machine {
    /// Begins the job that finishes the end of boot services.
    fn begin_exit_job(&mut self)
        ensures { self.new ≡ with_exit_job self.old self.old.firmware }
    {
        self.firmware.hart = self.firmware.exit_hart();
        self.steps = 0;
        self.bound = BOUND;
    }

    /// Ends boot services while they last.
    #[tactic(auto, unfolding(crate::specs::ExitSteps::exited_at_boot))]
    fn exit_at_boot(&mut self, handle: u64, key: Option<u64>) -> EfiStatus
        ensures { record { status = result.0; state = self.new } ≡ exited_at_boot self.old handle key }
    {
        let present = self.firmware.runtime.pages.key();
        match self.firmware.begin_exit(handle, key_or(present, key)) {
            Ok(()) => {
                self.begin_exit_job();
                EfiStatus::SUCCESS
            }
            Err(ExitRefusal::Unknown) => EfiStatus::INVALID_PARAMETER,
            Err(ExitRefusal::Key(_)) => EfiStatus::INVALID_PARAMETER,
        }
    }

    /// Begins the end of boot services for the image of a handle, with a key of the memory map or else the present one, and
    /// answers the status: EFI_UNSUPPORTED where they are over, and EFI_INVALID_PARAMETER where no loaded image has the handle or
    /// the key isn't the present one; then nothing changes. Else a job of at most 1,000,000 steps is under way, whose turns run
    /// the notifications of that and then end boot services; it leaves with 0. No job is to be under way before. It never lacks
    /// memory.
    #[tactic(auto, unfolding(crate::specs::ExitSteps::exited))]
    pub fn exit_boot(&mut self, handle: u64, key: Option<u64>) -> Result<EfiStatus, AllocError>
        ensures exit { IfOk result (λ status. record { status = status.0; state = self.new } ≡ exited self.old handle key) }
        ensures answers { is_ok result ≡ true }
    {
        if self.firmware.runtime.gone {
            return Ok(EfiStatus::UNSUPPORTED);
        }
        Ok(self.exit_at_boot(handle, key))
    }
}
