//! The machine.
ghost use Rattle.std.specs.Prelude.{◌≡◌, ◌≤◌, IfOk};
ghost use Rattle.std.specs.List.{list_any};
ghost use Rattle.page_alloc.specs.Layout.{IsRam};
ghost use Rattle.event_queue.specs.Queue.{Whole};
ghost use Rattle.firmware_core.specs.Loads.{has_image, is_of};
ghost use Rattle.firmware_core.specs.Opening.{opened};

use crate::firmware::Firmware;
use map_faults::Kept;
use page_alloc::PageMap;
use std::alloc::{AllocError, Global};
use std::marker::Model;
use time_service::Clock;
use variable_store::Variables;
use virtual_map::RuntimeState;

/// What a machine begins with.
#[derive(Drop)]
pub struct Setup {
    /// The address of the first byte of RAM.
    pub base: u64,
    /// How many pages of 4,096 bytes RAM has.
    pub pages: u32,
    /// Tick moments beside the multiples of 10,000, in units of 100 ns.
    pub ticks: Vec<u64>,
    /// The time at opening.
    pub clock: Clock,
    pub variables: Variables,
    /// Whether each answer of a service is a line.
    pub trace: bool,
}

/// The firmware with its hart, and the job under way.
#[derive(Drop)]
pub struct Machine {
    pub(crate) firmware: Firmware,
    /// The steps that were counted in the job.
    pub(crate) steps: u64,
    /// The most steps of the job.
    pub(crate) bound: u64,
    /// Whether each answer of a service is a line.
    pub(crate) trace: bool,
}

impl Model for Machine {
    ghost use Rattle.std.specs.Prelude.{◌≤◌};
    ghost use Rattle.firmware_core.specs.Turns.{State};

    ghost Value = { State };

    ghost view = { λ m. record { firmware = m.firmware; steps = m.steps; bound = m.bound; trace = m.trace } };

    ghost invariant = { λ m. m.steps ≤ m.bound };
}

/// Whether one of the images that were kept has a handle.
fn is_kept(kept: &[Kept], handle: u64) -> bool
    ensures { result ≡ list_any (is_of handle) kept.now }
{
    kept.iter().any(|image| image.handle == handle)
}

impl Machine {
    /// The machine at opening. No job is under way.
    pub fn new(alloc: Global, setup: Setup) -> Result<Machine, AllocError>
        requires ram { IsRam setup.base setup.pages }
        requires clock { setup.clock.set_at ≡ 0 }
        ensures { IfOk result (λ m. m ≡ record { firmware = opened setup.base setup.pages setup.ticks.items setup.clock setup.variables; steps = 0; bound = 0; trace = setup.trace }) }
    {
        let Setup {
            base,
            pages,
            ticks,
            clock,
            variables,
            trace,
        } = setup;
        Ok(Machine {
            firmware: Firmware::new(alloc, base, pages, ticks, clock, variables)?,
            steps: 0,
            bound: 0,
            trace,
        })
    }

    /// What is so of every machine.
    pub fn whole(&self)
        ensures { self.now.steps ≤ self.now.bound }
    {
        let _ = &self.steps;
    }

    /// The events of every machine are whole.
    pub fn events_are_whole(&self)
        ensures { Whole self.now.firmware.events }
    {
        self.firmware.events.whole();
    }

    /// Whether an image is loaded, by its handle; once boot services are over, whether it was kept.
    pub fn has_image(&self, handle: u64) -> bool
        ensures { result ≡ has_image self.now.firmware handle }
    {
        let runtime = &self.firmware.runtime;
        if runtime.gone {
            is_kept(runtime.kept.as_slice(), handle)
        } else {
            self.firmware.images.find(handle).is_some()
        }
    }

    /// The variables.
    pub fn variables(&self) -> &Variables
        ensures { result.now ≡ self.now.firmware.variables }
    {
        &self.firmware.variables
    }

    /// The runtime state: memory, its use and its view, and what outlives boot services.
    pub fn runtime(&self) -> &RuntimeState
        ensures { result.now ≡ self.now.firmware.runtime }
    {
        &self.firmware.runtime
    }

    /// The memory map.
    pub fn pages(&self) -> &PageMap
        ensures { result.now ≡ self.now.firmware.runtime.pages }
    {
        &self.firmware.runtime.pages
    }
}
