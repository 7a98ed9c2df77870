//! The firmware: all that services and instructions read and change.
ghost use Rattle.std.specs.Prelude.{◌≡◌, ◌≢◌, ◌≤◌, IfOk, IfNone, OnOk, OnSome, is_some, true};
ghost use Rattle.page_alloc.specs.Layout.{IsRam};
ghost use Rattle.rv_step.specs.declared.ends.StepEnd.TheVariants as ends;
ghost use Rattle.firmware_core.specs.Opening.{opened};
ghost use Rattle.firmware_core.specs.Parts.{Whole};
ghost use Rattle.firmware_core.specs.Frames.{answered, aligned_stack, is_runtime, in_call, call_over, top_of, returns_to_slot, with_image, tick_is_due, with_tick, is_full, pushed, registers_for, notice_of, without_notice, with_notification};
ghost use Rattle.firmware_core.specs.Turns.{is_returning, slot_at, passed, Instructed, instructed};

use crate::frame::{Frame, Hart, Phase, Purpose};
use crate::opening::{layout_spreads, runtime_at, with_console};
use address_view::CodePage;
use event_queue::{Events, Notify};
use image_services::Images;
use pool_alloc::Pool;
use protocol_db::Protocols;
use rv_decode::KnownWords;
use rv_step::{Regs, StepEnd};
use std::alloc::{AllocError, Global};
use std::marker::Model;
use std::mem::replace;
use time_service::Clock;
use variable_store::Variables;
use virtual_map::{RuntimeState, instruction};

/// All that services and instructions read and change.
#[derive(Drop)]
pub struct Firmware {
    pub(crate) hart: Hart,
    /// What runs, the outermost first.
    pub(crate) frames: Vec<Frame>,
    /// The moment, in units of 100 ns since opening.
    pub(crate) time: u64,
    pub(crate) runtime: RuntimeState,
    pub(crate) pool: Pool,
    pub(crate) images: Images,
    pub(crate) protocols: Protocols,
    pub(crate) events: Events,
    pub(crate) variables: Variables,
    pub(crate) clock: Clock,
    /// The monotonic count.
    pub(crate) count: u64,
    /// a0 at the end of the last call by the host, until it is taken.
    pub(crate) returned: Option<u64>,
    /// What words were read as.
    pub(crate) known: KnownWords,
    /// The page that the last instruction was fetched from. Whatever changes memory's rights forgets it.
    pub(crate) code: CodePage,
}

impl Model for Firmware {
    ghost use Rattle.address_view.specs.Windows.{see};
    ghost use Rattle.address_view.specs.Seen.{IsCode};
    ghost use Rattle.firmware_core.specs.Parts.{Parts, Whole};

    ghost Value = { Parts };

    ghost view = { λ f. record { hart = f.hart; frames = f.frames.items; time = f.time; runtime = f.runtime; pool = f.pool; images = f.images; protocols = f.protocols; events = f.events; variables = f.variables; clock = f.clock; count = f.count; returned = f.returned } };

    ghost invariant = { λ f. Whole (record { hart = f.hart; frames = f.frames.items; time = f.time; runtime = f.runtime; pool = f.pool; images = f.images; protocols = f.protocols; events = f.events; variables = f.variables; clock = f.clock; count = f.count; returned = f.returned }) × IsCode (see f.runtime.view) f.runtime.memory f.code };
}

/// Whether what began is a call of runtime code by the operating system.
fn is_runtime(purpose: Purpose) -> bool
    ensures { result ≡ is_runtime purpose }
{
    match purpose {
        Purpose::Job(_) => false,
        Purpose::Image(_) => false,
        Purpose::Call => false,
        Purpose::Runtime => true,
        Purpose::Notification => false,
    }
}

/// The most frames that stand, by this host's choice.
const MOST_FRAMES: usize = 64;

impl Firmware {
    /// The firmware at opening, over so many pages of RAM from an address on, with tick moments beside the usual ones, a clock
    /// and variables.
    #[tactic(auto, unfolding(crate::specs::Opening::opened))]
    pub(crate) fn new(
        alloc: Global,
        base: u64,
        pages: u32,
        ticks: Vec<u64>,
        clock: Clock,
        variables: Variables,
    ) -> Result<Firmware, AllocError>
        requires ram { IsRam base pages }
        requires clock { clock.set_at ≡ 0 }
        ensures { IfOk result (λ f. f ≡ opened base pages ticks.items clock variables) }
    {
        let known = KnownWords::new(alloc)?;
        let runtime = runtime_at(alloc, base, pages)?;
        let protocols = with_console(alloc, &runtime.layout)?;
        let frames = Vec::with_capacity(alloc, MOST_FRAMES)?;
        let events = Events::new(alloc, ticks)?;
        Ok(Firmware {
            hart: Hart {
                regs: Regs { x: [0; 32], pc: 0 },
                phase: Phase::Called,
                tpl: 4,
            },
            frames,
            time: 0,
            runtime,
            pool: Pool::new(alloc),
            images: Images::new(alloc),
            protocols,
            events,
            variables,
            clock,
            count: 0,
            returned: None,
            known,
            code: CodePage::none(),
        })
    }

    /// What is so of every firmware.
    pub(crate) fn whole(&self)
        ensures { Whole self.now }
    {
        let _ = &self.time;
    }

    /// The program counter.
    #[inline(always)]
    pub(crate) fn pc(&self) -> u64
        ensures { result ≡ self.now.hart.pc }
    {
        self.hart.regs.pc
    }

    /// Whether a call of runtime code by the operating system is under way.
    pub(crate) fn in_call(&self) -> bool
        ensures { result ≡ in_call self.now }
    {
        match self.frames.first() {
            Some(frame) => is_runtime(frame.purpose),
            None => false,
        }
    }

    /// A call of runtime code is over.
    pub(crate) fn end_call(&mut self)
        ensures { self.new ≡ call_over self.old }
    {
        self.frames.clear();
    }

    /// Whether the innermost frame is one that slot 67 ends.
    fn returns_to_slot(&self) -> bool
        ensures { result ≡ returns_to_slot (top_of self.now.frames) }
    {
        match self.frames.last() {
            Some(frame) => !is_runtime(frame.purpose),
            None => false,
        }
    }

    /// Whether a call of runtime code returns at the program counter.
    #[inline(always)]
    pub(crate) fn is_returning(&self) -> bool
        ensures { result ≡ is_returning self.now }
    {
        self.hart.regs.pc == self.runtime.layout.os_return && self.in_call()
    }

    /// The slot that the program counter is at.
    #[inline(always)]
    pub(crate) fn slot_at(&self) -> Option<u8>
        ensures { result ≡ slot_at self.now }
    {
        let slots = self.runtime.layout.slots;
        if self.hart.regs.pc < slots {
            return None;
        }
        let offset = self.hart.regs.pc - slots;
        if offset % 16 == 0
            && offset <= 16 * 67
            && offset != 16 * 17
            && (offset != 16 * 67 || self.returns_to_slot())
        {
            Some((offset / 16) as u8)
        } else {
            None
        }
    }

    /// Sets a0 and continues at ra.
    pub(crate) fn answer(&mut self, a0: u64)
        ensures { self.new ≡ answered self.old a0 }
    {
        self.hart.regs.pc = self.hart.regs.x[1];
        self.hart.regs.x[10] = a0;
        self.hart.phase = Phase::Called;
    }

    /// What code begins with: its return address, its stack and two arguments.
    pub(crate) fn registers_for(&self, sp: u64, a0: u64, a1: u64) -> [u64; 32]
        ensures { result ≡ registers_for self.now.runtime.layout sp a0 a1 }
    {
        self.whole();
        let runtime = &self.runtime;
        layout_spreads(&runtime.layout);
        let mut x = [0; 32];
        x[1] = runtime.layout.slots + 16 * 67;
        x[2] = sp;
        x[10] = a0;
        x[11] = a1;
        x
    }

    /// Begins other code. Its caller is kept.
    pub(crate) fn push(&mut self, purpose: Purpose, hart: Hart) -> Result<(), AllocError>
        ensures { OnOk result (self.new ≡ pushed self.old purpose hart) }
    {
        let back = replace(&mut self.hart, hart);
        self.frames.push(Frame { purpose, back })?;
        Ok(())
    }

    /// The stack pointer of the code that runs, rounded down to 16.
    pub(crate) fn aligned_stack(&self) -> u64
        ensures { result ≡ aligned_stack self.now }
    {
        let regs = &self.hart.regs;
        let sp = regs.x[2];
        sp - sp % 16
    }

    /// Begins the image of a handle at its entry point, on a stack.
    #[tactic(auto, unfolding(crate::specs::Frames::with_image))]
    pub(crate) fn start(
        &mut self,
        purpose: Purpose,
        handle: u64,
        sp: u64,
        entry: u64,
    ) -> Result<(), AllocError>
        ensures { OnOk result (self.new ≡ with_image self.old purpose handle sp entry) }
    {
        let runtime = &self.runtime;
        let x = self.registers_for(sp, handle, runtime.layout.system);
        let hart = Hart {
            regs: Regs { x, pc: entry },
            phase: Phase::Called,
            tpl: self.hart.tpl,
        };
        self.push(purpose, hart)?;
        self.images.mark(handle);
        Ok(())
    }

    /// A unit of time passes.
    #[inline(always)]
    pub(crate) fn pass(&mut self)
        ensures { self.new ≡ passed self.old }
    {
        self.time = self.time.saturating_add(1);
    }

    /// Whether a tick is due.
    #[inline(always)]
    pub(crate) fn tick_is_due(&self) -> bool
        ensures { result ≡ tick_is_due self.now }
    {
        !self.runtime.gone && self.events.has_tick(self.time)
    }

    /// The tick that is due.
    #[tactic(auto, unfolding(event_queue::specs::Timers::after_tick))]
    pub(crate) fn tick(&mut self)
        requires { tick_is_due self.old ≡ true }
        ensures { self.new ≡ with_tick self.old }
    {
        self.events.tick(self.time);
    }

    /// Whether a notification comes next.
    #[inline(always)]
    pub(crate) fn has_notice(&self) -> bool
        ensures { result ≡ is_some (notice_of self.now) }
    {
        self.events.has_next(self.hart.tpl)
    }

    /// Takes the notification that comes next.
    pub(crate) fn take_notice(&mut self) -> Option<Notify>
        ensures answer { result ≡ notice_of self.old }
        ensures firmware { self.new ≡ without_notice self.old }
        ensures kept { IfNone result (self.new ≡ self.old) }
    {
        self.events.next(self.hart.tpl)
    }

    /// Whether no further frame can be pushed.
    pub(crate) fn is_full(&self) -> bool
        ensures { result ≡ is_full self.now }
    {
        self.frames.len() >= MOST_FRAMES
    }

    /// Begins a notification's function.
    #[tactic(auto, unfolding(crate::specs::Frames::with_notification))]
    pub(crate) fn notify(&mut self, notify: Notify) -> Result<(), AllocError>
        ensures { OnOk result (self.new ≡ with_notification self.old notify) }
    {
        let x = self.registers_for(self.aligned_stack(), notify.event, notify.context);
        let hart = Hart {
            regs: Regs {
                x,
                pc: notify.function,
            },
            phase: Phase::Called,
            tpl: notify.tpl,
        };
        self.push(Purpose::Notification, hart)
    }

    /// The instruction at the program counter.
    #[tactic(auto, unfolding(crate::specs::Turns::instructed))]
    #[inline(always)]
    pub(crate) fn instruct(&mut self) -> StepEnd
        ensures { result ≢ ends.Memory → record { end = result; firmware = self.new } ≡ instructed self.old }
    {
        let known = &mut self.known;
        let code = &mut self.code;
        let regs = &mut self.hart.regs;
        instruction(known, code, regs, &mut self.runtime)
    }
}
