//! The services on events and levels, over the parts that each reads and changes.
ghost use Rattle.std.specs.Prelude.{◌≡◌, IfOk};
ghost use Rattle.firmware_core.specs.declared.frame.Phase.TheVariants as phases;
ghost use Rattle.firmware_core.specs.EventSlots.{level_set, phase_set, awaited_to, at_raise_tpl, at_restore_tpl, at_create_event, at_create_event_ex, at_set_timer, at_signal_event, at_close_event, at_register_protocol_notify, check_by, at_check_event, wait_by, at_wait_for_event, at_stall, serve_event};

use crate::conclusion::Conclusion;
use crate::event_service::EventService;
use crate::firmware::Firmware;
use crate::frame::Phase;
use crate::serving::served;
use address_view::CodePage;
use event_services::{
    Awaited, LevelSet, check_event, check_event_notified, close_event, create_event,
    create_event_ex, raise_tpl, register_protocol_notify, restore_tpl, set_timer,
    set_watchdog_timer, signal_event, stall, wait_anew, wait_for_event, wait_for_signal,
};
use record_text::Cause;
use std::alloc::{AllocError, Global};

/// What an answer of a service that comes in several turns comes to.
fn awaited_to(answer: Awaited) -> Conclusion
    ensures { result ≡ awaited_to answer }
{
    match answer {
        Awaited::Answers(a0) => Conclusion::Answers(a0),
        Awaited::GoesOn => Conclusion::Continues,
        Awaited::LacksFrames => Conclusion::Halts(Cause::Frames),
        Awaited::Idle => Conclusion::Halts(Cause::Idle),
    }
}

impl Firmware {
    /// Sets the level, where it may be set.
    fn set_level(&mut self, set: Option<LevelSet>) -> Conclusion
        ensures { record { conclusion = result; firmware = self.new } ≡ level_set self.old set }
    {
        match set {
            Some(set) => {
                self.hart.tpl = set.tpl;
                Conclusion::Answers(set.value)
            }
            None => Conclusion::Halts(Cause::Tpl),
        }
    }

    /// RaiseTPL (UEFI 2.10, 7.1.8).
    #[tactic(auto, unfolding(crate::specs::EventSlots::at_raise_tpl))]
    fn at_raise_tpl(&mut self) -> Conclusion
        ensures { record { conclusion = result; firmware = self.new } ≡ at_raise_tpl self.old }
    {
        let regs = &self.hart.regs;
        let set = raise_tpl(&regs.x, self.hart.tpl);
        self.set_level(set)
    }

    /// RestoreTPL (UEFI 2.10, 7.1.9).
    #[tactic(auto, unfolding(crate::specs::EventSlots::at_restore_tpl))]
    fn at_restore_tpl(&mut self) -> Conclusion
        ensures { record { conclusion = result; firmware = self.new } ≡ at_restore_tpl self.old }
    {
        let regs = &self.hart.regs;
        let set = restore_tpl(&regs.x, self.hart.tpl);
        self.set_level(set)
    }

    /// CreateEvent (UEFI 2.10, 7.1.1).
    #[tactic(auto, unfolding(crate::specs::EventSlots::at_create_event))]
    fn at_create_event(&mut self, alloc: Global) -> Result<Conclusion, AllocError>
        ensures { IfOk result (λ c. record { conclusion = c; firmware = self.new } ≡ at_create_event self.old) }
    {
        self.whole();
        self.code = CodePage::none();
        let regs = &self.hart.regs;
        let events = &mut self.events;
        let runtime = &mut self.runtime;
        let answer = create_event(alloc, &regs.x, &runtime.view, &mut runtime.memory, events)?;
        Ok(served(&answer))
    }

    /// CreateEventEx (UEFI 2.10, 7.1.2).
    #[tactic(auto, unfolding(crate::specs::EventSlots::at_create_event_ex))]
    fn at_create_event_ex(&mut self, alloc: Global) -> Result<Conclusion, AllocError>
        ensures { IfOk result (λ c. record { conclusion = c; firmware = self.new } ≡ at_create_event_ex self.old) }
    {
        self.whole();
        self.code = CodePage::none();
        let regs = &self.hart.regs;
        let events = &mut self.events;
        let runtime = &mut self.runtime;
        let answer = create_event_ex(alloc, &regs.x, &runtime.view, &mut runtime.memory, events)?;
        Ok(served(&answer))
    }

    /// SetTimer (UEFI 2.10, 7.1.7).
    #[tactic(auto, unfolding(crate::specs::EventSlots::at_set_timer))]
    fn at_set_timer(&mut self, alloc: Global) -> Conclusion
        ensures { record { conclusion = result; firmware = self.new } ≡ at_set_timer self.old }
    {
        let regs = &self.hart.regs;
        served(&set_timer(alloc, &regs.x, self.time, &mut self.events))
    }

    /// SignalEvent (UEFI 2.10, 7.1.4).
    #[tactic(auto, unfolding(crate::specs::EventSlots::at_signal_event))]
    fn at_signal_event(&mut self, alloc: Global) -> Conclusion
        ensures { record { conclusion = result; firmware = self.new } ≡ at_signal_event self.old }
    {
        let regs = &self.hart.regs;
        served(&signal_event(alloc, &regs.x, &mut self.events))
    }

    /// CloseEvent (UEFI 2.10, 7.1.3).
    #[tactic(auto, unfolding(crate::specs::EventSlots::at_close_event))]
    fn at_close_event(&mut self, alloc: Global) -> Conclusion
        ensures { record { conclusion = result; firmware = self.new } ≡ at_close_event self.old }
    {
        let regs = &self.hart.regs;
        let protocols = &mut self.protocols;
        served(&close_event(alloc, &regs.x, &mut self.events, protocols))
    }

    /// RegisterProtocolNotify (UEFI 2.10, 7.3.5).
    #[tactic(auto, unfolding(crate::specs::EventSlots::at_register_protocol_notify))]
    fn at_register_protocol_notify(&mut self, alloc: Global) -> Result<Conclusion, AllocError>
        ensures { IfOk result (λ c. record { conclusion = c; firmware = self.new } ≡ at_register_protocol_notify self.old) }
    {
        self.whole();
        self.code = CodePage::none();
        let regs = &self.hart.regs;
        let protocols = &mut self.protocols;
        let runtime = &mut self.runtime;
        let answer = register_protocol_notify(
            alloc,
            &regs.x,
            &runtime.view,
            &mut runtime.memory,
            &self.events,
            protocols,
        )?;
        Ok(served(&answer))
    }

    /// Where a service goes on, it comes again in its next phase.
    fn set_phase(&mut self, phase: Phase, answer: Awaited) -> Conclusion
        ensures conclusion { result ≡ awaited_to answer }
        ensures firmware { self.new ≡ phase_set self.old phase answer }
    {
        match answer {
            Awaited::Answers(a0) => awaited_to(Awaited::Answers(a0)),
            Awaited::GoesOn => {
                self.hart.phase = phase;
                awaited_to(Awaited::GoesOn)
            }
            Awaited::LacksFrames => awaited_to(Awaited::LacksFrames),
            Awaited::Idle => awaited_to(Awaited::Idle),
        }
    }

    /// CheckEvent (UEFI 2.10, 7.1.6).
    #[tactic(auto, unfolding(crate::specs::EventSlots::at_check_event))]
    fn at_check_event(&mut self) -> Conclusion
        ensures { record { conclusion = result; firmware = self.new } ≡ at_check_event self.old }
    {
        let regs = &self.hart.regs;
        let answer = match self.hart.phase {
            Phase::Called => check_event(&regs.x, &mut self.events),
            Phase::Notified => check_event_notified(&regs.x, &mut self.events),
            Phase::Renewed => check_event_notified(&regs.x, &mut self.events),
        };
        self.set_phase(Phase::Notified, answer)
    }

    /// WaitForEvent, as it is called.
    fn wait_called(&mut self) -> Result<Conclusion, AllocError>
        ensures { IfOk result (λ c. record { conclusion = c; firmware = self.new } ≡ wait_by phases.Called self.old) }
    {
        self.whole();
        self.code = CodePage::none();
        let regs = &self.hart.regs;
        let tpl = self.hart.tpl;
        let events = &mut self.events;
        let runtime = &mut self.runtime;
        let answer = wait_for_event(&regs.x, tpl, &runtime.view, &mut runtime.memory, events)?;
        Ok(self.set_phase(Phase::Notified, answer))
    }

    /// WaitForEvent, where it begins anew.
    fn wait_renewed(&mut self) -> Result<Conclusion, AllocError>
        ensures { IfOk result (λ c. record { conclusion = c; firmware = self.new } ≡ wait_by phases.Renewed self.old) }
    {
        self.whole();
        self.code = CodePage::none();
        let regs = &self.hart.regs;
        let events = &mut self.events;
        let runtime = &mut self.runtime;
        let answer = wait_anew(&regs.x, &runtime.view, &mut runtime.memory, events)?;
        Ok(self.set_phase(Phase::Notified, answer))
    }

    /// WaitForEvent, behind the notifications of its events.
    fn wait_notified(&mut self) -> Result<Conclusion, AllocError>
        ensures { IfOk result (λ c. record { conclusion = c; firmware = self.new } ≡ wait_by phases.Notified self.old) }
    {
        self.whole();
        self.code = CodePage::none();
        let regs = &self.hart.regs;
        let events = &mut self.events;
        let time = &mut self.time;
        let runtime = &mut self.runtime;
        let answer = wait_for_signal(&regs.x, &runtime.view, &mut runtime.memory, events, time)?;
        Ok(self.set_phase(Phase::Renewed, answer))
    }

    /// WaitForEvent (UEFI 2.10, 7.1.5).
    #[tactic(auto, unfolding(crate::specs::EventSlots::at_wait_for_event))]
    fn at_wait_for_event(&mut self) -> Result<Conclusion, AllocError>
        ensures { IfOk result (λ c. record { conclusion = c; firmware = self.new } ≡ at_wait_for_event self.old) }
    {
        match self.hart.phase {
            Phase::Called => self.wait_called(),
            Phase::Notified => self.wait_notified(),
            Phase::Renewed => self.wait_renewed(),
        }
    }

    /// Stall (UEFI 2.10, 7.5.2).
    #[tactic(auto, unfolding(crate::specs::EventSlots::at_stall))]
    fn at_stall(&mut self, alloc: Global) -> Conclusion
        ensures { record { conclusion = result; firmware = self.new } ≡ at_stall self.old }
    {
        self.whole();
        let regs = &self.hart.regs;
        served(&stall(alloc, &regs.x, &mut self.time))
    }

    /// A service on events or levels.
    #[tactic(auto, unfolding(crate::specs::EventSlots::serve_event))]
    pub(crate) fn serve_event(
        &mut self,
        alloc: Global,
        service: EventService,
    ) -> Result<Conclusion, AllocError>
        ensures { IfOk result (λ c. record { conclusion = c; firmware = self.new } ≡ serve_event service self.old) }
    {
        match service {
            EventService::RaiseTpl => Ok(self.at_raise_tpl()),
            EventService::RestoreTpl => Ok(self.at_restore_tpl()),
            EventService::CreateEvent => self.at_create_event(alloc),
            EventService::SetTimer => Ok(self.at_set_timer(alloc)),
            EventService::WaitForEvent => self.at_wait_for_event(),
            EventService::SignalEvent => Ok(self.at_signal_event(alloc)),
            EventService::CloseEvent => Ok(self.at_close_event(alloc)),
            EventService::CheckEvent => Ok(self.at_check_event()),
            EventService::RegisterProtocolNotify => self.at_register_protocol_notify(alloc),
            EventService::Stall => Ok(self.at_stall(alloc)),
            EventService::SetWatchdogTimer => Ok(served(&set_watchdog_timer(alloc))),
            EventService::CreateEventEx => self.at_create_event_ex(alloc),
        }
    }
}
