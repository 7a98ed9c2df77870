//! The end of boot services, over the parts that it reads and changes (UEFI 2.10, 7.4.6).
ghost use Rattle.std.specs.Prelude.{◌≡◌, not, true, length, if◌then◌else◌, IfOk, OnOk};
ghost use Rattle.guest_memory.specs.Pages.{page_of, is_touched};
ghost use Rattle.std.specs.List.{list_any};
ghost use Rattle.memory_map.specs.Map.{map_of};
ghost use Rattle.page_alloc.specs.Layout.{IsLayout};
ghost use Rattle.runtime_view.specs.Views.{window_count};
ghost use Rattle.boot_exit.specs.Exits.{with_room, lacks_room, exit_finished};
ghost use Rattle.firmware_core.specs.Services.{with_memory};
ghost use Rattle.firmware_core.specs.BootEnd.{exit_address, is_notified, is_ending, goes_back_to, exit_is_under_way, exit_asked, with_exit, exit_called, Remain, with_finish, exit_answered, exit_notified, at_exit_boot_services};

use crate::conclusion::Conclusion;
use crate::firmware::Firmware;
use crate::frame::{Frame, Hart, Phase};
use crate::opening::layout_spreads;
use address_view::{CodePage, Window};
use boot_exit::{ExitRefusal, begin_exit, finish_exit, make_room};
use guest_memory::PutEnd;
use map_faults::Kept;
use memory_map::{Descriptor, descriptors, map_is_map};
use page_alloc::{Layout, PageMap};
use record_text::Cause;
use runtime_view::window_count;
use std::alloc::{AllocError, Global};
use uh_base::EfiStatus;

/// TPL_APPLICATION, the level at which boot services may be ended.
const APPLICATION_LEVEL: u8 = 4;

/// A window of nothing.
const NO_WINDOW: Window = Window {
    virt: 0,
    phys: 0,
    len: 0,
};

/// The address of the slot of ExitBootServices.
pub(crate) fn exit_address(layout: &Layout) -> u64
    requires { IsLayout layout.now }
    ensures { result ≡ exit_address layout.now }
{
    layout_spreads(layout);
    layout.slots + 16 * 26
}

/// Whether a service comes again behind its notifications.
fn is_notified(phase: Phase) -> bool
    ensures { result ≡ is_notified phase }
{
    match phase {
        Phase::Called => false,
        Phase::Notified => true,
        Phase::Renewed => false,
    }
}

impl Hart {
    /// Whether it stands at the slot of ExitBootServices, whose address is given, behind the notifications.
    pub(crate) fn is_ending(&self, address: u64) -> bool
        ensures { result ≡ is_ending address self.now }
    {
        self.regs.pc == address && is_notified(self.phase)
    }
}

/// Whether one of some frames goes back to ExitBootServices, behind its begin.
fn some_goes_back(frames: &[Frame], address: u64) -> bool
    ensures { result ≡ list_any (goes_back_to address) frames.now }
{
    frames.iter().any(|frame| frame.back.is_ending(address))
}

/// What stays when boot services end.
#[derive(Drop)]
struct Remains {
    descriptors: Vec<Descriptor>,
    kept: Vec<Kept>,
    room: Vec<Window>,
}

/// Room for the windows of the view after a map.
fn make_windows(
    alloc: Global,
    pages: &PageMap,
    layout: &Layout,
    list: &[Descriptor],
) -> Result<Vec<Window>, AllocError>
    requires layout { IsLayout layout.now }
    requires base { pages.now.base ≡ layout.now.base }
    requires count { length pages.now.pages ≡ layout.now.pages }
    requires list { list.now ≡ map_of pages.now }
    ensures { IfOk result (λ room. length room.items ≡ window_count layout.now (map_of pages.now)) }
{
    map_is_map();
    vec![in alloc; NO_WINDOW; window_count(layout, list)]
}

impl Firmware {
    /// Whether boot services are being ended: a notification of that runs.
    fn exit_is_under_way(&self) -> bool
        ensures { result ≡ exit_is_under_way self.now }
    {
        self.whole();
        let runtime = &self.runtime;
        some_goes_back(self.frames.as_slice(), exit_address(&runtime.layout))
    }

    /// Begins the end of boot services for the image of a handle, with a key of the memory map.
    pub(crate) fn begin_exit(&mut self, handle: u64, key: u64) -> Result<(), ExitRefusal>
        ensures answer { result ≡ exit_asked self.old handle key }
        ensures firmware { self.new ≡ with_exit self.old result }
    {
        let known = self.images.find(handle).is_some();
        let runtime = &self.runtime;
        begin_exit(known, &runtime.pages, &mut self.events, key)
    }

    /// ExitBootServices, as it is called.
    fn exit_called(&mut self) -> Conclusion
        ensures { record { conclusion = result; firmware = self.new } ≡ exit_called self.old }
    {
        if self.hart.tpl != APPLICATION_LEVEL {
            return Conclusion::Halts(Cause::Tpl);
        }
        if self.exit_is_under_way() {
            return Conclusion::Answers(EfiStatus::INVALID_PARAMETER.0);
        }
        match self.begin_exit(self.given(0), self.given(1)) {
            Ok(()) => {
                self.hart.phase = Phase::Notified;
                Conclusion::Continues
            }
            Err(ExitRefusal::Unknown) => Conclusion::Answers(EfiStatus::INVALID_PARAMETER.0),
            Err(ExitRefusal::Key(_)) => Conclusion::Answers(EfiStatus::INVALID_PARAMETER.0),
        }
    }

    /// What stays when boot services end.
    fn remains(&self, alloc: Global) -> Result<Remains, AllocError>
        ensures { IfOk result (λ r. Remain self.now r.descriptors.items r.kept.items (length r.room.items)) }
    {
        self.whole();
        let runtime = &self.runtime;
        let descriptors = descriptors(alloc, &runtime.pages)?;
        let kept = self.images.kept_drivers(alloc)?;
        let room = make_windows(
            alloc,
            &runtime.pages,
            &runtime.layout,
            descriptors.as_slice(),
        )?;
        Ok(Remains {
            descriptors,
            kept,
            room,
        })
    }

    /// Touches the page of the system table. False where no frame is left for it; then nothing changes.
    fn make_room(&mut self) -> Result<bool, AllocError>
        ensures room { IfOk result (λ room. room ≡ not (lacks_room self.old.runtime.layout self.old.runtime.memory)) }
        ensures firmware { IfOk result (λ room. self.new ≡ (if room then with_memory self.old (with_room self.old.runtime.layout self.old.runtime.memory) else self.old)) }
        ensures touched { IfOk result (λ room. room ≡ true → is_touched self.new.runtime.memory (page_of self.new.runtime.memory self.new.runtime.layout.system) ≡ true) }
    {
        self.whole();
        self.code = CodePage::none();
        let runtime = &mut self.runtime;
        match make_room(&runtime.layout, &mut runtime.memory) {
            Ok(()) => Ok(true),
            Err(PutEnd::Frames) => Ok(false),
            Err(PutEnd::Memory) => Err(AllocError),
            Err(PutEnd::Outside) => unreachable!(),
        }
    }

    /// Ends boot services.
    fn finish(&mut self, remains: Remains) -> Result<(), AllocError>
        requires remain { Remain self.old remains.descriptors.items remains.kept.items (length remains.room.items) }
        requires touched { is_touched self.old.runtime.memory (page_of self.old.runtime.memory self.old.runtime.layout.system) ≡ true }
        ensures { OnOk result (self.new ≡ with_finish self.old (exit_finished self.old.runtime.layout self.old.runtime.memory self.old.events)) }
    {
        self.whole();
        self.code = CodePage::none();
        let Remains {
            descriptors,
            kept,
            room,
        } = remains;
        let events = &mut self.events;
        let runtime = &mut self.runtime;
        let notifies = finish_exit(&runtime.layout, &mut runtime.memory, events)?;
        runtime.descriptors = descriptors;
        runtime.kept = kept;
        runtime.notifies = notifies;
        runtime.room = room;
        runtime.gone = true;
        Ok(())
    }

    /// Answers the caller of ExitBootServices, or ends the job that it is.
    fn answer_exit(&mut self) -> Conclusion
        ensures { record { conclusion = result; firmware = self.new } ≡ exit_answered self.old }
    {
        if self.frames.is_empty() {
            self.hart.phase = Phase::Called;
            return Conclusion::Leaves(EfiStatus::SUCCESS.0);
        }
        Conclusion::Answers(EfiStatus::SUCCESS.0)
    }

    /// ExitBootServices, behind the notifications of its events. All that stays is made before anything changes.
    fn exit_notified(&mut self, alloc: Global) -> Result<Conclusion, AllocError>
        ensures { IfOk result (λ c. record { conclusion = c; firmware = self.new } ≡ exit_notified self.old) }
    {
        let remains = self.remains(alloc)?;
        if !self.make_room()? {
            return Ok(Conclusion::Halts(Cause::Frames));
        }
        self.finish(remains)?;
        Ok(self.answer_exit())
    }

    /// ExitBootServices (UEFI 2.10, 7.4.6).
    #[tactic(auto, unfolding(crate::specs::BootEnd::at_exit_boot_services))]
    pub(crate) fn at_exit_boot_services(&mut self, alloc: Global) -> Result<Conclusion, AllocError>
        ensures { IfOk result (λ c. record { conclusion = c; firmware = self.new } ≡ at_exit_boot_services self.old) }
    {
        match self.hart.phase {
            Phase::Called => Ok(self.exit_called()),
            Phase::Notified => self.exit_notified(alloc),
            Phase::Renewed => self.exit_notified(alloc),
        }
    }
}
