//! The load of an image into a machine, and its unload.
ghost use Rattle.std.specs.Prelude.{◌≡◌, ◌≤◌, IfOk, true, length};
ghost use Rattle.std.specs.Result.{is_ok};
ghost use Rattle.image_services.specs.Loads.{load_of};
ghost use Rattle.image_services.specs.Unloads.{unloaded as image_unloaded};
ghost use Rattle.image_services.specs.Views.{LoadGives, UnloadGives};
ghost use Rattle.firmware_core.specs.Services.{store_of, with_store};
ghost use Rattle.firmware_core.specs.Loads.{signalled, loaded, loaded_at_boot, unloaded, unloaded_at_boot};

use crate::firmware::Firmware;
use crate::machine::Machine;
use address_view::CodePage;
use image_services::{LoadRefusal, UnloadRefusal, load_image, unload_image};
use protocol_db::Installed;
use std::alloc::{AllocError, Global};
use uh_base::EfiStatus;

impl Firmware {
    /// Loads the image of a file of at most 4 MiB without a parent.
    fn load(&mut self, alloc: Global, file: &[u8]) -> Result<Installed, LoadRefusal>
        requires { length file.now ≤ 0x400000 }
        ensures gives { LoadGives result (load_of self.old.runtime.layout (store_of self.old) file.now 0) (store_of self.old) (store_of self.new) }
        ensures rest { self.new ≡ with_store self.old (store_of self.new) }
    {
        self.whole();
        self.code = CodePage::none();
        let images = &mut self.images;
        let pool = &mut self.pool;
        let protocols = &mut self.protocols;
        let runtime = &mut self.runtime;
        load_image(
            alloc,
            images,
            &runtime.layout,
            &mut runtime.memory,
            &mut runtime.pages,
            pool,
            protocols,
            file,
            0,
        )
    }
}

impl Firmware {
    /// Unloads the image of a handle, unless it was started.
    fn try_unload(&mut self, handle: u64) -> Result<(), UnloadRefusal>
        ensures gives { UnloadGives result (image_unloaded (store_of self.old) handle) (store_of self.old) (store_of self.new) }
        ensures rest { self.new ≡ with_store self.old (store_of self.new) }
    {
        self.whole();
        self.code = CodePage::none();
        let images = &mut self.images;
        let pool = &mut self.pool;
        let protocols = &mut self.protocols;
        let runtime = &mut self.runtime;
        unload_image(
            images,
            &runtime.layout,
            &mut runtime.memory,
            &mut runtime.pages,
            pool,
            protocols,
            handle,
        )
    }
}

impl Firmware {
    /// Signals events.
    fn signal(&mut self, events: &[u64])
        ensures { self.new ≡ signalled self.old events.now }
    {
        self.events.signal_all(events);
    }
}

/// What a load answers where it is refused with a status.
fn refused(status: EfiStatus) -> (EfiStatus, u64, u64, u32)
    ensures status { result.0 ≡ status }
    ensures handle { result.1 ≡ 0 }
    ensures base { result.2 ≡ 0 }
    ensures pages { result.3 ≡ 0 }
{
    (status, 0, 0, 0)
}

/// Loads an image while boot services last.
#[tactic(auto, unfolding(crate::specs::Loads::loaded_at_boot))]
fn load_at_boot(
    alloc: Global,
    machine: &mut Machine,
    file: &[u8],
) -> Result<(EfiStatus, u64, u64, u32), AllocError>
    requires { length file.now ≤ 0x400000 }
    ensures { IfOk result (λ r. record { status = r.0.0; handle = r.1; base = r.2; pages = r.3; state = machine.new } ≡ loaded_at_boot machine.old file.now) }
{
    match machine.firmware.load(alloc, file) {
        Ok(loaded) => {
            machine.firmware.signal(loaded.events.as_slice());
            match machine.firmware.images.find(loaded.handle) {
                Some(image) => Ok((EfiStatus::SUCCESS, loaded.handle, image.base, image.pages)),
                None => Ok((EfiStatus::SUCCESS, 0, 0, 0)),
            }
        }
        Err(LoadRefusal::Memory) => Err(AllocError),
        Err(LoadRefusal::TooMany) => Ok(refused(LoadRefusal::TooMany.status())),
        Err(LoadRefusal::Pe(fault)) => Ok(refused(LoadRefusal::Pe(fault).status())),
        Err(LoadRefusal::Reloc(fault)) => Ok(refused(LoadRefusal::Reloc(fault).status())),
        Err(LoadRefusal::Placed) => Ok(refused(LoadRefusal::Placed.status())),
        Err(LoadRefusal::NoPages) => Ok(refused(LoadRefusal::NoPages.status())),
        Err(LoadRefusal::Full) => Ok(refused(LoadRefusal::Full.status())),
        Err(LoadRefusal::Frames) => Ok(refused(LoadRefusal::Frames.status())),
    }
}

/// Loads the image of a file of at most 4 MiB: the status, the handle, the base and the pages of 4,096 bytes, the last three 0
/// where the load is refused, with EFI_UNSUPPORTED where boot services are over. Then nothing changes. After want of memory the
/// machine may only be dropped.
#[tactic(auto, unfolding(crate::specs::Loads::loaded))]
pub fn load(
    alloc: Global,
    machine: &mut Machine,
    file: &[u8],
) -> Result<(EfiStatus, u64, u64, u32), AllocError>
    requires { length file.now ≤ 0x400000 }
    ensures { IfOk result (λ r. record { status = r.0.0; handle = r.1; base = r.2; pages = r.3; state = machine.new } ≡ loaded machine.old file.now) }
{
    if machine.firmware.runtime.gone {
        return Ok(refused(EfiStatus::UNSUPPORTED));
    }
    load_at_boot(alloc, machine, file)
}

/// Unloads an image while boot services last.
#[tactic(auto, unfolding(crate::specs::Loads::unloaded_at_boot))]
fn unload_at_boot(machine: &mut Machine, handle: u64) -> EfiStatus
    ensures { record { status = result.0; state = machine.new } ≡ unloaded_at_boot machine.old handle }
{
    match machine.firmware.try_unload(handle) {
        Ok(()) => EfiStatus::SUCCESS,
        Err(UnloadRefusal::Unknown) => EfiStatus::INVALID_PARAMETER,
        Err(UnloadRefusal::Started) => EfiStatus::UNSUPPORTED,
    }
}

/// Unloads the image of a handle, and answers the status: EFI_INVALID_PARAMETER where no loaded image has the handle, and
/// EFI_UNSUPPORTED where the image was started or boot services are over; then nothing changes. It never lacks memory.
#[tactic(auto, unfolding(crate::specs::Loads::unloaded))]
pub fn unload(machine: &mut Machine, handle: u64) -> Result<EfiStatus, AllocError>
    ensures unload { IfOk result (λ status. record { status = status.0; state = machine.new } ≡ unloaded machine.old handle) }
    ensures answers { is_ok result ≡ true }
{
    if machine.firmware.runtime.gone {
        return Ok(EfiStatus::UNSUPPORTED);
    }
    Ok(unload_at_boot(machine, handle))
}
