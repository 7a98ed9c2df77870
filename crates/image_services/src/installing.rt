//! The loaded image protocol on the handle of an image (UEFI 2.10, 9.1.1).
ghost use Rattle.std.specs.Prelude.{◌≡◌, None, Ok, IfOk, OnErr};
ghost use Rattle.protocol_db.specs.Calls.{installation};
ghost use Rattle.image_services.specs.Blocks.{loaded_image_protocol};
ghost use Rattle.image_services.specs.Unloads.{without_protocol};
ghost use Rattle.image_services.specs.Views.{NextInstalls, InstallsNext};

use protocol_db::{Installed, ProtocolRefusal, Protocols};
use std::alloc::AllocError;
use uh_base::Guid;

/// EFI_LOADED_IMAGE_PROTOCOL_GUID, 5b1b31a1-9562-11d2-8e3f-00a0c969723b.
pub const LOADED_IMAGE_PROTOCOL: Guid = Guid {
    d1: 0x5b1b_31a1,
    d2: 0x9562,
    d3: 0x11d2,
    d4: 0x8e3f_00a0_c969_723b,
};

/// The handle on which the protocol of a next image will be. None exactly where that install is `Full`.
#[tactic(auto, using(crate::proofs::InstallLemmas::next_installs))]
pub(crate) fn next_handle(protocols: &Protocols, block: u64) -> Option<u64>
    ensures { NextInstalls result (installation protocols.now None loaded_image_protocol block) protocols.now block }
{
    protocols.handles().next()
}

/// Installs the protocol of a next image, whose block is its interface. Only want of memory stands in the way.
pub(crate) fn install_block(
    protocols: &mut Protocols,
    handle: u64,
    block: u64,
) -> Result<Installed, AllocError>
    requires next { InstallsNext handle (installation protocols.old None loaded_image_protocol block) protocols.old block }
    ensures handle { IfOk result (λ installed. installed.handle ≡ handle) }
    ensures ok { IfOk result (λ installed. installation protocols.old None loaded_image_protocol block ≡ Ok (record { answer = installed; after = protocols.new })) }
    ensures err { OnErr result (protocols.new ≡ protocols.old) }
{
    match protocols.install(None, LOADED_IMAGE_PROTOCOL, block) {
        Ok(installed) => Ok(installed),
        Err(ProtocolRefusal::Memory) => Err(AllocError),
        Err(_) => unreachable!(),
    }
}

/// Takes the protocol from the handle of an image.
pub(crate) fn discard_protocol(protocols: &mut Protocols, handle: u64)
    ensures { protocols.new ≡ without_protocol protocols.old handle }
{
    protocols.discard(handle, &LOADED_IMAGE_PROTOCOL);
}
