//! The service of each slot.
ghost use Rattle.std.specs.Prelude.{◌≡◌, IfOk};
ghost use Rattle.firmware_core.specs.Slots.{is_boot_slot, serve, serve_by_slot, serve_slot};

use crate::conclusion::Conclusion;
use crate::event_service::event_service_of;
use crate::firmware::Firmware;
use crate::image_service::image_service_of;
use crate::service::{Service, service_of};
use protocol_services::is_protocol_slot;
use record_text::Cause;
use runtime_services::RuntimeService;
use std::alloc::{AllocError, Global};
use uh_base::EfiStatus;

/// Whether a slot is that of a boot service or of the console.
fn is_boot_slot(slot: u8) -> bool
    ensures { result ≡ is_boot_slot slot }
{
    slot < 44 || (slot > 57 && slot < 67)
}

impl Firmware {
    /// The service of a slot. Where boot services are over, one of them or of the console halts the run.
    #[tactic(auto, unfolding(crate::specs::Slots::serve_slot))]
    pub(crate) fn serve_slot(&mut self, alloc: Global, slot: u8) -> Result<Conclusion, AllocError>
        ensures { IfOk result (λ c. record { conclusion = c; firmware = self.new } ≡ serve_slot slot self.old) }
    {
        if self.runtime.gone && is_boot_slot(slot) {
            return Ok(Conclusion::Halts(Cause::BootGone));
        }
        self.serve_by_slot(alloc, slot)
    }

    /// The service of a slot, whether boot services are over or not.
    #[tactic(auto, unfolding(crate::specs::Slots::serve_by_slot))]
    fn serve_by_slot(&mut self, alloc: Global, slot: u8) -> Result<Conclusion, AllocError>
        ensures { IfOk result (λ c. record { conclusion = c; firmware = self.new } ≡ serve_by_slot slot self.old) }
    {
        if is_protocol_slot(slot) {
            self.at_protocols(alloc, slot)
        } else if RuntimeService::of_slot(slot).is_some() {
            self.at_runtime(alloc, slot)
        } else if let Some(service) = event_service_of(slot) {
            self.serve_event(alloc, service)
        } else if let Some(service) = image_service_of(slot) {
            self.serve_image(alloc, service)
        } else {
            self.serve(alloc, service_of(slot))
        }
    }

    /// A service on memory, of the console, the reset, or the return.
    #[tactic(auto, unfolding(crate::specs::Slots::serve))]
    fn serve(&mut self, alloc: Global, service: Service) -> Result<Conclusion, AllocError>
        ensures { IfOk result (λ c. record { conclusion = c; firmware = self.new } ≡ serve service self.old) }
    {
        match service {
            Service::AllocatePages => self.at_allocate_pages(),
            Service::FreePages => Ok(self.at_free_pages()),
            Service::GetMemoryMap => self.at_get_memory_map(),
            Service::AllocatePool => self.at_allocate_pool(),
            Service::FreePool => Ok(self.at_free_pool()),
            Service::CalculateCrc32 => self.at_calculate_crc32(alloc),
            Service::CopyMem => self.at_copy_mem(alloc),
            Service::SetMem => self.at_set_mem(alloc),
            Service::OutputString => self.at_output_string(alloc),
            Service::TestString => self.at_test_string(alloc),
            Service::QueryMode => self.at_query_mode(),
            Service::SetMode => Ok(self.at_set_mode()),
            Service::Screen => Ok(Conclusion::Answers(EfiStatus::SUCCESS.0)),
            Service::Reset => Ok(self.at_reset()),
            Service::Return => self.at_return(alloc),
            Service::Unbuilt => Ok(Conclusion::Answers(EfiStatus::UNSUPPORTED.0)),
        }
    }
}
