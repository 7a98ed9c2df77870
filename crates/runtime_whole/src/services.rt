//! What services leave so. Each law is the contract of a function that does nothing.
#![tactic(auto)]

ghost use Rattle.runtime_whole.specs.Services.{PagesKeep, PoolKeeps, MemoryWritesKeep, RuntimeServicesKeep, RuntimeServicesStayWhole, EventServicesKeep, ConsoleKeeps, ImageServicesKeep, ProtocolServicesKeep};

use crate::laws::{discards_keep, handles_keep, loads_keep};
use map_transition::whole_stays;
use page_alloc::calls_leave_others;
use pool_alloc::pool_leaves_others;

/// `BootWhole` stays behind AllocatePages and FreePages, however they end.
pub fn pages_keep()
    ensures { PagesKeep }
{
    calls_leave_others();
}

/// `BootWhole` stays behind AllocatePool and FreePool, however they end.
pub fn pool_keeps()
    ensures { PoolKeeps }
{
    calls_leave_others();
    pool_leaves_others();
}

/// `BootWhole` stays behind the services of memory that write alone.
pub fn memory_writes_keep()
    ensures { MemoryWritesKeep }
{}

/// `BootWhole` stays behind each runtime service, and so does `Whole` once boot services are over.
pub fn runtime_services_keep()
    ensures before { RuntimeServicesKeep }
    ensures behind { RuntimeServicesStayWhole }
{
    whole_stays();
}

/// `BootWhole` stays behind the services on events that write or change protocols, however they end.
pub fn event_services_keep()
    ensures { EventServicesKeep }
{}

/// `BootWhole` stays behind QueryMode of the console.
pub fn console_keeps()
    ensures { ConsoleKeeps }
{}

/// `BootWhole` stays behind LoadImage, UnloadImage and the outputs of StartImage, however they end.
pub fn image_services_keep()
    ensures { ImageServicesKeep }
{
    loads_keep();
    discards_keep();
}

/// `BootWhole` stays behind each service on handles and protocols, however it ends.
pub fn protocol_services_keep()
    ensures { ProtocolServicesKeep }
{
    calls_leave_others();
    handles_keep();
}
