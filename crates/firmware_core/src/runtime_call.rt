//! How a call of runtime code by the operating system begins.
ghost use Rattle.std.specs.Prelude.{◌≡◌, OnOk};
ghost use Rattle.guest_memory.specs.Changes.{put_bytes};
ghost use Rattle.page_alloc.specs.Layout.{IsLayout};
ghost use Rattle.firmware_core.specs.Services.{with_memory};
ghost use Rattle.firmware_core.specs.RuntimeCalls.{with_buffers, runtime_registers, with_runtime_call};

use crate::call_spec::{CallBuffer, CallSpec};
use crate::firmware::Firmware;
use crate::frame::{Hart, Phase, Purpose};
use address_view::CodePage;
use guest_memory::GuestMemory;
use page_alloc::Layout;
use rv_step::Regs;
use std::alloc::AllocError;

/// Writes bytes from a physical address on, whatever the rights there. The operating system's arguments are touched from the
/// opening on, so that a write to them takes no frame.
#[tactic(auto, unfolding(guest_memory::specs::Changes::put_bytes))]
fn write_bytes(memory: &mut GuestMemory, at: u64, bytes: &[u8]) -> Result<(), AllocError>
    ensures ok { OnOk result (memory.new ≡ put_bytes memory.old at bytes.now) }
    ensures base { memory.new.base ≡ memory.old.base }
    ensures pages { memory.new.pages ≡ memory.old.pages }
{
    let mut here = at;
    for byte in bytes {
        if memory.put(here, *byte).is_err() {
            return Err(AllocError);
        }
        here = here.wrapping_add(1);
    }
    Ok(())
}

/// Writes buffers to the operating system's arguments, one after another.
#[tactic(auto, unfolding(crate::specs::RuntimeCalls::with_buffers, page_alloc::specs::Layout::layout_at))]
fn write_buffers(
    memory: &mut GuestMemory,
    layout: &Layout,
    buffers: &[CallBuffer],
) -> Result<(), AllocError>
    requires { IsLayout layout.now }
    ensures ok { OnOk result (memory.new ≡ with_buffers layout.now memory.old buffers.now) }
    ensures base { memory.new.base ≡ memory.old.base }
    ensures pages { memory.new.pages ≡ memory.old.pages }
{
    for buffer in buffers {
        let at = layout.os_args + u64::from(buffer.offset);
        write_bytes(memory, at, buffer.bytes.as_slice())?;
    }
    Ok(())
}

impl Firmware {
    /// Writes the buffers of a call.
    fn write_arguments(&mut self, buffers: &[CallBuffer]) -> Result<(), AllocError>
        ensures { OnOk result (self.new ≡ with_memory self.old (with_buffers self.old.runtime.layout self.old.runtime.memory buffers.now)) }
    {
        self.whole();
        self.code = CodePage::none();
        let runtime = &mut self.runtime;
        write_buffers(&mut runtime.memory, &runtime.layout, buffers)
    }

    /// What a call of runtime code begins with.
    fn runtime_registers(&self, args: &[u64]) -> [u64; 32]
        ensures { result ≡ runtime_registers self.now.runtime.layout args.now }
    {
        let runtime = &self.runtime;
        let mut x = self.call_registers(runtime.layout.os_args, args);
        x[1] = runtime.layout.os_return;
        x
    }

    /// Writes the buffers of a call of runtime code, then begins it.
    #[tactic(auto, unfolding(crate::specs::RuntimeCalls::with_runtime_call))]
    pub(crate) fn call_runtime(&mut self, call: &CallSpec) -> Result<(), AllocError>
        ensures { OnOk result (self.new ≡ with_runtime_call self.old call.now) }
    {
        self.write_arguments(call.buffers.as_slice())?;
        let x = self.runtime_registers(call.args.as_slice());
        let hart = Hart {
            regs: Regs { x, pc: call.pc },
            phase: Phase::Called,
            tpl: self.hart.tpl,
        };
        self.push(Purpose::Runtime, hart)
    }
}
