//! Each service of the firmware, over the parts that it reads and changes.
ghost use Rattle.std.specs.Prelude.{◌≡◌, ◌<◌, true, is_some, IfOk};
ghost use Rattle.guest_call.specs.declared.answer.Answer.{Answer};
ghost use Rattle.console_services.specs.Views.{reply_of};
ghost use Rattle.protocol_services.specs.Services.{is_protocol_slot};
ghost use Rattle.runtime_services.specs.Slots.{service_of as runtime_service_of};
ghost use Rattle.firmware_core.specs.Services.{conclusion_of, replied, given, at_allocate_pages, at_free_pages, at_get_memory_map, at_allocate_pool, at_free_pool, at_calculate_crc32, at_copy_mem, at_set_mem, at_output_string, at_test_string, at_query_mode, at_set_mode, served, announced, at_protocols, at_runtime, at_reset};

use crate::conclusion::Conclusion;
use crate::firmware::Firmware;
use address_view::CodePage;
use console_services::{Reply, output_string, query_mode, set_mode, test_string};
use guest_call::{Answer, argument, low_word};
use memory_services::{
    allocate_pages, allocate_pool, calculate_crc32, copy_mem, free_pages, free_pool,
    get_memory_map, set_mem,
};
use protocol_services::serve_protocol;
use record_text::Cause;
use runtime_services::serve_runtime;
use service_answer::Served;
use std::alloc::{AllocError, Global};

/// What an answer of a service on memory comes to.
fn conclusion_of(answer: Answer) -> Conclusion
    ensures { result ≡ conclusion_of answer }
{
    match answer {
        Answer::Gives(a0) => Conclusion::Answers(a0),
        Answer::LacksFrames => Conclusion::Halts(Cause::Frames),
    }
}

/// What a reply of the console comes to.
fn replied(reply: Reply) -> Conclusion
    ensures { result ≡ replied (reply_of reply) }
{
    match reply {
        Reply::Answers(a0) => Conclusion::Answers(a0),
        Reply::Prints(text, a0) => Conclusion::Prints(text, a0),
    }
}

/// What an answer of a service comes to, apart from the events that it brings.
pub(crate) fn served(answer: &Served) -> Conclusion
    ensures { result ≡ served answer.now }
{
    if answer.frames {
        Conclusion::Halts(Cause::Frames)
    } else {
        Conclusion::Answers(answer.value)
    }
}

impl Firmware {
    /// Argument n of the call, from 0 on.
    pub(crate) fn given(&self, n: usize) -> u64
        requires { n < 8 }
        ensures { result ≡ given n self.now }
    {
        argument(n, &self.hart.regs.x)
    }

    /// AllocatePages (UEFI 2.10, 7.2.1).
    #[tactic(auto, unfolding(crate::specs::Services::at_allocate_pages))]
    pub(crate) fn at_allocate_pages(&mut self) -> Result<Conclusion, AllocError>
        ensures { IfOk result (λ c. record { conclusion = c; firmware = self.new } ≡ at_allocate_pages self.old) }
    {
        self.whole();
        self.pool.whole();
        self.code = CodePage::none();
        let regs = &self.hart.regs;
        let runtime = &mut self.runtime;
        let answer = allocate_pages(
            &regs.x,
            &runtime.view,
            &mut runtime.memory,
            &mut runtime.pages,
        )?;
        Ok(conclusion_of(answer))
    }

    /// FreePages (UEFI 2.10, 7.2.2).
    #[tactic(auto, unfolding(crate::specs::Services::at_free_pages))]
    pub(crate) fn at_free_pages(&mut self) -> Conclusion
        ensures { record { conclusion = result; firmware = self.new } ≡ at_free_pages self.old }
    {
        self.whole();
        self.pool.whole();
        self.code = CodePage::none();
        let regs = &self.hart.regs;
        let runtime = &mut self.runtime;
        Conclusion::Answers(free_pages(&regs.x, &mut runtime.memory, &mut runtime.pages))
    }

    /// GetMemoryMap (UEFI 2.10, 7.2.3).
    #[tactic(auto, unfolding(crate::specs::Services::at_get_memory_map))]
    pub(crate) fn at_get_memory_map(&mut self) -> Result<Conclusion, AllocError>
        ensures { IfOk result (λ c. record { conclusion = c; firmware = self.new } ≡ at_get_memory_map self.old) }
    {
        self.whole();
        self.code = CodePage::none();
        let regs = &self.hart.regs;
        let runtime = &mut self.runtime;
        let answer = get_memory_map(&regs.x, &runtime.view, &mut runtime.memory, &runtime.pages)?;
        Ok(conclusion_of(answer))
    }

    /// AllocatePool (UEFI 2.10, 7.2.4).
    #[tactic(auto, unfolding(crate::specs::Services::at_allocate_pool))]
    pub(crate) fn at_allocate_pool(&mut self) -> Result<Conclusion, AllocError>
        ensures { IfOk result (λ c. record { conclusion = c; firmware = self.new } ≡ at_allocate_pool self.old) }
    {
        self.whole();
        self.code = CodePage::none();
        let regs = &self.hart.regs;
        let pool = &mut self.pool;
        let runtime = &mut self.runtime;
        let answer = allocate_pool(
            &regs.x,
            &runtime.view,
            &mut runtime.memory,
            &mut runtime.pages,
            pool,
        )?;
        Ok(conclusion_of(answer))
    }

    /// FreePool (UEFI 2.10, 7.2.5).
    #[tactic(auto, unfolding(crate::specs::Services::at_free_pool))]
    pub(crate) fn at_free_pool(&mut self) -> Conclusion
        ensures { record { conclusion = result; firmware = self.new } ≡ at_free_pool self.old }
    {
        self.whole();
        self.code = CodePage::none();
        let regs = &self.hart.regs;
        let pool = &mut self.pool;
        let runtime = &mut self.runtime;
        Conclusion::Answers(free_pool(&regs.x, &mut runtime.memory, &mut runtime.pages, pool))
    }

    /// CalculateCrc32 (UEFI 2.10, 7.5.7).
    #[tactic(auto, unfolding(crate::specs::Services::at_calculate_crc32))]
    pub(crate) fn at_calculate_crc32(&mut self, alloc: Global) -> Result<Conclusion, AllocError>
        ensures { IfOk result (λ c. record { conclusion = c; firmware = self.new } ≡ at_calculate_crc32 self.old) }
    {
        self.whole();
        self.code = CodePage::none();
        let regs = &self.hart.regs;
        let runtime = &mut self.runtime;
        let answer = calculate_crc32(alloc, &regs.x, &runtime.view, &mut runtime.memory)?;
        Ok(conclusion_of(answer))
    }

    /// CopyMem (UEFI 2.10, 7.5.3).
    #[tactic(auto, unfolding(crate::specs::Services::at_copy_mem))]
    pub(crate) fn at_copy_mem(&mut self, alloc: Global) -> Result<Conclusion, AllocError>
        ensures { IfOk result (λ c. record { conclusion = c; firmware = self.new } ≡ at_copy_mem self.old) }
    {
        self.whole();
        self.code = CodePage::none();
        let regs = &self.hart.regs;
        let runtime = &mut self.runtime;
        let answer = copy_mem(alloc, &regs.x, &runtime.view, &mut runtime.memory)?;
        Ok(conclusion_of(answer))
    }

    /// SetMem (UEFI 2.10, 7.5.4).
    #[tactic(auto, unfolding(crate::specs::Services::at_set_mem))]
    pub(crate) fn at_set_mem(&mut self, alloc: Global) -> Result<Conclusion, AllocError>
        ensures { IfOk result (λ c. record { conclusion = c; firmware = self.new } ≡ at_set_mem self.old) }
    {
        self.whole();
        self.code = CodePage::none();
        let regs = &self.hart.regs;
        let runtime = &mut self.runtime;
        let answer = set_mem(alloc, &regs.x, &runtime.view, &mut runtime.memory)?;
        Ok(conclusion_of(answer))
    }

    /// OutputString of the console (UEFI 2.10, 12.4.3).
    #[tactic(auto, unfolding(crate::specs::Services::at_output_string))]
    pub(crate) fn at_output_string(&self, alloc: Global) -> Result<Conclusion, AllocError>
        ensures { IfOk result (λ c. record { conclusion = c; firmware = self.now } ≡ at_output_string self.now) }
    {
        let reply = output_string(
            alloc,
            &self.runtime.view,
            &self.runtime.memory,
            self.given(1),
        )?;
        Ok(replied(reply))
    }

    /// TestString of the console (UEFI 2.10, 12.4.4).
    #[tactic(auto, unfolding(crate::specs::Services::at_test_string))]
    pub(crate) fn at_test_string(&self, alloc: Global) -> Result<Conclusion, AllocError>
        ensures { IfOk result (λ c. record { conclusion = c; firmware = self.now } ≡ at_test_string self.now) }
    {
        let status = test_string(
            alloc,
            &self.runtime.view,
            &self.runtime.memory,
            self.given(1),
        )?;
        Ok(Conclusion::Answers(status.0))
    }

    /// QueryMode of the console (UEFI 2.10, 12.4.5).
    #[tactic(auto, unfolding(crate::specs::Services::at_query_mode))]
    pub(crate) fn at_query_mode(&mut self) -> Result<Conclusion, AllocError>
        ensures { IfOk result (λ c. record { conclusion = c; firmware = self.new } ≡ at_query_mode self.old) }
    {
        self.whole();
        self.code = CodePage::none();
        let regs = &self.hart.regs;
        let runtime = &mut self.runtime;
        let answer = query_mode(&regs.x, &runtime.view, &mut runtime.memory)?;
        Ok(conclusion_of(answer))
    }

    /// SetMode of the console (UEFI 2.10, 12.4.6).
    pub(crate) fn at_set_mode(&self) -> Conclusion
        ensures { record { conclusion = result; firmware = self.now } ≡ at_set_mode self.now }
    {
        Conclusion::Answers(set_mode(self.given(1)).0)
    }

    /// Gives what a service came to, and signals its events.
    #[tactic(auto, unfolding(crate::specs::Services::announced))]
    pub(crate) fn announce(&mut self, answer: &Served) -> Conclusion
        ensures { record { conclusion = result; firmware = self.new } ≡ announced self.old answer.now }
    {
        self.events.signal_all(answer.events.as_slice());
        served(answer)
    }

    /// A service on handles and protocols (UEFI 2.10, 7.3).
    #[tactic(auto, unfolding(crate::specs::Services::at_protocols))]
    pub(crate) fn at_protocols(&mut self, alloc: Global, slot: u8) -> Result<Conclusion, AllocError>
        requires { is_protocol_slot slot ≡ true }
        ensures { IfOk result (λ c. record { conclusion = c; firmware = self.new } ≡ at_protocols slot self.old) }
    {
        self.whole();
        self.code = CodePage::none();
        let regs = &self.hart.regs;
        let pool = &mut self.pool;
        let protocols = &mut self.protocols;
        let runtime = &mut self.runtime;
        let answer = serve_protocol(
            alloc,
            slot,
            regs,
            &runtime.view,
            &mut runtime.memory,
            &mut runtime.pages,
            pool,
            protocols,
        )?;
        Ok(self.announce(&answer))
    }

    /// A runtime service (UEFI 2.10, 8).
    #[tactic(auto, unfolding(crate::specs::Services::at_runtime))]
    pub(crate) fn at_runtime(&mut self, alloc: Global, slot: u8) -> Result<Conclusion, AllocError>
        requires { is_some (runtime_service_of slot) ≡ true }
        ensures { IfOk result (λ c. record { conclusion = c; firmware = self.new } ≡ at_runtime slot self.old) }
    {
        self.whole();
        self.code = CodePage::none();
        let regs = &self.hart.regs;
        let now = self.time;
        let variables = &mut self.variables;
        let clock = &mut self.clock;
        let count = &mut self.count;
        let runtime = &mut self.runtime;
        let gone = runtime.gone;
        let answer = serve_runtime(
            alloc,
            slot,
            regs,
            &runtime.view,
            &mut runtime.memory,
            variables,
            clock,
            count,
            now,
            gone,
        )?;
        Ok(served(&answer))
    }

    /// ResetSystem.
    pub(crate) fn at_reset(&self) -> Conclusion
        ensures { record { conclusion = result; firmware = self.now } ≡ at_reset self.now }
    {
        Conclusion::Resets(low_word(self.given(0)), self.given(1))
    }
}
