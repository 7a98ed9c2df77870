//! The end of what runs.
ghost use Rattle.std.specs.Prelude.{◌≡◌, IfOk};
ghost use Rattle.image_services.specs.Images.{find_image};
ghost use Rattle.firmware_core.specs.Services.{stays, goes, without_image, image_ended, with_outputs, job_ended, started_ended, frame_ended, top_ended, at_return};

use crate::conclusion::Conclusion;
use crate::firmware::Firmware;
use crate::frame::{Ending, Frame, Hart, Purpose};
use address_view::CodePage;
use image_calls::outputs_given;
use image_services::discard_image;
use record_text::Cause;
use service_answer::Served;
use std::alloc::{AllocError, Global};

/// Whether an image of a subsystem stays when it ends with a status.
fn stays(subsystem: u16, status: u64) -> bool
    ensures { result ≡ stays subsystem status }
{
    subsystem != 10 && status < 1 << 63
}

impl Firmware {
    /// Unloads an image.
    pub(crate) fn unload(&mut self, handle: u64)
        ensures { self.new ≡ without_image self.old handle }
    {
        self.whole();
        self.code = CodePage::none();
        let images = &mut self.images;
        let pool = &mut self.pool;
        let protocols = &mut self.protocols;
        let runtime = &mut self.runtime;
        discard_image(
            images,
            &runtime.layout,
            &mut runtime.memory,
            &mut runtime.pages,
            pool,
            protocols,
            handle,
        );
    }

    /// Whether an image is unloaded when it ends with a status.
    fn goes(&self, status: u64, handle: u64) -> bool
        ensures { result ≡ goes status (find_image self.now.images handle) }
    {
        match self.images.find(handle) {
            Some(image) => !stays(image.subsystem, status),
            None => false,
        }
    }

    /// Ends an image with a status.
    fn end_image(&mut self, handle: u64, status: u64)
        ensures { self.new ≡ image_ended self.old handle status }
    {
        if !self.runtime.gone && self.goes(status, handle) {
            self.unload(handle);
        }
    }

    /// Writes the outputs of StartImage, gives the memory back, and answers its caller.
    #[tactic(auto, unfolding(crate::specs::Services::with_outputs))]
    fn give_outputs(&mut self, alloc: Global, ending: Ending) -> Result<Conclusion, AllocError>
        ensures { IfOk result (λ c. record { conclusion = c; firmware = self.new } ≡ with_outputs self.old ending) }
    {
        self.whole();
        self.code = CodePage::none();
        let Ending {
            status,
            size,
            exit_data,
        } = ending;
        let regs = &self.hart.regs;
        let runtime = &mut self.runtime;
        let served = outputs_given(
            alloc,
            &regs.x,
            &runtime.view,
            &mut runtime.memory,
            status,
            size,
            exit_data,
        )?;
        if served.frames {
            return Ok(Conclusion::Halts(Cause::Frames));
        }
        self.answer(served.value);
        Ok(Conclusion::Continues)
    }

    /// Ends the image of a job, at the level of its start.
    fn end_job(&mut self, handle: u64, tpl: u8, status: u64) -> Conclusion
        ensures { record { conclusion = result; firmware = self.new } ≡ job_ended self.old handle tpl status }
    {
        self.hart.tpl = tpl;
        self.end_image(handle, status);
        Conclusion::Leaves(status)
    }

    /// Ends an image that another one started, whose hart was this one.
    fn end_started(
        &mut self,
        alloc: Global,
        handle: u64,
        back: Hart,
        ending: Ending,
    ) -> Result<Conclusion, AllocError>
        ensures { IfOk result (λ c. record { conclusion = c; firmware = self.new } ≡ started_ended self.old handle back ending) }
    {
        self.hart = back;
        self.end_image(handle, ending.status);
        self.give_outputs(alloc, ending)
    }

    /// Ends a frame that was taken.
    #[tactic(auto, unfolding(crate::specs::Services::frame_ended))]
    fn end_frame(
        &mut self,
        alloc: Global,
        frame: Frame,
        ending: Ending,
    ) -> Result<Conclusion, AllocError>
        ensures { IfOk result (λ c. record { conclusion = c; firmware = self.new } ≡ frame_ended self.old frame ending) }
    {
        let Frame { purpose, back } = frame;
        match purpose {
            Purpose::Notification => {
                self.hart = back;
                Ok(Conclusion::Continues)
            }
            Purpose::Call => {
                self.hart = back;
                self.returned = Some(ending.status);
                Ok(Conclusion::Continues)
            }
            Purpose::Runtime => Ok(Conclusion::Leaves(ending.status)),
            Purpose::Job(handle) => Ok(self.end_job(handle, back.tpl, ending.status)),
            Purpose::Image(handle) => self.end_started(alloc, handle, back, ending),
        }
    }

    /// Ends the innermost frame.
    pub(crate) fn end_top(
        &mut self,
        alloc: Global,
        ending: Ending,
    ) -> Result<Conclusion, AllocError>
        ensures { IfOk result (λ c. record { conclusion = c; firmware = self.new } ≡ top_ended self.old ending) }
    {
        match self.frames.pop() {
            Some(frame) => self.end_frame(alloc, frame, ending),
            None => Ok(Conclusion::Continues),
        }
    }

    /// The return of the innermost frame.
    #[tactic(auto, unfolding(crate::specs::Services::at_return))]
    pub(crate) fn at_return(&mut self, alloc: Global) -> Result<Conclusion, AllocError>
        ensures { IfOk result (λ c. record { conclusion = c; firmware = self.new } ≡ at_return self.old) }
    {
        let ending = Ending {
            status: self.given(0),
            size: 0,
            exit_data: 0,
        };
        self.end_top(alloc, ending)
    }
}
