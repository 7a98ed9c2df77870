//! The services on images, over the parts that each reads and changes.
ghost use Rattle.std.specs.Prelude.{◌≡◌, IfOk};
ghost use Rattle.firmware_core.specs.ImageSlots.{at_load_image, at_unload_image, start_by, at_start_image, image_of, running_image, exit_by, at_exit, serve_image};

use crate::conclusion::Conclusion;
use crate::firmware::Firmware;
use crate::frame::{Ending, Purpose};
use crate::image_service::ImageService;
use address_view::CodePage;
use image_calls::{ExitStep, exit_of, load_image_from, start_of, unload_image_of};
use record_text::Cause;
use std::alloc::{AllocError, Global};
use uh_base::EfiStatus;

/// The image of a frame, if it is an image's.
fn image_of(purpose: Purpose) -> Option<u64>
    ensures { result ≡ image_of purpose }
{
    match purpose {
        Purpose::Job(handle) => Some(handle),
        Purpose::Image(handle) => Some(handle),
        Purpose::Call => None,
        Purpose::Runtime => None,
        Purpose::Notification => None,
    }
}

impl Firmware {
    /// LoadImage (UEFI 2.10, 7.4.1).
    #[tactic(auto, unfolding(crate::specs::ImageSlots::at_load_image))]
    fn at_load_image(&mut self, alloc: Global) -> Result<Conclusion, AllocError>
        ensures { IfOk result (λ c. record { conclusion = c; firmware = self.new } ≡ at_load_image self.old) }
    {
        self.whole();
        self.code = CodePage::none();
        let regs = &self.hart.regs;
        let images = &mut self.images;
        let pool = &mut self.pool;
        let protocols = &mut self.protocols;
        let runtime = &mut self.runtime;
        let answer = load_image_from(
            alloc,
            &regs.x,
            &runtime.view,
            &runtime.layout,
            &mut runtime.memory,
            &mut runtime.pages,
            pool,
            protocols,
            images,
        )?;
        Ok(self.announce(&answer))
    }

    /// UnloadImage (UEFI 2.10, 7.4.3).
    #[tactic(auto, unfolding(crate::specs::ImageSlots::at_unload_image))]
    fn at_unload_image(&mut self) -> Conclusion
        ensures { record { conclusion = result; firmware = self.new } ≡ at_unload_image self.old }
    {
        self.whole();
        self.code = CodePage::none();
        let regs = &self.hart.regs;
        let images = &mut self.images;
        let pool = &mut self.pool;
        let protocols = &mut self.protocols;
        let runtime = &mut self.runtime;
        Conclusion::Answers(unload_image_of(
            &regs.x,
            &runtime.layout,
            &mut runtime.memory,
            &mut runtime.pages,
            pool,
            protocols,
            images,
        ))
    }

    /// Begins the image of the call at its entry point, or answers the refusal.
    fn start_by(&mut self, entry: Result<u64, EfiStatus>) -> Result<Conclusion, AllocError>
        ensures { IfOk result (λ c. record { conclusion = c; firmware = self.new } ≡ start_by self.old entry) }
    {
        match entry {
            Err(refusal) => Ok(Conclusion::Answers(refusal.0)),
            Ok(entry) => {
                if self.is_full() {
                    return Ok(Conclusion::Halts(Cause::Depth));
                }
                let handle = self.given(0);
                self.start(Purpose::Image(handle), handle, self.aligned_stack(), entry)?;
                Ok(Conclusion::Continues)
            }
        }
    }

    /// StartImage (UEFI 2.10, 7.4.2).
    #[tactic(auto, unfolding(crate::specs::ImageSlots::at_start_image))]
    fn at_start_image(&mut self) -> Result<Conclusion, AllocError>
        ensures { IfOk result (λ c. record { conclusion = c; firmware = self.new } ≡ at_start_image self.old) }
    {
        let regs = &self.hart.regs;
        let runtime = &self.runtime;
        let entry = start_of(&regs.x, &runtime.view, &runtime.memory, &self.images);
        self.start_by(entry)
    }

    /// The image that runs: that of the innermost frame, if it is an image's.
    fn running_image(&self) -> Option<u64>
        ensures { result ≡ running_image self.now }
    {
        match self.frames.last() {
            Some(frame) => image_of(frame.purpose),
            None => None,
        }
    }

    /// Gives what came of a call of Exit.
    fn exit_by(&mut self, alloc: Global, step: ExitStep) -> Result<Conclusion, AllocError>
        ensures { IfOk result (λ c. record { conclusion = c; firmware = self.new } ≡ exit_by self.old step) }
    {
        match step {
            ExitStep::Refused => Ok(Conclusion::Answers(EfiStatus::INVALID_PARAMETER.0)),
            ExitStep::Unloads(handle) => {
                self.unload(handle);
                Ok(Conclusion::Answers(EfiStatus::SUCCESS.0))
            }
            ExitStep::Ends {
                status,
                size,
                exit_data,
            } => {
                let ending = Ending {
                    status,
                    size,
                    exit_data,
                };
                self.end_top(alloc, ending)
            }
        }
    }

    /// Exit (UEFI 2.10, 7.4.5).
    #[tactic(auto, unfolding(crate::specs::ImageSlots::at_exit))]
    fn at_exit(&mut self, alloc: Global) -> Result<Conclusion, AllocError>
        ensures { IfOk result (λ c. record { conclusion = c; firmware = self.new } ≡ at_exit self.old) }
    {
        let regs = &self.hart.regs;
        let step = exit_of(&regs.x, &self.images, self.running_image());
        self.exit_by(alloc, step)
    }

    /// A service on images.
    #[tactic(auto, unfolding(crate::specs::ImageSlots::serve_image))]
    pub(crate) fn serve_image(
        &mut self,
        alloc: Global,
        service: ImageService,
    ) -> Result<Conclusion, AllocError>
        ensures { IfOk result (λ c. record { conclusion = c; firmware = self.new } ≡ serve_image service self.old) }
    {
        match service {
            ImageService::LoadImage => self.at_load_image(alloc),
            ImageService::StartImage => self.at_start_image(),
            ImageService::Exit => self.at_exit(alloc),
            ImageService::UnloadImage => Ok(self.at_unload_image()),
            ImageService::ExitBootServices => self.at_exit_boot_services(alloc),
        }
    }
}
