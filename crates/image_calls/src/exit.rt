//! Exit (UEFI 2.10, section 7.4.5).
#![tactic(auto)]

ghost use Rattle.std.specs.Prelude.{◌≡◌};
ghost use Rattle.image_calls.specs.Exits.{exit_asked, is_top};

use guest_call::argument;
use image_services::Images;

/// What comes of a call of Exit.
#[derive(Clone, Copy, Debug, PartialEq, Eq, Drop)]
pub enum ExitStep {
    /// It is EFI_INVALID_PARAMETER: no loaded image has the handle, or the image was started and isn't the one that runs.
    Refused,
    /// The image of this handle wasn't started: it is unloaded, and the call gives EFI_SUCCESS.
    Unloads(u64),
    /// The image that runs ends, and whoever started it gets this.
    Ends {
        /// The status with which it ends.
        status: u64,
        /// The size of its exit data, in bytes.
        size: u64,
        /// The address of its exit data.
        exit_data: u64,
    },
}

/// Whether an image is the one that runs, which is the one of the top frame, if that is an image's.
fn is_top(top: Option<u64>, handle: u64) -> bool
    ensures { result ≡ is_top top handle }
{
    match top {
        Some(running) => running == handle,
        None => false,
    }
}

/// Exit (image, status, size, data): what comes of it. `top` is the handle of the image of the top frame, None where that
/// frame isn't an image's. Nothing changes here.
#[tactic(auto, unfolding(crate::specs::Exits::exit_asked))]
pub fn exit_of(registers: &[u64; 32], images: &Images, top: Option<u64>) -> ExitStep
    ensures { result ≡ exit_asked registers.now images.now top }
{
    let Some(image) = images.find(argument(0, registers)) else {
        return ExitStep::Refused;
    };
    if !image.started {
        return ExitStep::Unloads(image.handle);
    }
    if !is_top(top, image.handle) {
        return ExitStep::Refused;
    }
    ExitStep::Ends {
        status: argument(1, registers),
        size: argument(2, registers),
        exit_data: argument(3, registers),
    }
}
