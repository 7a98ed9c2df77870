//! The services on images, by slot.
ghost use Rattle.std.specs.Prelude.{◌≡◌};
ghost use Rattle.firmware_core.specs.ImageSlots.{image_service_of};

/// The services on images (UEFI 2.10, 7.4).
#[derive(Clone, Copy, Debug, PartialEq, Eq, Drop)]
pub enum ImageService {
    LoadImage,
    StartImage,
    Exit,
    UnloadImage,
    ExitBootServices,
}

/// The service on images of a slot.
#[tactic(auto, unfolding(crate::specs::ImageSlots::image_service_of))]
pub(crate) fn image_service_of(slot: u8) -> Option<ImageService>
    ensures { result ≡ image_service_of slot }
{
    match slot {
        22 => Some(ImageService::LoadImage),
        23 => Some(ImageService::StartImage),
        24 => Some(ImageService::Exit),
        25 => Some(ImageService::UnloadImage),
        26 => Some(ImageService::ExitBootServices),
        _ => None,
    }
}
