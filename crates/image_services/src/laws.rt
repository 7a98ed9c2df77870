//! What the definitions come to. Each law is the contract of a function that does nothing.
ghost use Rattle.image_services.specs.Laws.{FieldsStandAtTheirOffsets, OrderStays};

/// The fields of a block stand at the offsets of EFI_LOADED_IMAGE_PROTOCOL (UEFI 2.10, 9.1).
pub fn fields_stand_at_their_offsets()
    ensures { FieldsStandAtTheirOffsets }
{}

/// The handles of loaded images rise in order of loading, so no two are one, and what was loaded is found by its handle.
pub fn images_stay_in_order()
    ensures { OrderStays }
{}
