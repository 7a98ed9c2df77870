//! The block of an image: EFI_LOADED_IMAGE_PROTOCOL (UEFI 2.10, 9.1).
ghost use Rattle.std.specs.Prelude.{◌≡◌, ◌≤◌, ◌++◌, IfOk, OnOk, length};
ghost use Rattle.image_services.specs.Blocks.{block_bytes, block_size, word, pointer};

use crate::claiming::code_type;
use std::alloc::{AllocError, Global};

/// EFI_LOADED_IMAGE_PROTOCOL_REVISION.
const REVISION: u32 = 0x1000;

/// Puts numbers of 4 bytes behind bytes, the least byte first.
fn push_words(bytes: &mut Vec<u8>, first: u32, second: u32) -> Result<(), AllocError>
    ensures { OnOk result (bytes.new.items ≡ bytes.old.items ++ word first ++ word second) }
{
    bytes.extend_from_slice(&first.to_le_bytes())?;
    bytes.extend_from_slice(&second.to_le_bytes())?;
    Ok(())
}

/// Puts a number of 8 bytes behind bytes, the least byte first.
fn push_pointer(bytes: &mut Vec<u8>, value: u64) -> Result<(), AllocError>
    ensures { OnOk result (bytes.new.items ≡ bytes.old.items ++ pointer value) }
{
    bytes.extend_from_slice(&value.to_le_bytes())?;
    Ok(())
}

/// The bytes of a block.
#[tactic(auto, unfolding(crate::specs::Blocks::block_bytes))]
pub(crate) fn block_bytes(
    alloc: Global,
    parent: u64,
    system: u64,
    base: u64,
    size: u32,
    subsystem: u16,
) -> Result<Vec<u8>, AllocError>
    requires subsystem { 10 ≤ subsystem }
    ensures bytes { IfOk result (λ bytes. bytes.items ≡ block_bytes parent system base size subsystem) }
    ensures long { IfOk result (λ bytes. length bytes.items ≡ block_size) }
{
    let code = code_type(subsystem);
    let mut bytes = Vec::new(alloc);
    push_words(&mut bytes, REVISION, 0)?;
    push_pointer(&mut bytes, parent)?;
    push_pointer(&mut bytes, system)?;
    push_pointer(&mut bytes, 0)?;
    push_pointer(&mut bytes, 0)?;
    push_pointer(&mut bytes, 0)?;
    push_words(&mut bytes, 0, 0)?;
    push_pointer(&mut bytes, 0)?;
    push_pointer(&mut bytes, base)?;
    push_pointer(&mut bytes, u64::from(size))?;
    push_words(&mut bytes, code, code + 1)?;
    push_pointer(&mut bytes, 0)?;
    Ok(bytes)
}
