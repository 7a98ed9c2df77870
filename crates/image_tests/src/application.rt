//! An application, and changes of its file.

ghost use Rattle.std.specs.Prelude.{◌≡◌, IfOk, vec_len};

use std::alloc::{AllocError, Global};

/// A change of a file.
#[derive(Clone, Copy)]
pub struct Patch(pub usize, pub u32, pub usize);

/// An application of two pages, whose one section of 50 bytes stands at 0x1000.
static IMAGE: [Patch; 20] = [
    Patch(0, 0x5a4d, 2),
    Patch(0x3c, 0x40, 4),
    Patch(0x40, 0x4550, 4),
    Patch(0x44, 0x5064, 2),
    Patch(0x46, 1, 2),
    Patch(0x54, 240, 2),
    Patch(0x58, 0x20b, 2),
    Patch(0x68, 0x1000, 4),
    Patch(0x78, 0x1000, 4),
    Patch(0x7c, 0x200, 4),
    Patch(0x90, 0x2000, 4),
    Patch(0x94, 0x200, 4),
    Patch(0x9c, 10, 2),
    Patch(0xc4, 16, 4),
    Patch(0x150, 50, 4),
    Patch(0x154, 0x1000, 4),
    Patch(0x158, 0x200, 4),
    Patch(0x15c, 0x200, 4),
    Patch(0x16c, 0x6000_0000, 4),
    Patch(0x200, 0x0405_b503, 4),
];

/// Writes a number's low bytes, where they lie in the file.
fn put(file: &mut Vec<u8>, patch: Patch)
    ensures { vec_len file.new ≡ vec_len file.old }
{
    let Patch(at, value, width) = patch;
    for i in 0..4 {
        if i < width && at < file.len() && i < file.len() - at {
            file[at + i] = value.to_le_bytes()[i];
        }
    }
}

fn put_all(file: &mut Vec<u8>, patches: &[Patch])
    ensures { vec_len file.new ≡ vec_len file.old }
{
    for patch in patches {
        put(file, *patch);
    }
}

/// The application with changes, in 1,024 bytes.
pub fn file_of(alloc: Global, patches: &[Patch]) -> Result<Vec<u8>, AllocError>
    ensures { IfOk result (λ file. vec_len file ≡ 1024) }
{
    let mut file = vec![in alloc; 0u8; 1024]?;
    put_all(&mut file, &IMAGE);
    put_all(&mut file, patches);
    Ok(file)
}
