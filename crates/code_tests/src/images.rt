//! Worked files.

ghost use Rattle.std.specs.Prelude.{◌≡◌, ◌≤◌, IfOk, length, vec_len};

use pe_image::{Image, PeFault, Section, place, read_image};
use std::alloc::{AllocError, Global};
use std::process::Abort;
use std::test::Fail;

/// A change of a file.
#[derive(Clone, Copy)]
struct Patch(usize, u32, usize);

/// Writes a number's low bytes, where they lie in the file.
fn put(file: &mut Vec<u8>, patch: Patch)
    ensures { vec_len file.new ≡ vec_len file.old }
{
    let Patch(at, value, width) = patch;
    for i in 0..4 {
        if i < width && at < file.len() && i < file.len() - at {
            file[at + i] = value.to_le_bytes()[i];
        }
    }
}

/// A file whose one section of 50 bytes stands at 0x1000.
static IMAGE: [Patch; 22] = [
    Patch(0, 0x5a4d, 2),
    Patch(0x3c, 0x40, 4),
    Patch(0x40, 0x4550, 4),
    Patch(0x44, 0x5064, 2),
    Patch(0x46, 1, 2),
    Patch(0x54, 240, 2),
    Patch(0x58, 0x20b, 2),
    Patch(0x68, 0x1000, 4),
    Patch(0x78, 0x1000, 4),
    Patch(0x7c, 0x200, 4),
    Patch(0x90, 0x2000, 4),
    Patch(0x94, 0x200, 4),
    Patch(0x9c, 10, 2),
    Patch(0xc4, 16, 4),
    Patch(0x148, 0x7865_742e, 4),
    Patch(0x150, 50, 4),
    Patch(0x154, 0x1000, 4),
    Patch(0x158, 0x200, 4),
    Patch(0x15c, 0x200, 4),
    Patch(0x16c, 0x6000_0000, 4),
    Patch(0x200, 0x0405_b503, 4),
    Patch(0x22e, 0x0069_0048, 4),
];

/// Files of so many bytes, and the field that is cut.
static CUT: [(usize, u32); 8] = [
    (0, 0),
    (1, 0),
    (2, 60),
    (63, 60),
    (64, 64),
    (68, 68),
    (87, 86),
    (367, 364),
];

/// Changes of the file, and what is then wrong with it.
static ROWS: [(Patch, Option<PeFault>); 30] = [
    (Patch(0, 0x4d5a, 2), Some(PeFault::Magic)),
    (
        Patch(0x3c, 0xffff_ffff, 4),
        Some(PeFault::Truncated(0xffff_ffff)),
    ),
    (Patch(0x40, 0x4e50, 4), Some(PeFault::Magic)),
    (Patch(0x44, 0x8664, 2), Some(PeFault::Machine)),
    (Patch(0x46, 65535, 2), Some(PeFault::Truncated(1008 + 16))),
    (Patch(0x58, 0x10b, 2), Some(PeFault::Magic)),
    (Patch(0x54, 239, 2), Some(PeFault::Header)),
    (Patch(0x94, 0x401, 4), Some(PeFault::Header)),
    (Patch(0x90, 0x1ff, 4), Some(PeFault::Header)),
    (Patch(0xc4, 17, 4), None),
    (Patch(0x9c, 9, 2), Some(PeFault::Subsystem)),
    (Patch(0x9c, 13, 2), Some(PeFault::Subsystem)),
    (Patch(0x78, 16, 4), Some(PeFault::Alignment)),
    (Patch(0x78, 48, 4), Some(PeFault::Alignment)),
    (Patch(0x70, 0x800, 4), Some(PeFault::Alignment)),
    (Patch(0x90, 0x80_0001, 4), Some(PeFault::TooLarge)),
    (Patch(0x154, 0x1001, 4), Some(PeFault::SectionOutside(0))),
    (Patch(0x150, 0x1000, 4), None),
    (Patch(0x150, 0x1001, 4), Some(PeFault::SectionOutside(0))),
    (
        Patch(0x150, 0xffff_ffff, 4),
        Some(PeFault::SectionOutside(0)),
    ),
    (Patch(0x15c, 0x3ce, 4), None),
    (Patch(0x15c, 0x3cf, 4), Some(PeFault::SectionOutside(0))),
    (Patch(0x154, 0, 4), Some(PeFault::SectionOverlap(0))),
    (Patch(0x46, 2, 2), Some(PeFault::SectionOverlap(1))),
    (Patch(0x68, 0, 4), Some(PeFault::EntryOutside)),
    (Patch(0x68, 0x1001, 4), Some(PeFault::EntryOutside)),
    (Patch(0x68, 0x2000, 4), Some(PeFault::EntryOutside)),
    (Patch(0xf4, 0x2001, 4), Some(PeFault::Directory)),
    (Patch(0xf4, 0x2000, 4), None),
    (Patch(0xf0, 0xffff_ffff, 4), None),
];

/// So many equal bytes.
fn filled(alloc: Global, size: usize, byte: u8) -> Result<Vec<u8>, AllocError>
    ensures { IfOk result (λ bytes. vec_len bytes ≡ size) }
{
    vec![in alloc; byte; size]
}

/// The file, of so many bytes and with changes.
fn file_of(alloc: Global, size: usize, patches: &[Patch]) -> Result<Vec<u8>, AllocError>
    ensures { IfOk result (λ file. vec_len file ≡ size) }
{
    let mut file = filled(alloc, size, 0)?;
    put_all(&mut file, &IMAGE);
    put_all(&mut file, patches);
    Ok(file)
}

/// Writes the numbers of changes.
fn put_all(file: &mut Vec<u8>, patches: &[Patch])
    ensures { vec_len file.new ≡ vec_len file.old }
{
    for patch in patches {
        put(file, *patch);
    }
}

/// What is wrong with the file of so many bytes with a change.
fn fault_of(alloc: Global, size: usize, patches: &[Patch]) -> Result<Option<PeFault>, AllocError>
    requires { size ≤ 0x400000 }
{
    let file = file_of(alloc, size, patches)?;
    Ok(read_image(alloc, file.as_slice()).err())
}

/// Each change gives what is wrong.
fn check_rows(
    rt: &impl Abort,
    alloc: Global,
    rows: &[(Patch, Option<PeFault>)],
) -> Result<(), AllocError> {
    for row in rows {
        let fault = fault_of(alloc, 1024, &[row.0])?;
        assert!(rt; fault == row.1, "a change at {}", row.0.0);
    }
    Ok(())
}

/// Each cut gives its field.
fn check_cuts(rt: &impl Abort, alloc: Global, cuts: &[(usize, u32)]) -> Result<(), AllocError> {
    for cut in cuts {
        if cut.0 <= 1024 {
            let fault = fault_of(alloc, cut.0, &[])?;
            assert!(rt;
                fault == Some(PeFault::Truncated(cut.1)),
                "of {} bytes",
                cut.0
            );
        }
    }
    Ok(())
}

/// What is wrong with a file that is changed in several places.
fn check_several(
    rt: &impl Abort,
    alloc: Global,
    size: usize,
    patches: &[Patch],
    wanted: Option<PeFault>,
) -> Result<(), AllocError>
    requires { size ≤ 0x400000 }
{
    let fault = fault_of(alloc, size, patches)?;
    assert!(rt; fault == wanted);
    Ok(())
}

/// Copies so many bytes from one offset to another, where they lie in both.
fn copy(to: &mut Vec<u8>, at: usize, from: &[u8], raw: usize, count: usize)
    ensures { vec_len to.new ≡ vec_len to.old }
{
    for i in 0..count {
        if at < to.len() && i < to.len() - at && raw < from.len() && i < from.len() - raw {
            to[at + i] = from[raw + i];
        }
    }
}

/// Places the file's image over other bytes.
fn placed_of(rt: &impl Abort, alloc: Global, file: &[u8], size: usize) -> Result<Vec<u8>, PeFault>
    requires { length file.now ≤ 0x400000 }
{
    let image: Image = read_image(alloc, file)?;
    let mut placed = filled(alloc, size, 0xff)?;
    assert!(rt; placed.len() == (image.size as usize + 4095) / 4096 * 4096);
    place(&image, file, placed.as_mut_slice());
    Ok(placed)
}

#[test]
fn the_fields_of_an_image(rt: HostRuntime) -> Result<(), Fail> {
    let file = file_of(rt.alloc(), 1024, &[])?;
    assert!(rt; file.len() == 1024);
    let image = read_image(rt.alloc(), file.as_slice())?;
    let section = Section {
        at: 0x1000,
        len: 50,
        raw: 0x200,
        copied: 50,
        rights: 5,
    };
    assert_eq!(rt; image.subsystem, 10);
    assert_eq!(rt; image.image_base, 0);
    assert_eq!(rt; image.alignment, 0x1000);
    assert_eq!(rt; image.size, 0x2000);
    assert_eq!(rt; image.headers, 0x200);
    assert_eq!(rt; image.entry, 0x1000);
    assert_eq!(rt; image.sections.as_slice(), [section].as_slice());
    assert_eq!(rt; image.reloc_at, 0);
    assert_eq!(rt; image.reloc_len, 0);
    assert!(rt; !image.stripped);
    Ok(())
}

#[test]
fn the_first_fault_of_a_file(rt: HostRuntime) -> Result<(), Fail> {
    check_cuts(&rt, rt.alloc(), &CUT)?;
    check_rows(&rt, rt.alloc(), &ROWS)?;
    Ok(())
}

#[test]
fn several_changes_of_a_file(rt: HostRuntime) -> Result<(), Fail> {
    let alloc = rt.alloc();
    let nothing = [Patch(0x90, 0, 4), Patch(0x94, 0, 4)];
    check_several(&rt, alloc, 1024, &nothing, Some(PeFault::TooLarge))?;
    let many = [Patch(0x46, 97, 2)];
    check_several(&rt, alloc, 8192, &many, Some(PeFault::TooLarge))?;
    let empty_in_front = [Patch(0x150, 0, 4), Patch(0x154, 0, 4), Patch(0x158, 0, 4)];
    check_several(
        &rt,
        alloc,
        1024,
        &empty_in_front,
        Some(PeFault::SectionOverlap(0)),
    )?;
    let second_behind = [
        Patch(0x46, 2, 2),
        Patch(0x178, 1, 4),
        Patch(0x17c, 0x2000, 4),
    ];
    check_several(
        &rt,
        alloc,
        1024,
        &second_behind,
        Some(PeFault::SectionOutside(1)),
    )?;
    check_several(&rt, alloc, 562, &[], None)?;
    check_several(&rt, alloc, 561, &[], Some(PeFault::SectionOutside(0)))?;
    Ok(())
}

#[test]
fn the_bytes_of_a_placed_image(rt: HostRuntime) -> Result<(), Fail> {
    let alloc = rt.alloc();
    let file = file_of(alloc, 1024, &[])?;
    let placed = placed_of(&rt, alloc, file.as_slice(), 0x2000)?;
    let mut wanted = filled(alloc, 0x2000, 0)?;
    copy(&mut wanted, 0, file.as_slice(), 0, 0x200);
    copy(&mut wanted, 0x1000, file.as_slice(), 0x200, 50);
    assert!(rt; placed == wanted);
    Ok(())
}
