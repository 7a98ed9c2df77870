//! Worked image files, and what they hold in lines.

ghost use Rattle.std.specs.Prelude.{◌≡◌, ◌≤◌, IfOk, vec_len};

use guest_build::assemble;
use image_dump::{Stop, put_image, put_list};
use std::alloc::{AllocError, Global};
use std::process::Abort;
use std::test::Fail;
use uh_base::MemSink;

/// A number of 4 bytes at an offset of the file.
#[derive(Clone, Copy)]
struct Patch(usize, u32);

/// Writes a number, where it lies in the file.
fn put(file: &mut Vec<u8>, patch: Patch)
    ensures { vec_len file.new ≡ vec_len file.old }
{
    let Patch(at, value) = patch;
    for i in 0..4 {
        if at < file.len() && i < file.len() - at {
            file[at + i] = value.to_le_bytes()[i];
        }
    }
}

/// A file that prints Hi: one section of 50 bytes at 0x1000, eleven instructions and a text of 16-bit units.
static HELLO: [Patch; 33] = [
    Patch(0, 0x5a4d),
    Patch(0x3c, 0x40),
    Patch(0x40, 0x4550),
    Patch(0x44, 0x0001_5064),
    Patch(0x54, 240),
    Patch(0x58, 0x20b),
    Patch(0x68, 0x1000),
    Patch(0x78, 0x1000),
    Patch(0x7c, 0x200),
    Patch(0x90, 0x2000),
    Patch(0x94, 0x200),
    Patch(0x9c, 10),
    Patch(0xc4, 16),
    Patch(0x148, 0x7865_742e),
    Patch(0x14c, 0x74),
    Patch(0x150, 50),
    Patch(0x154, 0x1000),
    Patch(0x158, 0x200),
    Patch(0x15c, 0x200),
    Patch(0x16c, 0x6000_0000),
    Patch(0x200, 0x0405_b503),
    Patch(0x204, 0x0000_0597),
    Patch(0x208, 0x0285_8593),
    Patch(0x20c, 0x0085_3283),
    Patch(0x210, 0xff01_0113),
    Patch(0x214, 0x0011_3423),
    Patch(0x218, 0x0002_80e7),
    Patch(0x21c, 0x0081_3083),
    Patch(0x220, 0x0101_0113),
    Patch(0x224, 0x0000_0513),
    Patch(0x228, 0x0000_8067),
    Patch(0x22c, 0x0069_0048),
    Patch(0x230, 0),
];

const HELLO_IMAGE: &str =
    "image 10 0000000000000000 8192 4096 4096 relocatable\nsection 0 4096 50 50 r-x\n";

/// The file, of so many bytes, with further numbers written.
fn hello(alloc: Global, len: usize, patches: &[Patch]) -> Result<Vec<u8>, AllocError>
    ensures { IfOk result (λ file. vec_len file ≡ len) }
{
    let mut file = vec![in alloc; 0u8; len]?;
    for patch in HELLO {
        put(&mut file, patch);
    }
    for patch in patches {
        put(&mut file, *patch);
    }
    Ok(file)
}

/// The text that `put_image` puts, and whether the file is refused.
fn image_text(rt: &impl Abort, alloc: Global, file: &[u8]) -> Result<(MemSink, bool), Fail> {
    assert!(rt; file.len() <= 0x40_0000);
    let mut out = MemSink::new(alloc, 100_000, Vec::new(alloc))?;
    match put_image(alloc, file, &mut out) {
        Ok(refused) => Ok((out, refused)),
        Err(_) => Err(Fail::from("not put")),
    }
}

/// The text that `put_list` puts, and whether the file is refused.
fn list_text(rt: &impl Abort, alloc: Global, file: &[u8]) -> Result<(MemSink, bool), Fail> {
    assert!(rt; file.len() <= 0x40_0000);
    let mut out = MemSink::new(alloc, 100_000, Vec::new(alloc))?;
    match put_list(alloc, file, &mut out) {
        Ok(refused) => Ok((out, refused)),
        Err(_) => Err(Fail::from("not put")),
    }
}

#[test]
fn an_image(rt: HostRuntime) -> Result<(), Fail> {
    let alloc = rt.alloc();
    let file = hello(alloc, 1024, &[])?;
    let (out, refused) = image_text(&rt, alloc, file.as_slice())?;
    let wanted = format!(in alloc; "{}end\n", HELLO_IMAGE)?;
    assert!(rt; !refused);
    assert!(rt; out.written() == wanted.as_bytes());
    Ok(())
}

#[test]
fn the_instructions_of_an_image(rt: HostRuntime) -> Result<(), Fail> {
    let alloc = rt.alloc();
    let file = hello(alloc, 1024, &[])?;
    let (out, refused) = list_text(&rt, alloc, file.as_slice())?;
    let wanted =
        "section 0\n00001000 0405b503 ld a0, 64(a1)\n00001004 00000597 auipc a1, 0\n00001008 02858593 addi a1, a1, 40\n0000100c 00853283 ld t0, 8(a0)\n00001010 ff010113 addi sp, sp, -16\n00001014 00113423 sd ra, 8(sp)\n00001018 000280e7 jalr ra, 0(t0)\n0000101c 00813083 ld ra, 8(sp)\n00001020 01010113 addi sp, sp, 16\n00001024 00000513 addi a0, zero, 0\n00001028 00008067 jalr zero, 0(ra)\n0000102c 0048 addi a0, sp, 4\n0000102e 0069 addi zero, zero, 26\n00001030 0000 -\nend\n";
    assert!(rt; !refused);
    assert!(rt; out.written() == wanted.as_bytes());
    Ok(())
}

#[test]
fn code_that_is_no_instruction(rt: HostRuntime) -> Result<(), Fail> {
    let alloc = rt.alloc();
    // Bytes from 0x1000 on, the section's length, and the lines.
    for (first, second, len, wanted) in [
        (
            0x0000_0013,
            0x0001_0000,
            8,
            "00001000 00000013 addi zero, zero, 0\n00001004 0000 -\n00001006 0001 addi zero, zero, 0\n",
        ),
        (
            0x0001_ffff,
            0x0013_0001,
            8,
            "00001000 ffff -\n00001002 0001 addi zero, zero, 0\n00001004 0001 addi zero, zero, 0\n00001006 0013 -\n",
        ),
        (
            0x0000_0013,
            0x0000_0073,
            6,
            "00001000 00000013 addi zero, zero, 0\n00001004 0073 -\n",
        ),
        (
            0x0000_0073,
            0x0000_0013,
            5,
            "00001000 00000073 ecall\n00001004 13 -\n",
        ),
        (
            0x0010_0073,
            0x0000_9002,
            7,
            "00001000 00100073 ebreak\n00001004 9002 ebreak\n00001006 00 -\n",
        ),
        (
            0x0ff0_000f,
            0xffff_f537,
            8,
            "00001000 0ff0000f fence\n00001004 fffff537 lui a0, 1048575\n",
        ),
        (
            0xfe00_0ee3,
            0x0000_0001,
            4,
            "00001000 fe000ee3 beq zero, zero, -4\n",
        ),
    ] {
        let file = hello(
            alloc,
            1024,
            &[Patch(0x200, first), Patch(0x204, second), Patch(0x150, len)],
        )?;
        let (out, refused) = list_text(&rt, alloc, file.as_slice())?;
        let wanted = format!(in alloc; "section 0\n{}end\n", wanted)?;
        assert!(rt; !refused);
        assert!(rt; out.written() == wanted.as_bytes(), "{wanted}");
    }
    Ok(())
}

#[test]
fn sections_that_are_not_listed(rt: HostRuntime) -> Result<(), Fail> {
    let alloc = rt.alloc();
    let file = hello(alloc, 1024, &[Patch(0x16c, 0xc000_0000)])?;
    let (out, _) = list_text(&rt, alloc, file.as_slice())?;
    assert!(rt; out.written() == b"end\n".as_slice());
    let (out, _) = image_text(&rt, alloc, file.as_slice())?;
    assert!(rt;
        out.written()
            .ends_with(b"\nsection 0 4096 50 50 rw-\nend\n")
    );
    Ok(())
}

#[test]
fn faults_of_files(rt: HostRuntime) -> Result<(), Fail> {
    let alloc = rt.alloc();
    for (len, patch, wanted) in [
        (0, Patch(0, 0), "refused Truncated(0)\n"),
        (367, Patch(0, 0x5a4d), "refused Truncated(364)\n"),
        (1024, Patch(0, 0x4d5a), "refused Magic\n"),
        (1024, Patch(0x44, 0x0001_8664), "refused Machine\n"),
        (1024, Patch(0x54, 239), "refused Header\n"),
        (1024, Patch(0x9c, 9), "refused Subsystem\n"),
        (1024, Patch(0x78, 0x1001), "refused Alignment\n"),
        (1024, Patch(0x90, 0x80_0001), "refused TooLarge\n"),
        (1024, Patch(0x154, 0x1800), "refused SectionOutside(0)\n"),
        (1024, Patch(0x154, 0), "refused SectionOverlap(0)\n"),
        (1024, Patch(0x68, 0x1001), "refused EntryOutside\n"),
        (1024, Patch(0xf4, 0x2001), "refused Directory\n"),
    ] {
        let file = hello(alloc, len, &[patch])?;
        let (out, refused) = image_text(&rt, alloc, file.as_slice())?;
        assert!(rt; refused);
        assert!(rt; out.written() == wanted.as_bytes(), "{wanted}");
        let (out, refused) = list_text(&rt, alloc, file.as_slice())?;
        assert!(rt; refused);
        assert!(rt; out.written() == wanted.as_bytes(), "{wanted}");
    }
    Ok(())
}

/// A block of base relocations of two entries in the section, in place of its first instructions.
fn with_block(alloc: Global, size: u32, entries: u32) -> Result<Vec<u8>, AllocError>
    ensures { IfOk result (λ file. vec_len file ≡ 1024) }
{
    hello(
        alloc,
        1024,
        &[
            Patch(0xf0, 0x1000),
            Patch(0xf4, 12),
            Patch(0x200, 0x1000),
            Patch(0x204, size),
            Patch(0x208, entries),
        ],
    )
}

#[test]
fn base_relocations(rt: HostRuntime) -> Result<(), Fail> {
    let alloc = rt.alloc();
    for (size, entries, wanted, is_refused) in [
        (
            12,
            0x5010_3018,
            "site highlow 4120\nsite high20 4112\nend\n",
            false,
        ),
        (12, 0x0000_a010, "site dir64 4112\nend\n", false),
        (12, 0x7010_8010, "end\n", false),
        (11, 0, "refused BlockSize(0)\n", true),
        (12, 0x1000_0000, "refused Kind(1)\n", true),
        (12, 0xa010_3014, "refused Overlap(1)\n", true),
    ] {
        let file = with_block(alloc, size, entries)?;
        let (out, refused) = image_text(&rt, alloc, file.as_slice())?;
        let wanted = format!(in alloc; "{}{}", HELLO_IMAGE, wanted)?;
        assert!(rt; refused == is_refused, "{wanted}");
        assert!(rt; out.written() == wanted.as_bytes(), "{wanted}");
    }
    Ok(())
}

#[test]
fn the_site_of_an_assembled_image(rt: HostRuntime) -> Result<(), Fail> {
    let alloc = rt.alloc();
    let text =
        ".alignment 32\nstart: la t0, cell\nld t0, 0(t0)\nla t1, start\nsub a0, t0, t1\nret\n.data\ncell: .dword start\n";
    assert!(rt; text.len() < 10_000);
    let file = match assemble(alloc, text) {
        Ok(file) => file,
        Err(_) => return Err(Fail::from("not assembled")),
    };
    let (out, refused) = image_text(&rt, alloc, file.as_slice())?;
    assert!(rt; !refused);
    assert!(rt; out.written().ends_with(b"\nsite dir64 480\nend\n"));
    Ok(())
}

#[test]
fn puts_that_fail(rt: HostRuntime) -> Result<(), Fail> {
    let alloc = rt.alloc();
    let file = hello(alloc, 1024, &[])?;
    let file = file.as_slice();
    assert!(rt; file.len() <= 0x40_0000);
    // The number of the put that fails, and how much is put before it.
    for (number, whole) in [(0, ""), (1, HELLO_IMAGE)] {
        let fail = vec![in alloc; number]?;
        let mut out = MemSink::new(alloc, 1000, fail)?;
        assert!(rt; put_image(alloc, file, &mut out) == Err(Stop::Write));
        assert!(rt; out.written() == whole.as_bytes());
    }
    for (number, whole) in [(0, ""), (1, "section 0\n")] {
        let fail = vec![in alloc; number]?;
        let mut out = MemSink::new(alloc, 1000, fail)?;
        assert!(rt; put_list(alloc, file, &mut out) == Err(Stop::Write));
        assert!(rt; out.written() == whole.as_bytes());
    }
    Ok(())
}
