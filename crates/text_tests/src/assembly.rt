//! Worked texts.

use base_reloc::{Site, SiteKind, read_sites};
use guest_build::{AsmFault, AsmKind, assemble};
use pe_image::{place, read_image};
use std::alloc::Global;
use std::process::Abort;
use std::test::Fail;

/// Whether these bytes stand at an offset of an image.
fn has_at(image: &[u8], at: usize, bytes: &[u8]) -> bool {
    at <= image.len() && image[at..].starts_with(bytes)
}

/// Refuses an answer other than an image of so many bytes, with these at an offset.
fn gives(rt: &impl Abort, alloc: Global, text: &str, len: usize, at: usize, bytes: &[u8]) {
    assert!(rt; text.len() < 10_000);
    match assemble(alloc, text) {
        Ok(image) => {
            assert_eq!(rt; image.len(), len, "{text}");
            assert!(rt; has_at(image.as_slice(), at, bytes), "{text}");
        }
        Err(fault) => assert!(rt; false, "{text}: {fault:?}"),
    }
}

/// Refuses an answer other than this fault.
fn refuses(rt: &impl Abort, alloc: Global, text: &str, line: u32, kind: AsmKind) {
    assert!(rt; text.len() < 10_000);
    match assemble(alloc, text) {
        Ok(_) => assert!(rt; false, "{text}"),
        Err(fault) => assert_eq!(rt; fault, AsmFault::At { line, kind }, "{text}"),
    }
}

/// Refuses an image that, once it is read and placed, has other sites than these.
fn has_sites(rt: &impl Abort, alloc: Global, file: &[u8], wanted: &[Site]) -> Result<(), Fail> {
    assert!(rt; file.len() <= 0x40_0000);
    let image = read_image(alloc, file)?;
    let mut placed = vec![in alloc; 0; (image.size as usize + 4095) / 4096 * 4096]?;
    place(&image, file, placed.as_mut_slice());
    let sites = read_sites(alloc, &image, placed.as_slice())?;
    assert_eq!(rt; sites.as_slice(), wanted);
    Ok(())
}

/// Refuses a text that is made to no image with these sites.
fn moves(rt: &impl Abort, alloc: Global, text: &str, wanted: &[Site]) -> Result<(), Fail> {
    assert!(rt; text.len() < 10_000);
    match assemble(alloc, text) {
        Ok(file) => has_sites(rt, alloc, file.as_slice(), wanted)?,
        Err(fault) => assert!(rt; false, "{text}: {fault:?}"),
    }
    Ok(())
}

/// Each instruction once, and each pseudoinstruction of one word.
const INSTRUCTIONS: &str =
    "start:\nlui a0, 1048575\nauipc s11, 1\njal ra, start\njalr t0, -8(t1)\nbeq a0, a1, start\nbne s0, s1, start\nblt t3, t4, start\nbge t5, t6, start\nbltu gp, tp, start\nbgeu zero, ra, start\nlb a0, -2048(sp)\nlh a1, 2047(sp)\nlw a2, 0(s2)\nld a3, 8(s3)\nlbu a4, 1(s4)\nlhu a5, 2(s5)\nlwu a6, 4(s6)\nsb a7, -2048(s7)\nsh s8, 2047(s9)\nsw s10, -4(a0)\nsd ra, 8(sp)\naddi a0, zero, 5\nslli a0, a1, 63\nslti a0, a1, -1\nsltiu a0, a1, 1\nxori a0, a1, -1\nsrli a0, a1, 1\nsrai a0, a1, 63\nori a0, a1, 0x7ff\nandi a0, a1, -0x800\naddiw a0, a1, 7\nslliw a0, a1, 31\nsrliw a0, a1, 1\nsraiw a0, a1, 31\nadd a0, a1, a2\nsub a0, a1, a2\nmul a0, a1, a2\nsll a0, a1, a2\nmulh a0, a1, a2\nslt a0, a1, a2\nmulhsu a0, a1, a2\nsltu a0, a1, a2\nmulhu a0, a1, a2\nxor a0, a1, a2\ndiv a0, a1, a2\nsrl a0, a1, a2\nsra a0, a1, a2\ndivu a0, a1, a2\nor a0, a1, a2\nrem a0, a1, a2\nand a0, a1, a2\nremu a0, a1, a2\naddw a0, a1, a2\nsubw a0, a1, a2\nmulw a0, a1, a2\nsllw a0, a1, a2\ndivw a0, a1, a2\nsrlw a0, a1, a2\nsraw a0, a1, a2\ndivuw a0, a1, a2\nremw a0, a1, a2\nremuw a0, a1, a2\nfence\necall\nebreak\nmv s0, a0\nnop\nret\nj start\njr a5\nbeqz a0, start\nbnez a1, start\ncall start\nli a0, 2047\nli a0, -2048\n";

/// Their words, as LLVM assembles them.
static WORDS: [u8; 300] = [
    0x37, 0xf5, 0xff, 0xff, 0x97, 0x1d, 0x00, 0x00, 0xef, 0xf0, 0x9f, 0xff, 0xe7, 0x02, 0x83, 0xff,
    0xe3, 0x08, 0xb5, 0xfe, 0xe3, 0x16, 0x94, 0xfe, 0xe3, 0x44, 0xde, 0xff, 0xe3, 0x52, 0xff, 0xff,
    0xe3, 0xe0, 0x41, 0xfe, 0xe3, 0x7e, 0x10, 0xfc, 0x03, 0x05, 0x01, 0x80, 0x83, 0x15, 0xf1, 0x7f,
    0x03, 0x26, 0x09, 0x00, 0x83, 0xb6, 0x89, 0x00, 0x03, 0x47, 0x1a, 0x00, 0x83, 0xd7, 0x2a, 0x00,
    0x03, 0x68, 0x4b, 0x00, 0x23, 0x80, 0x1b, 0x81, 0xa3, 0x9f, 0x8c, 0x7f, 0x23, 0x2e, 0xa5, 0xff,
    0x23, 0x34, 0x11, 0x00, 0x13, 0x05, 0x50, 0x00, 0x13, 0x95, 0xf5, 0x03, 0x13, 0xa5, 0xf5, 0xff,
    0x13, 0xb5, 0x15, 0x00, 0x13, 0xc5, 0xf5, 0xff, 0x13, 0xd5, 0x15, 0x00, 0x13, 0xd5, 0xf5, 0x43,
    0x13, 0xe5, 0xf5, 0x7f, 0x13, 0xf5, 0x05, 0x80, 0x1b, 0x85, 0x75, 0x00, 0x1b, 0x95, 0xf5, 0x01,
    0x1b, 0xd5, 0x15, 0x00, 0x1b, 0xd5, 0xf5, 0x41, 0x33, 0x85, 0xc5, 0x00, 0x33, 0x85, 0xc5, 0x40,
    0x33, 0x85, 0xc5, 0x02, 0x33, 0x95, 0xc5, 0x00, 0x33, 0x95, 0xc5, 0x02, 0x33, 0xa5, 0xc5, 0x00,
    0x33, 0xa5, 0xc5, 0x02, 0x33, 0xb5, 0xc5, 0x00, 0x33, 0xb5, 0xc5, 0x02, 0x33, 0xc5, 0xc5, 0x00,
    0x33, 0xc5, 0xc5, 0x02, 0x33, 0xd5, 0xc5, 0x00, 0x33, 0xd5, 0xc5, 0x40, 0x33, 0xd5, 0xc5, 0x02,
    0x33, 0xe5, 0xc5, 0x00, 0x33, 0xe5, 0xc5, 0x02, 0x33, 0xf5, 0xc5, 0x00, 0x33, 0xf5, 0xc5, 0x02,
    0x3b, 0x85, 0xc5, 0x00, 0x3b, 0x85, 0xc5, 0x40, 0x3b, 0x85, 0xc5, 0x02, 0x3b, 0x95, 0xc5, 0x00,
    0x3b, 0xc5, 0xc5, 0x02, 0x3b, 0xd5, 0xc5, 0x00, 0x3b, 0xd5, 0xc5, 0x40, 0x3b, 0xd5, 0xc5, 0x02,
    0x3b, 0xe5, 0xc5, 0x02, 0x3b, 0xf5, 0xc5, 0x02, 0x0f, 0x00, 0xf0, 0x0f, 0x73, 0x00, 0x00, 0x00,
    0x73, 0x00, 0x10, 0x00, 0x13, 0x04, 0x05, 0x00, 0x13, 0x00, 0x00, 0x00, 0x67, 0x80, 0x00, 0x00,
    0x6f, 0xf0, 0x1f, 0xef, 0x67, 0x80, 0x07, 0x00, 0xe3, 0x04, 0x05, 0xee, 0xe3, 0x92, 0x05, 0xee,
    0xef, 0xf0, 0x1f, 0xee, 0x13, 0x05, 0xf0, 0x7f, 0x13, 0x05, 0x00, 0x80,
];
/// A text, how long its image is, and bytes at an offset of the image.
static IMAGES: [(&str, usize, usize, &[u8]); 39] = [
    ("start: ret", 1024, 512, b"g\x80\0\0"),
    (
        "start: li a0, 2048",
        1024,
        512,
        b"7\x15\0\0\x1b\x05\x05\x80",
    ),
    ("start: li a0, 4096", 1024, 512, b"7\x15\0\0\x1b\x05\x05\0"),
    (
        "start: li a0, -2049",
        1024,
        512,
        b"7\xf5\xff\xff\x1b\x05\xf5\x7f",
    ),
    (
        "start: li a0, 2147483647",
        1024,
        512,
        b"7\x05\0\x80\x1b\x05\xf5\xff",
    ),
    (
        "start: li a0, -0x80000000",
        1024,
        512,
        b"7\x05\0\x80\x1b\x05\x05\0",
    ),
    (
        "start: ret\nla a0, start",
        1024,
        516,
        b"\x17\x05\0\0\x13\x05\xc5\xff",
    ),
    (
        "start: la a0, far\n.zero 2044\nfar: ret",
        3072,
        512,
        b"\x17\x15\0\0\x13\x05E\x80",
    ),
    (
        ".base 0x10000\nstart: lui a0, %hi(far)\naddi a0, a0, %lo(far)\n.zero 2040\nfar: ret",
        3584,
        512,
        b"7%\x01\0\x13\x05\x05\x80",
    ),
    (
        ".base 0xffffe000\nstart: lui a0, %hi(start)",
        1536,
        512,
        b"7\xf5\xff\xff",
    ),
    (
        "start: beq a0, a1, far\n.zero 4088\nfar: ret",
        4608,
        512,
        b"\xe3\x0e\xb5~",
    ),
    (
        "start: j far\n.zero 1044472\nfar: ret",
        1044992,
        512,
        b"o\xe0\xdf\x7f",
    ),
    (
        "start: ret\n.data\n.byte 255\n.byte -128\n.half 65535\n.half -32768\n.word 4294967295\n.word -2147483648\n.dword 18446744073709551615\n.dword -0x8000000000000000\n.zero 3\n.ascii16 \"A#:\"\n.guid 8be4df61-93ca-11d2-aa0d-00e098032b8c",
        1536,
        1024,
        b"\xff\x80\xff\xff\0\x80\xff\xff\xff\xff\0\0\0\x80\xff\xff\xff\xff\xff\xff\xff\xff\0\0\0\0\0\0\0\x80\0\0\0A\0#\0:\0\0\0a\xdf\xe4\x8b\xca\x93\xd2\x11\xaa\x0d\0\xe0\x98\x03+\x8c",
    ),
    (
        "\t start :\tret # a: b\r\n\n# x\r\n",
        1024,
        512,
        b"g\x80\0\0",
    ),
    (
        "start: ret\nend: .data\n.dword end",
        2048,
        1024,
        b"\x04\x10\0\0\0\0\0\0",
    ),
    ("start: ret\n.subsystem 12", 1024, 0x9c, b"\x0c\0"),
    (
        "start: ret\n.base 0x140000000",
        1024,
        0x70,
        b"\0\0\0@\x01\0\0\0",
    ),
    (
        ".data\n.byte 1\n.text\nstart: ret\n.data\n.byte 2",
        1536,
        1024,
        b"\x01\x02\0",
    ),
    (
        "abcdefghijklmnopqrstuvwxyz012345: ret\nstart: ret",
        1024,
        516,
        b"g\x80\0\0",
    ),
    (
        "start: ret\nx: .guid urn:uuid:8be4df61-93ca-11d2-aa0d-00e098032b8c",
        1024,
        516,
        b"a\xdf\xe4\x8b\xca\x93\xd2\x11\xaa\x0d\0\xe0\x98\x03+\x8c",
    ),
    ("start: ret\n.ascii16 \"\"", 1024, 516, b"\0\0"),
    ("start: ret\n.ascii16 \"a\" # \"b\"", 1024, 516, b"a\0\0\0"),
    (
        ".base 0x10000\nstart: lui a0, %hi(cell)\naddi a0, a0, %lo(cell)\nld a1, %lo ( cell ) ( a0 )\nret\n.data\ncell: .dword start",
        2048,
        512,
        b"7%\x01\0\x13\x05\x05\0\x835\x05\0g\x80\0\0",
    ),
    (
        ".base 0x10000\nstart: lui a0, %hi(cell)\naddi a0, a0, %lo(cell)\nld a1, %lo ( cell ) ( a0 )\nret\n.data\ncell: .dword start",
        2048,
        1024,
        b"\0\x10\x01\0\0\0\0\0",
    ),
    (
        ".base 0x10000\nstart: lui a0, %hi(cell)\naddi a0, a0, %lo(cell)\nld a1, %lo ( cell ) ( a0 )\nret\n.data\ncell: .dword start",
        2048,
        1536,
        b"\0\x10\0\0\x0c\0\0\0\0P\0\0\0 \0\0\x0c\0\0\0\0\xa0\0\0",
    ),
    (
        "start: ret\n.data\n.dword start\n.dword start",
        2048,
        1536,
        b"\0 \0\0\x0c\0\0\0\0\xa0\x08\xa0",
    ),
    (
        ".data\n.dword start\n.text\nstart: lui a0, %hi(start)",
        2048,
        1536,
        b"\0\x10\0\0\x0c\0\0\0\0P\0\0\0 \0\0\x0c\0\0\0\0\xa0\0\0",
    ),
    (
        ".alignment 32\nstart: la t0, cell\nld t0, 0(t0)\nla t1, start\nsub a0, t0, t1\nret\n.data\ncell: .dword start",
        544,
        0x46,
        b"\x03\0",
    ),
    (
        ".alignment 32\nstart: la t0, cell\nld t0, 0(t0)\nla t1, start\nsub a0, t0, t1\nret\n.data\ncell: .dword start",
        544,
        0x68,
        b"\xc0\x01\0\0",
    ),
    (
        ".alignment 32\nstart: la t0, cell\nld t0, 0(t0)\nla t1, start\nsub a0, t0, t1\nret\n.data\ncell: .dword start",
        544,
        0x78,
        b" \0\0\0 \0\0\0",
    ),
    (
        ".alignment 32\nstart: la t0, cell\nld t0, 0(t0)\nla t1, start\nsub a0, t0, t1\nret\n.data\ncell: .dword start",
        544,
        0x90,
        b" \x02\0\0\xc0\x01\0\0",
    ),
    (
        ".alignment 32\nstart: la t0, cell\nld t0, 0(t0)\nla t1, start\nsub a0, t0, t1\nret\n.data\ncell: .dword start",
        544,
        0xf0,
        b"\0\x02\0\0\x0c\0\0\0",
    ),
    (
        ".alignment 32\nstart: la t0, cell\nld t0, 0(t0)\nla t1, start\nsub a0, t0, t1\nret\n.data\ncell: .dword start",
        544,
        0x148,
        b".text\0\0\0\x1c\0\0\0\xc0\x01\0\0 \0\0\0\xc0\x01\0\0\0\0\0\0\0\0\0\0\0\0\0\0\0\0\0`.data\0\0\0\x08\0\0\0\xe0\x01\0\0 \0\0\0\xe0\x01\0\0\0\0\0\0\0\0\0\0\0\0\0\0\0\0\0\xc0.reloc\0\0\x0c\0\0\0\0\x02\0\0 \0\0\0\0\x02\0\0\0\0\0\0\0\0\0\0\0\0\0\0\0\0\0@",
    ),
    (
        ".alignment 32\nstart: la t0, cell\nld t0, 0(t0)\nla t1, start\nsub a0, t0, t1\nret\n.data\ncell: .dword start",
        544,
        0x1c0,
        b"\x97\x02\0\0\x93\x82\x02\x02\x83\xb2\x02\0\x17\x03\0\0\x13\x03C\xff3\x85b@g\x80\0\0",
    ),
    (
        ".alignment 32\nstart: la t0, cell\nld t0, 0(t0)\nla t1, start\nsub a0, t0, t1\nret\n.data\ncell: .dword start",
        544,
        0x1e0,
        b"\xc0\x01\0\0\0\0\0\0",
    ),
    (
        ".alignment 32\nstart: la t0, cell\nld t0, 0(t0)\nla t1, start\nsub a0, t0, t1\nret\n.data\ncell: .dword start",
        544,
        512,
        b"\0\0\0\0\x0c\0\0\0\xe0\xa1\0\0",
    ),
    (
        ".alignment 32\nstart: ret\n.zero 1044500",
        1044896,
        0x180,
        b"g\x80\0\0",
    ),
    (
        "start: ld a0, 64(a1)\nla a1, msg\nld t0, 8(a0)\naddi sp, sp, -16\nsd ra, 8(sp)\njalr ra, 0(t0)\nld ra, 8(sp)\naddi sp, sp, 16\nli a0, 0\nret\nmsg: .ascii16 \"Hi\"",
        1024,
        0x0,
        b"MZ\0\0\0\0\0\0\0\0\0\0\0\0\0\0\0\0\0\0\0\0\0\0\0\0\0\0\0\0\0\0\0\0\0\0\0\0\0\0\0\0\0\0\0\0\0\0\0\0\0\0\0\0\0\0\0\0\0\0@\0\0\0PE\0\0dP\x01\0\0\0\0\0\0\0\0\0\0\0\0\0\xf0\0\0\0\x0b\x02\0\0\0\0\0\0\0\0\0\0\0\0\0\0\0\x10\0\0\0\0\0\0\0\0\0\0\0\0\0\0\0\x10\0\0\0\x02\0\0\0\0\0\0\0\0\0\0\0\0\0\0\0\0\0\0\0 \0\0\0\x02\0\0\0\0\0\0\x0a\0\0\0\0\0\0\0\0\0\0\0\0\0\0\0\0\0\0\0\0\0\0\0\0\0\0\0\0\0\0\0\0\0\0\0\0\0\0\0\x10\0\0\0\0\0\0\0\0\0\0\0\0\0\0\0\0\0\0\0\0\0\0\0\0\0\0\0\0\0\0\0\0\0\0\0\0\0\0\0\0\0\0\0\0\0\0\0\0\0\0\0\0\0\0\0\0\0\0\0\0\0\0\0\0\0\0\0\0\0\0\0\0\0\0\0\0\0\0\0\0\0\0\0\0\0\0\0\0\0\0\0\0\0\0\0\0\0\0\0\0\0\0\0\0\0\0\0\0\0\0\0\0\0\0\0\0\0\0\0\0\0\0\0\0\0\0\0\0\0\0\0.text\0\0\02\0\0\0\0\x10\0\0\0\x02\0\0\0\x02\0\0\0\0\0\0\0\0\0\0\0\0\0\0\0\0\0`",
    ),
    (
        "start: ld a0, 64(a1)\nla a1, msg\nld t0, 8(a0)\naddi sp, sp, -16\nsd ra, 8(sp)\njalr ra, 0(t0)\nld ra, 8(sp)\naddi sp, sp, 16\nli a0, 0\nret\nmsg: .ascii16 \"Hi\"",
        1024,
        0x170,
        b"\0\0\0\0\0\0\0\0\0\0\0\0\0\0\0\0\0\0\0\0\0\0\0\0\0\0\0\0\0\0\0\0\0\0\0\0\0\0\0\0\0\0\0\0\0\0\0\0\0\0\0\0\0\0\0\0\0\0\0\0\0\0\0\0\0\0\0\0\0\0\0\0\0\0\0\0\0\0\0\0\0\0\0\0\0\0\0\0\0\0\0\0\0\0\0\0\0\0\0\0\0\0\0\0\0\0\0\0\0\0\0\0\0\0\0\0\0\0\0\0\0\0\0\0\0\0\0\0\0\0\0\0\0\0\0\0\0\0\0\0\0\0\0\0\x03\xb5\x05\x04\x97\x05\0\0\x93\x85\x85\x02\x832\x85\0\x13\x01\x01\xff#4\x11\0\xe7\x80\x02\0\x830\x81\0\x13\x01\x01\x01\x13\x05\0\0g\x80\0\0H\0i\0\0\0\0\0\0\0\0\0\0\0\0\0\0\0\0\0",
    ),
];

/// A text, and what is wrong with it.
static FAULTS: [(&str, u32, AsmKind); 115] = [
    ("", 0, AsmKind::Label),
    ("ret", 0, AsmKind::Label),
    ("foo", 0, AsmKind::Label),
    ("Start: ret", 0, AsmKind::Label),
    ("start ret", 0, AsmKind::Label),
    ("start: foo", 1, AsmKind::Word),
    ("start: .ascii16\"x\"", 1, AsmKind::Word),
    ("start: j(start)", 1, AsmKind::Word),
    ("start: RET", 1, AsmKind::Word),
    ("start: fence.i", 1, AsmKind::Word),
    ("start: ret\r", 1, AsmKind::Word),
    ("start: .ret", 1, AsmKind::Word),
    ("start: ret ", 1, AsmKind::Word),
    ("start: ret\nA: ret", 2, AsmKind::Word),
    ("start: ret\n1a: ret", 2, AsmKind::Word),
    ("start: ret\n: ret", 2, AsmKind::Word),
    ("start: ret\na b: ret", 2, AsmKind::Word),
    (
        "start: ret\nabcdefghijklmnopqrstuvwxyz0123456: ret",
        2,
        AsmKind::Word,
    ),
    (
        "start: ret\n.guid urn:uuid:8be4df61-93ca-11d2-aa0d-00e098032b8c",
        2,
        AsmKind::Word,
    ),
    ("start: ret\n.ascii16 \"a:b", 2, AsmKind::Word),
    ("start: ret\nx: y: ret", 2, AsmKind::Word),
    ("start: ret\nstart: foo", 2, AsmKind::Word),
    ("start: ret a0", 1, AsmKind::Operand),
    ("start: addi a0, a1", 1, AsmKind::Operand),
    ("start: addi a0, a1, 1, 2", 1, AsmKind::Operand),
    ("start: add a0, a1, x5", 1, AsmKind::Operand),
    ("start: add a0, a1, fp", 1, AsmKind::Operand),
    ("start: addi a0, a1, -0", 1, AsmKind::Operand),
    ("start: addi a0, a1, 010", 1, AsmKind::Operand),
    ("start: addi a0, a1, - 1", 1, AsmKind::Operand),
    ("start: addi a0, a1, +1", 1, AsmKind::Operand),
    (
        "start: addi a0, a1, 18446744073709551616",
        1,
        AsmKind::Operand,
    ),
    (
        "start: addi a0, a1, 0x00000000000000001",
        1,
        AsmKind::Operand,
    ),
    ("start: ld a0, (a1)", 1, AsmKind::Operand),
    ("start: ld a0, 8 a1", 1, AsmKind::Operand),
    ("start: ld a0, 8(a1", 1, AsmKind::Operand),
    ("start: ld a0, 8(a1) 0", 1, AsmKind::Operand),
    ("start: beq a0, a1, 8", 1, AsmKind::Operand),
    ("start: slli a0, a1, %lo(start)", 1, AsmKind::Operand),
    ("start: auipc a0, %hi(start)", 1, AsmKind::Operand),
    ("start: lui a0, %lo(start)", 1, AsmKind::Operand),
    ("start: addi a0, a0, %hi(start)", 1, AsmKind::Operand),
    ("start: addi a0, a0, % lo(start)", 1, AsmKind::Operand),
    ("start: ld a0, %lo(start)", 1, AsmKind::Operand),
    ("start: fence iorw, iorw", 1, AsmKind::Operand),
    ("start: jal start", 1, AsmKind::Operand),
    ("start: jalr ra, t0", 1, AsmKind::Operand),
    ("start: jr ra, ra", 1, AsmKind::Operand),
    ("start: nop 0", 1, AsmKind::Operand),
    ("start: li a0", 1, AsmKind::Operand),
    ("start: mv a0, 1", 1, AsmKind::Operand),
    ("start: call 8", 1, AsmKind::Operand),
    ("start: .text 1", 1, AsmKind::Operand),
    ("start: .dword", 1, AsmKind::Operand),
    ("start: .dword 1, 2", 1, AsmKind::Operand),
    ("start: .byte start", 1, AsmKind::Operand),
    ("start: .zero -0", 1, AsmKind::Operand),
    ("start: .base", 1, AsmKind::Operand),
    ("start: .ascii16 a", 1, AsmKind::Operand),
    ("start: .ascii16 \"ab", 1, AsmKind::Operand),
    ("start: .ascii16 \"a\"b\"", 1, AsmKind::Operand),
    ("start: .ascii16 \"é\"", 1, AsmKind::Operand),
    ("start: .guid x", 1, AsmKind::Operand),
    (
        "start: .guid {8be4df6193ca11d2aa0d00e098032b8c}",
        1,
        AsmKind::Operand,
    ),
    ("start: ret\nstart: ret a0", 2, AsmKind::Operand),
    ("start: ret\nstart: ret", 2, AsmKind::Twice),
    (".base 0\nstart: .base 0", 2, AsmKind::Twice),
    (".alignment 32\nstart: .alignment 4096", 2, AsmKind::Twice),
    ("start: ret\nstart: j x", 2, AsmKind::Twice),
    ("start: ret\nstart: li a0, 9999999999", 2, AsmKind::Twice),
    (
        ".subsystem 10\nstart: ret\n.subsystem 11",
        3,
        AsmKind::Twice,
    ),
    ("start: j x", 1, AsmKind::Label),
    ("start: .dword x", 1, AsmKind::Label),
    ("start: lui a0, %hi(x)", 1, AsmKind::Label),
    ("start: addi a0, a0, %lo(x)", 1, AsmKind::Label),
    ("start: ld a0, %lo(x)(a0)", 1, AsmKind::Label),
    ("start: la a0, x", 1, AsmKind::Label),
    ("start: bnez a0, x", 1, AsmKind::Label),
    ("start: call x", 1, AsmKind::Label),
    ("start: j x\nx: foo", 2, AsmKind::Word),
    ("start: addi a0, a0, 2048", 1, AsmKind::Range),
    ("start: addi a0, a0, -2049", 1, AsmKind::Range),
    ("start: addi a0, a0, 0xffffffffffffffff", 1, AsmKind::Range),
    ("start: sd a0, 2048(a0)", 1, AsmKind::Range),
    ("start: slli a0, a0, 64", 1, AsmKind::Range),
    ("start: slliw a0, a0, 32", 1, AsmKind::Range),
    ("start: srai a0, a0, -1", 1, AsmKind::Range),
    ("start: lui a0, 1048576", 1, AsmKind::Range),
    ("start: auipc a0, -1", 1, AsmKind::Range),
    ("start: li a0, 2147483648", 1, AsmKind::Range),
    ("start: li a0, -2147483649", 1, AsmKind::Range),
    ("start: .byte 256", 1, AsmKind::Range),
    ("start: .byte -129", 1, AsmKind::Range),
    ("start: .half 65536", 1, AsmKind::Range),
    ("start: .half -32769", 1, AsmKind::Range),
    ("start: .word 4294967296", 1, AsmKind::Range),
    ("start: .word -2147483649", 1, AsmKind::Range),
    ("start: .dword -9223372036854775809", 1, AsmKind::Range),
    ("start: .base 4095", 1, AsmKind::Range),
    ("start: .base -4096", 1, AsmKind::Range),
    ("start: .subsystem 9", 1, AsmKind::Range),
    ("start: .subsystem 13", 1, AsmKind::Range),
    ("start: .alignment 64", 1, AsmKind::Range),
    ("start: .zero 1048577", 1, AsmKind::Range),
    ("start: .zero -1", 1, AsmKind::Range),
    (
        "start: beq a0, a1, far\n.zero 4092\nfar: ret",
        1,
        AsmKind::Range,
    ),
    ("start: j far\n.zero 1048572\nfar: ret", 1, AsmKind::Range),
    ("start: j x\n.byte 0\nx: ret", 1, AsmKind::Range),
    (
        ".base 0xfffff000\nstart: lui a0, %hi(start)",
        2,
        AsmKind::Range,
    ),
    ("far: ret\nstart: addi a0, a0, 9999\nfoo", 2, AsmKind::Range),
    (
        "far: ret\n.zero 4096\nstart: beq a0, a1, far",
        3,
        AsmKind::Range,
    ),
    ("start: ret\n.zero 1048576", 2, AsmKind::Size),
    ("start: ret\n.zero 1044480", 2, AsmKind::Size),
    ("start: ret\n.zero 1044500\n.alignment 32", 2, AsmKind::Size),
    ("start: ret\n.zero 1044476\n.byte 0", 3, AsmKind::Size),
];

#[test]
fn each_instruction_has_its_word(rt: HostRuntime) {
    gives(&rt, rt.alloc(), INSTRUCTIONS, 1024, 512, &WORDS);
}

#[test]
fn images_have_their_bytes(rt: HostRuntime) {
    for (text, len, at, bytes) in IMAGES {
        gives(&rt, rt.alloc(), text, len, at, bytes);
    }
}

#[test]
fn the_first_fault_is_told(rt: HostRuntime) {
    for (text, line, kind) in FAULTS {
        refuses(&rt, rt.alloc(), text, line, kind);
    }
}

#[test]
fn addresses_of_labels_are_sites(rt: HostRuntime) -> Result<(), Fail> {
    let alloc = rt.alloc();
    // a cell behind five instructions and their headers, and none without a label
    let cell = [Site {
        at: 480,
        kind: SiteKind::Dir64,
    }];
    moves(
        &rt,
        alloc,
        ".alignment 32\nstart: la t0, cell\nld t0, 0(t0)\nla t1, start\nsub a0, t0, t1\nret\n.data\ncell: .dword start",
        &cell,
    )?;
    moves(&rt, alloc, "start: ret\n.data\n.dword 4096", &[])?;
    // three blocks, of two sections
    let pages = [
        Site {
            at: 0x1000,
            kind: SiteKind::High20,
        },
        Site {
            at: 0x2000,
            kind: SiteKind::Dir64,
        },
        Site {
            at: 0x3008,
            kind: SiteKind::Dir64,
        },
    ];
    moves(
        &rt,
        alloc,
        "start: lui a0, %hi(far)\nret\n.data\nnear: .dword start\n.zero 4096\nfar: .dword near",
        &pages,
    )
}
