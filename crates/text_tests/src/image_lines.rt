//! Lines on image files and their texts, by hand.
use record_text::{ImageFault, ImageLine, push_image_line, read_image_line};
use std::test::Fail;

#[test]
fn texts_of_image_lines(rt: HostRuntime) -> Result<(), Fail> {
    let alloc = rt.alloc();
    for text in [
        "image 10 0000000000000000 8192 4096 4096 relocatable",
        "image 65535 ffffffffffffffff 4294967295 0 32 stripped",
        "section 0 4096 50 50 r-x",
        "section 65535 4294967295 0 4294967295 ---",
        "section 3 0 1 2 rwx",
        "section 3 0 1 2 -w-",
        "site dir64 480",
        "site highlow 0",
        "site high20 4294967295",
        "section 0",
        "section 65535",
        "00001000 0405b503 ld a0, 64(a1)",
        "ffffffff 00000000  ",
        "0000102c 0048 addi a0, sp, 4",
        "0000102c 0048 --",
        "0000102c 0048 ",
        "00001030 0000 -",
        "00001032 00 -",
        "refused Truncated(364)",
        "refused Truncated(4294967295)",
        "refused Magic",
        "refused Machine",
        "refused Header",
        "refused Subsystem",
        "refused Alignment",
        "refused TooLarge",
        "refused SectionOutside(65535)",
        "refused SectionOverlap(0)",
        "refused EntryOutside",
        "refused Directory",
        "refused BlockSize(1)",
        "refused Kind(2)",
        "refused Outside(3)",
        "refused Overlap(12)",
        "refused Range32(4294967295)",
        "end",
    ] {
        let line = read_image_line(alloc, text)?.ok_or("no line")?;
        let mut back = Vec::new(alloc);
        push_image_line(&mut back, &line)?;
        assert!(rt; back.as_slice() == text.as_bytes(), "{text}");
    }
    let mut text = Vec::new(alloc);
    let fault = ImageFault::Overlap(12);
    push_image_line(&mut text, &ImageLine::Refused { fault })?;
    assert!(rt; text.as_slice() == b"refused Overlap(12)".as_slice());
    Ok(())
}

#[test]
fn texts_of_no_image_line(rt: HostRuntime) -> Result<(), Fail> {
    let alloc = rt.alloc();
    for text in [
        "",
        "End",
        "end ",
        "image",
        "image 10 0000000000000000 8192 4096 4096",
        "image 10 0000000000000000 8192 4096 4096 moved",
        "image 10 000000000000000 8192 4096 4096 stripped",
        "image 65536 0000000000000000 8192 4096 4096 stripped",
        "image 10 0000000000000000 08192 4096 4096 stripped",
        "section",
        "section ",
        "section 65536",
        "section 00",
        "section 0 4096 50 50",
        "section 0 4096 50 50 xwr",
        "section 0 4096 50 50 R-X",
        "section 0 4096 50 50 r-x ",
        "section 0 4096 50 50 r-",
        "section 0 4294967296 50 50 r-x",
        "site dir64",
        "site dir32 480",
        "site DIR64 480",
        "site dir64 0x480",
        "00001000",
        "00001000 0405b503",
        "0001000 0405b503 ld a0, 64(a1)",
        "00001000 0405B503 ld a0, 64(a1)",
        "00001000 0405b503 -",
        "00001000 0405b503 ld\ta0",
        "00001000 0405b50 ld a0, 64(a1)",
        "00001000 00 ebreak",
        "00001000 048 addi a0, sp, 4",
        "100000000 0048 addi a0, sp, 4",
        "00001000 0048 \u{e9}",
        "refused",
        "refused magic",
        "refused Memory",
        "refused Magic(0)",
        "refused Truncated",
        "refused Truncated()",
        "refused Truncated(00)",
        "refused Truncated(364",
        "refused Truncated(364) ",
        "refused Truncated(4294967296)",
        "refused SectionOutside(65536)",
    ] {
        assert!(rt; read_image_line(alloc, text)?.is_none(), "{text}");
    }
    Ok(())
}
