//! Values from outside, and each call that allocates.
use std::test::Fail;
use uh_base::{
    Bytes, FileEnd, Files, Guid, MemFiles, MemSink, Numbered, Sink, Text, crc32, hex_text,
    hexadecimal, is_name, number, place_of,
};

#[test]
fn crc_of_published_messages(rt: HostRuntime) {
    assert_eq!(rt; crc32(b"123456789"), 0xcbf4_3926);
    assert_eq!(rt; crc32(b""), 0);
    assert_eq!(rt;
        crc32(b"The quick brown fox jumps over the lazy dog"),
        0x414f_a339
    );
}

#[test]
fn number_texts(rt: HostRuntime) {
    for (text, value) in [
        ("0", 0),
        ("7", 7),
        ("18446744073709551615", u64::MAX),
        ("0x0", 0),
        ("0xfF", 255),
        ("0x0000000000000001", 1),
        ("0xffffffffffffffff", u64::MAX),
    ] {
        assert!(rt; number(text) == Some(value), "{text}");
    }
    for text in [
        "",
        "00",
        "01",
        "+1",
        "-1",
        " 1",
        "1 ",
        "0x",
        "0X1",
        "0x0g",
        "x1",
        "a",
        "1_000",
        "18446744073709551616",
        "99999999999999999999",
        "0x10000000000000000",
        "0x00000000000000001",
    ] {
        assert!(rt; number(text).is_none(), "{text}");
    }
}

/// The GUID of UEFI's global variables (UEFI 2.10, 3.3).
const GLOBAL_VARIABLE: [u8; 16] = [
    0x61, 0xdf, 0xe4, 0x8b, 0xca, 0x93, 0xd2, 0x11, 0xaa, 0x0d, 0x00, 0xe0, 0x98, 0x03, 0x2b, 0x8c,
];

#[test]
fn guid_texts(rt: HostRuntime) {
    for text in [
        "8be4df61-93ca-11d2-aa0d-00e098032b8c",
        "8BE4DF61-93CA-11D2-AA0D-00E098032B8C",
        "8be4df6193ca11d2aa0d00e098032b8c",
        "{8be4df61-93ca-11d2-aa0d-00e098032b8c}",
        "urn:uuid:8be4df61-93ca-11d2-aa0d-00e098032b8c",
    ] {
        match Guid::read(text) {
            Some(guid) => {
                assert!(rt; guid.to_bytes() == GLOBAL_VARIABLE, "{text}");
                assert!(rt; guid == Guid::from_bytes(&GLOBAL_VARIABLE), "{text}");
                assert!(rt;
                    guid.d1 == 0x8be4_df61 && guid.d4 == 0xaa0d_00e0_9803_2b8c,
                    "{text}"
                );
            }
            None => assert!(rt; false, "{text}"),
        }
    }
    for text in [
        "",
        "8be4df61-93ca-11d2-aa0d-00e098032b8",
        "8be4df61-93ca-11d2-aa0d-00e098032b8cc",
        "8be4df61-93ca-11d2-aa0d00e0-98032b8c",
        "8be4df61-93ca-11d2-aa0d-00e098032b8g",
        "{8be4df6193ca11d2aa0d00e098032b8c}",
        "{8be4df61-93ca-11d2-aa0d-00e098032b8c",
        " 8be4df61-93ca-11d2-aa0d-00e098032b8c",
    ] {
        assert!(rt; Guid::read(text).is_none(), "{text}");
    }
}

#[test]
fn files_in_memory(rt: HostRuntime) -> Result<(), Fail> {
    let alloc = rt.alloc();
    let mut files = MemFiles::new(alloc, vec![in alloc; 2]?);
    files.add(alloc, "a", b"one")?;
    files.add(alloc, "b", b"two")?;
    files.add(alloc, "a", b"three")?;
    let bytes = files.read(alloc, "a", 5).ok().ok_or("read 0")?;
    assert!(rt; bytes.as_slice() == b"three".as_slice());
    assert!(rt; matches!(files.read(alloc, "c", 5), Err(FileEnd::Failed)));
    assert!(rt; matches!(files.read(alloc, "b", 5), Err(FileEnd::Failed)));
    assert!(rt; matches!(files.read(alloc, "b", 2), Err(FileEnd::TooLong)));
    let bytes = files.read(alloc, "b", 3).ok().ok_or("read 4")?;
    assert!(rt; bytes.as_slice() == b"two".as_slice());
    Ok(())
}

#[test]
fn sink_in_memory(rt: HostRuntime) -> Result<(), Fail> {
    let alloc = rt.alloc();
    let mut sink = MemSink::new(alloc, 4, vec![in alloc; 1]?)?;
    assert!(rt; sink.put(b"ab").is_ok());
    assert!(rt; sink.put(b"c").is_err());
    assert!(rt; sink.put(b"cde").is_err());
    assert!(rt; sink.put(b"cd").is_ok());
    assert!(rt; sink.put(b"").is_ok());
    assert!(rt; sink.written() == b"abcd".as_slice());
    Ok(())
}

#[test]
fn texts_and_bytes(rt: HostRuntime) -> Result<(), Fail> {
    let alloc = rt.alloc();
    let text = Text::new(alloc, "boot")?;
    assert!(rt; text.as_str() == "boot");
    let text = Text::from_string(String::from_str(alloc, "app")?);
    assert!(rt; text.as_str() == "app");
    let bytes = Bytes::new(alloc, b"\x00\xff")?;
    assert!(rt; bytes.as_slice() == b"\x00\xff".as_slice());
    let bytes = Bytes::from_vec(vec![in alloc; 7]?);
    assert!(rt; bytes.as_slice() == b"\x07".as_slice());
    Ok(())
}

#[test]
fn hexadecimal_texts(rt: HostRuntime) -> Result<(), Fail> {
    let alloc = rt.alloc();
    let text = hex_text(alloc, 16, 0x40fb_a000)?;
    assert!(rt; text.as_str() == "0000000040fba000");
    let text = hex_text(alloc, 2, 0x10a)?;
    assert!(rt; text.as_str() == "0a");
    assert!(rt; hexadecimal(b"00fF") == Some(255));
    assert!(rt; hexadecimal(b"").is_none());
    assert!(rt; hexadecimal(b"0x1").is_none());
    Ok(())
}

#[test]
fn names(rt: HostRuntime) {
    for name in [
        "a",
        "app",
        "drv_2",
        "0",
        "_",
        "abcdefghijklmnopqrstuvwxyz012345",
    ] {
        assert!(rt; is_name(name), "{name}");
    }
    for name in [
        "",
        "A",
        "a b",
        "a-b",
        "é",
        "abcdefghijklmnopqrstuvwxyz0123456",
    ] {
        assert!(rt; !is_name(name), "{name}");
    }
}

#[derive(Drop)]
struct Item(u64);

impl Numbered for Item {
    ghost number = { λ item. item.0 };

    fn number(&self) -> u64 {
        self.0
    }
}

#[test]
fn items_by_number(rt: HostRuntime) {
    let items = [Item(2), Item(3), Item(7), Item(u64::MAX)];
    for (number, place) in [
        (2, Some(0)),
        (3, Some(1)),
        (7, Some(2)),
        (u64::MAX, Some(3)),
        (0, None),
        (4, None),
    ] {
        assert_eq!(rt; place_of(&items, number), place);
    }
    assert!(rt; place_of::<Item>(&[], 2).is_none());
}
