//! Lines and their texts, by hand.
use record_text::{Cause, Line, line_text, read_line};
use std::test::Fail;

#[test]
fn texts_of_lines(rt: HostRuntime) -> Result<(), Fail> {
    let alloc = rt.alloc();
    for text in [
        "console ",
        "console Hi",
        "console  two  spaces ",
        "console \\\\ \\u000d\\u000a\\u2603\\uffff\\u007f",
        "load app 0000000000000000 0000000040fba000 2",
        "load a_1 8000000000000001 0000000000000000 0",
        "load app 0000000000000000 ffffffffffffffff 4294967295",
        "start app 0000000000000000 13",
        "start app ffffffffffffffff 18446744073709551615",
        "halt illegal 0000000040fba000 0000000000000000",
        "halt ebreak 0000000000000000 0000000000000000",
        "halt ecall 0000000000000001 0000000000000002",
        "halt fetch 0000000000000000 0000000000000000",
        "halt load 0000000000000000 0000000000000008",
        "halt store 0000000000000000 0000000000000008",
        "halt bound 0000000000000000 0000000000000000",
        "halt idle 0000000000000000 0000000000000000",
        "halt tpl 0000000000000000 0000000000000000",
        "halt boot-gone 0000000040fff050 0000000000000000",
        "halt depth 0000000000000000 0000000000000000",
        "halt frames 0000000000000000 0000000000000000",
        "end",
    ] {
        let line = read_line(alloc, text)?.ok_or("no line")?;
        let back = line_text(alloc, &line)?;
        assert!(rt; back.as_str() == text, "{text}");
    }
    let halt = Line::Halt {
        cause: Cause::BootGone,
        h0: 0x40ff_f050,
        h1: 0,
    };
    let text = line_text(alloc, &halt)?;
    assert!(rt; text.as_str() == "halt boot-gone 0000000040fff050 0000000000000000");
    Ok(())
}

#[test]
fn texts_of_lines_of_services_and_bytes(rt: HostRuntime) -> Result<(), Fail> {
    let alloc = rt.alloc();
    for text in [
        "svc RaiseTPL 0000000000000004",
        "svc UninstallMultipleProtocolInterfaces 8000000000000002",
        "svc Reset 0000000000000000",
        "svc ResetSystem 0000000000000000",
        "reset 2 8000000000000007",
        "unload app 8000000000000003",
        "exit_boot 0000000000000000",
        "bytes 65535 ff",
        "peek 0000000040000000 00ff",
        "peek ffffffffffffffff fault",
        "vars 5556533100000000",
    ] {
        let line = read_line(alloc, text)?.ok_or("no line")?;
        let back = line_text(alloc, &line)?;
        assert!(rt; back.as_str() == text, "{text}");
    }
    Ok(())
}

#[test]
fn texts_of_memory_maps(rt: HostRuntime) -> Result<(), Fail> {
    let alloc = rt.alloc();
    for text in [
        "memmap 3",
        "memmap 0",
        "memmap 18446744073709551615",
        "7 0000000040000000 4025 0000000000000008",
        "6 0000000040ffe000 1 8000000000000008",
        "0 0000000000000000 0 0000000000000000",
        "4294967295 ffffffffffffffff 18446744073709551615 ffffffffffffffff",
    ] {
        let line = read_line(alloc, text)?.ok_or("no line")?;
        let back = line_text(alloc, &line)?;
        assert!(rt; back.as_str() == text, "{text}");
    }
    let key = Line::MemmapKey { key: 3 };
    let text = line_text(alloc, &key)?;
    assert!(rt; text.as_str() == "memmap 3");
    let row = Line::MemmapRow {
        memory_type: 6,
        h0: 0x40ff_e000,
        pages: 1,
        h1: 0x8000_0000_0000_0008,
    };
    let text = line_text(alloc, &row)?;
    assert!(rt; text.as_str() == "6 0000000040ffe000 1 8000000000000008");
    Ok(())
}

#[test]
fn texts_of_no_line(rt: HostRuntime) -> Result<(), Fail> {
    let alloc = rt.alloc();
    for text in [
        "",
        "End",
        "end ",
        " end",
        "end\n",
        "ends",
        "console",
        "console \\",
        "console \\x41",
        "console \\u0041",
        "console \\u005c",
        "console \\u000D",
        "console \\ud800",
        "console \\u00",
        "console \t",
        "console \u{e9}",
        "Console Hi",
        "load app 0000000000000000 0000000040fba000",
        "load app 0000000000000000 0000000040fba000 ",
        "load app 0000000000000000 0000000040fba000 02",
        "load app 0000000000000000 0000000040fba000 +2",
        "load app 0000000000000000 0000000040fba000 0x2",
        "load app 0000000000000000 0000000040fba000 4294967296",
        "load app 000000000000000 0000000040fba000 2",
        "load app 0000000000000000 0000000040FBA000 2",
        "load  0000000000000000 0000000040fba000 2",
        "load App 0000000000000000 0000000040fba000 2",
        "load app  0000000000000000 0000000040fba000 2",
        "load abcdefghijklmnopqrstuvwxyz0123456 0000000000000000 0000000000000000 0",
        "start app 0000000000000000 013",
        "start app 000000000000000 13",
        "start app 0000000000000000 18446744073709551616",
        "start app 0000000000000000 13 ",
        "halt 0000000000000000 0000000000000000",
        "halt Illegal 0000000000000000 0000000000000000",
        "halt boot_gone 0000000000000000 0000000000000000",
        "halt bound 0000000000000000",
        "halt bound 0000000000000000 0000000000000000 0",
        "memmap",
        "memmap ",
        "memmap 03",
        "memmap 0x3",
        "memmap 18446744073709551616",
        "memmap 3 ",
        "7 0000000040000000 4025",
        "7 0000000040000000 4025 0000000000000008 ",
        "07 0000000040000000 4025 0000000000000008",
        "0x7 0000000040000000 4025 0000000000000008",
        "-7 0000000040000000 4025 0000000000000008",
        "7 000000040000000 4025 0000000000000008",
        "7 0000000040000000 04025 0000000000000008",
        "7 0000000040000000 4025 8",
        "7 0000000040000000  0000000000000008",
        "4294967296 0000000040000000 4025 0000000000000008",
        "7",
        "svc  0000000000000000",
        "bytes 65535 ff00",
        "bytes 0 ",
        "peek 0000000040000000 0F",
        "peek 0000000040000000 fff",
        "vars ",
        "svc RaiseTpl 0000000000000004",
        "svc RaiseTPL 4",
        "reset 02 0000000000000000",
        "reset 4294967296 0000000000000000",
        "stop",
    ] {
        assert!(rt; read_line(alloc, text)?.is_none(), "{text}");
    }
    Ok(())
}

#[test]
fn console_text_of_many_units(rt: HostRuntime) -> Result<(), Fail> {
    let alloc = rt.alloc();
    let mut text = String::from_str(alloc, "console ")?;
    for _ in 0..2048 {
        text.push_str("a\\u000a")?;
    }
    assert!(rt; read_line(alloc, text.as_str())?.is_some());
    text.push_str("a")?;
    assert!(rt; read_line(alloc, text.as_str())?.is_none());
    Ok(())
}
