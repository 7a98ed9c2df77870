//! Strings that are written down elsewhere, as a guest gives them.

use address_view::View;
use console_services::{Reply, output_string, query_mode, set_mode, test_string};
use guest_call::{Answer, number_seen};
use guest_memory::GuestMemory;
use std::alloc::{AllocError, Global};
use std::test::Fail;
use uh_base::EfiStatus;

/// A page at 0x100000 that begins with these bytes.
fn page_with(alloc: Global, bytes: &[u8]) -> Result<GuestMemory, AllocError> {
    let mut memory = GuestMemory::new(alloc, 0x100000, 1)?;
    let mut at: u64 = 0x100000;
    for byte in bytes {
        let _ = memory.put(at, *byte);
        at = at.wrapping_add(1);
    }
    Ok(memory)
}

#[test]
fn strings_are_printed_and_tested(rt: HostRuntime) -> Result<(), Fail> {
    let alloc = rt.alloc();
    let view = View::identity(alloc, 0x100000, 0x1000)?;
    let memory = page_with(alloc, b"H\0i\0\0\0H\0\x3d\xd8\x5c\0\x0d\0\0\0")?;
    let reply = output_string(alloc, &view, &memory, 0x100000)?;
    assert!(rt; matches!(&reply, Reply::Prints(text, 0) if text.as_str() == "Hi"));
    assert_eq!(rt;
        test_string(alloc, &view, &memory, 0x100000)?,
        EfiStatus::SUCCESS
    );
    let reply = output_string(alloc, &view, &memory, 0x100006)?;
    assert!(rt; matches!(&reply, Reply::Prints(text, 1) if text.as_str() == "H\\\\\\u000d"));
    assert_eq!(rt;
        test_string(alloc, &view, &memory, 0x100006)?,
        EfiStatus::UNSUPPORTED
    );
    Ok(())
}

/// Two pages at 0x100000, with bytes from a place in the first on.
fn pages_with(alloc: Global, first: u64, bytes: &[u8]) -> Result<GuestMemory, AllocError> {
    let mut memory = GuestMemory::new(alloc, 0x100000, 2)?;
    let mut at = first;
    for byte in bytes {
        let _ = memory.put(at, *byte);
        at = at.wrapping_add(1);
    }
    Ok(memory)
}

#[test]
fn strings_over_the_end_of_a_page(rt: HostRuntime) -> Result<(), Fail> {
    let alloc = rt.alloc();
    let view = View::identity(alloc, 0x100000, 0x2000)?;
    for first in [0x100ffa, 0x100ffb, 0x100ffc, 0x100ffd, 0x100ffe, 0x100fff] {
        let memory = pages_with(alloc, first, b"a\0b\0c\0d\0\0\0")?;
        let reply = output_string(alloc, &view, &memory, first)?;
        assert!(rt; matches!(&reply, Reply::Prints(text, 0) if text.as_str() == "abcd"));
    }
    let memory = pages_with(alloc, 0x101ffb, b"a\0b\0c")?;
    let reply = output_string(alloc, &view, &memory, 0x101ffb)?;
    assert!(rt;
        matches!(reply, Reply::Answers(status) if status == EfiStatus::INVALID_PARAMETER.0)
    );
    Ok(())
}

#[test]
fn what_is_no_string_is_refused(rt: HostRuntime) -> Result<(), Fail> {
    let alloc = rt.alloc();
    let view = View::identity(alloc, 0x100000, 0x1000)?;
    let memory = page_with(alloc, b"H\0")?;
    for at in [0, 0xfffff, 0x101000, u64::MAX] {
        let reply = output_string(alloc, &view, &memory, at)?;
        assert!(rt;
            matches!(reply, Reply::Answers(status) if status == EfiStatus::INVALID_PARAMETER.0)
        );
        assert_eq!(rt;
            test_string(alloc, &view, &memory, at)?,
            EfiStatus::INVALID_PARAMETER
        );
    }
    Ok(())
}

#[test]
fn there_is_one_mode(rt: HostRuntime) -> Result<(), Fail> {
    assert_eq!(rt; set_mode(0), EfiStatus::SUCCESS);
    assert_eq!(rt; set_mode(1), EfiStatus::UNSUPPORTED);
    assert_eq!(rt; set_mode(1 << 32), EfiStatus::UNSUPPORTED);
    Ok(())
}

#[test]
fn the_mode_is_told(rt: HostRuntime) -> Result<(), Fail> {
    const INVALID: u64 = EfiStatus::INVALID_PARAMETER.0;
    // The mode, where the columns and the rows are told, the answer, and what stands at 0x100010 and 0x100018 then.
    const ROWS: [(u64, u64, u64, u64, u64, u64); 6] = [
        (0, 0, 0x100018, INVALID, 0, 0),
        (0, 0x100010, 0x100ff9, INVALID, 0, 0),
        (1, 0x100010, 0, INVALID, 0, 0),
        (1, 0x100010, 0x100018, EfiStatus::UNSUPPORTED.0, 0, 0),
        (0, 0x100010, 0x100018, 0, 80, 25),
        (0, 0x100010, 0x100010, 0, 25, 25),
    ];
    let alloc = rt.alloc();
    let view = View::identity(alloc, 0x100000, 0x1000)?;
    let mut memory = page_with(alloc, b"H\0")?;
    for (mode, columns, rows, answer, first, second) in ROWS {
        let mut registers = [0; 32];
        registers[11] = mode;
        registers[12] = columns;
        registers[13] = rows;
        let told = query_mode(&registers, &view, &mut memory)?;
        assert_eq!(rt; told, Answer::Gives(answer));
        assert_eq!(rt; number_seen(&memory, &view, 0x100010, 8), first);
        assert_eq!(rt; number_seen(&memory, &view, 0x100018, 8), second);
    }
    Ok(())
}
