//! Lines on checks, maps and calls, by hand.
use record_text::{Fault, Line, Rule, line_text, read_line};
use std::alloc::Global;
use std::process::Abort;
use std::test::Fail;
use uh_base::Text;

/// Reads each text, and writes its line.
fn read_back(rt: &impl Abort, alloc: Global, texts: &[&str]) -> Result<(), Fail> {
    for text in texts {
        let line = read_line(alloc, text)?.ok_or("no line")?;
        let back = line_text(alloc, &line)?;
        assert!(rt; back.as_str() == *text, "{text}");
    }
    Ok(())
}

/// Reads each text, which is no line's.
fn not_read(rt: &impl Abort, alloc: Global, texts: &[&str]) -> Result<(), Fail> {
    for text in texts {
        assert!(rt; read_line(alloc, text)?.is_none(), "{text}");
    }
    Ok(())
}

const CHECKS: [&str; 13] = [
    "check drv yes",
    "check drv no Phase 0",
    "check drv no Region 6",
    "check drv no Unconverted 28",
    "check drv no Data 3",
    "check drv no Frames 65537",
    "check a_1 no Edge 4294967295",
    "check drv cert Text 0",
    "check drv cert Keys 0",
    "check drv cert Regions 25",
    "check drv cert Entries 1",
    "check drv cert Notify 15",
    "check drv cert Nodes 4095",
];

const MAPS: [&str; 17] = [
    "map accepted 0",
    "map accepted 18446744073709551615",
    "map refused BeforeExit",
    "map refused AlreadyMapped",
    "map refused DescriptorSize",
    "map refused DescriptorVersion",
    "map refused MapSize",
    "map refused NotFound(0)",
    "map refused Twice(1)",
    "map refused Unaligned(2)",
    "map refused OutOfRange(3)",
    "map refused Overlap(2)",
    "map refused Shadow(1023)",
    "map refused OsWindow",
    "map refused NoMapping(4294967295)",
    "map refused Reloc32(0,3)",
    "map refused Reloc32(15,4294967295)",
];

const CALLS: [&str; 9] = [
    "call drv 000000000000000c 13",
    "call GetTime 8000000000000003 1",
    "call drv trap illegal 0",
    "call drv trap store 4",
    "call drv trap frames 18446744073709551615",
    "call drv bound 5",
    "call SetVariable bound 1000000",
    "call drv early",
    "call AllocatePool early",
];

#[test]
fn texts_of_checks_maps_and_calls(rt: HostRuntime) -> Result<(), Fail> {
    let alloc = rt.alloc();
    read_back(&rt, alloc, &CHECKS)?;
    read_back(&rt, alloc, &MAPS)?;
    read_back(&rt, alloc, &CALLS)
}

#[test]
fn lines_of_a_check_and_a_map(rt: HostRuntime) -> Result<(), Fail> {
    let alloc = rt.alloc();
    let check = Line::CheckNo {
        name: Text::new(alloc, "drv")?,
        rule: Rule::Unconverted,
        n: 28,
    };
    assert!(rt; line_text(alloc, &check)?.as_str() == "check drv no Unconverted 28");
    let map = Line::MapRefused {
        fault: Fault::Reloc32(0, 3),
    };
    assert!(rt; line_text(alloc, &map)?.as_str() == "map refused Reloc32(0,3)");
    Ok(())
}

const NO_CHECKS: [&str; 12] = [
    "check drv",
    "check drv yes 0",
    "check Drv yes",
    "check GetTime yes",
    "check drv Yes",
    "check drv no Phase",
    "check drv no phase 0",
    "check drv no Text 0",
    "check drv no Data 03",
    "check drv no Data 4294967296",
    "check drv cert Phase 0",
    "check drv cert Nodes -1",
];

const NO_MAPS: [&str; 12] = [
    "map accepted",
    "map accepted 05",
    "map accepted 18446744073709551616",
    "map refused",
    "map refused Overlap",
    "map refused Overlap()",
    "map refused Overlap(02)",
    "map refused Overlap(4294967296)",
    "map refused OsWindow(0)",
    "map refused Reloc32(0)",
    "map refused Reloc32(0, 3)",
    "map refused Truncated(0)",
];

const NO_CALLS: [&str; 11] = [
    "call drv",
    "call drv late",
    "call drv early 0",
    "call drv bound",
    "call drv trap store",
    "call drv trap yes 0",
    "call drv c 13",
    "call drv 000000000000000C 13",
    "call gettime. early",
    "call  early",
    "call Gettime bound 1",
];

#[test]
fn texts_of_no_check_map_or_call(rt: HostRuntime) -> Result<(), Fail> {
    let alloc = rt.alloc();
    not_read(&rt, alloc, &NO_CHECKS)?;
    not_read(&rt, alloc, &NO_MAPS)?;
    not_read(&rt, alloc, &NO_CALLS)
}
