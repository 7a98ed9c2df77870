//! A memory at its limits.

use guest_memory::{GuestMemory, PutEnd, Rights};
use std::test::Fail;

#[test]
fn one_page_more_than_can_be_touched(rt: HostRuntime) -> Result<(), Fail> {
    let mut memory = GuestMemory::new(rt.alloc(), 0x100000, 65537)?;
    assert_eq!(rt; memory.reserve(0, 65537), Err(PutEnd::Frames));
    assert_eq!(rt; memory.touched(), 0);
    assert_eq!(rt; memory.reserve(0, 65536), Ok(()));
    let last = 0x100000 + 4096 * 65536;
    assert_eq!(rt; memory.put(last, 7), Err(PutEnd::Frames));
    assert_eq!(rt; memory.get(last), Some(0));
    assert_eq!(rt; memory.touched(), 65536);
    assert_eq!(rt; memory.put(0x100000, 7), Ok(()));
    assert_eq!(rt; memory.get(0x100000), Some(7));
    Ok(())
}

#[test]
fn pages_that_are_cleared(rt: HostRuntime) -> Result<(), Fail> {
    let mut memory = GuestMemory::new(rt.alloc(), 0x1000, 3)?;
    let code = Rights {
        read: true,
        write: false,
        exec: true,
    };
    let inside = 0x2ff8;
    assert_eq!(rt; memory.put(inside, 0x34), Ok(()));
    assert_eq!(rt; memory.put(inside + 1, 0x12), Ok(()));
    assert_eq!(rt; memory.get(inside + 1), Some(0x12));
    memory.set_rights(1, 2, code);
    assert_eq!(rt; memory.rights_at(0x3000), Some(code));
    assert_eq!(rt; memory.rights_at(0x4000), None);
    assert_eq!(rt; memory.put(0x4000, 1), Err(PutEnd::Outside));
    assert_eq!(rt; memory.reserve(2, 2), Err(PutEnd::Outside));
    memory.clear(1, 1);
    assert_eq!(rt; memory.get(inside), Some(0));
    assert_eq!(rt; memory.touched(), 0);
    assert_eq!(rt;
        memory.rights_at(inside).map(|rights| rights.write),
        Some(true)
    );
    assert_eq!(rt; memory.rights_at(0x3000), Some(code));
    Ok(())
}
