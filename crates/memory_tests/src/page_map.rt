//! The pages of the default layout: 4,096 pages at 0x40000000.

use page_alloc::{Layout, Owner, PageMap, PageRefusal};
use std::test::Fail;

#[test]
fn the_layout_at_opening(rt: HostRuntime) -> Result<(), Fail> {
    let layout = Layout::at(0x4000_0000, 4096);
    assert_eq!(rt; layout.slots, 0x40ff_f000);
    assert_eq!(rt; layout.system, 0x40ff_e000);
    assert_eq!(rt; layout.boot, 0x40ff_d000);
    assert_eq!(rt; layout.boot_stack, 0x40fd_d000);
    assert_eq!(rt; layout.os_return, 0x40fd_c000);
    assert_eq!(rt; layout.os_args, 0x40fc_c000);
    assert_eq!(rt; layout.os_stack, 0x40fb_c000);
    Ok(())
}

#[test]
fn types_and_owners_at_opening(rt: HostRuntime) -> Result<(), Fail> {
    let map = PageMap::new(rt.alloc(), &Layout::at(0x4000_0000, 4096))?;
    const ROWS: [(u64, Option<(u32, Owner)>); 12] = [
        (0x3fff_ffff, None),
        (0x4000_0000, Some((7, Owner::Free))),
        (0x40fb_bfff, Some((7, Owner::Free))),
        (0x40fb_c000, Some((2, Owner::Firmware))),
        (0x40fd_cfff, Some((2, Owner::Firmware))),
        (0x40fd_d000, Some((4, Owner::Firmware))),
        (0x40ff_dfff, Some((4, Owner::Firmware))),
        (0x40ff_e000, Some((6, Owner::Firmware))),
        (0x40ff_f000, Some((5, Owner::Firmware))),
        (0x40ff_ffff, Some((5, Owner::Firmware))),
        (0x4100_0000, None),
        (u64::MAX, None),
    ];
    for (at, wanted) in ROWS {
        assert_eq!(rt; map.type_at(at), wanted);
    }
    Ok(())
}

#[test]
fn a_page_is_given_and_taken_back(rt: HostRuntime) -> Result<(), Fail> {
    let mut map = PageMap::new(rt.alloc(), &Layout::at(0x4000_0000, 4096))?;
    assert_eq!(rt; map.key(), 1);
    assert_eq!(rt;
        map.allocate(Owner::Pages, 2, 2, 2, 0x40fb_b000),
        Err(PageRefusal::NotFound)
    );
    assert_eq!(rt; map.key(), 1);
    assert_eq!(rt; map.allocate(Owner::Pages, 0, 2, 1, 0), Ok(0x40fb_b000));
    assert_eq!(rt; map.key(), 2);
    assert_eq!(rt; map.type_at(0x40fb_b000), Some((2, Owner::Pages)));
    assert_eq!(rt; map.free(Owner::Pages, 0x40fb_b000, 1), Ok(()));
    assert_eq!(rt; map.key(), 3);
    assert_eq!(rt;
        map.free(Owner::Pages, 0x40fb_b000, 1),
        Err(PageRefusal::NotFound)
    );
    let copied = map.copy()?;
    assert_eq!(rt; copied.key(), 3);
    assert_eq!(rt; copied.type_at(0x40fb_b000), Some((7, Owner::Free)));
    Ok(())
}

#[test]
fn requests_at_the_edges(rt: HostRuntime) -> Result<(), Fail> {
    const ROWS: [(u32, u32, u64, u64, Result<u64, PageRefusal>); 23] = [
        (0, 2, 4029, 0, Err(PageRefusal::NoPages)),
        (0, 2, 4028, 0, Ok(0x4000_0000)),
        (0, 2, u64::MAX, 0, Err(PageRefusal::NoPages)),
        (1, 2, u64::MAX, u64::MAX, Err(PageRefusal::NoPages)),
        (2, 2, u64::MAX, 0x4000_0000, Err(PageRefusal::NotFound)),
        (1, 2, 2, 0x4000_2fff, Ok(0x4000_1000)),
        (1, 2, 2, 0x4000_2ffe, Ok(0x4000_0000)),
        (1, 2, 2, 0x4000_1ffe, Err(PageRefusal::NoPages)),
        (1, 2, 1, 0, Err(PageRefusal::NoPages)),
        (1, 2, 1, u64::MAX, Ok(0x40fb_b000)),
        (2, 2, 1, 0x4000_0800, Err(PageRefusal::NotFound)),
        (2, 2, 1, 0x3fff_f000, Err(PageRefusal::NotFound)),
        (2, 2, 1, 0x40fb_c000, Err(PageRefusal::NotFound)),
        (3, 2, 1, 0, Err(PageRefusal::Invalid)),
        (0, 2, 0, 0, Err(PageRefusal::Invalid)),
        (0, 6, 1, 0, Ok(0x40fb_b000)),
        (0, 7, 1, 0, Err(PageRefusal::Invalid)),
        (0, 8, 1, 0, Ok(0x40fb_b000)),
        (0, 13, 1, 0, Ok(0x40fb_b000)),
        (0, 14, 1, 0, Err(PageRefusal::Invalid)),
        (0, 0x6fff_ffff, 1, 0, Err(PageRefusal::Invalid)),
        (0, 0x7000_0000, 1, 0, Ok(0x40fb_b000)),
        (0, u32::MAX, 1, 0, Ok(0x40fb_b000)),
    ];
    for (kind, memory_type, pages, at, wanted) in ROWS {
        let mut map = PageMap::new(rt.alloc(), &Layout::at(0x4000_0000, 4096))?;
        assert_eq!(rt; map.allocation(kind, memory_type, pages, at), wanted);
        assert_eq!(rt;
            map.allocate(Owner::Pages, kind, memory_type, pages, at),
            wanted
        );
        assert_eq!(rt; map.key(), if wanted.is_ok() { 2 } else { 1 });
    }
    Ok(())
}

#[test]
fn pages_taken_back_at_the_edges(rt: HostRuntime) -> Result<(), Fail> {
    const ROWS: [(Owner, u64, u64, Result<(), PageRefusal>); 11] = [
        (Owner::Pages, 0x40fb_8001, 1, Err(PageRefusal::Invalid)),
        (Owner::Pages, 0x40fb_8000, 0, Err(PageRefusal::Invalid)),
        (Owner::Image, 0x40fb_8000, 1, Err(PageRefusal::NotFound)),
        (Owner::Pages, 0x40fb_7000, 2, Err(PageRefusal::NotFound)),
        (Owner::Pages, 0x40fb_8000, 5, Err(PageRefusal::NotFound)),
        (
            Owner::Pages,
            0x40fb_8000,
            u64::MAX,
            Err(PageRefusal::NotFound),
        ),
        (
            Owner::Pages,
            0xffff_ffff_ffff_f000,
            1,
            Err(PageRefusal::NotFound),
        ),
        (Owner::Pages, 0, 1, Err(PageRefusal::NotFound)),
        (Owner::Pages, 0x40fb_8000, 4, Ok(())),
        (Owner::Pages, 0x40fb_9000, 2, Ok(())),
        (Owner::Pages, 0x40fb_b000, 1, Ok(())),
    ];
    for (owner, at, pages, wanted) in ROWS {
        let mut map = PageMap::new(rt.alloc(), &Layout::at(0x4000_0000, 4096))?;
        assert_eq!(rt; map.allocate(Owner::Pages, 0, 2, 2, 0), Ok(0x40fb_a000));
        assert_eq!(rt; map.allocate(Owner::Pages, 0, 4, 2, 0), Ok(0x40fb_8000));
        assert_eq!(rt; map.free(owner, at, pages), wanted);
        assert_eq!(rt; map.key(), if wanted.is_ok() { 4 } else { 3 });
    }
    Ok(())
}
