//! A pool over the default layout, 4,096 pages at 0x40000000.

use page_alloc::{Layout, Owner, PageMap};
use pool_alloc::{PageSpan, Pool, PoolRefusal};
use std::test::Fail;

#[test]
fn blocks_in_gaps(rt: HostRuntime) -> Result<(), Fail> {
    let mut map = PageMap::new(rt.alloc(), &Layout::at(0x4000_0000, 4096))?;
    let mut pool = Pool::new(rt.alloc());
    assert_eq!(rt; pool.allocate(&mut map, 4, 96), Ok(0x40fb_b000));
    assert_eq!(rt; pool.allocation(&map, 4, 10), Ok(0x40fb_b060));
    assert_eq!(rt; pool.pages_allocated(&map, 4, 10), None);
    assert_eq!(rt; pool.allocate(&mut map, 4, 10), Ok(0x40fb_b060));
    assert_eq!(rt; pool.allocation(&map, 6, 8), Ok(0x40fb_a000));
    assert_eq!(rt;
        pool.pages_allocated(&map, 6, 8),
        Some(PageSpan {
            start: 0x40fb_a000,
            count: 1
        })
    );
    assert_eq!(rt; pool.allocate(&mut map, 6, 8), Ok(0x40fb_a000));
    assert_eq!(rt; pool.pages_freed(0x40fb_b060), None);
    assert_eq!(rt;
        pool.pages_freed(0x40fb_a000),
        Some(PageSpan {
            start: 0x40fb_a000,
            count: 1
        })
    );
    assert_eq!(rt; pool.free(&mut map, 0x40fb_b061), Err(PoolRefusal::Invalid));
    assert_eq!(rt; pool.free(&mut map, 0x40fb_b060), Ok(16));
    let mut copied = pool.copy()?;
    assert_eq!(rt;
        copied.free(&mut map, 0x40fb_b060),
        Err(PoolRefusal::Invalid)
    );
    Ok(())
}

#[test]
fn the_lowest_gap_of_the_first_page(rt: HostRuntime) -> Result<(), Fail> {
    let mut map = PageMap::new(rt.alloc(), &Layout::at(0x4000_0000, 4096))?;
    let mut pool = Pool::new(rt.alloc());
    assert_eq!(rt; pool.allocate(&mut map, 4, 2048), Ok(0x40fb_b000));
    assert_eq!(rt; pool.allocate(&mut map, 4, 2048), Ok(0x40fb_b800));
    assert_eq!(rt; pool.allocate(&mut map, 4, 2048), Ok(0x40fb_a000));
    assert_eq!(rt; pool.free(&mut map, 0x40fb_b000), Ok(2048));
    assert_eq!(rt; pool.allocate(&mut map, 4, 8), Ok(0x40fb_b000));
    assert_eq!(rt; pool.allocate(&mut map, 4, 2048), Ok(0x40fb_a800));
    Ok(())
}

#[test]
fn sizes_and_types_at_the_edges(rt: HostRuntime) -> Result<(), Fail> {
    const ROWS: [(u32, u64, Result<u64, PoolRefusal>, u64); 10] = [
        (4, 0, Ok(0x40fb_b000), 8),
        (4, 1, Ok(0x40fb_b000), 8),
        (4, 2041, Ok(0x40fb_b000), 2048),
        (4, 2049, Ok(0x40fb_b000), 2056),
        (4, 4096, Ok(0x40fb_b000), 4096),
        (4, 4097, Ok(0x40fb_a000), 4104),
        (4, u64::MAX, Err(PoolRefusal::NoPages), 0),
        (7, 8, Err(PoolRefusal::Invalid), 0),
        (14, 8, Err(PoolRefusal::Invalid), 0),
        (0x7000_0000, 8, Ok(0x40fb_b000), 8),
    ];
    for (memory_type, size, wanted, rounded) in ROWS {
        let mut map = PageMap::new(rt.alloc(), &Layout::at(0x4000_0000, 4096))?;
        let mut pool = Pool::new(rt.alloc());
        assert_eq!(rt; pool.allocate(&mut map, memory_type, size), wanted);
        if let Ok(at) = wanted {
            assert_eq!(rt; map.type_at(at), Some((memory_type, Owner::Pool)));
            assert_eq!(rt; pool.free(&mut map, at), Ok(rounded));
            assert_eq!(rt; map.type_at(at), Some((7, Owner::Free)));
        }
    }
    Ok(())
}
