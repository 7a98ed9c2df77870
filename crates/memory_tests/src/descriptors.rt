//! The memory map of the default layout with an image and a page of the pool.

use memory_map::{Descriptor, TooSmall, descriptor_at, descriptors, read_descriptor, write_map};
use page_alloc::{Layout, Owner, PageMap};
use std::test::Fail;

/// A descriptor without a virtual address.
fn row(memory_type: u32, start: u64, pages: u64, attribute: u64) -> Descriptor {
    Descriptor {
        memory_type,
        start,
        virt: 0,
        pages,
        attribute,
    }
}

#[test]
fn the_map_with_an_image(rt: HostRuntime) -> Result<(), Fail> {
    let mut map = PageMap::new(rt.alloc(), &Layout::at(0x4000_0000, 4096))?;
    assert_eq!(rt; map.allocate(Owner::Image, 0, 1, 2, 0), Ok(0x40fb_a000));
    assert_eq!(rt; map.allocate(Owner::Pool, 0, 4, 1, 0), Ok(0x40fb_9000));
    let wanted = [
        row(7, 0x4000_0000, 4025, 8),
        row(4, 0x40fb_9000, 1, 8),
        row(1, 0x40fb_a000, 2, 8),
        row(2, 0x40fb_c000, 33, 8),
        row(4, 0x40fd_d000, 33, 8),
        row(6, 0x40ff_e000, 1, 0x8000_0000_0000_0008),
        row(5, 0x40ff_f000, 1, 0x8000_0000_0000_0008),
    ];
    let list = descriptors(rt.alloc(), &map)?;
    assert_eq!(rt; list.as_slice(), wanted.as_slice());
    let mut short = [0xaa; 279];
    assert_eq!(rt; write_map(list.as_slice(), &mut short), Err(TooSmall(280)));
    assert_eq!(rt; short[0], 0xaa);
    let mut buffer = [0xaa; 281];
    assert_eq!(rt; write_map(list.as_slice(), &mut buffer), Ok(280));
    const FIRST: [u8; 40] = [
        7, 0, 0, 0, 0, 0, 0, 0, 0, 0, 0, 0x40, 0, 0, 0, 0, 0, 0, 0, 0, 0, 0, 0, 0, 0xb9, 0x0f, 0,
        0, 0, 0, 0, 0, 8, 0, 0, 0, 0, 0, 0, 0,
    ];
    assert!(rt; buffer.starts_with(&FIRST));
    assert_eq!(rt; read_descriptor(&buffer[240..280]), wanted[6]);
    assert_eq!(rt; buffer[279], 0x80);
    assert_eq!(rt; buffer[280], 0xaa);
    let rows = [
        (0x3fff_ffff, None),
        (0x4000_0000, Some(wanted[0])),
        (0x40fb_8fff, Some(wanted[0])),
        (0x40fb_9000, Some(wanted[1])),
        (0x40fd_cfff, Some(wanted[3])),
        (0x40ff_ffff, Some(wanted[6])),
        (0x4100_0000, None),
        (u64::MAX, None),
    ];
    for (at, descriptor) in rows {
        assert_eq!(rt; descriptor_at(&map, at), descriptor);
    }
    Ok(())
}

#[test]
fn pages_of_one_type_and_two_owners_are_one_run(rt: HostRuntime) -> Result<(), Fail> {
    let mut map = PageMap::new(rt.alloc(), &Layout::at(0x4000_0000, 4096))?;
    assert_eq!(rt; map.allocate(Owner::Pages, 0, 2, 1, 0), Ok(0x40fb_b000));
    let list = descriptors(rt.alloc(), &map)?;
    assert_eq!(rt; list.len(), 5);
    assert_eq!(rt;
        descriptor_at(&map, 0x40fb_b000),
        Some(row(2, 0x40fb_b000, 34, 8))
    );
    Ok(())
}
