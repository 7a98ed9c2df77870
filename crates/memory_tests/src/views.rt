//! Accesses over the edges of pages and windows.

ghost use Rattle.std.specs.Prelude.{IsTrue, [], ◌∷◌};
ghost use Rattle.uh_base.specs.Bytes.{is_width};
ghost use Rattle.address_view.specs.Windows.{AreWindows};

use address_view::{
    View, Viewed, Window, allowed, is_seen, load_bytes, refused, seen_part, store_bytes,
};
use guest_memory::{GuestMemory, Rights};
use rv_step::{Access, Bus, BusEnd};
use std::alloc::{AllocError, Global};
use std::test::Fail;

fn store(
    memory: &mut GuestMemory,
    view: &View,
    at: u64,
    width: u8,
    value: u64,
) -> Result<(), BusEnd>
    requires { IsTrue (is_width width) }
{
    Viewed { memory, view }.store(at, width, value)
}

fn load(memory: &mut GuestMemory, view: &View, at: u64, width: u8) -> Result<u64, u64>
    requires { IsTrue (is_width width) }
{
    Viewed { memory, view }.load(at, width)
}

fn fetch(memory: &mut GuestMemory, view: &View, at: u64) -> Result<u16, u64> {
    Viewed { memory, view }.fetch(at)
}

/// 256 pages, of which the second isn't writable.
fn pages(alloc: Global) -> Result<GuestMemory, AllocError> {
    let mut memory = GuestMemory::new(alloc, 0x100000, 256)?;
    memory.set_rights(
        1,
        1,
        Rights {
            read: true,
            write: false,
            exec: true,
        },
    );
    Ok(memory)
}

fn view_of(alloc: Global) -> Result<View, AllocError> {
    View::identity(alloc, 0x100000, 0x100000)
}

/// 256 new pages.
fn fresh(alloc: Global) -> Result<GuestMemory, AllocError> {
    GuestMemory::new(alloc, 0x100000, 256)
}

#[test]
fn bytes_over_a_page_edge(rt: HostRuntime) -> Result<(), Fail> {
    let mut memory = fresh(rt.alloc())?;
    let view = view_of(rt.alloc())?;
    assert!(rt; allowed(&memory, &view, 0x100fff, 2, true));
    assert_eq!(rt; store_bytes(&mut memory, &view, 0x100fff, &[1, 2]), Ok(()));
    assert!(rt; is_seen(&memory, &view, 0x100fff, 2));
    let loaded = load_bytes(rt.alloc(), &memory, &view, 0x100fff, 2)?;
    assert_eq!(rt; loaded.as_slice(), [1, 2].as_slice());
    assert_eq!(rt; memory.touched(), 2);
    Ok(())
}

#[test]
fn bytes_over_several_pages(rt: HostRuntime) -> Result<(), Fail> {
    let mut memory = fresh(rt.alloc())?;
    let view = view_of(rt.alloc())?;
    let mut bytes = Vec::new(rt.alloc());
    for i in 0..12290u32 {
        bytes.push((i % 251) as u8)?;
    }
    let bytes = bytes.as_slice();
    assert!(rt; allowed(&memory, &view, 0x100fff, bytes.len() as u64, true));
    assert_eq!(rt; store_bytes(&mut memory, &view, 0x100fff, bytes), Ok(()));
    assert_eq!(rt; memory.touched(), 5);
    assert_eq!(rt;
        refused(&memory, &view, 0x100fff, 0x100000, Access::Load),
        Some(0x200000)
    );
    assert!(rt; is_seen(&memory, &view, 0x100fff, 12290));
    let loaded = load_bytes(rt.alloc(), &memory, &view, 0x100fff, 12290)?;
    assert_eq!(rt; loaded.as_slice(), bytes);
    let part = match seen_part(&memory, &view, 0x101fff, 8) {
        Some(part) => part,
        None => &[],
    };
    assert_eq!(rt; part, [80].as_slice());
    assert!(rt; seen_part(&memory, &view, 0x200000, 8).is_none());
    Ok(())
}

#[test]
fn places_and_addresses(rt: HostRuntime) -> Result<(), Fail> {
    let view = view_of(rt.alloc())?;
    assert_eq!(rt; view.translate(0x1fffff), Some(0x1fffff));
    assert_eq!(rt; view.translate(0x200000), None);
    assert_eq!(rt; view.shown_at(0x100000), Some(0x100000));
    assert_eq!(rt; view.windows().len(), 1);
    Ok(())
}

#[test]
fn a_store_over_the_edge_of_a_page_without_the_right(rt: HostRuntime) -> Result<(), Fail> {
    let mut memory = pages(rt.alloc())?;
    let view = view_of(rt.alloc())?;
    assert_eq!(rt;
        store(&mut memory, &view, 0x100ffc, 8, 0x1122334455667788),
        Err(BusEnd::Outside(0x101000))
    );
    assert_eq!(rt; load(&mut memory, &view, 0x100ffc, 8), Ok(0));
    assert_eq!(rt; memory.touched(), 0);
    assert_eq!(rt;
        store(&mut memory, &view, 0x100ff8, 8, 0x1122334455667788),
        Ok(())
    );
    assert_eq!(rt; load(&mut memory, &view, 0x100ffe, 8), Ok(0x1122));
    assert_eq!(rt; fetch(&mut memory, &view, 0x1fffff), Err(0x200000));
    assert_eq!(rt; memory.touched(), 1);
    Ok(())
}

fn two_windows(alloc: Global, first: Window, second: Window) -> Result<View, AllocError>
    requires { AreWindows (first ∷ second ∷ []) }
{
    let mut windows = Vec::new(alloc);
    windows.push(first)?;
    windows.push(second)?;
    Ok(View::from_windows(windows))
}

/// Two windows at the end of all addresses and at their beginning, that show pages apart.
fn seam(alloc: Global) -> Result<View, AllocError> {
    let last = Window {
        virt: 0xffff_ffff_ffff_f000,
        phys: 0x102000,
        len: 0x1000,
    };
    let first = Window {
        virt: 0,
        phys: 0x100000,
        len: 0x1000,
    };
    two_windows(alloc, last, first)
}

#[test]
fn an_access_over_the_seam_of_two_windows(rt: HostRuntime) -> Result<(), Fail> {
    let mut memory = pages(rt.alloc())?;
    let view = seam(rt.alloc())?;
    let last = 0xffff_ffff_ffff_fffe;
    assert_eq!(rt; store(&mut memory, &view, last, 4, 0x44332211), Ok(()));
    assert_eq!(rt; load(&mut memory, &view, last, 4), Ok(0x44332211));
    assert_eq!(rt; load(&mut memory, &view, 0xffe, 4), Err(0x1000));
    for (at, byte) in [
        (0x102ffe, 0x11),
        (0x102fff, 0x22),
        (0x100000, 0x33),
        (0x100001, 0x44),
    ] {
        assert_eq!(rt; memory.get(at), Some(byte));
    }
    assert_eq!(rt; memory.touched(), 2);
    Ok(())
}
