//! Worked tables and words.

ghost use Rattle.std.specs.Prelude.{◌≡◌, ◌≤◌, ◌+◌, ◌*◌, ◌%◌, IfOk, length, vec_len};
ghost use Rattle.pe_image.specs.ImageOf.{fields_of};
ghost use Rattle.pe_image.specs.Sound.{IsImage};
ghost use Rattle.base_reloc.specs.Sites.{width_of};

use base_reloc::{RelocFault, Site, SiteKind, apply, read_sites};
use pe_image::Image;
use std::alloc::{AllocError, Global};
use std::process::Abort;
use std::test::Fail;

/// An image of so many bytes, without sections, and with base relocations at an offset.
fn image_of(alloc: Global, size: u32, reloc_at: u32, reloc_len: u32) -> Image
    requires low { 0x2000 ≤ size }
    requires high { size ≤ 0x800000 }
    requires table { reloc_at + reloc_len ≤ size }
    ensures sound { IsImage (fields_of result) }
    ensures size { result.size ≡ size }
{
    Image {
        subsystem: 11,
        image_base: 0,
        alignment: 4096,
        size,
        headers: 0x200,
        entry: 0x1000,
        sections: Vec::new(alloc),
        reloc_at,
        reloc_len,
        stripped: false,
    }
}

/// So many bytes of an image, with a table.
fn placed_of(alloc: Global, size: usize, table: &[u8]) -> Result<Vec<u8>, AllocError>
    ensures { IfOk result (λ placed. vec_len placed ≡ size) }
{
    let mut placed = vec![in alloc; 0; size]?;
    for (i, byte) in table.iter().enumerate() {
        if 0x1100 < placed.len() && i < placed.len() - 0x1100 {
            placed[0x1100 + i] = *byte;
        }
    }
    Ok(placed)
}

/// A table, and what is wrong with it.
static FAULTS: [(&[u8], RelocFault); 15] = [
    // a size of 0xffffffff, of 7 and of 9, and one byte more than is left
    (
        b"\0\x10\0\0\xff\xff\xff\xff\0\0\0\0",
        RelocFault::BlockSize(0),
    ),
    (b"\0\x10\0\0\x07\0\0\0", RelocFault::BlockSize(0)),
    (b"\0\x10\0\0\x09\0\0\0\0\0", RelocFault::BlockSize(0)),
    (b"\0\x10\0\0\x0a\0\0\0\0", RelocFault::BlockSize(0)),
    // four bytes behind a block without entries
    (b"\0\x10\0\0\x08\0\0\0\0\0\0\0", RelocFault::BlockSize(1)),
    // page 0 with a size, and size 0 with a page
    (b"\0\0\0\0\x06\0\0\0", RelocFault::BlockSize(0)),
    (b"\0\x10\0\0\0\0\0\0", RelocFault::BlockSize(0)),
    // type 1 behind padding, and type 15 in a second block
    (b"\0\x10\0\0\x0c\0\0\0\0\0\0\x10", RelocFault::Kind(1)),
    (
        b"\0\x10\0\0\x0a\0\0\0\0\x30\0\x10\0\0\x0a\0\0\0\0\xf0",
        RelocFault::Kind(1),
    ),
    // eight bytes of which the last is behind the image, and a page behind it
    (b"\0\x10\0\0\x0a\0\0\0\xf9\xaf", RelocFault::Outside(0)),
    (b"\xff\xff\xff\xff\x0a\0\0\0\0\x70", RelocFault::Outside(0)),
    // two sites that meet, in one block and from a later one of an earlier page
    (
        b"\0\x10\0\0\x0c\0\0\0\0\x30\x03\x50",
        RelocFault::Overlap(1),
    ),
    (
        b"\0\x10\0\0\x0a\0\0\0\0\x30\0\0\0\0\x0c\0\0\0\0\0\xf9\xaf",
        RelocFault::Overlap(2),
    ),
    // four bytes that aren't moved, on a site before them
    (b"\0\x10\0\0\x0c\0\0\0\0\x30\0\x70", RelocFault::Overlap(1)),
    // the first fault of an entry: its type, then its place
    (b"\0\x40\0\0\x0a\0\0\0\0\x10", RelocFault::Kind(0)),
];

/// Each table gives what is wrong.
fn check_faults(
    rt: &impl Abort,
    alloc: Global,
    rows: &[(&[u8], RelocFault)],
) -> Result<(), AllocError> {
    for row in rows {
        if row.0.len() <= 0xf00 {
            let placed = placed_of(alloc, 0x2000, row.0)?;
            let image = image_of(alloc, 0x2000, 0x1100, row.0.len() as u32);
            let fault = read_sites(alloc, &image, placed.as_slice()).err();
            assert!(rt; fault == Some(row.1), "for {:?}", row.1);
        }
    }
    Ok(())
}

/// Moves four bytes as one site.
fn check_word(
    rt: &impl Abort,
    site: Site,
    word: [u8; 4],
    displacement: u64,
    wanted: (Result<(), RelocFault>, [u8; 4]),
)
    requires at { site.at ≡ 0 }
    requires kind { width_of site.kind ≡ 4 }
    requires pages { displacement % 4096 ≡ 0 }
{
    let mut bytes = word;
    let answer = apply(&mut bytes, &[site], displacement);
    assert!(rt; answer == wanted.0);
    assert!(rt; bytes == wanted.1);
}

#[test]
fn the_first_fault_of_a_table(rt: HostRuntime) -> Result<(), Fail> {
    check_faults(&rt, rt.alloc(), &FAULTS)?;
    Ok(())
}

#[test]
fn the_sites_of_a_table(rt: HostRuntime) -> Result<(), Fail> {
    // a page behind another one, padding, types 7 and 8, a site where type 7 stood, and a block that ends the list
    let table =
        b"\0\x10\0\0\x10\0\0\0\0\x30\x08\xa0\x10\x70\x10\x50\0\0\0\0\x0c\0\0\0\x04\x80\0\0\0\0\0\0\0\0\0\0\xff";
    let placed = placed_of(rt.alloc(), 0x2000, table)?;
    let image = image_of(rt.alloc(), 0x2000, 0x1100, 37);
    let sites = read_sites(rt.alloc(), &image, placed.as_slice())?;
    let wanted = [
        Site {
            at: 0x1000,
            kind: SiteKind::Highlow,
        },
        Site {
            at: 0x1008,
            kind: SiteKind::Dir64,
        },
        Site {
            at: 0x1010,
            kind: SiteKind::High20,
        },
    ];
    assert!(rt; sites.as_slice() == wanted.as_slice());
    let none = image_of(rt.alloc(), 0x2000, 0x1100, 0);
    let sites = read_sites(rt.alloc(), &none, placed.as_slice())?;
    assert!(rt; sites.is_empty());
    Ok(())
}

#[test]
fn the_moved_word_of_a_site(rt: HostRuntime) {
    let lui = Site {
        at: 0,
        kind: SiteKind::High20,
    };
    let word = [0x37, 0x05, 0x01, 0x00];
    check_word(
        &rt,
        lui,
        word,
        0x7ffe_f000,
        (Ok(()), [0x37, 0xf5, 0xff, 0x7f]),
    );
    check_word(
        &rt,
        lui,
        word,
        0x7fff_0000,
        (Err(RelocFault::Range32(0)), word),
    );
    let address = Site {
        at: 0,
        kind: SiteKind::Highlow,
    };
    let top = [0xff, 0xff, 0xff, 0xff];
    check_word(
        &rt,
        address,
        word,
        0x1000,
        (Ok(()), [0x37, 0x15, 0x01, 0x00]),
    );
    check_word(
        &rt,
        address,
        top,
        0x1000,
        (Err(RelocFault::Range32(0)), top),
    );
}

/// Appends the block of a page, with 1,024 addresses of 32 bits.
fn push_block(table: &mut Vec<u8>, page: u32) -> Result<(), AllocError> {
    table.extend_from_slice(&page.wrapping_mul(4096).to_le_bytes())?;
    table.extend_from_slice(&2056u32.to_le_bytes())?;
    for entry in 0..1024u16 {
        table.extend_from_slice(&(0x3000 + 4 * entry).to_le_bytes())?;
    }
    Ok(())
}

/// So many bytes of an image, with the blocks of so many pages at 0x1000.
fn large_of(alloc: Global, size: usize, pages: u32) -> Result<Vec<u8>, AllocError> {
    let mut placed = vec![in alloc; 0; 0x1000]?;
    for page in 0..pages {
        push_block(&mut placed, page)?;
    }
    placed.resize(size, 0)?;
    Ok(placed)
}

/// Reads the blocks of so many pages, and answers how many sites there are.
fn read_large(rt: &impl Abort, alloc: Global, size: u32, pages: u32) -> Result<usize, Fail>
    requires low { 0x2000 ≤ size }
    requires high { size ≤ 0x800000 }
    requires pages { 0x1000 + 2056 * pages ≤ size }
{
    let placed = large_of(alloc, size as usize, pages)?;
    let bytes = placed.as_slice();
    assert!(rt; bytes.len() == (size as usize + 4095) / 4096 * 4096);
    let image = image_of(alloc, size, 0x1000, 2056 * pages);
    let sites = read_sites(alloc, &image, bytes)?;
    Ok(sites.len())
}

#[test]
fn a_table_of_3_mib(rt: HostRuntime) -> Result<(), Fail> {
    let sites = read_large(&rt, rt.alloc(), 0x80_0000, 1530)?;
    assert_eq!(rt; sites, 1530 * 1024);
    Ok(())
}
