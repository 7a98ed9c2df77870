//! Images that come into RAM and go again.

use crate::application::Patch;
use crate::ram::{CONSOLE, Step, makes, makes_at};
use base_reloc::{RelocFault, Site, SiteKind};
use guest_memory::Rights;
use image_services::{LOADED_IMAGE_PROTOCOL, LoadRefusal, UnloadRefusal};
use page_alloc::Owner;
use pe_image::PeFault;
use std::test::Fail;
use uh_base::EfiStatus;

/// The rights of an image's headers, and of its code.
const HEADER: Rights = Rights {
    read: true,
    write: false,
    exec: false,
};

const CODE: Rights = Rights {
    read: true,
    write: false,
    exec: true,
};

/// Relocations are stripped.
const STRIPPED: Patch = Patch(0x56, 1, 2);

/// The image has 2,048 pages.
const LARGE: Patch = Patch(0x90, 0x80_0000, 4);

#[test]
fn an_application_of_two_pages(rt: HostRuntime) -> Result<(), Fail> {
    let steps = [
        Step::Loads(&[], 32),
        Step::Lies(32, (0x40fb_a000, 2, 0x40fb_b000, 0x40fb_9000)),
        Step::Has(32, Some(0x40fb_9000)),
        Step::Counts(3, 3),
        Step::Owns(0x40fb_9000, 4, Owner::Pool),
        Step::Owns(0x40fb_a000, 1, Owner::Image),
        Step::Owns(0x40fb_b000, 1, Owner::Image),
        Step::Allows(0x40fb_a000, HEADER),
        Step::Allows(0x40fb_b000, CODE),
        Step::Holds(0x40fb_9000, 0x1000),
        Step::Holds(0x40fb_9008, 7),
        Step::Holds(0x40fb_9010, 0x40ff_e000),
        Step::Holds(0x40fb_9018, 0),
        Step::Holds(0x40fb_9020, 0),
        Step::Holds(0x40fb_9028, 0),
        Step::Holds(0x40fb_9030, 0),
        Step::Holds(0x40fb_9038, 0),
        Step::Holds(0x40fb_9040, 0x40fb_a000),
        Step::Holds(0x40fb_9048, 0x2000),
        Step::Holds(0x40fb_9050, 0x2_0000_0001),
        Step::Holds(0x40fb_9058, 0),
        Step::Holds(0x40fb_b000, 0x0405_b503),
    ];
    makes(&rt, rt.alloc(), &steps)
}

#[test]
fn images_go_again(rt: HostRuntime) -> Result<(), Fail> {
    let steps = [
        Step::Loads(&[], 32),
        Step::Loads(&[], 48),
        Step::Lies(48, (0x40fb_7000, 2, 0x40fb_8000, 0x40fb_9060)),
        Step::Counts(4, 5),
        Step::Starts(32),
        Step::Unloads(33, Err(UnloadRefusal::Unknown)),
        Step::Unloads(32, Err(UnloadRefusal::Started)),
        Step::Has(48, Some(0x40fb_9060)),
        Step::Unloads(48, Ok(())),
        Step::Has(48, None),
        Step::Counts(5, 3),
        Step::Discards(33),
        Step::Counts(5, 3),
        Step::Discards(32),
        Step::Counts(7, 0),
        Step::Owns(0x40fb_7000, 7, Owner::Free),
        Step::Owns(0x40fb_9000, 7, Owner::Free),
        Step::Owns(0x40fb_b000, 7, Owner::Free),
    ];
    makes(&rt, rt.alloc(), &steps)
}

#[test]
fn a_load_tells_who_is_registered(rt: HostRuntime) -> Result<(), Fail> {
    let steps = [
        Step::Registers(LOADED_IMAGE_PROTOCOL, 5, 20),
        Step::Registers(CONSOLE, 6, 36),
        Step::Registers(LOADED_IMAGE_PROTOCOL, 4, 52),
        Step::Signals(32, &[5, 4]),
        Step::Pends(20, Some(32)),
        Step::Pends(36, None),
        Step::Installs(32, CONSOLE),
        Step::Discards(32),
        Step::Has(32, None),
        Step::Pends(20, None),
        Step::Pends(36, Some(32)),
    ];
    makes(&rt, rt.alloc(), &steps)
}

#[test]
fn sixteen_images(rt: HostRuntime) -> Result<(), Fail> {
    let mut steps = [Step::Refuses(&[], LoadRefusal::TooMany, EfiStatus::OUT_OF_RESOURCES); 17];
    for number in 0..16 {
        steps[number] = Step::Loads(&[], 32 + 16 * number as u64);
    }
    makes(&rt, rt.alloc(), &steps)
}

#[test]
fn stripped_images_lie_at_their_bases(rt: HostRuntime) -> Result<(), Fail> {
    let steps = [
        Step::Refuses(
            &[STRIPPED, Patch(0x70, 0x40fb_b000, 4)],
            LoadRefusal::Placed,
            EfiStatus::LOAD_ERROR,
        ),
        Step::Refuses(
            &[STRIPPED, Patch(0x70, 0x3fff_f000, 4)],
            LoadRefusal::Placed,
            EfiStatus::LOAD_ERROR,
        ),
        Step::Refuses(&[STRIPPED], LoadRefusal::Placed, EfiStatus::LOAD_ERROR),
        Step::Loads(&[STRIPPED, Patch(0x70, 0x40fb_a000, 4)], 32),
        Step::Lies(32, (0x40fb_a000, 2, 0x40fb_b000, 0x40fb_9000)),
        Step::Loads(&[STRIPPED, Patch(0x70, 0x4000_0000, 4)], 48),
        Step::Lies(48, (0x4000_0000, 2, 0x4000_1000, 0x40fb_9060)),
    ];
    makes(&rt, rt.alloc(), &steps)
}

#[test]
fn refusals_leave_all_as_it_was(rt: HostRuntime) -> Result<(), Fail> {
    let reloc = LoadRefusal::Reloc(RelocFault::BlockSize(0));
    let steps = [
        Step::Refuses(
            &[Patch(0, 0x4d5a, 2)],
            LoadRefusal::Pe(PeFault::Magic),
            EfiStatus::LOAD_ERROR,
        ),
        Step::Refuses(
            &[Patch(0x44, 0x8664, 2)],
            LoadRefusal::Pe(PeFault::Machine),
            EfiStatus::UNSUPPORTED,
        ),
        Step::Refuses(
            &[Patch(0x9c, 9, 2)],
            LoadRefusal::Pe(PeFault::Subsystem),
            EfiStatus::UNSUPPORTED,
        ),
        Step::Refuses(
            &[Patch(0xf0, 0x1000, 4), Patch(0xf4, 8, 4), LARGE],
            reloc,
            EfiStatus::LOAD_ERROR,
        ),
        Step::Refuses(
            &[STRIPPED, LARGE],
            LoadRefusal::Placed,
            EfiStatus::LOAD_ERROR,
        ),
        Step::Counts(1, 0),
        Step::Loads(&[LARGE], 32),
        Step::Refuses(&[LARGE], LoadRefusal::NoPages, EfiStatus::OUT_OF_RESOURCES),
        Step::Loads(&[], 48),
    ];
    makes(&rt, rt.alloc(), &steps)
}

#[test]
fn what_moves_is_kept_with_its_words(rt: HostRuntime) -> Result<(), Fail> {
    let patches = [
        Patch(0xf0, 0x1000, 4),
        Patch(0xf4, 16, 4),
        Patch(0x200, 0x1000, 4),
        Patch(0x204, 16, 4),
        Patch(0x208, 0xa018_3010, 4),
        Patch(0x20c, 0x5020, 4),
        Patch(0x220, 0x537, 4),
    ];
    let sites = [
        Site {
            at: 0x1010,
            kind: SiteKind::Highlow,
        },
        Site {
            at: 0x1018,
            kind: SiteKind::Dir64,
        },
        Site {
            at: 0x1020,
            kind: SiteKind::High20,
        },
    ];
    let words = [0x40fb_a000, 0x40fb_a000, 0x40fb_a537];
    let steps = [
        Step::Loads(&patches, 32),
        Step::Starts(32),
        Step::Moves(32, &sites, &words),
    ];
    makes(&rt, rt.alloc(), &steps)
}

#[test]
fn a_word_of_32_bits_leaves_its_range(rt: HostRuntime) -> Result<(), Fail> {
    let patches = [
        Patch(0xf0, 0x1000, 4),
        Patch(0xf4, 12, 4),
        Patch(0x200, 0x1000, 4),
        Patch(0x204, 12, 4),
        Patch(0x208, 0x3010, 4),
    ];
    let refusal = LoadRefusal::Reloc(RelocFault::Range32(0));
    let steps = [
        Step::Refuses(&patches, refusal, EfiStatus::LOAD_ERROR),
        Step::Counts(1, 0),
    ];
    makes_at(&rt, rt.alloc(), 0x1_0000_0000, &steps)
}
