//! Variables worked by hand.

use std::test::Fail;
use uh_base::Guid;
use variable_store::{StoreFault, VarRefusal, Variables};

/// The vendor of the variables that the standard defines, 8be4df61-93ca-11d2-aa0d-00e098032b8c.
const GLOBAL: Guid = Guid {
    d1: 0x8be4_df61,
    d2: 0x93ca,
    d3: 0x11d2,
    d4: 0xaa0d_00e0_9803_2b8c,
};

/// The same vendor but for its last bit.
const OTHER: Guid = Guid {
    d4: 0xaa0d_00e0_9803_2b8d,
    ..GLOBAL
};

const A: &[u16] = &[0x41];

const B: &[u16] = &[0x42];

/// The data of the variable at a place.
fn data_at(variables: &Variables, place: usize) -> &[u8] {
    match variables.at(place) {
        Some(variable) => &variable.data,
        None => &[],
    }
}

#[test]
fn sets_before_the_end_of_boot_services(rt: HostRuntime) -> Result<(), Fail> {
    let mut variables = Variables::new(rt.alloc());
    // a name, attributes, bytes, the answer, and the bytes of `A` and the room behind it
    const ROWS: [(&[u16], u32, &[u8], Result<(), VarRefusal>, &[u8], u64); 17] = [
        (A, 7, &[1, 2], Ok(()), &[1, 2], 65_498),
        (&[], 7, &[1], Err(VarRefusal::Invalid), &[1, 2], 65_498),
        (A, 0x87, &[1], Err(VarRefusal::Unsupported), &[1, 2], 65_498),
        (A, 0x84, &[1], Err(VarRefusal::Unsupported), &[1, 2], 65_498),
        (A, 4, &[1], Err(VarRefusal::Invalid), &[1, 2], 65_498),
        (A, 5, &[], Err(VarRefusal::Invalid), &[1, 2], 65_498),
        (A, 3, &[1], Err(VarRefusal::Invalid), &[1, 2], 65_498),
        (A, 0x43, &[], Ok(()), &[1, 2], 65_498),
        (A, 0x47, &[3], Ok(()), &[1, 2, 3], 65_497),
        (A, 7, &[4], Ok(()), &[4], 65_499),
        (B, 0, &[], Err(VarRefusal::NotFound), &[4], 65_499),
        (B, 1, &[9], Err(VarRefusal::NotFound), &[4], 65_499),
        (B, 0x41, &[], Ok(()), &[4], 65_499),
        (B, 0x41, &[9], Ok(()), &[4], 65_462),
        (B, 0, &[9], Ok(()), &[4], 65_499),
        (A, 3, &[], Ok(()), &[], 65_536),
        (A, 7, &[], Err(VarRefusal::NotFound), &[], 65_536),
    ];
    for (name, attributes, bytes, answer, wanted, room) in ROWS {
        assert_eq!(rt;
            variables.set(name, &GLOBAL, attributes, bytes, false),
            answer
        );
        let place = variables.find(A, &GLOBAL, false);
        assert_eq!(rt; data_at(&variables, place.unwrap_or(9)), wanted);
        assert_eq!(rt; variables.room(), room);
    }
    Ok(())
}

#[test]
fn sets_after_the_end_of_boot_services(rt: HostRuntime) -> Result<(), Fail> {
    let mut variables = Variables::new(rt.alloc());
    const NAMES: [&[u16]; 4] = [&[1], &[2], &[3], &[4]];
    // the first is kept and seen, the second kept and not seen, the third volatile and seen
    assert_eq!(rt; variables.set(NAMES[0], &GLOBAL, 7, &[1], false), Ok(()));
    assert_eq!(rt; variables.set(NAMES[1], &GLOBAL, 3, &[1], false), Ok(()));
    assert_eq!(rt; variables.set(NAMES[2], &GLOBAL, 6, &[1], false), Ok(()));
    const ROWS: [(usize, u32, &[u8], Result<(), VarRefusal>); 15] = [
        (0, 7, &[2], Ok(())),
        (0, 0x47, &[3], Ok(())),
        (0, 3, &[3], Err(VarRefusal::Invalid)),
        (1, 3, &[], Err(VarRefusal::NotFound)),
        (1, 7, &[2], Err(VarRefusal::Invalid)),
        (2, 6, &[2], Err(VarRefusal::WriteProtected)),
        (2, 6, &[], Err(VarRefusal::WriteProtected)),
        (2, 7, &[2], Err(VarRefusal::WriteProtected)),
        (2, 0x46, &[], Ok(())),
        (2, 0x46, &[2], Err(VarRefusal::WriteProtected)),
        (2, 4, &[2], Err(VarRefusal::Invalid)),
        (3, 6, &[2], Err(VarRefusal::Invalid)),
        (3, 3, &[2], Err(VarRefusal::Invalid)),
        (3, 7, &[2], Ok(())),
        (0, 0, &[9], Ok(())),
    ];
    for (name, attributes, bytes, answer) in ROWS {
        let name = NAMES.get(name).copied().unwrap_or(&[]);
        assert_eq!(rt;
            variables.set(name, &GLOBAL, attributes, bytes, true),
            answer
        );
    }
    assert_eq!(rt; variables.find(NAMES[0], &GLOBAL, false), None);
    assert_eq!(rt; variables.find(NAMES[1], &GLOBAL, true), None);
    assert_eq!(rt; variables.find(NAMES[1], &GLOBAL, false), Some(0));
    assert_eq!(rt; variables.find(NAMES[3], &GLOBAL, true), Some(2));
    assert_eq!(rt; data_at(&variables, 1), &[1][..]);
    Ok(())
}

#[test]
fn names_and_vendors(rt: HostRuntime) -> Result<(), Fail> {
    let mut variables = Variables::new(rt.alloc());
    assert_eq!(rt; variables.next_index(&[], &GLOBAL, false), Ok(None));
    assert_eq!(rt; variables.set(A, &OTHER, 6, &[1], false), Ok(()));
    assert_eq!(rt; variables.set(A, &GLOBAL, 2, &[2], false), Ok(()));
    assert_eq!(rt; variables.set(B, &GLOBAL, 7, &[3], false), Ok(()));
    const ROWS: [(&[u16], &Guid, bool, Result<Option<usize>, VarRefusal>); 8] = [
        (&[], &GLOBAL, false, Ok(Some(0))),
        (A, &OTHER, false, Ok(Some(1))),
        (A, &GLOBAL, false, Ok(Some(2))),
        (B, &GLOBAL, false, Ok(None)),
        (B, &OTHER, false, Err(VarRefusal::Invalid)),
        (&[], &OTHER, true, Ok(Some(0))),
        (A, &OTHER, true, Ok(Some(2))),
        (A, &GLOBAL, true, Err(VarRefusal::Invalid)),
    ];
    for (name, vendor, runtime, answer) in ROWS {
        assert_eq!(rt; variables.next_index(name, vendor, runtime), answer);
    }
    assert_eq!(rt; variables.at(3).is_none(), true);
    Ok(())
}

#[test]
fn the_room(rt: HostRuntime) -> Result<(), Fail> {
    let mut variables = Variables::new(rt.alloc());
    let bytes = [7u8; 40_000];
    let name = [0x61u16; 1025];
    assert_eq!(rt;
        variables.set(&name, &GLOBAL, 7, &[1], false),
        Err(VarRefusal::Invalid)
    );
    assert_eq!(rt;
        variables.set(&name[..1024], &GLOBAL, 7, &bytes, false),
        Ok(())
    );
    assert_eq!(rt; variables.room(), 23_454);
    assert_eq!(rt;
        variables.set(A, &GLOBAL, 7, &bytes[..23_419], false),
        Err(VarRefusal::Full)
    );
    assert_eq!(rt;
        variables.set(A, &GLOBAL, 7, &bytes[..23_418], false),
        Ok(())
    );
    assert_eq!(rt; variables.room(), 0);
    assert_eq!(rt;
        variables.set(A, &GLOBAL, 0x47, &[1], false),
        Err(VarRefusal::Full)
    );
    assert_eq!(rt;
        variables.set(A, &GLOBAL, 7, &bytes[..23_418], false),
        Ok(())
    );
    assert_eq!(rt;
        variables.set(A, &GLOBAL, 7, &bytes[..23_417], false),
        Ok(())
    );
    assert_eq!(rt; variables.set(A, &GLOBAL, 0x47, &[1], false), Ok(()));
    assert_eq!(rt; variables.room(), 0);
    assert_eq!(rt;
        variables.refusal(B, &GLOBAL, 7, u64::MAX, false),
        Some(VarRefusal::Full)
    );
    Ok(())
}

/// A file of two variables: `A` with attributes 7 and bytes 1 and 2, and `B` with attributes 3 and byte 3.
const STORE: [u8; 71] = [
    0x55, 0x56, 0x53, 0x31, 2, 0, 0, 0, // UVS1, two
    0x61, 0xdf, 0xe4, 0x8b, 0xca, 0x93, 0xd2, 0x11, 0xaa, 0x0d, 0x00, 0xe0, 0x98, 0x03, 0x2b, 0x8c, // at 8
    7, 0, 0, 0, 1, 0, 0, 0, 2, 0, 0, 0, // at 24, 28 and 32
    0x41, 0, 1, 2, // at 36 and 38
    0x61, 0xdf, 0xe4, 0x8b, 0xca, 0x93, 0xd2, 0x11, 0xaa, 0x0d, 0x00, 0xe0, 0x98, 0x03, 0x2b, 0x8c, // at 40
    3, 0, 0, 0, 1, 0, 0, 0, 1, 0, 0, 0, // at 56, 60 and 64
    0x42, 0, 3, // at 68 and 70
];

/// The fault of a file, none where it is a store.
fn fault_of(rt: &HostRuntime, bytes: &[u8]) -> Option<StoreFault> {
    Variables::load(rt.alloc(), bytes).err()
}

#[test]
fn a_store_of_one_variable(rt: HostRuntime) -> Result<(), Fail> {
    let mut variables = Variables::new(rt.alloc());
    assert_eq!(rt; variables.set(A, &GLOBAL, 7, &[1, 2], false), Ok(()));
    let mut wanted = [0; 40];
    wanted.copy_from_slice(&STORE[..40]);
    wanted[4] = 1;
    let bytes = variables.save()?;
    assert_eq!(rt; bytes.as_slice(), &wanted[..]);
    let loaded = Variables::load(rt.alloc(), &bytes).expect(&rt, "a store");
    assert_eq!(rt; loaded.find(A, &GLOBAL, false), Some(0));
    assert_eq!(rt; data_at(&loaded, 0), &[1, 2][..]);
    assert_eq!(rt; loaded.room(), 65_498);
    assert_eq!(rt; loaded.at(1).is_none(), true);
    assert_eq!(rt; fault_of(&rt, &wanted[..39]), Some(StoreFault::At(38)));
    assert_eq!(rt; fault_of(&rt, b"UVS2"), Some(StoreFault::At(0)));
    Ok(())
}

#[test]
fn variables_that_outlive_a_run(rt: HostRuntime) -> Result<(), Fail> {
    let mut variables = Variables::new(rt.alloc());
    assert_eq!(rt; variables.set(A, &OTHER, 6, &[9], false), Ok(()));
    assert_eq!(rt; variables.set(A, &GLOBAL, 7, &[1, 2], false), Ok(()));
    assert_eq!(rt; variables.set(B, &OTHER, 2, &[9], false), Ok(()));
    assert_eq!(rt; variables.set(B, &GLOBAL, 3, &[3], false), Ok(()));
    assert_eq!(rt; variables.save()?.as_slice(), &STORE[..]);
    let loaded = Variables::load(rt.alloc(), &STORE).expect(&rt, "a store");
    assert_eq!(rt; loaded.find(A, &GLOBAL, true), Some(0));
    assert_eq!(rt; loaded.find(B, &GLOBAL, true), None);
    assert_eq!(rt; loaded.find(B, &GLOBAL, false), Some(1));
    assert_eq!(rt; loaded.save()?.as_slice(), &STORE[..]);
    Ok(())
}

#[test]
fn stores_that_are_cut(rt: HostRuntime) -> Result<(), Fail> {
    // where each field begins
    const FIELDS: [usize; 14] = [0, 4, 8, 24, 28, 32, 36, 38, 40, 56, 60, 64, 68, 70];
    for length in 0..71 {
        let first = FIELDS.iter().rev().find(|field| **field <= length).copied();
        let cut = STORE.get(..length).unwrap_or(&[]);
        assert_eq!(rt; fault_of(&rt, cut), first.map(StoreFault::At));
    }
    assert_eq!(rt; fault_of(&rt, &STORE), None);
    Ok(())
}

#[test]
fn stores_out_of_form(rt: HostRuntime) -> Result<(), Fail> {
    // two bytes, each by its offset, and the offset of the fault
    const ROWS: [((usize, u8), (usize, u8), usize); 20] = [
        ((0, 0x54), (0, 0x54), 0),
        ((3, 0x32), (3, 0x32), 0),
        ((4, 3), (4, 3), 71),
        ((7, 1), (7, 1), 71),
        ((4, 1), (4, 1), 40),
        ((4, 0), (4, 0), 8),
        ((24, 6), (24, 6), 24),
        ((24, 5), (24, 5), 24),
        ((24, 0x47), (24, 0x47), 24),
        ((27, 0x80), (27, 0x80), 24),
        ((28, 0), (28, 0), 28),
        ((29, 4), (28, 1), 28),
        ((29, 4), (28, 0), 36),
        ((32, 0), (32, 0), 32),
        ((34, 1), (34, 1), 32),
        ((35, 0xff), (35, 0xff), 32),
        ((56, 0), (56, 0), 56),
        ((64, 0xb7), (65, 0xff), 64),
        ((64, 0xb6), (65, 0xff), 70),
        ((68, 0x41), (68, 0x41), 68),
    ];
    for ((first, byte), (second, other), fault) in ROWS {
        let mut bytes = STORE;
        if let Some(place) = bytes.get_mut(first) {
            *place = byte;
        }
        if let Some(place) = bytes.get_mut(second) {
            *place = other;
        }
        assert_eq!(rt; fault_of(&rt, &bytes), Some(StoreFault::At(fault)));
    }
    // the same name of another vendor, and attributes 1
    for (at, byte) in [(40, 0x62), (56, 1)] {
        let mut bytes = STORE;
        bytes[68] = if at == 40 { 0x41 } else { 0x42 };
        if let Some(place) = bytes.get_mut(at) {
            *place = byte;
        }
        assert_eq!(rt; fault_of(&rt, &bytes), None);
    }
    Ok(())
}
