//! Handles and their protocols, with answers worked by hand.

use handle_db::{HandleRefusal, Handles, OpenEntry};
use std::test::Fail;
use uh_base::Guid;

/// GUID number n.
fn guid(n: u32) -> Guid {
    Guid {
        d1: n,
        d2: 1,
        d3: 2,
        d4: 3,
    }
}

#[test]
fn handles_in_order_of_making(rt: HostRuntime) -> Result<(), Fail> {
    let mut handles = Handles::new(rt.alloc());
    assert_eq!(rt; handles.install(None, guid(1), 8), Ok(16));
    assert_eq!(rt;
        handles.install(Some(16), guid(1), 9),
        Err(HandleRefusal::Invalid)
    );
    assert_eq!(rt;
        handles.install(Some(32), guid(1), 9),
        Err(HandleRefusal::Invalid)
    );
    assert_eq!(rt; handles.install(None, guid(2), 10), Ok(32));
    assert_eq!(rt; handles.install(Some(16), guid(2), 11), Ok(16));
    assert_eq!(rt; handles.install(None, guid(1), 12), Ok(48));
    assert!(rt; handles.handles_of(None)?.as_slice() == [16, 32, 48].as_slice());
    assert!(rt; handles.handles_of(Some(&guid(2)))?.as_slice() == [16, 32].as_slice());
    assert!(rt; handles.guids_of(16)?.as_slice() == [guid(1), guid(2)].as_slice());
    assert!(rt; handles.guids_of(17)?.is_empty());
    Ok(())
}

#[test]
fn pairs_are_installed_all_or_none(rt: HostRuntime) -> Result<(), Fail> {
    let mut handles = Handles::new(rt.alloc());
    // Handle, GUID and interface twice, answer.
    const INVALID: Result<Option<u64>, HandleRefusal> = Err(HandleRefusal::Invalid);
    const ROWS: [(
        Option<u64>,
        (u32, u64),
        (u32, u64),
        Result<Option<u64>, HandleRefusal>,
    ); 6] = [
        (None, (1, 8), (2, 9), Ok(Some(16))),
        (Some(17), (3, 8), (4, 9), INVALID),
        (None, (3, 8), (3, 9), INVALID),
        (Some(16), (3, 8), (2, 9), INVALID),
        (Some(16), (4, 8), (3, 8), Ok(Some(16))),
        (None, (5, 0), (3, 0), Ok(Some(32))),
    ];
    for (handle, (first, one), (second, other), wanted) in ROWS {
        let pairs = [(guid(first), one), (guid(second), other)];
        assert_eq!(rt; handles.install_all(handle, &pairs), wanted);
    }
    assert_eq!(rt; handles.install_all(None, &[]), Ok(None));
    assert_eq!(rt; handles.install_all(Some(17), &[]), Ok(Some(17)));
    assert!(rt;
        handles.guids_of(16)?.as_slice() == [guid(1), guid(2), guid(4), guid(3)].as_slice()
    );
    assert_eq!(rt; handles.first_of(&guid(3)), Some(16));
    assert_eq!(rt; handles.first_of(&guid(5)), Some(32));
    assert_eq!(rt; handles.first_of(&guid(6)), None);
    Ok(())
}

#[test]
fn what_is_taken_away_is_gone(rt: HostRuntime) -> Result<(), Fail> {
    let mut handles = Handles::new(rt.alloc());
    assert_eq!(rt; handles.install(None, guid(1), 8), Ok(16));
    assert_eq!(rt; handles.install(Some(16), guid(2), 9), Ok(16));
    const ROWS: [(u64, u32, u64, Result<(), HandleRefusal>); 7] = [
        (17, 1, 8, Err(HandleRefusal::Invalid)),
        (16, 1, 9, Err(HandleRefusal::NotFound)),
        (16, 3, 8, Err(HandleRefusal::NotFound)),
        (16, 1, 8, Ok(())),
        (16, 1, 8, Err(HandleRefusal::NotFound)),
        (16, 2, 9, Ok(())),
        (16, 2, 9, Err(HandleRefusal::Invalid)),
    ];
    for (handle, number, interface, wanted) in ROWS {
        assert_eq!(rt; handles.remove(handle, &guid(number), interface), wanted);
    }
    assert!(rt; !handles.is_handle(16));
    assert_eq!(rt; handles.install(None, guid(1), 8), Ok(32));
    Ok(())
}

#[test]
fn opens_are_counted_and_go_with_their_protocol(rt: HostRuntime) -> Result<(), Fail> {
    let mut handles = Handles::new(rt.alloc());
    assert_eq!(rt; handles.install(None, guid(1), 8), Ok(16));
    assert_eq!(rt; handles.install(Some(16), guid(2), 9), Ok(16));
    let entry = OpenEntry {
        agent: 32,
        controller: 16,
        attributes: 2,
        count: 1,
    };
    let other = OpenEntry {
        agent: 48,
        controller: 16,
        attributes: 2,
        count: 1,
    };
    let unkept = OpenEntry {
        agent: 48,
        controller: 16,
        attributes: 4,
        count: 1,
    };
    for noted in [entry, other, entry, unkept] {
        handles.note_open(16, &guid(1), noted)?;
    }
    let twice = OpenEntry {
        agent: 32,
        controller: 16,
        attributes: 2,
        count: 2,
    };
    assert!(rt; handles.opens(16, &guid(1)).unwrap_or(&[]) == [twice, other].as_slice());
    let copied = handles.copy()?;
    assert!(rt; copied.opens(16, &guid(1)).unwrap_or(&[]) == [twice, other].as_slice());
    handles.close_opens(16, &guid(1), 32, 16);
    assert!(rt; handles.opens(16, &guid(1)).unwrap_or(&[]) == [other].as_slice());
    assert_eq!(rt; handles.replace(16, &guid(1), 8, 10), Ok(()));
    assert!(rt; handles.opens(16, &guid(1)) == Some(&[]));
    assert!(rt; handles.guids_of(16)?.as_slice() == [guid(2), guid(1)].as_slice());
    assert_eq!(rt; handles.interface(16, &guid(1)), Some(10));
    Ok(())
}

#[test]
fn at_most_1024_handles_live(rt: HostRuntime) -> Result<(), Fail> {
    let mut handles = Handles::new(rt.alloc());
    for number in 1..=1024 {
        assert_eq!(rt; handles.install(None, guid(1), 8), Ok(16 * number));
    }
    assert_eq!(rt; handles.install(None, guid(1), 8), Err(HandleRefusal::Full));
    assert_eq!(rt; handles.install(Some(16), guid(2), 8), Ok(16));
    assert_eq!(rt; handles.remove(32, &guid(1), 8), Ok(()));
    assert_eq!(rt; handles.install(None, guid(1), 8), Ok(16 * 1025));
    Ok(())
}
