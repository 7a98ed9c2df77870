//! Protocols on handles, with answers worked by hand.

use protocol_db::{OpenEntry, OpenRequest, ProtocolRefusal, Protocols};
use std::test::Fail;
use uh_base::Guid;

/// GUID number n.
fn guid(n: u32) -> Guid {
    Guid {
        d1: n,
        d2: 1,
        d3: 2,
        d4: 3,
    }
}

/// An open of GUID 1 on handle 16.
fn request(agent: u64, controller: u64, attributes: u32) -> OpenRequest {
    OpenRequest {
        handle: 16,
        guid: guid(1),
        agent,
        controller,
        attributes,
    }
}

/// Handles 16, 32 and 48 with GUID 1 and interface 8.
fn three_handles(rt: &HostRuntime) -> Result<Protocols, ProtocolRefusal> {
    let mut protocols = Protocols::new(rt.alloc());
    for _ in 0..3 {
        protocols.install(None, guid(1), 8)?;
    }
    Ok(protocols)
}

#[test]
fn a_driver_keeps_its_protocol(rt: HostRuntime) -> Result<(), Fail> {
    let mut protocols = three_handles(&rt)?;
    assert_eq!(rt;
        protocols
            .install(Some(16), guid(1), 8)
            .is_err_and(|e| e == ProtocolRefusal::Invalid),
        true
    );
    assert_eq!(rt; protocols.open_protocol(&request(32, 16, 0x10)), Ok(8));
    assert_eq!(rt;
        protocols.open_protocol(&request(32, 16, 0x10)),
        Err(ProtocolRefusal::AlreadyStarted)
    );
    assert_eq!(rt;
        protocols.open_protocol(&request(48, 16, 0x10)),
        Err(ProtocolRefusal::AccessDenied)
    );
    assert_eq!(rt;
        protocols.uninstall(16, &guid(1), 8),
        Err(ProtocolRefusal::AccessDenied)
    );
    assert_eq!(rt; protocols.close_protocol(16, &guid(1), 32, 16), Ok(()));
    assert!(rt; protocols.information(16, &guid(1))?.is_empty());
    assert!(rt; protocols.copy()?.information(16, &guid(1))?.is_empty());
    assert!(rt; protocols.handles().handles_of(None)?.as_slice() == [16, 32, 48].as_slice());
    let installed = protocols.reinstall(16, &guid(1), 8, 9)?;
    assert_eq!(rt; installed.handle, 16);
    assert!(rt; installed.events.is_empty());
    assert_eq!(rt; protocols.register(guid(1), 24), Ok(20));
    Ok(())
}

/// What OpenProtocol answers.
type Opened = Result<u64, ProtocolRefusal>;

/// The attributes of OpenProtocol.
const ATTRIBUTES: [u32; 7] = [1, 2, 4, 8, 0x10, 0x20, 0x30];

#[test]
fn attribute_by_entry_present(rt: HostRuntime) -> Result<(), Fail> {
    const OK: Opened = Ok(8);
    const STARTED: Opened = Err(ProtocolRefusal::AlreadyStarted);
    const DENIED: Opened = Err(ProtocolRefusal::AccessDenied);
    const FREE: [Opened; 7] = [OK, OK, OK, OK, OK, OK, OK];
    const ALONE: [Opened; 7] = [OK, OK, OK, OK, DENIED, DENIED, DENIED];
    // What is there, by agent 32 for controller 48; then what each attribute is answered, for these and for agent 48.
    const ROWS: [(u32, [Opened; 7], [Opened; 7]); 7] = [
        (1, FREE, FREE),
        (2, FREE, FREE),
        (4, FREE, FREE),
        (8, FREE, FREE),
        (0x10, [OK, OK, OK, OK, STARTED, DENIED, DENIED], ALONE),
        (0x20, ALONE, ALONE),
        (0x30, [OK, OK, OK, OK, DENIED, DENIED, STARTED], ALONE),
    ];
    for (present, same, other) in ROWS {
        for (agent, wanted) in [(32, same), (48, other)] {
            for (attributes, answer) in ATTRIBUTES.iter().zip(wanted.iter()) {
                let mut protocols = three_handles(&rt)?;
                assert_eq!(rt; protocols.open_protocol(&request(32, 48, present)), OK);
                assert_eq!(rt;
                    protocols.open_protocol(&request(agent, 48, *attributes)),
                    *answer
                );
            }
        }
    }
    Ok(())
}

#[test]
fn what_an_open_asks_for(rt: HostRuntime) -> Result<(), Fail> {
    const INVALID: Opened = Err(ProtocolRefusal::Invalid);
    const UNSUPPORTED: Opened = Err(ProtocolRefusal::Unsupported);
    // Handle, GUID, agent, controller, attributes.
    const ROWS: [(u64, u32, u64, u64, u32, Opened); 21] = [
        (17, 1, 32, 48, 2, INVALID),
        (16, 1, 32, 48, 0, INVALID),
        (16, 1, 32, 48, 3, INVALID),
        (16, 1, 32, 48, 0x40, INVALID),
        (16, 1, 32, 48, 0x18, INVALID),
        (16, 1, 33, 49, 1, Ok(8)),
        (16, 1, 33, 49, 2, Ok(8)),
        (16, 1, 33, 49, 4, Ok(8)),
        (16, 1, 33, 48, 8, INVALID),
        (16, 1, 33, 48, 0x10, INVALID),
        (16, 1, 33, 48, 0x20, INVALID),
        (16, 1, 33, 48, 0x30, INVALID),
        (16, 1, 32, 49, 8, INVALID),
        (16, 1, 32, 49, 0x10, INVALID),
        (16, 1, 32, 49, 0x20, Ok(8)),
        (16, 1, 32, 49, 0x30, INVALID),
        (16, 1, 32, 16, 8, INVALID),
        (16, 1, 32, 16, 0x10, Ok(8)),
        (16, 2, 32, 48, 4, UNSUPPORTED),
        (16, 2, 32, 16, 8, INVALID),
        (16, 2, 32, 48, 0x10, UNSUPPORTED),
    ];
    for (handle, number, agent, controller, attributes, wanted) in ROWS {
        let mut protocols = three_handles(&rt)?;
        let asked = OpenRequest {
            handle,
            guid: guid(number),
            agent,
            controller,
            attributes,
        };
        assert_eq!(rt; protocols.open_protocol(&asked), wanted);
    }
    Ok(())
}

#[test]
fn entries_are_counted_and_closed_together(rt: HostRuntime) -> Result<(), Fail> {
    let mut protocols = three_handles(&rt)?;
    for (agent, attributes) in [(32, 2), (32, 1), (32, 2), (48, 2), (32, 4), (0, 2)] {
        assert_eq!(rt;
            protocols.open_protocol(&request(agent, 16, attributes)),
            Ok(8)
        );
    }
    let entries = [(32, 2, 2), (32, 1, 1), (48, 2, 1)];
    let given = protocols.information(16, &guid(1))?;
    for (entry, (agent, attributes, count)) in given.iter().zip(entries.iter()) {
        let wanted = OpenEntry {
            agent: *agent,
            controller: 16,
            attributes: *attributes,
            count: *count,
        };
        assert_eq!(rt; *entry, wanted);
    }
    assert_eq!(rt; given.len(), 3);
    const ROWS: [(u64, u32, u64, u64, Result<(), ProtocolRefusal>); 7] = [
        (17, 1, 32, 16, Err(ProtocolRefusal::Invalid)),
        (16, 1, 33, 16, Err(ProtocolRefusal::Invalid)),
        (16, 1, 32, 17, Err(ProtocolRefusal::Invalid)),
        (16, 2, 32, 16, Err(ProtocolRefusal::NotFound)),
        (16, 1, 32, 0, Err(ProtocolRefusal::NotFound)),
        (16, 1, 32, 16, Ok(())),
        (16, 1, 32, 16, Err(ProtocolRefusal::NotFound)),
    ];
    for (handle, number, agent, controller, wanted) in ROWS {
        assert_eq!(rt;
            protocols.close_protocol(handle, &guid(number), agent, controller),
            wanted
        );
    }
    assert_eq!(rt; protocols.information(16, &guid(1))?.len(), 1);
    Ok(())
}

#[test]
fn pending_once_and_in_order(rt: HostRuntime) -> Result<(), Fail> {
    let mut protocols = Protocols::new(rt.alloc());
    assert_eq!(rt; protocols.register(guid(1), 24), Ok(20));
    assert_eq!(rt; protocols.register(guid(1), 40), Ok(36));
    assert_eq!(rt; protocols.register(guid(2), 56), Ok(52));
    assert_eq!(rt; protocols.take_notified(20), None);
    for handle in [16, 32, 48] {
        let installed = protocols.install(None, guid(1), 8)?;
        assert_eq!(rt; installed.handle, handle);
        assert!(rt; installed.events.as_slice() == [24, 40].as_slice());
    }
    assert_eq!(rt; protocols.reinstall(16, &guid(1), 8, 9)?.events.len(), 2);
    assert_eq!(rt; protocols.first_notified(20), Some(16));
    assert_eq!(rt; protocols.take_notified(20), Some(16));
    assert_eq!(rt; protocols.uninstall(32, &guid(1), 8), Ok(()));
    assert_eq!(rt; protocols.take_notified(20), Some(48));
    assert_eq!(rt; protocols.take_notified(20), None);
    assert_eq!(rt; protocols.first_notified(36), Some(16));
    assert_eq!(rt; protocols.first_notified(52), None);
    protocols.discard(16, &guid(1));
    assert_eq!(rt; protocols.first_notified(36), Some(48));
    protocols.forget(40);
    assert_eq!(rt; protocols.first_notified(36), None);
    assert!(rt; protocols.registered(20) && !protocols.registered(36));
    Ok(())
}

#[test]
fn pairs_are_installed_together(rt: HostRuntime) -> Result<(), Fail> {
    let mut protocols = three_handles(&rt)?;
    assert_eq!(rt; protocols.register(guid(3), 24), Ok(20));
    // GUID 1 is there, in the middle of the list.
    let four = [(guid(2), 5), (guid(3), 6), (guid(1), 7), (guid(4), 8)];
    assert!(rt;
        protocols
            .install_all(Some(16), &four)
            .is_err_and(|e| e == ProtocolRefusal::Invalid)
    );
    assert_eq!(rt; protocols.first_of(&guid(2)), None);
    let installed = protocols.install_all(None, &four)?;
    assert_eq!(rt; installed.handle, Some(64));
    assert!(rt; installed.events.as_slice() == [24].as_slice());
    assert_eq!(rt; protocols.first_of(&guid(2)), Some(64));
    assert_eq!(rt; protocols.first_notified(20), Some(64));
    Ok(())
}

#[test]
fn pairs_are_taken_together(rt: HostRuntime) -> Result<(), Fail> {
    let there = [(guid(1), 5), (guid(2), 6)];
    const INVALID: Result<(), ProtocolRefusal> = Err(ProtocolRefusal::Invalid);
    const MISSING: Result<(), ProtocolRefusal> = Err(ProtocolRefusal::NotFound);
    // The handle; three pairs, by the GUID's number and the interface. It goes with its last protocol.
    const ROWS: [(u64, [(u32, u64); 3], Result<(), ProtocolRefusal>); 4] = [
        (17, [(1, 5), (2, 6), (2, 6)], INVALID),
        (16, [(1, 5), (1, 5), (2, 6)], MISSING),
        (16, [(1, 5), (2, 5), (2, 6)], MISSING),
        (16, [(2, 6), (1, 5), (1, 5)], INVALID),
    ];
    for (handle, [first, second, third], wanted) in ROWS {
        let mut protocols = Protocols::new(rt.alloc());
        assert_eq!(rt; protocols.install_all(None, &there)?.handle, Some(16));
        let pairs = [
            (guid(first.0), first.1),
            (guid(second.0), second.1),
            (guid(third.0), third.1),
        ];
        assert_eq!(rt; protocols.uninstall_all(handle, &pairs), wanted);
        assert_eq!(rt; protocols.uninstall_all(16, &there), Ok(()));
    }
    Ok(())
}

#[test]
fn at_most_256_registrations_live(rt: HostRuntime) -> Result<(), Fail> {
    let mut protocols = Protocols::new(rt.alloc());
    for number in 1..=256 {
        assert_eq!(rt; protocols.register(guid(1), 24), Ok(16 * number + 4));
    }
    assert_eq!(rt; protocols.register(guid(1), 40), Err(ProtocolRefusal::Full));
    protocols.forget(24);
    assert_eq!(rt; protocols.register(guid(1), 40), Ok(16 * 257 + 4));
    Ok(())
}
