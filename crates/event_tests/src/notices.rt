//! Events that are registered for protocols.

use crate::calls::{call, fresh, plain, put};
use event_queue::Events;
use event_services::{close_event, create_event, register_protocol_notify};
use guest_call::number_seen;
use protocol_db::Protocols;
use std::test::Fail;

#[test]
fn a_registration_goes_with_its_event(rt: HostRuntime) -> Result<(), Fail> {
    let alloc = rt.alloc();
    let mut memory = fresh(alloc)?;
    let view = plain(alloc)?;
    let mut events = Events::new(alloc, Vec::new(alloc))?;
    let mut protocols = Protocols::new(alloc);
    assert!(rt; put(&mut memory, &view, 0x110000, 0x11d2_9562_5b1b_31a1));
    let plain_event = call([0, 0, 0, 0, 0x110100, 0]);
    let served = create_event(alloc, &plain_event, &view, &mut memory, &mut events)?;
    assert_eq!(rt; served.value, 0);
    assert_eq!(rt; number_seen(&memory, &view, 0x110100, 8), 24);
    let notice = call([0x110000, 24, 0x110100, 0, 0, 0]);
    let served = register_protocol_notify(
        alloc,
        &notice,
        &view,
        &mut memory,
        &events,
        &mut protocols,
    )?;
    assert_eq!(rt; served.value, 0);
    assert_eq!(rt; number_seen(&memory, &view, 0x110100, 8), 20);
    assert!(rt; protocols.registered(20));
    let close = call([24, 0, 0, 0, 0, 0]);
    assert_eq!(rt;
        close_event(alloc, &close, &mut events, &mut protocols).value,
        0
    );
    assert!(rt; !protocols.registered(20));
    Ok(())
}
