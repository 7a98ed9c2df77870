//! Events that are checked and waited for.

use crate::calls::{call, fresh, plain, put};
use event_queue::Events;
use event_services::{
    Awaited, check_event, check_event_notified, set_timer, signal_event, wait_anew, wait_for_event,
    wait_for_signal,
};
use guest_call::number_seen;
use std::test::Fail;
use uh_base::EfiStatus;

/// The list of events, and the index.
const LIST: u64 = 0x110000;

const INDEX: u64 = 0x111000;

#[test]
fn the_first_that_decides_is_told(rt: HostRuntime) -> Result<(), Fail> {
    let alloc = rt.alloc();
    let mut memory = fresh(alloc)?;
    let view = plain(alloc)?;
    let mut events = Events::new(alloc, Vec::new(alloc))?;
    assert!(rt; events.create(0, 0, 0, 0, None).is_ok());
    assert!(rt; events.create(0, 0, 0, 0, None).is_ok());
    assert!(rt; events.create(0x200, 8, 0x104000, 0, None).is_ok());
    assert!(rt; events.signal(40).is_ok());
    let invalid = Awaited::Answers(EfiStatus::INVALID_PARAMETER.0);
    let rows = [
        (0, 4, 24, 40, invalid, 9),
        (2, 8, 24, 40, Awaited::Answers(EfiStatus::UNSUPPORTED.0), 9),
        (0, 8, 24, 40, invalid, 9),
        (1, 4, 24, 40, Awaited::GoesOn, 9),
        (2, 4, 24, 72, invalid, 1),
        (2, 4, 24, 56, invalid, 1),
        (2, 4, 72, 40, invalid, 0),
        (2, 4, 24, 40, Awaited::Answers(0), 1),
        (2, 4, 24, 40, Awaited::GoesOn, 9),
    ];
    for (count, tpl, first, second, answer, index) in rows {
        assert!(rt; put(&mut memory, &view, LIST, first));
        assert!(rt; put(&mut memory, &view, LIST + 8, second));
        assert!(rt; put(&mut memory, &view, INDEX, 9));
        let wait = call([count, LIST, INDEX, 0, 0, 0]);
        let told = wait_for_event(&wait, tpl, &view, &mut memory, &mut events)?;
        assert_eq!(rt; told, answer);
        assert_eq!(rt; number_seen(&memory, &view, INDEX, 8), index);
    }
    Ok(())
}

#[test]
fn at_most_256_events_are_waited_for(rt: HostRuntime) -> Result<(), Fail> {
    let alloc = rt.alloc();
    let mut memory = fresh(alloc)?;
    let view = plain(alloc)?;
    let mut events = Events::new(alloc, Vec::new(alloc))?;
    assert!(rt; events.create(0, 0, 0, 0, None).is_ok());
    assert!(rt; events.create(0, 0, 0, 0, None).is_ok());
    assert!(rt; events.signal(40).is_ok());
    for place in 0..257 {
        assert!(rt;
            put(
                &mut memory,
                &view,
                LIST + 8 * place,
                if place < 255 { 24 } else { 40 }
            )
        );
    }
    let invalid = Awaited::Answers(EfiStatus::INVALID_PARAMETER.0);
    for (count, answer) in [(257, invalid), (256, Awaited::Answers(0))] {
        let wait = call([count, LIST, INDEX, 0, 0, 0]);
        let told = wait_for_event(&wait, 4, &view, &mut memory, &mut events)?;
        assert_eq!(rt; told, answer);
    }
    assert_eq!(rt; number_seen(&memory, &view, INDEX, 8), 255);
    Ok(())
}

#[test]
fn a_wait_lasts_to_the_next_timer(rt: HostRuntime) -> Result<(), Fail> {
    let alloc = rt.alloc();
    let mut memory = fresh(alloc)?;
    let view = plain(alloc)?;
    let mut events = Events::new(alloc, Vec::new(alloc))?;
    assert!(rt; events.create(0x8000_0000, 0, 0, 0, None).is_ok());
    assert!(rt; put(&mut memory, &view, LIST, 24));
    let wait = call([1, LIST, INDEX, 0, 0, 0]);
    let mut moment = 50;
    let told = wait_for_signal(&wait, &view, &mut memory, &mut events, &mut moment)?;
    assert_eq!(rt; told, Awaited::Idle);
    let timer = call([24, 2, 10_000, 0, 0, 0]);
    assert_eq!(rt; set_timer(alloc, &timer, moment, &mut events).value, 0);
    let told = wait_for_signal(&wait, &view, &mut memory, &mut events, &mut moment)?;
    assert_eq!(rt; told, Awaited::GoesOn);
    assert_eq!(rt; moment, 20_000);
    assert!(rt; events.tick(moment));
    let told = wait_anew(&wait, &view, &mut memory, &mut events)?;
    assert_eq!(rt; told, Awaited::Answers(0));
    Ok(())
}

#[test]
fn an_event_is_checked(rt: HostRuntime) -> Result<(), Fail> {
    let alloc = rt.alloc();
    let mut events = Events::new(alloc, Vec::new(alloc))?;
    assert!(rt; events.create(0, 0, 0, 0, None).is_ok());
    assert!(rt; events.create(0x100, 8, 0x104000, 0, None).is_ok());
    let not_ready = Awaited::Answers(EfiStatus::NOT_READY.0);
    let quiet = call([24, 0, 0, 0, 0, 0]);
    let waited = call([40, 0, 0, 0, 0, 0]);
    assert_eq!(rt; check_event(&quiet, &mut events), not_ready);
    assert_eq!(rt; check_event(&waited, &mut events), Awaited::GoesOn);
    assert_eq!(rt; check_event_notified(&waited, &mut events), not_ready);
    assert_eq!(rt; signal_event(alloc, &waited, &mut events).value, 0);
    assert_eq!(rt;
        check_event_notified(&waited, &mut events),
        Awaited::Answers(0)
    );
    assert_eq!(rt; check_event(&waited, &mut events), Awaited::GoesOn);
    let unknown = call([56, 0, 0, 0, 0, 0]);
    let invalid = Awaited::Answers(EfiStatus::INVALID_PARAMETER.0);
    assert_eq!(rt; check_event(&unknown, &mut events), invalid);
    Ok(())
}
