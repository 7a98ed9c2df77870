//! Events, levels and timers at their edges, as tables of calls with what each answers. Numbers are those of events made
//! in order: 24, 40, 56 and so on.

use event_queue::{Check, EXIT_GROUP, EventRefusal, Events, Notify, VIRTUAL_GROUP};
use std::alloc::AllocError;
use std::test::Fail;
use uh_base::Guid;

/// A group of the tests' own.
const GROUP: Guid = Guid {
    d1: 1,
    d2: 2,
    d3: 3,
    d4: 4,
};

/// The function and the context of the tests' events.
const FUNCTION: u64 = 0x4000_1000;

const CONTEXT: u64 = 7;

/// A call, and what it has to answer.
#[derive(Clone, Copy, Debug)]
enum Step {
    /// An event of a type and level is made, with this number.
    Make(u32, u64, u64),
    /// The same, in the tests' group.
    Join(u32, u64, u64),
    /// An event is asked for: type, level, function, group.
    Create(u32, u64, u64, Option<Guid>, Result<u64, EventRefusal>),
    /// An event is signalled, closed, or a level and number asked for.
    Signal(u64, bool),
    Close(u64, bool),
    Known(u64, bool),
    Take(u64, bool),
    Check(u64, Result<Check, EventRefusal>),
    /// A timer is set: event, kind, time, present.
    Timer(u64, u32, u64, u64, bool),
    Tick(u64, bool),
    /// What is notified next above a level: nothing, or an event at a level.
    Nothing(u8),
    Next(u8, u64, u8),
    /// The moment that comes next.
    Moment(u64, Option<u64>),
    /// The tests' group is signalled, a list of events is, and all timers stop.
    Group,
    All([u64; 4]),
    Stop,
}

fn notify(event: u64, tpl: u8) -> Notify {
    Notify {
        event,
        function: FUNCTION,
        context: CONTEXT,
        tpl,
    }
}

/// Whether a call answers what it has to.
fn goes(events: &mut Events, step: Step) -> bool {
    match step {
        Step::Make(kind, tpl, number) => {
            events.create(kind, tpl, FUNCTION, CONTEXT, None) == Ok(number)
        }
        Step::Join(kind, tpl, number) => {
            events.create(kind, tpl, FUNCTION, CONTEXT, Some(GROUP)) == Ok(number)
        }
        Step::Create(kind, tpl, function, group, wanted) => {
            events.creation(kind, tpl, function, group) == wanted
                && events.create(kind, tpl, function, CONTEXT, group) == wanted
        }
        Step::Signal(event, is_ok) => events.signal(event).is_ok() == is_ok,
        Step::Close(event, is_ok) => events.close(event).is_ok() == is_ok,
        Step::Known(event, is_known) => events.is_event(event) == is_known,
        Step::Take(event, is_taken) => events.take_signal(event) == is_taken,
        Step::Check(event, wanted) => events.check(event) == wanted,
        Step::Timer(event, kind, time, now, is_ok) => {
            events.set_timer(event, kind, time, now).is_ok() == is_ok
        }
        Step::Tick(now, is_tick) => {
            events.has_tick(now) == is_tick && events.tick(now) == is_tick
        }
        Step::Nothing(tpl) => !events.has_next(tpl) && events.next(tpl).is_none(),
        Step::Next(tpl, event, at) => {
            events.has_next(tpl) && events.next(tpl) == Some(notify(event, at))
        }
        Step::Moment(now, wanted) => events.next_moment(now) == wanted,
        Step::Group => {
            events.signal_group(&GROUP);
            true
        }
        Step::All(numbers) => {
            events.signal_all(&numbers);
            true
        }
        Step::Stop => {
            events.stop_timers();
            true
        }
    }
}

/// The place of the first call that answers something else.
fn first_wrong(events: &mut Events, steps: &[Step]) -> Option<usize> {
    for (place, step) in steps.iter().enumerate() {
        if !goes(events, *step) {
            return Some(place);
        }
    }
    None
}

#[test]
fn notifications_by_level_and_then_by_signals(rt: HostRuntime) -> Result<(), Fail> {
    let mut events = Events::new(rt.alloc(), Vec::new(rt.alloc()))?;
    const STEPS: [Step; 21] = [
        Step::Make(0x200, 8, 24),
        Step::Make(0x200, 16, 40),
        Step::Make(0x200, 8, 56),
        Step::Signal(24, true),
        Step::Signal(40, true),
        Step::Signal(24, true),
        Step::Nothing(16),
        Step::Next(4, 40, 16),
        Step::Nothing(8),
        Step::Next(4, 24, 8),
        Step::Nothing(4),
        Step::Signal(56, true),
        Step::Signal(24, true),
        Step::Next(0, 56, 8),
        Step::Next(7, 24, 8),
        Step::Nothing(0),
        // A number of no event changes nothing.
        Step::All([56, 72, 40, 24]),
        Step::Next(4, 40, 16),
        Step::Next(4, 56, 8),
        Step::Next(4, 24, 8),
        Step::Nothing(0),
    ];
    assert_eq!(rt; first_wrong(&mut events, &STEPS), None);
    Ok(())
}

/// Events of these types can be made; INVALID is the answer to the others.
const INVALID: Result<u64, EventRefusal> = Err(EventRefusal::Invalid);

#[test]
fn types_that_are_made(rt: HostRuntime) -> Result<(), Fail> {
    let mut events = Events::new(rt.alloc(), Vec::new(rt.alloc()))?;
    const STEPS: [Step; 13] = [
        Step::Create(0, 0, 0, None, Ok(24)),
        Step::Create(0, u64::MAX, 0, Some(GROUP), Ok(40)),
        Step::Create(0x8000_0000, 31, 0, None, Ok(56)),
        Step::Create(0x4000_0000, 0, 0, None, Ok(72)),
        Step::Create(0xc000_0000, 0, 0, Some(GROUP), Ok(88)),
        Step::Create(0x100, 5, 1, None, Ok(104)),
        Step::Create(0x100, 30, 1, Some(GROUP), Ok(120)),
        Step::Create(0x200, 8, 1, None, Ok(136)),
        Step::Create(0x8000_0200, 16, 1, Some(GROUP), Ok(152)),
        Step::Create(0xc000_0100, 16, 1, None, Ok(168)),
        Step::Create(0xc000_0200, 16, 1, None, Ok(184)),
        Step::Create(0x201, 8, 1, None, Ok(200)),
        Step::Create(0x6000_0202, 30, 1, None, Ok(216)),
    ];
    assert_eq!(rt; first_wrong(&mut events, &STEPS), None);
    Ok(())
}

#[test]
fn types_that_are_refused(rt: HostRuntime) -> Result<(), Fail> {
    let mut events = Events::new(rt.alloc(), Vec::new(rt.alloc()))?;
    const STEPS: [Step; 25] = [
        Step::Create(0x201, 8, 1, Some(GROUP), INVALID),
        Step::Create(0x6000_0202, 8, 1, Some(VIRTUAL_GROUP), INVALID),
        Step::Create(0x300, 8, 1, None, INVALID),
        Step::Create(0x8000_0300, 8, 1, None, INVALID),
        Step::Create(0x100, 4, 1, None, INVALID),
        Step::Create(0x100, 31, 1, None, INVALID),
        Step::Create(0x100, 8, 0, None, INVALID),
        Step::Create(0x200, 4, 1, None, INVALID),
        Step::Create(0x200, 31, 1, None, INVALID),
        Step::Create(0x200, 0x1_0000_0008, 1, None, INVALID),
        Step::Create(0x200, 8, 0, None, INVALID),
        Step::Create(0x201, 4, 1, None, INVALID),
        Step::Create(0x201, 8, 0, None, INVALID),
        Step::Create(0x6000_0202, 31, 1, None, INVALID),
        Step::Create(0x6000_0202, 8, 0, None, INVALID),
        Step::Create(1, 8, 1, None, INVALID),
        Step::Create(0x202, 8, 1, None, INVALID),
        Step::Create(0x203, 8, 1, None, INVALID),
        Step::Create(0x400, 8, 1, None, INVALID),
        Step::Create(0x2000_0000, 8, 1, None, INVALID),
        Step::Create(0x8000_0201, 8, 1, None, INVALID),
        Step::Create(0x4000_0202, 8, 1, None, INVALID),
        Step::Create(0xe000_0202, 8, 1, None, INVALID),
        Step::Create(0xffff_ffff, 8, 1, None, INVALID),
        Step::Make(0, 0, 24),
    ];
    assert_eq!(rt; first_wrong(&mut events, &STEPS), None);
    Ok(())
}

#[test]
fn at_most_256_events_live(rt: HostRuntime) -> Result<(), Fail> {
    let mut events = Events::new(rt.alloc(), Vec::new(rt.alloc()))?;
    for k in 1..257 {
        assert!(rt; goes(&mut events, Step::Make(0x200, 8, 16 * k + 8)));
    }
    for k in 1..257 {
        assert!(rt; goes(&mut events, Step::Signal(16 * k + 8, true)));
    }
    const STEPS: [Step; 11] = [
        Step::Create(0, 0, 0, None, Err(EventRefusal::Full)),
        Step::Create(1, 0, 0, None, INVALID),
        Step::Close(40, true),
        Step::Known(40, false),
        Step::Make(0x200, 30, 4120),
        Step::Create(0, 0, 0, None, Err(EventRefusal::Full)),
        Step::Signal(4120, true),
        Step::Next(29, 4120, 30),
        Step::Next(7, 24, 8),
        Step::Next(7, 56, 8),
        Step::Next(7, 72, 8),
    ];
    assert_eq!(rt; first_wrong(&mut events, &STEPS), None);
    Ok(())
}

#[test]
fn numbers_that_are_no_event(rt: HostRuntime) -> Result<(), Fail> {
    let mut events = Events::new(rt.alloc(), Vec::new(rt.alloc()))?;
    assert!(rt; goes(&mut events, Step::Make(0x8000_0000, 0, 24)));
    for number in [0, 8, 16, 23, 25, 40, u64::MAX] {
        let steps = [
            Step::Known(number, false),
            Step::Signal(number, false),
            Step::Close(number, false),
            Step::Check(number, Err(EventRefusal::Invalid)),
            Step::Timer(number, 2, 0, 0, false),
            Step::Take(number, false),
        ];
        assert_eq!(rt; first_wrong(&mut events, &steps), None, "{number}");
    }
    const STEPS: [Step; 5] = [
        Step::Known(24, true),
        Step::Timer(24, 3, 0, 0, false),
        Step::Timer(24, u32::MAX, 0, 0, false),
        Step::Make(0x200, 8, 40),
        Step::Timer(40, 2, 0, 0, false),
    ];
    assert_eq!(rt; first_wrong(&mut events, &STEPS), None);
    Ok(())
}

#[test]
fn checks_and_closed_events(rt: HostRuntime) -> Result<(), Fail> {
    let mut events = Events::new(rt.alloc(), Vec::new(rt.alloc()))?;
    const STEPS: [Step; 29] = [
        Step::Make(0, 0, 24),
        Step::Make(0x100, 8, 40),
        Step::Make(0x200, 8, 56),
        Step::Check(24, Ok(Check::Quiet)),
        Step::Signal(24, true),
        Step::Check(24, Ok(Check::Signalled)),
        Step::Check(24, Ok(Check::Quiet)),
        Step::Check(40, Ok(Check::Queued)),
        Step::Check(40, Ok(Check::Queued)),
        Step::Take(40, false),
        Step::Next(4, 40, 8),
        Step::Nothing(4),
        Step::Signal(40, true),
        Step::Nothing(4),
        Step::Take(40, true),
        Step::Take(40, false),
        // A signal between a check and its notification goes.
        Step::Check(40, Ok(Check::Queued)),
        Step::Signal(40, true),
        Step::Next(4, 40, 8),
        Step::Take(40, false),
        Step::Check(56, Err(EventRefusal::Invalid)),
        Step::Signal(56, true),
        Step::Check(56, Err(EventRefusal::Invalid)),
        Step::Take(56, false),
        // A closed event is taken from the queue.
        Step::Check(40, Ok(Check::Queued)),
        Step::Close(56, true),
        Step::Close(56, false),
        Step::Next(4, 40, 8),
        Step::Nothing(4),
    ];
    assert_eq!(rt; first_wrong(&mut events, &STEPS), None);
    Ok(())
}

#[test]
fn a_group_with_a_signalled_member(rt: HostRuntime) -> Result<(), Fail> {
    let mut events = Events::new(rt.alloc(), Vec::new(rt.alloc()))?;
    const STEPS: [Step; 17] = [
        Step::Join(0x200, 8, 24),
        Step::Make(0x200, 8, 40),
        Step::Join(0, 0, 56),
        Step::Join(0x200, 8, 72),
        // The event itself comes first, then the others of its group.
        Step::Signal(72, true),
        Step::Next(4, 72, 8),
        Step::Next(4, 24, 8),
        Step::Nothing(4),
        // It is signalled already, and its group is signalled all the same.
        Step::Signal(56, true),
        Step::Next(4, 24, 8),
        Step::Next(4, 72, 8),
        Step::Nothing(4),
        Step::Take(56, true),
        Step::Group,
        Step::Next(4, 24, 8),
        Step::Next(4, 72, 8),
        Step::Nothing(4),
    ];
    assert_eq!(rt; first_wrong(&mut events, &STEPS), None);
    Ok(())
}

#[test]
fn timers_at_tick_moments(rt: HostRuntime) -> Result<(), Fail> {
    // 20,000 is a listed moment and a multiple.
    let ticks = Vec::from_array(rt.alloc(), [3, 20_000])?;
    let mut events = Events::new(rt.alloc(), ticks)?;
    const STEPS: [Step; 30] = [
        Step::Make(0x8000_0200, 16, 24),
        Step::Moment(0, None),
        Step::Timer(24, 2, 0, 2, true),
        Step::Moment(2, Some(3)),
        Step::Moment(4, Some(10_000)),
        Step::Tick(2, false),
        Step::Tick(3, true),
        Step::Next(4, 24, 16),
        Step::Moment(3, None),
        Step::Tick(3, false),
        Step::Tick(9_999, false),
        Step::Tick(10_000, true),
        Step::Nothing(4),
        Step::Tick(19_999, false),
        Step::Tick(20_001, true),
        Step::Tick(20_002, false),
        // A periodic timer is due its period after the tick.
        Step::Timer(24, 1, 12_000, 20_500, true),
        Step::Moment(20_500, Some(40_000)),
        Step::Tick(30_000, true),
        Step::Nothing(4),
        Step::Tick(45_000, true),
        Step::Next(4, 24, 16),
        Step::Moment(45_000, Some(60_000)),
        Step::Tick(50_000, true),
        Step::Nothing(4),
        Step::Tick(57_000, false),
        Step::Tick(60_000, true),
        Step::Next(4, 24, 16),
        Step::Timer(24, 0, 0, 60_000, true),
        Step::Moment(60_000, None),
    ];
    assert_eq!(rt; first_wrong(&mut events, &STEPS), None);
    Ok(())
}

#[test]
fn periods_of_nothing_and_timers_that_stop(rt: HostRuntime) -> Result<(), Fail> {
    // Listed moments may come in any order.
    let mut events = Events::new(rt.alloc(), Vec::from_array(rt.alloc(), [5, 3])?)?;
    const STEPS: [Step; 17] = [
        Step::Make(0x8000_0000, 0, 24),
        Step::Make(0x8000_0000, 0, 40),
        Step::Timer(24, 1, 0, 0, true),
        Step::Tick(2, false),
        Step::Take(24, false),
        Step::Tick(3, true),
        Step::Take(24, true),
        Step::Tick(4, false),
        Step::Take(24, false),
        Step::Tick(5, true),
        Step::Take(24, true),
        Step::Timer(40, 2, 1, 5, true),
        Step::Stop,
        Step::Moment(5, None),
        Step::Tick(10_000, true),
        Step::Take(24, false),
        Step::Take(40, false),
    ];
    assert_eq!(rt; first_wrong(&mut events, &STEPS), None);
    Ok(())
}

#[test]
fn moments_at_the_end_of_time(rt: HostRuntime) -> Result<(), Fail> {
    // 2^64 - 1 is 18,446,744,073,709,551,615, so the last multiple of 10,000 ends in 550,000.
    let mut events = Events::new(rt.alloc(), Vec::from_array(rt.alloc(), [u64::MAX])?)?;
    const STEPS: [Step; 10] = [
        Step::Make(0x8000_0200, 16, 24),
        Step::Timer(24, 1, u64::MAX, 5, true),
        Step::Moment(0, Some(u64::MAX)),
        Step::Tick(18_446_744_073_709_550_000, true),
        Step::Nothing(4),
        Step::Tick(u64::MAX - 1, false),
        Step::Tick(u64::MAX, true),
        Step::Next(4, 24, 16),
        Step::Tick(u64::MAX, false),
        Step::Moment(0, None),
    ];
    assert_eq!(rt; first_wrong(&mut events, &STEPS), None);
    let mut events = Events::new(rt.alloc(), Vec::new(rt.alloc()))?;
    const LAST_STEPS: [Step; 6] = [
        Step::Make(0x8000_0000, 0, 24),
        Step::Timer(24, 2, 0, 18_446_744_073_709_550_001, true),
        Step::Moment(0, None),
        Step::Timer(24, 2, 0, 18_446_744_073_709_550_000, true),
        Step::Moment(0, Some(18_446_744_073_709_550_000)),
        Step::Moment(u64::MAX, None),
    ];
    assert_eq!(rt; first_wrong(&mut events, &LAST_STEPS), None);
    Ok(())
}

fn calls_are(calls: Result<Vec<Notify>, AllocError>, wanted: &[Notify]) -> bool {
    match calls {
        Ok(calls) => calls.as_slice() == wanted,
        Err(_) => false,
    }
}

#[test]
fn the_kept_group_comes_by_falling_level(rt: HostRuntime) -> Result<(), Fail> {
    let mut events = Events::new(rt.alloc(), Vec::new(rt.alloc()))?;
    const STEPS: [Step; 8] = [
        Step::Make(0x201, 8, 24),
        Step::Make(0x201, 16, 40),
        Step::Make(0x6000_0202, 30, 56),
        Step::Create(0x200, 8, FUNCTION, Some(EXIT_GROUP), Ok(72)),
        Step::Create(0x100, 8, FUNCTION, Some(EXIT_GROUP), Ok(88)),
        Step::Create(0, 0, 0, Some(EXIT_GROUP), Ok(104)),
        Step::Make(0x200, 30, 120),
        Step::Signal(56, true),
    ];
    assert_eq!(rt; first_wrong(&mut events, &STEPS), None);
    let wanted = [notify(40, 16), notify(24, 8), notify(72, 8)];
    assert!(rt; calls_are(events.keep_group(&EXIT_GROUP), &wanted));
    const LEFT_STEPS: [Step; 6] = [
        Step::Nothing(0),
        Step::Known(56, false),
        Step::Known(88, false),
        Step::Known(104, false),
        Step::Known(120, false),
        Step::Known(24, true),
    ];
    assert_eq!(rt; first_wrong(&mut events, &LEFT_STEPS), None);
    assert!(rt; calls_are(events.keep_group(&VIRTUAL_GROUP), &[]));
    assert!(rt; goes(&mut events, Step::Known(24, false)));
    Ok(())
}
