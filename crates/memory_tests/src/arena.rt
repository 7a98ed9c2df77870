//! An arena at its limits.

use frame_arena::{Arena, ArenaRefusal};
use std::test::Fail;

#[test]
fn one_frame_is_taken_twice(rt: HostRuntime) -> Result<(), Fail> {
    let mut arena = Arena::new(rt.alloc(), 1)?;
    let id = arena.take().expect(&rt, "a first frame");
    assert!(rt; arena.is_out(id));
    arena.write(id, 0, &[0xee; 8]);
    assert!(rt; arena.is_out(id));
    arena.store(id, 4095, 0xee);
    assert!(rt; arena.is_out(id));
    assert_eq!(rt; arena.load(id, 7), 0xee);
    assert_eq!(rt; arena.take(), Err(ArenaRefusal::Full));
    assert!(rt; arena.is_out(id));
    arena.give(id);
    assert_eq!(rt; arena.made(), 1);
    let again = arena.take().expect(&rt, "the frame again");
    assert!(rt; arena.is_out(again));
    assert_eq!(rt; arena.made(), 1);
    assert!(rt; arena.bytes(again).iter().all(|byte| *byte == 0));
    Ok(())
}

#[test]
fn two_frames_are_apart(rt: HostRuntime) -> Result<(), Fail> {
    let mut arena = Arena::new(rt.alloc(), 4)?;
    let one = arena.take().expect(&rt, "a first frame");
    let two = arena.take().expect(&rt, "a second frame");
    assert!(rt; arena.is_out(one));
    assert!(rt; arena.is_out(two));
    arena.write(one, 4094, &[1, 2]);
    assert!(rt; arena.is_out(two));
    arena.write(two, 0, &[3, 4, 5]);
    assert!(rt; arena.is_out(one));
    assert!(rt; arena.is_out(two));
    assert_eq!(rt; (arena.load(one, 4095), arena.load(two, 4095)), (2, 0));
    assert_eq!(rt; (arena.load(one, 1), arena.load(two, 1)), (0, 4));
    arena.copy(one, two);
    assert!(rt; arena.is_out(one));
    assert!(rt; arena.is_out(two));
    assert_eq!(rt; (arena.load(two, 4095), arena.load(two, 1)), (2, 0));
    arena.give(one);
    assert!(rt; arena.is_out(two));
    arena.give(two);
    assert_eq!(rt; (arena.out(), arena.made()), (0, 2));
    Ok(())
}
