//! What the definitions come to. Each law is the contract of a function that does nothing.
#![tactic(auto)]

ghost use Rattle.event_queue.specs.Laws.{QueuedOnce, NextIsGreatest, NextIsAbove, NumbersAreNew, SignalsAreCalls, FirstIsLeast, TicksAtMoments, TicksOnce, IdleTicks, NextMomentIsDue};

/// An event stands in the queue at most once.
pub fn queued_once()
    ensures { QueuedOnce }
{}

/// What is notified next is the earliest of the greatest level above the present one.
pub fn next_is_greatest()
    ensures { NextIsGreatest }
{}

/// What is notified next is above the level that was asked for, and from 5 to 30.
pub fn next_is_above()
    ensures { NextIsAbove }
{}

/// The number of a new event is no event's, and none before had it.
pub fn numbers_are_new()
    ensures { NumbersAreNew }
{}

/// A signal of a number that is no event's changes nothing.
pub fn signals_are_calls()
    ensures { SignalsAreCalls }
{}

/// The first tick moment from a moment on is one, and no tick moment from there on is less.
pub fn first_is_least()
    ensures { FirstIsLeast }
{}

/// A tick comes exactly where a tick moment lies above the last tick and at most at the present.
pub fn ticks_at_moments()
    ensures { TicksAtMoments }
{}

/// A second tick at one moment is none.
pub fn ticks_once()
    ensures { TicksOnce }
{}

/// With no timer running a tick changes the last tick alone.
pub fn idle_ticks()
    ensures { IdleTicks }
{}

/// The moment that comes next is the least tick moment at which a timer is due.
pub fn next_moment_is_due()
    ensures { NextMomentIsDue }
{}
