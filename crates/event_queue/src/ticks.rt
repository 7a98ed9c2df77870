//! Tick moments.
#![tactic(auto)]

ghost use Rattle.std.specs.Prelude.{◌≡◌, ◌≤◌, ◌+◌, true, length, take_while, nat_le};
ghost use Rattle.std.specs.List.{find};
ghost use Rattle.std.specs.List.Sorted.{IsNonDecreasing};
ghost use Rattle.event_queue.specs.Timers.{first_moment, rounded, reached, lesser};

use std::marker::Model;

/// Tick moments are the positive multiples of this many units of 100 ns, a millisecond, and the listed ones.
const TICK: u64 = 10_000;

/// The tick moments of a run, and the last tick.
#[derive(Drop)]
pub struct TickMoments {
    listed: Vec<u64>,
    last: u64,
    // The least tick moment above the last tick.
    ahead: Option<u64>,
    // So many of the listed moments, from the first on, lie at most at the last tick, and aren't looked at again.
    passed: usize,
    // Whether the listed moments rise, so that the first one from a moment on is the least.
    is_rising: bool,
}

impl Model for TickMoments {
    ghost use Rattle.std.specs.Prelude.{ℕ, ◌≡◌, ◌≤◌, ◌<◌, ◌+◌, true, length, drop};
    ghost use Rattle.std.specs.List.Sorted.{IsNonDecreasing};
    ghost use Rattle.event_queue.specs.Timers.{Ticks, reached, first_moment};

    ghost Value = { Ticks };

    ghost view = { λ t. record { listed = t.listed.items; last = t.last } };

    ghost invariant = { λ t. (t.ahead ≡ reached (first_moment t.listed.items (t.last + 1))) × (t.passed ≤ length t.listed.items) × ((low : ℕ) → t.last < low → first_moment (drop t.passed t.listed.items) low ≡ first_moment t.listed.items low) × (t.is_rising ≡ true → IsNonDecreasing t.listed.items) };
}

impl TickMoments {
    ghost use Rattle.std.specs.Prelude.{◌≡◌, ◌≤◌, ◌<◌, ◌+◌, nat_le, max};
    ghost use Rattle.event_queue.specs.Timers.{reached, first_moment};

    /// The multiples and the listed moments, with the last tick at the moment 0.
    pub fn new(listed: Vec<u64>) -> TickMoments
        ensures { result ≡ record { listed = listed.items; last = 0 } }
    {
        let is_rising = is_rising(listed.as_slice());
        let ahead = moment_above(listed.as_slice(), is_rising, 0);
        TickMoments {
            listed,
            last: 0,
            ahead,
            passed: 0,
            is_rising,
        }
    }

    /// Whether one lies above the last tick and at most at a moment.
    pub fn has(&self, present: u64) -> bool
        ensures { result ≡ nat_le (first_moment self.now.listed (self.now.last + 1)) present }
    {
        match self.ahead {
            Some(ahead) => ahead <= present,
            None => false,
        }
    }

    /// The least one above the last tick. None above 2^64 - 1.
    pub fn ahead(&self) -> Option<u64>
        ensures { result ≡ reached (first_moment self.now.listed (self.now.last + 1)) }
    {
        self.ahead
    }

    /// The least one above the last tick that is at least a moment. None above 2^64 - 1.
    pub fn from(&self, low: u64) -> Option<u64>
        ensures { result ≡ reached (first_moment self.now.listed (max (self.now.last + 1) low)) }
    {
        let left = &self.listed.as_slice()[self.passed..];
        match self.last.checked_add(1) {
            Some(above) => first_moment(left, self.is_rising, above.max(low)),
            None => None,
        }
    }

    /// A tick at a moment.
    pub fn pass(&mut self, present: u64)
        requires { self.old.last ≤ present }
        ensures { self.new ≡ record self.old { last = present } }
    {
        self.passed += passed(&self.listed.as_slice()[self.passed..], present);
        self.last = present;
        let left = &self.listed.as_slice()[self.passed..];
        self.ahead = moment_above(left, self.is_rising, present);
    }
}

/// Whether none of the listed moments lies below the one before it.
fn is_rising(listed: &[u64]) -> bool
    ensures { result ≡ true → IsNonDecreasing listed.now }
{
    listed.is_sorted()
}

/// How many of the listed moments, from the first on, lie at most at a moment.
fn passed(listed: &[u64], present: u64) -> usize
    ensures { result ≡ length (take_while (λ moment. nat_le moment present) listed.now) }
{
    listed
        .iter()
        .take_while(|moment| **moment <= present)
        .count()
}

/// The least multiple of a tick from a moment on, None above 2^64 - 1.
fn rounded(low: u64) -> Option<u64>
    ensures { result ≡ reached (rounded low) }
{
    match low % TICK {
        0 => Some(low),
        over => low.checked_add(TICK - over),
    }
}

/// The lesser of two moments that may not come.
pub fn lesser(a: Option<u64>, b: Option<u64>) -> Option<u64>
    ensures { result ≡ lesser a b }
{
    match (a, b) {
        (Some(a), Some(b)) => Some(a.min(b)),
        (Some(a), None) => Some(a),
        (None, b) => b,
    }
}

/// The first of the listed moments from a moment on.
fn first_listed(listed: &[u64], low: u64) -> Option<u64>
    ensures { result ≡ find (λ moment. nat_le low moment) listed.now }
{
    listed.iter().copied().find(|moment| *moment >= low)
}

/// The least tick moment from a positive moment on, by a list of further ones that rise. None above 2^64 - 1.
fn rising_moment(listed: &[u64], low: u64) -> Option<u64>
    requires { IsNonDecreasing listed.now }
    ensures { result ≡ reached (first_moment listed.now low) }
{
    lesser(first_listed(listed, low), rounded(low))
}

/// The least tick moment from a positive moment on, by a list of further ones. None above 2^64 - 1.
fn least_moment(listed: &[u64], low: u64) -> Option<u64>
    ensures { result ≡ reached (first_moment listed.now low) }
{
    let mut least = None;
    for moment in listed {
        if *moment >= low {
            least = lesser(least, Some(*moment));
        }
    }
    lesser(least, rounded(low))
}

/// The least tick moment from a positive moment on, by a list of further ones, of which it may be known that they
/// rise. None above 2^64 - 1.
fn first_moment(listed: &[u64], is_rising: bool, low: u64) -> Option<u64>
    requires { is_rising ≡ true → IsNonDecreasing listed.now }
    ensures { result ≡ reached (first_moment listed.now low) }
{
    if is_rising {
        rising_moment(listed, low)
    } else {
        least_moment(listed, low)
    }
}

/// The least tick moment above a moment, by the same list. None above 2^64 - 1.
fn moment_above(listed: &[u64], is_rising: bool, last: u64) -> Option<u64>
    requires { is_rising ≡ true → IsNonDecreasing listed.now }
    ensures { result ≡ reached (first_moment listed.now (last + 1)) }
{
    match last.checked_add(1) {
        Some(low) => first_moment(listed, is_rising, low),
        None => None,
    }
}
