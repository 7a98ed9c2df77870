//! Timers.
#![tactic(auto)]

ghost use Rattle.std.specs.Prelude.{◌≡◌, ◌≤◌};
ghost use Rattle.event_queue.specs.Timers.{later, timer_for, due_of, rewound_timer};

/// The timer of an event. A moment is in units of 100 ns.
#[derive(Clone, Copy, Debug, PartialEq, Eq, Drop)]
pub enum Timer {
    /// It isn't running.
    Stopped,
    /// It is due once.
    Once {
        /// The moment at which it is due.
        due: u64,
    },
    /// It is due again and again.
    Periodic {
        /// The moment at which it is due next.
        due: u64,
        /// How long after the tick at which it was due it is due again, in units of 100 ns. 0 is at every tick.
        period: u64,
    },
}

/// The moment so many units behind another, at most 2^64 - 1.
fn later(time: u64, by: u64) -> u64
    ensures { result ≡ later time by }
{
    time.saturating_add(by)
}

impl Timer {
    /// The timer that SetTimer sets at a present moment: kind 0 cancels, 1 is periodic, and 2 is relative.
    pub fn of(kind: u32, time: u64, present: u64) -> Timer
        requires { kind ≤ 2 }
        ensures { result ≡ timer_for kind time present }
    {
        match kind {
            0 => Timer::Stopped,
            1 => Timer::Periodic {
                due: later(present, time),
                period: time,
            },
            _ => Timer::Once {
                due: later(present, time),
            },
        }
    }

    /// The moment at which it is due, None where it isn't running.
    pub fn due(self) -> Option<u64>
        ensures { result ≡ due_of self }
    {
        match self {
            Timer::Stopped => None,
            Timer::Once { due } => Some(due),
            Timer::Periodic { due, .. } => Some(due),
        }
    }

    /// What it is after a tick at which it was due.
    pub fn rewound(self, present: u64) -> Timer
        ensures { result ≡ rewound_timer present self }
    {
        match self {
            Timer::Stopped => Timer::Stopped,
            Timer::Once { .. } => Timer::Stopped,
            Timer::Periodic { period, .. } => Timer::Periodic {
                due: later(present, period),
                period,
            },
        }
    }
}
