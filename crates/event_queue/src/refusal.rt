//! Why calls are refused, and what a check finds.

/// Why an event isn't made, signalled, closed or checked, or its timer not set.
#[derive(Clone, Copy, Debug, PartialEq, Eq, Drop)]
pub enum EventRefusal {
    /// The event is unknown, or an argument has no meaning for it.
    Invalid,
    /// 256 events are live, or 2^60 - 1 were made.
    Full,
}

/// What a check of an event finds (UEFI 2.10, section 7.1, CheckEvent).
#[derive(Clone, Copy, Debug, PartialEq, Eq, Drop)]
pub enum Check {
    /// The event was signalled, and isn't any more.
    Signalled,
    /// It isn't signalled, and its notification, which may signal it, stands in the queue.
    Queued,
    /// It isn't signalled, and has no notification.
    Quiet,
}
