//! What the definitions come to.
ghost use Rattle.firmware_core.specs.Jobs.{JobsAreTurns};
ghost use Rattle.firmware_core.specs.Runs.{FreeTurnsAreFew, JobsEnd};

use event_queue::{next_is_above, ticks_once};

/// A law: a job is its next turn, and the rest of it.
pub fn jobs_are_turns()
    ensures { JobsAreTurns }
{
    ticks_once();
}

/// A law: of turns in a row of which none counts a step or ends the job, at most one is a tick, and at most 26 are starts of
/// notifications.
pub fn free_turns_are_few()
    ensures { FreeTurnsAreFew }
{
    next_is_above();
    ticks_once();
}

/// A law: a job ends.
pub fn jobs_end()
    ensures { JobsEnd }
{
    ticks_once();
}
