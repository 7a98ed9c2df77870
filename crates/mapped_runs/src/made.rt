//! The laws of a transition over a driver that was checked.
#![tactic(auto)]

ghost use Rattle.mapped_runs.specs.Made.{FunctionsAreCode, MadeRights, MadeShows};

use crate::regions::regions_are_shown;
use map_transition::touched_stay;

/// Notified functions leave all of a state but the bytes of its memory and which of its pages are touched.
pub fn functions_are_code()
    ensures { FunctionsAreCode }
{
    touched_stay();
}

/// Behind a transition the new addresses of a driver's regions show what the fix-ups left at the old ones, with the rights
/// that these had.
pub fn transition_shows()
    ensures bytes { MadeShows }
    ensures rights { MadeRights }
{
    regions_are_shown();
}
