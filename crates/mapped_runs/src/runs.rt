//! The laws of two runs of a driver that was checked.
#![tactic(auto)]

ghost use Rattle.mapped_runs.specs.Runs.{RunIsOf, RunsAreOf};

use crate::places::ranges_are_seen;
use crate::regions::{regions_are_shown, regions_move};
use address_view::ranges_pass;
use memory_map::map_is_map;
use prov_layout::every_is_each;
use provenance_tables::none_fails_stands;

/// Two runs of a driver that was checked, one before an accepted map and one from it on, are such as the laws of two runs
/// ask for; and so is one run before the map, taken twice.
pub fn runs_are_of()
    ensures two { RunsAreOf }
    ensures one { RunIsOf }
{
    map_is_map();
    every_is_each();
    none_fails_stands();
    ranges_are_seen();
    regions_move();
    regions_are_shown();
    ranges_pass();
}
