//! The laws of places: where an accepted map puts what is in RAM.
#![tactic(auto)]

ghost use Rattle.mapped_runs.specs.Places.{OffsetsMove, PointersMove, RangesAreSeen};

use map_faults::{entries_are_placed, ranges_are_apart};
use memory_map::map_is_map;

/// From an accepted map on code sees what lies in one runtime descriptor, or in the operating system's window, at its new
/// place, byte for byte; and ConvertPointer gives the new place of each address in a runtime descriptor.
pub fn ranges_are_seen()
    ensures seen { RangesAreSeen }
    ensures offsets { OffsetsMove }
    ensures pointers { PointersMove }
{
    map_is_map();
    entries_are_placed();
    ranges_are_apart();
}
