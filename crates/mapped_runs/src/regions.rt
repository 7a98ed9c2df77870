//! The laws of the regions of a driver that was checked.
#![tactic(auto)]

ghost use Rattle.mapped_runs.specs.Checked.{RegionsAreApart, RegionsAreDisjoint, RegionsMove};
ghost use Rattle.mapped_runs.specs.Shown.{PointersConvert, RightsStay, ViewShows};

use crate::places::ranges_are_seen;
use memory_map::map_is_map;
use prov_layout::every_is_each;
use provenance_tables::none_fails_stands;

/// Each region of a driver that was checked moves as one: it lies in the operating system's window, or in one runtime
/// descriptor. All lie above 0 and end below 2^64, and no two have an address in common, before the map and from it on.
pub fn regions_move()
    ensures as_one { RegionsMove }
    ensures apart { RegionsAreApart }
    ensures disjoint { RegionsAreDisjoint }
{
    map_is_map();
    every_is_each();
    none_fails_stands();
    ranges_are_seen();
}

/// From an accepted map on code sees each region's bytes at its new place, with the rights that they had at the old one.
pub fn regions_are_shown()
    ensures bytes { ViewShows }
    ensures rights { RightsStay }
{
    map_is_map();
    every_is_each();
    none_fails_stands();
    ranges_are_seen();
}

/// ConvertPointer gives each address of a region that lies in a runtime descriptor its new one, and leaves 0.
pub fn pointers_convert()
    ensures { PointersConvert }
{
    map_is_map();
    every_is_each();
    none_fails_stands();
    ranges_are_seen();
}
