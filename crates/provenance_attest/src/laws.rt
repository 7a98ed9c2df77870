//! Laws.
#![tactic(auto)]

ghost use Rattle.provenance_attest.specs.Laws.{NoneFailsAllPass, TouchedHaveBytes};

use memory_map::map_is_map;
use prov_layout::laid_is_ordered;
use provenance_tables::none_fails_stands;

/// A law: where no rule fails, the driver stays and is judged before a map is made; its regions are in RAM and hold what
/// the certificate says; no rule fails at any of its nodes; and there are frames for its pages.
pub fn none_fails_all_pass()
    ensures { NoneFailsAllPass }
{
    none_fails_stands();
    laid_is_ordered();
    map_is_map();
}

/// A law: with the pages of regions touched, a page is touched exactly where it was or has a byte of a region.
pub fn touched_have_bytes()
    ensures { TouchedHaveBytes }
{}
