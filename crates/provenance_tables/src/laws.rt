//! Laws.
#![tactic(auto)]

ghost use Rattle.provenance_tables.specs.Passed.{NoneFailsStands};

use prov_layout::{every_is_each, laid_is_ordered};
use provenance_check::first_is_first;

/// A law: where none of the rules from `Phase` to `Notify` fails, the driver stays and is judged before a map is made; its
/// regions, spans, entries and functions are what their rules ask; and what its spans lay is in the order of its places.
pub fn none_fails_stands()
    ensures { NoneFailsStands }
{
    every_is_each();
    first_is_first();
    laid_is_ordered();
}
