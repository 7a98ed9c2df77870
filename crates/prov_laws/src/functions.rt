//! The laws of notified functions.
#![tactic(auto)]

ghost use Rattle.prov_laws.specs.Behind.{ChangeMoves};
ghost use Rattle.prov_laws.specs.Convert.{BetweenHolds, ConversionKeeps};
ghost use Rattle.prov_laws.specs.Functions.{FunctionsReturn, LastConverts};
ghost use Rattle.prov_laws.specs.Notify.{AllFunctionsReturn};

use prov_runs::{edges_serve, jump_node, one_node, others_stand};
use provenance_check::none_fails_judges;
use rv_decode::length_is_of_the_low_bits;
use rv_step::{other_bytes_stay, stored_is_loaded};

/// A conversion gives a cell its new value, and changes no other cell and no other byte that is laid.
pub fn conversion_keeps()
    ensures keeps { ConversionKeeps }
    ensures holds { BetweenHolds }
{
    other_bytes_stay();
    stored_is_loaded();
}

/// Where no rule of a node fails, a notified function returns to the slot that it was called from, with just the cells
/// converted that its exit names; its turns are at most as many as nodes are left and cells that aren't converted. The
/// last one leaves every cell converted.
pub fn functions_return()
    ensures returns { FunctionsReturn }
    ensures last { LastConverts }
{
    one_node();
    jump_node();
    others_stand();
    edges_serve();
    length_is_of_the_low_bits();
    none_fails_judges();
    other_bytes_stay();
    conversion_keeps();
}

/// All notified functions of a change of addresses return, one behind another, and leave every cell converted; the turns
/// of all are bounded.
pub fn all_functions_return()
    ensures { AllFunctionsReturn }
{
    functions_return();
}

/// Behind a change of addresses memory shares with the one before what two runs share, where every cell is converted and
/// the fix-ups are made.
pub fn change_moves()
    ensures { ChangeMoves }
{}
