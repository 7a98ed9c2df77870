//! The laws of one step of two runs.
#![tactic(auto)]

ghost use Rattle.prov_runs.specs.NodeLaws.{EdgesServe, ForksAtNode, GoesAtNode, JumpsAtNode, LoadsAtNode, OthersStand, SetsAtNode, StoresAtNode};
ghost use Rattle.prov_runs.specs.OneNode.{OneNode};
ghost use Rattle.prov_runs.specs.StepLaws.{StepForStep};

use crate::fetches::fetches_alike;
use crate::loads::{loads_hold, reads_hold};
use crate::stores::{regions_stay, stack_stores_keep, stores_keep};
use prov_types::{asks_hold, fits_is_sound};
use rv_step::{asks_are_fit, asks_fit, bits_fit};

/// Where two runs stand at an instruction that sets a register, both set it to values of one kind and go on behind it.
pub fn register_node()
    ensures { SetsAtNode }
{
    fetches_alike();
    asks_hold();
    asks_fit();
    asks_are_fit();
}

/// Where two runs stand at a jump or a branch, both go to one place, with the kinds that are known there.
pub fn jump_node()
    ensures goes { GoesAtNode }
    ensures jumps { JumpsAtNode }
    ensures forks { ForksAtNode }
{
    fetches_alike();
    asks_hold();
    asks_fit();
    asks_are_fit();
}

/// Where two runs stand at a load or a store that is allowed, neither traps; both load values of one kind, or keep what
/// they shared, and go on behind it.
pub fn memory_node()
    ensures loads { LoadsAtNode }
    ensures stores { StoresAtNode }
{
    fetches_alike();
    asks_hold();
    asks_fit();
    asks_are_fit();
    bits_fit();
    loads_hold();
    reads_hold();
    stores_keep();
    stack_stores_keep();
    regions_stay();
}

/// A step of an instruction that stores to the stack alone, or not at all, changes no byte of another region.
pub fn others_stand()
    ensures { OthersStand }
{
    fetches_alike();
    asks_hold();
    asks_fit();
    asks_are_fit();
    regions_stay();
}

/// What is known where two runs stand serves what is asked there, where its kinds and parts fit.
pub fn edges_serve()
    ensures { EdgesServe }
{
    fits_is_sound();
}

/// Where two runs stand at one node, and what a certificate's rules say of it holds, neither traps: both step to one node
/// that NEXT names, or out of the image by one way, and what is known there holds.
pub fn one_node()
    ensures { OneNode }
{
    register_node();
    jump_node();
    memory_node();
    edges_serve();
}

/// Two runs that stand at one node of a call, all of whose nodes keep the rules, go on alike: behind any number of steps
/// both stand at one node, or both have left the image behind equally many steps. Neither traps.
pub fn step_for_step()
    ensures { StepForStep }
{
    one_node();
}
