//! The laws of stores.
#![tactic(auto)]

ghost use Rattle.prov_runs.specs.StoreLaws.{CodeStays, OthersStay, PartsStay, RegionsStay, StackKeeps, StackKeepsCode, StackLeaves, StoresKeep};

use prov_types::fits_is_sound;
use rv_step::{other_bytes_stay, stored_is_loaded, stores_its_bytes};

/// A store outside the stack that keeps what is there keeps what the memories of two runs share. It changes no code, no
/// fixed cell and no closed byte, and leaves the parts of the stack.
pub fn stores_keep()
    ensures shared { StoresKeep }
    ensures others { OthersStay }
    ensures code { CodeStays }
    ensures parts { PartsStay }
{
    fits_is_sound();
    other_bytes_stay();
    stores_its_bytes();
    stored_is_loaded();
}

/// A store to the stack keeps what the memories of two runs share, and the code. It leaves a part of what is stored, and
/// the parts that it doesn't meet.
pub fn stack_stores_keep()
    ensures shared { StackKeeps }
    ensures code { StackKeepsCode }
    ensures parts { StackLeaves }
{
    other_bytes_stay();
    stored_is_loaded();
}

/// A store changes no byte of another region.
pub fn regions_stay()
    ensures { RegionsStay }
{
    other_bytes_stay();
}
