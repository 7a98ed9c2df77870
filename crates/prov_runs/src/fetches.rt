//! The laws of instructions that are fetched.
#![tactic(auto)]

ghost use Rattle.prov_runs.specs.FetchLaws.{DecodedFits, FetchesAlike};

use rv_decode::{length_is_of_the_low_bits, lui_field_is_its_immediate};

/// An instruction that halves are decoded to names registers among the 32, and its immediate has 64 bits.
pub fn decoded_fits()
    ensures { DecodedFits }
{}

/// Two runs that stand at one place of the image's code fetch one instruction, but for the immediate of a LUI under a
/// HIGH20 site, which names one offset of the image in both.
pub fn fetches_alike()
    ensures { FetchesAlike }
{
    decoded_fits();
    length_is_of_the_low_bits();
    lui_field_is_its_immediate();
}
