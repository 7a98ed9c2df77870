//! The laws of how calls begin.
#![tactic(auto)]

ghost use Rattle.prov_laws.specs.Entries.{BuffersKeep, CallsBegin};

use prov_runs::stores_keep;
use prov_types::fits_is_sound;

/// Two runs that begin one call with one list of arguments stand at the node of its entry.
pub fn calls_begin()
    ensures { CallsBegin }
{
    fits_is_sound();
}

/// Buffers that are written to the OS arguments keep what the memories of two runs share.
pub fn buffers_keep()
    ensures { BuffersKeep }
{
    stores_keep();
}
