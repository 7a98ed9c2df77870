//! What OpenProtocol is asked for.
#![tactic(auto)]

ghost use Rattle.std.specs.Prelude.{◌≡◌};
ghost use Rattle.protocol_db.specs.Opening.{entry_of};

use handle_db::OpenEntry;
use uh_base::Guid;

/// What OpenProtocol is asked for (UEFI 2.10, section 7.3).
#[derive(Clone, Copy, Debug, PartialEq, Eq)]
pub struct OpenRequest {
    /// The handle whose protocol is opened, as it is shown.
    pub handle: u64,
    /// The protocol.
    pub guid: Guid,
    /// The handle of the agent that opens, or 0.
    pub agent: u64,
    /// The handle of the controller for which it opens, or 0.
    pub controller: u64,
    /// How it opens: 1, 2, 4, 8, 0x10, 0x20 or 0x30.
    pub attributes: u32,
}

impl OpenRequest {
    /// The entry that one such open leaves.
    pub fn entry(&self) -> OpenEntry
        ensures { result ≡ entry_of self.now }
    {
        OpenEntry {
            agent: self.agent,
            controller: self.controller,
            attributes: self.attributes,
            count: 1,
        }
    }
}
