//! Records of opens.
#![tactic(auto)]

ghost use Rattle.std.specs.Prelude.{◌≡◌};
ghost use Rattle.handle_db.specs.Database.{is_like, is_between, once_more, is_kept};

/// The record of opens of one protocol interface that are alike
/// (EFI_OPEN_PROTOCOL_INFORMATION_ENTRY of UEFI 2.10, section 7.3).
#[derive(Clone, Copy, Debug, PartialEq, Eq, Drop)]
pub struct OpenEntry {
    /// The handle of the agent that opened, as it is shown.
    pub agent: u64,
    /// The handle of the controller for which it opened, or 0.
    pub controller: u64,
    /// The attributes with which it opened.
    pub attributes: u32,
    /// How many such opens there are. It stands still at 2^32 - 1.
    pub count: u32,
}

impl OpenEntry {
    /// Whether another entry counts opens that are alike.
    pub fn is_like(&self, other: &OpenEntry) -> bool
        ensures { result ≡ is_like self.now other.now }
    {
        other.agent == self.agent
            && other.controller == self.controller
            && other.attributes == self.attributes
    }

    /// Whether it is an agent's for a controller.
    pub fn is_between(&self, agent: u64, controller: u64) -> bool
        ensures { result ≡ is_between agent controller self.now }
    {
        self.agent == agent && self.controller == controller
    }

    /// The entry with one open more.
    pub fn once_more(&self) -> OpenEntry
        ensures { result ≡ once_more self.now }
    {
        OpenEntry {
            agent: self.agent,
            controller: self.controller,
            attributes: self.attributes,
            count: if self.count == u32::MAX {
                self.count
            } else {
                self.count + 1
            },
        }
    }

    /// Whether such an open leaves an entry: one of a test protocol (attribute 4) and one of no agent leave none.
    pub fn is_kept(&self) -> bool
        ensures { result ≡ is_kept self.now }
    {
        self.attributes != 4 && self.agent != 0
    }
}
