//! Why a call on protocols is refused.
#![tactic(auto)]

ghost use Rattle.std.specs.Prelude.{◌≡◌};
ghost use Rattle.protocol_db.specs.Calls.{refused};

use handle_db::HandleRefusal;
use std::alloc::AllocError;

/// Why a call on protocols is refused.
#[derive(Clone, Copy, Debug, PartialEq, Eq, Drop)]
pub enum ProtocolRefusal {
    /// A handle is unknown, a handle has the protocol already, or the attributes are none.
    Invalid,
    /// The handle has no such protocol, interface or entry.
    NotFound,
    /// The handle hasn't the protocol that is to be opened.
    Unsupported,
    /// An open that is there keeps the interface from being opened so, or from being taken away.
    AccessDenied,
    /// The same agent has opened it by driver for the same controller.
    AlreadyStarted,
    /// There are 1,024 handles or 256 registrations, or 2^60 - 1 were made.
    Full,
    /// The host has no memory for its lists.
    Memory,
}

impl From<AllocError> for ProtocolRefusal {
    ghost use Rattle.std.specs.Prelude.{◌≡◌};
    ghost use Rattle.protocol_db.specs.declared.refusal.ProtocolRefusal.TheVariants.{Memory};

    ghost from_gives = { λ _ refusal. refusal ≡ Memory };

    fn from(_: AllocError) -> ProtocolRefusal {
        ProtocolRefusal::Memory
    }
}

/// A refusal of the handle database.
pub fn refused(refusal: HandleRefusal) -> ProtocolRefusal
    ensures { result ≡ refused refusal }
{
    match refusal {
        HandleRefusal::Invalid => ProtocolRefusal::Invalid,
        HandleRefusal::NotFound => ProtocolRefusal::NotFound,
        HandleRefusal::Full => ProtocolRefusal::Full,
        HandleRefusal::Memory => ProtocolRefusal::Memory,
    }
}
