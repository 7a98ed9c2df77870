//! What installs give.
#![tactic(auto)]

use std::marker::Model;

/// What an install gives: its handle, and the events that are to be signalled.
#[derive(Drop)]
pub struct Installed {
    /// The handle, as it is shown.
    pub handle: u64,
    /// The events that are registered for the protocol, in the order in which they were registered.
    pub events: Vec<u64>,
}

impl Model for Installed {
    ghost use Rattle.protocol_db.specs.Calls.{Installation};

    ghost Value = { Installation };

    ghost view = { λ i. record { handle = i.handle; events = i.events.items } };
}

/// What an install of pairs gives: its handle, and the events that are to be signalled.
#[derive(Drop)]
pub struct AllInstalled {
    /// The handle, as it is shown. None without a pair where none was given.
    pub handle: Option<u64>,
    /// The events that are registered for the protocols, pair by pair, in the order in which they were registered.
    pub events: Vec<u64>,
}

impl Model for AllInstalled {
    ghost use Rattle.protocol_db.specs.Calls.{InstallationOfAll};

    ghost Value = { InstallationOfAll };

    ghost view = { λ i. record { handle = i.handle; events = i.events.items } };
}
