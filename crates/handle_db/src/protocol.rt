//! One protocol on a handle.
#![tactic(auto)]

ghost use Rattle.std.specs.Prelude.{◌≡◌, ◌==◌, [], IfOk, OnOk, OnErr, position};
ghost use Rattle.handle_db.specs.Database.{Protocol, has_guid, fresh, is_like, noted, closed};
ghost use Rattle.handle_db.specs.Calls.{is_among};

use crate::entry::OpenEntry;
use std::alloc::{AllocError, Global};
use std::marker::Model;
use uh_base::Guid;

/// A protocol on a handle: its GUID, its interface, and who opened it.
#[derive(Drop)]
pub struct ProtocolInterface {
    guid: Guid,
    interface: u64,
    opens: Vec<OpenEntry>,
}

impl Model for ProtocolInterface {
    ghost use Rattle.handle_db.specs.Database.{Protocol};

    ghost Value = { Protocol };

    ghost view = { λ p. record { guid = p.guid; interface = p.interface; opens = p.opens.items } };
}

impl ProtocolInterface {
    /// A protocol that nobody has opened. It takes no memory.
    pub fn new(alloc: Global, guid: Guid, interface: u64) -> ProtocolInterface
        ensures { result ≡ fresh guid interface }
    {
        ProtocolInterface {
            guid,
            interface,
            opens: Vec::new(alloc),
        }
    }

    /// Whether the protocol has a GUID.
    pub fn is_of(&self, guid: &Guid) -> bool
        ensures { result ≡ has_guid guid.now self.now }
    {
        self.guid.is_same(guid)
    }

    /// Whether a pair has its GUID.
    pub fn is_among(&self, pairs: &[(Guid, u64)]) -> bool
        ensures { result ≡ is_among pairs.now self.now }
    {
        pairs.iter().any(|pair| self.is_of(&pair.0))
    }

    /// The GUID.
    pub fn guid(&self) -> Guid
        ensures { result ≡ self.now.guid }
    {
        self.guid
    }

    /// The interface.
    pub fn interface(&self) -> u64
        ensures { result ≡ self.now.interface }
    {
        self.interface
    }

    /// Who opened it, the oldest entry first.
    pub fn opens(&self) -> &[OpenEntry]
        ensures { result.now ≡ self.now.opens }
    {
        self.opens.as_slice()
    }

    /// The place of the first entry that counts opens like one.
    fn place_like(&self, entry: &OpenEntry) -> Option<usize>
        ensures { result ≡ position (is_like entry.now) self.now.opens }
    {
        self.opens.iter().position(|other| entry.is_like(other))
    }

    /// Counts one open more in the entry that is like it, or else puts a new entry last.
    pub fn note(&mut self, entry: OpenEntry) -> Result<(), AllocError>
        ensures ok { OnOk result (self.new ≡ record self.old { opens = noted entry self.old.opens }) }
        ensures err { OnErr result (self.new ≡ self.old) }
    {
        match self.place_like(&entry) {
            Some(place) => {
                self.opens[place] = self.opens[place].once_more();
                Ok(())
            }
            None => {
                self.opens.push(entry)?;
                Ok(())
            }
        }
    }

    /// Takes the entries of an agent for a controller away.
    pub fn close(&mut self, agent: u64, controller: u64)
        ensures { self.new ≡ record self.old { opens = closed agent controller self.old.opens } }
    {
        self.opens
            .retain(|entry| !entry.is_between(agent, controller));
    }

    /// An equal protocol.
    pub fn copy(&self) -> Result<ProtocolInterface, AllocError>
        ensures { IfOk result (λ protocol. protocol ≡ self.now) }
    {
        Ok(ProtocolInterface {
            guid: self.guid,
            interface: self.interface,
            opens: Vec::from_slice(*self.opens.allocator(), self.opens.as_slice())?,
        })
    }
}
