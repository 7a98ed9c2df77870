//! One handle.
#![tactic(auto)]

ghost use Rattle.std.specs.Prelude.{◌≡◌, ◌<◌, ◌==◌, ◌&&◌, not, ◌++◌, ◌∷◌, [], true, IfOk, OnOk, OnErr, map, length, take, position, vec_len, vec_capacity};
ghost use Rattle.std.specs.List.{find, filter, fold, list_any, list_all};
ghost use Rattle.std.specs.Option.{option_copied};
ghost use Rattle.uh_base.specs.declared.guid.Guid.{Guid as AnyGuid};
ghost use Rattle.handle_db.specs.Database.{Protocol, Handle, has_guid, fresh, noted, closed, all_but, with_opens, supports};
ghost use Rattle.handle_db.specs.Calls.{has_interface, is_among, added, AddGives};

use crate::entry::OpenEntry;
use crate::protocol::ProtocolInterface;
use crate::refusal::HandleRefusal;
use std::alloc::{AllocError, Global};
use std::marker::Model;
use uh_base::{Guid, Numbered};

/// A handle with its protocols, in the order in which they were installed.
#[derive(Drop)]
pub struct LiveHandle {
    number: u64,
    protocols: Vec<ProtocolInterface>,
}

impl Model for LiveHandle {
    ghost use Rattle.handle_db.specs.Database.{Handle};

    ghost Value = { Handle };

    ghost view = { λ h. record { number = h.number; protocols = h.protocols.items } };
}

impl Numbered for LiveHandle {
    ghost number = { λ handle. handle.number };

    fn number(&self) -> u64 {
        self.number
    }
}

impl LiveHandle {
    /// A handle with one protocol. There is room for it in the list of protocols.
    pub fn new(
        number: u64,
        mut protocols: Vec<ProtocolInterface>,
        protocol: ProtocolInterface,
    ) -> LiveHandle
        requires none { protocols.items ≡ [] }
        requires room { vec_len protocols < vec_capacity protocols }
        ensures { result ≡ record { number = number; protocols = protocol ∷ [] } }
    {
        protocols.push_reserved(protocol);
        LiveHandle { number, protocols }
    }

    /// A handle on which nothing is installed yet. It takes no memory.
    pub fn empty(alloc: Global, number: u64) -> LiveHandle
        ensures { result ≡ record { number = number; protocols = [] } }
    {
        LiveHandle {
            number,
            protocols: Vec::new(alloc),
        }
    }

    /// The protocol of a GUID.
    pub fn protocol(&self, guid: &Guid) -> Option<&ProtocolInterface>
        ensures { option_copied result ≡ find (has_guid guid.now) self.now.protocols }
    {
        self.protocols.iter().find(|protocol| protocol.is_of(guid))
    }

    /// Whether the handle has a protocol of a GUID.
    pub fn has(&self, guid: &Guid) -> bool
        ensures { result ≡ list_any (has_guid guid.now) self.now.protocols }
    {
        self.protocols.iter().any(|protocol| protocol.is_of(guid))
    }

    /// Whether the handle has an interface by a GUID.
    pub fn has_interface(&self, guid: &Guid, interface: u64) -> bool
        ensures { result ≡ has_interface guid.now interface self.now }
    {
        self.protocols.iter().any(|protocol| protocol.is_of(guid)
            && protocol.interface() == interface)
    }

    /// Whether the handle has a protocol by a GUID of none of the pairs.
    pub fn has_beside(&self, pairs: &[(Guid, u64)]) -> bool
        ensures { result ≡ list_any (λ p. not (is_among pairs.now p)) self.now.protocols }
    {
        self.protocols
            .iter()
            .any(|protocol| !protocol.is_among(pairs))
    }

    /// Puts a protocol last.
    pub fn add(&mut self, alloc: Global, guid: Guid, interface: u64) -> Result<(), AllocError>
        ensures ok { OnOk result (self.new ≡ record self.old { protocols = self.old.protocols ++ fresh guid interface ∷ [] }) }
        ensures err { OnErr result (self.new ≡ self.old) }
    {
        self.protocols
            .push(ProtocolInterface::new(alloc, guid, interface))?;
        Ok(())
    }

    /// Puts pairs of a GUID and an interface last, one after another, up to the first whose GUID is there.
    fn add_each(&mut self, alloc: Global, pairs: &[(Guid, u64)]) -> Result<(), HandleRefusal>
        ensures number { self.new.number ≡ self.old.number }
        ensures before { take (length self.old.protocols) self.new.protocols ≡ self.old.protocols }
        ensures gives { AddGives result (fold added (Ok self.old.protocols) pairs.now) self.new.protocols }
    {
        for pair in pairs {
            if self.has(&pair.0) {
                return Err(HandleRefusal::Invalid);
            }
            self.add(alloc, pair.0, pair.1)?;
        }
        Ok(())
    }

    /// Puts pairs of a GUID and an interface last, one after another, or none of them.
    pub fn add_all(&mut self, alloc: Global, pairs: &[(Guid, u64)]) -> Result<(), HandleRefusal>
        ensures number { self.new.number ≡ self.old.number }
        ensures gives { AddGives result (fold added (Ok self.old.protocols) pairs.now) self.new.protocols }
        ensures none { OnErr result (self.new.protocols ≡ self.old.protocols) }
    {
        let before = self.protocols.len();
        match self.add_each(alloc, pairs) {
            Ok(()) => Ok(()),
            Err(refusal) => {
                self.protocols.truncate(before);
                Err(refusal)
            }
        }
    }

    /// Takes the protocol of a GUID away.
    pub fn remove(&mut self, guid: &Guid)
        ensures { self.new ≡ record self.old { protocols = all_but guid.now self.old.protocols } }
    {
        self.protocols.retain(|protocol| !protocol.is_of(guid));
    }

    /// Whether the handle has no protocol of another GUID.
    pub fn has_only(&self, guid: &Guid) -> bool
        ensures { result ≡ list_all (has_guid guid.now) self.now.protocols }
    {
        self.protocols.iter().all(|protocol| protocol.is_of(guid))
    }

    /// Has another interface for a GUID of its own, which stands last and which nobody has opened.
    pub fn renew(&mut self, alloc: Global, guid: &Guid, interface: u64)
        requires { list_any (has_guid guid.now) self.old.protocols ≡ true }
        ensures { self.new ≡ record self.old { protocols = all_but guid.now self.old.protocols ++ fresh guid.now interface ∷ [] } }
    {
        self.protocols.retain(|protocol| !protocol.is_of(guid));
        let protocol = ProtocolInterface::new(alloc, *guid, interface);
        self.protocols.push_reserved(protocol);
    }

    /// The place of the protocol of a GUID.
    fn place(&self, guid: &Guid) -> Option<usize>
        ensures { result ≡ position (has_guid guid.now) self.now.protocols }
    {
        self.protocols
            .iter()
            .position(|protocol| protocol.is_of(guid))
    }

    /// Counts an open of the protocol of a GUID, where there is one.
    pub fn note(&mut self, guid: &Guid, entry: OpenEntry) -> Result<(), AllocError>
        ensures ok { OnOk result (self.new ≡ record self.old { protocols = with_opens guid.now (noted entry) self.old.protocols }) }
        ensures err { OnErr result (self.new ≡ self.old) }
    {
        match self.place(guid) {
            None => Ok(()),
            Some(place) => {
                self.protocols[place].note(entry)?;
                Ok(())
            }
        }
    }

    /// Takes entries of the protocol of a GUID away, where there is one.
    pub fn close(&mut self, guid: &Guid, agent: u64, controller: u64)
        ensures { self.new ≡ record self.old { protocols = with_opens guid.now (closed agent controller) self.old.protocols } }
    {
        if let Some(place) = self.place(guid) {
            self.protocols[place].close(agent, controller);
        }
    }

    /// Whether the handle has the protocol, or any where none is named.
    pub fn supports(&self, guid: Option<&Guid>) -> bool
        ensures { result ≡ supports (option_copied guid.entry) self.now }
    {
        match guid {
            None => true,
            Some(guid) => self.has(guid),
        }
    }

    /// The GUIDs of the protocols in order.
    pub fn guids(&self) -> Result<Vec<Guid>, AllocError>
        ensures { IfOk result (λ guids. guids.items ≡ map (λ (p : Protocol). p.guid) self.now.protocols) }
    {
        let mut guids = Vec::new(*self.protocols.allocator());
        for protocol in &self.protocols {
            guids.push(protocol.guid())?;
        }
        Ok(guids)
    }

    /// An equal handle.
    pub fn copy(&self) -> Result<LiveHandle, AllocError>
        ensures { IfOk result (λ handle. handle ≡ self.now) }
    {
        let mut protocols = Vec::with_capacity(*self.protocols.allocator(), self.protocols.len())?;
        for protocol in &self.protocols {
            protocols.push(protocol.copy()?)?;
        }
        Ok(LiveHandle {
            number: self.number,
            protocols,
        })
    }
}
