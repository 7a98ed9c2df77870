//! Protocols on handles.
#![tactic(auto)]

ghost use Rattle.std.specs.Prelude.{◌≡◌, ◌<◌, ◌&&◌, [], Some, Ok, IfOk, IfErr, length, position};
ghost use Rattle.std.specs.List.{find, list_any};
ghost use Rattle.std.specs.Option.{option_copied};
ghost use Rattle.handle_db.specs.Calls.{has_interface_in, first_with};
ghost use Rattle.handle_db.specs.Database.{opens_in};
ghost use Rattle.protocol_db.specs.Registrations.{events_for, events_for_all, is_numbered, first_pending, first_taken};
ghost use Rattle.protocol_db.specs.Opening.{is_askable, opening, is_held};
ghost use Rattle.protocol_db.specs.Calls.{target_in, may_close, has_between, installation, uninstallation, reinstallation, protocol_opening, installation_of_all, refusal_after, first_refusal, all_discarded, uninstallation_of_all, closing, information, registration, forgotten, discarded, Gives, ChangeGives, Refuses};
ghost use Rattle.protocol_db.specs.Whole.{IsWhole};

use crate::installed::{AllInstalled, Installed};
use crate::opening::{any_between, any_holding, asks_agent, asks_controller, is_attribute, judged};
use crate::pairs::is_before;
use crate::refusal::{ProtocolRefusal, refused};
use crate::registration::{LiveRegistration, put_pending, silence_all, with_pending};
use crate::request::OpenRequest;
use handle_db::{Handles, OpenEntry};
use std::alloc::{AllocError, Global};
use std::marker::Model;
use uh_base::{Guid, place_of};

/// The most registrations that live at a time.
const MOST_LIVE: usize = 256;

/// The most registrations that are made in all.
const MOST_MADE: u64 = (1 << 60) - 1;

/// Protocols on handles (UEFI 2.10, section 7.3): the handle database, and the registrations for notices of new
/// interfaces. Registration k, from 1, is shown as 16k + 4, and no number is used again.
#[derive(Drop)]
pub struct Protocols {
    handles: Handles,
    registrations: Vec<LiveRegistration>,
    made: u64,
}

impl Model for Protocols {
    ghost use Rattle.protocol_db.specs.Registrations.{Protocols as State};
    ghost use Rattle.protocol_db.specs.Whole.{IsWhole};

    ghost Value = { State };

    ghost view = { λ p. record { handles = p.handles; registrations = p.registrations.items; made = p.made } };

    ghost invariant = { λ p. IsWhole (record { handles = p.handles; registrations = p.registrations.items; made = p.made }) };
}

impl Protocols {
    /// No handles and no registrations. It takes no memory.
    pub fn new(alloc: Global) -> Protocols
        ensures { result ≡ record { handles = record { live = []; made = 0 }; registrations = []; made = 0 } }
    {
        let handles = Handles::new(alloc);
        handles.whole();
        Protocols {
            handles,
            registrations: Vec::new(alloc),
            made: 0,
        }
    }

    /// What is so of every state.
    pub fn whole(&self)
        ensures { IsWhole self.now }
    {
        let _ = &self.made;
    }

    /// The handle database.
    pub fn handles(&self) -> &Handles
        ensures { result.now ≡ self.now.handles }
    {
        &self.handles
    }

    /// The events that are registered for a protocol, in order.
    #[tactic(auto, unfolding(crate::specs::Registrations::events_for))]
    fn events(&self, guid: &Guid) -> Result<Vec<u64>, AllocError>
        ensures { IfOk result (λ events. events.items ≡ events_for self.now.registrations guid.now) }
    {
        let mut events = Vec::new(*self.registrations.allocator());
        for registration in &self.registrations {
            if registration.is_for(guid) {
                events.push(registration.event())?;
            }
        }
        Ok(events)
    }

    /// The events that are registered for the protocols of pairs, pair by pair.
    #[tactic(auto, unfolding(crate::specs::Registrations::events_for_all))]
    fn events_of_all(&self, pairs: &[(Guid, u64)]) -> Result<Vec<u64>, AllocError>
        ensures { IfOk result (λ events. events.items ≡ events_for_all self.now.registrations pairs.now) }
    {
        let mut events = Vec::new(*self.registrations.allocator());
        for pair in pairs {
            events.extend_from_slice(self.events(&pair.0)?.as_slice())?;
        }
        Ok(events)
    }

    /// The handle on which an install will be. None exactly where it is `Full`.
    fn target(&self, handle: Option<u64>) -> Option<u64>
        ensures { result ≡ target_in self.now.handles handle }
    {
        match handle {
            None => self.handles.next(),
            Some(handle) => Some(handle),
        }
    }

    /// Installs a protocol interface, which stands last on the handle, or on a new handle, which stands last among
    /// them (InstallProtocolInterface of UEFI 2.10, section 7.3). The handle is then pending last for each registration
    /// of the protocol for which it isn't pending already, and the events of these registrations are given in order.
    /// `Invalid` is for an unknown handle and for one that has the protocol, `Full` for a new handle where 1,024 are
    /// live or 2^60 - 1 were made. After an Err nothing has changed.
    #[tactic(auto, unfolding(crate::specs::Calls::installation))]
    pub fn install(
        &mut self,
        handle: Option<u64>,
        guid: Guid,
        interface: u64,
    ) -> Result<Installed, ProtocolRefusal>
        ensures { Gives result (installation self.old handle guid interface) self.old self.new }
    {
        let Some(target) = self.target(handle) else {
            return Err(ProtocolRefusal::Full);
        };
        let events = self.events(&guid)?;
        let pairs = [(guid, interface)];
        let changed = with_pending(&self.registrations, &pairs, target)?;
        match self.handles.install(handle, guid, interface) {
            Ok(handle) => {
                self.handles.whole();
                put_pending(&mut self.registrations, &pairs, target, changed);
                Ok(Installed { handle, events })
            }
            Err(refusal) => Err(refused(refusal)),
        }
    }

    /// Installs pairs, at least one, on a handle that is known.
    #[tactic(auto, unfolding(crate::specs::Calls::installation_of_all))]
    fn install_pairs(
        &mut self,
        target: u64,
        handle: Option<u64>,
        pairs: &[(Guid, u64)],
    ) -> Result<AllInstalled, ProtocolRefusal>
        requires some { 0 < length pairs.now }
        requires target { target_in self.old.handles handle ≡ Some target }
        ensures { Gives result (installation_of_all self.old handle pairs.now) self.old self.new }
    {
        let events = self.events_of_all(pairs)?;
        let changed = with_pending(&self.registrations, pairs, target)?;
        match self.handles.install_all(handle, pairs) {
            Ok(handle) => {
                self.handles.whole();
                put_pending(&mut self.registrations, pairs, target, changed);
                Ok(AllInstalled { handle, events })
            }
            Err(refusal) => Err(refused(refusal)),
        }
    }

    /// Installs protocol interfaces, pairs of a GUID and an interface, as `install` does, all on one handle or on one
    /// new handle, or none of them (InstallMultipleProtocolInterfaces of UEFI 2.10, section 7.3). The events come pair
    /// by pair. Without a pair nothing changes, and the handle is the one that was given, whatever it is. The refusal is
    /// that of the first pair that is refused after those before it. After an Err nothing has changed.
    pub fn install_all(
        &mut self,
        handle: Option<u64>,
        pairs: &[(Guid, u64)],
    ) -> Result<AllInstalled, ProtocolRefusal>
        ensures { Gives result (installation_of_all self.old handle pairs.now) self.old self.new }
    {
        if pairs.is_empty() {
            let events = Vec::new(*self.registrations.allocator());
            return Ok(AllInstalled { handle, events });
        }
        match self.target(handle) {
            None => Err(ProtocolRefusal::Full),
            Some(target) => self.install_pairs(target, handle, pairs),
        }
    }

    /// Whether an entry keeps a protocol of a handle from being taken away.
    #[tactic(auto, unfolding(crate::specs::Opening::is_held))]
    fn is_held(&self, handle: u64, guid: &Guid) -> bool
        ensures { result ≡ is_held self.now.handles handle guid.now }
    {
        match self.handles.opens(handle, guid) {
            None => false,
            Some(opens) => any_holding(opens),
        }
    }

    /// Whether a handle has an interface by a GUID and an entry keeps that from being taken away.
    fn is_barred(&self, handle: u64, guid: &Guid, interface: u64) -> bool
        ensures { result ≡ (has_interface_in self.now.handles handle guid.now interface && is_held self.now.handles handle guid.now) }
    {
        self.handles.has_interface(handle, guid, interface) && self.is_held(handle, guid)
    }

    /// Takes a protocol interface away, with its opens (UninstallProtocolInterface of UEFI 2.10, section 7.3). Its
    /// handle is then pending for no registration of the protocol. `Invalid` is for an unknown handle, then `NotFound`
    /// where it hasn't this interface by this GUID, then `AccessDenied` where an entry has attribute bit 8, 0x10 or
    /// 0x20. It takes no memory. After an Err nothing has changed.
    #[tactic(auto, unfolding(crate::specs::Calls::uninstallation))]
    pub fn uninstall(
        &mut self,
        handle: u64,
        guid: &Guid,
        interface: u64,
    ) -> Result<(), ProtocolRefusal>
        ensures { ChangeGives result (uninstallation self.old handle guid.now interface) self.old self.new }
    {
        if self.is_barred(handle, guid, interface) {
            return Err(ProtocolRefusal::AccessDenied);
        }
        match self.handles.remove(handle, guid, interface) {
            Ok(()) => {
                self.handles.whole();
                silence_all(&mut self.registrations, guid, handle);
                Ok(())
            }
            Err(refusal) => Err(refused(refusal)),
        }
    }

    /// Why a pair can't be taken from a handle after others. None where it can.
    #[tactic(auto, unfolding(crate::specs::Calls::refusal_after))]
    fn refusal_after(
        &self,
        handle: u64,
        before: &[(Guid, u64)],
        pair: &(Guid, u64),
    ) -> Option<ProtocolRefusal>
        ensures { result ≡ refusal_after self.now.handles handle before.now pair.now }
    {
        if !self.handles.stays_live(handle, before) {
            return Some(ProtocolRefusal::Invalid);
        }
        if !self.handles.has_interface(handle, &pair.0, pair.1) || is_before(before, &pair.0) {
            return Some(ProtocolRefusal::NotFound);
        }
        if self.is_held(handle, &pair.0) {
            return Some(ProtocolRefusal::AccessDenied);
        }
        None
    }

    /// The refusal of the first pair that can't be taken from a handle after those before it.
    fn first_refusal(&self, handle: u64, pairs: &[(Guid, u64)]) -> Option<ProtocolRefusal>
        ensures { result ≡ first_refusal self.now.handles handle [] pairs.now }
    {
        for place in 0..pairs.len() {
            let refusal = self.refusal_after(handle, &pairs[..place], &pairs[place]);
            if refusal.is_some() {
                return refusal;
            }
        }
        None
    }

    /// Takes the protocols of pairs away whatever their interfaces and whoever opened them.
    fn discard_all(&mut self, handle: u64, pairs: &[(Guid, u64)])
        ensures { self.new ≡ all_discarded self.old handle pairs.now }
    {
        for pair in pairs {
            self.discard(handle, &pair.0);
        }
    }

    /// Takes protocol interfaces, pairs of a GUID and an interface, away as `uninstall` does, all of them or none
    /// (UninstallMultipleProtocolInterfaces of UEFI 2.10, section 7.3). Without a pair nothing changes, whatever the
    /// handle is. The refusal is that of the first pair that is refused after those before it: `Invalid` where the handle
    /// is unknown or has gone with the last of its protocols, then `NotFound`, then `AccessDenied`. It takes no memory.
    /// After an Err nothing has changed.
    #[tactic(auto, unfolding(crate::specs::Calls::uninstallation_of_all))]
    pub fn uninstall_all(
        &mut self,
        handle: u64,
        pairs: &[(Guid, u64)],
    ) -> Result<(), ProtocolRefusal>
        ensures { ChangeGives result (uninstallation_of_all self.old handle pairs.now) self.old self.new }
    {
        match self.first_refusal(handle, pairs) {
            Some(refusal) => Err(refusal),
            None => {
                self.discard_all(handle, pairs);
                Ok(())
            }
        }
    }

    /// The first live handle, in order of making, that has a protocol (LocateProtocol of UEFI 2.10, section 7.3). None
    /// where none has it. It takes no memory.
    pub fn first_of(&self, guid: &Guid) -> Option<u64>
        ensures { result ≡ first_with self.now.handles guid.now }
    {
        self.handles.first_of(guid)
    }

    /// Gives a protocol interface to an agent and keeps a record of it (OpenProtocol of UEFI 2.10, section 7.3). The
    /// checks come in the order of docs/handles.md. `Invalid` is for an unknown handle, for attributes that are none,
    /// and for an agent or a controller that has to be a handle and is none, or that is a child of itself;
    /// `Unsupported` where the handle hasn't the protocol; `AlreadyStarted` and `AccessDenied` for the entries that are
    /// there. After an Err nothing has changed.
    #[tactic(auto, unfolding(crate::specs::Calls::protocol_opening))]
    pub fn open_protocol(&mut self, request: &OpenRequest) -> Result<u64, ProtocolRefusal>
        ensures { Gives result (protocol_opening self.old request.now) self.old self.new }
    {
        match self.judge(request) {
            Ok(interface) => {
                self.handles
                    .note_open(request.handle, &request.guid, request.entry())?;
                self.handles.whole();
                Ok(interface)
            }
            Err(refusal) => Err(refusal),
        }
    }

    /// Whether handle, attributes, agent and controller are such as an open asks for.
    fn is_askable(&self, request: &OpenRequest) -> bool
        ensures { result ≡ is_askable self.now.handles request.now }
    {
        let attributes = request.attributes;
        self.handles.is_handle(request.handle)
            && is_attribute(attributes)
            && (!asks_agent(attributes) || self.handles.is_handle(request.agent))
            && (!asks_controller(attributes) || self.handles.is_handle(request.controller))
            && !(attributes == 8 && request.controller == request.handle)
    }

    /// The interface that an open gives, or why it is refused.
    #[tactic(auto, unfolding(crate::specs::Opening::opening))]
    fn judge(&self, request: &OpenRequest) -> Result<u64, ProtocolRefusal>
        ensures { result ≡ opening self.now.handles request.now }
    {
        if !self.is_askable(request) {
            return Err(ProtocolRefusal::Invalid);
        }
        match self.handles.find_protocol(request.handle, &request.guid) {
            None => Err(ProtocolRefusal::Unsupported),
            Some(protocol) => judged(request, protocol),
        }
    }

    /// Takes the entries of an agent for a controller away (CloseProtocol of UEFI 2.10, section 7.3). `Invalid` is for
    /// an unknown handle or agent and for a controller that is neither 0 nor known, `NotFound` where the handle hasn't
    /// the protocol or there is no such entry. It takes no memory. After an Err nothing has changed.
    #[tactic(auto, unfolding(crate::specs::Calls::closing))]
    pub fn close_protocol(
        &mut self,
        handle: u64,
        guid: &Guid,
        agent: u64,
        controller: u64,
    ) -> Result<(), ProtocolRefusal>
        ensures { ChangeGives result (closing self.old handle guid.now agent controller) self.old self.new }
    {
        if !self.may_close(handle, agent, controller) {
            return Err(ProtocolRefusal::Invalid);
        }
        if !self.has_between(handle, guid, agent, controller) {
            return Err(ProtocolRefusal::NotFound);
        }
        self.handles.close_opens(handle, guid, agent, controller);
        self.handles.whole();
        Ok(())
    }

    /// Who opened a protocol of a handle, the oldest entry first (OpenProtocolInformation of UEFI 2.10, section 7.3).
    /// `Invalid` is for an unknown handle, `NotFound` where it hasn't the protocol.
    #[tactic(auto, unfolding(crate::specs::Calls::information))]
    pub fn information(&self, handle: u64, guid: &Guid) -> Result<Vec<OpenEntry>, ProtocolRefusal>
        ensures ok { IfOk result (λ opens. information self.now handle guid.now ≡ Ok opens.items) }
        ensures err { IfErr result (λ refusal. Refuses refusal (information self.now handle guid.now)) }
    {
        if !self.handles.is_handle(handle) {
            return Err(ProtocolRefusal::Invalid);
        }
        match self.handles.opens(handle, guid) {
            None => Err(ProtocolRefusal::NotFound),
            Some(opens) => Ok(Vec::from_slice(*self.registrations.allocator(), opens)?),
        }
    }

    /// Registers an event for new interfaces of a protocol (RegisterProtocolNotify of UEFI 2.10, section 7.3), and
    /// answers the registration. `Full` is for 256 live registrations, or 2^60 - 1 that were made. After an Err nothing
    /// has changed.
    #[tactic(auto, unfolding(crate::specs::Calls::registration))]
    pub fn register(&mut self, guid: Guid, event: u64) -> Result<u64, ProtocolRefusal>
        ensures { Gives result (registration self.old guid event) self.old self.new }
    {
        if self.registrations.len() >= MOST_LIVE || self.made >= MOST_MADE {
            return Err(ProtocolRefusal::Full);
        }
        let alloc = *self.registrations.allocator();
        self.registrations.reserve(1)?;
        let number = 16 * (self.made + 1) + 4;
        self.registrations
            .push_reserved(LiveRegistration::new(alloc, number, guid, event));
        self.made += 1;
        Ok(number)
    }

    /// Whether a registration is live.
    pub fn registered(&self, registration: u64) -> bool
        ensures { result ≡ list_any (is_numbered registration) self.now.registrations }
    {
        self.find(registration).is_some()
    }

    /// The handle that is pending longest for a registration, which stays pending. None exactly where none is.
    #[tactic(auto, unfolding(crate::specs::Registrations::first_pending))]
    pub fn first_notified(&self, registration: u64) -> Option<u64>
        ensures { result ≡ first_pending self.now registration }
    {
        match self.find(registration) {
            None => None,
            Some(registration) => registration.first(),
        }
    }

    /// The live registration that is shown so.
    fn find(&self, registration: u64) -> Option<&LiveRegistration>
        ensures { option_copied result ≡ find (is_numbered registration) self.now.registrations }
    {
        match self.place(registration) {
            None => None,
            Some(place) => Some(&self.registrations[place]),
        }
    }

    /// The place of a registration.
    fn place(&self, registration: u64) -> Option<usize>
        ensures { result ≡ position (is_numbered registration) self.now.registrations }
    {
        place_of(&self.registrations, registration)
    }

    /// The handle that is pending longest for a registration, pending no more. None exactly where none is, and then
    /// nothing changes.
    #[tactic(auto, unfolding(crate::specs::Registrations::first_pending))]
    pub fn take_notified(&mut self, registration: u64) -> Option<u64>
        ensures first { result ≡ first_pending self.old registration }
        ensures taken { self.new ≡ first_taken self.old registration }
    {
        match self.place(registration) {
            None => None,
            Some(place) => self.registrations[place].take_first(),
        }
    }

    /// An event that is closed is notified of nothing any more.
    #[tactic(auto, unfolding(crate::specs::Calls::forgotten))]
    pub fn forget(&mut self, event: u64)
        ensures { self.new ≡ forgotten self.old event }
    {
        self.registrations
            .retain(|registration| registration.event() != event);
    }

    /// Installs an interface in another's place (ReinstallProtocolInterface of UEFI 2.10, section 7.3): the old one and
    /// its opens go, and the new one stands last. The handle becomes pending, and events are given, as for `install`.
    /// `Invalid`, `NotFound` and `AccessDenied` are as for `uninstall`. After an Err nothing has changed.
    #[tactic(auto, unfolding(crate::specs::Calls::reinstallation))]
    pub fn reinstall(
        &mut self,
        handle: u64,
        guid: &Guid,
        old: u64,
        new: u64,
    ) -> Result<Installed, ProtocolRefusal>
        ensures { Gives result (reinstallation self.old handle guid.now old new) self.old self.new }
    {
        if self.is_barred(handle, guid, old) {
            return Err(ProtocolRefusal::AccessDenied);
        }
        let events = self.events(guid)?;
        let pairs = [(*guid, new)];
        let changed = with_pending(&self.registrations, &pairs, handle)?;
        match self.handles.replace(handle, guid, old, new) {
            Ok(()) => {
                self.handles.whole();
                put_pending(&mut self.registrations, &pairs, handle, changed);
                Ok(Installed { handle, events })
            }
            Err(refusal) => Err(refused(refusal)),
        }
    }

    /// Takes a protocol away whatever its interface and whoever opened it. Its handle is then pending for no
    /// registration of the protocol. Nothing changes where the handle hasn't it.
    #[tactic(auto, unfolding(crate::specs::Calls::discarded))]
    pub fn discard(&mut self, handle: u64, guid: &Guid)
        ensures { self.new ≡ discarded self.old handle guid.now }
    {
        if self.handles.find_protocol(handle, guid).is_some() {
            self.handles.discard(handle, guid);
            self.handles.whole();
            silence_all(&mut self.registrations, guid, handle);
        }
    }

    /// An equal state.
    pub fn copy(&self) -> Result<Protocols, AllocError>
        ensures { IfOk result (λ protocols. protocols ≡ self.now) }
    {
        let mut registrations = Vec::with_capacity(
            *self.registrations.allocator(),
            self.registrations.len(),
        )?;
        for registration in &self.registrations {
            registrations.push(registration.copy()?)?;
        }
        Ok(Protocols {
            handles: self.handles.copy()?,
            registrations,
            made: self.made,
        })
    }

    /// Whether handle, agent and controller are such as a close asks for.
    fn may_close(&self, handle: u64, agent: u64, controller: u64) -> bool
        ensures { result ≡ may_close self.now.handles handle agent controller }
    {
        self.handles.is_handle(handle)
            && self.handles.is_handle(agent)
            && (controller == 0 || self.handles.is_handle(controller))
    }

    /// Whether an agent has an entry for a controller on a protocol of a handle.
    fn has_between(&self, handle: u64, guid: &Guid, agent: u64, controller: u64) -> bool
        ensures { result ≡ has_between agent controller (opens_in self.now.handles handle guid.now) }
    {
        match self.handles.opens(handle, guid) {
            None => false,
            Some(opens) => any_between(opens, agent, controller),
        }
    }
}
