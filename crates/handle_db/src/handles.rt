//! The handle database.
#![tactic(auto)]

ghost use Rattle.std.specs.Prelude.{◌≡◌, ◌<◌, ◌==◌, ◌++◌, ◌∷◌, [], true, IfOk, OnOk, OnErr, IfSome, IfNone, map, length, Some, None, position, slice_set, slice_index_or};
ghost use Rattle.std.specs.List.{find, list_any};
ghost use Rattle.std.specs.Option.{option_copied, option_map};
ghost use Rattle.uh_base.specs.declared.guid.Guid.{Guid as AnyGuid};
ghost use Rattle.handle_db.specs.Whole.{IsDatabase};
ghost use Rattle.handle_db.specs.Database.{Handle, Database, has_number, handle_in, protocol_in, is_handle, interface_in, opens_in, reopened, noted, closed, is_kept, left_with, all_but, with_protocols, with_open, fresh, has_guid, supports};
ghost use Rattle.handle_db.specs.Calls.{installed_new, installed_on, installation, removal, replacement, has_interface_in, stays_live, discarded, next_in, handles_with, first_with, guids_in, installation_of_all, InstallGives, AllGives, ChangeGives};

use crate::entry::OpenEntry;
use crate::handle::LiveHandle;
use crate::protocol::ProtocolInterface;
use crate::refusal::HandleRefusal;
use std::alloc::{AllocError, Global};
use std::marker::Model;
use uh_base::{Guid, Numbered, place_of};

/// The most handles that live at a time.
const MOST_LIVE: usize = 1024;

/// The most handles that are made in all.
const MOST_MADE: u64 = (1 << 60) - 1;

/// The handle database (UEFI 2.10, section 7.3): the live handles in order of making. Handle k, from 1, is shown as
/// 16k, and no number is used again.
#[derive(Drop)]
pub struct Handles {
    live: Vec<LiveHandle>,
    made: u64,
}

impl Model for Handles {
    ghost use Rattle.handle_db.specs.Database.{Database};
    ghost use Rattle.handle_db.specs.Whole.{IsDatabase};

    ghost Value = { Database };

    ghost view = { λ h. record { live = h.live.items; made = h.made } };

    ghost invariant = { λ h. IsDatabase (record { live = h.live.items; made = h.made }) };
}

impl Handles {
    /// A database without handles. It takes no memory.
    pub fn new(alloc: Global) -> Handles
        ensures { result ≡ record { live = []; made = 0 } }
    {
        Handles {
            live: Vec::new(alloc),
            made: 0,
        }
    }

    /// What is so of every database.
    pub fn whole(&self)
        ensures { IsDatabase self.now }
    {
        let _ = &self.live;
    }

    /// The live handle that is shown so.
    #[tactic(auto, unfolding(crate::specs::Database::handle_in))]
    fn find(&self, handle: u64) -> Option<&LiveHandle>
        ensures { option_copied result ≡ handle_in self.now handle }
    {
        match self.position(handle) {
            None => None,
            Some(place) => Some(&self.live[place]),
        }
    }

    /// The place of the live handle that is shown so.
    fn position(&self, handle: u64) -> Option<usize>
        ensures { result ≡ position (has_number handle) self.now.live }
    {
        place_of(&self.live, handle)
    }

    /// The place of the live handle that is shown so, and what stands there.
    fn place(&self, handle: u64) -> Option<usize>
        ensures place { result ≡ position (has_number handle) self.now.live }
        ensures none { IfNone result (handle_in self.now handle ≡ None) }
        ensures some { IfSome result (λ place. (d : Handle) → handle_in self.now handle ≡ Some (slice_index_or self.now.live place d)) }
    {
        self.position(handle)
    }

    /// Whether a handle is live.
    pub fn is_handle(&self, handle: u64) -> bool
        ensures { result ≡ is_handle self.now handle }
    {
        self.find(handle).is_some()
    }

    /// The protocol of a handle by a GUID. None for an unknown handle, and where it hasn't the GUID.
    #[tactic(auto, unfolding(crate::specs::Database::protocol_on))]
    pub fn find_protocol(&self, handle: u64, guid: &Guid) -> Option<&ProtocolInterface>
        ensures { option_copied result ≡ protocol_in self.now handle guid.now }
    {
        match self.find(handle) {
            None => None,
            Some(live) => live.protocol(guid),
        }
    }

    /// The interface of a handle by a GUID. None for an unknown handle, and where it hasn't the GUID.
    #[tactic(auto, unfolding(crate::specs::Database::protocol_on))]
    pub fn interface(&self, handle: u64, guid: &Guid) -> Option<u64>
        ensures { result ≡ interface_in self.now handle guid.now }
    {
        match self.find(handle) {
            None => None,
            Some(live) => match live.protocol(guid) {
                None => None,
                Some(protocol) => Some(protocol.interface()),
            },
        }
    }

    /// Who opened a protocol of a handle, the oldest entry first. None for an unknown handle, and where it hasn't the
    /// GUID.
    #[tactic(auto, unfolding(crate::specs::Database::protocol_on))]
    pub fn opens(&self, handle: u64, guid: &Guid) -> Option<&[OpenEntry]>
        ensures { option_copied result ≡ opens_in self.now handle guid.now }
    {
        match self.find(handle) {
            None => None,
            Some(live) => match live.protocol(guid) {
                None => None,
                Some(protocol) => Some(protocol.opens()),
            },
        }
    }

    /// A new handle with one protocol.
    fn add(&mut self, guid: Guid, interface: u64) -> Result<u64, HandleRefusal>
        ensures { InstallGives result (installed_new self.old guid interface) self.old self.new }
    {
        if self.live.len() >= MOST_LIVE || self.made >= MOST_MADE {
            return Err(HandleRefusal::Full);
        }
        let alloc = *self.live.allocator();
        let protocols = Vec::with_capacity(alloc, 1)?;
        self.live.reserve(1)?;
        let number = 16 * (self.made + 1);
        let protocol = ProtocolInterface::new(alloc, guid, interface);
        self.live
            .push_reserved(LiveHandle::new(number, protocols, protocol));
        self.made += 1;
        Ok(number)
    }

    /// One protocol more on a handle.
    fn add_to(&mut self, handle: u64, guid: Guid, interface: u64) -> Result<u64, HandleRefusal>
        ensures { InstallGives result (installed_on self.old handle guid interface (handle_in self.old handle)) self.old self.new }
    {
        let alloc = *self.live.allocator();
        let Some(place) = self.place(handle) else {
            return Err(HandleRefusal::Invalid);
        };
        if self.live[place].has(&guid) {
            return Err(HandleRefusal::Invalid);
        }
        self.live[place].add(alloc, guid, interface)?;
        Ok(handle)
    }

    /// Installs a protocol interface, which stands last on the handle, or on a new handle, which stands last among
    /// them (InstallProtocolInterface of UEFI 2.10, section 7.3), and answers the handle. `Invalid` is for an unknown
    /// handle and for one that has the GUID, `Full` for a new handle where 1,024 are live or 2^60 - 1 were made.
    #[tactic(auto, unfolding(crate::specs::Calls::installation))]
    pub fn install(
        &mut self,
        handle: Option<u64>,
        guid: Guid,
        interface: u64,
    ) -> Result<u64, HandleRefusal>
        ensures { InstallGives result (installation self.old handle guid interface) self.old self.new }
    {
        match handle {
            None => self.add(guid, interface),
            Some(handle) => self.add_to(handle, guid, interface),
        }
    }

    /// A new handle with protocol interfaces, one for each pair.
    fn add_all(&mut self, pairs: &[(Guid, u64)]) -> Result<Option<u64>, HandleRefusal>
        requires { 0 < length pairs.now }
        ensures { AllGives result (installation_of_all self.old None pairs.now) self.old self.new }
    {
        if self.live.len() >= MOST_LIVE || self.made >= MOST_MADE {
            return Err(HandleRefusal::Full);
        }
        let alloc = *self.live.allocator();
        self.live.reserve(1)?;
        let shown = 16 * (self.made + 1);
        let mut live = LiveHandle::empty(alloc, shown);
        match live.add_all(alloc, pairs) {
            Ok(()) => {
                self.live.push_reserved(live);
                self.made += 1;
                Ok(Some(shown))
            }
            Err(refusal) => Err(refusal),
        }
    }

    /// More protocol interfaces on a handle, one for each pair.
    fn add_all_to(
        &mut self,
        handle: u64,
        pairs: &[(Guid, u64)],
    ) -> Result<Option<u64>, HandleRefusal>
        requires { 0 < length pairs.now }
        ensures { AllGives result (installation_of_all self.old (Some handle) pairs.now) self.old self.new }
    {
        let alloc = *self.live.allocator();
        let Some(place) = self.place(handle) else {
            return Err(HandleRefusal::Invalid);
        };
        match self.live[place].add_all(alloc, pairs) {
            Ok(()) => Ok(Some(handle)),
            Err(refusal) => Err(refusal),
        }
    }

    /// Installs protocol interfaces, pairs of a GUID and an interface, one after another as `install` does, all on one
    /// handle or on one new handle, or none of them (InstallMultipleProtocolInterfaces of UEFI 2.10, section 7.3), and
    /// answers the handle. Without a pair that is the handle that was given, whatever it is. The refusal is that of the
    /// first pair that is refused.
    #[tactic(auto, unfolding(crate::specs::Calls::installation_of_all))]
    pub fn install_all(
        &mut self,
        handle: Option<u64>,
        pairs: &[(Guid, u64)],
    ) -> Result<Option<u64>, HandleRefusal>
        ensures { AllGives result (installation_of_all self.old handle pairs.now) self.old self.new }
    {
        if pairs.is_empty() {
            return Ok(handle);
        }
        match handle {
            None => self.add_all(pairs),
            Some(handle) => self.add_all_to(handle, pairs),
        }
    }

    /// The handle at a place loses its protocol of a GUID, with the opens of it.
    fn take(&mut self, place: usize, handle: u64, guid: &Guid)
        requires { position (has_number handle) self.old.live ≡ Some place }
        ensures { (d : Handle) → self.new ≡ left_with self.old handle (all_but guid.now (slice_index_or self.old.live place d).protocols) }
    {
        if self.live[place].has_only(guid) {
            self.live.retain(|live| live.number() != handle);
        } else {
            self.live[place].remove(guid);
        }
    }

    /// Takes the protocol of a GUID away whatever its interface, with its opens, where it is there. It takes no memory.
    #[tactic(auto, unfolding(crate::specs::Calls::discarded))]
    pub fn discard(&mut self, handle: u64, guid: &Guid)
        ensures { self.new ≡ discarded self.old handle guid.now }
    {
        if let Some(place) = self.place(handle) {
            if self.live[place].has(guid) {
                self.take(place, handle, guid);
            }
        }
    }

    /// Whether a live handle has this interface by this GUID. Just then `remove` takes it away.
    #[tactic(auto, unfolding(crate::specs::Calls::has_interface_in))]
    pub fn has_interface(&self, handle: u64, guid: &Guid, interface: u64) -> bool
        ensures { result ≡ has_interface_in self.now handle guid.now interface }
    {
        match self.find(handle) {
            None => false,
            Some(live) => live.has_interface(guid, interface),
        }
    }

    /// Whether a live handle has a protocol by a GUID of none of the pairs. Just then it stays live once the protocols
    /// of the pairs are taken from it.
    #[tactic(auto, unfolding(crate::specs::Calls::stays_live))]
    pub fn stays_live(&self, handle: u64, pairs: &[(Guid, u64)]) -> bool
        ensures { result ≡ stays_live self.now handle pairs.now }
    {
        match self.find(handle) {
            None => false,
            Some(live) => live.has_beside(pairs),
        }
    }

    /// The handle that a next one will be. None exactly where `install` answers `Full` for a new handle.
    pub fn next(&self) -> Option<u64>
        ensures { result ≡ next_in self.now }
    {
        if self.live.len() >= MOST_LIVE || self.made >= MOST_MADE {
            None
        } else {
            Some(16 * (self.made + 1))
        }
    }

    /// The handle at a place has another interface for a GUID of its own, which stands last and which nobody has opened.
    fn renew(&mut self, place: usize, handle: u64, guid: &Guid, interface: u64)
        requires place { position (has_number handle) self.old.live ≡ Some place }
        requires has { (d : Handle) → list_any (has_guid guid.now) (slice_index_or self.old.live place d).protocols ≡ true }
        ensures { (d : Handle) → self.new ≡ with_protocols self.old handle (all_but guid.now (slice_index_or self.old.live place d).protocols ++ fresh guid.now interface ∷ []) }
    {
        let alloc = *self.live.allocator();
        self.live[place].renew(alloc, guid, interface);
    }

    /// The handle at a place counts an open of a protocol of its.
    fn note_at(
        &mut self,
        place: usize,
        handle: u64,
        guid: &Guid,
        entry: OpenEntry,
    ) -> Result<(), AllocError>
        requires place { position (has_number handle) self.old.live ≡ Some place }
        requires kept { is_kept entry ≡ true }
        ensures ok { OnOk result (self.new ≡ reopened self.old handle guid.now (noted entry)) }
        ensures err { OnErr result (self.new ≡ self.old) }
    {
        self.live[place].note(guid, entry)?;
        Ok(())
    }

    /// The handle at a place loses entries of a protocol of its.
    fn close_at(&mut self, place: usize, handle: u64, guid: &Guid, agent: u64, controller: u64)
        requires { position (has_number handle) self.old.live ≡ Some place }
        ensures { self.new ≡ reopened self.old handle guid.now (closed agent controller) }
    {
        self.live[place].close(guid, agent, controller);
    }

    /// Takes a protocol interface away, with its opens (UninstallProtocolInterface of UEFI 2.10, section 7.3, which
    /// asks besides who opened it). A handle without protocols is gone. `Invalid` is for an unknown handle, then
    /// `NotFound` where the handle hasn't this interface by this GUID. It takes no memory.
    #[tactic(auto, unfolding(crate::specs::Calls::removal))]
    pub fn remove(&mut self, handle: u64, guid: &Guid, interface: u64) -> Result<(), HandleRefusal>
        ensures { ChangeGives result (removal self.old handle guid.now interface) self.old self.new }
    {
        let Some(place) = self.place(handle) else {
            return Err(HandleRefusal::Invalid);
        };
        if !self.live[place].has_interface(guid, interface) {
            return Err(HandleRefusal::NotFound);
        }
        self.take(place, handle, guid);
        Ok(())
    }

    /// Takes a protocol interface away, with its opens, and puts another last in its place, opened by nobody
    /// (ReinstallProtocolInterface of UEFI 2.10, section 7.3, which asks besides who opened it). `Invalid` and
    /// `NotFound` are as for `remove`. It takes no memory.
    #[tactic(auto, unfolding(crate::specs::Calls::replacement))]
    pub fn replace(
        &mut self,
        handle: u64,
        guid: &Guid,
        old: u64,
        new: u64,
    ) -> Result<(), HandleRefusal>
        ensures { ChangeGives result (replacement self.old handle guid.now old new) self.old self.new }
    {
        let Some(place) = self.place(handle) else {
            return Err(HandleRefusal::Invalid);
        };
        if !self.live[place].has_interface(guid, old) {
            return Err(HandleRefusal::NotFound);
        }
        self.renew(place, handle, guid, new);
        Ok(())
    }

    /// Counts an open of a protocol in the entry that is like it, or else puts a new entry last. An open of a test
    /// protocol (attribute 4) or of no agent leaves no entry, and nor does one where there is no such protocol.
    /// On an Err nothing has changed.
    pub fn note_open(
        &mut self,
        handle: u64,
        guid: &Guid,
        entry: OpenEntry,
    ) -> Result<(), AllocError>
        ensures ok { OnOk result (self.new ≡ with_open self.old handle guid.now entry) }
        ensures err { OnErr result (self.new ≡ self.old) }
    {
        if !entry.is_kept() {
            return Ok(());
        }
        match self.place(handle) {
            None => Ok(()),
            Some(place) => self.note_at(place, handle, guid, entry),
        }
    }

    /// Takes the entries of an agent for a controller away, where there is such a protocol.
    pub fn close_opens(&mut self, handle: u64, guid: &Guid, agent: u64, controller: u64)
        ensures { self.new ≡ reopened self.old handle guid.now (closed agent controller) }
    {
        if let Some(place) = self.place(handle) {
            self.close_at(place, handle, guid, agent, controller);
        }
    }

    /// The live handles that have a protocol, or all, in order of making.
    #[tactic(auto, unfolding(crate::specs::Calls::handles_with))]
    pub fn handles_of(&self, guid: Option<&Guid>) -> Result<Vec<u64>, AllocError>
        ensures { IfOk result (λ handles. handles.items ≡ handles_with self.now (option_copied guid.entry)) }
    {
        let mut handles = Vec::new(*self.live.allocator());
        for live in &self.live {
            if live.supports(guid) {
                handles.push(live.number())?;
            }
        }
        Ok(handles)
    }

    /// The first live handle that has a protocol, as it is kept.
    fn first_live(&self, guid: &Guid) -> Option<&LiveHandle>
        ensures { option_copied result ≡ find (supports (Some guid.now)) self.now.live }
    {
        self.live.iter().find(|live| live.has(guid))
    }

    /// The first live handle, in order of making, that has a protocol (LocateProtocol of UEFI 2.10, section 7.3). None
    /// where none has it. It takes no memory.
    pub fn first_of(&self, guid: &Guid) -> Option<u64>
        ensures { result ≡ first_with self.now guid.now }
    {
        match self.first_live(guid) {
            None => None,
            Some(live) => Some(live.number()),
        }
    }

    /// The GUIDs of a handle's protocols in order, none for an unknown handle.
    #[tactic(auto, unfolding(crate::specs::Calls::guids_in))]
    pub fn guids_of(&self, handle: u64) -> Result<Vec<Guid>, AllocError>
        ensures { IfOk result (λ guids. guids.items ≡ guids_in self.now handle) }
    {
        let alloc = *self.live.allocator();
        match self.find(handle) {
            None => Ok(Vec::new(alloc)),
            Some(live) => live.guids(),
        }
    }

    /// An equal database.
    pub fn copy(&self) -> Result<Handles, AllocError>
        ensures { IfOk result (λ handles. handles ≡ self.now) }
    {
        let mut copies = Vec::with_capacity(*self.live.allocator(), self.live.len())?;
        for live in &self.live {
            copies.push(live.copy()?)?;
        }
        Ok(Handles {
            live: copies,
            made: self.made,
        })
    }
}
