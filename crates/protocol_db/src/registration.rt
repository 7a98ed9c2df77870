//! One registration.
#![tactic(auto)]

ghost use Rattle.std.specs.Prelude.{◌≡◌, ◌==◌, [], IfOk, map, drop, slice_get};
ghost use Rattle.std.specs.List.{filter, list_any};
ghost use Rattle.protocol_db.specs.Registrations.{Registration, is_for, is_for_any, lacks, with_last, silenced, all_notified, all_silenced};

use std::alloc::{AllocError, Global};
use std::collections::VecDeque;
use std::marker::Model;
use uh_base::{Guid, Numbered};

/// An event that is notified of new interfaces of a protocol.
#[derive(Drop)]
pub struct LiveRegistration {
    number: u64,
    guid: Guid,
    event: u64,
    pending: Vec<u64>,
}

impl Model for LiveRegistration {
    ghost use Rattle.protocol_db.specs.Registrations.{Registration};

    ghost Value = { Registration };

    ghost view = { λ r. record { number = r.number; guid = r.guid; event = r.event; pending = r.pending.items } };
}

impl Numbered for LiveRegistration {
    ghost number = { λ registration. registration.number };

    fn number(&self) -> u64 {
        self.number
    }
}

impl LiveRegistration {
    /// A registration with no handle pending. It takes no memory.
    pub fn new(alloc: Global, number: u64, guid: Guid, event: u64) -> LiveRegistration
        ensures { result ≡ record { number = number; guid = guid; event = event; pending = [] } }
    {
        LiveRegistration {
            number,
            guid,
            event,
            pending: Vec::new(alloc),
        }
    }

    /// The event.
    pub fn event(&self) -> u64
        ensures { result ≡ self.now.event }
    {
        self.event
    }

    /// Whether it is for a protocol.
    pub fn is_for(&self, guid: &Guid) -> bool
        ensures { result ≡ is_for guid.now self.now }
    {
        self.guid.is_same(guid)
    }

    /// Whether it is for the protocol of one of the pairs.
    pub fn is_for_any(&self, pairs: &[(Guid, u64)]) -> bool
        ensures { result ≡ is_for_any pairs.now self.now }
    {
        pairs.iter().any(|pair| self.is_for(&pair.0))
    }

    /// Whether a handle is pending.
    fn is_pending(&self, handle: u64) -> bool
        ensures { result ≡ list_any (λ h. h == handle) self.now.pending }
    {
        self.pending.iter().any(|pending| *pending == handle)
    }

    /// An equal registration.
    pub fn copy(&self) -> Result<LiveRegistration, AllocError>
        ensures { IfOk result (λ registration. registration ≡ self.now) }
    {
        Ok(LiveRegistration {
            number: self.number,
            guid: self.guid,
            event: self.event,
            pending: Vec::from_slice(*self.pending.allocator(), self.pending.as_slice())?,
        })
    }

    /// Whether it is for the protocol of one of the pairs and a handle isn't pending yet.
    pub fn lacks(&self, pairs: &[(Guid, u64)], handle: u64) -> bool
        ensures { result ≡ lacks pairs.now handle self.now }
    {
        self.is_for_any(pairs) && !self.is_pending(handle)
    }

    /// The registration with a handle pending last.
    pub fn with_last(&self, handle: u64) -> Result<LiveRegistration, AllocError>
        ensures { IfOk result (λ registration. registration ≡ with_last handle self.now) }
    {
        let mut registration = self.copy()?;
        registration.pending.push(handle)?;
        Ok(registration)
    }

    /// A handle whose interface of a protocol is gone is pending no more.
    pub fn silence(&mut self, guid: &Guid, handle: u64)
        ensures { self.new ≡ silenced guid.now handle self.old }
    {
        if self.is_for(guid) {
            self.pending.retain(|pending| *pending != handle);
        }
    }

    /// The handle that is pending longest.
    pub fn first(&self) -> Option<u64>
        ensures { result ≡ slice_get self.now.pending 0 }
    {
        self.pending.first().copied()
    }

    /// The handle that is pending longest, pending no more.
    pub fn take_first(&mut self) -> Option<u64>
        ensures first { result ≡ slice_get self.old.pending 0 }
        ensures rest { self.new ≡ record self.old { pending = drop 1 self.old.pending } }
    {
        if self.pending.is_empty() {
            None
        } else {
            Some(self.pending.remove(0))
        }
    }
}

/// The registrations for the protocols of pairs for which a handle isn't pending yet, each with it pending last. No other
/// is copied.
pub fn with_pending(
    registrations: &Vec<LiveRegistration>,
    pairs: &[(Guid, u64)],
    handle: u64,
) -> Result<VecDeque<LiveRegistration>, AllocError>
    ensures { IfOk result (λ changed. changed.items ≡ map (with_last handle) (filter (lacks pairs.now handle) registrations.now.items)) }
{
    let mut changed = VecDeque::new(*registrations.allocator());
    for registration in registrations {
        if registration.lacks(pairs, handle) {
            changed.push_back(registration.with_last(handle)?)?;
        }
    }
    Ok(changed)
}

/// Puts such registrations in the place of those that stood there.
#[tactic(auto, unfolding(crate::specs::Registrations::all_notified))]
pub fn put_pending(
    registrations: &mut Vec<LiveRegistration>,
    pairs: &[(Guid, u64)],
    handle: u64,
    mut changed: VecDeque<LiveRegistration>,
)
    requires { changed.items ≡ map (with_last handle) (filter (lacks pairs.now handle) registrations.old.items) }
    ensures { registrations.new.items ≡ all_notified registrations.old.items (is_for_any pairs.now) handle }
{
    for registration in registrations.iter_mut() {
        if registration.lacks(pairs, handle) {
            if let Some(next) = changed.pop_front() {
                *registration = next;
            }
        }
    }
}

/// A handle whose interface of a protocol is gone is pending no more, for any registration of it.
#[tactic(auto, unfolding(crate::specs::Registrations::all_silenced))]
pub fn silence_all(registrations: &mut Vec<LiveRegistration>, guid: &Guid, handle: u64)
    ensures { registrations.new.items ≡ all_silenced registrations.old.items guid.now handle }
{
    for registration in registrations.iter_mut() {
        registration.silence(guid, handle);
    }
}
