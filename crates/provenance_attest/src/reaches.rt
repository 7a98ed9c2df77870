//! Which nodes of a certificate are reached.
#![tactic(auto)]

ghost use Rattle.std.specs.Prelude.{◌≡◌, IfOk};
ghost use Rattle.provenance_attest.specs.Grounds.{AreReaches, first_nodes, last_of};

use prov_cert::{Cert, CertEntry};
use provenance_check::reached;
use std::alloc::{AllocError, Global};
use std::marker::Model;

/// A mark for each node in each of these: whether it is reached from an entry, from a notified function, and from the
/// last of these.
#[derive(Drop)]
pub(crate) struct Reached {
    pub(crate) called: Vec<bool>,
    pub(crate) notified: Vec<bool>,
    pub(crate) last: Vec<bool>,
}

impl Model for Reached {
    ghost use Rattle.provenance_attest.specs.Grounds.{Reaches};

    ghost Value = { Reaches };

    ghost view = { λ r. record { called = r.called.items; notified = r.notified.items; last = r.last.items } };
}

/// The nodes at which calls begin.
fn first_nodes(alloc: Global, entries: &[CertEntry]) -> Result<Vec<u32>, AllocError>
    ensures { IfOk result (λ numbers. numbers.items ≡ first_nodes entries.now) }
{
    let numbers: Vec<u32> = entries.iter().map(|e| e.node).collect(alloc)?;
    Ok(numbers)
}

/// The last of some numbers, where there are any.
fn last_of(numbers: &[u32]) -> &[u32]
    ensures { result.now ≡ last_of numbers.now }
{
    &numbers[numbers.len().saturating_sub(1)..]
}

/// Which nodes of a certificate are reached.
pub(crate) fn reaches_of(alloc: Global, cert: &Cert) -> Result<Reached, AllocError>
    ensures { IfOk result (λ r. AreReaches cert.now r) }
{
    let nodes = cert.nodes.as_slice();
    let firsts = first_nodes(alloc, cert.entries.as_slice())?;
    let notify = cert.notify.as_slice();
    Ok(Reached {
        called: reached(alloc, nodes, firsts.as_slice())?,
        notified: reached(alloc, nodes, notify)?,
        last: reached(alloc, nodes, last_of(notify))?,
    })
}
