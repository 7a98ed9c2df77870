//! Pairs of a GUID and an interface, which a call brings as many of as it likes.
#![tactic(auto)]

ghost use Rattle.std.specs.Prelude.{◌≡◌, ◌<◌, IfOk};
ghost use Rattle.std.specs.Option.{option_map};
ghost use Rattle.address_view.specs.Windows.{see};
ghost use Rattle.protocol_services.specs.Pairs.{word_seen, any_argument, pair_with, next_pair, pairs_of};

use address_view::{View, is_seen};
use guest_call::{argument, can_read, guid_seen, number_seen};
use guest_memory::GuestMemory;
use std::alloc::{AllocError, Global};
use uh_base::Guid;

/// What comes next among the pairs of a call.
#[derive(Clone, Copy, Debug, PartialEq, Eq)]
pub enum NextPair {
    /// A GUID and an interface.
    Pair(Guid, u64),
    /// Their end.
    End,
    /// A pair that can't be read.
    Bad,
}

/// How many pairs a call may bring, with their end.
const PAIRS: usize = 33;

/// The word of eight bytes at an address, where all of it is seen.
fn word_seen(memory: &GuestMemory, view: &View, at: u64) -> Option<u64>
    ensures { result ≡ word_seen (see view.now) memory.now at }
{
    if is_seen(memory, view, at, 8) {
        Some(number_seen(memory, view, at, 8))
    } else {
        None
    }
}

/// An argument of a call, in a register or on the stack.
#[tactic(auto, unfolding(crate::specs::Pairs::any_argument))]
fn any_argument(registers: &[u64; 32], memory: &GuestMemory, view: &View, n: usize) -> Option<u64>
    requires { n < 128 }
    ensures { result ≡ any_argument registers.now (see view.now) memory.now n }
{
    if n < 8 {
        return Some(argument(n, registers));
    }
    word_seen(memory, view, registers[2].wrapping_add(8 * (n as u64 - 8)))
}

/// A pair of a GUID at an address that isn't 0 and an interface.
fn pair_with(
    alloc: Global,
    memory: &GuestMemory,
    view: &View,
    at: u64,
    interface: Option<u64>,
) -> Result<NextPair, AllocError>
    ensures { IfOk result (λ pair. pair ≡ pair_with (see view.now) memory.now at interface) }
{
    match interface {
        None => Ok(NextPair::Bad),
        Some(interface) => {
            if !can_read(memory, view, at, 16) {
                return Ok(NextPair::Bad);
            }
            Ok(NextPair::Pair(guid_seen(alloc, memory, view, at)?, interface))
        }
    }
}

/// The pair of two arguments, or the end of the pairs.
#[tactic(auto, unfolding(crate::specs::Pairs::next_pair))]
fn next_pair(
    alloc: Global,
    registers: &[u64; 32],
    memory: &GuestMemory,
    view: &View,
    n: usize,
) -> Result<NextPair, AllocError>
    requires { n < 127 }
    ensures { IfOk result (λ pair. pair ≡ next_pair registers.now (see view.now) memory.now n) }
{
    match any_argument(registers, memory, view, n) {
        None => Ok(NextPair::Bad),
        Some(0) => Ok(NextPair::End),
        Some(at) => pair_with(
            alloc,
            memory,
            view,
            at,
            any_argument(registers, memory, view, n + 1),
        ),
    }
}

/// The pairs of a call. None where one of them can't be read, or where they are more than 32.
pub(crate) fn pairs_of(
    alloc: Global,
    registers: &[u64; 32],
    memory: &GuestMemory,
    view: &View,
) -> Result<Option<Vec<(Guid, u64)>>, AllocError>
    ensures { IfOk result (λ pairs. option_map (λ list. list.items) pairs ≡ pairs_of registers.now (see view.now) memory.now) }
{
    let mut pairs = Vec::new(alloc);
    for i in 0..PAIRS {
        match next_pair(alloc, registers, memory, view, 1 + 2 * i)? {
            NextPair::End => return Ok(Some(pairs)),
            NextPair::Bad => return Ok(None),
            NextPair::Pair(guid, interface) => pairs.push((guid, interface))?,
        }
    }
    Ok(None)
}
