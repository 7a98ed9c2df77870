//! A memory of 4,096 pages in one piece, with all rights.
#![tactic(auto)]

ghost use Rattle.std.specs.Prelude.{◌≡◌, ◌<◌, ◌≤◌, ◌+◌, ◌-◌, ◌%◌, ◌^◌, ◌*◌, ℕ, Bool, false, true, IsTrue, IfOk, IfNone, vec_len, length, Option, Some, None, slice_index};
ghost use Rattle.uh_base.specs.Bytes.{is_width, number_at, first_refused, with_number, with_byte, loaded};
ghost use Rattle.host_engine.specs.FlatMemories.{AreInside, flat_bytes, flat_rights, is_inside};

use rv_step::{Bus, BusEnd};
use std::alloc::{AllocError, Global};
use uh_base::{half_in, number_in, write_number};

/// The first address.
pub const BASE: u64 = 0x4000_0000;

/// How many bytes there are.
pub const SIZE: u64 = 0x100_0000;

/// The memory.
#[derive(Drop)]
pub struct FlatMemory {
    bytes: Vec<u8>,
    ghost whole: { vec_len bytes ≡ 0x1000000 },
}

/// The address behind an address.
fn next(at: u64) -> u64
    ensures { result ≡ (at + 1) % 2 ^ 64 }
{
    at.wrapping_add(1)
}

fn is_inside(at: u64) -> bool
    ensures { result ≡ is_inside at }
{
    at >= BASE && at < BASE + SIZE
}

/// The first of so many addresses that is outside.
#[tactic(auto, unfolding(uh_base::specs::Bytes::first_refused))]
fn first_outside(at: u64, width: u8) -> Option<u64>
    ensures { result ≡ first_refused is_inside at width }
{
    if width == 0 {
        None
    } else if is_inside(at) {
        first_outside(next(at), width - 1)
    } else {
        Some(at)
    }
}

/// The first of 1, 2, 4 or 8 addresses that is outside, if any.
#[inline(always)]
#[tactic(auto, using(crate::proofs::PartLemmas::refused_none, crate::proofs::PartLemmas::none_inside))]
fn refused(at: u64, width: u8) -> Option<u64>
    requires { IsTrue (is_width width) }
    ensures first { result ≡ first_refused is_inside at width }
    ensures none { IfNone result (AreInside at width) }
{
    if at >= BASE && at <= BASE + SIZE - u64::from(width) {
        None
    } else {
        first_outside(at, width)
    }
}

impl FlatMemory {
    /// The memory with a file at its base, and zeros behind it.
    pub fn with_file(alloc: Global, file: &[u8]) -> Result<FlatMemory, AllocError>
        requires { length file.now ≤ 0x400000 }
        ensures { IfOk result (λ memory. flat_bytes memory.bytes.items ≡ flat_bytes file.now) }
    {
        let mut bytes = Vec::from_slice(alloc, file)?;
        bytes.resize(SIZE as usize, 0)?;
        Ok(FlatMemory { bytes })
    }

    /// The number of 1, 2, 4 or 8 bytes that are inside.
    #[inline(always)]
    fn number(&self, at: u64, width: u8) -> u64
        requires inside { AreInside at width }
        requires width { IsTrue (is_width width) }
        ensures { result ≡ number_at (flat_bytes self.now.bytes.items) at width }
    {
        let bytes = self.bytes.as_slice();
        let start = (at - BASE) as usize;
        number_in(&bytes[start..start + width as usize])
    }

    /// The number of two bytes that are inside.
    #[inline(always)]
    fn half(&self, at: u64) -> u16
        requires { AreInside at 2 }
        ensures { result ≡ number_at (flat_bytes self.now.bytes.items) at 2 }
    {
        let bytes = self.bytes.as_slice();
        let start = (at - BASE) as usize;
        half_in(&bytes[start..start + 2])
    }

    /// Writes so many low bytes of a number, all of which are inside.
    #[inline(always)]
    fn set_bytes(&mut self, at: u64, width: u8, value: u64)
        requires inside { AreInside at width }
        requires few { width ≤ 8 }
        ensures { flat_bytes self.new.bytes.items ≡ with_number (flat_bytes self.old.bytes.items) at width value }
    {
        let start = (at - BASE) as usize;
        write_number(&mut self.bytes[start..start + width as usize], value);
    }

    /// Writes a number of 1, 2, 4 or 8 bytes that are inside. Each width is a store of its own.
    #[inline(always)]
    fn set(&mut self, at: u64, width: u8, value: u64)
        requires inside { AreInside at width }
        requires width { IsTrue (is_width width) }
        ensures { flat_bytes self.new.bytes.items ≡ with_number (flat_bytes self.old.bytes.items) at width value }
    {
        match width {
            1 => self.set_bytes(at, 1, value),
            2 => self.set_bytes(at, 2, value),
            4 => self.set_bytes(at, 4, value),
            _ => self.set_bytes(at, 8, value),
        }
    }
}

impl Bus for FlatMemory {
    ghost bytes = { λ memory. flat_bytes memory.bytes.items };

    ghost allows = { λ memory. flat_rights };

    ghost lacks_frames = { λ memory at width. false };

    ghost takes_no_memory = { λ memory at width. true };

    type Content = ();

    ghost content = { λ memory. tt };

    ghost after = { λ memory at width value. tt };

    ghost kept = { λ old new. Unit {0} };

    ghost same = { λ old new. Unit {0} };

    ghost same_self = { λ memory. tt };

    #[tactic(auto, unfolding(uh_base::specs::Bytes::loaded, crate::specs::FlatMemories::flat_rights))]
    fn load(&self, at: u64, width: u8) -> Result<u64, u64> {
        match refused(at, width) {
            None => Ok(self.number(at, width)),
            Some(refused) => Err(refused),
        }
    }

    #[tactic(auto, unfolding(crate::specs::FlatMemories::flat_rights))]
    fn store(&mut self, at: u64, width: u8, value: u64) -> Result<(), BusEnd> {
        match refused(at, width) {
            None => {
                self.set(at, width, value);
                Ok(())
            }
            Some(refused) => Err(BusEnd::Outside(refused)),
        }
    }

    #[tactic(auto, unfolding(uh_base::specs::Bytes::loaded, crate::specs::FlatMemories::flat_rights))]
    fn fetch(&self, at: u64) -> Result<u16, u64> {
        match refused(at, 2) {
            None => Ok(self.half(at)),
            Some(refused) => Err(refused),
        }
    }

    #[tactic(auto, unfolding(uh_base::specs::Bytes::loaded, crate::specs::FlatMemories::flat_rights), using(crate::proofs::PartLemmas::none_refused))]
    fn fetch_both(&self, at: u64) -> Option<(u16, u16)> {
        if at >= BASE && at <= BASE + SIZE - 4 {
            Some((self.half(at), self.half(at + 2)))
        } else {
            None
        }
    }
}
