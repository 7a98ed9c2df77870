//! Words whose readings are remembered.
#![tactic(auto)]

ghost use Rattle.std.specs.Prelude.{◌≡◌, ◌<◌, ◌%◌, ◌==◌, not, IsTrue, if◌then◌else◌, Some, None, IfSome, vec_len};
ghost use Rattle.rv_decode.specs.Rows.{rows, word_of};
ghost use Rattle.rv_decode.specs.declared.insn.Insn.{Insn};
ghost use Rattle.rv_decode.specs.Means.{decoded, first, NamesRegisters};

use crate::decoder::decode;
use crate::insn::Insn;
use std::alloc::{AllocError, Global};

/// How many words are remembered at most.
const COUNT: usize = 4096;

/// What spreads addresses over the places: instructions that stand within 7 KiB have places of their own, and code that
/// is a few multiples of 4 KiB, 8 KiB or more apart has places that are at least 450 apart.
const SPREAD: u32 = 582_543;

/// A word with its reading.
#[derive(Clone, Copy, Drop)]
struct Known {
    word: u32,
    len: u8,
    is_half: bool,
    insn: Insn,
    ghost half: { is_half ≡ not (word % 4 == 3) },
    ghost small: { IsTrue is_half → word < 65536 },
    ghost reading: { first rows word ≡ Some (insn, len) },
    ghost rd: { insn.rd < 32 },
    ghost rs1: { insn.rs1 < 32 },
    ghost rs2: { insn.rs2 < 32 },
}

/// Words with their readings, at places by the addresses at which they stood. What a word means is the same wherever
/// and whenever it stands, so nothing that is remembered ever becomes wrong.
#[derive(Drop)]
pub struct KnownWords {
    known: Vec<Known>,
    ghost whole: { vec_len known ≡ 4096 },
}

/// Two halves as one word.
#[inline(always)]
fn word_of(half0: u16, half1: u16) -> u32
    ensures { result ≡ word_of half0 half1 }
{
    u32::from(half0) + (u32::from(half1) << 16)
}

/// The place of what stands at an address.
#[inline(always)]
fn place_of(at: u64) -> usize
    ensures { result < 4096 }
{
    (((at % (1 << 32)) as u32).wrapping_mul(SPREAD) >> 20) as usize
}

/// The word of two halves and its reading, if it has one.
#[tactic(auto, unfolding(crate::specs::Means::decoded))]
fn read(half0: u16, half1: u16) -> Option<Known>
    requires { IsTrue (not (half0 % 4 == 3)) → half1 ≡ 0 }
    ensures none { result ≡ None → decoded half0 half1 ≡ None }
    ensures some { IfSome result (λ known. known.word ≡ word_of half0 half1) }
{
    match decode(half0, half1) {
        Some((insn, len)) => {
            let word = word_of(half0, half1);
            Some(Known {
                word,
                len,
                is_half: word % 4 != 3,
                insn,
            })
        }
        None => None,
    }
}

impl KnownWords {
    /// A table that knows one word alone, that of `addi zero, zero, 0`.
    pub fn new(alloc: Global) -> Result<KnownWords, AllocError> {
        let mut known = Vec::new(alloc);
        match read(0x13, 0) {
            Some(first) => known.resize(COUNT, first)?,
            None => unreachable!(),
        }
        Ok(KnownWords { known })
    }

    /// The instruction at the front of two halves that stand at an address, and how many bytes it has, if it is
    /// remembered. None says nothing.
    #[inline(always)]
    #[tactic(auto, unfolding(crate::specs::Means::decoded))]
    pub fn recall(&self, at: u64, half0: u16, half1: u16) -> Option<(Insn, u8)>
        ensures exact { IfSome result (λ found. decoded half0 (if half0 % 4 == 3 then half1 else 0) ≡ Some found) }
        ensures registers { IfSome result (λ found. NamesRegisters found.0) }
    {
        let known = &self.known[place_of(at)];
        let word = if known.is_half {
            u32::from(half0)
        } else {
            word_of(half0, half1)
        };
        if word == known.word {
            Some((known.insn, known.len))
        } else {
            None
        }
    }

    /// The instruction at the front of two halves that stand at an address, as `decode` reads it. It is remembered in
    /// place of what stood at the address's place. Where the first half is an instruction, the second is 0.
    #[tactic(auto, unfolding(crate::specs::Means::decoded))]
    pub fn learn(&mut self, at: u64, half0: u16, half1: u16) -> Option<(Insn, u8)>
        requires { IsTrue (not (half0 % 4 == 3)) → half1 ≡ 0 }
        ensures exact { result ≡ decoded half0 half1 }
        ensures registers { IfSome result (λ found. NamesRegisters found.0) }
    {
        match read(half0, half1) {
            Some(read) => {
                self.known[place_of(at)] = read;
                Some((read.insn, read.len))
            }
            None => None,
        }
    }
}
