//! The decoder, which looks at the few rows of a word's slot.
#![tactic(auto)]

ghost use Rattle.std.specs.Prelude.{◌≡◌, ◌<◌, ◌≤◌, ◌^◌, ℕ, Some, None, Option, IfSome, IfNone, IsTrue, ◌↔◌, not, map};
ghost use Rattle.rv_decode.specs.Rows.{holds, holds_none, holds_row, rows, word_of};
ghost use Rattle.rv_decode.specs.declared.insn.Insn.{Insn};
ghost use Rattle.rv_decode.specs.Views.{excluded, pattern_of, row_of};
ghost use Rattle.rv_decode.specs.Slots.{slot_pattern};
ghost use Rattle.rv_decode.specs.Means.{decoded, first, Means, NamesRegisters, OneRowHolds};

use crate::formats::read;
use crate::insn::Insn;
use crate::table::{FROM, Pattern, ROWS, Row, TO};

#[inline(always)]
fn is_met(pattern: Pattern, word: u32) -> bool
    ensures { result ≡ holds (pattern_of pattern) word }
{
    word & pattern.mask == pattern.value
}

#[inline(always)]
fn is_excluded(pattern: Option<Pattern>, word: u32) -> bool
    ensures { result ≡ not (holds_none (excluded pattern) word) }
{
    match pattern {
        Some(pattern) => is_met(pattern, word),
        None => false,
    }
}

#[inline(always)]
fn row_holds(row: &Row, word: u32) -> bool
    ensures { result ≡ holds_row (row_of row.now) word }
{
    word & row.mask == row.value && !is_excluded(row.but, word) && !is_excluded(row.nor, word)
}

/// The slot whose rows can hold of a word: by bits 6 to 2 and 14 to 12, or by bits 1, 0 and 15 to 13.
#[inline(always)]
fn slot_of(word: u32) -> usize
    ensures below { result < 280 }
    ensures holds { IsTrue (holds (slot_pattern result) word) }
{
    if word % 4 == 3 {
        ((word >> 2) % 32 * 8 + (word >> 12) % 8) as usize
    } else {
        (256 + word % 4 * 8 + (word >> 13) % 8) as usize
    }
}

/// The reading of the first row that holds.
#[inline(always)]
fn find(rows: &[Row], word: u32) -> Option<(Insn, u8)>
    ensures first { result ≡ first (map row_of rows.now) word }
    ensures registers { IfSome result (λ found. NamesRegisters found.0) }
{
    for row in rows {
        if row_holds(row, word) {
            return Some((read(row.format, row.op, word), row.length));
        }
    }
    None
}

/// The reading of the first row of the table that holds, looked for in its slot alone.
#[inline(always)]
fn find_in(slot: usize, word: u32) -> Option<(Insn, u8)>
    requires below { slot < 280 }
    requires slot { IsTrue (holds (slot_pattern slot) word) }
    ensures first { result ≡ first rows word }
    ensures registers { IfSome result (λ found. NamesRegisters found.0) }
{
    find(&ROWS[FROM[slot] as usize..TO[slot] as usize], word)
}

/// The instruction at the front of two halves of 16 bits, and how many bytes it has: 2, where the second half doesn't
/// count, or 4. None where no row of the table holds.
#[inline(always)]
pub fn decode(half0: u16, half1: u16) -> Option<(Insn, u8)>
    ensures exact { result ≡ decoded half0 half1 }
    ensures registers { IfSome result (λ found. NamesRegisters found.0) }
    // What is read is in the table.
    ensures means { IfSome result (λ found. Means half0 half1 found.0 found.1) }
    // What is in the table is read, so nothing is read only where no row holds.
    ensures only { (insn : Insn) (len : ℕ) → Means half0 half1 insn len → result ≡ Some (insn, len) }
{
    let word = u32::from(half0) + (u32::from(half1) << 16);
    find_in(slot_of(word), word)
}

/// No two rows of the table hold of the same halves.
pub fn one_row_holds()
    ensures { OneRowHolds }
{}
