//! Parts of lists.
#![tactic(auto)]

ghost use Rattle.std.specs.Prelude.{◌≡◌, ℕ, IsTrue, slice_index, ◌+◌, ◌<◌, ◌≤◌, ◌^◌, length, replicate, take, drop, vec_len};
ghost use Rattle.uh_base.specs.Bytes.{is_width};
ghost use Rattle.uh_base.specs.LittleEndian.{little_endian, low_bytes};
ghost use Rattle.guest_memory.specs.Lists.{count_true, filled, written_over};

use uh_base::{number_in, write_number};

/// Each byte is below 256.
pub(crate) fn bytes_are_bytes(bytes: &[u8])
    ensures { (i : ℕ) → slice_index bytes.now i < 256 }
{
    let _ = bytes.len();
}

/// Writes one value at so many places from an index on.
#[tactic(auto, using(crate::proofs::RunLemmas::spliced))]
pub(crate) fn fill<T: Copy>(items: &mut Vec<T>, first: usize, count: usize, value: T)
    requires { first + count ≤ vec_len items.old }
    ensures value { items.new.items ≡ filled items.old.items first count value }
    ensures len { length items.new.items ≡ length items.old.items }
{
    fill_all(&mut items[first..first + count], value);
}

/// Writes one value at each place.
fn fill_all<T: Copy>(items: &mut [T], value: T)
    ensures { items.new ≡ replicate (length items.old) value }
{
    for item in items.iter_mut() {
        *item = value;
    }
}

/// How many of so many marks, from an index on, are true.
pub(crate) fn count_part(marks: &[bool], first: usize, count: usize) -> u32
    requires inside { first + count ≤ length marks.now }
    requires few { count < 2 ^ 32 }
    ensures { result ≡ count_true (take count (drop first marks.now)) }
{
    count_marks(&marks[first..first + count])
}

/// How many are true.
#[tactic(auto, unfolding(crate::specs::Lists::count_true))]
fn count_marks(marks: &[bool]) -> u32
    requires { length marks.now < 2 ^ 32 }
    ensures { result ≡ count_true marks.now }
{
    let mut count = 0;
    for mark in marks {
        if *mark {
            count += 1;
        }
    }
    count
}

/// Writes the 1, 2, 4 or 8 low bytes of a number from an index on, the least first.
#[inline(always)]
pub(crate) fn write_low(bytes: &mut Vec<u8>, first: usize, width: u8, value: u64)
    requires inside { first + width ≤ vec_len bytes.old }
    requires width { IsTrue (is_width width) }
    ensures value { bytes.new.items ≡ written_over bytes.old.items first (low_bytes width value) }
    ensures len { length bytes.new.items ≡ length bytes.old.items }
{
    match width {
        1 => write_number(&mut bytes[first..first + 1], value),
        2 => write_number(&mut bytes[first..first + 2], value),
        4 => write_number(&mut bytes[first..first + 4], value),
        _ => write_number(&mut bytes[first..first + 8], value),
    }
}

/// The number that 1, 2, 4 or 8 bytes make, the least first.
#[inline(always)]
pub(crate) fn number_of(bytes: &[u8]) -> u64
    requires { IsTrue (is_width (length bytes.now)) }
    ensures value { result ≡ little_endian bytes.now }
    ensures below { result < 256 ^ length bytes.now }
{
    number_in(bytes)
}
