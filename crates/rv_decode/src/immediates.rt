//! The immediates, each by its pieces.
#![tactic(auto)]

ghost use Rattle.std.specs.Prelude.{◌≡◌};
ghost use Rattle.rv_decode.specs.Immediates.{imm_i, shamt, shamt_word, imm_s, imm_b, imm_u, imm_j, imm_addi4spn, offset_lw, offset_ld, imm_ci, shamt_ci, imm_addi16sp, imm_lui, offset_j, offset_b, offset_lwsp, offset_ldsp, offset_swsp, offset_sdsp};

use crate::fields::{field_of, sign_extend};

/// The immediate of an I-type word, in bytes where it is an offset: bits 31 to 20, signed.
#[inline(always)]
pub(crate) fn imm_i(word: u32) -> i64
    ensures { result ≡ imm_i word }
{
    sign_extend(field_of(word, 20, 12), 12)
}

/// A shift of 0 to 63 bits.
#[inline(always)]
pub(crate) fn shamt(word: u32) -> i64
    ensures { result ≡ shamt word }
{
    i64::from(field_of(word, 20, 6))
}

/// A shift of 0 to 31 bits.
#[inline(always)]
pub(crate) fn shamt_word(word: u32) -> i64
    ensures { result ≡ shamt_word word }
{
    i64::from(field_of(word, 20, 5))
}

/// The offset of a store, in bytes.
#[inline(always)]
pub(crate) fn imm_s(word: u32) -> i64
    ensures { result ≡ imm_s word }
{
    sign_extend((field_of(word, 25, 7) << 5) + field_of(word, 7, 5), 12)
}

/// The distance of a branch, in bytes.
#[inline(always)]
pub(crate) fn imm_b(word: u32) -> i64
    ensures { result ≡ imm_b word }
{
    sign_extend(
        (field_of(word, 31, 1) << 12)
            + (field_of(word, 7, 1) << 11)
            + (field_of(word, 25, 6) << 5)
            + (field_of(word, 8, 4) << 1),
        13,
    )
}

/// The immediate of LUI and AUIPC: a multiple of 4,096.
#[inline(always)]
pub(crate) fn imm_u(word: u32) -> i64
    ensures { result ≡ imm_u word }
{
    sign_extend(field_of(word, 12, 20) << 12, 32)
}

/// The distance of JAL, in bytes.
#[inline(always)]
pub(crate) fn imm_j(word: u32) -> i64
    ensures { result ≡ imm_j word }
{
    sign_extend(
        (field_of(word, 31, 1) << 20)
            + (field_of(word, 12, 8) << 12)
            + (field_of(word, 20, 1) << 11)
            + (field_of(word, 21, 10) << 1),
        21,
    )
}

/// The immediate of C.ADDI4SPN.
#[inline(always)]
pub(crate) fn imm_addi4spn(word: u32) -> i64
    ensures { result ≡ imm_addi4spn word }
{
    i64::from(
        (field_of(word, 11, 2) << 4)
            + (field_of(word, 7, 4) << 6)
            + (field_of(word, 6, 1) << 2)
            + (field_of(word, 5, 1) << 3),
    )
}

/// The offset of C.LW and C.SW, in bytes.
#[inline(always)]
pub(crate) fn offset_lw(word: u32) -> i64
    ensures { result ≡ offset_lw word }
{
    i64::from(
        (field_of(word, 10, 3) << 3) + (field_of(word, 6, 1) << 2) + (field_of(word, 5, 1) << 6),
    )
}

/// The offset of C.LD and C.SD, in bytes.
#[inline(always)]
pub(crate) fn offset_ld(word: u32) -> i64
    ensures { result ≡ offset_ld word }
{
    i64::from((field_of(word, 10, 3) << 3) + (field_of(word, 5, 2) << 6))
}

/// The immediate of C.ADDI, C.ADDIW, C.LI and C.ANDI.
#[inline(always)]
pub(crate) fn imm_ci(word: u32) -> i64
    ensures { result ≡ imm_ci word }
{
    sign_extend((field_of(word, 12, 1) << 5) + field_of(word, 2, 5), 6)
}

/// The shift of C.SLLI, C.SRLI and C.SRAI.
#[inline(always)]
pub(crate) fn shamt_ci(word: u32) -> i64
    ensures { result ≡ shamt_ci word }
{
    i64::from((field_of(word, 12, 1) << 5) + field_of(word, 2, 5))
}

/// The immediate of C.ADDI16SP.
#[inline(always)]
pub(crate) fn imm_addi16sp(word: u32) -> i64
    ensures { result ≡ imm_addi16sp word }
{
    sign_extend(
        (field_of(word, 12, 1) << 9)
            + (field_of(word, 6, 1) << 4)
            + (field_of(word, 5, 1) << 6)
            + (field_of(word, 3, 2) << 7)
            + (field_of(word, 2, 1) << 5),
        10,
    )
}

/// The immediate of C.LUI: a multiple of 4,096.
#[inline(always)]
pub(crate) fn imm_lui(word: u32) -> i64
    ensures { result ≡ imm_lui word }
{
    sign_extend(
        (field_of(word, 12, 1) << 17) + (field_of(word, 2, 5) << 12),
        18,
    )
}

/// The distance of C.J, in bytes.
#[inline(always)]
pub(crate) fn offset_j(word: u32) -> i64
    ensures { result ≡ offset_j word }
{
    sign_extend(
        (field_of(word, 12, 1) << 11)
            + (field_of(word, 11, 1) << 4)
            + (field_of(word, 9, 2) << 8)
            + (field_of(word, 8, 1) << 10)
            + (field_of(word, 7, 1) << 6)
            + (field_of(word, 6, 1) << 7)
            + (field_of(word, 3, 3) << 1)
            + (field_of(word, 2, 1) << 5),
        12,
    )
}

/// The distance of C.BEQZ and C.BNEZ, in bytes.
#[inline(always)]
pub(crate) fn offset_b(word: u32) -> i64
    ensures { result ≡ offset_b word }
{
    sign_extend(
        (field_of(word, 12, 1) << 8)
            + (field_of(word, 10, 2) << 3)
            + (field_of(word, 5, 2) << 6)
            + (field_of(word, 3, 2) << 1)
            + (field_of(word, 2, 1) << 5),
        9,
    )
}

/// The offset of C.LWSP, in bytes.
#[inline(always)]
pub(crate) fn offset_lwsp(word: u32) -> i64
    ensures { result ≡ offset_lwsp word }
{
    i64::from(
        (field_of(word, 12, 1) << 5) + (field_of(word, 4, 3) << 2) + (field_of(word, 2, 2) << 6),
    )
}

/// The offset of C.LDSP, in bytes.
#[inline(always)]
pub(crate) fn offset_ldsp(word: u32) -> i64
    ensures { result ≡ offset_ldsp word }
{
    i64::from(
        (field_of(word, 12, 1) << 5) + (field_of(word, 5, 2) << 3) + (field_of(word, 2, 3) << 6),
    )
}

/// The offset of C.SWSP, in bytes.
#[inline(always)]
pub(crate) fn offset_swsp(word: u32) -> i64
    ensures { result ≡ offset_swsp word }
{
    i64::from((field_of(word, 9, 4) << 2) + (field_of(word, 7, 2) << 6))
}

/// The offset of C.SDSP, in bytes.
#[inline(always)]
pub(crate) fn offset_sdsp(word: u32) -> i64
    ensures { result ≡ offset_sdsp word }
{
    i64::from((field_of(word, 10, 3) << 3) + (field_of(word, 7, 3) << 6))
}
