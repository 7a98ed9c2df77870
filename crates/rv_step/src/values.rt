//! What the register instructions compute.
#![tactic(auto)]

ghost use Rattle.std.specs.Prelude.{◌≡◌, ◌%◌, ◌^◌, ◌-◌, pos};
ghost use Rattle.rv_step.specs.Values.{extended, high, signed, quotient, remainder, quotient_signed, remainder_signed, widened};
ghost use Rattle.rv_step.specs.Asks.{even};

/// The low 32 bits.
#[inline(always)]
pub(crate) fn low(n: u64) -> u32
    ensures { result ≡ n % 2 ^ 32 }
{
    (n % (1 << 32)) as u32
}

/// Sign-extended from the low 32 bits.
#[inline(always)]
pub(crate) fn extended(n: u64) -> u64
    ensures { result ≡ extended n }
{
    i64::from(low(n).cast_signed()).cast_unsigned()
}

/// Bit 0 cleared.
#[inline(always)]
pub(crate) fn even(n: u64) -> u64
    ensures { result ≡ even n }
{
    n - n % 2
}

/// The upper half of the product of two signed numbers.
#[tactic(auto, unfolding(crate::specs::Values::high))]
pub(crate) fn mulh(a: i64, b: i64) -> u64
    ensures { result ≡ high a b }
{
    let product = i128::from(a) * i128::from(b);
    ((product >> 64) as i64).cast_unsigned()
}

/// The upper half of the product of a signed and an unsigned number.
#[tactic(auto, unfolding(crate::specs::Values::high))]
pub(crate) fn mulhsu(a: i64, b: u64) -> u64
    ensures { result ≡ high a (pos b) }
{
    let product = i128::from(a) * i128::from(b);
    ((product >> 64) as i64).cast_unsigned()
}

pub(crate) fn divu(a: u64, b: u64) -> u64
    ensures { result ≡ quotient a b }
{
    if b == 0 { u64::MAX } else { a / b }
}

pub(crate) fn remu(a: u64, b: u64) -> u64
    ensures { result ≡ remainder a b }
{
    if b == 0 { a } else { a % b }
}

#[tactic(auto, unfolding(crate::specs::Values::quotient_signed))]
pub(crate) fn div(a: u64, b: u64) -> u64
    ensures { result ≡ quotient_signed a b }
{
    if b == 0 {
        return u64::MAX;
    }
    if a == 1 << 63 && b == u64::MAX {
        return a;
    }
    (a.cast_signed() / b.cast_signed()).cast_unsigned()
}

#[tactic(auto, unfolding(crate::specs::Values::remainder_signed))]
pub(crate) fn rem(a: u64, b: u64) -> u64
    ensures { result ≡ remainder_signed a b }
{
    if b == 0 {
        return a;
    }
    if a == 1 << 63 && b == u64::MAX {
        return 0;
    }
    (a.cast_signed() % b.cast_signed()).cast_unsigned()
}

/// A number of so many bytes, sign-extended.
#[tactic(auto, unfolding(crate::specs::Values::widened))]
#[inline(always)]
pub(crate) fn widened(width: u8, n: u64) -> u64
    ensures { result ≡ widened width n }
{
    match width {
        1 => i64::from(((n % (1 << 8)) as u8).cast_signed()).cast_unsigned(),
        2 => i64::from(((n % (1 << 16)) as u16).cast_signed()).cast_unsigned(),
        4 => extended(n),
        _ => n,
    }
}
