//! Numbers of a text.
ghost use Rattle.std.specs.Prelude.{◌≡◌, ◌<◌, ◌≤◌, ◌^◌, ℕ};
ghost use Rattle.guest_build.specs.Numbers.{number_in, wrapped, value_of, is_between, is_signed, is_data};

use crate::fault::AsmKind;
use crate::text::behind_first;
use uh_base::number;

/// A number by its size and whether it is negative.
#[derive(Clone, Copy, Debug, PartialEq, Eq)]
pub struct Number {
    pub negative: bool,
    pub size: u64,
}

/// The number of a text: a number text, with a `-` before a negative one.
#[tactic(auto, unfolding(crate::specs::Numbers::number_in))]
pub fn number_in(text: &str) -> Result<Number, AsmKind>
    ensures { result ≡ number_in text.now }
{
    match behind_first(text, '-') {
        None => match number(text) {
            Some(size) => Ok(Number {
                negative: false,
                size,
            }),
            None => Err(AsmKind::Operand),
        },
        Some(digits) => match number(digits) {
            Some(size) => if size == 0 {
                Err(AsmKind::Operand)
            } else {
                Ok(Number {
                    negative: true,
                    size,
                })
            },
            None => Err(AsmKind::Operand),
        },
    }
}

impl Number {
    ghost use Rattle.std.specs.Prelude.{◌≡◌, ◌<◌, ◌≤◌, ◌^◌};
    ghost use Rattle.guest_build.specs.Numbers.{wrapped, value_of, is_between, is_signed, is_data};

    /// The number modulo 2^64.
    pub fn wrapped(self) -> u64
        ensures { result ≡ wrapped self }
    {
        if self.negative {
            0_u64.wrapping_sub(self.size)
        } else {
            self.size
        }
    }

    /// The number, if it has few bits.
    pub fn value(self) -> i64
        requires { self.size < 2 ^ 32 }
        ensures { result ≡ value_of self }
    {
        if self.negative {
            -(self.size as i64)
        } else {
            self.size as i64
        }
    }

    /// Whether it is such a number that isn't negative.
    pub fn is_between(self, low: u64, high: u64) -> bool
        ensures { result ≡ is_between low high self }
    {
        !self.negative && low <= self.size && self.size <= high
    }

    /// Whether it is a signed number of so many bits.
    pub fn is_signed(self, bits: u32) -> bool
        requires low { 0 < bits }
        requires high { bits ≤ 64 }
        ensures { result ≡ is_signed bits self }
    {
        let half = 1_u64 << (bits - 1);
        if self.negative {
            self.size <= half
        } else {
            self.size < half
        }
    }

    /// Whether it fits data of so many bits.
    pub fn is_data(self, bits: u32) -> bool
        requires low { 0 < bits }
        requires high { bits ≤ 64 }
        ensures { result ≡ is_data bits self }
    {
        let half = 1_u64 << (bits - 1);
        if self.negative {
            self.size <= half
        } else {
            self.size / 2 < half
        }
    }
}
