//! Arguments in registers.
#![tactic(auto)]

ghost use Rattle.std.specs.Prelude.{◌≡◌, ◌<◌};
ghost use Rattle.guest_call.specs.Arguments.{argument, low_word};

/// Argument n of a call, from 0 on: registers a0 to a7, which are x10 to x17.
pub fn argument(n: usize, registers: &[u64; 32]) -> u64
    requires { n < 8 }
    ensures { result ≡ argument n registers.now }
{
    registers[10 + n]
}

/// An argument of 32 bits: the low half of its register.
pub fn low_word(n: u64) -> u32
    ensures { result ≡ low_word n }
{
    (n % (1 << 32)) as u32
}
