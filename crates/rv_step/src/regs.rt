//! The registers of a hart.
#![tactic(auto)]

ghost use Rattle.std.specs.Prelude.{◌≡◌, slice_index};

/// The integer registers x0 to x31, of which x0 is 0, and the program counter. (RISC-V unprivileged
/// manual, version 20191213, 2.1 and 5.1)
#[derive(Clone, Copy, Drop)]
pub struct Regs {
    pub x: [u64; 32],
    pub pc: u64,
    ghost zero: { slice_index x 0 ≡ 0 },
}
