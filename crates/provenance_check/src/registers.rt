//! What is known of the registers.
#![tactic(auto)]

ghost use Rattle.std.specs.Prelude.{◌≡◌, ◌<◌, ℕ};
ghost use Rattle.prov_types.specs.Kinds.{IsProperKind};
ghost use Rattle.provenance_check.specs.Ground.{AreRegisters};
ghost use Rattle.provenance_check.specs.Registers.{kind_at, kinds_of, naming, written};

use prov_cert::RegKind;
use prov_types::{Kind, Span};

/// The kinds with a register written; register 0 isn't.
pub(crate) fn write(kinds: &mut [Kind; 32], register: u8, kind: Kind)
    requires { register < 32 }
    ensures { kinds.new ≡ written kinds.old register kind }
{
    if register != 0 {
        kinds[register as usize] = kind;
    }
}

#[tactic(auto, unfolding(crate::specs::Registers::kinds_of, crate::specs::Registers::naming))]
fn named_kinds(regs: &[RegKind]) -> [Kind; 32]
    requires { AreRegisters regs.now }
    ensures { result ≡ kinds_of regs.now }
{
    let mut kinds = [Kind::Any; 32];
    kinds[0] = Kind::Num(Span {
        lo: 0,
        hi: 0,
        by: 1,
    });
    for k in regs {
        write(&mut kinds, k.reg, k.kind);
    }
    kinds
}

/// The kinds of all registers, of which these are named.
pub(crate) fn kinds_of(regs: &[RegKind]) -> [Kind; 32]
    requires { AreRegisters regs.now }
    ensures is { result ≡ kinds_of regs.now }
    ensures proper { (r : ℕ) → IsProperKind (kind_at result r) }
{
    named_kinds(regs)
}
