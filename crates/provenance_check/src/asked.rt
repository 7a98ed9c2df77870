//! What an instruction asks for, in kinds.
#![tactic(auto)]

ghost use Rattle.std.specs.Prelude.{◌≡◌, ◌<◌, IsTrue};
ghost use Rattle.rv_decode.specs.Means.{NamesRegisters};
ghost use Rattle.prov_types.specs.Kinds.{IsProperKind};
ghost use Rattle.prov_types.specs.Narrow.{is_branch};
ghost use Rattle.prov_types.specs.Transfer.{moved};
ghost use Rattle.prov_types.specs.Asked.{forks_as, kind_asked};
ghost use Rattle.provenance_check.specs.Seen.{IsFit, ask_of, seen};
ghost use Rattle.provenance_check.specs.Successors.{link_kind};

use crate::ground::Ground;
use prov_types::{Kind, Place, Span, transfer, transfer_is_proper};
use rv_decode::{Insn, Op};

/// What an instruction asks for, in kinds. Offsets are of the image, widths are in bytes.
#[derive(Clone, Copy, Drop)]
pub(crate) enum Asked {
    /// A register gets a value of the kind.
    Sets {
        rd: u8,
        kind: Kind,
    },
    /// A register gets what stands at an address.
    Loads {
        rd: u8,
        at: Kind,
        width: u8,
        sign: bool,
    },
    /// A value of the kind is stored at an address.
    Stores {
        at: Kind,
        width: u8,
        kind: Kind,
    },
    /// A branch compares values of two kinds: on behind it, or at the target.
    Forks {
        op: Op,
        a: Kind,
        b: Kind,
        behind: u64,
        target: u64,
    },
    /// On at an offset, with the address behind in a register.
    Goes {
        to: u64,
        rd: u8,
    },
    /// On at an address of the kind, with the address behind in a register.
    Jumps {
        to: Kind,
        rd: u8,
    },
    /// A trap.
    Stops,
}

/// What the immediate added to a kind gives.
#[tactic(auto, unfolding(prov_types::specs::Transfer::transfer))]
fn moved(lens: &[u64], insn: &Insn, place: &Place, a: &Kind) -> Kind
    requires { IsProperKind a.now }
    ensures is { result ≡ moved lens.now a.now insn.now.imm }
    ensures proper { IsProperKind result }
{
    transfer_is_proper();
    let sum = Insn {
        op: Op::Addi,
        rd: insn.rd,
        rs1: insn.rs1,
        rs2: insn.rs2,
        imm: insn.imm,
    };
    transfer(&sum, place, a, a, lens)
}

/// The kind of the address behind an instruction.
#[tactic(auto, unfolding(prov_types::specs::Transfer::transfer))]
pub(crate) fn link_kind(ground: &Ground<'_>, place: &Place) -> Kind
    ensures { result ≡ link_kind (seen ground.now) place.now }
{
    let jump = Insn {
        op: Op::Jal,
        rd: 0,
        rs1: 0,
        rs2: 0,
        imm: 0,
    };
    transfer(&jump, place, &Kind::Any, &Kind::Any, ground.lens)
}

fn forks(insn: &Insn, place: &Place, a: &Kind, b: &Kind) -> Asked
    requires branch { IsTrue (is_branch insn.now.op) }
    requires first { IsProperKind a.now }
    requires second { IsProperKind b.now }
    ensures is { ask_of result ≡ forks_as insn.now.op insn.now.imm place.now a.now b.now }
    ensures fit { IsFit insn.now result }
{
    Asked::Forks {
        op: insn.op,
        a: *a,
        b: *b,
        behind: place.at.wrapping_add(u64::from(place.len)),
        target: place.at.wrapping_add(insn.imm.cast_unsigned()),
    }
}

/// What an instruction asks for, where rs1 and rs2 hold values of these kinds.
#[tactic(auto, unfolding(prov_types::specs::Transfer::transfer))]
pub(crate) fn asked_of(lens: &[u64], insn: &Insn, place: &Place, a: &Kind, b: &Kind) -> Asked
    requires names { NamesRegisters insn.now }
    requires first { IsProperKind a.now }
    requires second { IsProperKind b.now }
    ensures is { ask_of result ≡ kind_asked insn.now.op lens.now insn.now.imm place.now insn.now.rd a.now b.now }
    ensures fit { IsFit insn.now result }
{
    let rd = insn.rd;
    match insn.op {
        Op::Jal => Asked::Goes {
            to: place.at.wrapping_add(insn.imm.cast_unsigned()),
            rd,
        },
        Op::Jalr => Asked::Jumps {
            to: moved(lens, insn, place, a),
            rd,
        },
        Op::Beq | Op::Bne | Op::Blt | Op::Bge | Op::Bltu | Op::Bgeu => forks(insn, place, a, b),
        Op::Lb => Asked::Loads {
            rd,
            at: moved(lens, insn, place, a),
            width: 1,
            sign: true,
        },
        Op::Lh => Asked::Loads {
            rd,
            at: moved(lens, insn, place, a),
            width: 2,
            sign: true,
        },
        Op::Lw => Asked::Loads {
            rd,
            at: moved(lens, insn, place, a),
            width: 4,
            sign: true,
        },
        Op::Ld => Asked::Loads {
            rd,
            at: moved(lens, insn, place, a),
            width: 8,
            sign: false,
        },
        Op::Lbu => Asked::Loads {
            rd,
            at: moved(lens, insn, place, a),
            width: 1,
            sign: false,
        },
        Op::Lhu => Asked::Loads {
            rd,
            at: moved(lens, insn, place, a),
            width: 2,
            sign: false,
        },
        Op::Lwu => Asked::Loads {
            rd,
            at: moved(lens, insn, place, a),
            width: 4,
            sign: false,
        },
        Op::Sb => Asked::Stores {
            at: moved(lens, insn, place, a),
            width: 1,
            kind: *b,
        },
        Op::Sh => Asked::Stores {
            at: moved(lens, insn, place, a),
            width: 2,
            kind: *b,
        },
        Op::Sw => Asked::Stores {
            at: moved(lens, insn, place, a),
            width: 4,
            kind: *b,
        },
        Op::Sd => Asked::Stores {
            at: moved(lens, insn, place, a),
            width: 8,
            kind: *b,
        },
        Op::Fence => Asked::Sets {
            rd: 0,
            kind: Kind::Num(Span {
                lo: 0,
                hi: 0,
                by: 1,
            }),
        },
        Op::Ecall | Op::Ebreak => Asked::Stops,
        _ => Asked::Sets {
            rd,
            kind: transfer(insn, place, a, b, lens),
        },
    }
}
