//! What can be wrong with a text.
ghost use Rattle.std.specs.Prelude.{◌≡◌};
ghost use Rattle.uh_base.specs.declared.fault.Fault.TheVariants.{Kind};

/// What is wrong with a line. Of several the first in this order is told.
#[derive(Clone, Copy, Debug, PartialEq, Eq)]
pub enum AsmKind {
    /// What stands before `:` is no label, or the word isn't known.
    Word,
    /// The operands differ from the word's in number or form, or a register isn't known.
    Operand,
    /// The label or the setting stands on an earlier line too.
    Twice,
    /// A label that is used stands on no line; on line 0, that label is `start`.
    Label,
    /// A number or a distance doesn't fit its field.
    Range,
    /// The image of the lines up to this one is the first of more than 1 MiB.
    Size,
}

impl AsmKind {
    ghost use Rattle.std.specs.Prelude.{◌≡◌};
    ghost use Rattle.guest_build.specs.Faults.{kind_name};

    /// Its word in a message.
    pub fn name(self) -> &'static str
        ensures { result.now ≡ kind_name self }
    {
        match self {
            AsmKind::Word => "Word",
            AsmKind::Operand => "Operand",
            AsmKind::Twice => "Twice",
            AsmKind::Label => "Label",
            AsmKind::Range => "Range",
            AsmKind::Size => "Size",
        }
    }
}

/// Why a text is refused: what is wrong and on which line, or no memory. Lines count from 1; line 0 is the text as
/// a whole.
#[derive(Clone, Copy, Debug, PartialEq, Eq)]
pub enum AsmFault {
    At { line: u32, kind: AsmKind },
    Memory,
}

/// What is wrong with one line, or no memory.
pub(crate) type Fault = uh_base::Fault<AsmKind>;

impl From<AsmKind> for Fault {
    ghost from_gives = { λ kind e. e ≡ Kind kind };

    fn from(kind: AsmKind) -> Fault {
        Fault::Kind(kind)
    }
}
