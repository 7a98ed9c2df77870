//! What can be wrong with a script.
ghost use Rattle.std.specs.Prelude.{◌≡◌};
ghost use Rattle.host_script.specs.declared.fault.Fault.TheVariants.{Memory, Kind};

use std::alloc::{AllocError, AllocFailed};

/// What is wrong.
#[derive(Clone, Copy, Debug, PartialEq, Eq)]
pub enum ScriptKind {
    /// The bytes are no TOML document.
    Text,
    /// A key that isn't known.
    Key,
    /// A key that has to be there isn't.
    Missing,
    /// A value of a wrong type.
    Shape,
    /// A value outside its form or range.
    Value,
    /// A name that another image has, or that no image has.
    Name,
    /// More items than a list may have.
    Count,
    /// The store is no file of variables. A script that is read never has this fault.
    Store,
}

impl ScriptKind {
    ghost use Rattle.std.specs.Prelude.{◌≡◌};
    ghost use Rattle.host_script.specs.Faults.{kind_name};

    /// Its word in a message.
    pub fn name(self) -> &'static str
        ensures { result.now ≡ kind_name self }
    {
        match self {
            ScriptKind::Text => "Text",
            ScriptKind::Key => "Key",
            ScriptKind::Missing => "Missing",
            ScriptKind::Shape => "Shape",
            ScriptKind::Value => "Value",
            ScriptKind::Name => "Name",
            ScriptKind::Count => "Count",
            ScriptKind::Store => "Store",
        }
    }
}

/// Why a script is refused: what is wrong and at which step, or no memory. Steps count from 1; 0 is the document,
/// its top table and its images.
#[derive(Clone, Copy, Debug, PartialEq, Eq)]
pub enum ScriptFault {
    At { step: u32, kind: ScriptKind },
    Memory,
}

/// What is wrong in one table, or no memory.
#[derive(Clone, Copy, Debug, PartialEq, Eq)]
pub(crate) enum Fault {
    Kind(ScriptKind),
    Memory,
}

impl From<ScriptKind> for Fault {
    ghost from_gives = { λ kind e. e ≡ Kind kind };

    fn from(kind: ScriptKind) -> Fault {
        Fault::Kind(kind)
    }
}

impl From<AllocError> for Fault {
    ghost from_gives = { λ _ e. e ≡ Memory };

    fn from(_error: AllocError) -> Fault {
        Fault::Memory
    }
}

impl<T: Drop> From<AllocFailed<T>> for Fault {
    ghost from_gives = { λ _ e. e ≡ Memory };

    fn from(_error: AllocFailed<T>) -> Fault {
        Fault::Memory
    }
}
