//! How the program ends.
#![tactic(auto)]

ghost use Rattle.std.specs.Prelude.{◌≡◌};
ghost use Rattle.host_engine.specs.Gives.{code_of, status_of};

use crate::refusal::Refusal;

/// How a command ended.
#[derive(Clone, Copy, Debug, PartialEq, Eq, Drop)]
pub enum Status {
    /// All was put, and the run ended as a program ends.
    Done,
    /// All was put, and the run ended otherwise.
    Halted,
    /// The words ask for no command.
    Words,
    /// The script is refused.
    Script,
    /// A file couldn't be read.
    Read,
    /// A file is longer than its limit.
    Size,
    /// The output failed.
    Write,
    /// Memory was wanting.
    Memory,
    /// An assembly text is refused.
    Assembly,
}

impl Status {
    /// The status of a command's answer, true where its run is halted.
    pub(crate) fn of(answer: &Result<bool, Refusal>) -> Status
        ensures { result ≡ status_of answer.now }
    {
        match answer {
            Ok(false) => Status::Done,
            Ok(true) => Status::Halted,
            Err(Refusal::Read(_)) => Status::Read,
            Err(Refusal::Size(_)) => Status::Size,
            Err(Refusal::Script(_)) => Status::Script,
            Err(Refusal::Assembly(_)) => Status::Assembly,
            Err(Refusal::Write) => Status::Write,
            Err(Refusal::Memory) => Status::Memory,
        }
    }

    /// The exit status of the program, from 0 to 8.
    pub fn code(self) -> u8
        ensures { result ≡ code_of self }
    {
        match self {
            Status::Done => 0,
            Status::Halted => 1,
            Status::Words => 2,
            Status::Script => 3,
            Status::Read => 4,
            Status::Write => 5,
            Status::Memory => 6,
            Status::Size => 7,
            Status::Assembly => 8,
        }
    }
}
