//! What ends a run.

/// Why a run was halted.
#[derive(Clone, Copy, Debug, PartialEq, Eq)]
pub enum Cause {
    /// An instruction that isn't of the table.
    Illegal,
    Ebreak,
    Ecall,
    /// The instruction couldn't be fetched.
    Fetch,
    /// A load from where nothing may be read.
    Load,
    /// A store to where nothing may be written.
    Store,
    /// The bound on steps was reached.
    Bound,
    /// A wait for events, none of which can come.
    Idle,
    /// A task priority level that isn't allowed there.
    Tpl,
    /// A boot service after the end of boot services.
    BootGone,
    /// More nested calls than there are frames.
    Depth,
    /// More touched pages than there are.
    Frames,
}

impl Cause {
    ghost use Rattle.std.specs.Prelude.{◌≡◌};
    ghost use Rattle.record_text.specs.Causes.{cause_name};

    /// Its word in a line.
    pub fn name(self) -> &'static str
        ensures { result.now ≡ cause_name self }
    {
        match self {
            Cause::Illegal => "illegal",
            Cause::Ebreak => "ebreak",
            Cause::Ecall => "ecall",
            Cause::Fetch => "fetch",
            Cause::Load => "load",
            Cause::Store => "store",
            Cause::Bound => "bound",
            Cause::Idle => "idle",
            Cause::Tpl => "tpl",
            Cause::BootGone => "boot-gone",
            Cause::Depth => "depth",
            Cause::Frames => "frames",
        }
    }
}

ghost use Rattle.std.specs.Prelude.{◌≡◌};
ghost use Rattle.record_text.specs.Causes.{cause_in, cause_of};

/// All causes.
static CAUSES: [Cause; 12] = [
    Cause::Illegal,
    Cause::Ebreak,
    Cause::Ecall,
    Cause::Fetch,
    Cause::Load,
    Cause::Store,
    Cause::Bound,
    Cause::Idle,
    Cause::Tpl,
    Cause::BootGone,
    Cause::Depth,
    Cause::Frames,
];

/// The first of some causes with a word.
fn cause_in(causes: &[Cause], word: &str) -> Option<Cause>
    ensures { result ≡ cause_in causes.now word.now }
{
    for cause in causes {
        if cause.name() == word {
            return Some(*cause);
        }
    }
    None
}

/// The cause of a word.
#[tactic(auto, unfolding(crate::specs::Causes::cause_of))]
pub(crate) fn cause_of(word: &str) -> Option<Cause>
    ensures { result ≡ cause_of word.now }
{
    cause_in(&CAUSES, word)
}
