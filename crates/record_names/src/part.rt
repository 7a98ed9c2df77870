//! The parts of a certificate.

/// A part of a certificate; a certificate that is refused names the first that is at fault, in this order.
#[derive(Clone, Copy, Debug, PartialEq, Eq)]
pub enum Part {
    /// The document is none of TOML.
    Text,
    /// A key of the document.
    Keys,
    /// A region.
    Regions,
    /// A span.
    Spans,
    /// An entry.
    Entries,
    /// A notified function.
    Notify,
    /// A node.
    Nodes,
}

impl Part {
    ghost use Rattle.std.specs.Prelude.{◌≡◌};
    ghost use Rattle.record_names.specs.Parts.{part_name};

    /// Its word in a line.
    pub fn name(self) -> &'static str
        ensures { result.now ≡ part_name self }
    {
        match self {
            Part::Text => "Text",
            Part::Keys => "Keys",
            Part::Regions => "Regions",
            Part::Spans => "Spans",
            Part::Entries => "Entries",
            Part::Notify => "Notify",
            Part::Nodes => "Nodes",
        }
    }
}

ghost use Rattle.std.specs.Prelude.{◌≡◌};
ghost use Rattle.record_names.specs.Parts.{part_name, part_in, part_of};
ghost use Rattle.record_names.specs.Words.{IsWord};
ghost use Rattle.record_names.specs.declared.part.Part.{Part as AnyPart};

/// All parts.
static PARTS: [Part; 7] = [
    Part::Text,
    Part::Keys,
    Part::Regions,
    Part::Spans,
    Part::Entries,
    Part::Notify,
    Part::Nodes,
];

/// The first of some parts with a word.
fn part_in(parts: &[Part], word: &str) -> Option<Part>
    ensures { result ≡ part_in parts.now word.now }
{
    for part in parts {
        if part.name() == word {
            return Some(*part);
        }
    }
    None
}

/// The part of a word; None exactly where no part has it.
#[tactic(auto, unfolding(crate::specs::Parts::part_of))]
pub fn part_of(word: &str) -> Option<Part>
    ensures { result ≡ part_of word.now }
{
    part_in(&PARTS, word)
}

/// A law: no two parts have one word, so each is read back, and each word is one.
#[tactic(auto, using(crate::proofs::PartLemmas::part_back, crate::proofs::PartLemmas::part_is_word))]
pub fn parts_read_back()
    ensures back { (part : AnyPart) → part_of (part_name part) ≡ Some part }
    ensures words { (part : AnyPart) → IsWord (part_name part) }
{}
