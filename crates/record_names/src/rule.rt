//! The rules of a check.

/// A rule of the check of a certificate against a driver; a check that says no names the first that fails, in this order.
#[derive(Clone, Copy, Debug, PartialEq, Eq)]
pub enum Rule {
    /// The image is no runtime driver that is kept, boot services last, or the map was made.
    Phase,
    /// A region isn't where it may be.
    Region,
    /// A span isn't where it may be.
    Span,
    /// A span's bytes aren't what it says.
    Data,
    /// An entry's state doesn't fit its node.
    Entry,
    /// A function that is notified of the map doesn't fit its node.
    Notify,
    /// There is no instruction that may stand there.
    Insn,
    /// An address within an instruction isn't one that is moved with it.
    Site,
    /// A load from where nothing may be read.
    Load,
    /// A store to where that value may not be written.
    Store,
    /// A jump or a comparison that may not be.
    Jump,
    /// A function is left in another state than it has to be.
    Exit,
    /// A pointer that may not be converted there.
    Convert,
    /// A state doesn't fit the next node.
    Edge,
    /// A notified function comes back to where it was, or is called.
    Order,
    /// A pointer isn't converted when the last function ends.
    Unconverted,
    /// More pages would be touched than there are.
    Frames,
}

impl Rule {
    ghost use Rattle.std.specs.Prelude.{◌≡◌};
    ghost use Rattle.record_names.specs.Rules.{rule_name};

    /// Its word in a line.
    pub fn name(self) -> &'static str
        ensures { result.now ≡ rule_name self }
    {
        match self {
            Rule::Phase => "Phase",
            Rule::Region => "Region",
            Rule::Span => "Span",
            Rule::Data => "Data",
            Rule::Entry => "Entry",
            Rule::Notify => "Notify",
            Rule::Insn => "Insn",
            Rule::Site => "Site",
            Rule::Load => "Load",
            Rule::Store => "Store",
            Rule::Jump => "Jump",
            Rule::Exit => "Exit",
            Rule::Convert => "Convert",
            Rule::Edge => "Edge",
            Rule::Order => "Order",
            Rule::Unconverted => "Unconverted",
            Rule::Frames => "Frames",
        }
    }
}

ghost use Rattle.std.specs.Prelude.{◌≡◌};
ghost use Rattle.record_names.specs.Rules.{rule_name, rule_in, rule_of};
ghost use Rattle.record_names.specs.Words.{IsWord};
ghost use Rattle.record_names.specs.declared.rule.Rule.{Rule as AnyRule};

/// All rules.
static RULES: [Rule; 17] = [
    Rule::Phase,
    Rule::Region,
    Rule::Span,
    Rule::Data,
    Rule::Entry,
    Rule::Notify,
    Rule::Insn,
    Rule::Site,
    Rule::Load,
    Rule::Store,
    Rule::Jump,
    Rule::Exit,
    Rule::Convert,
    Rule::Edge,
    Rule::Order,
    Rule::Unconverted,
    Rule::Frames,
];

/// The first of some rules with a word.
fn rule_in(rules: &[Rule], word: &str) -> Option<Rule>
    ensures { result ≡ rule_in rules.now word.now }
{
    for rule in rules {
        if rule.name() == word {
            return Some(*rule);
        }
    }
    None
}

/// The rule of a word; None exactly where no rule has it.
#[tactic(auto, unfolding(crate::specs::Rules::rule_of))]
pub fn rule_of(word: &str) -> Option<Rule>
    ensures { result ≡ rule_of word.now }
{
    rule_in(&RULES, word)
}

/// A law: no two rules have one word, so each is read back, and each word is one.
#[tactic(auto, using(crate::proofs::RuleLemmas::rule_back, crate::proofs::RuleLemmas::rule_is_word))]
pub fn rules_read_back()
    ensures back { (rule : AnyRule) → rule_of (rule_name rule) ≡ Some rule }
    ensures words { (rule : AnyRule) → IsWord (rule_name rule) }
{}
