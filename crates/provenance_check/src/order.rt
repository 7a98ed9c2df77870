//! The rules on the order of nodes and on what is converted in the end.
#![tactic(auto)]

ghost use Rattle.std.specs.Prelude.{◌≡◌, ◌==◌};
ghost use Rattle.std.specs.List.{list_any};
ghost use Rattle.prov_layout.specs.Offsets.{every};
ghost use Rattle.provenance_check.specs.Rules.{all_above, first_of, order_rule, tests_behind, unconverted_rule};
ghost use Rattle.provenance_check.specs.Seen.{seen};

use crate::ground::{Ground, is_marked};
use crate::rule::Rule;
use prov_cert::Node;

#[tactic(auto, unfolding(crate::specs::Rules::all_above))]
fn all_above(number: u32, next: &[u32]) -> bool
    ensures { result ≡ all_above number next.now }
{
    for n in next {
        if *n <= number {
            return false;
        }
    }
    true
}

/// A node of a notified function leads to nodes of greater numbers, and no call reaches it.
fn order_rule(ground: &Ground<'_>, number: u32, node: &Node) -> bool
    ensures { result ≡ order_rule (seen ground.now) number node.now }
{
    if is_marked(ground.notified, number) {
        all_above(number, node.next.as_slice()) && !is_marked(ground.called, number)
    } else {
        true
    }
}

/// Whether each of so many cells is among these.
fn has_all(done: &[u32], cells: u32) -> bool
    ensures { result ≡ every (λ cell. list_any (λ c. c == cell) done.now) 0 1 cells }
{
    for cell in 0..cells {
        if !done.contains(&cell) {
            return false;
        }
    }
    true
}

/// Where the last notified function ends each cell is converted.
fn unconverted_rule(ground: &Ground<'_>, number: u32, node: &Node) -> bool
    ensures { result ≡ unconverted_rule (seen ground.now) number node.now }
{
    if is_marked(ground.last, number) && node.next.is_empty() {
        has_all(node.done.as_slice(), ground.cells)
    } else {
        true
    }
}

/// The first rule from `Edge` on that fails, where `edge` says whether that one passes.
#[tactic(auto, unfolding(crate::specs::Rules::first_of))]
pub(crate) fn first_behind(
    ground: &Ground<'_>,
    number: u32,
    node: &Node,
    edge: bool,
) -> Option<Rule>
    ensures { result ≡ first_of (tests_behind (seen ground.now) number node.now edge) }
{
    if !edge {
        return Some(Rule::Edge);
    }
    if !order_rule(ground, number, node) {
        return Some(Rule::Order);
    }
    if !unconverted_rule(ground, number, node) {
        return Some(Rule::Unconverted);
    }
    None
}
