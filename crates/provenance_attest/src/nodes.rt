//! The rules of all nodes.
#![tactic(auto)]

ghost use Rattle.std.specs.Prelude.{◌≡◌, ◌<◌, ◌^◌, length};
ghost use Rattle.prov_layout.specs.Pieces.{AreOrdered};
ghost use Rattle.provenance_check.specs.Ground.{AreFormed, End};
ghost use Rattle.provenance_check.specs.Seen.{seen};
ghost use Rattle.provenance_attest.specs.Rules.{first_in_nodes};

use provenance_check::{Ground, PageRights, Rule, check_node};

/// The first rule from `Insn` to `Unconverted` that fails at a node, by ascending nodes, with the node's number.
pub(crate) fn first_in_nodes<R: PageRights>(ground: &Ground<'_>, rights: &R) -> Option<(Rule, u32)>
    requires few { length ground.now.nodes.now < 2 ^ 32 }
    requires formed { AreFormed ground.now.nodes.now }
    requires order { AreOrdered ground.now.pieces.now }
    requires sites { AreOrdered ground.now.sites.now }
    requires end { End ground.now.starts.now ground.now.lens.now }
    ensures { result ≡ first_in_nodes (seen ground.now) (R.allows rights.now) }
{
    for n in 0..ground.nodes.len() {
        if let Some(rule) = check_node(ground, rights, n as u32) {
            return Some((rule, n as u32));
        }
    }
    None
}
