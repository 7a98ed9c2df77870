//! The rule of notified functions.
#![tactic(auto)]

ghost use Rattle.std.specs.Prelude.{◌≡◌, ◌<◌, ◌^◌, ◌&&◌, ◌==◌, ◌||◌, Some, length, not, slice_get};
ghost use Rattle.std.specs.List.{list_any};
ghost use Rattle.provenance_check.specs.Entries.{first_from};
ghost use Rattle.provenance_check.specs.Ground.{AreFormed, IsFormed};
ghost use Rattle.provenance_tables.specs.Tables.{begins_well, follows, has_convert, marks_before, notify_number, notify_passes};

use crate::regions::is_convert;
use event_queue::Notify;
use map_faults::Kept;
use prov_cert::{Cert, CertSpan, Node};
use provenance_check::{Marks, begins_notified, exits_leave, first_is_first};

/// Whether just the cells that the function before leaves converted are so, none for the first.
fn follows(nodes: &[Node], marks: &[Marks], i: usize, done: &[u32]) -> bool
    requires { length nodes.now < 2 ^ 32 }
    ensures { result ≡ follows nodes.now marks.now i done.now (marks_before marks.now i) }
{
    if i == 0 || i - 1 >= marks.len() {
        return done.is_empty();
    }
    exits_leave(nodes, marks[i - 1].as_slice(), done)
}

/// Whether a function begins at a node, and what holds there serves it.
fn begins_well(
    image: &Kept,
    starts: &[u64],
    lens: &[u64],
    nodes: &[Node],
    marks: &[Marks],
    i: usize,
    node: &Node,
    f: &Notify,
) -> bool
    requires few { length nodes.now < 2 ^ 32 }
    requires regions { length starts.now < 256 }
    requires node { IsFormed node.now }
    ensures { result ≡ begins_well image.now starts.now lens.now nodes.now marks.now i (Some node.now) (Some f.now) }
{
    f.function >= image.base
        && f.function - image.base == node.at
        && begins_notified(starts, lens, f.context, node)
        && follows(nodes, marks, i, node.done.as_slice())
}

/// Whether a function passes its rule.
fn notify_passes(
    image: &Kept,
    starts: &[u64],
    lens: &[u64],
    functions: &[Notify],
    nodes: &[Node],
    notify: &[u32],
    marks: &[Marks],
    i: usize,
) -> bool
    requires inside { i < length notify.now }
    requires few { length nodes.now < 2 ^ 32 }
    requires regions { length starts.now < 256 }
    requires formed { AreFormed nodes.now }
    ensures { result ≡ notify_passes image.now starts.now lens.now functions.now nodes.now notify.now marks.now i }
{
    let n = notify[i] as usize;
    if n < nodes.len() && i < functions.len() {
        begins_well(
            image,
            starts,
            lens,
            nodes,
            marks,
            i,
            &nodes[n],
            &functions[i],
        )
    } else {
        false
    }
}

fn has_convert(spans: &[CertSpan]) -> bool
    ensures { result ≡ has_convert spans.now }
{
    spans.iter().any(|s| is_convert(s.class))
}

/// The number of the first function that fails its rule.
fn first_function(
    image: &Kept,
    starts: &[u64],
    lens: &[u64],
    functions: &[Notify],
    nodes: &[Node],
    notify: &[u32],
    marks: &[Marks],
) -> Option<u32>
    requires few { length nodes.now < 2 ^ 32 }
    requires functions { length notify.now < 2 ^ 32 }
    requires regions { length starts.now < 256 }
    requires formed { AreFormed nodes.now }
    ensures { result ≡ first_from (notify_passes image.now starts.now lens.now functions.now nodes.now notify.now marks.now) 0 (length notify.now) }
{
    first_is_first();
    for i in 0..notify.len() {
        if !notify_passes(image, starts, lens, functions, nodes, notify, marks, i) {
            return Some(i as u32);
        }
    }
    None
}

/// The number at which the rule `Notify` fails: 0 where the functions are others than those of the certificate, or a cell
/// is to be converted and there is none.
#[tactic(auto, unfolding(crate::specs::Tables::notify_number))]
pub(crate) fn check_notified(
    image: &Kept,
    starts: &[u64],
    lens: &[u64],
    functions: &[Notify],
    cert: &Cert,
    marks: &[Marks],
) -> Option<u32>
    requires few { length cert.now.nodes < 2 ^ 32 }
    requires functions { length cert.now.notify < 2 ^ 32 }
    requires regions { length starts.now < 256 }
    requires formed { AreFormed cert.now.nodes }
    ensures { result ≡ notify_number image.now starts.now lens.now functions.now cert.now marks.now }
{
    if cert.notify.len() != functions.len()
        || has_convert(cert.spans.as_slice()) && functions.is_empty()
    {
        return Some(0);
    }
    first_function(
        image,
        starts,
        lens,
        functions,
        cert.nodes.as_slice(),
        cert.notify.as_slice(),
        marks,
    )
}
