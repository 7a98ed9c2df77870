//! The five lists of a certificate.
ghost use Rattle.std.specs.Prelude.{◌≡◌, ◌≤◌, ◌<◌, ◌^◌, ◌+◌, [], map, option_map, length, vec_len, IfOk, IfSome};
ghost use Rattle.toml.specs.Data.{get_member};
ghost use Rattle.toml.specs.View.{table_view, view, items_view};
ghost use Rattle.prov_cert.specs.declared.fault.Part.TheVariants as parts;
ghost use Rattle.prov_cert.specs.declared.fault.CertFault.TheVariants.{At};
ghost use Rattle.prov_cert.specs.Faults.{Reads};
ghost use Rattle.prov_cert.specs.Reading.{is_among, only_keys, at_most, list_field, region_in, node_number, region_at, span_at, entry_at, notify_at, node_at, items_of};
ghost use Rattle.prov_cert.specs.Seen.{counts_seen, items_seen};

use crate::cert::{CertEntry, CertSpan, Node, OwnRegion};
use crate::fault::{CertFault, Part};
use crate::forms::{region_of, span_of};
use crate::parts::{Counted, entry_of, node_of};
use std::alloc::{AllocError, Global};
use toml::{Table, Value};

fn is_among(words: &[&str], key: &str) -> bool
    ensures { result ≡ is_among (map (λ word. word.now) words.now) key.now }
{
    for word in words {
        if *word == key {
            return true;
        }
    }
    false
}

/// Whether each key is one of these.
#[tactic(auto, unfolding(crate::specs::Reading::only_keys))]
pub(crate) fn only_keys(table: &Table, words: &[&str]) -> bool
    ensures { result ≡ only_keys (map (λ word. word.now) words.now) (table_view table.now) }
{
    for (key, _) in table {
        if !is_among(words, key.as_str()) {
            return false;
        }
    }
    true
}

fn find<'a>(table: &'a Table, key: &str) -> Option<&'a Value>
    ensures { option_map (λ v. view v.now) result ≡ get_member key.now (table_view table.now) }
{
    table.get(key)
}

/// Values of which there are at most so many.
#[tactic(auto, using(crate::proofs::Views::length_as_items))]
fn at_most(values: &[Value], most: usize) -> Option<&[Value]>
    ensures seen { items_seen result ≡ at_most most (items_view values.now) }
    ensures few { IfSome result (λ kept. length kept.now ≤ most) }
{
    if values.len() > most {
        None
    } else {
        Some(values)
    }
}

/// The list of at most so many items at a key.
#[tactic(auto, unfolding(crate::specs::Reading::list_field))]
pub(crate) fn list_field<'a>(table: &'a Table, key: &str, most: usize) -> Option<&'a [Value]>
    ensures seen { items_seen result ≡ list_field key.now most (table_view table.now) }
    ensures few { IfSome result (λ values. length values.now ≤ most) }
{
    match find(table, key) {
        Some(Value::Array(values)) => at_most(values.as_slice(), most),
        _ => None,
    }
}

#[tactic(auto, unfolding(crate::specs::Reading::region_in))]
fn region_at(own: usize, value: &Value) -> Option<OwnRegion>
    requires { own ≤ 26 }
    ensures { result ≡ region_in (6 + own) (view value.now) }
{
    match value.as_str() {
        None => None,
        Some(text) => region_of((own + 6) as u8, text),
    }
}

#[tactic(auto, unfolding(crate::specs::Reading::span_at))]
fn span_at(regions: u8, value: &Value) -> Option<CertSpan>
    ensures { result ≡ span_at regions [] (view value.now) }
{
    match value.as_str() {
        None => None,
        Some(text) => span_of(regions, text),
    }
}

#[tactic(auto, unfolding(crate::specs::Reading::entry_at))]
fn entry_at(alloc: Global, counts: Counted, value: &Value) -> Result<Option<CertEntry>, AllocError>
    ensures { IfOk result (λ o. o ≡ entry_at (counts_seen counts) [] (view value.now)) }
{
    match value.as_str() {
        None => Ok(None),
        Some(text) => entry_of(alloc, counts, text),
    }
}

#[tactic(auto, unfolding(crate::specs::Reading::node_at))]
fn node_at(alloc: Global, counts: Counted, value: &Value) -> Result<Option<Node>, AllocError>
    ensures { IfOk result (λ o. o ≡ node_at (counts_seen counts) [] (view value.now)) }
{
    match value.as_str() {
        None => Ok(None),
        Some(text) => node_of(alloc, counts, text),
    }
}

fn notify_at(nodes: u32, value: &Value) -> Option<u32>
    ensures { result ≡ node_number nodes (view value.now) }
{
    match value {
        Value::Integer(n) => {
            if *n >= 0 && *n < i64::from(nodes) {
                Some(*n as u32)
            } else {
                None
            }
        }
        _ => None,
    }
}

fn fault_at(part: Part, index: usize) -> CertFault
    requires { index < 2 ^ 32 }
    ensures { result ≡ At part index }
{
    CertFault::At {
        part,
        index: index as u32,
    }
}

/// The own regions.
pub(crate) fn regions_of(alloc: Global, values: &[Value]) -> Result<Vec<OwnRegion>, CertFault>
    requires { length values.now ≤ 26 }
    ensures few { IfOk result (λ v. vec_len v ≤ 26) }
    ensures read { Reads (λ v. v.items) result (items_of parts.Regions region_at [] (items_view values.now)) }
{
    let mut regions: Vec<OwnRegion> = Vec::new(alloc);
    for value in values {
        match region_at(regions.len(), value) {
            None => return Err(fault_at(Part::Regions, regions.len())),
            Some(region) => match regions.push(region) {
                Ok(()) => {}
                Err(_) => return Err(CertFault::Memory),
            },
        }
    }
    Ok(regions)
}

/// The spans, where there are so many regions.
pub(crate) fn spans_of(
    alloc: Global,
    regions: u8,
    values: &[Value],
) -> Result<Vec<CertSpan>, CertFault>
    requires { length values.now ≤ 4096 }
    ensures few { IfOk result (λ v. vec_len v ≤ 4096) }
    ensures read { Reads (λ v. v.items) result (items_of parts.Spans (span_at regions) [] (items_view values.now)) }
{
    let mut spans: Vec<CertSpan> = Vec::new(alloc);
    for value in values {
        match span_at(regions, value) {
            None => return Err(fault_at(Part::Spans, spans.len())),
            Some(span) => match spans.push(span) {
                Ok(()) => {}
                Err(_) => return Err(CertFault::Memory),
            },
        }
    }
    Ok(spans)
}

/// The entries.
pub(crate) fn entries_of(
    alloc: Global,
    counts: Counted,
    values: &[Value],
) -> Result<Vec<CertEntry>, CertFault>
    requires { length values.now ≤ 64 }
    ensures { Reads (λ v. v.items) result (items_of parts.Entries (entry_at (counts_seen counts)) [] (items_view values.now)) }
{
    let mut entries: Vec<CertEntry> = Vec::new(alloc);
    for value in values {
        match entry_at(alloc, counts, value) {
            Err(_) => return Err(CertFault::Memory),
            Ok(None) => return Err(fault_at(Part::Entries, entries.len())),
            Ok(Some(entry)) => match entries.push(entry) {
                Ok(()) => {}
                Err(_) => return Err(CertFault::Memory),
            },
        }
    }
    Ok(entries)
}

/// The first nodes of the notified functions.
pub(crate) fn notify_of(alloc: Global, nodes: u32, values: &[Value]) -> Result<Vec<u32>, CertFault>
    requires { length values.now ≤ 16 }
    ensures { Reads (λ v. v.items) result (items_of parts.Notify (notify_at nodes) [] (items_view values.now)) }
{
    let mut notify: Vec<u32> = Vec::new(alloc);
    for value in values {
        match notify_at(nodes, value) {
            None => return Err(fault_at(Part::Notify, notify.len())),
            Some(node) => match notify.push(node) {
                Ok(()) => {}
                Err(_) => return Err(CertFault::Memory),
            },
        }
    }
    Ok(notify)
}

/// The nodes.
pub(crate) fn nodes_of(
    alloc: Global,
    counts: Counted,
    values: &[Value],
) -> Result<Vec<Node>, CertFault>
    requires { length values.now ≤ 4096 }
    ensures { Reads (λ v. v.items) result (items_of parts.Nodes (node_at (counts_seen counts)) [] (items_view values.now)) }
{
    let mut nodes: Vec<Node> = Vec::new(alloc);
    for value in values {
        match node_at(alloc, counts, value) {
            Err(_) => return Err(CertFault::Memory),
            Ok(None) => return Err(fault_at(Part::Nodes, nodes.len())),
            Ok(Some(node)) => match nodes.push(node) {
                Ok(()) => {}
                Err(_) => return Err(CertFault::Memory),
            },
        }
    }
    Ok(nodes)
}
