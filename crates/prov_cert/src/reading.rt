//! Reading a certificate.
ghost use Rattle.std.specs.Prelude.{◌≡◌, ◌≤◌, ◌+◌, length, IfSome};
ghost use Rattle.toml.specs.View.{table_view, items_view};
ghost use Rattle.prov_cert.specs.Faults.{Reads};
ghost use Rattle.prov_cert.specs.Reading.{is_convert, cells_in, lists_of, counts_of, with_counts, with_lists, of_lists, cert_in};
ghost use Rattle.prov_cert.specs.Seen.{counts_seen, lists_kept, lists_seen, IsFew};

use crate::cert::{Cert, CertSpan, Class, OwnRegion};
use crate::fault::{CertFault, Part};
use crate::lists::{entries_of, list_field, nodes_of, notify_of, only_keys, regions_of, spans_of};
use crate::parts::Counted;
use std::alloc::Global;
use toml::{Table, Value};

/// The lists of a document.
#[derive(Clone, Copy, Drop)]
struct Lists<'a> {
    regions: &'a [Value],
    spans: &'a [Value],
    entries: &'a [Value],
    notify: &'a [Value],
    nodes: &'a [Value],
}

#[tactic(auto, unfolding(crate::specs::Reading::lists_of))]
fn lists_of(document: &Table) -> Option<Lists<'_>>
    ensures seen { lists_seen result ≡ lists_of (table_view document.now) }
    ensures few { IfSome result (λ lists. IsFew lists) }
{
    if !only_keys(
        document,
        &["regions", "spans", "entries", "notify", "nodes"],
    ) {
        return None;
    }
    let regions = match list_field(document, "regions", 26) {
        None => return None,
        Some(found) => found,
    };
    let spans = match list_field(document, "spans", 4096) {
        None => return None,
        Some(found) => found,
    };
    let entries = match list_field(document, "entries", 64) {
        None => return None,
        Some(found) => found,
    };
    let notify = match list_field(document, "notify", 16) {
        None => return None,
        Some(found) => found,
    };
    match list_field(document, "nodes", 4096) {
        None => None,
        Some(nodes) => Some(Lists {
            regions,
            spans,
            entries,
            notify,
            nodes,
        }),
    }
}

fn is_convert(class: &Class) -> bool
    ensures { result ≡ is_convert class.now }
{
    match class {
        Class::Convert(_) => true,
        _ => false,
    }
}

/// How many spans are convertible cells.
fn cells_in(spans: &[CertSpan]) -> u32
    requires { length spans.now ≤ 4096 }
    ensures value { result ≡ cells_in spans.now }
{
    let mut count = 0;
    for span in spans {
        if is_convert(&span.class) {
            count += 1;
        }
    }
    count
}

/// The entries, notified functions and nodes.
#[tactic(auto, unfolding(crate::specs::Reading::with_counts))]
fn with_counts(
    alloc: Global,
    lists: &Lists<'_>,
    counts: Counted,
    regions: Vec<OwnRegion>,
    spans: Vec<CertSpan>,
) -> Result<Cert, CertFault>
    requires { IsFew lists.now }
    ensures { Reads (λ cert. cert) result (with_counts (lists_kept lists.now) (counts_seen counts) regions.items spans.items) }
{
    let entries = match entries_of(alloc, counts, lists.entries) {
        Ok(entries) => entries,
        Err(fault) => return Err(fault),
    };
    let notify = match notify_of(alloc, counts.nodes, lists.notify) {
        Ok(notify) => notify,
        Err(fault) => return Err(fault),
    };
    match nodes_of(alloc, counts, lists.nodes) {
        Ok(nodes) => Ok(Cert {
            regions,
            spans,
            entries,
            notify,
            nodes,
        }),
        Err(fault) => Err(fault),
    }
}

/// What the numbers in a certificate may name.
#[tactic(auto, using(crate::proofs::Views::length_as_items))]
fn counts_of(lists: &Lists<'_>, regions: &[OwnRegion], spans: &[CertSpan]) -> Counted
    requires few { IsFew lists.now }
    requires regions { length regions.now ≤ 26 }
    requires spans { length spans.now ≤ 4096 }
    ensures { counts_seen result ≡ counts_of (lists_kept lists.now) regions.now spans.now }
{
    Counted {
        regions: (regions.len() + 6) as u8,
        nodes: lists.nodes.len() as u32,
        cells: cells_in(spans),
    }
}

#[tactic(auto, unfolding(crate::specs::Reading::with_lists))]
fn with_lists(alloc: Global, lists: &Lists<'_>) -> Result<Cert, CertFault>
    requires { IsFew lists.now }
    ensures { Reads (λ cert. cert) result (with_lists (lists_kept lists.now)) }
{
    let regions = match regions_of(alloc, lists.regions) {
        Ok(regions) => regions,
        Err(fault) => return Err(fault),
    };
    let spans = match spans_of(alloc, (regions.len() + 6) as u8, lists.spans) {
        Ok(spans) => spans,
        Err(fault) => return Err(fault),
    };
    let counts = counts_of(lists, regions.as_slice(), spans.as_slice());
    with_counts(alloc, lists, counts, regions, spans)
}

fn of_document(alloc: Global, document: &Table) -> Result<Cert, CertFault>
    ensures { Reads (λ cert. cert) result (of_lists (lists_of (table_view document.now))) }
{
    match lists_of(document) {
        Some(lists) => with_lists(alloc, &lists),
        None => Err(CertFault::At {
            part: Part::Keys,
            index: 0,
        }),
    }
}

/// Reads a certificate: the certificate that the bytes say, or the first fault, by the order of `Part` and then by
/// number. docs/certificate.md has the form of each part.
#[tactic(auto, unfolding(crate::specs::Reading::cert_in))]
pub fn read_cert(alloc: Global, bytes: &[u8]) -> Result<Cert, CertFault>
    ensures { Reads (λ cert. cert) result (cert_in bytes.now) }
{
    match toml::table_from_slice(alloc, bytes) {
        Ok(table) => of_document(alloc, &table),
        Err(error) => {
            if error.is_memory() {
                Err(CertFault::Memory)
            } else {
                Err(CertFault::At {
                    part: Part::Text,
                    index: 0,
                })
            }
        }
    }
}
