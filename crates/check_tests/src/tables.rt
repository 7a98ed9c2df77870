//! The rules on a driver and its certificate as a whole, over a worked driver in RAM, and over changes of both.
#![tactic(auto)]

ghost use Rattle.std.specs.Prelude.{IfOk};
ghost use Rattle.prov_cert.specs.Kept.{IsCert};

use crate::rows::{CODE, NODES};
use address_view::View;
use base_reloc::{Site, SiteKind};
use event_queue::Notify;
use guest_memory::{GuestMemory, PutEnd};
use map_faults::Kept;
use memory_map::Descriptor;
use page_alloc::{Layout, PageMap};
use prov_cert::{Cert, CertFault, certs_keep_forms, read_cert};
use provenance_check::Rule;
use provenance_tables::check_tables;
use std::alloc::{AllocError, Global};
use std::test::Fail;
use virtual_map::RuntimeState;

/// What is other than in the worked driver and its certificate.
#[derive(Clone, Copy, Debug, PartialEq, Eq)]
enum Change {
    Nothing,
    /// Boot services aren't over.
    Early,
    /// A map was made.
    Mapped,
    /// No driver that stays has the handle.
    Handle,
    /// A byte of memory.
    Byte(u64, u8),
    /// The own region.
    Region(&'static str),
    /// A span, by its number; at 5 there is one more.
    Span(usize, &'static str),
    /// The entries, between quotes.
    Entries(&'static str),
    /// The nodes of notified functions.
    Notify(&'static str),
    /// A driver of no functions, whose certificate has no nodes, with these spans.
    Small(&'static str),
}

static SPANS: [&str; 5] = [
    "0 0x1074 116 code",
    "0 0x2000 8 convert p 4 256",
    "0 0x2008 8 convert p 6 0",
    "0 0x2010 8 fixed",
    "6 0 8 plain",
];

/// Changes, and the first rule that fails, with its number. Each rule from `Phase` to `Notify` fails at least once.
static ROWS: [(Change, Option<(Rule, u32)>); 27] = [
    (Change::Nothing, None),
    (Change::Early, Some((Rule::Phase, 0))),
    (Change::Mapped, Some((Rule::Phase, 0))),
    (Change::Handle, Some((Rule::Phase, 0))),
    (Change::Byte(0x40ff_e140, 1), Some((Rule::Region, 4))),
    (Change::Byte(0x40ff_e058, 1), Some((Rule::Region, 4))),
    (Change::Region("0 0x2010 16384"), Some((Rule::Region, 6))),
    (Change::Region("0 0x2008 16385"), Some((Rule::Region, 6))),
    (Change::Byte(0x40fb_a009, 0x40), Some((Rule::Region, 6))),
    (
        Change::Span(5, "6 0xfffffffffffffff8 16 plain"),
        Some((Rule::Span, 5)),
    ),
    (Change::Span(5, "6 4 8 plain"), Some((Rule::Span, 4))),
    (Change::Span(5, "2 0 8 plain"), Some((Rule::Span, 5))),
    (Change::Span(5, "6 16 0 plain"), None),
    (Change::Span(3, "0 0x2010 8 plain"), Some((Rule::Data, 3))),
    (Change::Span(3, "0 0x2018 8 fixed"), Some((Rule::Data, 3))),
    (Change::Byte(0x40fb_a010, 0), Some((Rule::Data, 3))),
    (
        Change::Span(1, "0 0x2000 8 convert p 4 264"),
        Some((Rule::Data, 1)),
    ),
    (Change::Span(5, "6 8 8 num n 1 9 1"), Some((Rule::Data, 5))),
    (
        Change::Span(5, "6 8 8 convert o 6 16384"),
        Some((Rule::Data, 5)),
    ),
    (
        Change::Entries("\"count 0; a0 any\""),
        Some((Rule::Entry, 0)),
    ),
    (
        Change::Entries("\"count 0; a0 n\", \"count 1; a0 n\""),
        Some((Rule::Entry, 1)),
    ),
    (Change::Entries("\"count 0; t0 n\""), Some((Rule::Entry, 0))),
    (Change::Notify("13"), Some((Rule::Notify, 0))),
    (Change::Notify("12, 12"), Some((Rule::Notify, 0))),
    (Change::Notify(""), Some((Rule::Notify, 0))),
    (Change::Small(""), None),
    (
        Change::Small("\"0 8 8 convert o 0 0\""),
        Some((Rule::Notify, 0)),
    ),
];

fn is_small(change: Change) -> bool {
    matches!(change, Change::Small(_))
}

fn region_text(change: Change) -> &'static str {
    match change {
        Change::Region(text) => text,
        _ => "0 0x2008 16384",
    }
}

fn entries_text(change: Change) -> &'static str {
    match change {
        Change::Entries(text) => text,
        _ => "\"count 0; a0 n\"",
    }
}

fn notify_text(change: Change) -> &'static str {
    match change {
        Change::Notify(text) => text,
        _ => "12",
    }
}

fn span_text(change: Change, i: usize, text: &'static str) -> &'static str {
    match change {
        Change::Span(n, other) => { if n == i { other } else { text } }
        _ => text,
    }
}

/// The text of a certificate without functions.
fn small_text(alloc: Global, spans: &'static str) -> Result<String, AllocError> {
    let mut text = String::new(alloc);
    text.push_str("regions = []\nspans = [")?;
    text.push_str(spans)?;
    text.push_str("]\nentries = []\nnotify = []\nnodes = []\n")?;
    Ok(text)
}

fn push_quoted(text: &mut String, item: &'static str) -> Result<(), AllocError> {
    text.push_str("\"")?;
    text.push_str(item)?;
    text.push_str("\",\n")?;
    Ok(())
}

/// The text of the worked certificate, changed.
fn whole_text(alloc: Global, change: Change) -> Result<String, AllocError> {
    let mut text = String::new(alloc);
    text.push_str("regions = [\"")?;
    text.push_str(region_text(change))?;
    text.push_str("\"]\nspans = [\n")?;
    for i in 0..SPANS.len() {
        push_quoted(&mut text, span_text(change, i, SPANS[i]))?;
    }
    if let Change::Span(5, more) = change {
        push_quoted(&mut text, more)?;
    }
    text.push_str("]\nentries = [")?;
    text.push_str(entries_text(change))?;
    text.push_str("]\nnotify = [")?;
    text.push_str(notify_text(change))?;
    text.push_str("]\nnodes = [\n")?;
    for node in &NODES {
        push_quoted(&mut text, *node)?;
    }
    text.push_str("]\n")?;
    Ok(text)
}

fn text_of(alloc: Global, change: Change) -> Result<String, AllocError> {
    match change {
        Change::Small(spans) => small_text(alloc, spans),
        _ => whole_text(alloc, change),
    }
}

/// The certificate of a text.
fn cert_of(alloc: Global, text: &[u8]) -> Result<Cert, CertFault>
    ensures { IfOk result IsCert }
{
    certs_keep_forms();
    match read_cert(alloc, text) {
        Ok(cert) => Ok(cert),
        Err(fault) => Err(fault),
    }
}

fn put_bytes(memory: &mut GuestMemory, at: u64, bytes: &[u8]) -> Result<(), PutEnd> {
    let mut here = at;
    for byte in bytes {
        memory.put(here, *byte)?;
        here = here.wrapping_add(1);
    }
    Ok(())
}

fn put_word(memory: &mut GuestMemory, at: u64, word: u64) -> Result<(), PutEnd> {
    put_bytes(memory, at, &word.to_le_bytes())
}

/// Puts the driver's code and its cells, and the addresses of the firmware's tables and services.
fn put_driver(memory: &mut GuestMemory) -> Result<(), PutEnd> {
    let mut at: u64 = 0x40fb_9074;
    for word in &CODE {
        put_bytes(memory, at, &word.to_le_bytes())?;
        at = at.wrapping_add(4);
    }
    put_word(memory, 0x40fb_a000, 0x40ff_e100)?;
    put_word(memory, 0x40fb_a008, 0x40fb_3000)?;
    put_word(memory, 0x40fb_a010, 0x40fb_9084)?;
    put_word(memory, 0x40ff_e058, 0x40ff_e100)?;
    for i in 0..14 {
        put_word(memory, 0x40ff_e118 + 8 * i, 0x40ff_f000 + 16 * (44 + i))?;
    }
    Ok(())
}

/// Memory with the driver, changed.
fn put_all(memory: &mut GuestMemory, change: Change) -> Result<(), PutEnd> {
    put_driver(memory)?;
    if let Change::Byte(at, byte) = change {
        memory.put(at, byte)?;
    }
    Ok(())
}

const fn runtime_pages(memory_type: u32, start: u64) -> Descriptor {
    Descriptor {
        memory_type,
        start,
        virt: 0,
        pages: 4,
        attribute: 0x8000_0000_0000_0008,
    }
}

fn kept_in(alloc: Global) -> Result<Vec<Kept>, AllocError> {
    let mut sites = Vec::new(alloc);
    sites.push(Site {
        at: 0x2010,
        kind: SiteKind::Dir64,
    })?;
    let mut words = Vec::new(alloc);
    words.push(0x40fb_9084)?;
    let mut same = Vec::new(alloc);
    same.push(false)?;
    let mut kept = Vec::new(alloc);
    kept.push(Kept {
        handle: 32,
        base: 0x40fb_8000,
        pages: 4,
        sites,
        words,
        same,
    })?;
    Ok(kept)
}

fn notifies_in(alloc: Global, change: Change) -> Result<Vec<Notify>, AllocError> {
    let mut notifies = Vec::new(alloc);
    if !is_small(change) {
        notifies.push(Notify {
            event: 24,
            function: 0x40fb_90a4,
            context: 0,
            tpl: 16,
        })?;
    }
    Ok(notifies)
}

/// The state of the machine with a memory behind the end of boot services.
fn state_of(
    alloc: Global,
    change: Change,
    memory: GuestMemory,
) -> Result<RuntimeState, AllocError> {
    let layout = Layout::at(0x40f0_0000, 256);
    let pages = PageMap::new(alloc, &layout)?;
    let view = View::identity(alloc, 0x40f0_0000, 0x10_0000)?;
    let mut descriptors = Vec::new(alloc);
    descriptors.push(runtime_pages(6, 0x40fb_3000))?;
    descriptors.push(runtime_pages(5, 0x40fb_8000))?;
    let kept = kept_in(alloc)?;
    let notifies = notifies_in(alloc, change)?;
    Ok(RuntimeState {
        layout,
        memory,
        pages,
        view,
        descriptors,
        kept,
        notifies,
        gone: !matches!(change, Change::Early),
        mapped: matches!(change, Change::Mapped),
        os_virtual: 0x40fb_c000,
        room: Vec::new(alloc),
    })
}

#[test]
fn each_rule_fails_with_its_number(rt: HostRuntime) -> Result<(), Fail> {
    let alloc = rt.alloc();
    for (change, wanted) in &ROWS {
        let change = *change;
        let text = text_of(alloc, change)?;
        let cert = match cert_of(alloc, text.as_bytes()) {
            Ok(cert) => cert,
            Err(fault) => panic!(rt; "{change:?}: {fault:?}"),
        };
        let mut memory = GuestMemory::new(alloc, 0x40f0_0000, 256)?;
        if put_all(&mut memory, change).is_err() {
            panic!(rt; "{change:?}");
        }
        let state = state_of(alloc, change, memory)?;
        let handle = if matches!(change, Change::Handle) {
            48
        } else {
            32
        };
        let found = check_tables(alloc, &state, handle, &cert)?;
        assert!(rt; found == *wanted, "{change:?}: {found:?}");
    }
    Ok(())
}
