//! The rules of a node over a worked driver, and over changed certificates of it.
use prov_cert::{Cert, read_cert};
use prov_layout::{Class, Piece, every_is_each};
use prov_types::{Kind, Span};
use provenance_check::{
    Ground, PageRights, Rule, are_formed, are_ordered, check_node, regions_end,
};
use std::alloc::{AllocError, Global};
use std::process::Abort;
use std::test::Fail;

/// The words of the driver's code, from the offset 0x1074 of the image on: `count`, `bump` and `moved`.
pub(crate) static CODE: [u32; 29] = [
    0x00001297, 0xf9c28293, 0x0002b283, 0x00028067, 0x00001297, 0xf8428293, 0x0002b283, 0x0002b303,
    0x00a30333, 0x0062b023, 0x00030513, 0x00008067, 0xff010113, 0x00113423, 0x00001297, 0xf5428293,
    0x0002b283, 0x0402b283, 0x00000513, 0x00001597, 0xf4858593, 0x000280e7, 0x00000513, 0x00001597,
    0xf3058593, 0x000280e7, 0x00813083, 0x01010113, 0x00008067,
];

/// The nodes of its certificate.
pub(crate) static NODES: [&str; 29] = [
    "0x1074; ra p 3 0, sp p 1 65536, a0 n; ; 1; ",
    "0x1078; ra p 3 0, sp p 1 65536, a0 n, t0 p 0 0x2074; ; 2; ",
    "0x107c; ra p 3 0, sp p 1 65536, a0 n, t0 p 0 0x2010; ; 3; ",
    "0x1080; ra p 3 0, sp p 1 65536, a0 n, t0 p 0 0x1084; ; 4; ",
    "0x1084; ra p 3 0, sp p 1 65536, a0 n; ; 5; ",
    "0x1088; ra p 3 0, sp p 1 65536, a0 n, t0 p 0 0x2084; ; 6; ",
    "0x108c; ra p 3 0, sp p 1 65536, a0 n, t0 p 0 0x2008; ; 7; ",
    "0x1090; ra p 3 0, sp p 1 65536, a0 n, t0 p 6 0; ; 8; ",
    "0x1094; ra p 3 0, sp p 1 65536, a0 n, t0 p 6 0, t1 n; ; 9; ",
    "0x1098; ra p 3 0, sp p 1 65536, a0 n, t0 p 6 0, t1 n; ; 10; ",
    "0x109c; ra p 3 0, sp p 1 65536, a0 n, t1 n; ; 11; ",
    "0x10a0; ra p 3 0, sp p 1 65536, a0 n; ; ; ",
    "0x10a4; ra p 5 1072, sp p 1 65536; ; 13; ",
    "0x10a8; ra p 5 1072, sp p 1 65520; ; 14; ",
    "0x10ac; sp p 1 65520; 65528 8 p 5 1072; 15; ",
    "0x10b0; sp p 1 65520, t0 p 0 0x20ac; 65528 8 p 5 1072; 16; ",
    "0x10b4; sp p 1 65520, t0 p 0 0x2000; 65528 8 p 5 1072; 17; ",
    "0x10b8; sp p 1 65520, t0 p 4 256; 65528 8 p 5 1072; 18; ",
    "0x10bc; sp p 1 65520, t0 p 5 784; 65528 8 p 5 1072; 19; ",
    "0x10c0; sp p 1 65520, t0 p 5 784, a0 c 0; 65528 8 p 5 1072; 20; ",
    "0x10c4; sp p 1 65520, t0 p 5 784, a0 c 0, a1 p 0 0x20c0; 65528 8 p 5 1072; 21; ",
    "0x10c8; sp p 1 65520, t0 p 5 784, a0 c 0, a1 p 0 0x2008; 65528 8 p 5 1072; 22; ",
    "0x10cc; sp p 1 65520, t0 p 5 784; 65528 8 p 5 1072; 23; 1",
    "0x10d0; sp p 1 65520, t0 p 5 784, a0 c 0; 65528 8 p 5 1072; 24; 1",
    "0x10d4; sp p 1 65520, t0 p 5 784, a0 c 0, a1 p 0 0x20d0; 65528 8 p 5 1072; 25; 1",
    "0x10d8; sp p 1 65520, t0 p 5 784, a0 c 0, a1 p 0 0x2000; 65528 8 p 5 1072; 26; 1",
    "0x10dc; sp p 1 65520, t0 p 5 784; 65528 8 p 5 1072; 27; 0 1",
    "0x10e0; ra p 5 1072, sp p 1 65520; ; 28; 0 1",
    "0x10e4; ra p 5 1072, sp p 1 65536; ; ; 0 1",
];

/// All memory may be read and written.
#[derive(Drop)]
struct Everywhere;

impl PageRights for Everywhere {
    ghost use Rattle.std.specs.Prelude.{true};

    ghost allows = { λ rights kind at. true };

    fn allowed(&self, _at: u64, _len: u64, _write: bool) -> bool {
        every_is_each();
        true
    }
}

/// What is other than in the worked certificate.
#[derive(Clone, Copy, Debug, PartialEq, Eq)]
enum Change {
    Nothing,
    /// One node.
    Node(usize, &'static str),
    /// There is one more cell to be converted.
    ThirdCell,
    /// A call begins at a node.
    Entry(u32),
    /// A HIGH20 site stands on the first instruction.
    Site,
}

/// Changes, and the first node at which a rule fails, with the rule. Each rule of a node fails at least once.
static ROWS: [(Change, Option<(u32, Rule)>); 12] = [
    (Change::Nothing, None),
    (
        Change::Node(0, "0x2000; ra p 3 0, sp p 1 65536, a0 n; ; 1; "),
        Some((0, Rule::Insn)),
    ),
    (Change::Site, Some((0, Rule::Site))),
    (
        Change::Node(2, "0x107c; ra p 3 0, sp p 1 65536, a0 n; ; 3; "),
        Some((2, Rule::Load)),
    ),
    (
        Change::Node(9, "0x1098; ra p 3 0, sp p 1 65536, a0 n, t0 p 6 0; ; 10; "),
        Some((9, Rule::Store)),
    ),
    (
        Change::Node(3, "0x1080; ra p 3 0, sp p 1 65536, a0 n; ; 4; "),
        Some((3, Rule::Jump)),
    ),
    (
        Change::Node(11, "0x10a0; ra p 3 0, a0 n; ; ; "),
        Some((11, Rule::Exit)),
    ),
    (
        Change::Node(
            21,
            "0x10c8; sp p 1 65520, t0 p 5 784, a1 p 0 0x2008; 65528 8 p 5 1072; 22; ",
        ),
        Some((21, Rule::Convert)),
    ),
    (
        Change::Node(4, "0x1084; ra p 3 0, sp p 1 65536, a0 n; ; 6; "),
        Some((4, Rule::Edge)),
    ),
    (
        Change::Node(
            26,
            "0x10dc; sp p 1 65520, t0 p 5 784; 65528 8 p 5 1072; 27; 1",
        ),
        Some((25, Rule::Edge)),
    ),
    (Change::Entry(12), Some((12, Rule::Order))),
    (Change::ThirdCell, Some((28, Rule::Unconverted))),
];

/// Whether there is one more cell.
fn has_third(change: Change) -> bool {
    matches!(change, Change::ThirdCell)
}

/// The text of a node.
fn node_text(change: Change, i: usize, text: &'static str) -> &'static str {
    match change {
        Change::Node(n, other) => { if n == i { other } else { text } }
        _ => text,
    }
}

/// The certificate's text.
fn text_of(alloc: Global, change: Change) -> Result<String, AllocError> {
    let mut text = String::new(alloc);
    text.push_str(
        "regions = [\"0 0x2008 16384\"]\nspans = [\"0 0x2000 8 convert p 4 256\", \"0 0x2008 8 convert p 6 0\"",
    )?;
    text.push_str(if has_third(change) {
        ", \"6 8 8 convert o 6 0\""
    } else {
        ""
    })?;
    text.push_str("]\nentries = []\nnotify = [12]\nnodes = [\n")?;
    for i in 0..NODES.len() {
        text.push_str("\"")?;
        text.push_str(node_text(change, i, NODES[i]))?;
        text.push_str("\",\n")?;
    }
    text.push_str("]\n")?;
    Ok(text)
}

/// The bytes of the image.
fn image_of(alloc: Global) -> Result<Vec<u8>, AllocError> {
    let mut image = Vec::new(alloc);
    image.resize(0x1074, 0)?;
    for word in &CODE {
        image.extend_from_slice(&word.to_le_bytes())?;
    }
    image.resize(0x4000, 0)?;
    Ok(image)
}

const fn piece(region: u8, at: u64, len: u64, class: Class) -> Piece {
    Piece {
        region,
        at,
        len,
        class,
    }
}

const fn address(region: u8, offset: u64) -> Kind {
    Kind::Ptr(
        region,
        Span {
            lo: offset,
            hi: offset,
            by: 1,
        },
    )
}

/// What the certificate lays over the regions.
fn pieces_of(alloc: Global, change: Change) -> Result<Vec<Piece>, AllocError> {
    let mut pieces = Vec::new(alloc);
    pieces.push(piece(0, 0x1074, 116, Class::Code))?;
    pieces.push(piece(0, 0x2000, 8, Class::Convert(address(4, 256), 0)))?;
    pieces.push(piece(0, 0x2008, 8, Class::Convert(address(6, 0), 1)))?;
    pieces.push(piece(0, 0x2010, 8, Class::Fixed(address(0, 0x1084))))?;
    pieces.push(piece(2, 0, 65536, Class::Plain))?;
    pieces.push(piece(4, 88, 8, Class::Fixed(address(4, 256))))?;
    for i in 0..14 {
        pieces.push(piece(4, 280 + 8 * i, 8, Class::Fixed(address(5, 16 * (44 + i)))))?;
    }
    pieces.push(piece(6, 0, 8, Class::Plain))?;
    if has_third(change) {
        let Kind::Ptr(region, span) = address(6, 0) else {
            return Ok(pieces)
        };
        pieces.push(piece(6, 8, 8, Class::Convert(Kind::Opt(region, span), 2)))?;
    }
    Ok(pieces)
}

/// The nodes that are reached from one, where nodes lead to later ones alone.
fn marks_of(alloc: Global, cert: &Cert, start: u32) -> Result<Vec<bool>, AllocError> {
    let mut marks = Vec::new(alloc);
    marks.resize(cert.nodes.len(), false)?;
    if let Some(mark) = marks.get_mut(start as usize) {
        *mark = true;
    }
    for n in 0..cert.nodes.len() {
        if marks.get(n) == Some(&true) {
            for next in &cert.nodes[n].next {
                if let Some(mark) = marks.get_mut(*next as usize) {
                    *mark = true;
                }
            }
        }
    }
    Ok(marks)
}

static STARTS: [u64; 7] = [
    0x40fb8000, 0x40fa0000, 0x40f90000, 0x40f80000, 0x40ffe000, 0x40fff000, 0x40fb3000,
];

static LENS: [u64; 7] = [0x4000, 65536, 65536, 4096, 4096, 4096, 16384];

static SITE: [Piece; 1] = [Piece {
    region: 0,
    at: 0x1074,
    len: 4,
    class: Class::Code,
}];

/// The first node at which a rule fails, with the rule.
fn first_of(rt: &impl Abort, ground: &Ground<'_>) -> Option<(u32, Rule)> {
    assert!(rt; are_formed(ground.nodes));
    assert!(rt; are_ordered(ground.pieces) && are_ordered(ground.sites));
    assert!(rt; regions_end(ground.starts, ground.lens));
    for n in 0..29 {
        if let Some(rule) = check_node(ground, &Everywhere, n) {
            return Some((n, rule));
        }
    }
    None
}

#[test]
fn each_rule_fails_in_its_row(rt: HostRuntime) -> Result<(), Fail> {
    let alloc = rt.alloc();
    let image = image_of(alloc)?;
    for (change, wanted) in &ROWS {
        let change = *change;
        let text = text_of(alloc, change)?;
        let cert = match read_cert(alloc, text.as_bytes()) {
            Ok(cert) => cert,
            Err(fault) => panic!(rt; "{fault:?}"),
        };
        let pieces = pieces_of(alloc, change)?;
        let called = marks_of(
            alloc,
            &cert,
            if let Change::Entry(n) = change { n } else { 0 },
        )?;
        let notified = marks_of(alloc, &cert, 12)?;
        let ground = Ground {
            starts: &STARTS,
            lens: &LENS,
            image: image.as_slice(),
            sites: if matches!(change, Change::Site) {
                SITE.as_slice()
            } else {
                &[]
            },
            pieces: pieces.as_slice(),
            nodes: cert.nodes.as_slice(),
            called: called.as_slice(),
            notified: notified.as_slice(),
            last: notified.as_slice(),
            cells: if has_third(change) { 3 } else { 2 },
        };
        let found = first_of(&rt, &ground);
        assert!(rt; found == *wanted, "{change:?}: {found:?}");
    }
    Ok(())
}
