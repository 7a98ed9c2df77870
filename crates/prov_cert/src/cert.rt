//! What a certificate holds.
use prov_types::Kind;
use std::marker::Model;
use uh_base::Text;

/// A region of the driver's own: so many bytes from the address on that stands in a cell. Regions 0 to 5 are the image,
/// the OS stack, the OS arguments, the OS return page, the system page and the slot page; own regions follow from 6.
#[derive(Clone, Copy, Debug, PartialEq, Eq, Drop)]
pub struct OwnRegion {
    /// The region of the cell, one of a lower number.
    pub cell_region: u8,
    pub cell_at: u64,
    pub len: u64,
}

/// What the bytes of a span are.
#[derive(Clone, Copy, Debug, PartialEq, Eq, Drop)]
pub enum Class {
    Code,
    /// Bytes that no address stands in.
    Plain,
    /// A number of the kind, of 1, 2, 4 or 8 bytes.
    Num(Kind),
    /// An address that relocation moves, of 8 bytes.
    Fixed,
    /// An address that the driver converts, of 8 bytes.
    Convert(Kind),
}

/// A stretch of a region.
#[derive(Clone, Copy, Debug, PartialEq, Eq, Drop)]
pub struct CertSpan {
    pub region: u8,
    pub at: u64,
    pub len: u64,
    pub class: Class,
}

/// A register, by its number, and its kind.
#[derive(Clone, Copy, Debug, PartialEq, Eq, Drop)]
pub struct RegKind {
    pub reg: u8,
    pub kind: Kind,
}

/// A number of 1, 2, 4 or 8 bytes on the stack, at a multiple of its width.
#[derive(Clone, Copy, Debug, PartialEq, Eq, Drop)]
pub struct StackPart {
    pub at: u64,
    pub width: u8,
    pub kind: Kind,
}

/// A function that the OS may call: its name, its first node, and the kinds of its arguments.
#[derive(Drop)]
pub struct CertEntry {
    pub name: Text,
    pub node: u32,
    pub arg_kinds: Vec<RegKind>,
}

impl Model for CertEntry {
    ghost use Rattle.prov_cert.specs.Cert.{Entry};

    ghost Value = { Entry };

    ghost view = { λ e. record { name = e.name; node = e.node; arg_kinds = e.arg_kinds.items } };
}

/// What holds before the instruction at an offset of the image. A register that isn't named holds anything.
#[derive(Drop)]
pub struct Node {
    pub at: u64,
    pub regs: Vec<RegKind>,
    pub stack: Vec<StackPart>,
    /// The nodes that may come next.
    pub next: Vec<u32>,
    /// The convertible cells that are converted here.
    pub done: Vec<u32>,
}

impl Model for Node {
    ghost use Rattle.prov_cert.specs.Cert.{Node as NodePlain};

    ghost Value = { NodePlain };

    ghost view = { λ n. record { at = n.at; regs = n.regs.items; stack = n.stack.items; next = n.next.items; done = n.done.items } };
}

/// A certificate of a driver.
#[derive(Drop)]
pub struct Cert {
    /// At most 26.
    pub regions: Vec<OwnRegion>,
    /// At most 4,096.
    pub spans: Vec<CertSpan>,
    /// At most 64.
    pub entries: Vec<CertEntry>,
    /// The first node of each notified function, in order; at most 16.
    pub notify: Vec<u32>,
    /// At most 4,096.
    pub nodes: Vec<Node>,
}

impl Model for Cert {
    ghost use Rattle.prov_cert.specs.Cert.{Plain};

    ghost Value = { Plain };

    ghost view = { λ c. record { regions = c.regions.items; spans = c.spans.items; entries = c.entries.items; notify = c.notify.items; nodes = c.nodes.items } };
}
