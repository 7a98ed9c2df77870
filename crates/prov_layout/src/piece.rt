//! Pieces of regions.
#![tactic(auto)]

ghost use Rattle.std.specs.Prelude.{◌≡◌};
ghost use Rattle.prov_layout.specs.Pieces.{has_byte, is_code, is_plain, is_open, is_cell_among, is_shut};

use prov_types::Kind;

/// What the bytes of a piece are.
#[derive(Clone, Copy, Debug, PartialEq, Eq, Drop)]
pub enum Class {
    Code,
    /// Bytes that no address stands in.
    Plain,
    /// A number of the kind, of 1, 2, 4 or 8 bytes.
    Number(Kind),
    /// An address that stays where the driver is called, of 8 bytes.
    Fixed(Kind),
    /// An address that the driver converts, of 8 bytes, and the number of its cell.
    Convert(Kind, u32),
}

/// So many bytes of a region.
#[derive(Clone, Copy, Debug, PartialEq, Eq, Drop)]
pub struct Piece {
    pub region: u8,
    pub at: u64,
    pub len: u64,
    pub class: Class,
}

/// What loads: a node of a call, or one of a notified function, and the numbers of the cells that are converted when it
/// is reached.
#[derive(Clone, Copy, Debug, Drop)]
pub struct Reader<'a> {
    pub notified: bool,
    pub done: &'a [u32],
}

/// Whether a piece has the byte of a region at an offset.
pub(crate) fn has_byte(p: &Piece, region: u8, o: u64) -> bool
    ensures { result ≡ has_byte p.now region o }
{
    p.region == region && p.at <= o && o - p.at < p.len
}

pub(crate) fn is_code(class: Class) -> bool
    ensures { result ≡ is_code class }
{
    matches!(class, Class::Code)
}

pub(crate) fn is_plain(class: Class) -> bool
    ensures { result ≡ is_plain class }
{
    matches!(class, Class::Plain)
}

/// Whether a load of any width may read bytes of the class.
pub(crate) fn is_open(class: Class) -> bool
    ensures { result ≡ is_open class }
{
    match class {
        Class::Plain | Class::Number(_) => true,
        _ => false,
    }
}

/// Whether a class is that of one of these convertible cells.
pub fn is_cell_among(done: &[u32], class: Class) -> bool
    ensures { result ≡ is_cell_among done.now class }
{
    match class {
        Class::Convert(_, cell) => done.contains(&cell),
        _ => false,
    }
}

/// Whether what loads may not load a piece.
pub(crate) fn is_shut(reader: &Reader<'_>, p: &Piece) -> bool
    ensures { result ≡ is_shut reader.now.notified reader.now.done.now p.now }
{
    if reader.notified {
        is_cell_among(reader.done, p.class)
    } else {
        p.region == 4
    }
}
