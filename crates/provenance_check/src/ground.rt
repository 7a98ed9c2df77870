//! What a certificate is judged over.
#![tactic(auto)]

ghost use Rattle.std.specs.Prelude.{◌≡◌, ◌+◌, ◌<◌, ◌^◌, ℕ, Bool, if◌then◌else◌, slice_index, slice_index_or, false};
ghost use Rattle.rv_step.specs.declared.bus.Access.{Access as Kind};
ghost use Rattle.rv_step.specs.declared.bus.Access.TheVariants as access;
ghost use Rattle.prov_layout.specs.Offsets.{every};
ghost use Rattle.provenance_check.specs.Rules.{is_marked};

use prov_cert::Node;
use prov_layout::Piece;

/// The rights to pages of memory.
pub trait PageRights {
    /// Which accesses an address allows.
    ghost allows: { Self → Kind → ℕ → Bool };

    /// Whether each of so many bytes from an address on may be read, or written where `write` is true.
    fn allowed(&self, at: u64, len: u64, write: bool) -> bool
        requires { at + len < 2 ^ 64 }
        ensures { result ≡ every (allows self.now (if write then access.Store else access.Load)) at 1 len };
}

/// What a certificate is judged over: where the regions are, the bytes of the image, and what the certificate lays over
/// them.
#[derive(Clone, Copy, Drop)]
pub struct Ground<'a> {
    /// Where each region begins, by its number.
    pub starts: &'a [u64],
    /// How long each region is, in bytes.
    pub lens: &'a [u64],
    /// The bytes of region 0, the image.
    pub image: &'a [u8],
    /// The HIGH20 sites of the image as pieces of 4 bytes of region 0, in the order of their offsets: fixed ones hold the
    /// upper part of the address of an offset of the image; those of another class hold another word than the one that was
    /// loaded.
    pub sites: &'a [Piece],
    /// What is laid over the regions, in the order of their places.
    pub pieces: &'a [Piece],
    pub nodes: &'a [Node],
    /// Which nodes are reached from an entry.
    pub called: &'a [bool],
    /// Which nodes are reached from a notified function.
    pub notified: &'a [bool],
    /// Which nodes are reached from the last notified function.
    pub last: &'a [bool],
    /// How many convertible cells there are.
    pub cells: u32,
}

/// What stands at a region's number, 0 where nothing does.
pub(crate) fn of_region(numbers: &[u64], region: u8) -> u64
    ensures { result ≡ slice_index numbers.now region }
{
    let r = region as usize;
    if r < numbers.len() { numbers[r] } else { 0 }
}

/// Whether a node has a mark.
pub(crate) fn is_marked(marks: &[bool], number: u32) -> bool
    ensures { result ≡ is_marked marks.now number }
{
    let n = number as usize;
    if n < marks.len() { marks[n] } else { false }
}
