//! Sites of an image.
#![tactic(auto)]

ghost use Rattle.std.specs.Prelude.{◌≡◌};
ghost use Rattle.base_reloc.specs.Sites.{width_of};

/// What moving an image adds to ("Base Relocation Types").
#[derive(Clone, Copy, Debug, PartialEq, Eq)]
pub enum SiteKind {
    /// An address of 64 bits.
    Dir64,
    /// An address of 32 bits.
    Highlow,
    /// The bits 31 to 12 of a RISC-V instruction, as of LUI.
    High20,
}

/// Bytes that are moved with an image.
#[derive(Clone, Copy, Debug, PartialEq, Eq)]
pub struct Site {
    /// Where they begin in the image.
    pub at: u32,
    pub kind: SiteKind,
}

impl SiteKind {
    /// How many bytes such a site has.
    pub fn width(self) -> usize
        ensures { result ≡ width_of self }
    {
        match self {
            SiteKind::Dir64 => 8,
            SiteKind::Highlow | SiteKind::High20 => 4,
        }
    }
}
