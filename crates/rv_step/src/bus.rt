//! What an instruction reads and writes through.
#![tactic(auto)]

ghost use Rattle.std.specs.Prelude.{◌≡◌, ℕ, Bool, IsTrue, IfSome, OnOk, OnErr};
ghost use Rattle.rv_step.specs.declared.bus.Access.{Access};
ghost use Rattle.uh_base.specs.Bytes.{is_width, first_refused, loaded, with_number};
ghost use Rattle.rv_step.specs.Stores.{StoreEnds, StoredIn};
ghost use Rattle.rv_step.specs.Exec.{AreHalves};

/// What an access is for: it asks for the right to read, to write or to execute.
#[derive(Clone, Copy, Debug, PartialEq, Eq, Drop)]
pub enum Access {
    Load,
    Store,
    Fetch,
}

/// Why nothing was stored.
#[derive(Clone, Copy, Debug, PartialEq, Eq, Drop)]
pub enum BusEnd {
    /// The first address that may not be written.
    Outside(u64),
    /// The store takes more frames than there are.
    Frames,
    /// No memory for the store.
    Memory,
}

/// What a hart reads and writes through: a byte at each address, modulo 2^64, and rights to it. An access has 1, 2, 4 or 8
/// bytes, the least first, at any address; each of its bytes needs the right. (RISC-V unprivileged manual, version
/// 20191213, 1.4 and 2.6)
pub trait Bus {
    /// The byte at each address.
    ghost bytes: { Self → ℕ → ℕ };
    /// Which accesses an address allows.
    ghost allows: { Self → Access → ℕ → Bool };
    /// Which stores, by their address and width, take more frames than there are.
    ghost lacks_frames: { Self → ℕ → ℕ → Bool };
    /// Which stores take no memory.
    ghost takes_no_memory: { Self → ℕ → ℕ → Bool };

    /// What stores change, as a whole.
    type Content;

    ghost content: { Self → Self.Content };
    /// The content after a store of a number of so many bytes at an address.
    ghost after: { Self → ℕ → ℕ → ℕ → Self.Content };
    /// Whether a content is as before but for what a guest can't see, as which pages have a frame. So much alone is kept
    /// where memory was lacking.
    ghost kept: { Self.Content → Self.Content → Type 0 };
    /// What no call changes, as the reference of a bus that borrows its memory.
    ghost same: { Self → Self → Type 0 };

    ghost same_self: { (a : Self) → same a a };

    /// The number at an address, or the first address that can't be read.
    fn load(&self, at: u64, width: u8) -> Result<u64, u64>
        requires { IsTrue (is_width width) }
        ensures { result ≡ loaded (bytes self.now) (allows self.now Access.Load) at width };

    /// Stores a number, or changes nothing.
    fn store(&mut self, at: u64, width: u8, value: u64) -> Result<(), BusEnd>
        requires { IsTrue (is_width width) }
        ensures ok { OnOk result (bytes self.new ≡ with_number (bytes self.old) at width value) }
        ensures err { OnErr result (bytes self.new ≡ bytes self.old) }
        ensures same { same self.old self.new }
        ensures content { StoredIn kept result (content self.old) (after self.old at width value) (content self.new) }
        ensures rights { allows self.new ≡ allows self.old }
        ensures end { StoreEnds result (first_refused (allows self.old Access.Store) at width)
            (lacks_frames self.old at width) (takes_no_memory self.old at width) };

    /// The half of an instruction at an address, or the first address that can't be fetched from.
    fn fetch(&self, at: u64) -> Result<u16, u64>
        ensures { result ≡ loaded (bytes self.now) (allows self.now Access.Fetch) at 2 };

    /// Both halves of an instruction of 32 bits at an address, where one look finds them. None says nothing.
    fn fetch_both(&self, at: u64) -> Option<(u16, u16)>
        ensures { IfSome result (AreHalves (bytes self.now) (allows self.now Access.Fetch) at) };
}
