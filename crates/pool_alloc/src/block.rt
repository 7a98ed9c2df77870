//! Blocks of the pool.
#![tactic(auto)]

ghost use Rattle.std.specs.Prelude.{◌≡◌, ◌≤◌, ◌+◌, ◌==◌, ◌^◌};
ghost use Rattle.pool_alloc.specs.Blocks.{rounded, pages_for};

/// A block on a page of the pool, or on pages of its own.
#[derive(Clone, Copy, Debug, PartialEq, Eq, Drop)]
pub struct Block {
    /// Where it begins, in bytes from the start of its page. It is a multiple of 8.
    pub offset: u64,
    /// How many bytes it has, a multiple of 8.
    pub size: u64,
}

impl Block {
    /// Whether the block begins at an address, on a page that begins at another.
    pub fn begins_at(&self, start: u64, at: u64) -> bool
        ensures { result ≡ (start + self.now.offset == at) }
    {
        at >= start && at - start == self.offset
    }
}

/// A size rounded up to a multiple of 8, and 0 to 8.
pub fn rounded(size: u64) -> u64
    requires { size ≤ 2 ^ 63 }
    ensures { result ≡ rounded size }
{
    if size == 0 { 8 } else { (size + 7) / 8 * 8 }
}

/// How many pages of 4,096 bytes so many bytes need.
pub fn pages_for(size: u64) -> u64
    ensures { result ≡ pages_for size }
{
    if size % 4096 == 0 {
        size / 4096
    } else {
        size / 4096 + 1
    }
}
