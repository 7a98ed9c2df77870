//! One frame.
#![tactic(auto)]

ghost use Rattle.std.specs.Prelude.{◌≡◌, ◌<◌, ◌≤◌, ◌+◌, ◌^◌, IfOk, length, slice_set};
ghost use Rattle.frame_arena.specs.Frames.{IsFrame, zeros, link, written_over};

use std::alloc::{AllocError, Global};
use std::marker::Model;

/// The bytes of a frame.
const FRAME: usize = 4096;

/// 4,096 bytes of memory, which one request had.
#[derive(Drop)]
pub(crate) struct Frame {
    bytes: Box<[u8; FRAME]>,
}

impl Model for Frame {
    ghost use Rattle.std.specs.Prelude.{ℕ, List};
    ghost use Rattle.frame_arena.specs.Frames.{IsFrame};

    ghost Value = { List ℕ };

    ghost view = { λ f. f.bytes.value };

    ghost invariant = { λ f. IsFrame f.bytes.value };
}

impl Frame {
    /// Zeros, in memory that is requested here.
    pub(crate) fn new(alloc: Global) -> Result<Frame, AllocError>
        ensures { IfOk result (λ f. f ≡ zeros) }
    {
        Ok(Frame {
            bytes: Box::new(alloc, [0; FRAME])?,
        })
    }

    /// All its bytes, in order.
    #[inline(always)]
    pub(crate) fn bytes(&self) -> &[u8]
        ensures value { result.now ≡ self.now }
        ensures whole { IsFrame self.now }
    {
        self.bytes.as_slice()
    }

    /// Stores a byte at an index.
    #[inline(always)]
    pub(crate) fn store(&mut self, at: usize, byte: u8)
        requires { at < 4096 }
        ensures value { self.new ≡ slice_set self.old at byte }
        ensures whole { IsFrame self.new }
    {
        self.bytes[at] = byte;
    }

    /// Writes bytes from an index on.
    #[inline(always)]
    pub(crate) fn write(&mut self, at: usize, bytes: &[u8])
        requires { at + length bytes.now ≤ 4096 }
        ensures value { self.new ≡ written_over self.old at bytes.now }
        ensures whole { IsFrame self.new }
    {
        self.bytes[at..at + bytes.len()].copy_from_slice(bytes);
    }

    /// Copies all bytes of another frame.
    pub(crate) fn copy(&mut self, bytes: &[u8])
        requires { length bytes.now ≡ 4096 }
        ensures value { self.new ≡ bytes.now }
        ensures whole { IsFrame self.new }
    {
        self.bytes.copy_from_slice(bytes);
    }

    /// Makes all its bytes zeros.
    pub(crate) fn clear(&mut self)
        ensures { self.new ≡ zeros }
    {
        self.copy(&[0; FRAME]);
    }

    /// What the first eight bytes link to.
    pub(crate) fn link(&self) -> u64
        ensures { result ≡ link self.now }
    {
        let [a, b, c, d, e, f, g, h, ..] = *self.bytes;
        u64::from_le_bytes([a, b, c, d, e, f, g, h])
    }

    /// Makes the first eight bytes link to a number, the least byte first.
    pub(crate) fn set_link(&mut self, to: u64)
        ensures value { link self.new ≡ to }
        ensures whole { IsFrame self.new }
    {
        self.write(0, &to.to_le_bytes());
    }
}
