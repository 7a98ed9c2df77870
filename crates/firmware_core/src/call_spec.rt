//! A call of runtime code by the operating system.
use std::marker::Model;
use uh_base::Bytes;

/// Bytes that are written to the operating system's arguments before a call, from an offset on. They end at most at 65,536.
#[derive(Drop)]
pub struct CallBuffer {
    pub offset: u32,
    pub bytes: Bytes,
}

/// A call of runtime code by the operating system.
#[derive(Drop)]
pub struct CallSpec {
    /// The address at which it begins.
    pub pc: u64,
    /// Its arguments, for a0 and on: 8 at most.
    pub args: Vec<u64>,
    pub buffers: Vec<CallBuffer>,
    /// The most steps that it runs.
    pub bound: u64,
}

impl Model for CallSpec {
    ghost use Rattle.firmware_core.specs.CallSpecs.{CallPlain};

    ghost Value = { CallPlain };

    ghost view = { λ c. record { pc = c.pc; args = c.args.items; buffers = c.buffers.items; bound = c.bound } };
}
