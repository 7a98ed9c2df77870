//! What the calls of a guest bring.

use address_view::View;
use guest_call::{can_write, put_number};
use guest_memory::GuestMemory;
use std::alloc::{AllocError, Global};

/// 256 pages from 0x100000 on.
pub fn fresh(alloc: Global) -> Result<GuestMemory, AllocError> {
    GuestMemory::new(alloc, 0x100000, 256)
}

/// Those pages as they lie.
pub fn plain(alloc: Global) -> Result<View, AllocError> {
    View::identity(alloc, 0x100000, 0x100000)
}

/// The registers of a call with these arguments.
pub fn call(arguments: [u64; 6]) -> [u64; 32] {
    let [a0, a1, a2, a3, a4, a5] = arguments;
    let mut registers = [0; 32];
    registers[10] = a0;
    registers[11] = a1;
    registers[12] = a2;
    registers[13] = a3;
    registers[14] = a4;
    registers[15] = a5;
    registers
}

/// Puts a number of 8 bytes where it may be put.
pub fn put(memory: &mut GuestMemory, view: &View, at: u64, value: u64) -> bool {
    can_write(memory, view, at, 8) && put_number(memory, view, at, 8, value).is_ok()
}
