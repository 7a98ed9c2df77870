//! Limits of what the host takes.

/// The most bytes of an image's file, and of code that runs without firmware: 4 MiB.
pub const CODE_LIMIT: usize = 0x40_0000;

/// The most pages of memory that are touched.
pub const FRAME_LIMIT: u32 = 65536;
