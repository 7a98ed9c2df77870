//! The most bytes that the files of a command have.

/// A script.
pub const SCRIPT_LIMIT: usize = 0x10_0000;

/// Code for `flat`, and an image.
pub const CODE_LIMIT: usize = 0x40_0000;

/// A file of variables.
pub const STORE_LIMIT: usize = 0x2_0000;
