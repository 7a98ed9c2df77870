//! Why boot services don't end.
#![tactic(auto)]

/// Why boot services don't end. Both are EFI_INVALID_PARAMETER (UEFI 2.10, section 7.4.6).
#[derive(Clone, Copy, Debug, PartialEq, Eq, Drop)]
pub enum ExitRefusal {
    /// No loaded image has the handle.
    Unknown,
    /// The key isn't that of the present memory map, which this is.
    Key(u64),
}
