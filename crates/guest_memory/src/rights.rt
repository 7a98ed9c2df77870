//! What a page allows, and why nothing was put.
#![tactic(auto)]

/// What a page allows.
#[derive(Clone, Copy, Debug, PartialEq, Eq, Drop)]
pub struct Rights {
    /// Its bytes may be loaded.
    pub read: bool,
    /// Its bytes may be stored to.
    pub write: bool,
    /// Instructions may be fetched from it.
    pub exec: bool,
}

/// Why nothing was put.
#[derive(Clone, Copy, Debug, PartialEq, Eq, Drop)]
pub enum PutEnd {
    /// The address or a page isn't in memory.
    Outside,
    /// More than 65,536 pages would be touched.
    Frames,
    /// The host lacks memory for a page that isn't touched yet.
    Memory,
}
