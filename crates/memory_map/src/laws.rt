//! What the memory map comes to. A law is the contract of a function that does nothing.
#![tactic(auto)]

ghost use Rattle.memory_map.specs.Laws.{MapIsMap};

/// The descriptors of any pages leave no gap and do not overlap, neighbours differ in type, and each address in RAM is
/// in one of its page's type.
pub fn map_is_map()
    ensures { MapIsMap }
{}
