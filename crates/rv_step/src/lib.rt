//! RV64IMC instructions carried out over a bus, one at a time.
#![tactic(auto)]

mod ask;
mod bus;
mod ends;
mod hart;
mod laws;
mod perform;
mod regs;
mod values;

pub use ask::{Ask, asked};
pub use bus::{Access, Bus, BusEnd};
pub use ends::{StepEnd, Trap};
pub use hart::{step, step_fetched, step_known};
pub use laws::{
    asks_are_fit, asks_fit, bits_fit, division_holds, other_bytes_stay, stored_is_loaded,
    stores_its_bytes,
};
pub use regs::Regs;
