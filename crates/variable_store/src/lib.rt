//! UEFI variables, and the store file that keeps them.
#![tactic(auto)]

mod asked;
mod fault;
mod laws;
mod loading;
mod places;
mod reading;
mod refusal;
mod saving;
mod variable;
mod variables;

pub use fault::StoreFault;
pub use laws::{loaded_is_saved, saved_is_loaded};
pub use refusal::VarRefusal;
pub use variable::Variable;
pub use variables::Variables;
