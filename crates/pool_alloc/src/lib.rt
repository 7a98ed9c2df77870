//! The pool: small blocks of guest memory.
#![tactic(auto)]

mod block;
mod laws;
mod page;
mod pool;
mod refusal;
mod span;

pub use block::Block;
pub use laws::{lowest_is_lowest, pool_is_apart, pool_leaves_others, pool_stays_together};
pub use pool::Pool;
pub use refusal::PoolRefusal;
pub use span::PageSpan;
