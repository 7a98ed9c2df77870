//! What a certificate lays over the bytes of regions: pieces by their class, what loads of them give, and which stores
//! keep them.
#![tactic(auto)]

mod find;
mod joins;
mod laws;
mod laying;
mod loads;
mod piece;
mod stack;
mod stores;

pub use find::{all_code, piece_at};
pub use joins::join;
pub use laws::{closed_outside, every_is_each, laid_is_ordered};
pub use laying::lay;
pub use loads::{load_kinds, read_kind};
pub use piece::{Class, Piece, Reader, is_cell_among};
pub use stack::{meets, part_kind, stored_kind};
pub use stores::{each_keeps, is_number};
