//! What a guest's call of a service brings, and what it takes back.
#![tactic(auto)]

mod answer;
mod arguments;
mod check;
mod input;
mod output;

pub use answer::Answer;
pub use arguments::{argument, low_word};
pub use check::{can_read, can_read_buffer, can_write, can_write_buffer, number_seen};
pub use input::{can_read_optional, guid_seen, sixteen_seen};
pub use output::{can_write_optional, lacks_output, optional, put_number, put_output};
