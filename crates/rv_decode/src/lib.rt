//! RV64IMC instructions: decoding, encoding and their text.
#![tactic(auto)]

mod decoder;
mod encoder;
mod fields;
mod formats;
mod immediates;
mod insn;
mod known;
mod laws;
mod ranges;
mod table;
mod text;

pub use decoder::{decode, one_row_holds};
pub use encoder::{encode, fits_exactly};
pub use insn::{Insn, Op};
pub use known::KnownWords;
pub use laws::{
    fields_decide, length_is_of_the_low_bits, lui_field_is_its_immediate, one_row_a_name,
    readings_keep_names, words_are_read_back,
};
