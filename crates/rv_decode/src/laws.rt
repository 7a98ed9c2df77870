//! Laws of the table's patterns.
#![tactic(auto)]

ghost use Rattle.rv_decode.specs.Decides.{FieldDecides, FieldsDecide};
ghost use Rattle.rv_decode.specs.RowLaws.{LengthIs, LuiFieldIsImmediate, OneRowOfName, ReadsKeepOp, RowOfName};
ghost use Rattle.rv_decode.specs.WordLaws.{WordsDecode, WordsFit};

/// A pattern of the table holds exactly where each of its fields has its value, if these share no bit.
pub fn fields_decide()
    ensures one { FieldDecides }
    ensures more { FieldsDecide }
{}

/// The word of an instruction has 32 bits, and decodes to that instruction where it fits.
pub fn words_are_read_back()
    ensures fit { WordsFit }
    ensures decode { WordsDecode }
{}

/// The reading of a row has the row's name.
pub fn readings_keep_names()
    ensures { ReadsKeepOp }
{}

/// Each name has exactly one row of 32 bits, which stands at the name's number.
pub fn one_row_a_name()
    ensures row { RowOfName }
    ensures only { OneRowOfName }
{}

/// An instruction has 4 bytes exactly where the low two bits of its first half are 11, and else 2.
pub fn length_is_of_the_low_bits()
    ensures { LengthIs }
{}

/// Other bits 31 to 12 of a word of LUI change its immediate alone.
pub fn lui_field_is_its_immediate()
    ensures { LuiFieldIsImmediate }
{}
