//! Laws of the lines of code.
ghost use Rattle.image_dump.specs.Code.{WordsAreBytes, InstructionsDecode, LinesKeepForms};
ghost use Rattle.image_dump.specs.Listings.{SectionWordsAreBytes};

use rv_decode::length_is_of_the_low_bits;

/// The words of the lines of code, written out, are its bytes; so those of a section's listing are the section's.
pub fn words_are_bytes()
    ensures code { WordsAreBytes }
    ensures section { SectionWordsAreBytes }
{}

/// The instruction of each line decodes from the line's word, and the line has its text.
pub fn instructions_decode()
    ensures { InstructionsDecode }
{
    // What the proof reads of `rv_decode`: the first half says how long an instruction is.
    length_is_of_the_low_bits();
}

/// The lines of code keep their forms: each is read back as itself.
pub fn lines_keep_forms()
    ensures { LinesKeepForms }
{}
