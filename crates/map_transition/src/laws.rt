//! What the definitions come to. Each law is the contract of a function that does nothing.
#![tactic(auto)]

ghost use Rattle.map_transition.specs.Laws.{WordsMove, OtherBytesStay, PlacesAtOpening, PlacesHaveTypes, WholeStays, InstructionsKeepTouched, FunctionsKeepTouched};

/// A word at a site of an image that stays becomes its load value moved, if it is marked and that is in its range; any other
/// stays. So a word of 64 bits that had its load value is that value and its image's displacement, modulo 2^64.
pub fn words_move()
    ensures { WordsMove }
{}

/// A byte of no site stays.
pub fn other_bytes_stay()
    ensures { OtherBytesStay }
{}

/// At opening the places of a layout are the firmware's own pages; and where they are, they have the types that a whole state
/// asks for.
pub fn places_are_firmwares()
    ensures opening { PlacesAtOpening }
    ensures types { PlacesHaveTypes }
{}

/// A state stays whole where at most bytes change and pages are touched.
pub fn whole_stays()
    ensures { WholeStays }
{}

/// No instruction and no notified function makes a touched page one that isn't.
pub fn touched_stay()
    ensures instructions { InstructionsKeepTouched }
    ensures functions { FunctionsKeepTouched }
{}
