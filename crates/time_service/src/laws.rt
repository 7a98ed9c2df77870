//! What the definitions come to. Each law is the contract of a function that does nothing.
#![tactic(auto)]

ghost use Rattle.time_service.specs.Laws.{ReadsBack, TextsSet, DatesAreNumbered, ShowsWhatIsSet, EndsAfter9999};

/// A valid time is read from its own bytes.
pub fn times_read_back()
    ensures { ReadsBack }
{}

/// Each date from 1900 to 9999 has one number, and each number up to that of 31 December 9999 one date.
pub fn dates_are_numbered()
    ensures { DatesAreNumbered }
{}

/// A clock shows the time that it was set to at the moment at which it was set.
pub fn clock_shows_what_is_set()
    ensures { ShowsWhatIsSet }
{}

/// A clock shows nothing exactly after 31 December 9999.
pub fn clock_ends_after_9999()
    ensures { EndsAfter9999 }
{}

/// The text of a valid local time to the second sets the clock to it, and no other text sets a clock.
pub fn texts_set_clocks()
    ensures { TextsSet }
{}
