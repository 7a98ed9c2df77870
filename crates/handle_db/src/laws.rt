//! What the definitions come to. Each law is the contract of a function that does nothing. That a handle without
//! protocols is gone, and that an entry names neither attribute 4 nor agent 0, `Handles::whole` says of every database.
#![tactic(auto)]

ghost use Rattle.handle_db.specs.Laws.{SameIsEqual, NewIsNew, RemovedIsGone, ReplacedIsFresh, DiscardedIsGone, DiscardLeavesOthers};

/// GUIDs that are the same field by field are equal.
pub fn same_is_equal()
    ensures { SameIsEqual }
{}

/// A new handle is none that was ever made, so no number is used again.
pub fn new_is_new()
    ensures { NewIsNew }
{}

/// A protocol that was taken away is not there any more, and nor are its opens.
pub fn removed_is_gone()
    ensures { RemovedIsGone }
{}

/// An interface that was put in another's place is there, and nobody has opened it.
pub fn replaced_is_fresh()
    ensures { ReplacedIsFresh }
{}

/// A protocol that was discarded is not there any more, and nor are its opens.
pub fn discarded_is_gone()
    ensures { DiscardedIsGone }
{}

/// A discard leaves a handle its protocols of other GUIDs, and the handle is gone with the last.
pub fn discard_leaves_others()
    ensures { DiscardLeavesOthers }
{}
