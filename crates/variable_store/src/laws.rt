//! What the definitions come to. Each law is the contract of a function that does nothing but ask other laws.
#![tactic(auto)]

ghost use Rattle.variable_store.specs.Laws.{SavedIsLoaded, LoadedIsSaved};

/// What is loaded of what was saved is the list of the variables that outlive a run.
pub fn saved_is_loaded()
    ensures { SavedIsLoaded }
{
    uh_base::guids_read_back();
}

/// A file that is loaded is what its variables are saved as.
pub fn loaded_is_saved()
    ensures { LoadedIsSaved }
{
    uh_base::guids_read_back();
}
