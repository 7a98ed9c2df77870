//! What the definitions come to. Each law is the contract of a function that calls at most the laws that it needs. That
//! a handle is pending at most once for a registration, `Protocols::whole` says of every state.
#![tactic(auto)]

ghost use Rattle.protocol_db.specs.Laws.{UninstalledIsWithdrawn, DiscardedIsWithdrawn, ReinstalledIsFresh, InstalledIsPending, AllInstalledArePending, AllInstalledInOrder, AllUninstalledInOrder, OneAloneStays};

use handle_db::{
    discard_leaves_others, discarded_is_gone, removed_is_gone, replaced_is_fresh, same_is_equal,
};

/// A protocol that was uninstalled is gone with its opens, and its handle is pending for no registration of it.
pub fn uninstalled_is_withdrawn()
    ensures { UninstalledIsWithdrawn }
{
    removed_is_gone();
}

/// So is one that was discarded.
pub fn discarded_is_withdrawn()
    ensures { DiscardedIsWithdrawn }
{
    discarded_is_gone();
}

/// Pairs that are taken away together go as they go one after another, up to the first that is refused.
pub fn all_uninstalled_in_order()
    ensures { AllUninstalledInOrder }
{
    same_is_equal();
    discard_leaves_others();
}

/// A protocol that was reinstalled is there, and nobody has opened it.
pub fn reinstalled_is_fresh()
    ensures { ReinstalledIsFresh }
{
    replaced_is_fresh();
}

/// The handle on which a protocol was installed is pending for each registration of it.
pub fn installed_is_pending()
    ensures { InstalledIsPending }
{}

/// The handle on which pairs were installed is pending for each registration of their protocols.
pub fn all_installed_are_pending()
    ensures { AllInstalledArePending }
{}

/// Pairs that are installed together come as they come one after another, up to the first that is refused.
pub fn all_installed_in_order()
    ensures { AllInstalledInOrder }
{}

/// At most one entry of a protocol is by a driver or exclusive: at first, and after each call.
pub fn one_alone_stays()
    ensures { OneAloneStays }
{}
