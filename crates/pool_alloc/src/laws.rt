//! What the definitions come to. Each law is the contract of a function that does nothing.
#![tactic(auto)]

ghost use Rattle.pool_alloc.specs.Laws.{LowestIsLowest, PoolIsApart, PoolStaysTogether, PoolLeavesOthers};

use page_alloc::{calls_leave_others, owned_are_freed, owned_stay};

/// The lowest gap has room, and no lower offset has.
pub fn lowest_is_lowest()
    ensures { LowestIsLowest }
{}

/// The blocks of a pool begin at multiples of 8, have rounded sizes and lie inside their pages, and no two have a byte
/// in common.
pub fn pool_is_apart()
    ensures { PoolIsApart }
{}

/// A pool and its pages stay together where pages are given to any owner, and where others' pages are taken back.
pub fn pool_stays_together()
    ensures { PoolStaysTogether }
{
    owned_stay();
}

/// A call of the pool leaves the type and the owner of each page of others.
pub fn pool_leaves_others()
    ensures { PoolLeavesOthers }
{
    calls_leave_others();
    owned_are_freed();
}
