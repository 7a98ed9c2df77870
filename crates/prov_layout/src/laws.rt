//! Laws.
#![tactic(auto)]

ghost use Rattle.prov_layout.specs.Laws.{EachPasses, IsClosedOutside, LaidIsOrdered, OneFails, PassesEach};

/// A law: a test at many numbers passes exactly where it passes at each.
pub fn every_is_each()
    ensures passes { EachPasses }
    ensures each { PassesEach }
    ensures fails { OneFails }
{}

/// A law: behind a region's end each byte is closed.
pub fn closed_outside()
    ensures { IsClosedOutside }
{}

/// A law: what is laid is in the order of its places, where no two spans that have bytes meet, none lies where bytes are
/// given, and their kinds are proper.
pub fn laid_is_ordered()
    ensures { LaidIsOrdered }
{}
