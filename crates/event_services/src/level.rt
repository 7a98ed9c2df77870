//! RaiseTPL and RestoreTPL (UEFI 2.10, sections 7.1.8 and 7.1.9).
#![tactic(auto)]

ghost use Rattle.std.specs.Prelude.{◌≡◌, ◌≤◌, IfSome};
ghost use Rattle.event_services.specs.Levels.{is_level, raise_tpl, restore_tpl};

use guest_call::argument;

/// A task priority level that is set.
#[derive(Clone, Copy, Debug, PartialEq, Eq, Drop)]
pub struct LevelSet {
    /// The level, from 4 to 31.
    pub tpl: u8,
    /// What the caller of the service is given.
    pub value: u64,
}

/// Whether a number is a level that code runs at, from TPL_APPLICATION to TPL_HIGH_LEVEL.
fn is_level(tpl: u64) -> bool
    ensures { result ≡ is_level tpl }
{
    4 <= tpl && tpl <= 31
}

/// RaiseTPL (new): sets the level to the new one and gives the old one. None, and nothing is set, where the new one is
/// lower or is no level: then the run halts.
#[tactic(auto, unfolding(crate::specs::Levels::raise_tpl))]
pub fn raise_tpl(registers: &[u64; 32], tpl: u8) -> Option<LevelSet>
    ensures answer { result ≡ raise_tpl registers.now tpl }
    ensures low { IfSome result (λ set. 4 ≤ set.tpl) }
    ensures high { IfSome result (λ set. set.tpl ≤ 31) }
{
    let new = argument(0, registers);
    if !is_level(new) || new < u64::from(tpl) {
        return None;
    }
    Some(LevelSet {
        tpl: new as u8,
        value: u64::from(tpl),
    })
}

/// RestoreTPL (old): sets the level to the old one and gives 0. None, and nothing is set, where the old one is higher
/// or is no level: then the run halts.
#[tactic(auto, unfolding(crate::specs::Levels::restore_tpl))]
pub fn restore_tpl(registers: &[u64; 32], tpl: u8) -> Option<LevelSet>
    ensures answer { result ≡ restore_tpl registers.now tpl }
    ensures low { IfSome result (λ set. 4 ≤ set.tpl) }
    ensures high { IfSome result (λ set. set.tpl ≤ 31) }
{
    let old = argument(0, registers);
    if !is_level(old) || old > u64::from(tpl) {
        return None;
    }
    Some(LevelSet {
        tpl: old as u8,
        value: 0,
    })
}
