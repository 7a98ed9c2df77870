//! Types of events, and their groups.
#![tactic(auto)]

ghost use Rattle.std.specs.Prelude.{◌≡◌};
ghost use Rattle.event_queue.specs.Kinds.{is_timer, is_wait, is_signal, names_group, is_kind, can_notify, can_group, is_request, group_for};

use uh_base::Guid;

/// EVT_TIMER: the event has a timer.
const TIMER: u32 = 0x8000_0000;

/// EVT_NOTIFY_WAIT: the function is notified where the event is checked or waited for.
const NOTIFY_WAIT: u32 = 0x100;

/// EVT_NOTIFY_SIGNAL: the function is notified where the event is signalled.
const NOTIFY_SIGNAL: u32 = 0x200;

/// All bits but EVT_TIMER, EVT_RUNTIME, EVT_NOTIFY_WAIT and EVT_NOTIFY_SIGNAL.
const OTHERS: u32 = 0x3fff_fcff;

/// EVT_SIGNAL_EXIT_BOOT_SERVICES: the type names the group of the end of boot services.
const SIGNAL_EXIT: u32 = 0x201;

/// EVT_SIGNAL_VIRTUAL_ADDRESS_CHANGE: the type names the group of the virtual address change.
const SIGNAL_VIRTUAL: u32 = 0x6000_0202;

/// EFI_EVENT_GROUP_EXIT_BOOT_SERVICES, 27abf055-b1b8-4c26-8048-748f37baa2df.
pub const EXIT_GROUP: Guid = Guid {
    d1: 0x27ab_f055,
    d2: 0xb1b8,
    d3: 0x4c26,
    d4: 0x8048_748f_37ba_a2df,
};

/// EFI_EVENT_GROUP_VIRTUAL_ADDRESS_CHANGE, 13fa7698-c831-49c7-87ea-8f43fcc25196.
pub const VIRTUAL_GROUP: Guid = Guid {
    d1: 0x13fa_7698,
    d2: 0xc831,
    d3: 0x49c7,
    d4: 0x87ea_8f43_fcc2_5196,
};

/// Whether the type has a timer.
pub fn is_timer(kind: u32) -> bool
    ensures { result ≡ is_timer kind }
{
    kind & TIMER != 0
}

/// Whether the function is notified where the event is checked or waited for.
pub fn is_wait(kind: u32) -> bool
    ensures { result ≡ is_wait kind }
{
    kind & NOTIFY_WAIT != 0
}

/// Whether the function is notified where the event is signalled.
pub fn is_signal(kind: u32) -> bool
    ensures { result ≡ is_signal kind }
{
    kind & NOTIFY_SIGNAL != 0
}

/// Whether a type names its group by itself.
fn names_group(kind: u32) -> bool
    ensures { result ≡ names_group kind }
{
    kind == SIGNAL_EXIT || kind == SIGNAL_VIRTUAL
}

/// Whether events of the type are made.
fn is_kind(kind: u32) -> bool
    ensures { result ≡ is_kind kind }
{
    names_group(kind) || (kind & OTHERS == 0 && !(is_wait(kind) && is_signal(kind)))
}

/// Whether a function can be notified at a level: there is one, and the level is from 5 to 30.
fn can_notify(function: u64, tpl: u64) -> bool
    ensures { result ≡ can_notify function tpl }
{
    function != 0 && tpl >= 5 && tpl <= 30
}

/// Whether a group may be given beside the type.
fn can_group(kind: u32, group: Option<Guid>) -> bool
    ensures { result ≡ can_group kind group }
{
    group.is_none() || !names_group(kind)
}

/// Whether an event can be made of these.
#[tactic(auto, unfolding(crate::specs::Kinds::is_request))]
pub fn is_request(kind: u32, tpl: u64, function: u64, group: Option<Guid>) -> bool
    ensures { result ≡ is_request kind tpl function group }
{
    let notifies = is_wait(kind) || is_signal(kind);
    is_kind(kind) && (!notifies || can_notify(function, tpl)) && can_group(kind, group)
}

/// The group of an event of a type, for which a group may have been given.
pub fn group_for(kind: u32, group: Option<Guid>) -> Option<Guid>
    ensures { result ≡ group_for kind group }
{
    if kind == SIGNAL_EXIT {
        Some(EXIT_GROUP)
    } else if kind == SIGNAL_VIRTUAL {
        Some(VIRTUAL_GROUP)
    } else {
        group
    }
}
