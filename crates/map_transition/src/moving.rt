//! What moves once all functions have returned.
#![tactic(auto)]

ghost use Rattle.std.specs.Prelude.{◌≡◌, None};
ghost use Rattle.map_faults.specs.Faults.{first_fault};
ghost use Rattle.runtime_turn.specs.Functions.{ground_of};
ghost use Rattle.map_transition.specs.Wholes.{Whole};
ghost use Rattle.map_transition.specs.Transitions.{words_moved, tables_moved, seen_by, all_moved};

use crate::fixing::fix_all;
use map_faults::MapCall;
use memory_map::map_is_map;
use runtime_turn::ground_of;
use runtime_view::{view_after, virtual_of};
use std::mem::replace;
use system_tables::move_tables;
use virtual_map::RuntimeState;

/// Moves the words of the images that stay.
fn move_words(state: &mut RuntimeState, map: &MapCall)
    requires { Whole state.old }
    ensures { state.new ≡ words_moved map.now.entries state.old }
{
    fix_all(
        &mut state.memory,
        state.kept.as_slice(),
        map.entries.as_slice(),
    );
}

/// Moves the pointers of the tables.
fn point_tables(state: &mut RuntimeState, map: &MapCall)
    requires { Whole state.old }
    ensures { state.new ≡ tables_moved map.now.entries state.old }
{
    let entries = map.entries.as_slice();
    let system = virtual_of(entries, state.layout.system);
    let slots = virtual_of(entries, state.layout.slots);
    move_tables(&state.layout, &mut state.memory, system, slots);
}

/// Sees memory by the map from now on.
fn see_by(state: &mut RuntimeState, map: &MapCall)
    requires whole { Whole state.old }
    requires accepted { first_fault (ground_of state.old) map.now ≡ None }
    ensures { state.new ≡ seen_by map.now.entries state.old }
{
    map_is_map();
    let none = Vec::new(*state.room.allocator());
    let room = replace(&mut state.room, none);
    state.view = view_after(&ground_of(state), map, room);
    state.mapped = true;
}

/// Moves words, tables and view by a map that is accepted.
pub(crate) fn move_all(state: &mut RuntimeState, map: &MapCall)
    requires whole { Whole state.old }
    requires accepted { first_fault (ground_of state.old) map.now ≡ None }
    ensures moved { state.new ≡ all_moved map.now.entries state.old }
    ensures whole { Whole state.new }
{
    move_words(state, map);
    point_tables(state, map);
    see_by(state, map);
}
