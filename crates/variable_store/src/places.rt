//! The places of variables.
#![tactic(auto)]

ghost use Rattle.std.specs.Prelude.{◌≡◌, ◌<◌, ◌≤◌, false, length, is_some, IfSome};
ghost use Rattle.variable_store.specs.Entries.{index_of, is_seen, place_of, seen_from};
ghost use Rattle.variable_store.specs.Valid.{AreVariables};

use crate::variable::Variable;
use uh_base::Guid;

/// What is found under a name of a vendor: the place of the variable, where it is seen, and whether one is there, seen
/// or not.
#[derive(Clone, Copy)]
pub struct Found {
    pub seen: Option<usize>,
    pub is_there: bool,
}

/// The place of a variable that is seen, by its name and vendor.
pub fn place_of(variables: &[Variable], name: &[u16], vendor: &Guid, runtime: bool) -> Option<usize>
    ensures place { result ≡ place_of variables.now name.now vendor.now runtime }
    ensures inside { IfSome result (λ place. place < length variables.now) }
{
    for (index, variable) in variables.iter().enumerate() {
        if variable.is_found(name, vendor, runtime) {
            return Some(index);
        }
    }
    None
}

/// What is found under a name of a vendor, in one walk, since no two variables have the same.
pub fn look(variables: &[Variable], name: &[u16], vendor: &Guid, runtime: bool) -> Found
    requires { AreVariables variables.now }
    ensures seen { result.seen ≡ place_of variables.now name.now vendor.now runtime }
    ensures is_there { result.is_there ≡ is_some (place_of variables.now name.now vendor.now false) }
    ensures inside { IfSome result.seen (λ place. place < length variables.now) }
{
    match place_of(variables, name, vendor, false) {
        Some(place) => Found {
            seen: if variables[place].is_seen(runtime) {
                Some(place)
            } else {
                None
            },
            is_there: true,
        },
        None => Found {
            seen: None,
            is_there: false,
        },
    }
}

/// The place of the first variable that is seen.
fn first_seen(variables: &[Variable], runtime: bool) -> Option<usize>
    ensures place { result ≡ index_of (is_seen runtime) variables.now }
    ensures inside { IfSome result (λ place. place < length variables.now) }
{
    for (index, variable) in variables.iter().enumerate() {
        if variable.is_seen(runtime) {
            return Some(index);
        }
    }
    None
}

/// The place of the first variable that is seen, from a place on.
pub fn seen_from(variables: &[Variable], runtime: bool, from: usize) -> Option<usize>
    requires { from ≤ length variables.now }
    ensures { result ≡ seen_from runtime variables.now from }
{
    match first_seen(&variables[from..], runtime) {
        Some(index) => Some(from + index),
        None => None,
    }
}
