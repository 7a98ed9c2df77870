//! What is known of the stack.
#![tactic(auto)]

ghost use Rattle.std.specs.Prelude.{◌≡◌, ◌≤◌};
ghost use Rattle.prov_layout.specs.Stack.{meets, part_kind, stored_kind};

use crate::loads::width_kind;
use crate::stores::{is_number, is_within};
use prov_cert::StackPart;
use prov_types::Kind;

/// What a load of so many bytes at an offset of the stack gives: the kind of the part with just these bytes, or Any.
#[tactic(auto, unfolding(crate::specs::Stack::part_kind))]
pub fn part_kind(parts: &[StackPart], o: u64, width: u64) -> Kind
    ensures { result ≡ part_kind parts.now o width }
{
    for p in parts {
        if p.at == o && u64::from(p.width) == width {
            return p.kind;
        }
    }
    Kind::Any
}

/// Whether a part has one of so many bytes.
pub fn meets(o: u64, width: u64, p: &StackPart) -> bool
    ensures { result ≡ meets o width p.now }
{
    let (o, width) = (u128::from(o), u128::from(width));
    let (at, wide) = (u128::from(p.at), u128::from(p.width));
    o < at + wide && at < o + width
}

/// The kind of the part that a store of so many bytes leaves.
pub fn stored_kind(width: u64, kind: &Kind) -> Kind
    requires { width ≤ 8 }
    ensures { result ≡ stored_kind width kind.now }
{
    if width == 8 {
        *kind
    } else if !is_number(*kind) {
        Kind::Any
    } else if is_within(width, *kind) {
        *kind
    } else {
        width_kind(width)
    }
}
