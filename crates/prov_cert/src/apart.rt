//! Parts of the stack of which no two meet.
ghost use Rattle.std.specs.Prelude.{◌≡◌, ◌<◌, IfOk};
ghost use Rattle.std.specs.List.{All};
ghost use Rattle.std.specs.List.Sorted.{IsPermutation, IsNonDecreasingBy};
ghost use Rattle.prov_cert.specs.Apart.{are_apart, rises};

use crate::cert::StackPart;
use std::alloc::{AllocError, Global};

/// Whether each part begins where the one before it ends or behind.
fn rises(parts: &[StackPart]) -> bool
    ensures { result ≡ rises 0 parts.now }
{
    let mut end: u128 = 0;
    for part in parts {
        if u128::from(part.at) < end {
            return false;
        }
        end = u128::from(part.at) + u128::from(part.width);
    }
    true
}

/// The parts in the order of their places.
fn in_order(alloc: Global, parts: &[StackPart]) -> Result<Vec<StackPart>, AllocError>
    ensures same { IfOk result (λ v. IsPermutation parts.now v.items) }
    ensures order { IfOk result (λ v. IsNonDecreasingBy (λ p. p.at) v.items) }
{
    let mut ordered = Vec::from_slice(alloc, parts)?;
    ordered.sort_unstable_by_key(|part| part.at);
    Ok(ordered)
}

/// Whether no two parts meet: in the order of their places, whether no two neighbours do.
pub(crate) fn are_apart(alloc: Global, parts: &[StackPart]) -> Result<bool, AllocError>
    requires { All (λ p. 0 < p.width) parts.now }
    ensures { IfOk result (λ apart. apart ≡ are_apart parts.now) }
{
    if rises(parts) {
        return Ok(true);
    }
    let ordered = in_order(alloc, parts)?;
    Ok(rises(ordered.as_slice()))
}
