//! A store file is read.
#![tactic(auto)]

ghost use Rattle.std.specs.Prelude.{◌≡◌, ◌++◌, [], ◌∷◌, IfOk};
ghost use Rattle.uh_base.specs.Answers.{Reads};
ghost use Rattle.variable_store.specs.Valid.{AreVariables};
ghost use Rattle.variable_store.specs.Reading.{entry, entries, store_in, named};

use crate::fault::StoreFault;
use crate::reading::{field, head, number, offset, units_in};
use crate::variable::{Variable, bytes_fit, units_fit};
use crate::variables::Variables;
use std::alloc::Global;

/// A variable behind others.
#[tactic(auto, unfolding(crate::specs::Reading::entry))]
fn entry<'a>(
    alloc: Global,
    size: usize,
    rest: &'a [u8],
    before: &Variables,
) -> Result<(Variable, &'a [u8]), StoreFault>
    ensures reads { Reads named (λ read. (read.0, read.1.now)) result (entry size rest.now before.now) }
    ensures valid { IfOk result (λ read. AreVariables (before.now ++ read.0 ∷ [])) }
{
    before.whole();
    let (first, behind) = head(size, rest, before.room())?;
    let (units, rest) = field(2 * first.units as usize, size, behind)?;
    let name = units_in(alloc, units)?;
    if before.find(&name, &first.vendor, false).is_some() {
        return Err(StoreFault::At(offset(size, behind)));
    }
    let (bytes, rest) = field(first.size as usize, size, rest)?;
    units_fit(&name);
    bytes_fit(bytes);
    let data = Vec::from_slice(alloc, bytes)?;
    let variable = Variable {
        vendor: first.vendor,
        name,
        attributes: first.attributes,
        data,
    };
    Ok((variable, rest))
}

/// So many variables, and nothing behind them.
fn entries(alloc: Global, count: u32, size: usize, rest: &[u8]) -> Result<Variables, StoreFault>
    ensures { Reads named (λ variables. variables) result (entries count size rest.now []) }
{
    let mut variables = Variables::new(alloc);
    let mut left = rest;
    for turn in 0..count {
        match entry(alloc, size, left, &variables) {
            Ok((variable, behind)) => {
                variables.push(variable)?;
                left = behind;
            }
            Err(fault) => return Err(fault),
        }
    }
    if left.is_empty() {
        Ok(variables)
    } else {
        Err(StoreFault::At(offset(size, left)))
    }
}

/// The variables of a store file.
#[tactic(auto, unfolding(crate::specs::Reading::store_in))]
pub fn load(alloc: Global, bytes: &[u8]) -> Result<Variables, StoreFault>
    ensures { Reads named (λ variables. variables) result (store_in bytes.now) }
{
    let size = bytes.len();
    let (magic, rest) = field(4, size, bytes)?;
    if magic != b"UVS1".as_slice() {
        return Err(StoreFault::At(0));
    }
    let (count, rest) = number(size, rest)?;
    entries(alloc, count, size, rest)
}
