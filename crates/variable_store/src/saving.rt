//! A store file is written.
#![tactic(auto)]

ghost use Rattle.std.specs.Prelude.{◌≡◌, ◌≤◌, ◌++◌, length, OnOk, IfOk};
ghost use Rattle.std.specs.List.{flat_map};
ghost use Rattle.std.specs.Int.{w32, to_le_bytes};
ghost use Rattle.variable_store.specs.Entries.{cost};
ghost use Rattle.variable_store.specs.Valid.{AreVariables};
ghost use Rattle.variable_store.specs.Store.{kept, unit_bytes, entry_bytes, store_of};

use crate::variable::{Variable, is_non_volatile};
use std::alloc::{AllocError, Global};
use uh_base::Guid;

fn push_units(out: &mut Vec<u8>, units: &[u16]) -> Result<(), AllocError>
    ensures { OnOk result (out.new.items ≡ out.old.items ++ unit_bytes units.now) }
{
    for unit in units {
        out.extend_from_slice(&unit.to_le_bytes())?;
    }
    Ok(())
}

fn push_number(out: &mut Vec<u8>, number: usize) -> Result<(), AllocError>
    requires { number ≤ 65_536 }
    ensures { OnOk result (out.new.items ≡ out.old.items ++ to_le_bytes w32 number) }
{
    out.extend_from_slice(&(number as u32).to_le_bytes())
}

#[tactic(auto, unfolding(crate::specs::Store::entry_bytes))]
fn push_parts(
    out: &mut Vec<u8>,
    vendor: &Guid,
    attributes: u32,
    name: &[u16],
    data: &[u8],
) -> Result<(), AllocError>
    requires name { length name.now ≤ 65_536 }
    requires size { length «data».now ≤ 65_536 }
    ensures { OnOk result (out.new.items ≡ out.old.items ++ entry_bytes (record { vendor = vendor.now; name = name.now; attributes = attributes; «data» = «data».now })) }
{
    out.extend_from_slice(&vendor.to_bytes())?;
    out.extend_from_slice(&attributes.to_le_bytes())?;
    push_number(out, name.len())?;
    push_number(out, data.len())?;
    push_units(out, name)?;
    out.extend_from_slice(data)?;
    Ok(())
}

fn push_entry(out: &mut Vec<u8>, variable: &Variable) -> Result<(), AllocError>
    requires { cost variable.now ≤ 65_536 }
    ensures { OnOk result (out.new.items ≡ out.old.items ++ entry_bytes variable.now) }
{
    push_parts(
        out,
        &variable.vendor,
        variable.attributes,
        &variable.name,
        &variable.data,
    )
}

fn push_kept(out: &mut Vec<u8>, entries: &[Variable]) -> Result<(), AllocError>
    requires { AreVariables entries.now }
    ensures { OnOk result (out.new.items ≡ out.old.items ++ flat_map entry_bytes (kept entries.now)) }
{
    for variable in entries {
        if is_non_volatile(variable.attributes) {
            push_entry(out, variable)?;
        }
    }
    Ok(())
}

fn count_kept(entries: &[Variable]) -> usize
    ensures count { result ≡ length (kept entries.now) }
    ensures bound { result ≤ length entries.now }
{
    let mut count = 0;
    for entry in entries {
        if is_non_volatile(entry.attributes) {
            count += 1;
        }
    }
    count
}

/// The store file of the variables that outlive a run.
#[tactic(auto, unfolding(crate::specs::Store::store_of))]
pub fn store(alloc: Global, entries: &[Variable]) -> Result<Vec<u8>, AllocError>
    requires { AreVariables entries.now }
    ensures { IfOk result (λ bytes. bytes.items ≡ store_of entries.now) }
{
    let mut out = Vec::from_slice(alloc, b"UVS1")?;
    push_number(&mut out, count_kept(entries))?;
    push_kept(&mut out, entries)?;
    Ok(out)
}
