//! Reading a script.
ghost use Rattle.std.specs.Prelude.{◌≡◌, ◌≤◌, length, IfOk};
ghost use Rattle.toml.specs.View.{table_view, items_view};
ghost use Rattle.host_script.specs.Faults.{Gives, Reads};
ghost use Rattle.host_script.specs.Fields.{seen_items};
ghost use Rattle.host_script.specs.Script.{not_empty, steps_field, is_ram_base, ram_pages_of, pages_to_judge, ram_base_of, only_top_keys, top_of, script_of, script_in};
ghost use Rattle.host_script.specs.Forms.{ScriptsKeepForms};
ghost use Rattle.host_script.specs.Seen.{top_seen};

use crate::fault::{Fault, ScriptFault, ScriptKind};
use crate::fields;
use crate::images::images_of;
use crate::script::Script;
use crate::settings::{Settings, settings_of};
use crate::steps::{fault_at, steps_of};
use std::alloc::Global;
use toml::{Table, Value};

/// The keys of the top table.
#[derive(Drop)]
struct Top<'a> {
    ram_base: u64,
    ram_pages: u32,
    settings: Settings,
    images: &'a [Value],
    steps: &'a [Value],
}

/// Values that have to be there.
#[tactic(auto, using(crate::proofs::Views::length_as_items))]
fn not_empty(values: &[Value]) -> Result<&[Value], ScriptKind>
    ensures { seen_items result ≡ not_empty (items_view values.now) }
{
    if values.is_empty() {
        Err(ScriptKind::Missing)
    } else {
        Ok(values)
    }
}

#[tactic(auto, unfolding(crate::specs::Script::steps_field))]
fn steps_field(top: &Table) -> Result<&[Value], ScriptKind>
    ensures seen { seen_items result ≡ steps_field (table_view top.now) }
    ensures few { IfOk result (λ steps. length steps.now ≤ 4096) }
{
    fields::counted(not_empty(fields::tables_field(top, "step")?)?, 4096)
}

/// How many pages RAM has: 4,096 where the key isn't there.
#[tactic(auto, unfolding(crate::specs::Script::ram_pages_of))]
fn ram_pages_of(top: &Table) -> Result<u32, ScriptKind>
    ensures { result ≡ ram_pages_of (table_view top.now) }
{
    match fields::integer_field(top, "ram_pages", 256, 4096)? {
        Some(pages) => Ok(pages),
        None => Ok(4096),
    }
}

/// With how many pages the address of RAM is judged: with none where their number is refused.
fn pages_to_judge(pages: Result<u32, ScriptKind>) -> u32
    ensures { result ≡ pages_to_judge pages }
{
    match pages {
        Ok(pages) => pages,
        Err(_) => 0,
    }
}

/// Whether RAM of so many pages may begin at an address.
fn is_ram_base(pages: u32, base: u64) -> bool
    ensures { result ≡ is_ram_base pages base }
{
    base % 4096 == 0
        && base >= 0x10_0000
        && base <= 1 << 46
        && 4096 * u64::from(pages) <= (1 << 46) - base
}

/// Where RAM begins: 0x40000000 where the key isn't there.
#[tactic(auto, unfolding(crate::specs::Script::ram_base_of))]
fn ram_base_of(top: &Table) -> Result<u64, ScriptKind>
    ensures { result ≡ ram_base_of (table_view top.now) }
{
    let pages = pages_to_judge(ram_pages_of(top));
    match fields::number_field(top, "ram_base")? {
        None => Ok(0x4000_0000),
        Some(base) => {
            if is_ram_base(pages, base) {
                Ok(base)
            } else {
                Err(ScriptKind::Value)
            }
        }
    }
}

/// Refuses a document with a key that isn't known.
#[tactic(auto, unfolding(crate::specs::Script::only_top_keys))]
fn only_top_keys(top: &Table) -> Result<(), ScriptKind>
    ensures { result ≡ only_top_keys (table_view top.now) }
{
    fields::only_keys(
        top,
        &[
            "ram_base",
            "ram_pages",
            "time",
            "ticks",
            "os_virtual",
            "trace",
            "store",
            "image",
            "step",
        ],
    )
}

#[tactic(auto, unfolding(crate::specs::Script::top_of))]
fn top_of(alloc: Global, top: &Table) -> Result<Top<'_>, Fault>
    ensures seen { Gives top_seen result (top_of (table_view top.now)) }
    ensures few { IfOk result (λ top. length top.steps.now ≤ 4096) }
{
    only_top_keys(top)?;
    let ram_base = ram_base_of(top)?;
    let ram_pages = ram_pages_of(top)?;
    let settings = settings_of(alloc, top)?;
    let images = fields::counted(fields::tables_field(top, "image")?, 16)?;
    let steps = steps_field(top)?;
    Ok(Top {
        ram_base,
        ram_pages,
        settings,
        images,
        steps,
    })
}

#[tactic(auto, unfolding(crate::specs::Script::script_of))]
fn script_of(alloc: Global, document: &Table) -> Result<Script, ScriptFault>
    ensures { Reads (λ script. script) result (script_of (table_view document.now)) }
{
    let top = match top_of(alloc, document) {
        Ok(top) => top,
        Err(fault) => return Err(fault_at(0, fault)),
    };
    let image = match images_of(alloc, top.images) {
        Ok(image) => image,
        Err(fault) => return Err(fault_at(0, fault)),
    };
    match steps_of(alloc, image.as_slice(), top.steps) {
        Ok(step) => Ok(Script {
            ram_base: top.ram_base,
            ram_pages: top.ram_pages,
            time: top.settings.time,
            ticks: top.settings.ticks,
            os_virtual: top.settings.os_virtual,
            trace: top.settings.trace,
            store: top.settings.store,
            image,
            step,
        }),
        Err(fault) => Err(fault),
    }
}

/// Reads a script: the script that the bytes say, or the first fault. `Text` comes exactly where they are no TOML
/// document, at step 0. Then the top table and the images are judged, both step 0, and each step by its number from
/// 1. In each table an unknown key comes first, then its known keys in the order of the reference in docs/script.md;
/// in a step `do` comes before all other keys.
#[tactic(auto, unfolding(crate::specs::Script::script_in))]
pub fn read_script(alloc: Global, bytes: &[u8]) -> Result<Script, ScriptFault>
    ensures { Reads (λ script. script) result (script_in bytes.now) }
{
    match toml::table_from_slice(alloc, bytes) {
        Ok(table) => script_of(alloc, &table),
        Err(error) => {
            if error.is_memory() {
                Err(ScriptFault::Memory)
            } else {
                Err(ScriptFault::At {
                    step: 0,
                    kind: ScriptKind::Text,
                })
            }
        }
    }
}

/// A law: a script that is read has at most 16 images, each with a name of its own, and 1 to 4,096 steps, each of
/// an image that it names and within its bounds.
pub fn scripts_keep_forms()
    ensures { ScriptsKeepForms }
{}
