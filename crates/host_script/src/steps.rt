//! The steps of a script.
ghost use Rattle.std.specs.Prelude.{◌≡◌, ◌≤◌, ◌<◌, ◌^◌, [], length};
ghost use Rattle.toml.specs.View.{view, table_view, items_view};
ghost use Rattle.host_script.specs.Faults.{Gives, Reads, fault_at};
ghost use Rattle.host_script.specs.Fields.{seen_one};
ghost use Rattle.host_script.specs.Script.{known_name, step_image, bound_of, load_in, start_in, unload_in, exit_boot_in, check_in, asked, map_in, service_target, image_target, target_of, with_lists, only_call_keys, call_in, peek_in, memmap_in, vars_in, later_step, step_by, step_in, step_at, steps_of};

use crate::fault::{Fault, ScriptFault, ScriptKind};
use crate::fields;
use crate::images::{has_image, origin_of};
use crate::lists::listed;
use crate::script::{CallStep, ImageSpec, MapStep, Step, Target};
use record_text::service_slot;
use std::alloc::Global;
use toml::{Table, Value};
use uh_base::{Text, is_name};

/// A name that an image has.
fn known_name<'a>(images: &[ImageSpec], name: &'a str) -> Result<&'a str, ScriptKind>
    ensures { seen_one result ≡ known_name images.now name.now }
{
    if !is_name(name) {
        return Err(ScriptKind::Value);
    }
    if !has_image(images, name) {
        return Err(ScriptKind::Name);
    }
    Ok(name)
}

/// The image of a step.
#[tactic(auto, unfolding(crate::specs::Script::step_image))]
fn step_image<'a>(images: &[ImageSpec], step: &'a Table) -> Result<&'a str, ScriptKind>
    ensures { seen_one result ≡ step_image images.now (table_view step.now) }
{
    known_name(images, fields::needed_text(step, "image")?)
}

/// How many steps an image may run.
#[tactic(auto, unfolding(crate::specs::Script::bound_of))]
fn bound_of(step: &Table) -> Result<u64, ScriptKind>
    ensures { result ≡ bound_of (table_view step.now) }
{
    match fields::integer_field(step, "bound", 1, 50_000_000)? {
        Some(bound) => Ok(u64::from(bound)),
        None => Ok(1_000_000),
    }
}

#[tactic(auto, unfolding(crate::specs::Script::load_in))]
fn load_in(alloc: Global, images: &[ImageSpec], step: &Table) -> Result<Step, Fault>
    ensures { Gives (λ step. step) result (load_in images.now (table_view step.now)) }
{
    fields::only_keys(step, &["do", "image"])?;
    let image = step_image(images, step)?;
    Ok(Step::Load {
        image: Text::new(alloc, image)?,
    })
}

#[tactic(auto, unfolding(crate::specs::Script::start_in))]
fn start_in(alloc: Global, images: &[ImageSpec], step: &Table) -> Result<Step, Fault>
    ensures { Gives (λ step. step) result (start_in images.now (table_view step.now)) }
{
    fields::only_keys(step, &["do", "image", "bound"])?;
    let image = step_image(images, step)?;
    let bound = bound_of(step)?;
    Ok(Step::Start {
        image: Text::new(alloc, image)?,
        bound,
    })
}

#[tactic(auto, unfolding(crate::specs::Script::unload_in))]
fn unload_in(alloc: Global, images: &[ImageSpec], step: &Table) -> Result<Step, Fault>
    ensures { Gives (λ step. step) result (unload_in images.now (table_view step.now)) }
{
    fields::only_keys(step, &["do", "image"])?;
    let image = step_image(images, step)?;
    Ok(Step::Unload {
        image: Text::new(alloc, image)?,
    })
}

#[tactic(auto, unfolding(crate::specs::Script::exit_boot_in))]
fn exit_boot_in(alloc: Global, images: &[ImageSpec], step: &Table) -> Result<Step, Fault>
    ensures { Gives (λ step. step) result (exit_boot_in images.now (table_view step.now)) }
{
    fields::only_keys(step, &["do", "image", "key"])?;
    let image = step_image(images, step)?;
    let key = fields::number_field(step, "key")?;
    Ok(Step::ExitBoot {
        image: Text::new(alloc, image)?,
        key,
    })
}

#[tactic(auto, unfolding(crate::specs::Script::check_in))]
fn check_in(alloc: Global, images: &[ImageSpec], step: &Table) -> Result<Step, Fault>
    ensures { Gives (λ step. step) result (check_in images.now (table_view step.now)) }
{
    fields::only_keys(step, &["do", "image", "file", "text"])?;
    let image = step_image(images, step)?;
    let origin = origin_of(alloc, step)?;
    Ok(Step::Check {
        image: Text::new(alloc, image)?,
        origin,
    })
}

/// A key that has to be there.
#[tactic(auto, unfolding(crate::specs::Script::asked))]
fn asked(step: &Table, key: &str) -> Result<(), ScriptKind>
    ensures { result ≡ asked key.now (table_view step.now) }
{
    if fields::has_key(step, key) {
        Ok(())
    } else {
        Err(ScriptKind::Missing)
    }
}

#[tactic(auto, unfolding(crate::specs::Script::map_in))]
fn map_in(alloc: Global, step: &Table) -> Result<Step, Fault>
    ensures { Gives (λ step. step) result (map_in (table_view step.now)) }
{
    fields::only_keys(step, &["do", "entries", "size", "version"])?;
    asked(step, "entries")?;
    let entries = listed(alloc, step, "entries", 1024)?;
    let size = fields::integer_or(step, "size", 0, u32::MAX, 40)?;
    let version = fields::integer_or(step, "version", 0, u32::MAX, 1)?;
    Ok(Step::Map(MapStep {
        entries,
        size: u64::from(size),
        version,
    }))
}

#[tactic(auto, unfolding(crate::specs::Script::service_target))]
fn service_target(step: &Table) -> Result<Target, ScriptKind>
    ensures { result ≡ service_target (table_view step.now) }
{
    let name = fields::needed_text(step, "service")?;
    match service_slot(name) {
        Some(slot) => Ok(Target::Service { slot }),
        None => Err(ScriptKind::Value),
    }
}

#[tactic(auto, unfolding(crate::specs::Script::image_target))]
fn image_target(alloc: Global, images: &[ImageSpec], step: &Table) -> Result<Target, Fault>
    ensures { Gives (λ target. target) result (image_target images.now (table_view step.now)) }
{
    let image = step_image(images, step)?;
    let at = fields::needed_number(step, "at")?;
    Ok(Target::Image {
        image: Text::new(alloc, image)?,
        at,
    })
}

/// What is called: an image and an offset of it, or a service, one of the two.
#[tactic(auto, unfolding(crate::specs::Script::target_of))]
fn target_of(alloc: Global, images: &[ImageSpec], step: &Table) -> Result<Target, Fault>
    ensures { Gives (λ target. target) result (target_of images.now (table_view step.now)) }
{
    if !fields::has_key(step, "service") {
        return image_target(alloc, images, step);
    }
    if fields::has_key(step, "image") || fields::has_key(step, "at") {
        return Err(Fault::Kind(ScriptKind::Shape));
    }
    Ok(service_target(step)?)
}

/// Refuses a call with a key that isn't known.
#[tactic(auto, unfolding(crate::specs::Script::only_call_keys))]
fn only_call_keys(step: &Table) -> Result<(), ScriptKind>
    ensures { result ≡ only_call_keys (table_view step.now) }
{
    fields::only_keys(
        step,
        &[
            "do", "image", "at", "service", "args", "buffers", "show", "bound",
        ],
    )
}

#[tactic(auto, unfolding(crate::specs::Script::call_in))]
fn call_in(alloc: Global, images: &[ImageSpec], step: &Table) -> Result<Step, Fault>
    ensures { Gives (λ step. step) result (call_in images.now (table_view step.now)) }
{
    only_call_keys(step)?;
    let target = target_of(alloc, images, step)?;
    with_lists(alloc, step, target)
}

/// A call of a target, with its lists and its bound.
#[tactic(auto, unfolding(crate::specs::Script::with_lists))]
fn with_lists(alloc: Global, step: &Table, target: Target) -> Result<Step, Fault>
    ensures { Gives (λ step. step) result (with_lists (table_view step.now) target) }
{
    let args = listed(alloc, step, "args", 8)?;
    let buffers = listed(alloc, step, "buffers", 16)?;
    let show = listed(alloc, step, "show", 16)?;
    let bound = bound_of(step)?;
    Ok(Step::Call(CallStep {
        target,
        args,
        buffers,
        show,
        bound,
    }))
}

#[tactic(auto, unfolding(crate::specs::Script::peek_in))]
fn peek_in(step: &Table) -> Result<Step, ScriptKind>
    ensures { result ≡ peek_in (table_view step.now) }
{
    fields::only_keys(step, &["do", "at", "len"])?;
    let at = fields::needed_number(step, "at")?;
    match fields::integer_field(step, "len", 1, 4096)? {
        Some(len) => Ok(Step::Peek { at, len }),
        None => Err(ScriptKind::Missing),
    }
}

#[tactic(auto, unfolding(crate::specs::Script::vars_in))]
fn vars_in(step: &Table) -> Result<Step, ScriptKind>
    ensures { result ≡ vars_in (table_view step.now) }
{
    fields::only_keys(step, &["do"])?;
    Ok(Step::Vars)
}

#[tactic(auto, unfolding(crate::specs::Script::memmap_in))]
fn memmap_in(step: &Table) -> Result<Step, ScriptKind>
    ensures { result ≡ memmap_in (table_view step.now) }
{
    fields::only_keys(step, &["do"])?;
    Ok(Step::MemMap)
}

/// The step of a word, of those that stand later in the reference.
#[tactic(auto, unfolding(crate::specs::Script::later_step))]
fn later_step(alloc: Global, word: &str, images: &[ImageSpec], step: &Table) -> Result<Step, Fault>
    ensures { Gives (λ step. step) result (later_step word.now images.now (table_view step.now)) }
{
    if word == "map" {
        return map_in(alloc, step);
    }
    if word == "call" {
        return call_in(alloc, images, step);
    }
    if word == "peek" {
        return Ok(peek_in(step)?);
    }
    if word == "memmap" {
        return Ok(memmap_in(step)?);
    }
    if word == "vars" {
        return Ok(vars_in(step)?);
    }
    Err(Fault::Kind(ScriptKind::Value))
}

/// The step of a word.
#[tactic(auto, unfolding(crate::specs::Script::step_by))]
fn step_by(alloc: Global, word: &str, images: &[ImageSpec], step: &Table) -> Result<Step, Fault>
    ensures { Gives (λ step. step) result (step_by word.now images.now (table_view step.now)) }
{
    if word == "load" {
        return load_in(alloc, images, step);
    }
    if word == "unload" {
        return unload_in(alloc, images, step);
    }
    if word == "start" {
        return start_in(alloc, images, step);
    }
    if word == "exit_boot" {
        return exit_boot_in(alloc, images, step);
    }
    if word == "check" {
        return check_in(alloc, images, step);
    }
    later_step(alloc, word, images, step)
}

#[tactic(auto, unfolding(crate::specs::Script::step_in))]
fn step_in(alloc: Global, images: &[ImageSpec], step: &Table) -> Result<Step, Fault>
    ensures { Gives (λ step. step) result (step_in images.now (table_view step.now)) }
{
    let word = fields::needed_text(step, "do")?;
    step_by(alloc, word, images, step)
}

#[tactic(auto, unfolding(crate::specs::Script::step_at))]
fn step_at(alloc: Global, images: &[ImageSpec], value: &Value) -> Result<Step, Fault>
    ensures { Gives (λ step. step) result (step_at images.now (view value.now)) }
{
    match value.as_table() {
        Some(step) => step_in(alloc, images, step),
        None => Err(Fault::Kind(ScriptKind::Shape)),
    }
}

/// A fault at a step.
pub(crate) fn fault_at(step: usize, fault: Fault) -> ScriptFault
    requires { step < 2 ^ 32 }
    ensures { result ≡ fault_at step fault }
{
    match fault {
        Fault::Kind(kind) => ScriptFault::At {
            step: step as u32,
            kind,
        },
        Fault::Memory => ScriptFault::Memory,
    }
}

/// The steps of a list of tables, numbered from 1.
pub(crate) fn steps_of(
    alloc: Global,
    images: &[ImageSpec],
    values: &[Value],
) -> Result<Vec<Step>, ScriptFault>
    requires { length values.now ≤ 4096 }
    ensures { Reads (λ steps. steps.items) result (steps_of images.now [] (items_view values.now)) }
{
    let mut steps: Vec<Step> = Vec::new(alloc);
    for value in values {
        let step = match step_at(alloc, images, value) {
            Ok(step) => step,
            Err(fault) => return Err(fault_at(steps.len() + 1, fault)),
        };
        match steps.push(step) {
            Ok(()) => {}
            Err(_) => return Err(ScriptFault::Memory),
        }
    }
    Ok(steps)
}
