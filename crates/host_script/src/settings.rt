//! The settings of a run.
ghost use Rattle.std.specs.Prelude.{◌≡◌, IfOk, option_copied};
ghost use Rattle.toml.specs.View.{table_view};
ghost use Rattle.host_script.specs.Faults.{Gives};
ghost use Rattle.host_script.specs.Fields.{seen_one};
ghost use Rattle.host_script.specs.Settings.{is_time, time_of, rises, rising, ticks_of, trace_of, settings_of};

use crate::fault::{Fault, ScriptKind};
use crate::fields;
use crate::lists::{few, forms_of, texts_field};
use std::alloc::{AllocError, Global};
use std::marker::Model;
use time_service::Clock;
use toml::Table;
use uh_base::Text;

/// The settings that a top table gives or leaves.
#[derive(Drop)]
pub(crate) struct Settings {
    pub(crate) time: Text,
    pub(crate) ticks: Vec<u64>,
    pub(crate) os_virtual: Option<u64>,
    pub(crate) trace: bool,
    pub(crate) store: Option<Text>,
}

impl Model for Settings {
    ghost use Rattle.host_script.specs.Settings.{Settings as Told};

    ghost Value = { Told };

    ghost view = { λ s. record { time = s.time; ticks = s.ticks.items; os_virtual = s.os_virtual; trace = s.trace; store = s.store } };
}

/// Whether a text sets a clock.
#[tactic(auto, unfolding(crate::specs::Settings::is_time))]
fn is_time(text: &str) -> bool
    ensures { result ≡ is_time text.now }
{
    match Clock::at(text) {
        Some(_) => true,
        None => false,
    }
}

/// The time at opening: 2024-01-01T00:00:00 where the key isn't there.
#[tactic(auto, unfolding(crate::specs::Settings::time_of))]
fn time_of(top: &Table) -> Result<&str, ScriptKind>
    ensures { seen_one result ≡ time_of (table_view top.now) }
{
    match fields::text_field(top, "time")? {
        None => Ok("2024-01-01T00:00:00"),
        Some(text) => {
            if is_time(text) {
                Ok(text)
            } else {
                Err(ScriptKind::Value)
            }
        }
    }
}

/// Whether each number is above the one before, the first above 0.
fn rises(numbers: &[u64]) -> bool
    ensures { result ≡ rises 0 numbers.now }
{
    let mut before = 0;
    for number in numbers {
        if *number <= before {
            return false;
        }
        before = *number;
    }
    true
}

/// Refuses moments that don't rise.
fn rising(ticks: Vec<u64>) -> Result<Vec<u64>, Fault>
    ensures { Gives (λ kept. kept.items) result (rising ticks.items) }
{
    if rises(ticks.as_slice()) {
        Ok(ticks)
    } else {
        Err(Fault::Kind(ScriptKind::Value))
    }
}

/// The tick moments, at most 1,024.
#[tactic(auto, unfolding(crate::specs::Settings::ticks_of))]
fn ticks_of(alloc: Global, top: &Table) -> Result<Vec<u64>, Fault>
    ensures { Gives (λ ticks. ticks.items) result (ticks_of (table_view top.now)) }
{
    let ticks = forms_of(alloc, texts_field(top, "ticks")?)?;
    few(rising(ticks)?, 1024)
}

/// Whether the services are traced: not where the key isn't there.
#[tactic(auto, unfolding(crate::specs::Settings::trace_of))]
fn trace_of(top: &Table) -> Result<bool, ScriptKind>
    ensures { result ≡ trace_of (table_view top.now) }
{
    match fields::flag_field(top, "trace")? {
        Some(trace) => Ok(trace),
        None => Ok(false),
    }
}

/// A text that may be there, once more.
fn copy_of(alloc: Global, text: Option<&str>) -> Result<Option<Text>, AllocError>
    ensures { IfOk result (λ copy. copy ≡ option_copied text.entry) }
{
    match text {
        Some(text) => Ok(Some(Text::new(alloc, text)?)),
        None => Ok(None),
    }
}

#[tactic(auto, unfolding(crate::specs::Settings::settings_of))]
pub(crate) fn settings_of(alloc: Global, top: &Table) -> Result<Settings, Fault>
    ensures { Gives (λ settings. settings) result (settings_of (table_view top.now)) }
{
    let time = time_of(top)?;
    let ticks = ticks_of(alloc, top)?;
    let os_virtual = fields::number_field(top, "os_virtual")?;
    let trace = trace_of(top)?;
    let store = fields::text_field(top, "store")?;
    Ok(Settings {
        time: Text::new(alloc, time)?,
        ticks,
        os_virtual,
        trace,
        store: copy_of(alloc, store)?,
    })
}
