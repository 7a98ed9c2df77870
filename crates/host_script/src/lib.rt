//! The script of a run: what a TOML document says, or the first thing that is wrong with it.
#![tactic(auto)]

mod fault;
mod fields;
mod images;
mod lists;
mod reading;
mod script;
mod settings;
mod steps;
mod words;

pub use fault::{ScriptFault, ScriptKind};
pub use reading::{read_script, scripts_keep_forms};
pub use script::{
    Arg, Buffer, CallStep, ImageSpec, MapEntry, MapStep, Origin, Script, Shown, Step, Target,
};
