//! Steps of scripts, by hand from the rules: each key with each fault.
use host_script::{ScriptFault, ScriptKind, read_script};
use std::alloc::Global;
use std::process::Abort;
use std::test::Fail;

/// A step with these keys, in a script of one image.
fn script_of(alloc: Global, keys: &str) -> Result<String, Fail> {
    Ok(format!(in alloc; "image = [{{ name = \"app\", file = \"\" }}]\nstep = [{{ {keys} }}]\n")?)
}

/// Reads a script with each step, and compares the fault.
fn compare(rt: &impl Abort, alloc: Global, rows: &[(&str, ScriptKind)]) -> Result<(), Fail> {
    for (keys, kind) in rows {
        let script = script_of(alloc, keys)?;
        let fault = read_script(alloc, script.as_bytes()).err();
        let wanted = Some(ScriptFault::At {
            step: 1,
            kind: *kind,
        });
        assert!(rt; fault == wanted, "{keys}: {fault:?}");
    }
    Ok(())
}

const IMAGES: [(&str, ScriptKind); 20] = [
    ("do = \"unload\"", ScriptKind::Missing),
    ("do = \"unload\", image = 1", ScriptKind::Shape),
    ("do = \"unload\", image = \"App\"", ScriptKind::Value),
    ("do = \"unload\", image = \"b\"", ScriptKind::Name),
    (
        "do = \"unload\", image = \"b\", key = \"1\"",
        ScriptKind::Key,
    ),
    ("do = \"exit_boot\", key = \"1\"", ScriptKind::Missing),
    (
        "do = \"exit_boot\", image = \"b\", key = 1",
        ScriptKind::Name,
    ),
    (
        "do = \"exit_boot\", image = \"app\", key = 1",
        ScriptKind::Shape,
    ),
    (
        "do = \"exit_boot\", image = \"app\", key = \"01\"",
        ScriptKind::Value,
    ),
    (
        "do = \"exit_boot\", image = \"app\", bound = 1",
        ScriptKind::Key,
    ),
    ("do = \"check\", file = \"c\"", ScriptKind::Missing),
    ("do = \"check\", image = \"b\"", ScriptKind::Name),
    ("do = \"check\", image = \"app\"", ScriptKind::Missing),
    (
        "do = \"check\", image = \"app\", file = 1",
        ScriptKind::Shape,
    ),
    (
        "do = \"check\", image = \"app\", text = 1",
        ScriptKind::Shape,
    ),
    (
        "do = \"check\", image = \"app\", file = \"c\", text = \"\"",
        ScriptKind::Shape,
    ),
    (
        "do = \"check\", image = \"app\", cert = \"c\"",
        ScriptKind::Key,
    ),
    ("do = \"vars\", image = \"app\"", ScriptKind::Key),
    ("do = \"memmap\", key = \"1\"", ScriptKind::Key),
    ("do = \"walk\"", ScriptKind::Value),
];

const MAPS: [(&str, ScriptKind); 18] = [
    ("do = \"map\"", ScriptKind::Missing),
    ("do = \"map\", image = \"app\"", ScriptKind::Key),
    ("do = \"map\", entries = \"0 1 0\"", ScriptKind::Shape),
    ("do = \"map\", entries = [\"0 1\", 1]", ScriptKind::Shape),
    ("do = \"map\", entries = [\"0 1\"]", ScriptKind::Value),
    ("do = \"map\", entries = [\"0 1 0 \"]", ScriptKind::Value),
    ("do = \"map\", entries = [\"0  1 0\"]", ScriptKind::Value),
    (
        "do = \"map\", entries = [\"0 1 0 Plain\"]",
        ScriptKind::Value,
    ),
    (
        "do = \"map\", entries = [\"0 1 0 plain 0\"]",
        ScriptKind::Value,
    ),
    ("do = \"map\", entries = [\"0 01 0\"]", ScriptKind::Value),
    (
        "do = \"map\", entries = [], size = \"40\"",
        ScriptKind::Shape,
    ),
    ("do = \"map\", entries = [], size = -1", ScriptKind::Value),
    (
        "do = \"map\", entries = [], size = 4294967296",
        ScriptKind::Value,
    ),
    (
        "do = \"map\", entries = [], version = 1.0",
        ScriptKind::Shape,
    ),
    (
        "do = \"map\", entries = [], version = 4294967296",
        ScriptKind::Value,
    ),
    ("do = \"peek\", len = 1", ScriptKind::Missing),
    ("do = \"peek\", at = 0, len = 1", ScriptKind::Shape),
    ("do = \"peek\", at = \"0x\", len = 0", ScriptKind::Value),
];

const PEEKS: [(&str, ScriptKind); 4] = [
    ("do = \"peek\", at = \"0\"", ScriptKind::Missing),
    ("do = \"peek\", at = \"0\", len = \"1\"", ScriptKind::Shape),
    ("do = \"peek\", at = \"0\", len = 0", ScriptKind::Value),
    ("do = \"peek\", at = \"0\", len = 4097", ScriptKind::Value),
];

const TARGETS: [(&str, ScriptKind); 14] = [
    ("do = \"call\"", ScriptKind::Missing),
    ("do = \"call\", args = 1", ScriptKind::Missing),
    ("do = \"call\", at = \"0\"", ScriptKind::Missing),
    ("do = \"call\", image = \"app\"", ScriptKind::Missing),
    ("do = \"call\", image = 1, at = \"0\"", ScriptKind::Shape),
    ("do = \"call\", image = \"App\", at = 0", ScriptKind::Value),
    ("do = \"call\", image = \"b\", at = 0", ScriptKind::Name),
    ("do = \"call\", image = \"app\", at = 0", ScriptKind::Shape),
    (
        "do = \"call\", image = \"app\", at = \"x\"",
        ScriptKind::Value,
    ),
    (
        "do = \"call\", image = \"app\", service = \"GetTime\"",
        ScriptKind::Shape,
    ),
    (
        "do = \"call\", at = \"0\", service = \"GetTime\", args = 1",
        ScriptKind::Shape,
    ),
    ("do = \"call\", service = 1", ScriptKind::Shape),
    ("do = \"call\", service = \"getTime\"", ScriptKind::Value),
    ("do = \"call\", service = \"\"", ScriptKind::Value),
];

const CALLS: [(&str, ScriptKind); 22] = [
    (
        "do = \"call\", service = \"Stall\", args = \"1\"",
        ScriptKind::Shape,
    ),
    (
        "do = \"call\", service = \"Stall\", args = [1]",
        ScriptKind::Shape,
    ),
    (
        "do = \"call\", service = \"Stall\", args = [\"@\"]",
        ScriptKind::Value,
    ),
    (
        "do = \"call\", service = \"Stall\", args = [\"@@1\"]",
        ScriptKind::Value,
    ),
    (
        "do = \"call\", service = \"Stall\", args = [\"1@\"]",
        ScriptKind::Value,
    ),
    (
        "do = \"call\", service = \"Stall\", args = [\"1\", \"2\", \"3\", \"4\", \"5\", \"6\", \"7\", \"8\", \"9\"]",
        ScriptKind::Count,
    ),
    (
        "do = \"call\", service = \"Stall\", buffers = [\"0\"]",
        ScriptKind::Value,
    ),
    (
        "do = \"call\", service = \"Stall\", buffers = [\"0 \"]",
        ScriptKind::Value,
    ),
    (
        "do = \"call\", service = \"Stall\", buffers = [\"0 0\"]",
        ScriptKind::Value,
    ),
    (
        "do = \"call\", service = \"Stall\", buffers = [\"0 0F\"]",
        ScriptKind::Value,
    ),
    (
        "do = \"call\", service = \"Stall\", buffers = [\"0 00 00\"]",
        ScriptKind::Value,
    ),
    (
        "do = \"call\", service = \"Stall\", buffers = [\"65535 0000\"]",
        ScriptKind::Value,
    ),
    (
        "do = \"call\", service = \"Stall\", buffers = [\"4294967296 00\"]",
        ScriptKind::Value,
    ),
    (
        "do = \"call\", service = \"Stall\", buffers = [], show = 1",
        ScriptKind::Shape,
    ),
    (
        "do = \"call\", service = \"Stall\", show = [\"0 0\"]",
        ScriptKind::Value,
    ),
    (
        "do = \"call\", service = \"Stall\", show = [\"0 4097\"]",
        ScriptKind::Value,
    ),
    (
        "do = \"call\", service = \"Stall\", show = [\"65535 2\"]",
        ScriptKind::Value,
    ),
    (
        "do = \"call\", service = \"Stall\", show = [\"0 1 \"]",
        ScriptKind::Value,
    ),
    (
        "do = \"call\", service = \"Stall\", bound = 0",
        ScriptKind::Value,
    ),
    (
        "do = \"call\", service = \"Stall\", bound = 50000001",
        ScriptKind::Value,
    ),
    (
        "do = \"call\", service = \"Stall\", bound = \"1\"",
        ScriptKind::Shape,
    ),
    (
        "do = \"call\", service = \"Stall\", name = \"a\"",
        ScriptKind::Key,
    ),
];

#[test]
fn faults_of_steps_on_images(rt: HostRuntime) -> Result<(), Fail> {
    compare(&rt, rt.alloc(), &IMAGES)
}

#[test]
fn faults_of_maps_and_peeks(rt: HostRuntime) -> Result<(), Fail> {
    compare(&rt, rt.alloc(), &MAPS)?;
    compare(&rt, rt.alloc(), &PEEKS)
}

#[test]
fn faults_of_calls(rt: HostRuntime) -> Result<(), Fail> {
    compare(&rt, rt.alloc(), &TARGETS)?;
    compare(&rt, rt.alloc(), &CALLS)
}
