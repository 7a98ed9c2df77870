//! Scripts by hand from the rules: each with its fault, or none.
use host_script::{Origin, ScriptFault, ScriptKind, Step, read_script};
use std::alloc::Global;
use std::process::Abort;
use std::test::Fail;

/// A script's first lines: one image.
const IMAGE: &str = "[[image]]\nname = \"app\"\nfile = \"app.efi\"\n";

/// Reads each script behind a head, and compares the fault.
fn compare(
    rt: &impl Abort,
    alloc: Global,
    head: &str,
    rows: &[(&str, u32, ScriptKind)],
) -> Result<(), Fail> {
    for (text, step, kind) in rows {
        let script = format!(in alloc; "{head}{text}")?;
        let fault = read_script(alloc, script.as_bytes()).err();
        let wanted = Some(ScriptFault::At {
            step: *step,
            kind: *kind,
        });
        assert!(rt; fault == wanted, "{script}: {fault:?}");
    }
    Ok(())
}

/// Top tables, each with its fault.
const DOCUMENTS: [(&str, u32, ScriptKind); 37] = [
    ("", 0, ScriptKind::Missing),
    ("# a comment alone\n", 0, ScriptKind::Missing),
    ("[[step", 0, ScriptKind::Text),
    ("step = 1\nstep = 2\n", 0, ScriptKind::Text),
    ("step = 9223372036854775808\n", 0, ScriptKind::Text),
    ("steps = 1\n", 0, ScriptKind::Key),
    ("\"\" = 1\n", 0, ScriptKind::Key),
    (
        "traces = true\n[[step]]\ndo = \"load\"\n",
        0,
        ScriptKind::Key,
    ),
    ("time = 2024-01-01T00:00:00\n", 0, ScriptKind::Shape),
    ("time = \"2023-02-29T00:00:00\"\n", 0, ScriptKind::Value),
    ("time = \"2024-01-01\"\nticks = 3\n", 0, ScriptKind::Value),
    ("ticks = \"3\"\n", 0, ScriptKind::Shape),
    ("ticks = [\"x\", 3]\n", 0, ScriptKind::Shape),
    ("ticks = [\"0\"]\n", 0, ScriptKind::Value),
    ("ticks = [\"3\", \"3\"]\n", 0, ScriptKind::Value),
    (
        "ticks = [\"3\", \"4\"]\nos_virtual = 1\n",
        0,
        ScriptKind::Shape,
    ),
    ("os_virtual = \"01\"\n", 0, ScriptKind::Value),
    ("trace = \"true\"\n", 0, ScriptKind::Shape),
    ("store = 1\n", 0, ScriptKind::Shape),
    ("image = 3\n", 0, ScriptKind::Shape),
    ("image = 2024-01-01\n", 0, ScriptKind::Shape),
    ("image = [1]\n", 0, ScriptKind::Shape),
    ("image = [{}, 1]\nstep = 3\n", 0, ScriptKind::Shape),
    (
        "[image]\nname = \"a\"\nfile = \"f\"\n",
        0,
        ScriptKind::Shape,
    ),
    ("image = 3\nother = 1\n", 0, ScriptKind::Key),
    ("ram_base = 0x40000000\nstep = 3\n", 0, ScriptKind::Shape),
    (
        "ram_base = \"0x40000800\"\nstep = 3\n",
        0,
        ScriptKind::Value,
    ),
    ("ram_base = \"0xff000\"\nstep = 3\n", 0, ScriptKind::Value),
    (
        "ram_base = \"0x3fffff001000\"\nstep = 3\n",
        0,
        ScriptKind::Value,
    ),
    ("ram_base = \"4G\"\nimage = 3\n", 0, ScriptKind::Value),
    ("ram_base = \"0x100000\"\nstep = 3\n", 0, ScriptKind::Shape),
    ("step = []\n", 0, ScriptKind::Missing),
    ("step = 3\n", 0, ScriptKind::Shape),
    ("step = [\"load\"]\n", 0, ScriptKind::Shape),
    ("[step]\ndo = \"load\"\n", 0, ScriptKind::Shape),
    (
        "image = [{},{},{},{},{},{},{},{},{},{},{},{},{},{},{},{},{}]\n",
        0,
        ScriptKind::Count,
    ),
    (
        "image = [{},{},{},{},{},{},{},{},{},{},{},{},{},{},{},{},1]\n",
        0,
        ScriptKind::Shape,
    ),
];

#[test]
fn faults_of_the_document(rt: HostRuntime) -> Result<(), Fail> {
    compare(&rt, rt.alloc(), "", &DOCUMENTS)?;
    let fault = read_script(rt.alloc(), b"\xff").err();
    let wanted = Some(ScriptFault::At {
        step: 0,
        kind: ScriptKind::Text,
    });
    assert!(rt; fault == wanted);
    Ok(())
}

/// Images before a step, each with its fault.
const IMAGES: [(&str, u32, ScriptKind); 13] = [
    ("[[image]]\n", 0, ScriptKind::Missing),
    ("[[image]]\nfile = \"f\"\n", 0, ScriptKind::Missing),
    ("[[image]]\nname = \"a\"\n", 0, ScriptKind::Missing),
    ("[[image]]\nname = \"a\"\ntext = 1\n", 0, ScriptKind::Shape),
    (
        "[[image]]\nname = \"a\"\nfile = \"f\"\ntext = \"start: ret\"\n",
        0,
        ScriptKind::Shape,
    ),
    (
        "[[image]]\nname = \"a\"\nfile = \"f\"\npath = 1\n",
        0,
        ScriptKind::Key,
    ),
    ("[[image]]\npath = 1\n", 0, ScriptKind::Key),
    ("[[image]]\nname = 1\nfile = 2\n", 0, ScriptKind::Shape),
    ("[[image]]\nname = \"\"\nfile = 2\n", 0, ScriptKind::Value),
    (
        "[[image]]\nname = \"App\"\nfile = \"f\"\n",
        0,
        ScriptKind::Value,
    ),
    (
        "[[image]]\nname = \"abcdefghijklmnopqrstuvwxyz0123456\"\nfile = \"f\"\n",
        0,
        ScriptKind::Value,
    ),
    (
        "[[image]]\nname = \"a\"\nfile = [\"f\"]\n",
        0,
        ScriptKind::Shape,
    ),
    (
        "[[image]]\nname = \"a\"\nfile = \"f\"\n[[image]]\nname = \"a\"\nfile = 1\n",
        0,
        ScriptKind::Name,
    ),
];

#[test]
fn faults_of_images(rt: HostRuntime) -> Result<(), Fail> {
    compare(&rt, rt.alloc(), "step = [{ do = 1 }]\n", &IMAGES)
}

/// Steps behind one image, each with its fault.
const STEPS: [(&str, u32, ScriptKind); 20] = [
    ("[[step]]\n", 1, ScriptKind::Missing),
    (
        "[[step]]\nimage = \"app\"\nother = 1\n",
        1,
        ScriptKind::Missing,
    ),
    ("[[step]]\ndo = 1\nother = 1\n", 1, ScriptKind::Shape),
    ("[[step]]\ndo = \"Load\"\nother = 1\n", 1, ScriptKind::Value),
    ("[[step]]\ndo = \"peek\"\n", 1, ScriptKind::Missing),
    (
        "[[step]]\ndo = \"load\"\nimage = \"app\"\nbound = 5\n",
        1,
        ScriptKind::Key,
    ),
    ("[[step]]\ndo = \"load\"\n", 1, ScriptKind::Missing),
    ("[[step]]\ndo = \"load\"\nimage = 3\n", 1, ScriptKind::Shape),
    (
        "[[step]]\ndo = \"load\"\nimage = 2024-01-01\n",
        1,
        ScriptKind::Shape,
    ),
    (
        "[[step]]\ndo = \"load\"\nimage = \"a-b\"\n",
        1,
        ScriptKind::Value,
    ),
    (
        "[[step]]\ndo = \"load\"\nimage = \"drv\"\n",
        1,
        ScriptKind::Name,
    ),
    (
        "[[step]]\ndo = \"load\"\nimage = \"app\"\n[[step]]\ndo = \"start\"\nimage = \"b\"\nbound = 0\n",
        2,
        ScriptKind::Name,
    ),
    (
        "[[step]]\ndo = \"start\"\nimage = \"app\"\nbound = 0\n",
        1,
        ScriptKind::Value,
    ),
    (
        "[[step]]\ndo = \"start\"\nimage = \"app\"\nbound = -1\n",
        1,
        ScriptKind::Value,
    ),
    (
        "[[step]]\ndo = \"start\"\nimage = \"app\"\nbound = 50000001\n",
        1,
        ScriptKind::Value,
    ),
    (
        "[[step]]\ndo = \"start\"\nimage = \"app\"\nbound = \"5\"\n",
        1,
        ScriptKind::Shape,
    ),
    (
        "[[step]]\ndo = \"start\"\nimage = \"app\"\nbound = 1.5\n",
        1,
        ScriptKind::Shape,
    ),
    (
        "[[step]]\ndo = \"start\"\nimage = \"app\"\nbound = true\n",
        1,
        ScriptKind::Shape,
    ),
    (
        "[[step]]\ndo = \"start\"\nimage = \"app\"\nbound = 5\nsteps = 5\n",
        1,
        ScriptKind::Key,
    ),
    (
        "[[step]]\ndo = \"start\"\nimage = \"app\"\n[[step]]\ndo = \"load\"\nimage = \"app\"\n[[step]]\ndo = 1\n",
        3,
        ScriptKind::Shape,
    ),
];

#[test]
fn faults_of_steps(rt: HostRuntime) -> Result<(), Fail> {
    compare(&rt, rt.alloc(), IMAGE, &STEPS)
}

#[test]
fn steps_are_at_most_4096(rt: HostRuntime) -> Result<(), Fail> {
    let alloc = rt.alloc();
    let mut script = String::from_str(alloc, "image = [{ name = \"a\", file = \"\" }]\nstep = [")?;
    for _ in 0..4096 {
        script.push_str("{do=\"load\",image=\"a\"},")?;
    }
    let whole = format!(in alloc; "{}]", script.as_str())?;
    let read = read_script(alloc, whole.as_bytes())
        .ok()
        .ok_or("4096 steps")?;
    assert!(rt; read.step.len() == 4096);
    script.push_str("{}]")?;
    let fault = read_script(alloc, script.as_bytes()).err();
    let wanted = Some(ScriptFault::At {
        step: 0,
        kind: ScriptKind::Count,
    });
    assert!(rt; fault == wanted, "{fault:?}");
    Ok(())
}

#[test]
fn a_script(rt: HostRuntime) -> Result<(), Fail> {
    let alloc = rt.alloc();
    let text =
        "# two images\n[[image]]\nname = \"app\"\nfile = \"app.efi\"\n[[image]]\nfile = \"d/drv.efi\"\nname = \"drv_2\"\n[[step]]\nimage = \"drv_2\"\ndo = \"load\"\n[[step]]\ndo = \"start\"\nimage = \"drv_2\"\n[[step]]\ndo = \"start\"\nimage = \"app\"\nbound = 50000000\n";
    let script = read_script(alloc, text.as_bytes()).ok().ok_or("a script")?;
    assert!(rt; script.image.len() == 2);
    assert!(rt; script.image[0].name.as_str() == "app");
    assert!(rt; script.ram_base == 0x4000_0000);
    assert!(rt;
        matches!(&script.image[1].origin, Origin::File(file) if file.as_str() == "d/drv.efi")
    );
    assert!(rt; script.step.len() == 3);
    assert!(rt; matches!(&script.step[0], Step::Load { image } if image.as_str() == "drv_2"));
    assert!(rt;
        matches!(
            &script.step[1],
            Step::Start {
                bound: 1_000_000,
                ..
            }
        )
    );
    assert!(rt;
        matches!(&script.step[2], Step::Start { image, bound: 50_000_000 } if image.as_str() == "app")
    );
    Ok(())
}

#[test]
fn a_script_of_a_text(rt: HostRuntime) -> Result<(), Fail> {
    let bases = [
        ("0x100000", 0x10_0000),
        ("2147483648", 0x8000_0000),
        ("0x3fffff000000", (1 << 46) - (1 << 24)),
    ];
    for (base, wanted) in bases {
        let text = format!(in rt.alloc();
            "ram_base = \"{base}\"\n[[image]]\nname = \"a\"\ntext = \"\"\"\nstart: ret # done\n\"\"\"\n[[step]]\ndo = \"load\"\nimage = \"a\"\n"
        )?;
        let script = read_script(rt.alloc(), text.as_bytes())
            .ok()
            .ok_or("a script")?;
        assert!(rt; script.ram_base == wanted, "{base}");
        assert!(rt; script.image.len() == 1, "{base}");
        assert!(rt;
            matches!(&script.image[0].origin, Origin::Text(text) if text.as_str() == "start: ret # done\n")
        );
    }
    Ok(())
}
