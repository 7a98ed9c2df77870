//! Runs of the top call over files and outputs in memory.
use host_engine::{Status, host_main};
use std::alloc::Global;
use std::process::Abort;
use std::test::Fail;
use uh_base::{MemFiles, MemSink};

/// What a run of the top call answered and put.
#[derive(Drop)]
struct Outcome {
    status: Status,
    out: MemSink,
    err: MemSink,
}

/// The numbers of the calls that fail: reads of files, puts to the output, puts to the error output.
#[derive(Clone, Copy, Drop)]
struct Failing<'a> {
    reads: &'a [u32],
    puts: &'a [u32],
    messages: &'a [u32],
}

const NONE: Failing<'static> = Failing {
    reads: &[],
    puts: &[],
    messages: &[],
};

/// Runs words over one file, `F`.
fn ran(alloc: Global, words: &[&str], file: &[u8], failing: Failing<'_>) -> Result<Outcome, Fail> {
    let mut files = MemFiles::new(alloc, Vec::from_slice(alloc, failing.reads)?);
    files.add(alloc, "F", file)?;
    let mut out = MemSink::new(alloc, 2000, Vec::from_slice(alloc, failing.puts)?)?;
    let mut err = MemSink::new(alloc, 200, Vec::from_slice(alloc, failing.messages)?)?;
    let mut list = Vec::new(alloc);
    for word in words {
        list.push(String::from_str(alloc, word)?)?;
    }
    let status = host_main(alloc, list.as_slice(), &mut files, &mut out, &mut err);
    Ok(Outcome { status, out, err })
}

/// Asserts what a run answered and put.
fn expect(rt: &impl Abort, ran: &Outcome, status: Status, out: &str, err: &str) {
    assert_eq!(rt; ran.status, status);
    assert!(rt; ran.out.written() == out.as_bytes());
    assert!(rt; ran.err.written() == err.as_bytes());
}

#[test]
fn flat_prints_cause_pc_steps_and_a0(rt: HostRuntime) -> Result<(), Fail> {
    let rows: [(&[u8], &str, Status, &str); 7] = [
        (
            b"\x73\x00\x10\x00",
            "1",
            Status::Done,
            "flat ebreak 0000000040000000 0 0000000000000000\n",
        ),
        (
            b"\x13\x05\x50\x00",
            "1",
            Status::Halted,
            "flat bound 0000000040000004 1 0000000000000005\n",
        ),
        (
            b"",
            "1",
            Status::Halted,
            "flat illegal 0000000040000000 0 0000000000000000\n",
        ),
        (
            b"\x67\x00\x00\x00",
            "5",
            Status::Halted,
            "flat fetch 0000000000000000 1 0000000000000000\n",
        ),
        (
            b"\x73\x00\x00\x00",
            "1",
            Status::Halted,
            "flat ecall 0000000040000000 0 0000000000000000\n",
        ),
        // li a0, 5; ebreak, both in 16 bits
        (
            b"\x15\x45\x02\x90",
            "50000000",
            Status::Done,
            "flat ebreak 0000000040000002 1 0000000000000005\n",
        ),
        // sd zero, -1(zero), whose first byte is outside
        (
            b"\xa3\x3f\x00\xfe",
            "1",
            Status::Halted,
            "flat store 0000000040000000 0 0000000000000000\n",
        ),
    ];
    for (file, bound, status, line) in rows.iter() {
        let ran = ran(rt.alloc(), &["flat", "F", *bound], file, NONE)?;
        expect(&rt, &ran, *status, line, "");
    }
    Ok(())
}

#[test]
fn other_words_are_refused(rt: HostRuntime) -> Result<(), Fail> {
    let rows: [&[&str]; 15] = [
        &[],
        &["flat"],
        &["flat", "F"],
        &["flat", "F", "0"],
        &["flat", "F", "01"],
        &["flat", "F", "+1"],
        &["flat", "F", "0x1"],
        &["flat", "F", "50000001"],
        &["flat", "F", "1", "1"],
        &["Flat", "F", "1"],
        &["build"],
        &["build", "F", "1"],
        &["assemble", "F"],
        &["--help", "F"],
        &["-h"],
    ];
    for words in rows.iter() {
        let ran = ran(rt.alloc(), words, b"", NONE)?;
        expect(&rt, &ran, Status::Words, "", "uefihost: usage\n");
    }
    Ok(())
}

#[test]
fn a_refusal_names_its_cause(rt: HostRuntime) -> Result<(), Fail> {
    let alloc = rt.alloc();
    let words = ["flat", "F", "1"];
    let absent = ran(alloc, &["flat", "G", "1"], b"", NONE)?;
    expect(&rt, &absent, Status::Read, "", "uefihost: read G\n");
    let unread = ran(
        alloc,
        &words,
        b"",
        Failing {
            reads: &[0],
            ..NONE
        },
    )?;
    expect(&rt, &unread, Status::Read, "", "uefihost: read F\n");
    let unput = ran(alloc, &words, b"", Failing { puts: &[0], ..NONE })?;
    expect(&rt, &unput, Status::Write, "", "uefihost: write\n");
    let unsaid = ran(
        alloc,
        &words,
        b"",
        Failing {
            reads: &[0],
            messages: &[0],
            ..NONE
        },
    )?;
    expect(&rt, &unsaid, Status::Read, "", "");
    let help = ran(alloc, &["--help"], b"", Failing { puts: &[0], ..NONE })?;
    expect(&rt, &help, Status::Write, "", "uefihost: write\n");
    let version = ran(alloc, &["--version"], b"", NONE)?;
    expect(&rt, &version, Status::Done, "uefihost 0.1.0\n", "");
    Ok(())
}

#[test]
fn build_puts_the_image_of_a_text(rt: HostRuntime) -> Result<(), Fail> {
    let alloc = rt.alloc();
    let built = ran(alloc, &["build", "F"], b"start: ret", NONE)?;
    assert_eq!(rt; built.status, Status::Done);
    assert!(rt; built.out.written().len() == 1024);
    assert!(rt; built.out.written().get(512..516) == Some(b"\x67\x80\x00\x00".as_slice()));
    assert!(rt; built.err.written().is_empty());
    let rows: [(&[u8], &str); 5] = [
        (b"start: foo", "uefihost: assembly F 1 Word\n"),
        (
            b"# nothing\nstart: li a0\nfoo\n",
            "uefihost: assembly F 2 Operand\n",
        ),
        (b"", "uefihost: assembly F 0 Label\n"),
        (b"\xff", "uefihost: assembly F 0 Word\n"),
        (b"start: ret\n\xff", "uefihost: assembly F 0 Word\n"),
    ];
    for (file, message) in rows.iter() {
        let refused = ran(alloc, &["build", "F"], file, NONE)?;
        expect(&rt, &refused, Status::Assembly, "", *message);
    }
    let absent = ran(alloc, &["build", "G"], b"", NONE)?;
    expect(&rt, &absent, Status::Read, "", "uefihost: read G\n");
    let unput = ran(
        alloc,
        &["build", "F"],
        b"start: ret",
        Failing { puts: &[0], ..NONE },
    )?;
    expect(&rt, &unput, Status::Write, "", "uefihost: write\n");
    Ok(())
}

#[test]
fn a_file_of_4_mib_runs_and_a_longer_one_does_not(rt: HostRuntime) -> Result<(), Fail> {
    let alloc = rt.alloc();
    let mut file = Vec::new(alloc);
    file.resize(4_194_304, 0u8)?;
    let longest = ran(alloc, &["flat", "F", "1"], file.as_slice(), NONE)?;
    expect(
        &rt,
        &longest,
        Status::Halted,
        "flat illegal 0000000040000000 0 0000000000000000\n",
        "",
    );
    file.push(0)?;
    let longer = ran(alloc, &["flat", "F", "1"], file.as_slice(), NONE)?;
    expect(&rt, &longer, Status::Size, "", "uefihost: size F\n");
    Ok(())
}
