//! Runs of scripts by the top call, over files and outputs in memory.
use host_engine::{Status, host_main};
use std::alloc::Global;
use std::process::Abort;
use std::test::Fail;
use uh_base::{MemFiles, MemSink};

/// What a run answered and put.
#[derive(Drop)]
pub(crate) struct Answered {
    pub(crate) status: Status,
    pub(crate) out: MemSink,
    err: MemSink,
}

/// Writes bytes at an offset of a file.
fn write(file: &mut Vec<u8>, at: usize, bytes: &[u8]) {
    for (i, byte) in bytes.iter().enumerate() {
        if at < file.len() && i < file.len() - at {
            file[at + i] = *byte;
        }
    }
}

/// An image of one section, whose code stands at 0x1000 in memory and at 0x200 in the file.
fn image(alloc: Global, code: &[u8]) -> Result<Vec<u8>, Fail> {
    let mut file = Vec::new(alloc);
    file.resize(1024, 0u8)?;
    write(&mut file, 0, b"MZ");
    write(&mut file, 0x3c, b"\x40");
    write(&mut file, 0x40, b"PE\0\0\x64\x50\x01");
    write(&mut file, 0x54, b"\xf0");
    write(&mut file, 0x58, b"\x0b\x02");
    write(&mut file, 0x68, b"\x00\x10");
    write(&mut file, 0x78, b"\x00\x10\x00\x00\x00\x02");
    write(&mut file, 0x90, b"\x00\x20\x00\x00\x00\x02");
    write(&mut file, 0x9c, b"\x0a");
    write(&mut file, 0xc4, b"\x10");
    write(&mut file, 0x148, b".text");
    write(
        &mut file,
        0x150,
        b"\x32\x00\x00\x00\x00\x10\x00\x00\x00\x02\x00\x00\x00\x02",
    );
    write(&mut file, 0x16c, b"\x00\x00\x00\x60");
    write(&mut file, 0x200, code);
    Ok(file)
}

/// Runs the script file `S` over one image file, `app.efi`, where the puts of the given numbers fail.
pub(crate) fn ran(
    alloc: Global,
    script: &[u8],
    file: &[u8],
    fail: &[u32],
) -> Result<Answered, Fail> {
    let mut files = MemFiles::new(alloc, Vec::new(alloc));
    files.add(alloc, "S", script)?;
    files.add(alloc, "app.efi", file)?;
    run_over(alloc, files, fail)
}

/// Runs the script file `S` of some files.
pub(crate) fn run_over(alloc: Global, files: MemFiles, fail: &[u32]) -> Result<Answered, Fail> {
    command_over(alloc, &["run", "S"], files, fail)
}

/// Does what words ask for, over some files.
fn command_over(
    alloc: Global,
    command: &[&str],
    files: MemFiles,
    fail: &[u32],
) -> Result<Answered, Fail> {
    let mut files = files;
    let mut out = MemSink::new(alloc, 1000, Vec::from_slice(alloc, fail)?)?;
    let mut err = MemSink::new(alloc, 200, Vec::new(alloc))?;
    let mut words = Vec::new(alloc);
    for word in command {
        words.push(String::from_str(alloc, *word)?)?;
    }
    let status = host_main(alloc, words.as_slice(), &mut files, &mut out, &mut err);
    Ok(Answered { status, out, err })
}

/// A text in which another one stands for each occurrence of a word.
pub(crate) fn replaced(alloc: Global, text: &str, word: &str, with: &str) -> Result<String, Fail> {
    let mut made = String::new(alloc);
    for (place, part) in text.split(word).enumerate() {
        if place > 0 {
            made.push_str(with)?;
        }
        made.push_str(part)?;
    }
    Ok(made)
}

/// Stops the test unless a run answered and put this.
pub(crate) fn expect(rt: &impl Abort, ran: &Answered, status: Status, text: &str, message: &str) {
    assert_eq!(rt; ran.status, status);
    assert!(rt; ran.out.written() == text.as_bytes());
    assert!(rt; ran.err.written() == message.as_bytes());
}

const SCRIPT: &[u8] = b"
[[image]]
name = \"app\"
file = \"app.efi\"
[[step]]
do = \"load\"
image = \"app\"
[[step]]
do = \"start\"
image = \"app\"
bound = 100
";

/// Prints `Hi` by the console of the system table, and returns 0.
const HELLO: &[u8; 50] =
    b"\x03\xb5\x05\x04\x97\x05\x00\x00\x93\x85\x85\x02\x83\x32\x85\x00\x13\x01\x01\xff\x23\x34\x11\x00\xe7\x80\x02\x00\x83\x30\x81\x00\x13\x01\x01\x01\x13\x05\x00\x00\x67\x80\x00\x00\x48\x00\x69\x00\x00\x00";

#[test]
fn an_image_is_loaded_prints_and_returns(rt: HostRuntime) -> Result<(), Fail> {
    let alloc = rt.alloc();
    let file = image(alloc, HELLO)?;
    let whole = ran(alloc, SCRIPT, file.as_slice(), &[])?;
    expect(
        &rt,
        &whole,
        Status::Done,
        "load app 0000000000000000 0000000040fba000 2\nconsole Hi\nstart app 0000000000000000 13\nend\n",
        "",
    );
    let cut = ran(
        alloc,
        SCRIPT,
        file.as_slice().get(..367).unwrap_or(b"".as_slice()),
        &[],
    )?;
    expect(
        &rt,
        &cut,
        Status::Done,
        "load app 8000000000000001 0000000000000000 0\nstart app 8000000000000002 0\nend\n",
        "",
    );
    let unput = ran(alloc, SCRIPT, file.as_slice(), &[1])?;
    expect(
        &rt,
        &unput,
        Status::Write,
        "load app 0000000000000000 0000000040fba000 2\n",
        "uefihost: write\n",
    );
    Ok(())
}

#[test]
fn a_trap_and_the_bound_halt_a_run(rt: HostRuntime) -> Result<(), Fail> {
    let alloc = rt.alloc();
    let rows: [(&[u8], &str); 4] = [
        // ebreak
        (
            b"\x73\x00\x10\x00",
            "halt ebreak 0000000040fbb000 0000000000000000\n",
        ),
        // jr zero
        (
            b"\x67\x00\x00\x00",
            "halt fetch 0000000000000000 0000000000000000\n",
        ),
        // j to itself
        (
            b"\x6f\x00\x00\x00",
            "halt bound 0000000040fbb000 0000000000000000\n",
        ),
        // sd zero, 0(t0), into the section that may not be written: auipc t0, 0 first
        (
            b"\x97\x02\x00\x00\x23\xb0\x02\x00",
            "halt store 0000000040fbb004 0000000040fbb000\n",
        ),
    ];
    for (code, line) in rows.iter() {
        let file = image(alloc, code)?;
        let halted = ran(alloc, SCRIPT, file.as_slice(), &[])?;
        let text = format!(in alloc; "load app 0000000000000000 0000000040fba000 2\n{}", *line)?;
        expect(&rt, &halted, Status::Halted, text.as_str(), "");
    }
    Ok(())
}

#[test]
fn a_script_is_refused_where_it_says_no_steps(rt: HostRuntime) -> Result<(), Fail> {
    let alloc = rt.alloc();
    let rows: [(&[u8], &str); 4] = [
        (b"", "uefihost: script 0 Missing\n"),
        (b"[[step", "uefihost: script 0 Text\n"),
        (
            b"[[step]]\ndo = \"load\"\nimage = \"app\"",
            "uefihost: script 1 Name\n",
        ),
        (b"[[step]]\nimage = \"app\"", "uefihost: script 1 Missing\n"),
    ];
    for (script, message) in rows.iter() {
        let refused = ran(alloc, script, b"", &[])?;
        expect(&rt, &refused, Status::Script, "", *message);
    }
    Ok(())
}

#[test]
fn files_that_are_not_there_or_too_long_are_named(rt: HostRuntime) -> Result<(), Fail> {
    let alloc = rt.alloc();
    let none = run_over(alloc, MemFiles::new(alloc, Vec::new(alloc)), &[])?;
    expect(&rt, &none, Status::Read, "", "uefihost: read S\n");
    let mut files = MemFiles::new(alloc, Vec::new(alloc));
    files.add(alloc, "S", SCRIPT)?;
    let no_image = run_over(alloc, files, &[])?;
    expect(&rt, &no_image, Status::Read, "", "uefihost: read app.efi\n");
    let mut long = Vec::new(alloc);
    long.resize(0x10_0001, b'\n')?;
    let long_script = ran(alloc, long.as_slice(), b"", &[])?;
    expect(&rt, &long_script, Status::Size, "", "uefihost: size S\n");
    long.resize(0x40_0001, 0u8)?;
    let long_image = ran(alloc, SCRIPT, long.as_slice(), &[])?;
    expect(
        &rt,
        &long_image,
        Status::Size,
        "",
        "uefihost: size app.efi\n",
    );
    Ok(())
}

/// The text of the image that `HELLO` is the code of.
const HELLO_TEXT: &[u8] = b"
start:  ld   a0, 64(a1)
        la   a1, message
        ld   t0, 8(a0)
        addi sp, sp, -16
        sd   ra, 8(sp)
        jalr ra, 0(t0)
        ld   ra, 8(sp)
        addi sp, sp, 16
        li   a0, 0
        ret
message: .ascii16 \"Hi\"
";

#[test]
fn a_text_is_assembled_to_the_image_of_the_file(rt: HostRuntime) -> Result<(), Fail> {
    let alloc = rt.alloc();
    let mut files = MemFiles::new(alloc, Vec::new(alloc));
    files.add(alloc, "hello.s", HELLO_TEXT)?;
    let mut out = MemSink::new(alloc, 2000, Vec::new(alloc))?;
    let mut err = MemSink::new(alloc, 200, Vec::new(alloc))?;
    let mut words = Vec::new(alloc);
    for word in ["build", "hello.s"].iter() {
        words.push(String::from_str(alloc, *word)?)?;
    }
    let status = host_main(alloc, words.as_slice(), &mut files, &mut out, &mut err);
    assert_eq!(rt; status, Status::Done);
    let file = image(alloc, HELLO)?;
    assert!(rt; out.written() == file.as_slice());
    Ok(())
}

#[test]
fn images_are_made_of_texts(rt: HostRuntime) -> Result<(), Fail> {
    let alloc = rt.alloc();
    let rows: [(&[u8], &str); 3] = [
        // a page of type 2 that a guest is given, and keeps when it is unloaded
        (
            b"ram_pages = 256
[[image]]
name = \"a\"
text = \"\"\"
start: addi sp, sp, -32
sd ra, 0(sp)
sd zero, 8(sp)
ld t0, 96(a1)
ld t0, 40(t0)
addi a0, zero, 0
addi a1, zero, 2
addi a2, zero, 1
addi a3, sp, 8
jalr ra, 0(t0)
ld a0, 8(sp)
ld ra, 0(sp)
addi sp, sp, 32
ret
\"\"\"
[[step]]
do = \"load\"
image = \"a\"
[[step]]
do = \"start\"
image = \"a\"
[[step]]
do = \"memmap\"
",
            "load a 0000000000000000 00000000400ba000 2
start a 00000000400b8000 16
memmap 6
7 0000000040000000 184 0000000000000008
2 00000000400b8000 1 0000000000000008
7 00000000400b9000 3 0000000000000008
2 00000000400bc000 33 0000000000000008
4 00000000400dd000 33 0000000000000008
6 00000000400fe000 1 8000000000000008
5 00000000400ff000 1 8000000000000008
end
",
        ),
        // one site of a doubleword, in an image that is moved
        (
            b"
[[image]]
name = \"m\"
text = \"\"\"
.alignment 32
start: la t0, cell
ld t0, 0(t0)
la t1, start
sub a0, t0, t1
ret
.data
cell: .dword start
\"\"\"
[[step]]
do = \"load\"
image = \"m\"
[[step]]
do = \"start\"
image = \"m\"
",
            "load m 0000000000000000 0000000040fbb000 1\nstart m 0000000000000000 8\nend\n",
        ),
        // the address of `start` leaves the range of LUI where RAM begins at 2 GiB
        (
            b"ram_base = \"0x80000000\"
[[image]]
name = \"x\"
text = \"\"\"
.base 0x10000
start: lui a0, %hi(start)
ret
\"\"\"
[[step]]
do = \"load\"
image = \"x\"
",
            "load x 8000000000000001 0000000000000000 0\nend\n",
        ),
    ];
    for (script, lines) in rows.iter() {
        let made = ran(alloc, script, b"", &[])?;
        expect(&rt, &made, Status::Done, *lines, "");
    }
    Ok(())
}

#[test]
fn an_image_file_is_told_and_listed(rt: HostRuntime) -> Result<(), Fail> {
    let alloc = rt.alloc();
    let file = image(alloc, HELLO)?;
    let cut = file.as_slice().get(..367).unwrap_or(b"".as_slice());
    let rows: [(&str, &[u8], Status, &str); 4] = [
        (
            "image",
            file.as_slice(),
            Status::Done,
            "image 10 0000000000000000 8192 4096 4096 relocatable\nsection 0 4096 50 50 r-x\nend\n",
        ),
        (
            "list",
            file.as_slice(),
            Status::Done,
            "section 0
00001000 0405b503 ld a0, 64(a1)
00001004 00000597 auipc a1, 0
00001008 02858593 addi a1, a1, 40
0000100c 00853283 ld t0, 8(a0)
00001010 ff010113 addi sp, sp, -16
00001014 00113423 sd ra, 8(sp)
00001018 000280e7 jalr ra, 0(t0)
0000101c 00813083 ld ra, 8(sp)
00001020 01010113 addi sp, sp, 16
00001024 00000513 addi a0, zero, 0
00001028 00008067 jalr zero, 0(ra)
0000102c 0048 addi a0, sp, 4
0000102e 0069 addi zero, zero, 26
00001030 0000 -
end
",
        ),
        ("image", cut, Status::Halted, "refused Truncated(364)\n"),
        ("list", cut, Status::Halted, "refused Truncated(364)\n"),
    ];
    for (command, bytes, status, lines) in rows.iter() {
        let mut files = MemFiles::new(alloc, Vec::new(alloc));
        files.add(alloc, "app.efi", *bytes)?;
        let told = command_over(alloc, &[*command, "app.efi"], files, &[])?;
        expect(&rt, &told, *status, *lines, "");
    }
    Ok(())
}

/// Loads the image, prints the map, starts the image, and prints the map again.
const MAPS: &[u8] = b"
[[image]]
name = \"app\"
file = \"app.efi\"
[[step]]
do = \"load\"
image = \"app\"
[[step]]
do = \"memmap\"
[[step]]
do = \"start\"
image = \"app\"
[[step]]
do = \"memmap\"
";

#[test]
fn the_memory_map_is_told_with_its_key(rt: HostRuntime) -> Result<(), Fail> {
    let alloc = rt.alloc();
    let file = image(alloc, HELLO)?;
    let told = ran(alloc, MAPS, file.as_slice(), &[])?;
    expect(
        &rt,
        &told,
        Status::Done,
        "load app 0000000000000000 0000000040fba000 2
memmap 3
7 0000000040000000 4025 0000000000000008
4 0000000040fb9000 1 0000000000000008
1 0000000040fba000 2 0000000000000008
2 0000000040fbc000 33 0000000000000008
4 0000000040fdd000 33 0000000000000008
6 0000000040ffe000 1 8000000000000008
5 0000000040fff000 1 8000000000000008
console Hi
start app 0000000000000000 13
memmap 5
7 0000000040000000 4028 0000000000000008
2 0000000040fbc000 33 0000000000000008
4 0000000040fdd000 33 0000000000000008
6 0000000040ffe000 1 8000000000000008
5 0000000040fff000 1 8000000000000008
end
",
        "",
    );
    Ok(())
}

#[test]
fn texts_are_judged_in_order_after_all_files(rt: HostRuntime) -> Result<(), Fail> {
    let alloc = rt.alloc();
    let rows: [(&[u8], Status, &str); 3] = [
        (
            b"
[[image]]
name = \"bad\"
text = \"start: foo\"
[[image]]
name = \"none\"
file = \"none.efi\"
[[step]]
do = \"load\"
image = \"bad\"
",
            Status::Read,
            "uefihost: read none.efi\n",
        ),
        (
            b"
[[image]]
name = \"good\"
text = \"start: ret\"
[[image]]
name = \"first\"
text = \"start: ret\\nstart: ret\"
[[image]]
name = \"second\"
text = \"foo\"
[[step]]
do = \"load\"
image = \"good\"
",
            Status::Assembly,
            "uefihost: assembly first 2 Twice\n",
        ),
        (
            b"
[[image]]
name = \"bad\"
text = \"start: foo\"
[[step]]
do = \"load\"
image = \"good\"
",
            Status::Script,
            "uefihost: script 1 Name\n",
        ),
    ];
    for (script, status, message) in rows.iter() {
        let refused = ran(alloc, script, b"", &[])?;
        expect(&rt, &refused, *status, "", *message);
    }
    Ok(())
}
