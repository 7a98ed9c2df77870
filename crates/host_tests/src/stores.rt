//! Runs with a store of variables, and steps that print memory and variables.
use crate::runs::{Answered, expect, run_over};
use host_engine::Status;
use std::alloc::Global;
use std::test::Fail;
use uh_base::MemFiles;

/// One variable, `A` of a vendor, with attributes 7 and the bytes 01 02.
const STORE: &[u8; 40] =
    b"UVS1\x01\x00\x00\x00\x61\xdf\xe4\x8b\xca\x93\xd2\x11\xaa\x0d\x00\xe0\x98\x03\x2b\x8c\x07\x00\x00\x00\x01\x00\x00\x00\x02\x00\x00\x00\x41\x00\x01\x02";

/// Runs the script file `S` over the store file `V`.
fn kept(alloc: Global, script: &str, store: &[u8]) -> Result<Answered, Fail> {
    let mut files = MemFiles::new(alloc, Vec::new(alloc));
    files.add(alloc, "S", script.as_bytes())?;
    files.add(alloc, "V", store)?;
    run_over(alloc, files, &[])
}

/// Prints the variables of the store.
const PRINTS: &str = "
ram_pages = 256
store = \"V\"
[[step]]
do = \"vars\"
";

/// Stores, and what `PRINTS` comes to over them.
const STORES: [(&[u8], Status, &str, &str); 5] = [
    (
        STORE,
        Status::Done,
        "vars 555653310100000061dfe48bca93d211aa0d00e098032b8c07000000010000000200000041000102\nend\n",
        "",
    ),
    (
        b"UVS1\x00\x00\x00\x00",
        Status::Done,
        "vars 5556533100000000\nend\n",
        "",
    ),
    (b"UVS2", Status::Script, "", "uefihost: script 0 Store\n"),
    (
        b"UVS1\x01\x00\x00\x00\x61\xdf\xe4\x8b\xca\x93\xd2\x11\xaa\x0d\x00\xe0\x98\x03\x2b\x8c\x07\x00\x00\x00\x01\x00\x00\x00\x02\x00\x00\x00\x41\x00\x01",
        Status::Script,
        "",
        "uefihost: script 0 Store\n",
    ),
    (
        b"UVS1\x01\x00\x00\x00\x61\xdf\xe4\x8b\xca\x93\xd2\x11\xaa\x0d\x00\xe0\x98\x03\x2b\x8c\x07\x00\x00\x00\x01\x00\x00\x00\x02\x00\x00\x00\x41\x00\x01\x02\x03",
        Status::Script,
        "",
        "uefihost: script 0 Store\n",
    ),
];

#[test]
fn a_store_is_loaded_or_refused(rt: HostRuntime) -> Result<(), Fail> {
    let alloc = rt.alloc();
    for (store, status, lines, message) in STORES.iter() {
        let made = kept(alloc, PRINTS, *store)?;
        expect(&rt, &made, *status, *lines, *message);
    }
    let mut long = Vec::new(alloc);
    long.resize(0x2_0000, 0u8)?;
    let refused = kept(alloc, PRINTS, long.as_slice())?;
    expect(
        &rt,
        &refused,
        Status::Script,
        "",
        "uefihost: script 0 Store\n",
    );
    long.push(0)?;
    let too_long = kept(alloc, PRINTS, long.as_slice())?;
    expect(&rt, &too_long, Status::Size, "", "uefihost: size V\n");
    Ok(())
}

/// Scripts whose store is refused, and what is named before it.
const ORDERS: [(&str, Status, &str); 4] = [
    (
        "store = \"V\"\n[[image]]\nname = \"bad\"\ntext = \"start: foo\"\n[[step]]\ndo = \"vars\"\n",
        Status::Assembly,
        "uefihost: assembly bad 1 Word\n",
    ),
    (
        "store = \"none\"\n[[image]]\nname = \"bad\"\ntext = \"start: foo\"\n[[step]]\ndo = \"vars\"\n",
        Status::Read,
        "uefihost: read none\n",
    ),
    (
        "store = \"none\"\n[[image]]\nname = \"app\"\nfile = \"app.efi\"\n[[step]]\ndo = \"vars\"\n",
        Status::Read,
        "uefihost: read app.efi\n",
    ),
    (
        "store = \"none\"\n[[step]]\ndo = \"vars\"\n[[step]]\ndo = \"map\"\nentries = []\n",
        Status::Script,
        "uefihost: script 2 Value\n",
    ),
];

#[test]
fn a_store_is_read_behind_images_and_judged_behind_texts(rt: HostRuntime) -> Result<(), Fail> {
    for (script, status, message) in ORDERS.iter() {
        let refused = kept(rt.alloc(), *script, b"UVS2")?;
        expect(&rt, &refused, *status, "", *message);
    }
    Ok(())
}

/// Prints the variables of the store, adds the bytes 03 04 to `A`, and prints them again. Memory is printed too: the image's
/// first instruction, before it runs and when it is gone; the last byte of RAM; and bytes of which one lies behind RAM, below
/// it, or at the last address.
const ADDS: &str = "
ram_pages = 256
store = \"V\"
[[image]]
name = \"add\"
text = \"\"\"
start: ld t1, 88(a1)
ld t0, 88(t1)
la a0, name
la a1, vendor
li a2, 0x47
li a3, 2
la a4, bytes
jr t0
vendor: .guid 8be4df61-93ca-11d2-aa0d-00e098032b8c
name: .ascii16 \"A\"
bytes: .half 0x0403
\"\"\"
[[step]]
do = \"vars\"
[[step]]
do = \"load\"
image = \"add\"
[[step]]
do = \"peek\"
at = \"0x400bb000\"
len = 4
[[step]]
do = \"start\"
image = \"add\"
[[step]]
do = \"vars\"
[[step]]
do = \"peek\"
at = \"0x400bb000\"
len = 4
[[step]]
do = \"peek\"
at = \"0x400fffff\"
len = 1
[[step]]
do = \"peek\"
at = \"0x400fffff\"
len = 2
[[step]]
do = \"peek\"
at = \"0x3fffffff\"
len = 4096
[[step]]
do = \"peek\"
at = \"0xffffffffffffffff\"
len = 1
";

#[test]
fn variables_and_memory_are_printed(rt: HostRuntime) -> Result<(), Fail> {
    let made = kept(rt.alloc(), ADDS, STORE)?;
    expect(
        &rt,
        &made,
        Status::Done,
        "vars 555653310100000061dfe48bca93d211aa0d00e098032b8c07000000010000000200000041000102
load add 0000000000000000 00000000400ba000 2
peek 00000000400bb000 03b38505
start add 0000000000000000 13
vars 555653310100000061dfe48bca93d211aa0d00e098032b8c070000000100000004000000410001020304
peek 00000000400bb000 00000000
peek 00000000400fffff 00
peek 00000000400fffff fault
peek 000000003fffffff fault
peek ffffffffffffffff fault
end
",
        "",
    );
    Ok(())
}
