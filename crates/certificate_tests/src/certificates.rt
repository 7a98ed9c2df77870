//! Certificates by hand from docs/certificate.md, and its worked one.
use prov_cert::{CertFault, Class, Part, cert_text, read_cert};
use prov_types::{Kind, Span};
use std::alloc::Global;
use std::process::Abort;
use std::test::Fail;

/// The worked certificate.
const WORKED: &str = "regions = [\"0 0x2008 16384\"]
spans = [\"0 0x1074 116 code\", \"0 0x2000 8 convert p 4 256\", \"0 0x2008 8 convert p 6 0\", \"0 0x2010 8 fixed\", \"6 0 8 plain\"]
entries = [\"count 0; a0 n\"]
notify = [3]
nodes = [
\"0x1074; ra p 3 0, sp p 1 65536, a0 n; ; 1; \",
\"0x1078; ra p 3 0, sp p 1 65536, t0 p 0 0x2074, a0 n; ; 2; \",
\"0x10a0; ra p 3 0, sp p 1 65536, a0 n; ; ; \",
\"0x10a4; ra p 5 1072, sp p 1 65536; ; 4; \",
\"0x10ac; sp p 1 65520; 65528 8 p 5 1072; 5; \",
\"0x10e4; ra p 5 1072, sp p 1 65536; ; ; 0 1\",
]
";

#[test]
fn worked_certificate_is_read(rt: HostRuntime) -> Result<(), Fail> {
    let cert = match read_cert(rt.alloc(), WORKED.as_bytes()) {
        Ok(cert) => cert,
        Err(fault) => panic!(rt; "{fault:?}"),
    };
    assert!(rt; cert.regions.len() == 1 && cert.spans.len() == 5 && cert.entries.len() == 1);
    assert!(rt; cert.notify.as_slice() == [3].as_slice() && cert.nodes.len() == 6);
    assert!(rt; cert.regions[0].cell_at == 0x2008 && cert.regions[0].len == 16384);
    let cell = Kind::Ptr(
        6,
        Span {
            lo: 0,
            hi: 0,
            by: 1,
        },
    );
    assert!(rt; cert.spans[2].class == Class::Convert(cell));
    assert!(rt; cert.entries[0].name.as_str() == "count" && cert.entries[0].node == 0);
    let last = &cert.nodes[5];
    assert!(rt; last.at == 0x10e4 && last.regs.len() == 2 && last.next.is_empty());
    assert!(rt; last.done.as_slice() == [0, 1].as_slice());
    let stack = cert.nodes[4].stack.as_slice();
    assert!(rt; stack.len() == 1);
    let part = &stack[0];
    assert!(rt; part.at == 65528 && part.width == 8);
    Ok(())
}

/// Certificates, each with its text: the worked one, one of kinds in forms that aren't the shortest, and an empty one.
static TEXTS: [(&str, &str); 3] = [
    (
        WORKED,
        "regions = [\"0 8200 16384\"]
spans = [\"0 4212 116 code\", \"0 8192 8 convert p 4 256\", \"0 8200 8 convert p 6 0\", \"0 8208 8 fixed\", \"6 0 8 plain\"]
entries = [\"count 0; a0 n\"]
notify = [3]
nodes = [
\"4212; ra p 3 0, sp p 1 65536, a0 n; ; 1; \",
\"4216; ra p 3 0, sp p 1 65536, t0 p 0 8308, a0 n; ; 2; \",
\"4256; ra p 3 0, sp p 1 65536, a0 n; ; ; \",
\"4260; ra p 5 1072, sp p 1 65536; ; 4; \",
\"4268; sp p 1 65520; 65528 8 p 5 1072; 5; \",
\"4324; ra p 5 1072, sp p 1 65536; ; ; 0 1\",
]
",
    ),
    (
        "nodes = ['0; zero any,t6 n 0 18446744073709551615 1 , a0 n 5 5 1;24 8 any,0 1 n 5 5 8, 16 8 n , 8 2 p 2 0x10 16 1;0  0;']
notify = [0, 0]
entries = ['_ 0x0;']
spans = [' 0 0 4 num n 0 0xff 5 ', '1 2 3 code', '0 8 8 convert o 0 0 64 8']
regions = []
",
        "regions = []
spans = [\"0 0 4 num n 0 255 5\", \"1 2 3 code\", \"0 8 8 convert o 0 0 64 8\"]
entries = [\"_ 0; \"]
notify = [0, 0]
nodes = [
\"0; zero any, t6 n, a0 c 5; 24 8 any, 0 1 n 5 5 8, 16 8 n, 8 2 p 2 16; 0 0; \",
]
",
    ),
    (
        "regions = []\nspans = []\nentries = []\nnotify = []\nnodes = []\n",
        "regions = []\nspans = []\nentries = []\nnotify = []\nnodes = []\n",
    ),
];

#[test]
fn certificates_have_their_texts(rt: HostRuntime) -> Result<(), Fail> {
    let alloc = rt.alloc();
    for (text, wanted) in &TEXTS {
        for read in &[*text, *wanted] {
            match read_cert(alloc, read.as_bytes()) {
                Ok(cert) => {
                    let written = cert_text(alloc, &cert)?;
                    assert!(rt; written.as_str() == *wanted, "{}", written.as_str());
                }
                Err(fault) => panic!(rt; "{read}: {fault:?}"),
            }
        }
    }
    Ok(())
}

/// Reads each text, and compares the fault.
fn compare(rt: &impl Abort, alloc: Global, rows: &[(&str, Part, u32)]) -> Result<(), Fail> {
    for (text, part, index) in rows {
        let fault = read_cert(alloc, text.as_bytes()).err();
        let wanted = Some(CertFault::At {
            part: *part,
            index: *index,
        });
        assert!(rt; fault == wanted, "{text}: {fault:?}");
    }
    Ok(())
}

/// Documents, each with its fault.
static DOCUMENTS: [(&str, Part, u32); 9] = [
    ("regions = [", Part::Text, 0),
    ("regions = [9223372036854775808]", Part::Text, 0),
    ("", Part::Keys, 0),
    (
        "regions = []\nspans = []\nentries = []\nnotify = []\n",
        Part::Keys,
        0,
    ),
    (
        "regions = []\nspans = []\nentries = []\nnotify = []\nnodes = 1\n",
        Part::Keys,
        0,
    ),
    (
        "regions = []\nspans = []\nentries = []\nnotify = []\nnodes = []\nmore = 1\n",
        Part::Keys,
        0,
    ),
    (
        "regions = []\nspans = []\nentries = []\nnotify = [0, 0, 0, 0, 0, 0, 0, 0, 0, 0, 0, 0, 0, 0, 0, 0, 0]\nnodes = []\n",
        Part::Keys,
        0,
    ),
    (
        "regions = []\nspans = []\nentries = []\nnotify = []\n[[nodes]]\nat = 1\n",
        Part::Nodes,
        0,
    ),
    (
        "regions = [1]\nspans = [1]\nentries = [1]\nnotify = [1]\nnodes = [1]\n",
        Part::Regions,
        0,
    ),
];

#[test]
fn documents_have_their_faults(rt: HostRuntime) -> Result<(), Fail> {
    compare(&rt, rt.alloc(), &DOCUMENTS)
}

/// Items behind good ones, where there are one own region, one node and one convertible cell: the lists, and the fault
/// of the last item of the one that is judged.
static ITEMS: [(&str, &str, &str, &str, &str, Part, u32); 50] = [
    ("\"6 0 8\"", "", "", "", "", Part::Regions, 0),
    ("\"0 0 8\", \"7 0 8\"", "", "", "", "", Part::Regions, 1),
    ("\"0 0\"", "", "", "", "", Part::Regions, 0),
    ("\"0 0 8 9\"", "", "", "", "", Part::Regions, 0),
    ("\"0 00 8\"", "", "", "", "", Part::Regions, 0),
    (
        "\"0 0 18446744073709551616\"",
        "",
        "",
        "",
        "",
        Part::Regions,
        0,
    ),
    ("\"0\\t0 8\"", "", "", "", "", Part::Regions, 0),
    ("", "\"6 0 8 plain\"", "", "", "", Part::Spans, 0),
    (
        "",
        "\"0 0 8 plain\", \"0 0 8 plane\"",
        "",
        "",
        "",
        Part::Spans,
        1,
    ),
    ("", "\"0 0 8 plain n\"", "", "", "", Part::Spans, 0),
    ("", "\"0 0 3 num n\"", "", "", "", Part::Spans, 0),
    ("", "\"0 0 8 num p 0 0\"", "", "", "", Part::Spans, 0),
    ("", "\"0 0 8 num any\"", "", "", "", Part::Spans, 0),
    ("", "\"0 0 4 fixed\"", "", "", "", Part::Spans, 0),
    ("", "\"0 0 8 convert n\"", "", "", "", Part::Spans, 0),
    ("", "\"0 0 4 convert p 0 0\"", "", "", "", Part::Spans, 0),
    ("", "\"0 0 8 num n 0 8 0\"", "", "", "", Part::Spans, 0),
    ("", "\"0 0 8 num n 8 0 1\"", "", "", "", Part::Spans, 0),
    ("", "\"0 0 8 num n 0 7 2\"", "", "", "", Part::Spans, 0),
    ("", "\"0 0 8 num n 5\"", "", "", "", Part::Spans, 0),
    ("", "\"0 0 8 num c\"", "", "", "", Part::Spans, 0),
    ("", "\"0 0 8 convert p 6 0\"", "", "", "", Part::Spans, 0),
    ("", "\"0 0 8 convert o 0 0 8\"", "", "", "", Part::Spans, 0),
    ("", "", "\"count 1; \"", "", "", Part::Entries, 0),
    ("", "", "\"count 0\"", "", "", Part::Entries, 0),
    ("", "", "\"Count 0; \"", "", "", Part::Entries, 0),
    ("", "", "\"count 0; a0 n; \"", "", "", Part::Entries, 0),
    ("", "", "\"count 0; a0 n, a0 n\"", "", "", Part::Entries, 0),
    ("", "", "\"count 0; a9 n\"", "", "", Part::Entries, 0),
    ("", "", "\"count 0; a0 n,\"", "", "", Part::Entries, 0),
    ("", "", "", "1", "", Part::Notify, 0),
    ("", "", "", "0, -1", "", Part::Notify, 1),
    ("", "", "", "\"0\"", "", Part::Notify, 0),
    ("", "", "", "", "\"0; ; ; \"", Part::Nodes, 1),
    ("", "", "", "", "\"0; ; ; ; ;\"", Part::Nodes, 1),
    ("", "", "", "", "\"; ; ; ; \"", Part::Nodes, 1),
    ("", "", "", "", "\"0; ra; ; ; \"", Part::Nodes, 1),
    ("", "", "", "", "\"0; x1 n; ; ; \"", Part::Nodes, 1),
    (
        "",
        "",
        "",
        "",
        "\"0; ra n, zero n, ra n; ; ; \"",
        Part::Nodes,
        1,
    ),
    ("", "", "", "", "\"0; ; 4 8 n; ; \"", Part::Nodes, 1),
    ("", "", "", "", "\"0; ; 0 3 n; ; \"", Part::Nodes, 1),
    ("", "", "", "", "\"0; ; 0 8 n, 4 4 n; ; \"", Part::Nodes, 1),
    ("", "", "", "", "\"0; ; 7 1 n, 0 8 n; ; \"", Part::Nodes, 1),
    (
        "",
        "",
        "",
        "",
        "\"0; ; 8 4 n, 0 8 n, 8 4 n; ; \"",
        Part::Nodes,
        1,
    ),
    (
        "",
        "",
        "",
        "",
        "\"0; ; 8 8 n, 16 8 n, 0 8 n, 10 2 n; ; \"",
        Part::Nodes,
        1,
    ),
    (
        "",
        "",
        "",
        "",
        "\"0; ; 18446744073709551608 8 n, 0 8 n, 18446744073709551615 1 n; ; \"",
        Part::Nodes,
        1,
    ),
    ("", "", "", "", "\"0; ; ; 2; \"", Part::Nodes, 1),
    ("", "", "", "", "\"0; ; ; 0, 1; \"", Part::Nodes, 1),
    ("", "", "", "", "\"0; ; ; ; 0\"", Part::Nodes, 1),
    ("", "", "", "", "\"0; ; ; -1; \"", Part::Nodes, 1),
];

#[test]
fn items_have_their_faults(rt: HostRuntime) -> Result<(), Fail> {
    let alloc = rt.alloc();
    for (regions, spans, entries, notify, node, part, index) in &ITEMS {
        let text = format!(in alloc;
            "regions = [{regions}]\nspans = [{spans}]\nentries = [{entries}]\nnotify = [{notify}]\nnodes = [\"0; zero any; 8 8 n 5 5 8,0 8 c 1 ; 0  0 ; \", {node}]\n"
        )?;
        let text = if node.is_empty() {
            format!(in alloc;
                "regions = [{regions}]\nspans = [{spans}]\nentries = [{entries}]\nnotify = [{notify}]\nnodes = [\"0; zero any; 8 8 n 5 5 8,0 8 c 1 ; 0  0 ; \"]\n"
            )?
        } else {
            text
        };
        let fault = read_cert(alloc, text.as_bytes()).err();
        let wanted = Some(CertFault::At {
            part: *part,
            index: *index,
        });
        assert!(rt; fault == wanted, "{text}: {fault:?}");
    }
    Ok(())
}

#[test]
fn cut_certificates_are_refused(rt: HostRuntime) -> Result<(), Fail> {
    let bytes = WORKED.as_bytes();
    let last = bytes.len() - 1;
    for end in 0..last {
        let cut = read_cert(rt.alloc(), &bytes[..end]).err();
        let refused = match cut {
            Some(
                CertFault::At {
                    part: Part::Text | Part::Keys,
                    index: 0,
                },
            ) => true,
            _ => false,
        };
        assert!(rt; refused, "{end}: {cut:?}");
    }
    Ok(())
}

#[test]
fn lists_of_4096_are_read(rt: HostRuntime) -> Result<(), Fail> {
    let alloc = rt.alloc();
    for count in 4096..4098 {
        let mut text = String::from_str(
            alloc,
            "regions = []\nspans = []\nentries = []\nnotify = []\nnodes = [\n",
        )?;
        for _ in 0..count {
            text.push_str("\"0x1074; ra p 3 0, sp p 1 65536, a0 n; 65528 8 p 5 1072; 1; \",\n")?;
        }
        text.push_str("]\n")?;
        let read = match read_cert(alloc, text.as_bytes()) {
            Ok(cert) => cert.nodes.len(),
            Err(
                CertFault::At {
                    part: Part::Keys,
                    index: 0,
                },
            ) => 0,
            Err(_) => 1,
        };
        let wanted = if count == 4096 { 4096 } else { 0 };
        assert!(rt; read == wanted, "{count}: {read}");
    }
    Ok(())
}
