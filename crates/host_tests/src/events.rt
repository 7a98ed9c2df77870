//! Runs with events, levels and ticks.
use crate::runs::{ran, replaced};
use host_engine::Status;
use std::test::Fail;

/// Signals two events above their levels, waits for a timer, is told of a protocol, closes an event twice, and signals a group.
const EVENTS: &[u8] = b"
[[image]]
name = \"events\"
text = \"\"\"
start: addi sp, sp, -112
sd ra, 104(sp)
sd s0, 96(sp)
sd s1, 88(sp)
sd s2, 80(sp)
ld s0, 96(a1)
li s1, 0
la s2, log
li a1, 8
li a3, 1
addi a4, sp, 8
call make
li t1, 0
call check
ld a0, 8(sp)
li t1, 24
call same
li a1, 16
li a3, 2
addi a4, sp, 16
call make
li t1, 0
call check
li a0, 31
call raise
li t1, 4
call same
ld a0, 8(sp)
call signal
li t1, 0
call check
ld a0, 16(sp)
call signal
li t1, 0
call check
ld a0, 0(s2)
li t1, 0
call same
li a0, 4
ld t0, 32(s0)
call jump
li t1, 0
call same
ld a0, 0(s2)
li t1, 0x21
call same
ld a0, 8(sp)
call ready
li t1, 2
call check
lui a0, 0x80000
addi a0, a0, 0x100
slli a0, a0, 32
srli a0, a0, 32
li a1, 8
la a2, note
li a3, 3
addi a4, sp, 24
ld t0, 80(s0)
call jump
li t1, 0
call check
ld a0, 24(sp)
li a1, 2
li a2, 50000
ld t0, 88(s0)
call jump
li t1, 0
call check
ld a0, 24(sp)
call ready
li t1, 6
call check
li a0, 1
call wait
li t1, 0
call check
ld a0, 40(sp)
li t1, 0
call same
ld a0, 0(s2)
li t1, 0x2133
call same
ld a0, 24(sp)
call ready
li t1, 6
call check
li a0, 8
call raise
li a0, 1
call wait
li t1, 3
call check
li a0, 4
ld t0, 32(s0)
call jump
sd zero, 0(s2)
li a1, 8
li a3, 4
addi a4, sp, 48
call make
la a0, own
ld a1, 48(sp)
addi a2, sp, 56
ld t0, 168(s0)
call jump
li t1, 0
call check
sd zero, 64(sp)
addi a0, sp, 64
la a1, own
li a2, 0
li a3, 0
ld t0, 128(s0)
call jump
li t1, 0
call check
ld a0, 0(s2)
li t1, 4
call same
call locate
li t1, 0
call check
call locate
li t1, 14
call check
ld a0, 48(sp)
call close
li t1, 0
call check
ld a0, 48(sp)
call close
li t1, 2
call check
sd zero, 0(s2)
li a3, 5
addi a5, sp, 48
call join
li a3, 6
addi a5, sp, 56
call join
ld a0, 56(sp)
call signal
li t1, 0
call check
ld a0, 0(s2)
li t1, 0x65
call same
li a0, 1000
ld t0, 248(s0)
call jump
li t1, 0
call check
ld t0, 256(s0)
call jump
li t1, 0
call check
li a0, 0
leave: ld s2, 80(sp)
ld s1, 88(sp)
ld s0, 96(sp)
ld ra, 104(sp)
addi sp, sp, 112
ret
note: la t0, log
ld t1, 0(t0)
slli t1, t1, 4
add t1, t1, a1
sd t1, 0(t0)
ret
make: li a0, 0x200
la a2, note
ld t0, 80(s0)
jr t0
join: li a0, 0x200
li a1, 8
la a2, note
la a4, own
ld t0, 368(s0)
jr t0
raise: ld t0, 24(s0)
jr t0
signal: ld t0, 104(s0)
jr t0
close: ld t0, 112(s0)
jr t0
ready: ld t0, 120(s0)
jr t0
wait: addi a1, sp, 24
addi a2, sp, 40
ld t0, 96(s0)
jr t0
locate: la a0, own
ld a1, 56(sp)
addi a2, sp, 72
ld t0, 320(s0)
jump: jr t0
check: beqz t1, same
li t0, 1
slli t0, t0, 63
add t1, t1, t0
same: addi s1, s1, 1
beq a0, t1, right
mv a0, s1
j leave
right: ret
.data
log: .dword 0
own: .guid 8be4df61-93ca-11d2-aa0d-00e098032b8c
\"\"\"
[[step]]
do = \"load\"
image = \"events\"
[[step]]
do = \"start\"
image = \"events\"
";

/// At 23 units of time it jumps to RaiseTPL, with a timer that is due; the notification prints a line.
const ORDER: &str = "
ram_pages = 256
trace = true
ticks = [TICKS]
[[image]]
name = \"order\"
text = \"\"\"
start: addi sp, sp, -32
sd ra, 24(sp)
sd s0, 16(sp)
ld s0, 96(a1)
ld a3, 64(a1)
lui a0, 0x80000
addi a0, a0, 0x200
li a1, 16
la a2, note
addi a4, sp, 8
ld t0, 80(s0)
jalr ra, 0(t0)
ld a0, 8(sp)
li a1, 2
li a2, 0
ld t0, 88(s0)
jalr ra, 0(t0)
li a0, 31
ld t0, 24(s0)
jalr ra, 0(t0)
li a0, 4
ld t0, 32(s0)
jalr ra, 0(t0)
ld s0, 16(sp)
ld ra, 24(sp)
addi sp, sp, 32
li a0, 0
ret
note: mv a0, a1
la a1, text
ld t0, 8(a0)
jr t0
.data
text: .ascii16 \"note\"
\"\"\"
[[step]]
do = \"load\"
image = \"order\"
[[step]]
do = \"start\"
image = \"order\"
";

#[test]
fn guests_are_notified_as_the_standard_says(rt: HostRuntime) -> Result<(), Fail> {
    let made = ran(rt.alloc(), EVENTS, b"", &[])?;
    assert_eq!(rt; made.status, Status::Done);
    assert!(rt;
        made.out.written().starts_with(
            b"load events 0000000000000000 0000000040fb9000 3\nstart events 0000000000000000 "
        )
    );
    assert!(rt; made.out.written().ends_with(b"\nend\n"));
    Ok(())
}

/// The timer is set at 20 units, and RaiseTPL answers at 24. A tick between them is told before, up to the last jump, at 33,
/// one is told behind, and no other one is told.
const BEFORE: &[u8] =
    b"\nsvc SetTimer 0000000000000000\nconsole note\nsvc RaiseTPL 0000000000000004\nsvc RestoreTPL 0000000000000000\nstart order 0000000000000000 41\nend\n";

const BEHIND: &[u8] =
    b"\nsvc SetTimer 0000000000000000\nsvc RaiseTPL 0000000000000004\nsvc RestoreTPL 0000000000000000\nconsole note\nstart order 0000000000000000 41\nend\n";

const NEVER: &[u8] =
    b"\nsvc SetTimer 0000000000000000\nsvc RaiseTPL 0000000000000004\nsvc RestoreTPL 0000000000000000\nstart order 0000000000000000 34\nend\n";

/// Lists of tick moments, and how the run of `ORDER` ends with them.
const TICKS: [(&str, &[u8]); 20] = [
    ("", NEVER),
    ("\"1\"", NEVER),
    ("\"5\", \"10\"", NEVER),
    ("\"19\"", NEVER),
    ("\"34\"", NEVER),
    ("\"19\", \"34\", \"10001\"", NEVER),
    ("\"20\"", BEFORE),
    ("\"21\"", BEFORE),
    ("\"22\"", BEFORE),
    ("\"23\"", BEFORE),
    ("\"1\", \"2\", \"3\", \"20\"", BEFORE),
    ("\"19\", \"23\", \"24\"", BEFORE),
    ("\"22\", \"23\", \"24\", \"25\"", BEFORE),
    ("\"24\"", BEHIND),
    ("\"25\"", BEHIND),
    ("\"26\", \"27\"", BEHIND),
    ("\"28\"", BEHIND),
    ("\"33\"", BEHIND),
    ("\"19\", \"24\", \"30\"", BEHIND),
    ("\"1\", \"33\", \"18446744073709551615\"", BEHIND),
];

#[test]
fn lines_differ_only_where_a_tick_makes_them(rt: HostRuntime) -> Result<(), Fail> {
    for (ticks, last) in TICKS.iter() {
        let script = replaced(rt.alloc(), ORDER, "TICKS", *ticks)?;
        let made = ran(rt.alloc(), script.as_bytes(), b"", &[])?;
        assert_eq!(rt; made.status, Status::Done);
        assert!(rt; made.out.written().ends_with(last));
    }
    Ok(())
}

/// Begins with the boot services table in t1 and the runtime services table in t2.
const ENDS: &str = "
[[image]]
name = \"app\"
text = \"\"\"
start: ld t1, 96(a1)
ld t2, 88(a1)
CODE
\"\"\"
[[step]]
do = \"load\"
image = \"app\"
[[step]]
do = \"start\"
image = \"app\"
";

#[test]
fn a_run_ends_with_what_a_guest_asks_for(rt: HostRuntime) -> Result<(), Fail> {
    let rows: [(&str, Status, &[u8]); 5] = [
        (
            "li a0, 3\nld t0, 24(t1)\njalr ra, 0(t0)",
            Status::Halted,
            b"\nhalt tpl 0000000040fff000 0000000000000000\n",
        ),
        (
            "li a0, 5\nld t0, 32(t1)\njalr ra, 0(t0)",
            Status::Halted,
            b"\nhalt tpl 0000000040fff010 0000000000000000\n",
        ),
        (
            "addi sp, sp, -16\nli a0, 0\nli a1, 0\nmv a4, sp\nld t0, 80(t1)\njalr ra, 0(t0)\nli a0, 1\nmv a1, sp\naddi a2, sp, 8\nld t0, 96(t1)\njalr ra, 0(t0)",
            Status::Halted,
            b"\nhalt idle 0000000040fff090 0000000000000000\n",
        ),
        (
            "addi sp, sp, -16\nli a0, 0x200\nli a1, 8\nla a2, note\nmv a3, t1\nmv a4, sp\nmv s0, t1\nld t0, 80(s0)\njalr ra, 0(t0)\nld a0, 0(sp)\nld t0, 104(s0)\njalr ra, 0(t0)\nnote: mv s0, a1\nld t0, 104(s0)\njalr ra, 0(t0)\nli a0, 4\nld t0, 32(s0)\njalr ra, 0(t0)",
            Status::Halted,
            b"\nhalt depth 0000000040fbb054 0000000000000000\n",
        ),
        (
            "li a0, 2\nli a1, 5\nld t0, 104(t2)\njalr ra, 0(t0)",
            Status::Done,
            b"\nreset 2 0000000000000005\n",
        ),
    ];
    for (code, status, last) in rows.iter() {
        let script = replaced(rt.alloc(), ENDS, "CODE", *code)?;
        let made = ran(rt.alloc(), script.as_bytes(), b"", &[])?;
        assert_eq!(rt; made.status, *status);
        assert!(rt; made.out.written().ends_with(last));
    }
    Ok(())
}
