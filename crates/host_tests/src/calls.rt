//! Calls of runtime code behind the end of boot services (UEFI 2.10, 8).

use crate::runs::ran;
use host_engine::Status;
use std::test::Fail;

/// The script of `examples/calls`: a driver's functions, their traps and bounds, and services.
const DRIVER: &str = "
[[image]]
name = \"drv\"
text = \"\"\"
.subsystem 12
start: li a0, 0
ret
count: la t0, total
ld t1, 0(t0)
add a0, t1, a0
sd a0, 0(t0)
ret
copy: beqz a2, done
lbu t0, 0(a0)
sb t0, 0(a1)
addi a0, a0, 1
addi a1, a1, 1
addi a2, a2, -1
j copy
done: li a0, 0
ret
.data
total: .dword 0
\"\"\"
[[step]]
do = \"load\"
image = \"drv\"
[[step]]
do = \"call\"
image = \"drv\"
at = \"0x1008\"
[[step]]
do = \"start\"
image = \"drv\"
[[step]]
do = \"exit_boot\"
image = \"drv\"
[[step]]
do = \"call\"
image = \"drv\"
at = \"0x1008\"
args = [\"5\"]
[[step]]
do = \"call\"
image = \"drv\"
at = \"0x1008\"
args = [\"7\"]
[[step]]
do = \"call\"
image = \"drv\"
at = \"0x1008\"
args = [\"1\"]
bound = 5
[[step]]
do = \"call\"
image = \"drv\"
at = \"0x1020\"
args = [\"@0\", \"@0x10\", \"3\"]
buffers = [\"0 0102\", \"2 03\"]
show = [\"16 4\", \"0 2\"]
[[step]]
do = \"call\"
image = \"drv\"
at = \"0x1020\"
args = [\"16\", \"@0\", \"1\"]
show = [\"0 1\"]
[[step]]
do = \"call\"
image = \"drv\"
at = \"0x2000\"
[[step]]
do = \"call\"
service = \"GetTime\"
[[step]]
do = \"call\"
service = \"GetTime\"
args = [\"@0x20\"]
show = [\"32 4\"]
[[step]]
do = \"call\"
service = \"AllocatePool\"
";

const DRIVER_LINES: &[u8] = b"load drv 0000000000000000 0000000040fb9000 3
call drv early
start drv 0000000000000000 3
exit_boot 0000000000000000
call drv 0000000000000005 7
call drv 000000000000000c 7
call drv bound 5
call drv 0000000000000000 25
bytes 16 01020300
bytes 0 0102
call drv trap load 1
bytes 0 01
call drv trap fetch 0
call GetTime 8000000000000002 2
call GetTime 0000000000000000 2
bytes 32 e8070101
halt boot-gone 0000000040fff050 0000000000000000
";

/// A function that gives its own address.
const PLACE: &str = "
[[image]]
name = \"drv\"
text = \"\"\"
.subsystem 12
start: li a0, 0
ret
where: auipc a0, 0
ret
\"\"\"
[[step]]
do = \"load\"
image = \"drv\"
[[step]]
do = \"start\"
image = \"drv\"
[[step]]
do = \"exit_boot\"
image = \"drv\"
[[step]]
do = \"call\"
image = \"drv\"
at = \"0x1008\"
";

const PLACE_LINES: &[u8] = b"load drv 0000000000000000 0000000040fba000 2
start drv 0000000000000000 3
exit_boot 0000000000000000
call drv 0000000040fbb008 3
end
";

/// A driver that asks for pages and for a function to call at the virtual address change, and then counts in these pages.
const COUNTER: &str = "
[[image]]
name = \"drv\"
text = \"\"\"
.subsystem 12
start: addi sp, sp, -32
sd ra, 24(sp)
sd s0, 16(sp)
ld s0, 96(a1)
ld t0, 88(a1)
la t1, rt
sd t0, 0(t1)
li a0, 0
li a1, 6
li a2, 4
la a3, blk
ld t0, 40(s0)
jalr ra, 0(t0)
bnez a0, out
lui a0, 0x60000
addi a0, a0, 0x202
li a1, 16
la a2, moved
li a3, 0
mv a4, sp
ld t0, 80(s0)
jalr ra, 0(t0)
out: ld s0, 16(sp)
ld ra, 24(sp)
addi sp, sp, 32
ret
count: la t0, fn
ld t0, 0(t0)
jr t0
bump: la t0, blk
ld t0, 0(t0)
ld t1, 0(t0)
add t1, t1, a0
sd t1, 0(t0)
mv a0, t1
ret
moved: addi sp, sp, -16
sd ra, 8(sp)
la t0, rt
ld t0, 0(t0)
ld t0, 64(t0)
li a0, 0
la a1, blk
jalr ra, 0(t0)
li a0, 0
la a1, rt
jalr ra, 0(t0)
ld ra, 8(sp)
addi sp, sp, 16
ret
.data
rt: .dword 0
blk: .dword 0
fn: .dword bump
\"\"\"
[[step]]
do = \"load\"
image = \"drv\"
[[step]]
do = \"start\"
image = \"drv\"
[[step]]
do = \"exit_boot\"
image = \"drv\"
[[step]]
do = \"call\"
image = \"drv\"
at = \"0x1074\"
args = [\"5\"]
bound = 5
[[step]]
do = \"call\"
image = \"drv\"
at = \"0x1074\"
args = [\"5\"]
";

const COUNTER_LINES: &[u8] = b"load drv 0000000000000000 0000000040fb8000 4
start drv 0000000000000000 32
exit_boot 0000000000000000
call drv bound 5
call drv 0000000000000005 13
end
";

/// Calls before the end of boot services, of an image that didn't stay, and of a boot service.
const EARLY: &str = "
[[image]]
name = \"app\"
text = \"\"\"
start: ret
stop: ebreak
\"\"\"
[[step]]
do = \"load\"
image = \"app\"
[[step]]
do = \"exit_boot\"
image = \"app\"
key = \"1\"
[[step]]
do = \"call\"
service = \"GetTime\"
show = [\"0 1\"]
[[step]]
do = \"exit_boot\"
image = \"app\"
[[step]]
do = \"call\"
image = \"app\"
at = \"0x1004\"
[[step]]
do = \"call\"
service = \"AllocatePool\"
";

const EARLY_LINES: &[u8] = b"load app 0000000000000000 0000000040fba000 2
exit_boot 8000000000000002
call GetTime early
exit_boot 0000000000000000
call app early
halt boot-gone 0000000040fff050 0000000000000000
";

/// A function that returns to the slot of boot services, a service that is told, and a reset.
const ENDS: &str = "
trace = true
[[image]]
name = \"drv\"
text = \"\"\"
.subsystem 12
start: li a0, 0
ret
back: li t0, 0x40fff430
jr t0
\"\"\"
[[step]]
do = \"load\"
image = \"drv\"
[[step]]
do = \"exit_boot\"
image = \"drv\"
[[step]]
do = \"call\"
image = \"drv\"
at = \"0x1008\"
[[step]]
do = \"call\"
service = \"GetTime\"
[[step]]
do = \"call\"
service = \"ResetSystem\"
args = [\"2\", \"3\"]
show = [\"0 1\"]
";

const ENDS_LINES: &[u8] = b"load drv 0000000000000000 0000000040fba000 2
exit_boot 0000000000000000
call drv trap fetch 3
svc GetTime 8000000000000002
call GetTime 8000000000000002 2
reset 2 0000000000000003
";

#[test]
fn runtime_code_is_called(rt: HostRuntime) -> Result<(), Fail> {
    const RUNS: [(&str, Status, &[u8]); 5] = [
        (DRIVER, Status::Halted, DRIVER_LINES),
        (PLACE, Status::Done, PLACE_LINES),
        (COUNTER, Status::Done, COUNTER_LINES),
        (EARLY, Status::Halted, EARLY_LINES),
        (ENDS, Status::Done, ENDS_LINES),
    ];
    for (script, status, lines) in RUNS {
        let made = ran(rt.alloc(), script.as_bytes(), b"", &[])?;
        assert_eq!(rt; made.status, status);
        assert!(rt; made.out.written() == lines);
    }
    Ok(())
}
