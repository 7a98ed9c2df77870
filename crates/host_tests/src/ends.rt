//! The end of boot services, by a loader and by a step (UEFI 2.10, 7.4.6).

use crate::runs::ran;
use host_engine::Status;
use std::test::Fail;

/// The script of `examples/exit`: a driver that is told of the end, and a loader that asks for it with a stale key and then
/// with the present one.
const LOADER: &str = "
[[image]]
name = \"drv\"
text = \"\"\"
.subsystem 12
start: addi sp, sp, -16
sd ra, 8(sp)
la t1, table
sd a1, 0(t1)
ld t0, 96(a1)
li a0, 0x201
li a1, 8
la a2, bye
li a3, 0
mv a4, sp
ld t0, 80(t0)
jalr ra, 0(t0)
ld ra, 8(sp)
addi sp, sp, 16
ret
bye: la t0, table
ld t0, 0(t0)
ld a0, 64(t0)
la a1, text
ld t0, 8(a0)
jr t0
.data
table: .dword 0
text: .ascii16 \"Bye\"
\"\"\"
[[image]]
name = \"loader\"
text = \"\"\"
start: addi sp, sp, -64
sd ra, 56(sp)
sd s0, 48(sp)
sd s1, 40(sp)
sd s2, 32(sp)
mv s0, a0
ld s1, 96(a1)
ld s2, 88(a1)
li t1, 4096
sd t1, 24(sp)
addi a0, sp, 24
la a1, map
addi a2, sp, 16
addi a3, sp, 8
mv a4, sp
ld t0, 56(s1)
jalr ra, 0(t0)
bnez a0, out
mv a0, s0
ld a1, 16(sp)
addi a1, a1, -1
ld t0, 232(s1)
jalr ra, 0(t0)
beqz a0, out
mv a0, s0
ld a1, 16(sp)
ld t0, 232(s1)
jalr ra, 0(t0)
bnez a0, out
la a0, map
li a1, 0
ld t0, 24(s2)
jalr ra, 0(t0)
out: ld s2, 32(sp)
ld s1, 40(sp)
ld s0, 48(sp)
ld ra, 56(sp)
addi sp, sp, 64
ret
.data
map: .zero 4096
\"\"\"
[[step]]
do = \"load\"
image = \"drv\"
[[step]]
do = \"start\"
image = \"drv\"
[[step]]
do = \"load\"
image = \"loader\"
[[step]]
do = \"start\"
image = \"loader\"
[[step]]
do = \"peek\"
at = \"0x40ffe040\"
len = 48
[[step]]
do = \"exit_boot\"
image = \"drv\"
[[step]]
do = \"start\"
image = \"drv\"
[[step]]
do = \"memmap\"
";

const LOADER_LINES: &[u8] = b"load drv 0000000000000000 0000000040fb9000 3
start drv 0000000000000000 19
load loader 0000000000000000 0000000040fb5000 3
console Bye
start loader 0000000000000000 58
peek 0000000040ffe040 00000000000000000000000000000000000000000000000000e1ff400000000000000000000000000000000000000000
exit_boot 8000000000000003
start drv 8000000000000002 0
memmap 4
7 0000000040000000 4021 0000000000000008
1 0000000040fb5000 3 0000000000000008
4 0000000040fb8000 1 0000000000000008
5 0000000040fb9000 3 8000000000000008
2 0000000040fbc000 33 0000000000000008
4 0000000040fdd000 33 0000000000000008
6 0000000040ffe000 1 8000000000000008
5 0000000040fff000 1 8000000000000008
end
";

/// Steps that end boot services with another key, without one, and once more; behind that no image comes, begins or goes.
const STEPS: &str = "
[[image]]
name = \"app\"
text = \"\"\"
start: ret
\"\"\"
[[step]]
do = \"exit_boot\"
image = \"app\"
[[step]]
do = \"load\"
image = \"app\"
[[step]]
do = \"exit_boot\"
image = \"app\"
key = \"1\"
[[step]]
do = \"exit_boot\"
image = \"app\"
[[step]]
do = \"exit_boot\"
image = \"app\"
[[step]]
do = \"start\"
image = \"app\"
[[step]]
do = \"load\"
image = \"app\"
[[step]]
do = \"unload\"
image = \"app\"
";

const STEP_LINES: &[u8] = b"exit_boot 8000000000000002
load app 0000000000000000 0000000040fba000 2
exit_boot 8000000000000002
exit_boot 0000000000000000
exit_boot 8000000000000003
start app 8000000000000002 0
load app 8000000000000003 0000000000000000 0
unload app 8000000000000003
end
";

/// An application that ends boot services and then asks for a block of the pool.
const LATE: &str = "
[[image]]
name = \"app\"
text = \"\"\"
start: ld s1, 96(a1)
li a1, 3
ld t0, 232(s1)
jalr ra, 0(t0)
ld t0, 64(s1)
jalr ra, 0(t0)
\"\"\"
[[step]]
do = \"load\"
image = \"app\"
[[step]]
do = \"start\"
image = \"app\"
";

const LATE_LINES: &[u8] = b"load app 0000000000000000 0000000040fba000 2
halt boot-gone 0000000040fff050 0000000000000000
";

#[test]
fn boot_services_end(rt: HostRuntime) -> Result<(), Fail> {
    const RUNS: [(&str, Status, &[u8]); 3] = [
        (LOADER, Status::Done, LOADER_LINES),
        (STEPS, Status::Done, STEP_LINES),
        (LATE, Status::Halted, LATE_LINES),
    ];
    for (script, status, lines) in RUNS {
        let made = ran(rt.alloc(), script.as_bytes(), b"", &[])?;
        assert_eq!(rt; made.status, status);
        assert!(rt; made.out.written() == lines);
    }
    Ok(())
}
