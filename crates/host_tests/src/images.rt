//! Images that load, start and end images.
use crate::runs::ran;
use host_engine::Status;
use std::test::Fail;

/// The script of `examples/images`: an image that loads two of its own, three images that are started one by the other and end by
/// Exit, and drivers that end with an error and with success.
const IMAGES: &[u8] = b"
[[image]]
name = \"loader\"
text = \"\"\"
start: addi sp, sp, -96
sd ra, 88(sp)
sd s0, 80(sp)
sd s1, 72(sp)
sd s2, 64(sp)
sd s3, 56(sp)
ld s0, 96(a1)
li s1, 0
mv s2, a0
ld s3, 64(a1)
la a3, exits
addi a5, sp, 8
call load
li t1, 0
call check
la a3, stays
addi a5, sp, 16
call load
li t1, 0
call check
la a1, loaded
call print
ld a0, 8(sp)
addi a1, sp, 24
addi a2, sp, 32
ld t0, 208(s0)
call jump
li t1, 5
call same
ld a0, 24(sp)
li t1, 8
call same
ld t0, 32(sp)
ld a0, 0(t0)
li t1, 0x657962
call same
la a1, exited
call print
ld a0, 8(sp)
call unload
li t1, 2
call check
ld a0, 16(sp)
call unload
li t1, 0
call check
ld a0, 16(sp)
call unload
li t1, 2
call check
la a1, gone
call print
mv a0, s2
call unload
li t1, 3
call check
li a0, 0
leave: ld s3, 56(sp)
ld s2, 64(sp)
ld s1, 72(sp)
ld s0, 80(sp)
ld ra, 88(sp)
addi sp, sp, 96
ret
load: li a0, 0
mv a1, s2
li a2, 0
li a4, 480
ld t0, 200(s0)
jr t0
unload: ld t0, 224(s0)
jr t0
print: mv a0, s3
ld t0, 8(s3)
jump: jr t0
check: beqz t1, same
li t0, 1
slli t0, t0, 63
add t1, t1, t0
same: addi s1, s1, 1
beq a0, t1, right
mv a0, s1
j leave
right: ret
.data
loaded: .ascii16 \"two are loaded\"
exited: .ascii16 \"the first has exited\"
gone: .ascii16 \"the second is unloaded\"
exits: .dword 0x5a4d
.zero 48
.dword 0x4000000000
.dword 0x1506400004550
.zero 8
.dword 0xf000000000
.dword 0x20b
.zero 8
.dword 0x180
.zero 8
.dword 0x2000000020
.zero 16
.dword 0x180000001e0
.dword 0xa00000000
.zero 32
.dword 0x1000000000
.zero 128
.dword 0x747865742e
.dword 0x18000000044
.dword 0x18000000060
.zero 8
.dword 0x6000000000000000
.zero 16
.dword 0xa13423fe010113
.dword 0x4005130605b403
.dword 0x101061300800593
.dword 0x280e704043283
.dword 0x65833701013683
.dword 0x66b0239623031b
.dword 0x50059300813503
.dword 0xd84328300800613
.dword 0x28067
.zero 24
stays: .dword 0x5a4d
.zero 48
.dword 0x4000000000
.dword 0x1506400004550
.zero 8
.dword 0xf000000000
.dword 0x20b
.zero 8
.dword 0x180
.zero 8
.dword 0x2000000020
.zero 16
.dword 0x180000001e0
.dword 0xb00000000
.zero 32
.dword 0x1000000000
.zero 128
.dword 0x747865742e
.dword 0x18000000044
.dword 0x18000000060
.zero 8
.dword 0x6000000000000000
.zero 16
.dword 0x806700000513
.zero 88
\"\"\"
[[image]]
name = \"outer\"
text = \"\"\"
start: addi sp, sp, -48
sd ra, 40(sp)
sd s0, 32(sp)
sd s1, 24(sp)
ld s0, 96(a1)
li s1, 0
li a0, 64
call begin
li t1, 6
call same
ld a0, 8(sp)
li t1, 0
call same
li a0, 96
call begin
li t1, 7
call check
li a0, 96
call unload
li t1, 2
call check
li a0, 112
call begin
li t1, 0
call check
li a0, 112
call begin
li t1, 2
call check
li a0, 112
call unload
li t1, 3
call check
li a0, 0
leave: ld s1, 24(sp)
ld s0, 32(sp)
ld ra, 40(sp)
addi sp, sp, 48
ret
begin: addi a1, sp, 8
addi a2, sp, 16
ld t0, 208(s0)
jr t0
unload: ld t0, 224(s0)
jr t0
check: beqz t1, same
li t0, 1
slli t0, t0, 63
add t1, t1, t0
same: addi s1, s1, 1
beq a0, t1, right
mv a0, s1
j leave
right: ret
\"\"\"
[[image]]
name = \"middle\"
text = \"\"\"
start: mv s1, a0
ld s0, 96(a1)
li a0, 80
li a1, 0
li a2, 0
ld t0, 208(s0)
jalr ra, 0(t0)
mv s2, a0
li a0, 31
ld t0, 24(s0)
jalr ra, 0(t0)
add a1, s2, a0
mv a0, s1
li a2, 0
li a3, 0
ld t0, 216(s0)
jr t0
\"\"\"
[[image]]
name = \"inner\"
text = \"\"\"
start: mv s1, a0
ld s0, 96(a1)
li a0, 16
ld t0, 24(s0)
jalr ra, 0(t0)
li a0, 64
li a1, 0
li a2, 0
li a3, 0
ld t0, 216(s0)
jalr ra, 0(t0)
slli a1, a0, 1
srli a1, a1, 1
mv a0, s1
li a2, 0
li a3, 0
ld t0, 216(s0)
jr t0
\"\"\"
[[image]]
name = \"fails\"
text = \"\"\"
.subsystem 11
start: li a0, 1
slli a0, a0, 63
addi a0, a0, 7
ret
\"\"\"
[[image]]
name = \"works\"
text = \"\"\"
.subsystem 11
start: li a0, 0
ret
\"\"\"
[[step]]
do = \"load\"
image = \"loader\"
[[step]]
do = \"load\"
image = \"outer\"
[[step]]
do = \"load\"
image = \"middle\"
[[step]]
do = \"load\"
image = \"inner\"
[[step]]
do = \"load\"
image = \"fails\"
[[step]]
do = \"load\"
image = \"works\"
[[step]]
do = \"start\"
image = \"loader\"
[[step]]
do = \"start\"
image = \"outer\"
[[step]]
do = \"start\"
image = \"middle\"
[[step]]
do = \"start\"
image = \"works\"
";

/// What the script's images come to by UEFI 2.10, section 7.4.
const LINES: &[u8] = b"load loader 0000000000000000 0000000040fb9000 3
load outer 0000000000000000 0000000040fb6000 2
load middle 0000000000000000 0000000040fb4000 2
load inner 0000000000000000 0000000040fb2000 2
load fails 0000000000000000 0000000040fb0000 2
load works 0000000000000000 0000000040fae000 2
console two are loaded
console the first has exited
console the second is unloaded
start loader 0000000000000000 172
start outer 0000000000000000 153
start middle 8000000000000002 0
start works 8000000000000002 0
end
";

#[test]
fn images_load_start_and_end_images(rt: HostRuntime) -> Result<(), Fail> {
    let made = ran(rt.alloc(), IMAGES, b"", &[])?;
    assert_eq!(rt; made.status, Status::Done);
    assert!(rt; made.out.written() == LINES);
    Ok(())
}
