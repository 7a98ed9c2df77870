//! Programs that ask the firmware for what it has, and compare its answers with those of UEFI 2.10. Each returns the number of
//! the first answer that isn't so, or 0.
use crate::runs::ran;
use host_engine::Status;
use std::test::Fail;

/// Asks for pages at an address, below one and anywhere, for the memory map with a buffer too small and then right; frees
/// twice; reads a page that is given again; copies over an overlap; frees a block of the pool twice.
const MEMORY: &[u8] = b"
[[image]]
name = \"memory\"
text = \"\"\"
start: addi sp, sp, -80
sd ra, 72(sp)
sd s0, 64(sp)
sd s1, 56(sp)
ld s0, 96(a1)
li s1, 0
li t0, 0x40100000
sd t0, 8(sp)
li a0, 2
call pages
li t1, 0
call check
ld a0, 8(sp)
li t1, 0x40100000
call same
li a0, 2
call pages
li t1, 14
call check
li t0, 0x40100fff
sd t0, 8(sp)
li a0, 1
call pages
li t1, 0
call check
ld a0, 8(sp)
li t1, 0x400ff000
call same
li a0, 0
call pages
li t1, 0
call check
ld t0, 8(sp)
sd t0, 16(sp)
li t0, 40
sd t0, 24(sp)
call map
li t1, 5
call check
ld a0, 24(sp)
sltiu a0, a0, 41
li t1, 0
call same
li t0, 4096
sd t0, 24(sp)
call map
li t1, 0
call check
ld a0, 40(sp)
li t1, 40
call same
lwu a0, 48(sp)
li t1, 1
call same
li t0, 0x40100000
sd t0, 0(t0)
call free
li t1, 0
call check
call free
li t1, 14
call check
li t0, 0x40100000
sd t0, 8(sp)
li a0, 2
call pages
li t1, 0
call check
li t0, 0x40100000
ld a0, 0(t0)
li t1, 0
call same
li t0, 0x40100000
li t1, 0x04030201
sw t1, 0(t0)
li a0, 0x40100001
li a1, 0x40100000
li a2, 4
ld t0, 352(s0)
call call_it
li t1, 0
call check
li t0, 0x40100000
lwu a0, 1(t0)
li t1, 0x04030201
call same
li a0, 2
li a1, 24
addi a2, sp, 8
ld t0, 64(s0)
call call_it
li t1, 0
call check
ld a0, 8(sp)
ld t0, 72(s0)
call call_it
li t1, 0
call check
ld a0, 8(sp)
ld t0, 72(s0)
call call_it
li t1, 2
call check
li a0, 0
leave: ld s1, 56(sp)
ld s0, 64(sp)
ld ra, 72(sp)
addi sp, sp, 80
ret
pages: li a1, 2
li a2, 1
addi a3, sp, 8
ld t0, 40(s0)
jr t0
free: li a0, 0x40100000
li a1, 1
ld t0, 48(s0)
jr t0
map: addi a0, sp, 24
ld a1, 16(sp)
addi a2, sp, 32
addi a3, sp, 40
addi a4, sp, 48
ld t0, 56(s0)
call_it: jr t0
check: beqz t1, same
li t0, 1
slli t0, t0, 63
add t1, t1, t0
same: addi s1, s1, 1
beq a0, t1, right
mv a0, s1
j leave
right: ret
\"\"\"
[[step]]
do = \"load\"
image = \"memory\"
[[step]]
do = \"start\"
image = \"memory\"
[[step]]
do = \"memmap\"
";

/// Reads its own loaded image protocol field by field; finds the console; installs a protocol of its own, puts another interface
/// in its place, opens and closes it, and takes it away; lists handles, protocols and opens; installs two protocols at once.
const PROTOCOLS: &[u8] = b"
[[image]]
name = \"protocols\"
text = \"\"\"
start: addi sp, sp, -96
sd ra, 88(sp)
sd s0, 80(sp)
sd s1, 72(sp)
sd s2, 64(sp)
sd s3, 56(sp)
ld s0, 96(a1)
li s1, 0
mv s2, a0
mv s3, a1
la a1, image
call handle
li t1, 0
call check
ld t2, 8(sp)
lwu a0, 0(t2)
li t1, 0x1000
call same
ld a0, 8(t2)
li t1, 0
call same
ld a0, 16(t2)
mv t1, s3
call same
ld a0, 64(t2)
la t1, start
lui t0, 1
sub t1, t1, t0
call same
ld a0, 72(t2)
lui t1, 3
call same
lwu a0, 80(t2)
li t1, 1
call same
lwu a0, 84(t2)
li t1, 2
call same
ld a0, 56(s3)
la a1, console
call handle
li t1, 0
call check
ld a0, 8(sp)
ld t1, 64(s3)
call same
mv a0, s2
la a1, console
call handle
li t1, 3
call check
ld a0, 8(sp)
li t1, 0
call same
sd zero, 16(sp)
call put
li t1, 0
call check
ld a0, 16(sp)
addi t1, s2, 16
call same
call put
li t1, 2
call check
la a0, own
li a1, 0
addi a2, sp, 8
ld t0, 320(s0)
call jump
li t1, 0
call check
ld a0, 8(sp)
li t1, 0x1234
call same
call renew
li t1, 0
call check
call renew
li t1, 14
call check
ld a0, 16(sp)
la a1, own
addi a2, sp, 8
mv a3, s2
li a4, 0
li a5, 2
ld t0, 280(s0)
call jump
li t1, 0
call check
ld a0, 8(sp)
li t1, 0x1235
call same
ld a0, 16(sp)
la a1, own
addi a2, sp, 8
addi a3, sp, 24
ld t0, 296(s0)
call jump
li t1, 0
call check
ld a0, 24(sp)
li t1, 1
call same
ld t2, 8(sp)
ld a0, 0(t2)
mv t1, s2
call same
ld a0, 8(t2)
li t1, 0
call same
lwu a0, 16(t2)
li t1, 2
call same
lwu a0, 20(t2)
li t1, 1
call same
call free
li t1, 0
call check
call close
li t1, 0
call check
call close
li t1, 14
call check
li a2, 0x1234
call take
li t1, 14
call check
li a2, 0x1235
call take
li t1, 0
call check
ld a0, 16(sp)
la a1, own
call handle
li t1, 2
call check
li t0, 8
sd t0, 24(sp)
li a0, 2
la a1, image
li a2, 0
addi a3, sp, 24
addi a4, sp, 8
ld t0, 176(s0)
call jump
li t1, 0
call check
ld a0, 8(sp)
mv t1, s2
call same
li a0, 2
la a1, image
li a2, 0
addi a3, sp, 24
addi a4, sp, 8
ld t0, 312(s0)
call jump
li t1, 0
call check
ld a0, 24(sp)
li t1, 1
call same
ld t2, 8(sp)
ld a0, 0(t2)
mv t1, s2
call same
call free
li t1, 0
call check
ld a0, 56(s3)
addi a1, sp, 8
addi a2, sp, 24
ld t0, 304(s0)
call jump
li t1, 0
call check
ld a0, 24(sp)
li t1, 1
call same
ld t2, 8(sp)
ld t2, 0(t2)
la t3, console
ld a0, 0(t2)
ld t1, 0(t3)
call same
ld a0, 8(t2)
ld t1, 8(t3)
call same
call free
li t1, 0
call check
sd zero, 16(sp)
addi a0, sp, 16
ld t0, 328(s0)
call pairs
li t1, 0
call check
ld a0, 16(sp)
addi t1, s2, 32
call same
addi a0, sp, 16
ld t0, 328(s0)
call pairs
li t1, 2
call check
ld a0, 16(sp)
la a1, other
call handle
li t1, 0
call check
ld a0, 8(sp)
li t1, 0x30
call same
ld a0, 16(sp)
ld t0, 336(s0)
call pairs
li t1, 0
call check
ld a0, 16(sp)
ld t0, 336(s0)
call pairs
li t1, 2
call check
li a0, 0
leave: ld s3, 56(sp)
ld s2, 64(sp)
ld s1, 72(sp)
ld s0, 80(sp)
ld ra, 88(sp)
addi sp, sp, 96
ret
handle: addi a2, sp, 8
ld t0, 152(s0)
jr t0
put: addi a0, sp, 16
la a1, own
li a2, 0
li a3, 0x1234
ld t0, 128(s0)
jr t0
renew: ld a0, 16(sp)
la a1, own
li a2, 0x1234
li a3, 0x1235
ld t0, 136(s0)
jr t0
close: ld a0, 16(sp)
la a1, own
mv a2, s2
li a3, 0
ld t0, 288(s0)
jr t0
free: ld a0, 8(sp)
ld t0, 72(s0)
jr t0
pairs: la a1, own
li a2, 0x20
la a3, other
li a4, 0x30
li a5, 0
jr t0
take: ld a0, 16(sp)
la a1, own
ld t0, 144(s0)
jump: jr t0
check: beqz t1, same
li t0, 1
slli t0, t0, 63
add t1, t1, t0
same: addi s1, s1, 1
beq a0, t1, right
mv a0, s1
j leave
right: ret
.data
image: .guid 5b1b31a1-9562-11d2-8e3f-00a0c969723b
console: .guid 387477c2-69c7-11d2-8e39-00a0c969723b
own: .guid 8be4df61-93ca-11d2-aa0d-00e098032b8c
other: .guid eb9d2d31-2d88-11d3-9a16-0090273fc14d
\"\"\"
[[step]]
do = \"load\"
image = \"protocols\"
[[step]]
do = \"start\"
image = \"protocols\"
";

/// Asks for the time; keeps a variable, adds to it, finds its name and takes it away; asks what room there is; counts; asks
/// for what isn't there.
const VARIABLES: &[u8] = b"
[[image]]
name = \"variables\"
text = \"\"\"
start: addi sp, sp, -144
sd ra, 136(sp)
sd s0, 128(sp)
sd s1, 120(sp)
sd s2, 112(sp)
ld s0, 88(a1)
li s1, 0
ld s2, 96(a1)
addi a0, sp, 16
li a1, 0
ld t0, 24(s0)
call jump
li t1, 0
call check
lhu a0, 16(sp)
li t1, 2024
call same
lbu a0, 18(sp)
li t1, 1
call same
lbu a0, 19(sp)
li t1, 1
call same
li a2, 7
li a3, 4
call set
li t1, 0
call check
li t0, 2
sd t0, 32(sp)
call get
li t1, 5
call check
ld a0, 32(sp)
li t1, 4
call same
lwu a0, 24(sp)
li t1, 7
call same
li a2, 3
li a3, 4
call set
li t1, 2
call check
li a2, 0x47
li a3, 4
call set
li t1, 0
call check
li t0, 8
sd t0, 32(sp)
call get
li t1, 0
call check
ld a0, 32(sp)
li t1, 8
call same
lwu a0, 44(sp)
li t1, 0x04030201
call same
li t0, 16
sd t0, 32(sp)
sh zero, 40(sp)
call next
li t1, 0
call check
ld a0, 32(sp)
li t1, 10
call same
li t0, 16
sd t0, 32(sp)
call next
li t1, 14
call check
li a0, 7
addi a1, sp, 56
addi a2, sp, 64
addi a3, sp, 72
ld t0, 128(s0)
call jump
li t1, 0
call check
ld a0, 56(sp)
lui t1, 16
call same
ld a0, 64(sp)
li t1, 65486
call same
ld a0, 72(sp)
li t1, 65452
call same
li a2, 7
li a3, 0
call set
li t1, 0
call check
li t0, 8
sd t0, 32(sp)
call get
li t1, 14
call check
addi a0, sp, 56
ld t0, 240(s2)
call jump
li t1, 0
call check
ld a0, 56(sp)
li t1, 1
call same
addi a0, sp, 64
ld t0, 96(s0)
call jump
li t1, 0
call check
lwu a0, 64(sp)
li t1, 1
call same
ld t0, 40(s0)
call jump
li t1, 3
call check
li a1, 0
ld t0, 112(s0)
call jump
li t1, 2
call check
li a0, 0
leave: ld s2, 112(sp)
ld s1, 120(sp)
ld s0, 128(sp)
ld ra, 136(sp)
addi sp, sp, 144
ret
set: la a0, name
la a1, vendor
la a4, bytes
ld t0, 88(s0)
jr t0
get: la a0, name
la a1, vendor
addi a2, sp, 24
addi a3, sp, 32
addi a4, sp, 40
ld t0, 72(s0)
jr t0
next: addi a0, sp, 32
addi a1, sp, 40
la a2, found
ld t0, 80(s0)
jump: jr t0
check: beqz t1, same
li t0, 1
slli t0, t0, 63
add t1, t1, t0
same: addi s1, s1, 1
beq a0, t1, right
mv a0, s1
j leave
right: ret
.data
vendor: .guid 8be4df61-93ca-11d2-aa0d-00e098032b8c
found: .zero 16
bytes: .word 0x04030201
name: .ascii16 \"Boot\"
\"\"\"
[[step]]
do = \"load\"
image = \"variables\"
[[step]]
do = \"start\"
image = \"variables\"
";

#[test]
fn guests_are_answered_as_the_standard_says(rt: HostRuntime) -> Result<(), Fail> {
    let rows: [(&[u8], &[u8], &[u8]); 3] = [
        (
            MEMORY,
            b"load memory 0000000000000000 0000000040fba000 2\nstart memory 0000000000000000 ",
            b"
memmap 12
7 0000000040000000 255 0000000000000008
2 00000000400ff000 2 0000000000000008
7 0000000040101000 3767 0000000000000008
2 0000000040fb8000 1 0000000000000008
7 0000000040fb9000 3 0000000000000008
2 0000000040fbc000 33 0000000000000008
4 0000000040fdd000 33 0000000000000008
6 0000000040ffe000 1 8000000000000008
5 0000000040fff000 1 8000000000000008
end
",
        ),
        (
            PROTOCOLS,
            b"load protocols 0000000000000000 0000000040fb9000 3\nstart protocols 0000000000000000 ",
            b"\nend\n",
        ),
        (
            VARIABLES,
            b"load variables 0000000000000000 0000000040fb9000 3\nstart variables 0000000000000000 ",
            b"\nend\n",
        ),
    ];
    for (script, first, last) in rows.iter() {
        let made = ran(rt.alloc(), script, b"", &[])?;
        assert_eq!(rt; made.status, Status::Done);
        assert!(rt; made.out.written().starts_with(first));
        assert!(rt; made.out.written().ends_with(last));
    }
    Ok(())
}
