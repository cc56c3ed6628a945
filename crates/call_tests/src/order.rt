// The order of the refusals of reads and writes: the descriptor, then a count of 0, then the capability.
use crate::guests::{answers_of, guest, push_answer, room_of};
use crate::runs::check_done;
use std::process::Abort;
use std::test::Fail;

// Makes a call three times with a descriptor, and prints the answers: no bytes by a null capability, one byte by it, and one byte of the room.
// It makes 46 steps.
const CALLS: &str = "
    ld x17, 8(c8)
    ld x10, 16(c8)
    cmove c11, c0
    addi x12, x0, 0
    ecall
    cjal c1, show
    ld x17, 8(c8)
    ld x10, 16(c8)
    cmove c11, c0
    addi x12, x0, 1
    ecall
    cjal c1, show
    ld x17, 8(c8)
    ld x10, 16(c8)
    cmove c11, c9
    addi x12, x0, 1
    ecall
    cjal c1, show
";

const READ: u64 = 7;

const WRITE: u64 = 8;

// Descriptors that aren't in use: of the last four only the low 32 bits, or the low 4, would be.
const UNUSED: [u64; 10] = [
    2,
    3,
    14,
    15,
    16,
    17,
    0x1_0000_0000,
    0x1_0000_0001,
    0x8000_0000_0000_0000,
    0xffff_ffff_ffff_ffff,
];

fn check_calls(rt: &(impl Abort + AllocGlobal), numbers: [u64; 2], out: &[u8]) -> Result<(), Fail> {
    let room = room_of(rt.alloc(), b"r")?;
    let guest = guest(rt.alloc(), CALLS, &numbers, &room)?;
    let [call, descriptor] = numbers;
    let case = format!(in rt.alloc(); "call {call} with {descriptor}")?;
    check_done(rt, &case, &guest, b"q", (out, 46))
}

#[test]
fn a_wrong_descriptor_is_refused_before_all(rt: HostRuntime) -> Result<(), Fail> {
    let out = answers_of(rt.alloc(), &[-9, -9, -9])?;
    for descriptor in UNUSED {
        check_calls(&rt, [READ, descriptor], &out)?;
        check_calls(&rt, [WRITE, descriptor], &out)?;
    }
    // The console's output isn't read, and its input isn't written.
    check_calls(&rt, [READ, 1], &out)?;
    check_calls(&rt, [WRITE, 0], &out)
}

#[test]
fn no_bytes_need_no_capability(rt: HostRuntime) -> Result<(), Fail> {
    let mut out = answers_of(rt.alloc(), &[0, -14, 1])?;
    check_calls(&rt, [READ, 0], &out)?;
    out.clear();
    push_answer(&mut out, 0)?;
    push_answer(&mut out, -14)?;
    out.push(b'r')?;
    push_answer(&mut out, 1)?;
    check_calls(&rt, [WRITE, 1], &out)
}
