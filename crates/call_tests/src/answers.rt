// What the calls without bytes answer, which numbers are no calls, and with which status a process exits.
use crate::guests::{answers_of, guest, push_answer, room_of};
use crate::runs::{check, check_done, with_input};
use std::process::Abort;
use std::test::Fail;

// Makes a call as if it were a write of one byte, and prints the answer. It makes 20 steps.
const CALLS: &str = "
    ld x17, 8(c8)
    addi x10, x0, 1
    cmove c11, c9
    addi x12, x0, 1
    ecall
    cjal c1, show
";

fn check_call(rt: &(impl Abort + AllocGlobal), number: u64, out: &[u8]) -> Result<(), Fail> {
    let room = room_of(rt.alloc(), b"r")?;
    let guest = guest(rt.alloc(), CALLS, &[number], &room)?;
    let case = format!(in rt.alloc(); "call {number}")?;
    check_done(rt, &case, &guest, b"q", (out, 20))
}

#[test]
fn other_numbers_are_no_calls(rt: HostRuntime) -> Result<(), Fail> {
    let out = answers_of(rt.alloc(), &[-38])?;
    for number in [0, 13, 14, 99, 255, 0xffff_ffff_ffff_ffff] {
        check_call(&rt, number, &out)?;
    }
    // Some low bits of these are the number of a call.
    for call in 1..13_u64 {
        for more in [
            0x100,
            0x1_0000,
            0x1_0000_0000,
            0x100_0000_0000,
            0x8000_0000_0000_0000,
            0xffff_ffff_0000_0000,
        ] {
            check_call(&rt, more | call, &out)?;
        }
    }
    Ok(())
}

#[test]
fn a_lone_process_has_no_parent_and_no_child(rt: HostRuntime) -> Result<(), Fail> {
    // wait, getpid, getppid and yield.
    for (number, answer) in [(3, -10), (4, 1), (5, 0), (12, 0)] {
        let out = answers_of(rt.alloc(), &[answer])?;
        check_call(&rt, number, &out)?;
    }
    // The write that the call looks like.
    let mut out = Vec::new(rt.alloc());
    out.push(b'r')?;
    push_answer(&mut out, 1)?;
    check_call(&rt, 8, &out)
}

#[test]
fn an_exit_has_the_low_8_bits_of_its_status(rt: HostRuntime) -> Result<(), Fail> {
    let code = "
    ld x10, 8(c8)
    addi x17, x0, 1
    ecall
";
    for (status, exited) in [
        (0, 0),
        (1, 1),
        (127, 127),
        (128, 128),
        (255, 255),
        (256, 0),
        (257, 1),
        (511, 255),
        (0x1234, 0x34),
        (0x1_0000_0000, 0),
        (0x1_0000_0101, 1),
        (0x8000_0000_0000_0007, 7),
        (0xffff_ffff_ffff_ffff, 255),
    ] {
        let guest = guest(rt.alloc(), code, &[status], b"")?;
        let lines = format!(in rt.alloc(); "exit 1 {exited}\ndone 7\n")?;
        let want: (u8, &[u8], &[u8]) = (0, b"", lines.as_bytes());
        check(&rt, &lines, &guest, with_input(b""), want)?;
    }
    Ok(())
}

#[test]
fn a_capability_is_a_status_by_its_address(rt: HostRuntime) -> Result<(), Fail> {
    let code = "
    cincoffsetimm c10, c9, 0x123
    addi x17, x0, 1
    ecall
";
    let guest = guest(rt.alloc(), code, &[], b"")?;
    let want: (u8, &[u8], &[u8]) = (0, b"", b"exit 1 35\ndone 7\n");
    check(&rt, "", &guest, with_input(b""), want)
}
