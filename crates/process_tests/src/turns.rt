// Processes that take turns, and writes that are cut by them.
use crate::runs::{DATA, EXIT, FORK, PUT, START, WAIT, by_schedule, check_done};
use std::alloc::{AllocError, Global};
use std::test::Fail;

// The first process forks twice, and each of the three writes the letter of its id, a, b or c. None waits for another.
//
// In turns of one step: after process 1's 7th step all three are there, and process 2 has made 3. From then on, in each round, process 2
// makes its step 3 + i, process 3 its step i and process 1, counted from its 5th, its step 3 + i. The writes are the steps 10, 9 and 12,
// so b comes in round 7, and in round 9 c before a. The ends are the steps 13, 12 and 15: rounds 10, 12 and 12.
//
// In turns of five steps: process 1 makes 5, process 2 makes 5, process 1 comes to 10, process 2 to 10 with b, process 3 to 5, process 1
// to 15, process 2 to its end, process 3 to 10 with c, process 1 to its end with a, and process 3 to its end.
#[test]
fn three_letters_come_in_the_order_of_the_turns(rt: HostRuntime) -> Result<(), Fail> {
    let guest = [
        START,
        DATA,
        FORK,
        "beq x10, x0, write\n",
        FORK,
        "write: addi x17, x0, 4\necall\naddi x6, x10, 96\nsb x6, 0(c8)\n",
        PUT,
        EXIT,
        ".segment 0x1000 rw\n.byte 0\n",
    ];
    let rows: [(&'static str, &'static [u8], &'static str); 3] = [
        ("", b"abc", "exit 1 0\nexit 2 0\nexit 3 0\ndone 44\n"),
        ("1*1000", b"bca", "exit 2 0\nexit 3 0\nexit 1 0\ndone 44\n"),
        ("5*1000", b"bca", "exit 2 0\nexit 1 0\nexit 3 0\ndone 44\n"),
    ];
    for (schedule, out, err) in rows {
        check_done(&rt, schedule, &guest, by_schedule(schedule), out, err)?;
    }
    Ok(())
}

// Pages of zeros, each with one of these letters in its first byte.
fn pages(alloc: Global, letters: &[u8]) -> Result<Vec<u8>, AllocError> {
    let mut bytes = Vec::new(alloc);
    for letter in letters {
        bytes.push(*letter)?;
        bytes.extend_from_slice(&[0; 4095])?;
    }
    Ok(bytes)
}

// Each process writes two pages, each of which begins with its letter, by one call that takes two steps. The parent's first transfer is
// its step 16, and the child's its step 11.
#[test]
fn a_long_write_may_be_cut_by_another(rt: HostRuntime) -> Result<(), Fail> {
    let guest = [
        START,
        DATA,
        "lui x7, 1\ncincoffset c9, c8, x7\n",
        FORK,
        "addi x18, x10, 0\naddi x6, x0, 112\nbne x10, x0, go\naddi x6, x0, 99\n",
        "go: sb x6, 0(c8)\nsb x6, 0(c9)\n",
        "addi x10, x0, 1\ncmove c11, c8\nlui x12, 2\naddi x17, x0, 8\necall\n",
        "beq x18, x0, end\n",
        WAIT,
        "end:\n",
        EXIT,
        ".segment 0x1000 rw\n.bss 8192\n",
    ];
    // The parent makes 23 steps, and one more where it has to wait; the child makes 16.
    let rows: [(&'static str, &'static [u8], u64); 4] = [
        ("", b"ppcc", 40),
        ("16\n12", b"pccp", 40),
        ("16\n11\n1", b"pcpc", 39),
        ("1*1000", b"pcpc", 40),
    ];
    for (schedule, letters, steps) in rows {
        let out = pages(rt.alloc(), letters)?;
        let err = format!(in rt.alloc(); "exit 2 0\nexit 1 0\ndone {steps}\n")?;
        check_done(
            &rt,
            schedule,
            &guest,
            by_schedule(schedule),
            &out,
            err.as_str(),
        )?;
    }
    Ok(())
}
