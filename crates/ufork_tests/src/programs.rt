// Whole guests with loads, stores, loops and jumps, and runs that are stopped.
use crate::boards::Left;
use crate::images::page_of;
use crate::instrs::{EXIT, addi, bne, bytes_of, cjal, cjalr, five_writes, lui};
use crate::runs::{Given, RUN, Want, check, check_done};
use riscv_decode::Instr;
use std::alloc::Global;
use std::test::Fail;

#[test]
fn a_guest_loads_from_its_page(rt: HostRuntime) -> Result<(), Fail> {
    // lbu x10, 0(c2); addi x17, x0, 1; ecall
    let page = page_of(rt.alloc(), &[0x0001_4503, 0x0010_0893, 0x0000_0073])?;
    check_done(&rt, &page, b"", b"exit 1 3\ndone 3\n")
}

#[test]
fn a_guest_may_not_store_to_its_page(rt: HostRuntime) -> Result<(), Fail> {
    // sb x0, 0(c2); sw x0, 0(c2); sd x0, 0(c2); csc c2, 0(c2)
    for word in [0x0001_0023, 0x0001_2023, 0x0001_3023, 0x0021_4023] {
        let page = page_of(rt.alloc(), &[word])?;
        check_done(&rt, &page, b"", b"exit 1 263\ndone 1\n")?;
    }
    Ok(())
}

#[test]
fn a_loop_counts_to_the_status(rt: HostRuntime) -> Result<(), Fail> {
    // 1 step, 200 times 2, and 2.
    let code = [
        addi(5, 0, 200),
        addi(10, 10, 1),
        bne(10, 5, -4),
        addi(17, 0, EXIT),
        Instr::Ecall,
    ];
    let page = bytes_of(rt.alloc(), &code)?;
    check_done(&rt, &page, b"", b"exit 1 200\ndone 403\n")
}

#[test]
fn a_subroutine_comes_back(rt: HostRuntime) -> Result<(), Fail> {
    // Two calls of the last two instructions, each with 3 steps, and 2 steps.
    let code = [
        cjal(1, 16),
        cjal(1, 12),
        addi(17, 0, EXIT),
        Instr::Ecall,
        addi(10, 10, 21),
        cjalr(0, 1, 0),
    ];
    let page = bytes_of(rt.alloc(), &code)?;
    check_done(&rt, &page, b"", b"exit 1 42\ndone 8\n")
}

#[test]
fn a_loop_prints_byte_by_byte(rt: HostRuntime) -> Result<(), Fail> {
    let same = five_writes(rt.alloc(), 0)?;
    check_done(&rt, &same, b"aaaaa", b"exit 1 0\ndone 32\n")?;
    let next = five_writes(rt.alloc(), 1)?;
    check_done(&rt, &next, b"abcde", b"exit 1 0\ndone 32\n")
}

#[test]
fn a_guest_that_runs_off_its_page_ends(rt: HostRuntime) -> Result<(), Fail> {
    let code = [addi(0, 0, 0); 1024];
    let page = bytes_of(rt.alloc(), &code)?;
    check_done(&rt, &page, b"", b"exit 1 267\ndone 1025\n")
}

// The page of a jump to itself.
fn jumps_for_ever(alloc: Global) -> Result<Vec<u8>, Fail> {
    bytes_of(alloc, &[cjal(0, 0)])
}

#[test]
fn a_loop_for_ever_is_stopped(rt: HostRuntime) -> Result<(), Fail> {
    let want = Want {
        status: 8,
        out: b"",
        err: b"stopped 20000000\n",
        left: Left::Page,
    };
    check(&rt, &jumps_for_ever(rt.alloc())?, RUN, want)
}

#[test]
fn a_cut_stopped_line_leaves_the_page(rt: HostRuntime) -> Result<(), Fail> {
    let given = Given {
        err_fails: Some(0),
        ..RUN
    };
    let want = Want {
        status: 7,
        out: b"",
        err: b"",
        left: Left::Page,
    };
    check(&rt, &jumps_for_ever(rt.alloc())?, given, want)
}

// The page of a guest that counts to 9999998 and exits: 2 steps, 9999998 times 2, and 2 make 20000000 in all. The low 8 bits of the
// number are 126.
fn counts_to_the_limit(alloc: Global, before: &[Instr]) -> Result<Vec<u8>, Fail> {
    let mut code = Vec::new(alloc);
    code.extend_from_slice(before)?;
    code.extend_from_slice(&[
        lui(5, 0x989),
        addi(5, 5, 0x67e),
        addi(10, 10, 1),
        bne(10, 5, -4),
        addi(17, 0, EXIT),
        Instr::Ecall,
    ])?;
    bytes_of(alloc, &code)
}

#[test]
fn a_process_may_end_with_the_last_step(rt: HostRuntime) -> Result<(), Fail> {
    let page = counts_to_the_limit(rt.alloc(), &[])?;
    check_done(&rt, &page, b"", b"exit 1 126\ndone 20000000\n")
}

#[test]
fn a_process_that_would_end_one_step_later_is_stopped(rt: HostRuntime) -> Result<(), Fail> {
    let page = counts_to_the_limit(rt.alloc(), &[addi(0, 0, 0)])?;
    let want = Want {
        status: 8,
        out: b"",
        err: b"stopped 20000000\n",
        left: Left::Page,
    };
    check(&rt, &page, RUN, want)
}
