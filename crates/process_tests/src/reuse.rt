// Slots, regions and frames that are used again: what stood there before isn't seen.
use crate::runs::{DATA, EXIT, FORK, START, WAIT, check_done, with_options};
use std::test::Fail;

// Marks page 1, a capability with its tag among the marks, in 4 steps.
const MARK: &str = "addi x6, x0, -1\nsd x6, 0(c8)\ncsc c8, 16(c8)\nsd x6, 32(c8)\n";

// Puts the page's address, the tag of the second granule and the process's id behind two granules, and writes all that, in 13 steps.
const SHOW: &str = "\
cgetaddr x6, c8\n\
sd x6, 32(c8)\n\
clc c7, 16(c8)\n\
cgettag x6, c7\n\
sb x6, 40(c8)\n\
addi x17, x0, 4\n\
ecall\n\
sb x10, 41(c8)\n\
addi x10, x0, 1\n\
cmove c11, c8\n\
addi x12, x0, 42\n\
addi x17, x0, 8\n\
ecall\n\
";

const ROOM: &str = ".segment 0x1000 rw\n.space 48\n";

// Two unmarked granules, the page's address in region 0 or 1, no tag, and the id.
const IN_REGION_0: &[u8] =
    b"\0\0\0\0\0\0\0\0\0\0\0\0\0\0\0\0\0\0\0\0\0\0\0\0\0\0\0\0\0\0\0\0\x00\x10\x00\x00\x01\x00\x00\x00\x00\x03";

const IN_REGION_1: &[u8] =
    b"\0\0\0\0\0\0\0\0\0\0\0\0\0\0\0\0\0\0\0\0\0\0\0\0\0\0\0\0\0\0\0\0\x00\x10\x10\x00\x01\x00\x00\x00\x00\x03";

#[test]
fn a_second_child_sees_nothing_of_the_first(rt: HostRuntime) -> Result<(), Fail> {
    let guest = [
        START,
        DATA,
        FORK,
        "bne x10, x0, parent\n",
        MARK,
        EXIT,
        "parent:\n",
        WAIT,
        FORK,
        "bne x10, x0, wait\n",
        SHOW,
        EXIT,
        "wait:\n",
        WAIT,
        EXIT,
        ROOM,
    ];
    // The processes make 17, 8 and 17 steps.
    let err = "exit 2 0\nexit 3 0\nexit 1 0\ndone 42\n";
    for options in ["", " --slots 2 --regions 2 --frames 4"] {
        let given = with_options(options);
        check_done(&rt, options, &guest, given, IN_REGION_1, err)?;
    }
    Ok(())
}

// The first process marks its page and ends, and the grandchild is in its place.
#[test]
fn a_grandchild_sees_nothing_of_the_first_process(rt: HostRuntime) -> Result<(), Fail> {
    let guest = [
        START,
        DATA,
        FORK,
        "bne x10, x0, first\n",
        FORK,
        "bne x10, x0, end\n",
        SHOW,
        "end:\n",
        EXIT,
        "first:\n",
        MARK,
        EXIT,
        ROOM,
    ];
    // The processes make 12, 7 and 17 steps.
    let err = "exit 1 0\nexit 2 0\nexit 3 0\ndone 36\n";
    for options in ["", " --slots 2 --regions 2 --frames 4"] {
        let given = with_options(options);
        check_done(&rt, options, &guest, given, IN_REGION_0, err)?;
    }
    Ok(())
}
