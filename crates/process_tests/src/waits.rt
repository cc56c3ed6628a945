// Waits: for a child that lives, for one that has ended, for several, and without any.
use crate::runs::{DATA, END, EXIT, FORK, RUN, START, WAIT, YIELD, check_done, with_options};
use std::test::Fail;

#[test]
fn a_wait_without_a_child_is_refused(rt: HostRuntime) -> Result<(), Fail> {
    // Register 11 stays: 77 less 10 is 67.
    let guest = [
        START,
        "addi x11, x0, 77\n",
        WAIT,
        "add x10, x10, x11\n",
        END,
    ];
    check_done(&rt, "", &guest, RUN, b"", "exit 1 67\ndone 6\n")
}

// The parent exits with 16 times the id that the first wait gives, the status beside it, and the answer of a second wait, which is -10:
// 32 and 5 less 10 are 27.
#[test]
fn a_child_is_waited_for_once(rt: HostRuntime) -> Result<(), Fail> {
    for (case, before, err) in [
        // The wait is tried twice.
        ("the child lives", "", "exit 2 5\nexit 1 27\ndone 17\n"),
        ("it has ended", YIELD, "exit 2 5\nexit 1 27\ndone 18\n"),
    ] {
        let guest = [
            START,
            FORK,
            "beq x10, x0, child\n",
            before,
            WAIT,
            "slli x18, x10, 4\nadd x18, x18, x11\n",
            WAIT,
            "add x10, x10, x18\n",
            END,
            "child: addi x10, x0, 5\n",
            END,
        ];
        check_done(&rt, case, &guest, RUN, b"", err)?;
    }
    Ok(())
}

// The parent waits for the first of two children, and its third one gets that one's slot, which is below the second one's.
#[test]
fn zombies_are_waited_for_in_the_order_of_ids(rt: HostRuntime) -> Result<(), Fail> {
    let again = "beq x10, x0, end\n";
    let guest = [
        START,
        DATA,
        FORK,
        again,
        FORK,
        again,
        WAIT,
        "addi x6, x10, 48\nsb x6, 0(c8)\n",
        FORK,
        again,
        YIELD,
        WAIT,
        "addi x6, x10, 48\nsb x6, 1(c8)\n",
        WAIT,
        "addi x6, x10, 48\nsb x6, 2(c8)\n",
        "addi x10, x0, 1\ncmove c11, c8\naddi x12, x0, 3\naddi x17, x0, 8\necall\n",
        "end:\n",
        EXIT,
        ".segment 0x1000 rw\n.space 3\n",
    ];
    // The parent makes 34 steps, and each child 4.
    let err = "exit 2 0\nexit 3 0\nexit 4 0\nexit 1 0\ndone 46\n";
    for options in ["", " --slots 3 --regions 3 --frames 6"] {
        check_done(&rt, options, &guest, with_options(options), b"234", err)?;
    }
    Ok(())
}

// Three children end in the order 4, 3, 2, each with its id as its status, before the parent waits. It writes the id and the status that
// each wait gives.
#[test]
fn the_last_to_end_may_be_the_first_to_be_waited_for(rt: HostRuntime) -> Result<(), Fail> {
    let guest = [
        START,
        DATA,
        "addi x18, x0, 3\nagain: addi x18, x18, -1\n",
        FORK,
        "beq x10, x0, child\nbne x18, x0, again\n",
        YIELD,
        YIELD,
        YIELD,
        "collect:\n",
        WAIT,
        "blt x10, x0, end\naddi x6, x10, 48\nsb x6, 0(c8)\naddi x6, x11, 48\nsb x6, 1(c8)\n",
        "addi x10, x0, 1\ncmove c11, c8\naddi x12, x0, 2\naddi x17, x0, 8\necall\n",
        "cjal c0, collect\n",
        "end:\n",
        EXIT,
        "child: beq x18, x0, gone\n",
        YIELD,
        "addi x18, x18, -1\ncjal c0, child\n",
        "gone: addi x17, x0, 4\necall\n",
        END,
        ".segment 0x1000 rw\n.space 2\n",
    ];
    // The parent makes 69 steps, and the children 16, 11 and 6.
    let err = "exit 4 4\nexit 3 3\nexit 2 2\nexit 1 0\ndone 102\n";
    check_done(&rt, "", &guest, RUN, b"223344", err)
}

// The child forks and ends, and the grandchild lives until the first process has asked for another child.
#[test]
fn a_grandchild_is_no_child(rt: HostRuntime) -> Result<(), Fail> {
    let guest = [
        START,
        FORK,
        "beq x10, x0, child\n",
        WAIT,
        WAIT,
        END,
        "child:\n",
        FORK,
        "bne x10, x0, end\n",
        YIELD,
        "addi x17, x0, 5\necall\n",
        END,
        "end:\n",
        EXIT,
    ];
    // -10 modulo 256 is 246, and the grandchild's parent is 0.
    let err = "exit 2 0\nexit 1 246\nexit 3 0\ndone 24\n";
    check_done(&rt, "", &guest, RUN, b"", err)
}
