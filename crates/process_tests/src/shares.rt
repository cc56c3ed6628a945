// What processes share: the console's input and its output, by the same descriptors.
use crate::runs::{DATA, END, EXIT, FORK, Given, RUN, START, WAIT, YIELD, check_done};
use std::test::Fail;

// Each process reads at most three bytes, writes them with its own letter behind them, and gives way, until no input is left.
#[test]
fn parent_and_child_take_from_one_input(rt: HostRuntime) -> Result<(), Fail> {
    let guest = [
        START,
        DATA,
        FORK,
        "addi x9, x10, 0\naddi x6, x0, 112\nbne x10, x0, again\naddi x6, x0, 99\n",
        "again: addi x10, x0, 0\ncmove c11, c8\naddi x12, x0, 3\naddi x17, x0, 7\necall\n",
        "beq x10, x0, done\ncincoffset c7, c8, x10\nsb x6, 0(c7)\n",
        "addi x12, x10, 1\naddi x10, x0, 1\naddi x17, x0, 8\necall\n",
        YIELD,
        "cjal c0, again\ndone: beq x9, x0, end\n",
        WAIT,
        "end:\n",
        EXIT,
        ".segment 0x1000 rw\n.space 4\n",
    ];
    let given = Given {
        input: b"abcdefgh",
        ..RUN
    };
    // The parent makes 49 steps, and the child 29.
    let err = "exit 2 0\nexit 1 0\ndone 78\n";
    check_done(&rt, "", &guest, given, b"abcpdefcghp", err)
}

// Each process writes its letter three times, and gives way after each. A process to which a yield doesn't answer 0 is killed.
#[test]
fn processes_give_way_to_one_another(rt: HostRuntime) -> Result<(), Fail> {
    let guest = [
        START,
        DATA,
        FORK,
        "addi x9, x10, 0\naddi x6, x0, 112\nbne x10, x0, go\naddi x6, x0, 99\n",
        "go: sb x6, 0(c8)\naddi x18, x0, 3\n",
        "loop: addi x10, x0, 1\ncmove c11, c8\naddi x12, x0, 1\naddi x17, x0, 8\necall\n",
        YIELD,
        "bne x10, x0, wrong\naddi x18, x18, -1\nbne x18, x0, loop\nbeq x9, x0, end\n",
        WAIT,
        "end:\n",
        EXIT,
        "wrong: ebreak\n.segment 0x1000 rw\n.byte 0\n",
    ];
    // The parent makes 46 steps, and the child 40.
    let err = "exit 2 0\nexit 1 0\ndone 86\n";
    check_done(&rt, "", &guest, RUN, b"pcpcpc", err)?;
    let alone = [START, YIELD, END];
    check_done(&rt, "alone", &alone, RUN, b"", "exit 1 0\ndone 4\n")
}

// What a child asks for, the sum of the answers modulo 256, and its steps before the exit.
#[test]
fn a_child_has_the_descriptors_of_its_parent(rt: HostRuntime) -> Result<(), Fail> {
    for (asks, status, steps) in [
        // A write to descriptor 0 and a read from descriptor 1: -9 twice.
        (
            "addi x12, x0, 0\naddi x10, x0, 0\naddi x17, x0, 8\necall\naddi x18, x10, 0\naddi x10, x0, 1\naddi x17, x0, 7\necall\nadd x10, x10, x18\n",
            238,
            9,
        ),
        // A write of no bytes to descriptor 1 and a read of none from descriptor 0.
        (
            "addi x12, x0, 0\naddi x10, x0, 1\naddi x17, x0, 8\necall\naddi x18, x10, 0\naddi x10, x0, 0\naddi x17, x0, 7\necall\nadd x10, x10, x18\n",
            0,
            9,
        ),
        // A write to descriptor 2.
        ("addi x10, x0, 2\naddi x17, x0, 8\necall\n", 247, 3),
        // A call that there isn't.
        ("addi x17, x0, 99\necall\n", 218, 2),
    ] {
        let guest = [
            START,
            FORK,
            "beq x10, x0, child\n",
            WAIT,
            "addi x10, x11, 0\n",
            END,
            "child:\n",
            asks,
            END,
        ];
        let steps = 12 + steps;
        let err = format!(in rt.alloc(); "exit 2 {status}\nexit 1 {status}\ndone {steps}\n")?;
        check_done(&rt, asks, &guest, RUN, b"", err.as_str())?;
    }
    Ok(())
}
