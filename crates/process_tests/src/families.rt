// Families of processes: their ids, and what becomes of the children of one that ends.
use crate::runs::{DATA, END, EXIT, FORK, RUN, START, WAIT, YIELD, check_done, with_options};
use std::test::Fail;

// Two forks make four processes. Each writes its parent's id and its own, and waits until it has no child.
#[test]
fn each_process_knows_its_id_and_its_parent(rt: HostRuntime) -> Result<(), Fail> {
    let guest = [
        START,
        DATA,
        FORK,
        FORK,
        "addi x17, x0, 5\necall\naddi x6, x10, 48\nsb x6, 0(c8)\n",
        "addi x17, x0, 4\necall\naddi x6, x10, 48\nsb x6, 1(c8)\n",
        "addi x10, x0, 1\ncmove c11, c8\naddi x12, x0, 2\naddi x17, x0, 8\necall\n",
        "again:\n",
        WAIT,
        "bge x10, x0, again\n",
        EXIT,
        ".segment 0x1000 rw\n.space 2\n",
    ];
    // Processes 1 to 4 make 33, 25, 19 and 19 steps.
    let err = "exit 3 0\nexit 4 0\nexit 2 0\nexit 1 0\ndone 96\n";
    check_done(&rt, "", &guest, RUN, b"01121324", err)
}

// Process 2 has a Zombie child, 3, and a live one, 4, when it ends and is a Zombie itself. Process 1 then forks 5, which gets the slot of
// 3, and waits until it has no child: 16 times 2 and 5 less 10 are 27. Process 4 exits with its parent's id.
#[test]
fn the_children_of_a_zombie_are_nobodys(rt: HostRuntime) -> Result<(), Fail> {
    let guest = [
        START,
        FORK,
        "beq x10, x0, child\n",
        YIELD,
        YIELD,
        FORK,
        "beq x10, x0, end\n",
        WAIT,
        "slli x18, x10, 4\n",
        WAIT,
        "add x18, x18, x10\n",
        WAIT,
        "add x10, x10, x18\n",
        END,
        "child:\n",
        FORK,
        "beq x10, x0, end\n",
        FORK,
        "beq x10, x0, live\n",
        YIELD,
        "addi x10, x0, 9\n",
        END,
        "live:\n",
        YIELD,
        YIELD,
        "addi x17, x0, 5\necall\n",
        END,
        "end:\n",
        EXIT,
    ];
    // Processes 1 to 5 make 22, 12, 4, 9 and 4 steps.
    let err = "exit 3 0\nexit 2 9\nexit 5 0\nexit 4 0\nexit 1 27\ndone 51\n";
    for options in ["", " --slots 4 --regions 4 --frames 4"] {
        check_done(&rt, options, &guest, with_options(options), b"", err)?;
    }
    Ok(())
}
