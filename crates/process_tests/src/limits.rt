// Forks until there is no slot, no region or no frame, and what a refused one leaves.
use crate::runs::{END, EXIT, FORK, START, WAIT, YIELD, check_done, with_options};
use std::alloc::{AllocError, Global};
use std::test::Fail;

// Each child forks in its turn, until a fork is refused. That process exits with the answer, and each other one with one more than its
// child.
const CHAIN: [&str; 8] = [
    START,
    "again:\n",
    FORK,
    "beq x10, x0, again\nblt x10, x0, refused\n",
    WAIT,
    "addi x10, x11, 1\naddi x17, x0, 1\necall\n",
    "refused:\n",
    END,
];

// The lines of a chain of so many processes, of which the last one exits with this status.
fn chain_lines(alloc: Global, count: u64, status: u64) -> Result<String, AllocError> {
    let mut lines = String::new(alloc);
    for after in 0..count {
        let id = count - after;
        let status = status.wrapping_add(after) % 256;
        let line = format!(in alloc; "exit {id} {status}\n")?;
        lines.push_str(line.as_str())?;
    }
    // The first one makes 10 steps, the last one 7, and each between them 11.
    let steps = count.wrapping_mul(11).wrapping_sub(5);
    let line = format!(in alloc; "done {steps}\n")?;
    lines.push_str(line.as_str())?;
    Ok(lines)
}

#[test]
fn a_chain_of_forks_ends_where_something_is_wanting(rt: HostRuntime) -> Result<(), Fail> {
    // -11 modulo 256 is 245, and -12 is 244.
    for (options, count, status) in [
        ("", 16, 245),
        (" --slots 2 --regions 64", 2, 245),
        (" --slots 4", 4, 245),
        (" --regions 4", 4, 244),
        (" --frames 4", 4, 244),
        (" --slots 4 --regions 4 --frames 4", 4, 245),
        (" --slots 64", 16, 244),
        (" --slots 64 --regions 64 --frames 63", 63, 244),
        (" --slots 63 --regions 64 --frames 63", 63, 245),
        (" --slots 64 --regions 64", 64, 245),
        (" --slots 64 --regions 64 --frames 64", 64, 245),
    ] {
        let err = chain_lines(rt.alloc(), count, status)?;
        let given = with_options(options);
        check_done(&rt, options, &CHAIN, given, b"", err.as_str())?;
    }
    Ok(())
}

// One process forks until it is refused, exits with the answer and leaves its children. The lines where there are so many of them.
fn family_lines(alloc: Global, children: u64, status: u64) -> Result<String, AllocError> {
    let mut lines = format!(in alloc; "exit 1 {status}\n")?;
    for child in 0..children {
        let id = child.wrapping_add(2);
        let line = format!(in alloc; "exit {id} 0\n")?;
        lines.push_str(line.as_str())?;
    }
    // Each of the forks, the refused one too, takes the parent 4 steps, its end takes it 2, and a child makes 4.
    let steps = children.wrapping_mul(8).wrapping_add(6);
    let line = format!(in alloc; "done {steps}\n")?;
    lines.push_str(line.as_str())?;
    Ok(lines)
}

#[test]
fn one_process_fills_all_slots(rt: HostRuntime) -> Result<(), Fail> {
    let guest = [
        START,
        "again:\n",
        FORK,
        "beq x10, x0, end\nbge x10, x0, again\n",
        END,
        "end:\n",
        EXIT,
    ];
    for (options, children, status) in [
        ("", 15, 245),
        (" --slots 5", 4, 245),
        (" --regions 5", 4, 244),
        (" --frames 5", 4, 244),
        (" --slots 64 --regions 64", 63, 245),
    ] {
        let err = family_lines(rt.alloc(), children, status)?;
        let given = with_options(options);
        check_done(&rt, options, &guest, given, b"", err.as_str())?;
    }
    Ok(())
}

// While its child lives a second fork is refused; once it has waited for the child it forks again. It exits with the sum of the last two
// answers.
#[test]
fn a_refused_fork_takes_no_id(rt: HostRuntime) -> Result<(), Fail> {
    let guest = [
        START,
        FORK,
        "beq x10, x0, end\n",
        FORK,
        "addi x18, x10, 0\n",
        WAIT,
        FORK,
        "beq x10, x0, end\nadd x10, x10, x18\n",
        END,
        "end:\n",
        EXIT,
    ];
    // 3 less 11 is 248 modulo 256, and 3 less 12 is 247.
    for (options, status) in [
        (" --slots 2", 248),
        (" --regions 2", 247),
        (" --frames 2", 247),
    ] {
        let err = format!(in rt.alloc(); "exit 2 0\nexit 1 {status}\nexit 3 0\ndone 23\n")?;
        let given = with_options(options);
        check_done(&rt, options, &guest, given, b"", err.as_str())?;
    }
    Ok(())
}

// The child has ended before the second fork, and nobody has waited for it.
#[test]
fn a_zombie_keeps_its_slot_alone(rt: HostRuntime) -> Result<(), Fail> {
    let guest = [
        START,
        FORK,
        "beq x10, x0, end\n",
        YIELD,
        FORK,
        "beq x10, x0, end\n",
        END,
        "end:\n",
        EXIT,
    ];
    let refused = "exit 2 0\nexit 1 245\ndone 14\n";
    let forked = "exit 2 0\nexit 1 3\nexit 3 0\ndone 18\n";
    for (options, err) in [
        (" --slots 2", refused),
        (" --regions 2", forked),
        (" --frames 2", forked),
    ] {
        check_done(&rt, options, &guest, with_options(options), b"", err)?;
    }
    Ok(())
}

// A hundred children, one after another, each in the same slot and region.
#[test]
fn ids_go_on_where_slots_are_used_again(rt: HostRuntime) -> Result<(), Fail> {
    let guest = [
        START,
        "addi x18, x0, 100\nagain:\n",
        FORK,
        "beq x10, x0, end\n",
        WAIT,
        "addi x18, x18, -1\nbne x18, x0, again\n",
        "end:\n",
        EXIT,
    ];
    let mut err = String::new(rt.alloc());
    for id in 2_u64..102 {
        let line = format!(in rt.alloc(); "exit {id} 0\n")?;
        err.push_str(line.as_str())?;
    }
    // The parent makes 4 steps and 8 for each child, of which each makes 4.
    err.push_str("exit 1 0\ndone 1204\n")?;
    let given = with_options(" --slots 2 --regions 2 --frames 2");
    check_done(&rt, "", &guest, given, b"", err.as_str())
}
