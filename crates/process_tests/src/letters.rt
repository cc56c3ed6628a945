// A guest of two processes that print a letter each: in which order, and what it prints where its fork is refused.
use crate::runs::{
    DATA, EXIT, FORK, Given, PUT, RUN, START, WAIT, by_schedule, check, check_done, with_options,
};
use std::test::Fail;

// Each process stores the letter `a` more what fork answered, and writes it. The parent waits for the child.
const LETTERS: [&str; 10] = [
    START,
    DATA,
    FORK,
    "addi x6, x10, 97\nsb x6, 0(c8)\naddi x9, x10, 0\n",
    PUT,
    "beq x9, x0, end\n",
    WAIT,
    "end:\n",
    EXIT,
    ".segment 0x1000 rw\n.byte 0\n",
];

const BOTH_EXIT: &str = "exit 2 0\nexit 1 0\ndone 31\n";

#[test]
fn parent_and_child_print_a_letter_each(rt: HostRuntime) -> Result<(), Fail> {
    check_done(&rt, "", &LETTERS, RUN, b"ca", BOTH_EXIT)?;
    let turns = by_schedule("1*1000");
    check_done(&rt, "in turns", &LETTERS, turns, b"ac", BOTH_EXIT)
}

// The parent alone makes 4 steps. After that each has its 8th step print; the child's 12th is its last, and the parent's 11th its wait.
// They take turns, the child first, until no number is left, and then the one whose turn it is goes on to its end or its wait.
#[test]
fn each_letter_is_printed_once_whenever_the_turns_end(rt: HostRuntime) -> Result<(), Fail> {
    for turns in 1_u64..32 {
        let schedule = format!(in rt.alloc(); "1*{turns}\n")?;
        let child_goes_on = turns >= 4 && turns % 2 == 0;
        // By the 19th turn the child has made its 8th step.
        let out = if child_goes_on || turns >= 19 {
            b"ac"
        } else {
            b"ca"
        };
        // Where the child ends before the parent comes to its wait, the wait takes one step.
        let steps = if child_goes_on && turns <= 24 { 30 } else { 31 };
        let err = format!(in rt.alloc(); "exit 2 0\nexit 1 0\ndone {steps}\n")?;
        check_done(
            &rt,
            schedule.as_str(),
            &LETTERS,
            by_schedule(schedule.as_str()),
            out,
            err.as_str(),
        )?;
    }
    Ok(())
}

#[test]
fn a_quantum_is_the_steps_of_one_process(rt: HostRuntime) -> Result<(), Fail> {
    let rows: [(&'static str, &'static [u8], u64); 6] = [
        ("12", b"ca", 30),
        ("11", b"ac", 30),
        ("11\n8", b"ac", 31),
        ("11\n7", b"ca", 31),
        ("4\n7\n7", b"ac", 30),
        ("4\n7\n8", b"ca", 30),
    ];
    for (schedule, out, steps) in rows {
        let err = format!(in rt.alloc(); "exit 2 0\nexit 1 0\ndone {steps}\n")?;
        check_done(
            &rt,
            schedule,
            &LETTERS,
            by_schedule(schedule),
            out,
            err.as_str(),
        )?;
    }
    Ok(())
}

#[test]
fn a_refused_fork_answers_with_its_error(rt: HostRuntime) -> Result<(), Fail> {
    // 97 less 11 is a V, and less 12 is a U.
    let rows: [(&'static str, &'static [u8]); 7] = [
        (" --slots 1", b"V"),
        (" --regions 1", b"U"),
        (" --slots 1 --regions 1", b"V"),
        (" --frames 2", b"U"),
        (" --frames 3", b"U"),
        (" --frames 2 --regions 1", b"U"),
        (" --frames 2 --slots 1", b"V"),
    ];
    for (options, out) in rows {
        let given = with_options(options);
        check_done(&rt, options, &LETTERS, given, out, "exit 1 0\ndone 18\n")?;
    }
    check_done(
        &rt,
        "enough",
        &LETTERS,
        with_options(" --slots 2 --regions 2 --frames 4"),
        b"ca",
        BOTH_EXIT,
    )
}

#[test]
fn two_pages_want_two_frames(rt: HostRuntime) -> Result<(), Fail> {
    let err = "ufork: image needs 2 pages, 1 frames\n";
    check(
        &rt,
        "",
        &LETTERS,
        with_options(" --frames 1"),
        (12, b"", err, 0),
    )
}

// How many frames are used tells which processes have pages.
#[test]
fn a_run_may_stop_between_two_processes(rt: HostRuntime) -> Result<(), Fail> {
    let rows: [(&'static str, &'static [u8], &'static str, u32); 6] = [
        (" --steps 3", b"", "stopped 3\n", 2),
        (" --steps 4", b"", "stopped 4\n", 4),
        (" --steps 12", b"c", "stopped 12\n", 4),
        (" --steps 23", b"ca", "stopped 23\n", 4),
        (" --steps 27", b"ca", "exit 2 0\nstopped 27\n", 2),
        (" --steps 30", b"ca", "exit 2 0\nstopped 30\n", 2),
    ];
    for (options, out, err, used) in rows {
        let given = with_options(options);
        check(&rt, options, &LETTERS, given, (8, out, err, used))?;
    }
    check_done(
        &rt,
        "to the end",
        &LETTERS,
        with_options(" --steps 31"),
        b"ca",
        BOTH_EXIT,
    )
}

#[test]
fn the_letter_of_the_child_may_be_lost(rt: HostRuntime) -> Result<(), Fail> {
    let given = Given {
        out_fails: Some(1),
        ..RUN
    };
    check(&rt, "", &LETTERS, given, (7, b"c", "", 4))?;
    let first = Given {
        out_fails: Some(0),
        ..RUN
    };
    check(&rt, "the parent's", &LETTERS, first, (7, b"", "", 4))
}
