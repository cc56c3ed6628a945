// The order in which processes are dispatched: the next ready slot after the last one, and behind the highest the lowest.
use crate::rows::{FREE, ON, Place, Row, check, steps};
use kernel_loop::WorkEnd;
use machine_types::Outcome;
use std::test::Fail;

// A fork by which the child has this id, slot and region.
fn forked(child: u32, slot: u32, region: u32) -> WorkEnd {
    WorkEnd::Forked {
        answer: i64::from(child),
        child: u64::from(child),
        slot,
        region,
    }
}

// A call with this number was answered.
fn answered(number: u64, answer: i64) -> WorkEnd {
    WorkEnd::Answered { number, answer }
}

fn ended(status: u32) -> WorkEnd {
    WorkEnd::Ended { status }
}

const PLAIN: WorkEnd = WorkEnd::Plain;

// An instruction at an offset in a region: region r begins at 2^32 + r * 2^20.
fn at(region: u32, offset: u32) -> Place {
    Place::At(start(region).saturating_add(u64::from(offset)))
}

// A call that is gone on with, at an offset in a region.
fn again(region: u32, offset: u32) -> Place {
    Place::Again(start(region).saturating_add(u64::from(offset)))
}

fn start(region: u32) -> u64 {
    0x1_0000_0000_u64.saturating_add(u64::from(region).saturating_mul(0x10_0000))
}

#[test]
fn two_processes_take_turns(rt: HostRuntime) -> Result<(), Fail> {
    let source = ".segment 0 rx
.entry start
start:
    addi x17, x0, 2      # fork
    ecall
loop:
    cjal c0, loop
";
    let rows: [Row; 12] = [
        (1, 0, steps(2), at(0, 0), PLAIN),
        (1, 0, ON, at(0, 4), forked(2, 1, 1)),
        (2, 1, steps(1), at(1, 8), PLAIN),
        (1, 0, steps(1), at(0, 8), PLAIN),
        (2, 1, steps(1), at(1, 8), PLAIN),
        (1, 0, steps(2), at(0, 8), PLAIN),
        (1, 0, ON, at(0, 8), PLAIN),
        (2, 1, steps(2), at(1, 8), PLAIN),
        (2, 1, ON, at(1, 8), PLAIN),
        (1, 0, FREE, at(0, 8), PLAIN),
        (1, 0, ON, at(0, 8), PLAIN),
        (1, 0, ON, at(0, 8), PLAIN),
    ];
    check(&rt, source, "2\n1*3\n2*2\n", &rows, Outcome::Running)
}

#[test]
fn three_processes_take_turns(rt: HostRuntime) -> Result<(), Fail> {
    let source = ".segment 0 rx
.entry start
start:
    addi x17, x0, 2      # fork
    ecall
    beq x10, x0, loop
    ecall                # fork again
loop:
    cjal c0, loop
";
    // The second child's first instruction is the one behind the second call.
    let rows: [Row; 12] = [
        (1, 0, steps(4), at(0, 0), PLAIN),
        (1, 0, ON, at(0, 4), forked(2, 1, 1)),
        (1, 0, ON, at(0, 8), PLAIN),
        (1, 0, ON, at(0, 12), forked(3, 2, 2)),
        (2, 1, steps(1), at(1, 8), PLAIN),
        (3, 2, steps(1), at(2, 16), PLAIN),
        (1, 0, steps(1), at(0, 16), PLAIN),
        (2, 1, steps(1), at(1, 16), PLAIN),
        (3, 2, steps(1), at(2, 16), PLAIN),
        (1, 0, steps(1), at(0, 16), PLAIN),
        (2, 1, FREE, at(1, 16), PLAIN),
        (2, 1, ON, at(1, 16), PLAIN),
    ];
    check(&rt, source, "4\n1*6\n", &rows, Outcome::Running)
}

#[test]
fn processes_that_yield_take_turns(rt: HostRuntime) -> Result<(), Fail> {
    let source = ".segment 0 rx
.entry start
start:
    addi x17, x0, 2      # fork
    ecall
    addi x17, x0, 12     # yield
again:
    ecall
    cjal c0, again
";
    let yielded = answered(12, 0);
    let rows: [Row; 12] = [
        (1, 0, steps(9), at(0, 0), PLAIN),
        (1, 0, ON, at(0, 4), forked(2, 1, 1)),
        (1, 0, ON, at(0, 8), PLAIN),
        (1, 0, ON, at(0, 12), yielded),
        (2, 1, steps(8), at(1, 8), PLAIN),
        (2, 1, ON, at(1, 12), yielded),
        (1, 0, steps(1), at(0, 16), PLAIN),
        (2, 1, steps(7), at(1, 16), PLAIN),
        (2, 1, ON, at(1, 12), yielded),
        (1, 0, FREE, at(0, 12), yielded),
        (2, 1, FREE, at(1, 16), PLAIN),
        (2, 1, ON, at(1, 12), yielded),
    ];
    check(&rt, source, "9\n8\n1\n7\n", &rows, Outcome::Running)
}

#[test]
fn a_refused_fork_goes_on_with_the_dispatch(rt: HostRuntime) -> Result<(), Fail> {
    // There are four slots: the fourth fork finds none.
    let source = ".segment 0 rx
.entry start
start:
    addi x17, x0, 2      # fork
    ecall
    ecall
    ecall
    ecall
loop:
    cjal c0, loop
";
    let rows: [Row; 8] = [
        (1, 0, steps(6), at(0, 0), PLAIN),
        (1, 0, ON, at(0, 4), forked(2, 1, 1)),
        (1, 0, ON, at(0, 8), forked(3, 2, 2)),
        (1, 0, ON, at(0, 12), forked(4, 3, 3)),
        (1, 0, ON, at(0, 16), answered(2, -11)),
        (1, 0, ON, at(0, 20), PLAIN),
        (2, 1, FREE, at(1, 8), answered(2, -11)),
        (2, 1, ON, at(1, 12), answered(2, -11)),
    ];
    check(&rt, source, "6\n", &rows, Outcome::Running)
}

// The parent waits, and exits with the child's id. The child exits with 7.
const WAITS: &str = ".segment 0 rx
.entry start
start:
    addi x17, x0, 2      # fork
    ecall
    beq x10, x0, child
    addi x17, x0, 3      # wait
    ecall
    addi x17, x0, 1      # exit
    ecall
child:
    addi x10, x0, 7
    addi x17, x0, 1      # exit
    ecall
";

#[test]
fn an_attempt_that_waits_is_a_step(rt: HostRuntime) -> Result<(), Fail> {
    // The call is attempted in step 5, and gone on with in step 10, without a fetch.
    let rows: [Row; 12] = [
        (1, 0, FREE, at(0, 0), PLAIN),
        (1, 0, ON, at(0, 4), forked(2, 1, 1)),
        (1, 0, ON, at(0, 8), PLAIN),
        (1, 0, ON, at(0, 12), PLAIN),
        (1, 0, ON, at(0, 16), WorkEnd::Waiting { number: 3 }),
        (2, 1, FREE, at(1, 8), PLAIN),
        (2, 1, ON, at(1, 28), PLAIN),
        (2, 1, ON, at(1, 32), PLAIN),
        (2, 1, ON, at(1, 36), ended(7)),
        (1, 0, FREE, again(0, 16), answered(3, 2)),
        (1, 0, ON, at(0, 20), PLAIN),
        (1, 0, ON, at(0, 24), ended(2)),
    ];
    check(&rt, WAITS, "", &rows, Outcome::Done)
}

#[test]
fn waits_and_ends_lose_what_is_left_of_a_quantum(rt: HostRuntime) -> Result<(), Fail> {
    // Three steps of the first quantum are lost, and six of the second. The attempt that answers costs the one of the third.
    let rows: [Row; 12] = [
        (1, 0, steps(8), at(0, 0), PLAIN),
        (1, 0, ON, at(0, 4), forked(2, 1, 1)),
        (1, 0, ON, at(0, 8), PLAIN),
        (1, 0, ON, at(0, 12), PLAIN),
        (1, 0, ON, at(0, 16), WorkEnd::Waiting { number: 3 }),
        (2, 1, steps(10), at(1, 8), PLAIN),
        (2, 1, ON, at(1, 28), PLAIN),
        (2, 1, ON, at(1, 32), PLAIN),
        (2, 1, ON, at(1, 36), ended(7)),
        (1, 0, steps(1), again(0, 16), answered(3, 2)),
        (1, 0, steps(4), at(0, 20), PLAIN),
        (1, 0, ON, at(0, 24), ended(2)),
    ];
    check(&rt, WAITS, "8\n10\n1\n4\n", &rows, Outcome::Done)
}

#[test]
fn a_process_that_waits_is_passed_over(rt: HostRuntime) -> Result<(), Fail> {
    let source = ".segment 0 rx
.entry start
start:
    addi x17, x0, 2      # fork
    ecall
    beq x10, x0, child
    ecall                # fork again
    beq x10, x0, child
    addi x17, x0, 3      # wait
    ecall
    ecall                # wait again
    ecall                # and again, without a child
    ebreak
child:
    addi x17, x0, 1      # exit with 0
    ecall
";
    // Slot 0 is passed over in step 10. It is ready from step 12 on, and its turn comes after slot 2.
    let rows: [Row; 17] = [
        (1, 0, steps(9), at(0, 0), PLAIN),
        (1, 0, ON, at(0, 4), forked(2, 1, 1)),
        (1, 0, ON, at(0, 8), PLAIN),
        (1, 0, ON, at(0, 12), forked(3, 2, 2)),
        (1, 0, ON, at(0, 16), PLAIN),
        (1, 0, ON, at(0, 20), PLAIN),
        (1, 0, ON, at(0, 24), WorkEnd::Waiting { number: 3 }),
        (2, 1, steps(1), at(1, 8), PLAIN),
        (3, 2, steps(1), at(2, 16), PLAIN),
        (2, 1, steps(1), at(1, 40), PLAIN),
        (3, 2, steps(1), at(2, 40), PLAIN),
        (2, 1, steps(1), at(1, 44), ended(0)),
        (3, 2, steps(1), at(2, 44), ended(0)),
        (1, 0, steps(1), again(0, 24), answered(3, 2)),
        (1, 0, steps(1), at(0, 28), answered(3, 3)),
        (1, 0, FREE, at(0, 32), answered(3, -10)),
        (1, 0, ON, at(0, 36), ended(265)),
    ];
    check(&rt, source, "9\n1*8\n", &rows, Outcome::Done)
}

#[test]
fn slots_decide_and_not_ids(rt: HostRuntime) -> Result<(), Fail> {
    let source = ".segment 0 rx
.entry start
start:
    addi x17, x0, 2      # fork
    ecall
    bne x10, x0, parent
    addi x17, x0, 1      # exit with 0
    ecall
parent:
    ecall                # fork again
    beq x10, x0, loop
    addi x17, x0, 3      # wait
    ecall
    addi x17, x0, 2      # fork for the third time
    ecall
loop:
    cjal c0, loop
";
    // The Zombie keeps its slot and not its region, until the wait.
    let rows: [Row; 17] = [
        (1, 0, steps(3), at(0, 0), PLAIN),
        (1, 0, ON, at(0, 4), forked(2, 1, 1)),
        (1, 0, ON, at(0, 8), PLAIN),
        (2, 1, steps(3), at(1, 8), PLAIN),
        (2, 1, ON, at(1, 12), PLAIN),
        (2, 1, ON, at(1, 16), ended(0)),
        (1, 0, steps(6), at(0, 20), forked(3, 2, 1)),
        (1, 0, ON, at(0, 24), PLAIN),
        (1, 0, ON, at(0, 28), PLAIN),
        (1, 0, ON, at(0, 32), answered(3, 2)),
        (1, 0, ON, at(0, 36), PLAIN),
        (1, 0, ON, at(0, 40), forked(4, 1, 2)),
        (4, 1, steps(1), at(2, 44), PLAIN),
        (3, 2, steps(1), at(1, 24), PLAIN),
        (1, 0, steps(1), at(0, 44), PLAIN),
        (4, 1, steps(1), at(2, 44), PLAIN),
        (3, 2, FREE, at(1, 44), PLAIN),
    ];
    check(&rt, source, "3*2\n6\n1*4\n", &rows, Outcome::Running)
}

#[test]
fn the_slot_of_a_process_without_a_parent_is_free_at_its_end(rt: HostRuntime) -> Result<(), Fail> {
    let source = ".segment 0 rx
.entry start
start:
    addi x17, x0, 2      # fork
    ecall
    bne x10, x0, end
    ecall                # the child forks
loop:
    cjal c0, loop
end:
    addi x17, x0, 1      # exit with 2
    ecall
";
    // The second child has the slot and the region of process 1.
    let rows: [Row; 11] = [
        (1, 0, steps(9), at(0, 0), PLAIN),
        (1, 0, ON, at(0, 4), forked(2, 1, 1)),
        (1, 0, ON, at(0, 8), PLAIN),
        (1, 0, ON, at(0, 20), PLAIN),
        (1, 0, ON, at(0, 24), ended(2)),
        (2, 1, steps(3), at(1, 8), PLAIN),
        (2, 1, ON, at(1, 12), forked(3, 0, 0)),
        (2, 1, ON, at(1, 16), PLAIN),
        (3, 0, steps(1), at(0, 16), PLAIN),
        (2, 1, steps(1), at(1, 16), PLAIN),
        (3, 0, FREE, at(0, 16), PLAIN),
    ];
    check(&rt, source, "9\n3\n1*2\n", &rows, Outcome::Running)
}
