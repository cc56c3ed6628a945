// Writes of more than 4096 bytes: a transfer in each step, of which each but the first goes on with the call.
use crate::boot::{Seen, run};
use crate::rows::{FREE, ON, Place, Row, check_rows, steps};
use kernel_loop::{Quantum, WorkEnd};
use machine::State;
use machine_types::Outcome;
use std::alloc::Global;
use std::process::Abort;
use std::test::Fail;

const PLAIN: WorkEnd = WorkEnd::Plain;

const UNFINISHED: WorkEnd = WorkEnd::Waiting { number: 8 };

// A write that was answered.
fn sent(answer: i64) -> WorkEnd {
    WorkEnd::Answered { number: 8, answer }
}

// A guest that writes so many bytes, a number of times 4096 and a rest, from page 1 on, and exits with the answer. In its data the
// bytes at both ends of each 4096 are letters, and so are those at both ends of the 808 behind.
fn writes(alloc: Global, pages: u32, rest: i32) -> Result<String, Fail> {
    Ok(format!(in alloc;
        ".segment 0 rx
.entry start
start:
    lui x5, 1
    cincoffset c11, c2, x5
    lui x12, {pages}
    addi x12, x12, {rest}
    addi x10, x0, 1
    addi x17, x0, 8
    ecall
    addi x17, x0, 1
    ecall
.segment 0x1000 r
    .ascii \"a\"
    .space 4094
    .ascii \"bc\"
    .space 4094
    .ascii \"de\"
    .space 806
    .ascii \"fg\"
"
    )?)
}

// A piece of so many bytes, of which all are zero but the first and the last.
fn piece(alloc: Global, first: u8, length: usize, last: u8) -> Result<Vec<u8>, Fail> {
    let mut bytes = vec![in alloc; 0_u8; length]?;
    if let Some(byte) = bytes.first_mut() {
        *byte = first;
    }
    if let Some(byte) = bytes.last_mut() {
        *byte = last;
    }
    Ok(bytes)
}

// The steps that printed, with the number of bytes.
fn lengths(alloc: Global, all: &[Seen]) -> Result<Vec<(u64, usize)>, Fail> {
    let mut lengths = Vec::new(alloc);
    for seen in all {
        if !seen.piece.is_empty() {
            lengths.push((seen.steps, seen.piece.len()))?;
        }
    }
    Ok(lengths)
}

// The state of the writer and the address of its PCC, after a step from 1 on.
fn check_process(
    rt: &(impl Abort + AllocGlobal),
    all: &[Seen],
    number: usize,
    state: State,
    pc: u64,
) {
    let seen = all.get(number.saturating_sub(1));
    let process = match seen {
        Some(seen) => seen.process,
        None => None,
    };
    assert_eq!(rt; process, Some((state, pc)), "step {number}");
}

// The steps of a write of 9000 bytes: 8192 and 808. The status is 9000 modulo 256.
fn nine_thousand(dispatches: [Option<Quantum>; 11]) -> [Row; 11] {
    let [a, b, c, d, e, f, g, h, i, j, k] = dispatches;
    [
        (1, 0, a, Place::At(0x1_0000_0000), PLAIN),
        (1, 0, b, Place::At(0x1_0000_0004), PLAIN),
        (1, 0, c, Place::At(0x1_0000_0008), PLAIN),
        (1, 0, d, Place::At(0x1_0000_000c), PLAIN),
        (1, 0, e, Place::At(0x1_0000_0010), PLAIN),
        (1, 0, f, Place::At(0x1_0000_0014), PLAIN),
        (1, 0, g, Place::At(0x1_0000_0018), UNFINISHED),
        (1, 0, h, Place::Again(0x1_0000_0018), UNFINISHED),
        (1, 0, i, Place::Again(0x1_0000_0018), sent(9000)),
        (1, 0, j, Place::At(0x1_0000_001c), PLAIN),
        (
            1,
            0,
            k,
            Place::At(0x1_0000_0020),
            WorkEnd::Ended { status: 40 },
        ),
    ]
}

// The pieces of that write, by the steps that printed them, and nothing by the others.
fn check_pieces(rt: &(impl Abort + AllocGlobal), all: &[Seen]) -> Result<(), Fail> {
    let alloc = rt.alloc();
    let want = [(7_u64, 4096_usize), (8, 4096), (9, 808)];
    assert_eq!(rt; lengths(alloc, all)?.as_slice(), want.as_slice());
    let pieces = [
        piece(alloc, b'a', 4096, b'b')?,
        piece(alloc, b'c', 4096, b'd')?,
        piece(alloc, b'e', 808, b'f')?,
    ];
    for (seen, want) in all.iter().skip(6).zip(&pieces) {
        assert_eq!(rt; seen.piece, *want);
    }
    Ok(())
}

#[test]
fn a_write_of_9000_bytes_goes_in_three_steps(rt: HostRuntime) -> Result<(), Fail> {
    let source = writes(rt.alloc(), 2, 808)?;
    let all = run(rt.alloc(), source.as_str(), "", 20)?;
    let rows = nine_thousand([FREE, ON, ON, ON, ON, ON, ON, ON, ON, ON, ON]);
    check_rows(&rt, &all, &rows, Outcome::Done);
    check_pieces(&rt, &all)?;
    // PCC stays at the call until it is answered.
    check_process(&rt, &all, 6, State::Ready, 0x1_0000_0018);
    check_process(&rt, &all, 7, State::InWrite { done: 4096 }, 0x1_0000_0018);
    check_process(&rt, &all, 8, State::InWrite { done: 8192 }, 0x1_0000_0018);
    check_process(&rt, &all, 9, State::Ready, 0x1_0000_001c);
    Ok(())
}

#[test]
fn a_quantum_may_end_within_a_write(rt: HostRuntime) -> Result<(), Fail> {
    // Each transfer costs one of its quantum.
    let source = writes(rt.alloc(), 2, 808)?;
    let cases = [
        (
            "7\n1\n5\n",
            [steps(7), ON, ON, ON, ON, ON, ON, steps(1), steps(5), ON, ON],
        ),
        (
            "8\n2\n",
            [steps(8), ON, ON, ON, ON, ON, ON, ON, steps(2), ON, FREE],
        ),
        (
            "6\n3\n",
            [steps(6), ON, ON, ON, ON, ON, steps(3), ON, ON, FREE, ON],
        ),
    ];
    for (schedule, dispatches) in cases {
        let all = run(rt.alloc(), source.as_str(), schedule, 20)?;
        check_rows(&rt, &all, &nine_thousand(dispatches), Outcome::Done);
        check_pieces(&rt, &all)?;
    }
    Ok(())
}

#[test]
fn a_write_has_a_step_for_each_4096_bytes(rt: HostRuntime) -> Result<(), Fail> {
    // The count as so many times 4096 and a rest, and the pieces, of which the first comes in step 7.
    let rows: [(u32, i32, &[(u64, usize)]); 6] = [
        (0, 0, &[]),
        (1, -1, &[(7, 4095)]),
        (1, 0, &[(7, 4096)]),
        (1, 1, &[(7, 4096), (8, 1)]),
        (2, 0, &[(7, 4096), (8, 4096)]),
        (1, 904, &[(7, 4096), (8, 904)]),
    ];
    for (pages, rest, pieces) in rows {
        let source = writes(rt.alloc(), pages, rest)?;
        let all = run(rt.alloc(), source.as_str(), "", 20)?;
        assert_eq!(rt; lengths(rt.alloc(), &all)?.as_slice(), pieces);
        let count = i64::from(pages)
            .saturating_mul(4096)
            .saturating_add(i64::from(rest));
        // 6 steps, a step for each piece and at least one, and 2 steps.
        let transfers = pieces.len().max(1);
        assert_eq!(rt; all.len(), transfers.saturating_add(8));
        if let Some(answer) = all.get(transfers.saturating_add(5)) {
            assert_eq!(rt; answer.report.end, sent(count));
        }
    }
    Ok(())
}

// The parent writes 5000 bytes from page 1 on, which are 4096 and 904, and exits with 5000 modulo 256. The child writes one byte, and
// exits with 1.
const TWO_WRITERS: &str = ".segment 0 rx
.entry start
start:
    addi x17, x0, 2      # fork
    ecall
    addi x17, x0, 8      # write
    beq x10, x0, child
    lui x5, 1
    cincoffset c11, c2, x5
    lui x12, 1
    addi x12, x12, 904
    addi x10, x0, 1
    ecall
    addi x17, x0, 1      # exit
    ecall
child:
    lui x5, 1
    cincoffset c11, c2, x5
    addi x12, x0, 1
    addi x10, x0, 1
    ecall
    addi x17, x0, 1      # exit
    ecall
.segment 0x1000 r
    .ascii \"a\"
    .space 4094
    .ascii \"bc\"
    .space 902
    .ascii \"de\"
";

// Its steps by a schedule that interrupts the parent between its transfers, and the child behind its write.
fn two_writers() -> [Row; 22] {
    let parent = |offset: u64| Place::At(0x1_0000_0000_u64.saturating_add(offset));
    let child = |offset: u64| Place::At(0x1_0010_0000_u64.saturating_add(offset));
    let forked = WorkEnd::Forked {
        answer: 2,
        child: 2,
        slot: 1,
        region: 1,
    };
    [
        (1, 0, steps(10), parent(0), PLAIN),
        (1, 0, ON, parent(4), forked),
        (1, 0, ON, parent(8), PLAIN),
        (1, 0, ON, parent(12), PLAIN),
        (1, 0, ON, parent(16), PLAIN),
        (1, 0, ON, parent(20), PLAIN),
        (1, 0, ON, parent(24), PLAIN),
        (1, 0, ON, parent(28), PLAIN),
        (1, 0, ON, parent(32), PLAIN),
        (1, 0, ON, parent(36), UNFINISHED),
        (2, 1, steps(7), child(8), PLAIN),
        (2, 1, ON, child(12), PLAIN),
        (2, 1, ON, child(48), PLAIN),
        (2, 1, ON, child(52), PLAIN),
        (2, 1, ON, child(56), PLAIN),
        (2, 1, ON, child(60), PLAIN),
        (2, 1, ON, child(64), sent(1)),
        (1, 0, FREE, Place::Again(0x1_0000_0024), sent(5000)),
        (1, 0, ON, parent(40), PLAIN),
        (1, 0, ON, parent(44), WorkEnd::Ended { status: 136 }),
        (2, 1, FREE, child(68), PLAIN),
        (2, 1, ON, child(72), WorkEnd::Ended { status: 1 }),
    ]
}

#[test]
fn another_process_may_print_between_the_pieces_of_a_write(rt: HostRuntime) -> Result<(), Fail> {
    let all = run(rt.alloc(), TWO_WRITERS, "10\n7\n", 30)?;
    check_rows(&rt, &all, &two_writers(), Outcome::Done);
    let want = [(10_u64, 4096_usize), (17, 1), (18, 904)];
    assert_eq!(rt; lengths(rt.alloc(), &all)?.as_slice(), want.as_slice());
    let pieces = [
        (9, piece(rt.alloc(), b'a', 4096, b'b')?),
        (16, piece(rt.alloc(), b'a', 1, b'a')?),
        (17, piece(rt.alloc(), b'c', 904, b'd')?),
    ];
    for (place, want) in &pieces {
        if let Some(seen) = all.get(*place) {
            assert_eq!(rt; seen.piece, *want);
        }
    }
    Ok(())
}
