// Steps that end a process by a fault.
use crate::boot::{Seen, run};
use crate::rows::{FREE, ON, UNTOUCHED};
use kernel_loop::{StepReport, Work, WorkEnd};
use machine::State;
use machine_types::Outcome;
use std::process::Abort;
use std::test::Fail;

// A fault of process 1: the guest's lines from its entry on, how many steps it makes, the offset of PCC at the last one, the word that
// is fetched there, and the cause. The words are put together by hand, by RISC-V's formats.
type Row = (&'static str, u64, u64, Option<u32>, u32);

// The last step of a guest that ends in slot 0 by this fault.
fn check_last(rt: &(impl Abort + AllocGlobal), all: &[Seen], row: Row) {
    let (lines, steps, offset, word, cause) = row;
    assert_eq!(rt; all.len() as u64, steps, "{lines}");
    let Some(last) = all.last() else {
        return;
    };
    let dispatch = if steps == 1 { FREE } else { ON };
    let want = StepReport {
        id: 1,
        slot: 0,
        dispatch,
        work: Work::Instr {
            pc: 0x1_0000_0000_u64.saturating_add(offset),
            word,
        },
        touches: UNTOUCHED,
        printed: 0,
        end: WorkEnd::Ended {
            status: 256_u32.saturating_add(cause),
        },
    };
    assert_eq!(rt; last.report, want, "{lines}");
    assert_eq!(rt; last.outcome, Outcome::Done);
    assert_eq!(rt; last.steps, steps);
    assert_eq!(rt; last.process, None);
    assert!(rt; last.piece.is_empty());
}

#[test]
fn each_fault_ends_the_process_with_its_cause(rt: HostRuntime) -> Result<(), Fail> {
    let rows: [Row; 10] = [
        ("lb x5, 0(c0)", 1, 0, Some(0x0000_0283), 1),
        (
            "auipcc c5, 0\n csealentry c5, c5\n lb x6, 0(c5)",
            3,
            8,
            Some(0x0002_8303),
            2,
        ),
        ("auipcc c5, 0\n sb x0, 0(c5)", 2, 4, Some(0x0002_8023), 3),
        ("lb x5, -1(c2)", 1, 0, Some(0xfff1_0283), 4),
        ("ld x5, 4(c2)", 1, 0, Some(0x0041_3283), 5),
        (
            "lui x5, 1\n cincoffset c5, c2, x5\n lb x6, 0(c5)",
            3,
            8,
            Some(0x0002_8303),
            6,
        ),
        ("sb x0, 0(c2)", 1, 0, Some(0x0001_0023), 7),
        ("fence\n .word 0", 2, 4, Some(0), 8),
        ("ebreak", 1, 0, Some(0x0010_0073), 9),
        ("cjal c0, -4", 1, 0, Some(0xffdf_f06f), 10),
    ];
    for row in rows {
        let lines = row.0;
        let source = format!(in rt.alloc(); ".segment 0 rx\n.entry start\nstart: {lines}\n")?;
        let all = run(rt.alloc(), source.as_str(), "", 9)?;
        check_last(&rt, &all, row);
    }
    Ok(())
}

#[test]
fn a_fault_of_the_fetch_tells_no_word(rt: HostRuntime) -> Result<(), Fail> {
    // Page 1 is absent. The last instruction of the region is followed by the first byte past it.
    let absent = ".segment 0 rx\n.entry start\nstart: cjal c0, 4096\n";
    let all = run(rt.alloc(), absent, "", 9)?;
    check_last(&rt, &all, (absent, 2, 0x1000, None, 11));
    let past = ".segment 0xff000 rx\n.entry start\n.space 4092\nstart: fence\n";
    let all = run(rt.alloc(), past, "", 9)?;
    check_last(&rt, &all, (past, 2, 0x10_0000, None, 10));
    Ok(())
}

#[test]
fn a_child_that_is_killed_is_a_zombie_with_its_status(rt: HostRuntime) -> Result<(), Fail> {
    // The parent exits with the status that the wait answers: 256 and 9, modulo 256.
    let source = ".segment 0 rx
.entry start
start:
    addi x17, x0, 2      # fork
    ecall
    bne x10, x0, parent
    ebreak
parent:
    addi x17, x0, 3      # wait
    ecall
    addi x10, x11, 0
    addi x17, x0, 1      # exit
    ecall
";
    // 3 steps by the parent, 2 by the child, and 5 by the parent.
    let all = run(rt.alloc(), source, "3\n5\n", 20)?;
    assert_eq!(rt; all.len(), 10);
    if let Some(killed) = all.get(4) {
        assert_eq!(rt; killed.report.id, 2);
        assert_eq!(rt; killed.report.end, WorkEnd::Ended { status: 265 });
        let state = killed.process.map(|(state, _)| state);
        assert_eq!(rt; state, Some(State::Zombie { status: 265 }));
        assert_eq!(rt; killed.outcome, Outcome::Running);
    }
    if let Some(next) = all.get(5) {
        assert_eq!(rt; next.report.id, 1);
        assert_eq!(rt; next.report.dispatch, FREE);
    }
    if let Some(last) = all.last() {
        assert_eq!(rt; last.report.end, WorkEnd::Ended { status: 9 });
        assert_eq!(rt; last.outcome, Outcome::Done);
    }
    Ok(())
}
