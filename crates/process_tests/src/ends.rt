// How processes end while others live: by exit and by each cause, and what their parents are told.
use crate::runs::{DATA, END, EXIT, FORK, RUN, START, WAIT, YIELD, check_done};
use std::process::Abort;
use std::test::Fail;

// What a child does from its second step on, the two bytes of the status that its parent is told, and the number of these steps. The
// child has pages 0 and 1, the first to be read and executed and the second to be read and written; register 8 points to the second and
// register 2 to the whole region.
type Row = (&'static str, u8, u8, u64);

const ROWS: [Row; 19] = [
    ("addi x10, x0, 5\naddi x17, x0, 1\necall\n", 5, 0, 3),
    ("addi x10, x0, -1\naddi x17, x0, 1\necall\n", 255, 0, 3),
    ("addi x10, x0, 256\naddi x17, x0, 1\necall\n", 0, 0, 3),
    // A number.
    ("ld x6, 0(c5)\n", 1, 1, 1),
    ("cjalr c0, c5, 0\n", 1, 1, 1),
    // So far into the region below that the tag is lost.
    (
        "lui x7, 256\nsub x7, x0, x7\ncincoffset c6, c8, x7\nld x6, 0(c6)\n",
        1,
        1,
        4,
    ),
    // An entry.
    ("auipcc c6, 0\ncsealentry c6, c6\nld x6, 0(c6)\n", 2, 1, 3),
    // A store by the code's capability.
    ("auipcc c6, 0\nsd x0, 0(c6)\n", 3, 1, 2),
    // A jump by the data's.
    ("cjalr c0, c2, 0\n", 3, 1, 1),
    ("csetboundsimm c6, c8, 8\nld x6, 8(c6)\n", 4, 1, 2),
    // The last page of the region below.
    (
        "lui x7, 2\nsub x7, x0, x7\ncincoffset c6, c8, x7\nld x6, 0(c6)\n",
        4,
        1,
        4,
    ),
    ("ld x6, 4(c8)\n", 5, 1, 1),
    ("lui x7, 2\ncincoffset c6, c2, x7\nld x6, 0(c6)\n", 6, 1, 3),
    ("sd x0, 0(c2)\n", 7, 1, 1),
    (".word 0\n", 8, 1, 1),
    ("ebreak\n", 9, 1, 1),
    // The region below.
    ("cjal c0, -1048576\n", 10, 1, 1),
    // Page 2, which is absent, and page 1.
    ("auipcc c6, 2\ncjalr c0, c6, 0\n", 11, 1, 3),
    ("auipcc c6, 1\ncjalr c0, c6, 0\n", 11, 1, 3),
];

fn check_end(rt: &(impl Abort + AllocGlobal), row: Row) -> Result<(), Fail> {
    let (dies, low, high, steps) = row;
    let guest = [
        START,
        DATA,
        FORK,
        "bne x10, x0, parent\n",
        dies,
        "parent:\n",
        WAIT,
        "sh x11, 0(c8)\naddi x10, x0, 1\ncmove c11, c8\naddi x12, x0, 2\naddi x17, x0, 8\necall\n",
        EXIT,
        ".segment 0x1000 rw\n.quad 0\n",
    ];
    let status = u16::from_le_bytes([low, high]);
    // The parent makes 17 steps, and the child one before these.
    let steps = steps.wrapping_add(18);
    let err = format!(in rt.alloc(); "exit 2 {status}\nexit 1 0\ndone {steps}\n")?;
    check_done(rt, dies, &guest, RUN, &[low, high], err.as_str())
}

#[test]
fn a_parent_is_told_how_its_child_ended(rt: HostRuntime) -> Result<(), Fail> {
    for row in ROWS {
        check_end(&rt, row)?;
    }
    Ok(())
}

#[test]
fn an_orphan_has_the_parent_0(rt: HostRuntime) -> Result<(), Fail> {
    // The child exits with 16 times its parent while that lives, more its parent after that.
    let guest = [
        START,
        FORK,
        "beq x10, x0, child\n",
        YIELD,
        "addi x10, x0, 7\n",
        END,
        "child: addi x17, x0, 5\necall\n",
        "addi x18, x10, 0\n",
        YIELD,
        "addi x17, x0, 5\necall\n",
        "slli x18, x18, 4\nadd x10, x10, x18\n",
        END,
    ];
    check_done(&rt, "", &guest, RUN, b"", "exit 1 7\nexit 2 16\ndone 20\n")
}

#[test]
fn a_parent_may_be_killed(rt: HostRuntime) -> Result<(), Fail> {
    // The child lives, and has the parent 0; or it has ended before.
    let lives = [
        START,
        FORK,
        "beq x10, x0, child\nebreak\n",
        "child: addi x17, x0, 5\necall\n",
        END,
    ];
    check_done(
        &rt,
        "it lives",
        &lives,
        RUN,
        b"",
        "exit 1 265\nexit 2 0\ndone 9\n",
    )?;
    let ended = [
        START,
        FORK,
        "beq x10, x0, end\n",
        YIELD,
        "ebreak\n",
        "end:\n",
        EXIT,
    ];
    check_done(
        &rt,
        "it has ended",
        &ended,
        RUN,
        b"",
        "exit 2 0\nexit 1 265\ndone 10\n",
    )
}
