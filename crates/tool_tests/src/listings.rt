// Listings of images.
use crate::calls::{Given, assembled, check, with_words};
use crate::sources::HI;
use std::test::Fail;

// The instructions of the page that writes `hi`.
const HI_LINES: [&str; 8] = [
    "00000: 00100513 addi x10, x0, 1\n",
    "00004: 020115db cincoffsetimm c11, c2, 32\n",
    "00008: 00300613 addi x12, x0, 3\n",
    "0000c: 00800893 addi x17, x0, 8\n",
    "00010: 00000073 ecall\n",
    "00014: 00000513 addi x10, x0, 0\n",
    "00018: 00100893 addi x17, x0, 1\n",
    "0001c: 00000073 ecall\n",
];

#[test]
fn a_page_is_listed_and_may_be_cut_at_each_line(rt: HostRuntime) -> Result<(), Fail> {
    let hi = assembled(&rt, HI)?;
    let mut lines = Vec::new(rt.alloc());
    for (at, line) in HI_LINES.iter().enumerate() {
        let cut = Given {
            out_fails: Some(at as u64),
            ..with_words("disasm f")
        };
        check(&rt, &hi, cut, (7, &lines, b""))?;
        lines.extend_from_slice(line.as_bytes())?;
    }
    let after = Given {
        out_fails: Some(8),
        ..with_words("disasm f")
    };
    check(&rt, &hi, after, (0, &lines, b""))
}

#[test]
fn whole_words_of_segments_that_may_be_executed_are_listed(rt: HostRuntime) -> Result<(), Fail> {
    let source =
        b".segment 0x1000 rx\nstart: fence\n.entry start\n.byte 1, 2, 3\n.segment 0x2000 rw\n.word 0x73\n.segment 0xff000 rwx\ncsc c1, -16(c2)\n.word 0xffffffff\n.bss 4088\n";
    let file = assembled(&rt, source)?;
    let want =
        b"01000: 0ff0000f fence\nff000: fe114823 csc c1, -16(c2)\nff004: ffffffff .word 0xffffffff\n";
    check(&rt, &file, with_words("disasm f"), (0, want, b""))
}

#[test]
fn a_distance_is_a_number(rt: HostRuntime) -> Result<(), Fail> {
    let source =
        b".segment 0 rx\nstart: cjal c1, end\nbne x1, x2, start\nend: beq x0, x0, end\ncjal c0, start\n.entry start\n";
    let file = assembled(&rt, source)?;
    let want =
        b"00000: 008000ef cjal c1, 8\n00004: fe209ee3 bne x1, x2, -4\n00008: 00000063 beq x0, x0, 0\n0000c: ff5ff06f cjal c0, -12\n";
    check(&rt, &file, with_words("disasm f"), (0, want, b""))
}
