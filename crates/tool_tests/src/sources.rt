// Sources that are assembled, and those that are refused.
use crate::calls::{Given, assembled, check, with_words};
use std::process::Abort;
use std::test::Fail;

/// The source of the page that writes `hi` and a line end and exits with 0.
pub const HI: &[u8] =
    b".segment 0 rx\n.entry start\nstart:\naddi x10, x0, 1\ncincoffsetimm c11, c2, msg\naddi x12, x0, 3\naddi x17, x0, 8\necall\naddi x10, x0, 0\naddi x17, x0, 1\necall\nmsg: .ascii \"hi\\n\"\n";

// That page.
const PAGE: [u8; 35] = [
    0x13, 0x05, 0x10, 0x00, 0xdb, 0x15, 0x01, 0x02, 0x13, 0x06, 0x30, 0x00, 0x93, 0x08, 0x80, 0x00,
    0x73, 0x00, 0x00, 0x00, 0x13, 0x05, 0x00, 0x00, 0x93, 0x08, 0x10, 0x00, 0x73, 0x00, 0x00, 0x00,
    b'h', b'i', b'\n',
];

// The file header and the program header of its image.
const HEADERS: [u8; 120] = [
    0x7f, 0x45, 0x4c, 0x46, 2, 1, 1, 0, 0, 0, 0, 0, 0, 0, 0, 0, // identification
    3, 0, 243, 0, 1, 0, 0, 0, 0, 0, 0, 0, 0, 0, 0, 0, // type, machine, version, entry
    64, 0, 0, 0, 0, 0, 0, 0, 0, 0, 0, 0, 0, 0, 0, 0, // phoff, shoff
    0, 0, 0, 0, 64, 0, 56, 0, 1, 0, 0, 0, 0, 0, 0, 0, // flags, ehsize, phentsize, phnum
    1, 0, 0, 0, 5, 0, 0, 0, 0, 16, 0, 0, 0, 0, 0, 0, // type, flags, offset
    0, 0, 0, 0, 0, 0, 0, 0, 0, 0, 0, 0, 0, 0, 0, 0, // vaddr, paddr
    35, 0, 0, 0, 0, 0, 0, 0, 35, 0, 0, 0, 0, 0, 0, 0, // filesz, memsz
    0, 16, 0, 0, 0, 0, 0, 0, // align
];

#[test]
fn a_source_becomes_an_image(rt: HostRuntime) -> Result<(), Fail> {
    let mut want = Vec::new(rt.alloc());
    want.extend_from_slice(&HEADERS)?;
    want.resize(4096, 0)?;
    want.extend_from_slice(&PAGE)?;
    assert_eq!(rt; want.len(), 4131);
    check(&rt, HI, with_words("asm f"), (0, &want, b""))
}

#[test]
fn the_first_fault_of_a_source_is_told(rt: HostRuntime) -> Result<(), Fail> {
    for (source, line) in [
        (b"addi x1, x0, 1\n".as_slice(), "1: NoSegment"),
        (
            b".segment 0 rx\nstart: addi x1, x0, 2048\n.entry start\n",
            "2: OutOfRange",
        ),
        (b"", "0: NoEntry"),
        (b"addi x1, x0\n;\n", "1: BadStatement"),
        (b";\naddi x1, x0\n", "1: BadText"),
        (b".segment 1 rx\n", "1: BadSegment"),
        (b".segment 0 rx\n.segment 0x1000 r\n", "1: Empty"),
        (b".segment 0 rx\n.align 3\necall\n", "2: BadAlign"),
        (b".segment 0 rx\n.bss 1\necall\n", "3: AfterBss"),
        (b".segment 0 rx\n.byte 0\necall\n", "3: Misplaced"),
        (b".segment 0 rx\n.space 1048577\n", "2: TooLarge"),
        (b".segment 0 rx\na: ecall\na: ecall\n", "3: Twice"),
        (b".segment 0 rx\ncjal c0, there\n", "2: UnknownLabel"),
        (b".segment 0 rx\na: .cap a, 16, 17, 0x3c\n", "2: BadCap"),
        (b".segment 0 rx\na: ecall\n", "0: NoEntry"),
    ] {
        let line = format!(in rt.alloc(); "ufork: source refused: line {line}\n")?;
        check(&rt, source, with_words("asm f"), (13, b"", line.as_bytes()))?;
    }
    Ok(())
}

#[test]
fn sixteen_segments_are_too_many(rt: HostRuntime) -> Result<(), Fail> {
    let mut source = Vec::new(rt.alloc());
    for at in 0_u32..16 {
        let place = at.saturating_mul(4096);
        let line = format!(in rt.alloc(); ".segment {place} rx\necall\n")?;
        source.extend_from_slice(line.as_bytes())?;
    }
    let want = b"ufork: source refused: line 31: TooMany\n";
    check(&rt, &source, with_words("asm f"), (13, b"", want))
}

#[test]
fn a_long_source_is_refused(rt: HostRuntime) -> Result<(), Fail> {
    let mut source = Vec::new(rt.alloc());
    source.extend_from_slice(HI)?;
    source.resize(1_048_576, b' ')?;
    let file = assembled(&rt, &source)?;
    assert_eq!(rt; file.len(), 4131);
    source.push(b' ')?;
    let want = b"ufork: source refused: line 0: TooLong\n";
    check(&rt, &source, with_words("asm f"), (13, b"", want))
}

// The words are refused at this place.
fn check_place(rt: &(impl Abort + AllocGlobal), words: &str, place: u64) -> Result<(), Fail> {
    let line = format!(in rt.alloc(); "ufork: usage: word {place}\n")?;
    check(rt, HI, with_words(words), (2, b"", line.as_bytes()))
}

#[test]
fn tools_take_one_file_and_no_options(rt: HostRuntime) -> Result<(), Fail> {
    for (words, place) in [
        ("asm", 2),
        ("asm f f", 3),
        ("disasm", 2),
        ("disasm -f", 2),
        ("check --frames 1 f", 2),
        ("check f --frames", 3),
        ("asm  f", 2),
        ("assemble f", 1),
    ] {
        check_place(&rt, words, place)?;
    }
    Ok(())
}

#[test]
fn a_file_that_fails_is_named(rt: HostRuntime) -> Result<(), Fail> {
    for words in ["asm f", "disasm f", "check f"] {
        let broken = Given {
            file_fails: Some(0),
            ..with_words(words)
        };
        check(&rt, HI, broken, (3, b"", b"ufork: cannot read f\n"))?;
        let cut = Given {
            err_fails: Some(1),
            ..broken
        };
        check(&rt, HI, cut, (7, b"", b"ufork: cannot read "))?;
    }
    for words in ["asm there", "disasm there", "check there"] {
        check(
            &rt,
            HI,
            with_words(words),
            (3, b"", b"ufork: cannot read there\n"),
        )?;
    }
    Ok(())
}

#[test]
fn an_output_that_fails_ends_with_7(rt: HostRuntime) -> Result<(), Fail> {
    let cut = Given {
        out_fails: Some(0),
        ..with_words("asm f")
    };
    check(&rt, HI, cut, (7, b"", b""))?;
    let line_cut = Given {
        err_fails: Some(0),
        ..with_words("asm f")
    };
    check(&rt, b"", line_cut, (7, b"", b""))
}
