// Whole sources, with the files and the faults that were worked out by hand from the language.
use crate::assemble;
use asm_text::SourceReason::{
    AfterBss, BadAlign, BadCap, BadSegment, BadStatement, BadText, Empty, Misplaced, NoEntry,
    NoSegment, OutOfRange, TooLarge, TooMany, Twice, UnknownLabel,
};
use asm_text::{SourceReason, SourceRefusal, read_source};
use std::alloc::{AllocError, Global};
use std::process::Abort;
use std::test::Fail;

// What is wanted of a source: the length of its file, or the line and the reason of its fault.
#[derive(Clone, Copy, Debug, PartialEq, Eq)]
enum Want {
    Length(usize),
    Fault(u64, SourceReason),
}

use Want::{Fault, Length};

// The file of a source.
fn file_of(alloc: Global, text: &str) -> Result<Vec<u8>, SourceRefusal> {
    let source = read_source(alloc, text.as_bytes())?;
    assemble(alloc, text.as_bytes(), &source)
}

// A source comes to what is wanted.
fn check(rt: &(impl Abort + AllocGlobal), text: &str, want: Want) -> Result<(), Fail> {
    let found = match file_of(rt.alloc(), text) {
        Ok(file) => Length(file.len()),
        Err(SourceRefusal::Fault(fault)) => Fault(fault.line, fault.reason),
        Err(SourceRefusal::NoMemory) => return Err(Fail::from("no memory")),
    };
    assert_eq!(rt; found, want, "{text}");
    Ok(())
}

// Lines in a segment of code, whose first statement, on line 3, is the entry.
fn in_code(alloc: Global, lines: &str) -> Result<String, AllocError> {
    format!(in alloc; ".segment 0 rx\n.entry a\na: {lines}")
}

// Lines of code come to what is wanted.
fn check_code(rt: &(impl Abort + AllocGlobal), lines: &str, want: Want) -> Result<(), Fail> {
    check(rt, &in_code(rt.alloc(), lines)?, want)
}

// A source has this file.
fn check_file(rt: &(impl Abort + AllocGlobal), text: &str, want: &[u8]) -> Result<(), Fail> {
    let file = file_of(rt.alloc(), text)?;
    assert_eq!(rt; file.as_slice(), want, "{text}");
    Ok(())
}

// The bytes of a segment of code, which is the only one, are these.
fn check_bytes(rt: &(impl Abort + AllocGlobal), lines: &str, want: &[u8]) -> Result<(), Fail> {
    let file = file_of(rt.alloc(), &in_code(rt.alloc(), lines)?)?;
    assert!(rt; file.len() >= 4096, "{lines}");
    assert_eq!(rt; &file[4096..], want, "{lines}");
    Ok(())
}

// They are those of these words.
fn check_words(rt: &(impl Abort + AllocGlobal), lines: &str, words: &[u32]) -> Result<(), Fail> {
    let mut want = Vec::new(rt.alloc());
    for word in words {
        want.extend_from_slice(&word.to_le_bytes())?;
    }
    check_bytes(rt, lines, &want)
}

// Adds numbers of 8 bytes.
fn put_quads(quads: &[u64], out: &mut Vec<u8>) -> Result<(), AllocError> {
    for quad in quads {
        out.extend_from_slice(&quad.to_le_bytes())?;
    }
    Ok(())
}

// Adds a program header: type, flags, and then offset, vaddr, paddr, filesz, memsz and align.
fn put_header(kind: u32, flags: u32, rest: &[u64], out: &mut Vec<u8>) -> Result<(), AllocError> {
    out.extend_from_slice(&kind.to_le_bytes())?;
    out.extend_from_slice(&flags.to_le_bytes())?;
    put_quads(rest, out)
}

// A file header with this entry and so many program headers.
fn file_header(alloc: Global, entry: u8, count: u8) -> Result<Vec<u8>, AllocError> {
    let bytes = [
        0x7f, 0x45, 0x4c, 0x46, 2, 1, 1, 0, 0, 0, 0, 0, 0, 0, 0, 0, // identification
        3, 0, 243, 0, 1, 0, 0, 0, // type, machine, version
        entry, 0, 0, 0, 0, 0, 0, 0, // entry
        64, 0, 0, 0, 0, 0, 0, 0, // phoff
        0, 0, 0, 0, 0, 0, 0, 0, // shoff
        0, 0, 0, 0, 64, 0, 56, 0, // flags, ehsize, phentsize
        count, 0, 0, 0, 0, 0, 0, 0, // phnum, and three fields on sections
    ];
    bytes.to_vec(alloc)
}

#[test]
fn a_file_has_a_header_and_pages(rt: HostRuntime) -> Result<(), Fail> {
    let header = [
        1, 0, 0, 0, 5, 0, 0, 0, // type, flags
        0, 16, 0, 0, 0, 0, 0, 0, // offset
        0, 0, 0, 0, 0, 0, 0, 0, // vaddr
        0, 0, 0, 0, 0, 0, 0, 0, // paddr
        35, 0, 0, 0, 0, 0, 0, 0, // filesz
        35, 0, 0, 0, 0, 0, 0, 0, // memsz
        0, 16, 0, 0, 0, 0, 0, 0, // align
    ];
    let page = [
        0x13, 0x05, 0x10, 0x00, // addi x10, x0, 1
        0xdb, 0x15, 0x01, 0x02, // cincoffsetimm c11, c2, 32
        0x13, 0x06, 0x30, 0x00, // addi x12, x0, 3
        0x93, 0x08, 0x80, 0x00, // addi x17, x0, 8
        0x73, 0x00, 0x00, 0x00, // ecall
        0x13, 0x05, 0x00, 0x00, // addi x10, x0, 0
        0x93, 0x08, 0x10, 0x00, // addi x17, x0, 1
        0x73, 0x00, 0x00, 0x00, // ecall
        b'h', b'i', 10,
    ];
    let mut want = file_header(rt.alloc(), 0, 1)?;
    want.extend_from_slice(&header)?;
    assert_eq!(rt; want.len(), 120);
    want.resize(4096, 0)?;
    want.extend_from_slice(&page)?;
    assert_eq!(rt; want.len(), 4131);
    let text =
        "addi x10, x0, 1\ncincoffsetimm c11, c2, msg\naddi x12, x0, 3\naddi x17, x0, 8\necall\naddi x10, x0, 0\naddi x17, x0, 1\necall\nmsg: .ascii \"hi\\n\"\n";
    check_file(&rt, &in_code(rt.alloc(), text)?, &want)
}

#[test]
fn a_part_without_bytes_begins_at_a_page(rt: HostRuntime) -> Result<(), Fail> {
    let mut last = file_header(rt.alloc(), 0, 2)?;
    put_header(1, 5, &[4096, 0, 0, 1, 1, 4096], &mut last)?;
    put_header(1, 6, &[8192, 4096, 4096, 0, 3, 4096], &mut last)?;
    last.resize(4096, 0)?;
    last.push(9)?;
    last.resize(8192, 0)?;
    let text = ".segment 0 rx\n.entry a\na: .byte 9\n.segment 0x1000 rw\n.bss 3";
    check_file(&rt, text, &last)?;
    let mut first = file_header(rt.alloc(), 0, 2)?;
    put_header(1, 5, &[4096, 0, 0, 0, 4, 4096], &mut first)?;
    put_header(1, 6, &[4096, 4096, 4096, 1, 1, 4096], &mut first)?;
    first.resize(4096, 0)?;
    first.push(9)?;
    let text = ".segment 0 rx\n.entry a\na: .bss 4\n.segment 0x1000 rw\n.byte 9";
    check_file(&rt, text, &first)
}

#[test]
fn a_table_begins_at_a_multiple_of_8(rt: HostRuntime) -> Result<(), Fail> {
    let mut want = file_header(rt.alloc(), 4, 3)?;
    put_header(1, 5, &[4096, 0, 0, 8, 8, 4096], &mut want)?;
    put_header(1, 6, &[8192, 8192, 8192, 49, 149, 4096], &mut want)?;
    put_header(0x6b00_0001, 4, &[8248, 0, 0, 80, 0, 8], &mut want)?;
    want.resize(4096, 0)?;
    want.extend_from_slice(&[1, 0, 0, 0, 0x73, 0, 0, 0])?;
    want.resize(8192, 0)?;
    want.extend_from_slice(b"ab")?;
    want.resize(8240, 0)?;
    want.push(7)?;
    want.resize(8248, 0)?;
    put_quads(&[8208, 8208, 16, 8, 0x3c], &mut want)?;
    put_quads(&[8224, 4, 8, 0, 2], &mut want)?;
    let text =
        ".segment 0 rx\n.entry go\n.byte 1\n.align 4\ngo: ecall\n.segment 0x2000 rw\n.ascii \"ab\"\n.align 16\np: .cap p, 16, 8, 0x3c\n.cap go, 8, 0, 2\n.byte 7\n.bss 100";
    check_file(&rt, text, &want)
}

#[test]
fn statements_have_their_bytes(rt: HostRuntime) -> Result<(), Fail> {
    let rows: [(&'static str, &'static [u8]); 12] = [
        (".byte -128, 255, -1, 127", &[128, 255, 255, 127]),
        (".half -32768, 65535, 258", &[0, 128, 255, 255, 2, 1]),
        (
            ".word -2147483648, 4294967295",
            &[0, 0, 0, 128, 255, 255, 255, 255],
        ),
        (".quad -9223372036854775808", &[0, 0, 0, 0, 0, 0, 0, 128]),
        (
            ".quad 18446744073709551615",
            &[255, 255, 255, 255, 255, 255, 255, 255],
        ),
        (".ascii \"\\n\\t\\\\\\\"\\0a\\\\n\"", b"\n\t\\\"\0a\\n"),
        (".byte 1\n.space 2\n.byte 2", &[1, 0, 0, 2]),
        (".byte 1\n.align 4\n.byte 2", &[1, 0, 0, 0, 2]),
        // A label is its offset, behind strings, zeros and `.bss` too.
        (".byte b, b\n.ascii \"\\n\"\nb:", &[3, 3, b'\n']),
        (
            ".byte 1\n.align 8\nb: c: .byte b, c",
            &[1, 0, 0, 0, 0, 0, 0, 0, 8, 8],
        ),
        (".half b\n.bss 9\nb:", &[11, 0]),
        (".byte b\n.bss 254\nb:", &[255]),
    ];
    for (lines, want) in rows {
        check_bytes(&rt, lines, want)?;
    }
    Ok(())
}

#[test]
fn instructions_have_their_words(rt: HostRuntime) -> Result<(), Fail> {
    let rows: [(&'static str, &'static [u32]); 15] = [
        ("addi x1, x0, -2048", &[0x8000_0093]),
        ("addi x1, x0, 2047", &[0x7ff0_0093]),
        ("csetboundsimm c1, c2, 4095", &[0xfff1_20db]),
        (
            "srai x1, x2, 63\nsraiw x1, x2, 31",
            &[0x43f1_5093, 0x41f1_509b],
        ),
        (
            "lb x1, -2048(x2)\nclc c1, 2047(c2)",
            &[0x8001_0083, 0x7ff1_208f],
        ),
        (
            "sd x1, -2048(x2)\nsd x1, 2047(x2)",
            &[0x8011_3023, 0x7e11_3fa3],
        ),
        ("lui x1, 1048575\nauipcc c1, 0", &[0xffff_f0b7, 0x97]),
        ("cjalr c0, c1, -2048", &[0x8000_8067]),
        (
            "cjal c0, -1048576\ncjal c1, 1048574",
            &[0x8000_006f, 0x7fff_f0ef],
        ),
        (
            "beq x0, x0, -4096\nbeq x0, x0, 4094",
            &[0x8000_0063, 0x7e00_0fe3],
        ),
        // A label is a distance in branches and `cjal`, and else its offset.
        ("beq x0, x0, a\nbeq x0, x0, a", &[0x63, 0xfe00_0ee3]),
        (
            "ecall\ncjal c0, a\ncjal c0, b\nb:",
            &[0x73, 0xffdf_f06f, 0x0040_006f],
        ),
        ("ecall\naddi x1, x0, b\nb:", &[0x73, 0x0080_0093]),
        ("beq x0, x0, b\n.bss 4090\nb:", &[0x7e00_0fe3]),
        (
            "cmove c1, c2\nfence\nebreak",
            &[0xfea1_00db, 0x0ff0_000f, 0x0010_0073],
        ),
    ];
    for (lines, want) in rows {
        check_words(&rt, lines, want)?;
    }
    Ok(())
}

#[test]
fn a_label_of_a_later_segment_is_known(rt: HostRuntime) -> Result<(), Fail> {
    let mut want = file_header(rt.alloc(), 0, 2)?;
    put_header(1, 5, &[4096, 0, 0, 8, 8, 4096], &mut want)?;
    put_header(1, 4, &[8192, 8192, 8192, 4, 4, 4096], &mut want)?;
    want.resize(4096, 0)?;
    // `cjal` over 8194 bytes, and the offset 8194.
    want.extend_from_slice(&[0x6f, 0x20, 0x20, 0, 2, 32, 0, 0])?;
    want.resize(8192, 0)?;
    want.extend_from_slice(&[7, 0, 0, 0])?;
    let lines = "cjal c0, b\n.word b\n.segment 0x2000 r\n.half 7\nb: .half a";
    check_file(&rt, &in_code(rt.alloc(), lines)?, &want)
}

#[test]
fn places_keep_their_rules(rt: HostRuntime) -> Result<(), Fail> {
    let rows: [(&'static str, Want); 32] = [
        ("", Fault(0, NoEntry)),
        ("addi x1, x0, 1", Fault(1, NoSegment)),
        ("\na:", Fault(2, NoSegment)),
        (".align 1", Fault(1, NoSegment)),
        (".space 0", Fault(1, NoSegment)),
        (".bss 0", Fault(1, NoSegment)),
        (".ascii \"\"\n.segment 0 rx", Fault(1, NoSegment)),
        ("a: .segment 0 rx\n.entry a\n.byte 0", Fault(1, NoSegment)),
        (".entry a\n.segment 0 rx\na: .byte 0", Length(4097)),
        (".segment 1 rx\n.byte 0", Fault(1, BadSegment)),
        (".segment 4095 rx\n.byte 0", Fault(1, BadSegment)),
        (".segment 0x100000 rx\n.byte 0", Fault(1, BadSegment)),
        (
            ".segment 0xff000 rx\n.entry a\na: .space 4096",
            Length(8192),
        ),
        (
            ".segment 0xff000 rx\n.entry a\na: .space 4097",
            Fault(3, TooLarge),
        ),
        (".segment 0xff000 rx\n.entry a\na: .bss 4096", Length(4096)),
        (
            ".segment 0xff000 rx\n.entry a\na: .bss 4097",
            Fault(3, TooLarge),
        ),
        (
            ".segment 0xff000 rx\n.entry a\na: .space 4092\necall",
            Length(8192),
        ),
        (
            ".segment 0xff000 rx\n.space 4096\necall",
            Fault(3, TooLarge),
        ),
        (
            ".segment 0xff000 rx\n.space 4095\n.byte 0, 0",
            Fault(3, TooLarge),
        ),
        (
            ".segment 0xff000 rx\n.space 4095\n.ascii \"ab\"",
            Fault(3, TooLarge),
        ),
        (
            ".segment 0 rx\n.space 18446744073709551615",
            Fault(2, TooLarge),
        ),
        (".segment 0 rx\n.bss 4\na: .entry a", Length(4096)),
        (".segment 0 rx\n.entry a\na: .bss 1", Length(4096)),
        ("\n.segment 0 rx\n.entry a\na:", Fault(2, Empty)),
        (
            ".segment 0 rx\n.ascii \"\"\n.space 0\n.bss 0",
            Fault(1, Empty),
        ),
        (".segment 0 rx\n.align 4096", Fault(1, Empty)),
        (".segment 0 rx\n.align 3", Fault(1, Empty)),
        (".segment 0 rx\n.align 3\n.byte 0", Fault(2, BadAlign)),
        (".segment 0 rx\n.bss 0\n.byte 0", Fault(3, AfterBss)),
        (".segment 0 rx\n.bss 0\n.bss 1", Fault(3, AfterBss)),
        (".segment 0 rx\n.bss 1048577", Fault(2, TooLarge)),
        (".segment 0 rx\n.byte 0\n.segment 0x1000 r", Fault(3, Empty)),
    ];
    for (text, want) in rows {
        check(&rt, text, want)?;
    }
    Ok(())
}

#[test]
fn lines_of_code_keep_their_rules(rt: HostRuntime) -> Result<(), Fail> {
    let rows: [(&'static str, Want); 38] = [
        (".space 4096\n.segment 4096 r\n.byte 0", Length(8193)),
        (
            ".space 4097\n.segment 4096 r\n.byte 0",
            Fault(4, BadSegment),
        ),
        (".byte 0\n.bss 4095\n.segment 4096 r\n.byte 0", Length(8193)),
        (
            ".byte 0\n.bss 4096\n.segment 4096 r\n.byte 0",
            Fault(5, BadSegment),
        ),
        (".byte 0\n.segment 0 r\n.byte 0", Fault(4, BadSegment)),
        (".byte 0\n.align 1", Length(4097)),
        (".byte 0\n.align 4096", Length(8192)),
        (".byte 0\n.align 4097", Fault(4, BadAlign)),
        (".byte 0\n.align 8192", Fault(4, BadAlign)),
        (".byte 0\n.align 3", Fault(4, BadAlign)),
        (".byte 0\n.align 0", Fault(4, BadAlign)),
        (".byte 0\n.align -4", Fault(4, BadAlign)),
        (".bss 4\n.byte 0", Fault(4, AfterBss)),
        (".bss 4\n.bss 0", Fault(4, AfterBss)),
        (".bss 4\n.space 0", Fault(4, AfterBss)),
        (".bss 4\n.align 1", Fault(4, AfterBss)),
        (".bss 4\necall", Fault(4, AfterBss)),
        (".bss 4\nb:\n.byte 0", Fault(5, AfterBss)),
        (".bss 4\n.segment 0x1000 r\n.byte 0", Length(4097)),
        (".byte 0\necall", Fault(4, Misplaced)),
        (".half 0\necall", Fault(4, Misplaced)),
        (".ascii \"abc\"\necall", Fault(4, Misplaced)),
        (".word 0\necall", Length(4104)),
        (".quad 0\n.cap a, 0, 0, 0", Fault(4, Misplaced)),
        (".space 15\n.cap a, 0, 0, 0", Fault(4, Misplaced)),
        (".space 16\n.cap a, 0, 0, 0", Length(4168)),
        (".byte 0\na:", Fault(4, Twice)),
        ("b: b: .byte 0", Fault(3, Twice)),
        ("b: .byte 0\n.segment 0x1000 r\nb: .byte 0", Fault(5, Twice)),
        (".byte 0\n.entry a", Fault(4, Twice)),
        (".byte 0\n.entry z", Fault(4, Twice)),
        ("A: aa: a_: .byte 0", Length(4097)),
        (".byte z", Fault(3, UnknownLabel)),
        (".byte A", Fault(3, UnknownLabel)),
        (".byte aa", Fault(3, UnknownLabel)),
        ("addi x1, x0, z", Fault(3, UnknownLabel)),
        ("beq x0, x0, z", Fault(3, UnknownLabel)),
        (".cap z, 0, 0, 0", Fault(3, UnknownLabel)),
    ];
    for (lines, want) in rows {
        check_code(&rt, lines, want)?;
    }
    Ok(())
}

#[test]
fn values_have_ranges(rt: HostRuntime) -> Result<(), Fail> {
    let rows: [&'static str; 36] = [
        ".byte -129",
        ".byte 0, 256",
        ".half -32769",
        ".half 65536",
        ".word -2147483649",
        ".word 4294967296",
        "addi x1, x0, -2049",
        "addi x1, x0, 2048",
        "csetboundsimm c1, c2, -1",
        "csetboundsimm c1, c2, 4096",
        "slli x1, x2, -1",
        "srai x1, x2, 64",
        "sraiw x1, x2, 32",
        "lb x1, -2049(x2)",
        "clc c1, 2048(c2)",
        "sd x1, -2049(x2)",
        "csc c1, 2048(c2)",
        "cjalr c0, c1, -2049",
        "cjalr c0, c1, 2048",
        "lui x1, -1",
        "lui x1, 1048576",
        "auipcc c1, 1048576",
        "beq x0, x0, -4098",
        "beq x0, x0, 4095",
        "beq x0, x0, 4096",
        "beq x0, x0, -1",
        "cjal c0, -1048578",
        "cjal c0, 1048576",
        "cjal c0, 3",
        // The same of labels.
        ".byte b\n.bss 255\nb:",
        "addi x1, x0, b\n.bss 2044\nb:",
        "csetboundsimm c1, c2, b\n.bss 4092\nb:",
        "lui x1, b\n.bss 1048572\nb:",
        "beq x0, x0, b\n.byte 0\nb:",
        "beq x0, x0, b\n.bss 4092\nb:",
        "cjal c0, b\n.bss 1048572\nb:",
    ];
    for lines in rows {
        check_code(&rt, lines, Fault(3, OutOfRange))?;
    }
    let text = ".segment 0 rx\nstart: addi x1, x0, 2048\n.entry start";
    check(&rt, text, Fault(2, OutOfRange))
}

#[test]
fn capabilities_keep_their_rules(rt: HostRuntime) -> Result<(), Fail> {
    let rows: [(&'static str, Want); 21] = [
        (".cap a, 0, 0, 0", Length(4152)),
        (".cap a, -0, -0, -0", Length(4152)),
        (".cap a, -1, 0, 0", Fault(3, BadCap)),
        (".cap a, 0, -1, 0", Fault(3, BadCap)),
        (".cap a, 0, 0, -1", Fault(3, BadCap)),
        // Bounds are in the region.
        (".cap a, 1048576, 1048576, 0x3e", Length(4152)),
        (".cap a, 1048592, 0, 0", Fault(3, BadCap)),
        (".cap b, 0, 0, 0\n.bss 1048560\nb:", Length(4152)),
        (".cap b, 1, 0, 0\n.bss 1048560\nb:", Fault(3, BadCap)),
        // From 4096 bytes on they are exact only at some multiples.
        (".cap a, 4096, 0, 0", Length(4152)),
        (".cap a, 4097, 0, 0", Fault(3, BadCap)),
        (".cap a, 4104, 0, 0", Length(4152)),
        (".cap b, 4095, 0, 0\n.byte 0\nb:", Length(4160)),
        (".cap b, 4096, 0, 0\n.byte 0\nb:", Fault(3, BadCap)),
        // The address may lie at their end.
        (".cap a, 4, 4, 0", Length(4152)),
        (".cap a, 4, 5, 0", Fault(3, BadCap)),
        // There are five permissions.
        (".cap a, 0, 0, 0x3e", Length(4152)),
        (".cap a, 0, 0, 0x3f", Fault(3, BadCap)),
        (".cap a, 0, 0, 0x40", Fault(3, BadCap)),
        (".cap a, 0, 0, 1", Fault(3, BadCap)),
        (".cap a, 0, 0, 18446744073709551615", Fault(3, BadCap)),
    ];
    for (lines, want) in rows {
        check_code(&rt, lines, want)?;
    }
    Ok(())
}

#[test]
fn an_entry_is_a_place_of_code(rt: HostRuntime) -> Result<(), Fail> {
    let rows: [(&'static str, Want); 15] = [
        (".segment 0 rx\na: .byte 0", Fault(0, NoEntry)),
        (
            ".segment 0 rx\n.entry z\na: .byte 0",
            Fault(2, UnknownLabel),
        ),
        (".entry z", Fault(1, UnknownLabel)),
        (".segment 0 r\n.entry a\na: .byte 0", Fault(0, NoEntry)),
        (".segment 0 rw\n.entry a\na: .byte 0", Fault(0, NoEntry)),
        (".segment 0 rwx\n.entry a\na: .byte 0", Length(4097)),
        (".segment 0 rx\n.entry a\n.byte 0\na:", Fault(0, NoEntry)),
        (".segment 0 rx\n.entry a\n.half 0\na:", Fault(0, NoEntry)),
        (".segment 0 rx\n.entry a\n.word 0\na:", Length(4100)),
        // It may stand behind the segment's bytes, on its last page.
        (".segment 0 rx\n.entry a\n.bss 4092\na:", Length(4096)),
        (".segment 0 rx\n.entry a\n.bss 4096\na:", Fault(0, NoEntry)),
        (
            ".segment 0 rx\n.entry a\n.bss 4096\na: .segment 0x1000 rx\n.byte 0",
            Length(4097),
        ),
        (
            ".segment 0 rx\n.entry a\n.bss 4096\na: .segment 0x2000 rx\n.byte 0",
            Fault(0, NoEntry),
        ),
        (
            ".segment 0 rx\n.byte 0\n.segment 0x1000 rw\n.entry a\na: .byte 0",
            Fault(0, NoEntry),
        ),
        (
            ".segment 0 rw\n.byte 0\n.segment 0x1000 rx\n.entry a\na: .byte 0",
            Length(8193),
        ),
    ];
    for (text, want) in rows {
        check(&rt, text, want)?;
    }
    Ok(())
}

// So many segments of a byte on a page each, and then lines. They begin on lines 2, 4 and so on.
fn segments(alloc: Global, count: u16, lines: &str) -> Result<String, AllocError> {
    let mut text = format!(in alloc; ".entry a0\n")?;
    for page in 0..count {
        let start = 4096 * u64::from(page);
        let segment = format!(in alloc; ".segment {start} rx\na{page}: .byte 0\n")?;
        text.push_str(&segment)?;
    }
    text.push_str(lines)?;
    Ok(text)
}

#[test]
fn there_are_at_most_15_segments(rt: HostRuntime) -> Result<(), Fail> {
    let rows: [(&'static str, Want); 7] = [
        ("", Length(61441)),
        // With a table there are 16 program headers.
        (".align 16\n.cap a0, 1, 0, 4", Length(61512)),
        (".segment 0xf000 rx\n.byte 0", Fault(32, TooMany)),
        // The sixteenth has two faults.
        (".segment 0xe000 rx\n.byte 0", Fault(32, BadSegment)),
        (".segment 0xf000 rx", Fault(32, TooMany)),
        ("a0: .segment 0xf000 rx\n.byte 0", Fault(32, TooMany)),
        (".align 3\n.segment 0xf000 rx\n.byte 0", Fault(32, BadAlign)),
    ];
    for (lines, want) in rows {
        check(&rt, &segments(rt.alloc(), 15, lines)?, want)?;
    }
    Ok(())
}

#[test]
fn the_first_reason_on_a_line_counts(rt: HostRuntime) -> Result<(), Fail> {
    let rows: [(&'static str, Want); 27] = [
        ("add ;", Fault(1, BadText)),
        ("a: .segment 1 rx\n.byte 0", Fault(1, NoSegment)),
        ("a: .align 3", Fault(1, NoSegment)),
        ("a: .segment 0 rx", Fault(1, NoSegment)),
        ("a: a:", Fault(1, NoSegment)),
        (".entry a\n.byte 256, z", Fault(2, NoSegment)),
        (".segment 1 rx", Fault(1, BadSegment)),
        (
            ".segment 0 rx\na: .byte 0\na: .segment 1 r\n.byte 0",
            Fault(3, BadSegment),
        ),
        (".segment 0 rx\n.bss 1\n.align 3", Fault(3, BadAlign)),
        (".segment 0 rx\na: .byte 0\na: .align 3", Fault(3, BadAlign)),
        (".segment 0 rx\n.bss 1\necall", Fault(3, AfterBss)),
        (
            ".segment 0xff000 rx\n.bss 4096\n.byte 0",
            Fault(3, AfterBss),
        ),
        (".segment 0 rx\na: .bss 1\na: .byte 0", Fault(3, AfterBss)),
        (
            ".segment 0xff000 rx\n.space 4094\necall",
            Fault(3, Misplaced),
        ),
        (".segment 0 rx\na: .byte 0\na: ecall", Fault(3, Misplaced)),
        (
            ".segment 0 rx\na: .byte 0\nbeq x0, x0, z",
            Fault(3, Misplaced),
        ),
        (
            ".segment 0 rx\na: .byte 0\n.cap a, -1, 0, 0",
            Fault(3, Misplaced),
        ),
        (
            ".segment 0 rx\na: .byte 0\na: .bss 1048576",
            Fault(3, TooLarge),
        ),
        (
            ".segment 0 rx\na: .byte 0\na: .segment 0x1000 r",
            Fault(3, Empty),
        ),
        (".segment 0 rx\na: .byte 0\na: .byte 256", Fault(3, Twice)),
        (".segment 0 rx\na: .byte 0\na: .byte z", Fault(3, Twice)),
        (".segment 0 rx\na: a: .cap a, -1, 0, 0", Fault(2, Twice)),
        (".segment 0 rx\n.byte 256, z", Fault(2, UnknownLabel)),
        (".segment 0 rx\n.byte z, 256", Fault(2, UnknownLabel)),
        (".segment 0 rx\n.cap z, -1, 0, 0", Fault(2, UnknownLabel)),
        (".segment 0 rx\n.byte 256", Fault(2, OutOfRange)),
        (".segment 0 rx\na: .cap a, -1, 0, 0", Fault(2, BadCap)),
    ];
    for (text, want) in rows {
        check(&rt, text, want)?;
    }
    Ok(())
}

// Of two lines, behind three of code, that which counts has this fault.
fn check_lines(
    rt: &(impl Abort + AllocGlobal),
    first: &str,
    second: &str,
    want: Want,
) -> Result<(), Fail> {
    let lines = format!(in rt.alloc(); ".space 16\n{first}\n{second}")?;
    check_code(rt, &lines, want)
}

#[test]
fn the_first_pass_and_then_the_first_line_counts(rt: HostRuntime) -> Result<(), Fail> {
    let rows: [(u8, &'static str, SourceReason); 9] = [
        (1, ";", BadText),
        (1, "add", BadStatement),
        (2, ".segment 1 r", BadSegment),
        (2, ".align 3", BadAlign),
        (2, ".space 1048576", TooLarge),
        (2, "a:", Twice),
        (3, ".word 0, 0, 0, z", UnknownLabel),
        (3, ".word 0, 0, 0, 4294967296", OutOfRange),
        (3, ".cap a, -1, 0, 0", BadCap),
    ];
    for (pass, first, reason) in rows {
        for (other_pass, second, other) in rows {
            let want = if other_pass < pass {
                Fault(5, other)
            } else {
                Fault(4, reason)
            };
            check_lines(&rt, first, second, want)?;
        }
    }
    Ok(())
}

#[test]
fn an_empty_segment_counts_at_its_line(rt: HostRuntime) -> Result<(), Fail> {
    let rows: [(&'static str, Want); 10] = [
        (".segment 0x1000 r\n.segment 0x2000 r", Fault(4, Empty)),
        (".segment 0x1000 r\n.segment 1 r\n.byte 0", Fault(4, Empty)),
        (".segment 0x1000 r\n.align 3", Fault(4, Empty)),
        (".segment 0x1000 r\na:", Fault(4, Empty)),
        (".segment 0x1000 r\n.align 3\n.byte 0", Fault(5, BadAlign)),
        (".align 3\n.segment 0x1000 r", Fault(4, BadAlign)),
        ("ecall\n.segment 0x1000 r", Fault(4, Misplaced)),
        ("a:\n.segment 0x1000 r", Fault(4, Twice)),
        (".bss 1\n.byte 0\n.segment 0x1000 r", Fault(5, AfterBss)),
        (".byte 256, z\n.segment 0x1000 r", Fault(5, Empty)),
    ];
    for (lines, want) in rows {
        let lines = format!(in rt.alloc(); ".byte 0\n{lines}")?;
        check_code(&rt, &lines, want)?;
    }
    Ok(())
}
