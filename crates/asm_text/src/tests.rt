// Sources with the listings and the faults that were worked out by hand from the language.
use crate::{Item, SourceFault, SourceReason, SourceRefusal, Span, Value, What, read_source};
use riscv_decode::{BranchOp, ImmOp, Instr, LoadOp, OneOp, RegOp, StoreOp, UpperOp};
use std::alloc::Global;
use std::process::Abort;
use std::test::Fail;

// A source says just this.
fn check_items(
    rt: &(impl Abort + AllocGlobal),
    text: &str,
    items: &[(u64, What)],
) -> Result<(), Fail> {
    let listing = read_source(rt.alloc(), text.as_bytes())?;
    assert_eq!(rt; listing.count(), items.len(), "{text}");
    for (at, (line, what)) in items.iter().enumerate() {
        let item = Item {
            line: *line,
            what: *what,
        };
        assert_eq!(rt; listing.item(at), item, "{text}");
    }
    Ok(())
}

// A line says this alone.
fn check_line(rt: &(impl Abort + AllocGlobal), text: &str, what: What) -> Result<(), Fail> {
    check_items(rt, text, &[(1, what)])
}

// A line is an instruction, with a number for its value.
fn check_instr(
    rt: &(impl Abort + AllocGlobal),
    text: &str,
    instr: Instr,
    value: i128,
) -> Result<(), Fail> {
    let value = Value::Number(value);
    check_line(rt, text, What::Instr { instr, value })
}

// A line is a byte of this value.
fn check_number(rt: &(impl Abort + AllocGlobal), digits: &str, n: i128) -> Result<(), Fail> {
    let text = format!(in rt.alloc(); ".byte {digits}")?;
    let value = Value::Number(n);
    check_line(rt, &text, What::Bytes { size: 1, value })
}

// The refusal of a source, where it is refused.
fn refusal_of(alloc: Global, text: &[u8]) -> Option<SourceRefusal> {
    read_source(alloc, text).err()
}

// A source has this fault.
fn check_fault(
    rt: &(impl Abort + AllocGlobal),
    text: &[u8],
    line: u64,
    reason: SourceReason,
) -> Result<(), Fail> {
    let fault = SourceRefusal::Fault(SourceFault { line, reason });
    assert_eq!(rt; refusal_of(rt.alloc(), text), Some(fault), "{text:?}");
    Ok(())
}

fn span(first: u32, past: u32) -> Span {
    Span { first, past }
}

#[test]
fn reg_rows_have_their_operands(rt: HostRuntime) -> Result<(), Fail> {
    let rows: [(&'static str, RegOp); 36] = [
        ("add x1, x2, x3", RegOp::Add),
        ("sub x1, x2, x3", RegOp::Sub),
        ("sll x1, x2, x3", RegOp::Sll),
        ("slt x1, x2, x3", RegOp::Slt),
        ("sltu x1, x2, x3", RegOp::Sltu),
        ("xor x1, x2, x3", RegOp::Xor),
        ("srl x1, x2, x3", RegOp::Srl),
        ("sra x1, x2, x3", RegOp::Sra),
        ("or x1, x2, x3", RegOp::Or),
        ("and x1, x2, x3", RegOp::And),
        ("mul x1, x2, x3", RegOp::Mul),
        ("mulh x1, x2, x3", RegOp::Mulh),
        ("mulhsu x1, x2, x3", RegOp::Mulhsu),
        ("mulhu x1, x2, x3", RegOp::Mulhu),
        ("div x1, x2, x3", RegOp::Div),
        ("divu x1, x2, x3", RegOp::Divu),
        ("rem x1, x2, x3", RegOp::Rem),
        ("remu x1, x2, x3", RegOp::Remu),
        ("addw x1, x2, x3", RegOp::Addw),
        ("subw x1, x2, x3", RegOp::Subw),
        ("sllw x1, x2, x3", RegOp::Sllw),
        ("srlw x1, x2, x3", RegOp::Srlw),
        ("sraw x1, x2, x3", RegOp::Sraw),
        ("mulw x1, x2, x3", RegOp::Mulw),
        ("divw x1, x2, x3", RegOp::Divw),
        ("divuw x1, x2, x3", RegOp::Divuw),
        ("remw x1, x2, x3", RegOp::Remw),
        ("remuw x1, x2, x3", RegOp::Remuw),
        ("csetbounds x1, x2, x3", RegOp::CSetBounds),
        ("csetboundsexact x1, x2, x3", RegOp::CSetBoundsExact),
        ("candperm x1, x2, x3", RegOp::CAndPerm),
        ("csetaddr x1, x2, x3", RegOp::CSetAddr),
        ("cincoffset x1, x2, x3", RegOp::CIncOffset),
        ("csub x1, x2, x3", RegOp::CSub),
        ("ctestsubset x1, x2, x3", RegOp::CTestSubset),
        ("cseqx x1, x2, x3", RegOp::CSeqx),
    ];
    for (text, op) in rows {
        check_instr(
            &rt,
            text,
            Instr::Reg {
                op,
                rd: 1,
                rs1: 2,
                rs2: 3,
            },
            0,
        )?;
    }
    Ok(())
}

#[test]
fn imm_rows_have_their_operands(rt: HostRuntime) -> Result<(), Fail> {
    let rows: [(&'static str, ImmOp); 15] = [
        ("addi x1, x2, 5", ImmOp::Addi),
        ("slti x1, x2, 5", ImmOp::Slti),
        ("sltiu x1, x2, 5", ImmOp::Sltiu),
        ("xori x1, x2, 5", ImmOp::Xori),
        ("ori x1, x2, 5", ImmOp::Ori),
        ("andi x1, x2, 5", ImmOp::Andi),
        ("slli x1, x2, 5", ImmOp::Slli),
        ("srli x1, x2, 5", ImmOp::Srli),
        ("srai x1, x2, 5", ImmOp::Srai),
        ("addiw x1, x2, 5", ImmOp::Addiw),
        ("slliw x1, x2, 5", ImmOp::Slliw),
        ("srliw x1, x2, 5", ImmOp::Srliw),
        ("sraiw x1, x2, 5", ImmOp::Sraiw),
        ("cincoffsetimm x1, x2, 5", ImmOp::CIncOffsetImm),
        ("csetboundsimm x1, x2, 5", ImmOp::CSetBoundsImm),
    ];
    for (text, op) in rows {
        check_instr(
            &rt,
            text,
            Instr::Imm {
                op,
                rd: 1,
                rs1: 2,
                imm: 0,
            },
            5,
        )?;
    }
    Ok(())
}

#[test]
fn load_rows_have_their_operands(rt: HostRuntime) -> Result<(), Fail> {
    let rows: [(&'static str, LoadOp); 8] = [
        ("lb x1, 5(c2)", LoadOp::Lb),
        ("lh x1, 5(c2)", LoadOp::Lh),
        ("lw x1, 5(c2)", LoadOp::Lw),
        ("ld x1, 5(c2)", LoadOp::Ld),
        ("lbu x1, 5(c2)", LoadOp::Lbu),
        ("lhu x1, 5(c2)", LoadOp::Lhu),
        ("lwu x1, 5(c2)", LoadOp::Lwu),
        ("clc x1, 5(c2)", LoadOp::Clc),
    ];
    for (text, op) in rows {
        check_instr(
            &rt,
            text,
            Instr::Load {
                op,
                rd: 1,
                rs1: 2,
                imm: 0,
            },
            5,
        )?;
    }
    Ok(())
}

#[test]
fn store_rows_have_their_operands(rt: HostRuntime) -> Result<(), Fail> {
    let rows: [(&'static str, StoreOp); 5] = [
        ("sb x3, 5(c2)", StoreOp::Sb),
        ("sh x3, 5(c2)", StoreOp::Sh),
        ("sw x3, 5(c2)", StoreOp::Sw),
        ("sd x3, 5(c2)", StoreOp::Sd),
        ("csc x3, 5(c2)", StoreOp::Csc),
    ];
    for (text, op) in rows {
        check_instr(
            &rt,
            text,
            Instr::Store {
                op,
                rs1: 2,
                rs2: 3,
                imm: 0,
            },
            5,
        )?;
    }
    Ok(())
}

#[test]
fn branch_rows_have_their_operands(rt: HostRuntime) -> Result<(), Fail> {
    let rows: [(&'static str, BranchOp); 6] = [
        ("beq x2, x3, 5", BranchOp::Beq),
        ("bne x2, x3, 5", BranchOp::Bne),
        ("blt x2, x3, 5", BranchOp::Blt),
        ("bge x2, x3, 5", BranchOp::Bge),
        ("bltu x2, x3, 5", BranchOp::Bltu),
        ("bgeu x2, x3, 5", BranchOp::Bgeu),
    ];
    for (text, op) in rows {
        check_instr(
            &rt,
            text,
            Instr::Branch {
                op,
                rs1: 2,
                rs2: 3,
                imm: 0,
            },
            5,
        )?;
    }
    Ok(())
}

#[test]
fn upper_rows_have_their_operands(rt: HostRuntime) -> Result<(), Fail> {
    let rows: [(&'static str, UpperOp); 2] = [
        ("lui x1, 5", UpperOp::Lui),
        ("auipcc x1, 5", UpperOp::Auipcc),
    ];
    for (text, op) in rows {
        check_instr(&rt, text, Instr::Upper { op, rd: 1, imm: 0 }, 5)?;
    }
    Ok(())
}

#[test]
fn one_rows_have_their_operands(rt: HostRuntime) -> Result<(), Fail> {
    let rows: [(&'static str, OneOp); 12] = [
        ("cgetperm x1, x2", OneOp::CGetPerm),
        ("cgetbase x1, x2", OneOp::CGetBase),
        ("cgetlen x1, x2", OneOp::CGetLen),
        ("cgettag x1, x2", OneOp::CGetTag),
        ("cgetsealed x1, x2", OneOp::CGetSealed),
        ("cgetoffset x1, x2", OneOp::CGetOffset),
        ("crrl x1, x2", OneOp::Crrl),
        ("cram x1, x2", OneOp::Cram),
        ("cmove x1, x2", OneOp::CMove),
        ("ccleartag x1, x2", OneOp::CClearTag),
        ("cgetaddr x1, x2", OneOp::CGetAddr),
        ("csealentry x1, x2", OneOp::CSealEntry),
    ];
    for (text, op) in rows {
        check_instr(&rt, text, Instr::One { op, rd: 1, rs1: 2 }, 0)?;
    }
    Ok(())
}

#[test]
fn jumps_and_whole_words_have_their_operands(rt: HostRuntime) -> Result<(), Fail> {
    check_instr(&rt, "cjal x1, 5", Instr::Jal { rd: 1, imm: 0 }, 5)?;
    let cjalr = Instr::Jalr {
        rd: 1,
        rs1: 2,
        imm: 0,
    };
    check_instr(&rt, "cjalr c1, c2, 5", cjalr, 5)?;
    check_instr(&rt, "ecall", Instr::Ecall, 0)?;
    check_instr(&rt, "ebreak", Instr::Ebreak, 0)?;
    check_instr(&rt, "fence", Instr::Fence, 0)
}

#[test]
fn directives_have_their_operands(rt: HostRuntime) -> Result<(), Fail> {
    let rows: [(&'static str, What); 18] = [
        (
            ".segment 0x1000 r",
            What::Segment {
                at: 4096,
                rights: 4,
            },
        ),
        (".segment 0 rw", What::Segment { at: 0, rights: 6 }),
        (".segment 1 rx", What::Segment { at: 1, rights: 5 }),
        (".segment -0 rwx", What::Segment { at: 0, rights: 7 }),
        (".entry start", What::Entry { name: span(7, 12) }),
        (
            ".byte 1",
            What::Bytes {
                size: 1,
                value: Value::Number(1),
            },
        ),
        (
            ".half -2",
            What::Bytes {
                size: 2,
                value: Value::Number(-2),
            },
        ),
        (
            ".word a",
            What::Bytes {
                size: 4,
                value: Value::Name(span(6, 7)),
            },
        ),
        (
            ".quad 0xF",
            What::Bytes {
                size: 8,
                value: Value::Number(15),
            },
        ),
        (".ascii \"hi\"", What::Ascii { text: span(7, 11) }),
        (".ascii \"\"", What::Ascii { text: span(7, 9) }),
        (".space 0", What::Space { count: 0 }),
        (".space 100", What::Space { count: 100 }),
        (".align 16", What::Align { to: 16 }),
        (".align -16", What::Align { to: -16 }),
        (".bss 512", What::Bss { count: 512 }),
        (
            ".cap b, 32, 0, 0x3c",
            What::Cap {
                base: span(5, 6),
                length: 32,
                offset: 0,
                perms: 60,
            },
        ),
        (
            ".cap b,-1,-2,-3",
            What::Cap {
                base: span(5, 6),
                length: -1,
                offset: -2,
                perms: -3,
            },
        ),
    ];
    for (text, what) in rows {
        check_line(&rt, text, what)?;
    }
    Ok(())
}

#[test]
fn data_has_an_item_for_each_value(rt: HostRuntime) -> Result<(), Fail> {
    let bytes = |value| What::Bytes { size: 2, value };
    check_items(
        &rt,
        ".half 1, a , -1",
        &[
            (1, bytes(Value::Number(1))),
            (1, bytes(Value::Name(span(9, 10)))),
            (1, bytes(Value::Number(-1))),
        ],
    )
}

#[test]
fn numbers_have_64_bits(rt: HostRuntime) -> Result<(), Fail> {
    for (digits, n) in [
        ("0", 0),
        ("-0", 0),
        ("007", 7),
        ("0000000000000000000000000000000000000000255", 255),
        ("-9223372036854775808", -9_223_372_036_854_775_808),
        ("18446744073709551615", 18_446_744_073_709_551_615),
        ("0x0", 0),
        ("0xaB09", 0xab09),
        ("-0x8000000000000000", -9_223_372_036_854_775_808),
        ("0x00000000000000000000000000000000000000000f", 15),
        ("0xffffffffffffffff", 18_446_744_073_709_551_615),
    ] {
        check_number(&rt, digits, n)?;
    }
    for digits in [
        "-9223372036854775809",
        "18446744073709551616",
        "99999999999999999999999999999999999999999999",
        "0x10000000000000000",
        "-0x8000000000000001",
        "-",
        "--1",
        "1-",
    ] {
        let text = format!(in rt.alloc(); ".byte {digits}")?;
        check_fault(&rt, text.as_bytes(), 1, SourceReason::BadText)?;
    }
    // A number ends where its digits do, and another token follows.
    for digits in ["0x", "0xg", "5x", "1-1", "1 1", "0X1", "1_0"] {
        let text = format!(in rt.alloc(); ".byte {digits}")?;
        check_fault(&rt, text.as_bytes(), 1, SourceReason::BadStatement)?;
    }
    Ok(())
}

#[test]
fn registers_are_0_to_31(rt: HostRuntime) -> Result<(), Fail> {
    let add = |rd, rs1, rs2| Instr::Reg {
        op: RegOp::Add,
        rd,
        rs1,
        rs2,
    };
    check_instr(&rt, "add x0, c31, x10", add(0, 31, 10), 0)?;
    check_instr(&rt, "add c9,x19,c29", add(9, 19, 29), 0)?;
    for name in ["x32", "x01", "x00", "x", "c100", "r1", "X1", "1", "x1a"] {
        let text = format!(in rt.alloc(); "add {name}, x1, x1")?;
        check_fault(&rt, text.as_bytes(), 1, SourceReason::BadStatement)?;
    }
    Ok(())
}

#[test]
fn strings_have_escapes(rt: HostRuntime) -> Result<(), Fail> {
    for (text, past) in [
        (".ascii \"\\n\\t\\\\\\\"\\0\"", 19),
        (".ascii \"# no comment\"", 21),
        (".ascii \"a\tb\"", 12),
        (".ascii \"a\rb\"", 12),
        (".ascii \"a\" # \"", 10),
    ] {
        let text_is = What::Ascii {
            text: span(7, past),
        };
        check_line(&rt, text, text_is)?;
    }
    for text in [
        ".ascii \"a",
        ".ascii \"a\\",
        ".ascii \"a\\x\"",
        ".ascii \"a\nb\"",
        ".ascii \"\\\"",
        ".ascii \"é\"",
    ] {
        check_fault(&rt, text.as_bytes(), 1, SourceReason::BadText)?;
    }
    Ok(())
}

#[test]
fn bytes_out_of_the_language_are_bad_text(rt: HostRuntime) -> Result<(), Fail> {
    for text in [
        b"\x00".as_slice(),
        b"\x7f",
        b"\x0b",
        b"# \x00",
        b"# \x7f",
        b"# \x80",
        b"ecall # \xff",
        b";",
        b"'a'",
        b"add x1 ! x2",
    ] {
        check_fault(&rt, text, 1, SourceReason::BadText)?;
    }
    check_items(&rt, "\t \r# ~!\t;", &[])
}

#[test]
fn labels_stand_before_a_statement(rt: HostRuntime) -> Result<(), Fail> {
    let label = |first, past| What::Label {
        name: span(first, past),
    };
    let ecall = What::Instr {
        instr: Instr::Ecall,
        value: Value::Number(0),
    };
    check_items(
        &rt,
        "a: b :c1:ecall",
        &[
            (1, label(0, 1)),
            (1, label(3, 4)),
            (1, label(6, 8)),
            (1, ecall),
        ],
    )?;
    check_items(
        &rt,
        "addi: x5:\n_: # ecall",
        &[(1, label(0, 4)), (1, label(6, 8)), (2, label(10, 11))],
    )?;
    let x5 = What::Bytes {
        size: 1,
        value: Value::Name(span(6, 8)),
    };
    check_line(&rt, ".byte x5", x5)?;
    for text in [
        "a.b:",
        ".entry a.b",
        "a",
        "a:: ecall",
        ": ecall",
        "1: ecall",
        "ecall ecall",
        "ecall a:",
    ] {
        check_fault(&rt, text.as_bytes(), 1, SourceReason::BadStatement)?;
    }
    Ok(())
}

#[test]
fn statements_that_are_none_are_refused(rt: HostRuntime) -> Result<(), Fail> {
    for text in [
        "add x1, x2",
        "add x1, x2, x3,",
        "add x1 x2 x3",
        "add x1, x2, 3",
        "addi x1, x2, x3, 4",
        "lb x1, (c2)",
        "lb x1, 0(c2",
        "lb x1, 0, c2",
        "sb 0(c2), x1",
        "ecall 0",
        "Add x1, x2, x3",
        "c.add x1, x2",
        ".segment -1 r",
        ".segment 0 w",
        ".segment 0 wr",
        ".segment 0",
        ".segment a r",
        ".space -1",
        ".space a",
        ".bss -1",
        ".align",
        ".align a",
        ".byte",
        ".byte ,",
        ".byte 1,",
        ".byte 1 2",
        ".byte \"a\"",
        ".ascii a",
        ".ascii",
        ".entry 1",
        ".cap b, 1, 2",
        ".cap 1, 1, 2, 3",
        ".cap b, a, 2, 3",
        ".text",
    ] {
        check_fault(&rt, text.as_bytes(), 1, SourceReason::BadStatement)?;
    }
    Ok(())
}

#[test]
fn the_first_line_with_a_fault_is_told(rt: HostRuntime) -> Result<(), Fail> {
    check_fault(&rt, b"ecall\n\nadd\n;", 3, SourceReason::BadStatement)?;
    check_fault(&rt, b"ecall\n;\nadd", 2, SourceReason::BadText)?;
    // On a line bad text comes first.
    check_fault(&rt, b"add ;", 1, SourceReason::BadText)?;
    check_fault(&rt, b"; add\nadd", 1, SourceReason::BadText)?;
    check_fault(&rt, b"add # \x80", 1, SourceReason::BadText)
}

#[test]
fn lines_end_at_line_feeds(rt: HostRuntime) -> Result<(), Fail> {
    let at = |first, past| What::Label {
        name: span(first, past),
    };
    check_items(&rt, "", &[])?;
    check_items(&rt, "\n\n", &[])?;
    check_items(&rt, "a:\n\nb:\r\n", &[(1, at(0, 1)), (3, at(4, 5))])?;
    check_items(&rt, "a:\nb:", &[(1, at(0, 1)), (2, at(3, 4))])?;
    check_items(&rt, "#c\na:", &[(2, at(3, 4))])
}

#[test]
fn a_span_has_those_bytes_that_the_text_has(rt: HostRuntime) -> Result<(), Fail> {
    let rows: [(Span, &'static [u8]); 8] = [
        (span(0, 3), b"add"),
        (span(4, 6), b"x1"),
        (span(4, 4), b""),
        (span(4, 7), b"x1"),
        (span(6, 4_294_967_295), b""),
        (span(7, 9), b""),
        (span(4, 3), b""),
        (span(9, 2), b""),
    ];
    for (place, bytes) in rows {
        assert_eq!(rt; place.slice(b"add x1"), bytes, "{place:?}");
    }
    Ok(())
}

// Blanks, so many, and then a statement.
fn blanks(alloc: Global, count: usize, line: &[u8]) -> Result<Vec<u8>, Fail> {
    let mut text = vec![in alloc; b' '; count]?;
    text.extend_from_slice(line)?;
    Ok(text)
}

#[test]
fn a_source_has_at_most_1048576_bytes(rt: HostRuntime) -> Result<(), Fail> {
    let most = blanks(rt.alloc(), 1_048_576 - 5, b"ecall")?;
    assert_eq!(rt; read_source(rt.alloc(), &most)?.count(), 1);
    let more = blanks(rt.alloc(), 1_048_577 - 5, b"ecall")?;
    check_fault(&rt, &more, 0, SourceReason::TooLong)?;
    let wrong = blanks(rt.alloc(), 1_048_577 - 1, b";")?;
    check_fault(&rt, &wrong, 0, SourceReason::TooLong)
}
