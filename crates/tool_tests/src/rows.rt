// A word of each row of the table of instructions, and words that have none.
use crate::calls::{assembled, check, with_words};
use std::test::Fail;

// The words by the formats of the RISC-V unprivileged ISA, each with its place and its statement.
const LISTING: &str = "\
00000: 01f100b3 add x1, x2, x31\n\
00004: 41f100b3 sub x1, x2, x31\n\
00008: 01f110b3 sll x1, x2, x31\n\
0000c: 01f120b3 slt x1, x2, x31\n\
00010: 01f130b3 sltu x1, x2, x31\n\
00014: 01f140b3 xor x1, x2, x31\n\
00018: 01f150b3 srl x1, x2, x31\n\
0001c: 41f150b3 sra x1, x2, x31\n\
00020: 01f160b3 or x1, x2, x31\n\
00024: 01f170b3 and x1, x2, x31\n\
00028: 03f100b3 mul x1, x2, x31\n\
0002c: 03f110b3 mulh x1, x2, x31\n\
00030: 03f120b3 mulhsu x1, x2, x31\n\
00034: 03f130b3 mulhu x1, x2, x31\n\
00038: 03f140b3 div x1, x2, x31\n\
0003c: 03f150b3 divu x1, x2, x31\n\
00040: 03f160b3 rem x1, x2, x31\n\
00044: 03f170b3 remu x1, x2, x31\n\
00048: 01f100bb addw x1, x2, x31\n\
0004c: 41f100bb subw x1, x2, x31\n\
00050: 01f110bb sllw x1, x2, x31\n\
00054: 01f150bb srlw x1, x2, x31\n\
00058: 41f150bb sraw x1, x2, x31\n\
0005c: 03f100bb mulw x1, x2, x31\n\
00060: 03f140bb divw x1, x2, x31\n\
00064: 03f150bb divuw x1, x2, x31\n\
00068: 03f160bb remw x1, x2, x31\n\
0006c: 03f170bb remuw x1, x2, x31\n\
00070: 104f01db csetbounds c3, c30, x4\n\
00074: 124f01db csetboundsexact c3, c30, x4\n\
00078: 1a4f01db candperm c3, c30, x4\n\
0007c: 204f01db csetaddr c3, c30, x4\n\
00080: 224f01db cincoffset c3, c30, x4\n\
00084: 284f01db csub x3, c30, c4\n\
00088: 404f01db ctestsubset x3, c30, c4\n\
0008c: 424f01db cseqx x3, c30, c4\n\
00090: 80030293 addi x5, x6, -2048\n\
00094: 7ff32293 slti x5, x6, 2047\n\
00098: fff33293 sltiu x5, x6, -1\n\
0009c: 00034293 xori x5, x6, 0\n\
000a0: 0ff36293 ori x5, x6, 255\n\
000a4: f0037293 andi x5, x6, -256\n\
000a8: 03f41393 slli x7, x8, 63\n\
000ac: 02045393 srli x7, x8, 32\n\
000b0: 43f45393 srai x7, x8, 63\n\
000b4: ff95049b addiw x9, x10, -7\n\
000b8: 01f5149b slliw x9, x10, 31\n\
000bc: 0015549b srliw x9, x10, 1\n\
000c0: 41f5549b sraiw x9, x10, 31\n\
000c4: 800615db cincoffsetimm c11, c12, -2048\n\
000c8: fff625db csetboundsimm c11, c12, 4095\n\
000cc: ff870683 lb x13, -8(c14)\n\
000d0: ff871683 lh x13, -8(c14)\n\
000d4: ff872683 lw x13, -8(c14)\n\
000d8: ff873683 ld x13, -8(c14)\n\
000dc: ff874683 lbu x13, -8(c14)\n\
000e0: ff875683 lhu x13, -8(c14)\n\
000e4: ff876683 lwu x13, -8(c14)\n\
000e8: 7f07268f clc c13, 2032(c14)\n\
000ec: fd078fa3 sb x16, -33(c15)\n\
000f0: fd079fa3 sh x16, -33(c15)\n\
000f4: fd07afa3 sw x16, -33(c15)\n\
000f8: fd07bfa3 sd x16, -33(c15)\n\
000fc: fd07cfa3 csc c16, -33(c15)\n\
00100: 81288063 beq x17, x18, -4096\n\
00104: 7f289fe3 bne x17, x18, 4094\n\
00108: 0128c163 blt x17, x18, 2\n\
0010c: ff28dfe3 bge x17, x18, -2\n\
00110: 0128e0e3 bltu x17, x18, 2048\n\
00114: 0128f063 bgeu x17, x18, 0\n\
00118: fffff9b7 lui x19, 1048575\n\
0011c: 00001a17 auipcc c20, 1\n\
00120: fe0b0adb cgetperm x21, c22\n\
00124: fe2b0adb cgetbase x21, c22\n\
00128: fe3b0adb cgetlen x21, c22\n\
0012c: fe4b0adb cgettag x21, c22\n\
00130: fe5b0adb cgetsealed x21, c22\n\
00134: fe6b0adb cgetoffset x21, c22\n\
00138: fe8b0adb crrl x21, x22\n\
0013c: fe9b0adb cram x21, x22\n\
00140: feab0adb cmove c21, c22\n\
00144: febb0adb ccleartag c21, c22\n\
00148: fefb0adb cgetaddr x21, c22\n\
0014c: ff1b0adb csealentry c21, c22\n\
00150: 80000bef cjal c23, -1048576\n\
00154: 7ffff06f cjal c0, 1048574\n\
00158: ffdc8c67 cjalr c24, c25, -3\n\
0015c: 00000073 ecall\n\
00160: 00100073 ebreak\n\
00164: 0ff0000f fence\n\
00168: 00000000 .word 0x00000000\n\
0016c: ffffffff .word 0xffffffff\n\
00170: 00000f0f .word 0x00000f0f\n\
00174: 0ff0008f .word 0x0ff0008f\n\
00178: 0205149b .word 0x0205149b\n\
";

// Where the statement begins in a line.
const STATEMENT: usize = 16;

#[test]
fn each_row_is_listed_and_assembled_again(rt: HostRuntime) -> Result<(), Fail> {
    let mut source = Vec::new(rt.alloc());
    source.extend_from_slice(b".segment 0 rx\n.entry start\nstart:\n")?;
    for line in LISTING.lines() {
        source.extend_from_slice(line.as_bytes().get(STATEMENT..).unwrap_or(b"no statement"))?;
        source.push(b'\n')?;
    }
    let file = assembled(&rt, &source)?;
    check(
        &rt,
        &file,
        with_words("disasm f"),
        (0, LISTING.as_bytes(), b""),
    )
}
