// What a call leaves in the registers: all but the answer's stay, with their capability halves and their tags.
use crate::guests::guest;
use crate::runs::check_done;
use std::alloc::Global;
use std::process::Abort;
use std::test::Fail;

// The address where the region begins, and the other half of the capability to all of it, with the permissions for data.
const REGION: u64 = 0x1_0000_0000;

const ROOT: u64 = 0x003c_0000_0400_4000;

// Where the bytes of a transfer lie in the room.
const BYTES: u64 = 2032;

// A call: its number, what is in x10, the answer, and what it prints.
type Row = (u64, u64, i64, &'static [u8]);

// c10 and c17 are capabilities to the region at first, whose addresses are then the numbers. c11 points to 3 bytes.
const PREPARES: &str = "
    ld x10, 16(c8)
    csetaddr c10, c2, x10
    ld x17, 8(c8)
    csetaddr c17, c2, x17
    addi x12, x0, 3
    cincoffsetimm c11, c9, 2032
    ecall
";

// Stores behind the registers a byte for the tag of each, and prints all.
const PRINTS: &str = "
    cmove c20, c9
    cincoffsetimm c21, c9, 512
    addi x22, x0, 32
each:
    clc c7, 0(c20)
    cgettag x6, c7
    sb x6, 0(c21)
    cincoffsetimm c20, c20, 16
    cincoffsetimm c21, c21, 1
    addi x22, x22, -1
    bne x22, x0, each
    addi x10, x0, 1
    cmove c11, c9
    addi x12, x0, 544
    addi x17, x0, 8
    ecall
";

// A guest that gives each other register its number, makes a call, and prints all registers as they are then. It makes 302 steps: 4 at first,
// 24 for the numbers, 7, 32 for the stores, 3 and 32 times 7 for the tags, 5, and 3 at last.
fn code(alloc: Global) -> Result<String, Fail> {
    let mut code = String::new(alloc);
    for register in 1..32_u8 {
        if !matches!(register, 2 | 8..=12 | 17) {
            let line = format!(in alloc; "    addi x{register}, x0, {register}\n")?;
            code.push_str(&line)?;
        }
    }
    code.push_str(PREPARES)?;
    for register in 0..32_u16 {
        let place = register * 16;
        let line = format!(in alloc; "    csc c{register}, {place}(c9)\n")?;
        code.push_str(&line)?;
    }
    code.push_str(PRINTS)?;
    Ok(code)
}

// What a register is after the call: its address, its other half and its tag.
fn after(register: u8, row: &Row) -> (u64, u64, u8) {
    let (number, _, answer, _) = *row;
    match register {
        2 => (REGION, ROOT, 1),
        8 => (REGION + 0x1000, ROOT, 1),
        9 => (REGION + 0x2000, ROOT, 1),
        10 => (u64::from_le_bytes(answer.to_le_bytes()), 0, 0),
        11 => (REGION + 0x2000 + BYTES, ROOT, 1),
        12 => (3, 0, 0),
        // A small number is too far out of the bounds for a tag.
        17 => (number, ROOT, u8::from(number >= REGION)),
        _ => (u64::from(register), 0, 0),
    }
}

fn check_kept(rt: &(impl Abort + AllocGlobal), code: &str, row: Row) -> Result<(), Fail> {
    let (number, first, _, printed) = row;
    let room = b"    .segment 0x2000 rw\n    .space 2032\n    .ascii \"xyz\"\n";
    let guest = guest(rt.alloc(), code, &[number, first], room)?;
    let mut out = Vec::new(rt.alloc());
    let mut tags = Vec::new(rt.alloc());
    out.extend_from_slice(printed)?;
    for register in 0..32_u8 {
        let (address, half, tag) = after(register, &row);
        out.extend_from_slice(&address.to_le_bytes())?;
        out.extend_from_slice(&half.to_le_bytes())?;
        tags.push(tag)?;
    }
    out.extend_from_slice(&tags)?;
    let case = format!(in rt.alloc(); "call {number} with {first}")?;
    check_done(rt, &case, &guest, b"abcde", (&out, 302))
}

#[test]
fn a_call_changes_the_register_of_its_answer_alone(rt: HostRuntime) -> Result<(), Fail> {
    // c10 is without a tag where it is a small number, and else a tagged capability to the room.
    let room = REGION + 0x2000;
    let rows: [Row; 13] = [
        (3, room, -10, b""),
        (4, room, 1, b""),
        (5, room, 0, b""),
        (12, room, 0, b""),
        (0, room, -38, b""),
        (99, room, -38, b""),
        (0x1_0000_0001, room, -38, b""),
        (7, 0, 3, b""),
        (7, 1, -9, b""),
        (7, room, -9, b""),
        (8, 1, 3, b"xyz"),
        (8, 0, -9, b""),
        (8, room, -9, b""),
    ];
    let code = code(rt.alloc())?;
    for row in rows {
        check_kept(&rt, &code, row)?;
    }
    Ok(())
}
