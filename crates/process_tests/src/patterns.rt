// A fork with a pattern of its own in each register: tagged and untagged ones, sealed entries, numbers, wide and narrow bounds.
use crate::runs::{EXIT, FORK, RUN, START, WAIT, check_done};
use std::alloc::{AllocError, Global};
use std::process::Abort;
use std::test::Fail;

// Fills the registers, from place 4 of the region to place 256, in 63 steps. Registers 18 to 31 have bounds of 118 to 131 bytes, every
// second one as a sealed entry.
const FILL: &str = "\
lui x5, 1\n\
cincoffset c2, c2, x5\n\
auipcc c1, 0\n\
csealentry c1, c1\n\
auipcc c3, 0\n\
csetboundsimm c4, c2, 16\n\
lui x5, 256\n\
lui x7, 1\n\
sub x5, x5, x7\n\
cincoffset c5, c2, x5\n\
csetboundsimm c5, c5, 0\n\
cincoffsetimm c6, c2, 1\n\
csetbounds c6, c6, x7\n\
ccleartag c7, c4\n\
cgetaddr x8, c2\n\
addi x9, x0, 4\n\
candperm c9, c2, x9\n\
addi x10, x0, 33\n\
lui x11, 2048\n\
cincoffset c11, c4, x11\n\
cincoffsetimm c12, c4, 32\n\
csetboundsimm c13, c3, 8\n\
csealentry c13, c13\n\
ccleartag c13, c13\n\
candperm c14, c2, x0\n\
addi x15, x0, -1\n\
lui x16, 3\n\
csetbounds c16, c2, x16\n\
cincoffsetimm c18, c2, 144\n\
csetboundsimm c18, c18, 118\n\
cincoffsetimm c19, c3, 152\n\
csetboundsimm c19, c19, 119\n\
csealentry c19, c19\n\
cincoffsetimm c20, c2, 160\n\
csetboundsimm c20, c20, 120\n\
cincoffsetimm c21, c3, 168\n\
csetboundsimm c21, c21, 121\n\
csealentry c21, c21\n\
cincoffsetimm c22, c2, 176\n\
csetboundsimm c22, c22, 122\n\
cincoffsetimm c23, c3, 184\n\
csetboundsimm c23, c23, 123\n\
csealentry c23, c23\n\
cincoffsetimm c24, c2, 192\n\
csetboundsimm c24, c24, 124\n\
cincoffsetimm c25, c3, 200\n\
csetboundsimm c25, c25, 125\n\
csealentry c25, c25\n\
cincoffsetimm c26, c2, 208\n\
csetboundsimm c26, c26, 126\n\
cincoffsetimm c27, c3, 216\n\
csetboundsimm c27, c27, 127\n\
csealentry c27, c27\n\
cincoffsetimm c28, c2, 224\n\
csetboundsimm c28, c28, 128\n\
cincoffsetimm c29, c3, 232\n\
csetboundsimm c29, c29, 129\n\
csealentry c29, c29\n\
cincoffsetimm c30, c2, 240\n\
csetboundsimm c30, c30, 130\n\
cincoffsetimm c31, c3, 248\n\
csetboundsimm c31, c31, 131\n\
csealentry c31, c31\n\
";

// Stores each register in its granule of page 1, from place 264 on, and then PCC in the granule of register 0, in 33 steps.
const SAVE: &str = "\
csc c1, 16(c2)\n\
csc c2, 32(c2)\n\
csc c3, 48(c2)\n\
csc c4, 64(c2)\n\
csc c5, 80(c2)\n\
csc c6, 96(c2)\n\
csc c7, 112(c2)\n\
csc c8, 128(c2)\n\
csc c9, 144(c2)\n\
csc c10, 160(c2)\n\
csc c11, 176(c2)\n\
csc c12, 192(c2)\n\
csc c13, 208(c2)\n\
csc c14, 224(c2)\n\
csc c15, 240(c2)\n\
csc c16, 256(c2)\n\
csc c17, 272(c2)\n\
csc c18, 288(c2)\n\
csc c19, 304(c2)\n\
csc c20, 320(c2)\n\
csc c21, 336(c2)\n\
csc c22, 352(c2)\n\
csc c23, 368(c2)\n\
csc c24, 384(c2)\n\
csc c25, 400(c2)\n\
csc c26, 416(c2)\n\
csc c27, 432(c2)\n\
csc c28, 448(c2)\n\
csc c29, 464(c2)\n\
csc c30, 480(c2)\n\
csc c31, 496(c2)\n\
auipcc c1, 0\n\
csc c1, 0(c2)\n\
";

// Lists which of the 32 granules have tags, and writes them and this list, in 232 steps.
const SHOW: &str = "\
cmove c9, c2\n\
cincoffsetimm c8, c2, 512\n\
addi x7, x0, 32\n\
each: clc c5, 0(c9)\n\
cgettag x6, c5\n\
sb x6, 0(c8)\n\
cincoffsetimm c9, c9, 16\n\
cincoffsetimm c8, c8, 1\n\
addi x7, x7, -1\n\
bne x7, x0, each\n\
addi x10, x0, 1\n\
cmove c11, c2\n\
addi x12, x0, 544\n\
addi x17, x0, 8\n\
ecall\n\
";

// The child ends, and the parent waits for it: register 10 was stored as its fork's answer.
const PART: &str = "ld x6, 160(c2)\nbeq x6, x0, end\n";

const ROOM: &str = ".segment 0x1000 rw\n.space 544\n";

// What a fork makes of a pattern.
#[derive(Clone, Copy)]
enum Kind {
    // A number stays.
    Number,
    // A capability without a tag stays where it was made.
    Untagged,
    // A tagged one is moved.
    Tagged,
    // A tagged one of the whole region is moved, and so are the bits of its bounds.
    Whole,
}

use Kind::{Number, Tagged, Untagged, Whole};

// A register: its address less the region's start, where it has to do with a region, and its upper half in region 0.
type Register = (Kind, u64, u64);

// PCC and registers 1 to 17. Bounds below 4096 bytes have in bits 13 to 0 of the upper half the base modulo 2^14, and in bits 25 to 14
// the top modulo 2^12; permissions stand from bit 48 on, and a sealed entry has bit 27. Those of the whole region have the exponent 8.
const REGISTERS: [Register; 18] = [
    (Whole, 388, 0x0016_0000_0400_4000),
    (Whole, 12, 0x0016_0000_0c00_4000),
    (Whole, 0x1000, 0x003c_0000_0400_4000),
    (Whole, 20, 0x0016_0000_0400_4000),
    (Tagged, 0x1000, 0x003c_0000_0004_1000),
    // No bytes, at the region's end.
    (Tagged, 0x10_0000, 0x003c_0000_0000_0000),
    // 4096 bytes from an odd place on, which are rounded to 4104.
    (Tagged, 0x1001, 0x003c_0000_0402_1000),
    (Untagged, 0x1000, 0x003c_0000_0004_1000),
    (Untagged, 0x1000, 0),
    // To load numbers alone.
    (Whole, 0x1000, 0x0004_0000_0400_4000),
    (Number, 0, 0),
    // Too far out of the bounds to keep the tag.
    (Untagged, 0x80_1000, 0x003c_0000_0004_1000),
    // Past the top of the 16 bytes.
    (Tagged, 0x1020, 0x003c_0000_0004_1000),
    // A sealed entry without its tag.
    (Untagged, 20, 0x0016_0000_0807_0014),
    // Without permissions.
    (Whole, 0x1000, 0x0000_0000_0400_4000),
    (Number, 0xffff_ffff_ffff_ffff, 0),
    // 12288 bytes, with the exponent 1.
    (Tagged, 0x1000, 0x003c_0000_0400_0801),
    (Number, 2, 0),
];

// Registers 18 to 31.
fn narrow(number: u64) -> Register {
    let past = number.wrapping_mul(8);
    let size = number.wrapping_add(100);
    let (place, upper) = if number % 2 == 0 {
        (past.wrapping_add(0x1000), 0x003c_0000_0000_0000)
    } else {
        (past.wrapping_add(20), 0x0016_0000_0800_0000)
    };
    let top = place.wrapping_add(size) % 4096;
    let bounds = top.wrapping_mul(0x4000).wrapping_add(place);
    (Tagged, place, bounds.wrapping_add(upper))
}

fn start_of(region: u64) -> u64 {
    region.wrapping_mul(0x10_0000).wrapping_add(0x1_0000_0000)
}

// The 16 bytes of a register that was made in one region, in a process of another.
fn put(register: Register, regions: (u64, u64), out: &mut Vec<u8>) -> Result<(), AllocError> {
    let (kind, place, upper) = register;
    let (from, to) = regions;
    let address = match kind {
        Number => place,
        Untagged => place.wrapping_add(start_of(from)),
        Tagged | Whole => place.wrapping_add(start_of(to)),
    };
    let moved = match kind {
        Whole => upper.wrapping_add(to.wrapping_mul(0x1000)),
        Number | Untagged | Tagged => upper,
    };
    out.extend_from_slice(&address.to_le_bytes())?;
    out.extend_from_slice(&moved.to_le_bytes())
}

// All that a process writes: registers that were made in one region, in a process of another, after a fork with this answer.
fn put_all(answer: u64, regions: (u64, u64), out: &mut Vec<u8>) -> Result<(), AllocError> {
    let mut tags = [1; 32];
    for (number, tag) in tags.iter_mut().enumerate() {
        let number = number as u64;
        let register = if number == 10 {
            (Number, answer, 0)
        } else if number < 18 {
            REGISTERS[number as usize]
        } else {
            narrow(number)
        };
        put(register, regions, out)?;
        if matches!(register.0, Number | Untagged) {
            *tag = 0;
        }
    }
    out.extend_from_slice(&tags)
}

// A process of one region fills its registers and forks a child in another. The parent comes first, since there is no schedule.
fn check_fork(
    rt: &(impl Abort + AllocGlobal),
    prelude: &[&str; 2],
    child: u64,
    regions: (u64, u64),
    err: &str,
) -> Result<(), Fail> {
    let [forks, parts] = *prelude;
    let guest = [
        START,
        "cjal c0, prelude\nset:\n",
        FILL,
        FORK,
        SAVE,
        SHOW,
        PART,
        "wait:\n",
        WAIT,
        "end:\n",
        EXIT,
        "prelude:\n",
        forks,
        parts,
        "cjal c0, set\n",
        ROOM,
    ];
    let (from, to) = regions;
    let mut out = Vec::new(rt.alloc());
    put_all(child, (from, from), &mut out)?;
    put_all(0, (from, to), &mut out)?;
    check_done(rt, err, &guest, RUN, &out, err)
}

// The process that forks makes 338 steps after its prelude, and its child 270.
#[test]
fn each_register_is_moved_from_region_0(rt: HostRuntime) -> Result<(), Fail> {
    let err = "exit 2 0\nexit 1 0\ndone 610\n";
    check_fork(&rt, &["", ""], 2, (0, 1), err)
}

// The first process forks and waits.
#[test]
fn each_register_is_moved_from_region_1(rt: HostRuntime) -> Result<(), Fail> {
    let err = "exit 3 0\nexit 2 0\nexit 1 0\ndone 620\n";
    check_fork(&rt, &[FORK, "bne x10, x0, wait\n"], 3, (1, 2), err)
}

// The first process forks and ends, so that its region and its slot are free.
#[test]
fn each_register_is_moved_to_the_first_region(rt: HostRuntime) -> Result<(), Fail> {
    let err = "exit 1 0\nexit 3 0\nexit 2 0\ndone 617\n";
    check_fork(&rt, &[FORK, "bne x10, x0, end\n"], 3, (1, 0), err)
}
