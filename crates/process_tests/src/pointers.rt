// What a child has of its parent's memory: pointers are moved, integers are kept, and the copy is its own.
use crate::runs::{DATA, EXIT, FORK, RUN, START, WAIT, by_schedule, check_done, with_options};
use std::test::Fail;

// The eight bytes of the address 0x1010 of region 0 and of region 1.
const HERE: [u8; 8] = [0x10, 0x10, 0, 0, 1, 0, 0, 0];

const MOVED: [u8; 8] = [0x10, 0x10, 0x10, 0, 1, 0, 0, 0];

// A capability of the 16 bytes behind it, which are followed by 16 more.
const POINTER: &str = ".segment 0x1000 rw\n.cap buf, 16, 0, 0x3c\nbuf: .space 32\n";

// A list of three elements of 32 bytes, each a capability of the next one and a letter. The last has no next one.
const LIST: &str = "\
.segment 0x1000 rw\n\
.cap b, 32, 0, 0x3c\n\
.byte 120\n\
.align 16\n\
b: .cap c, 32, 0, 0x3c\n\
.byte 121\n\
.align 16\n\
c: .quad 0, 0\n\
.byte 122\n\
";

#[test]
fn a_child_walks_the_list_through_moved_pointers(rt: HostRuntime) -> Result<(), Fail> {
    let walk = "\
bne x10, x0, parent\n\
loop: cincoffsetimm c11, c8, 16\n\
addi x10, x0, 1\n\
addi x12, x0, 1\n\
addi x17, x0, 8\n\
ecall\n\
clc c8, 0(c8)\n\
cgettag x6, c8\n\
bne x6, x0, loop\n\
cjal c0, end\n\
parent:\n\
";
    let guest = [START, DATA, FORK, walk, WAIT, "end:\n", EXIT, LIST];
    let err = "exit 2 0\nexit 1 0\ndone 40\n";
    check_done(&rt, "", &guest, RUN, b"xyz", err)
}

#[test]
fn the_low_bytes_of_a_pointer_tell_its_region(rt: HostRuntime) -> Result<(), Fail> {
    let show = "\
addi x9, x10, 0\n\
ld x6, 0(c8)\n\
sd x6, 32(c8)\n\
cincoffsetimm c11, c8, 32\n\
addi x10, x0, 1\n\
addi x12, x0, 8\n\
addi x17, x0, 8\n\
ecall\n\
beq x9, x0, end\n\
";
    let guest = [START, DATA, FORK, show, WAIT, "end:\n", EXIT, POINTER];
    let err = "exit 2 0\nexit 1 0\ndone 31\n";
    let mut both = Vec::new(rt.alloc());
    both.extend_from_slice(&HERE)?;
    both.extend_from_slice(&MOVED)?;
    check_done(&rt, "", &guest, RUN, &both, err)
}

// The first process ends before its child forks, so that the grandchild has the region in which the pointer was made.
#[test]
fn a_grandchild_may_come_back_to_the_first_region(rt: HostRuntime) -> Result<(), Fail> {
    let show = "\
bne x10, x0, end\n\
addi x10, x0, 1\n\
cmove c11, c8\n\
addi x12, x0, 8\n\
addi x17, x0, 8\n\
ecall\n\
end:\n\
";
    let guest = [
        START,
        DATA,
        FORK,
        "bne x10, x0, end\n",
        FORK,
        show,
        EXIT,
        POINTER,
    ];
    let err = "exit 1 0\nexit 2 0\nexit 3 0\ndone 24\n";
    for options in ["", " --slots 2 --regions 2 --frames 4"] {
        check_done(&rt, options, &guest, with_options(options), &HERE, err)?;
    }
    Ok(())
}

#[test]
fn an_integer_copy_of_an_address_is_not_moved(rt: HostRuntime) -> Result<(), Fail> {
    let show = "\
bne x10, x0, parent\n\
sd x6, 0(c8)\n\
cmove c11, c8\n\
addi x10, x0, 1\n\
addi x12, x0, 8\n\
addi x17, x0, 8\n\
ecall\n\
ld x7, 0(c6)\n\
parent:\n\
";
    let guest = [
        START,
        DATA,
        "cgetaddr x6, c8\n",
        FORK,
        show,
        WAIT,
        EXIT,
        ".segment 0x1000 rw\n.quad 0\n",
    ];
    let err = "exit 2 257\nexit 1 0\ndone 20\n";
    check_done(
        &rt,
        "",
        &guest,
        RUN,
        b"\x00\x10\x00\x00\x01\x00\x00\x00",
        err,
    )
}

// Three granules of a page: a capability of that page, the same bits without the tag, and its address.
#[test]
fn a_capability_in_memory_is_moved_by_its_tag_alone(rt: HostRuntime) -> Result<(), Fail> {
    let show = "\
bne x10, x0, parent\n\
cincoffsetimm c11, c8, 16\n\
addi x10, x0, 1\n\
addi x12, x0, 48\n\
addi x17, x0, 8\n\
ecall\n\
parent:\n\
";
    let guest = [
        START,
        DATA,
        "ccleartag c7, c8\ncsc c8, 16(c8)\ncsc c7, 32(c8)\ncgetaddr x6, c8\nsd x6, 48(c8)\n",
        FORK,
        show,
        WAIT,
        EXIT,
        ".segment 0x1000 rw\n.space 64\n",
    ];
    let mut out = Vec::new(rt.alloc());
    // The bounds of the whole region have 16 times the region's number in the second byte of the upper half.
    out.extend_from_slice(b"\x00\x10\x10\x00\x01\x00\x00\x00\x00\x50\x00\x04\x00\x00\x3c\x00")?;
    out.extend_from_slice(b"\x00\x10\x00\x00\x01\x00\x00\x00\x00\x40\x00\x04\x00\x00\x3c\x00")?;
    out.extend_from_slice(b"\x00\x10\x00\x00\x01\x00\x00\x00\x00\x00\x00\x00\x00\x00\x00\x00")?;
    // The parent makes 16 steps, and the child 11.
    let err = "exit 2 0\nexit 1 0\ndone 27\n";
    check_done(&rt, "", &guest, RUN, &out, err)
}

// The child puts another instruction in the place of one that both come to, and the parent's page may be written too.
#[test]
fn a_child_changes_its_own_code_alone(rt: HostRuntime) -> Result<(), Fail> {
    let changes = "\
addi x9, x10, 0\n\
bne x10, x0, letter\n\
lw x7, other(c2)\n\
sw x7, letter(c2)\n\
letter: addi x6, x0, 112\n\
sb x6, place(c2)\n\
addi x10, x0, 1\n\
cincoffsetimm c11, c2, place\n\
addi x12, x0, 1\n\
addi x17, x0, 8\n\
ecall\n\
beq x9, x0, end\n\
";
    let guest = [
        ".segment 0 rwx\n.entry start\nstart:\n",
        FORK,
        changes,
        WAIT,
        "end:\n",
        EXIT,
        "other: addi x6, x0, 99\nplace: .byte 0\n",
    ];
    // The parent makes 17 steps and one more where it has to wait, and the child 15.
    let err = "exit 2 0\nexit 1 0\ndone 33\n";
    check_done(&rt, "the parent first", &guest, RUN, b"pc", err)?;
    let err = "exit 2 0\nexit 1 0\ndone 32\n";
    let given = by_schedule("2\n1000\n");
    check_done(&rt, "the child first", &guest, given, b"cp", err)
}
