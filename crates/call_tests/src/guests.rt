// Guests: the lines that all of them have, what they are assembled to, and the bytes that they read and print.
use asm_image::assemble;
use asm_text::read_source;
use std::alloc::Global;
use std::process::Abort;
use std::test::Fail;

// What each guest does at first, in 4 steps: c8 points to its numbers, and c9 to its room.
const FIRST: &str = "
    .segment 0 rx
    .entry start
start:
    lui x5, 1
    cincoffset c8, c2, x5
    lui x5, 2
    cincoffset c9, c2, x5
";

// What each guest does at last, in 3 steps; and what prints the 8 bytes of x10, in 8 steps with the jump to it. It changes c1, x10, c11, x12
// and x17. The first of a guest's numbers is the cell of these bytes.
const LAST: &str = "
    addi x10, x0, 0
    addi x17, x0, 1
    ecall
show:
    sd x10, 0(c8)
    addi x10, x0, 1
    cmove c11, c8
    addi x12, x0, 8
    addi x17, x0, 8
    ecall
    cjalr c0, c1, 0
    .segment 0x1000 rw
    .quad 0
";

/// The image of a guest with this code, with these numbers from place 8 of `c8` on, and with further segments, of which the first is the room at
/// 0x2000, to which `c9` points.
pub fn guest(alloc: Global, code: &str, numbers: &[u64], segments: &[u8]) -> Result<Vec<u8>, Fail> {
    let mut text = Vec::new(alloc);
    text.extend_from_slice(FIRST.as_bytes())?;
    text.extend_from_slice(code.as_bytes())?;
    text.extend_from_slice(LAST.as_bytes())?;
    for number in numbers {
        let line = format!(in alloc; "    .quad {number}\n")?;
        text.extend_from_slice(line.as_bytes())?;
    }
    text.extend_from_slice(segments)?;
    let source = read_source(alloc, &text)?;
    Ok(assemble(alloc, &text, &source)?)
}

/// The line of a room with these bytes, which are letters or dots.
pub fn room_of(alloc: Global, bytes: &[u8]) -> Result<Vec<u8>, Fail> {
    let mut line = Vec::new(alloc);
    line.extend_from_slice(b"    .segment 0x2000 rw\n    .ascii \"")?;
    line.extend_from_slice(bytes)?;
    line.extend_from_slice(b"\"\n")?;
    Ok(line)
}

/// So many letters, of which no two neighbours are the same, and no two at a distance of 4096.
pub fn letters(alloc: Global, count: usize) -> Result<Vec<u8>, Fail> {
    let mut letters = Vec::new(alloc);
    for letter in b"abcdefghijklmnopqrstuvw".iter().cycle().take(count) {
        letters.push(*letter)?;
    }
    Ok(letters)
}

/// Adds the 8 bytes that a guest prints of an answer.
pub fn push_answer(out: &mut Vec<u8>, answer: i64) -> Result<(), Fail> {
    out.extend_from_slice(&answer.to_le_bytes())?;
    Ok(())
}

/// Adds the 8 bytes that a guest prints of a number of bytes.
pub fn push_count(out: &mut Vec<u8>, count: usize) -> Result<(), Fail> {
    out.extend_from_slice(&count.to_le_bytes())?;
    Ok(())
}

/// The bytes of these answers.
pub fn answers_of(alloc: Global, answers: &[i64]) -> Result<Vec<u8>, Fail> {
    let mut out = Vec::new(alloc);
    for answer in answers {
        push_answer(&mut out, *answer)?;
    }
    Ok(out)
}

/// The bytes from one place up to another.
pub fn slice(bytes: &[u8], from: usize, past: usize) -> Result<&[u8], Fail> {
    Ok(bytes.get(from..past).ok_or("not in the bytes")?)
}

/// Puts bytes over others, from a place on.
pub fn put_over(bytes: &mut [u8], at: usize, from: &[u8]) {
    for (old, new) in bytes.iter_mut().skip(at).zip(from) {
        *old = *new;
    }
}
