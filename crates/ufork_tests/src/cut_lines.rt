// Writers that take a part of a piece or of a line and then no more.
use crate::boards::{Left, left_on};
use crate::images::{HI, image_of};
use cap_format::MOST_FRAMES;
use outside_io::{MemoryFiles, MemorySource, StdSink};
use std::alloc::Global;
use std::test::Fail;
use stores::Board;
use ufork_program::{Ended, ufork};

/// Runs the guest of a file with so much room on the output and on the errors.
pub fn run_with_room(
    alloc: Global,
    guest: &[u8],
    out: &mut [u8],
    err: &mut [u8],
) -> Result<Ended, Fail> {
    let mut words = Vec::new(alloc);
    words.push(String::from_str(alloc, "run")?)?;
    words.push(String::from_str(alloc, "guest")?)?;
    let mut bytes = Vec::new(alloc);
    bytes.extend_from_slice(guest)?;
    let mut entries = Vec::new(alloc);
    entries.push((String::from_str(alloc, "guest")?, bytes))?;
    let mut files = MemoryFiles::new(entries, Vec::new(alloc));
    let mut input = MemorySource::new(Vec::new(alloc), 1, Vec::new(alloc));
    let mut out = StdSink::new(out);
    let mut err = StdSink::new(err);
    let board = Board::new(alloc, MOST_FRAMES as u32)?;
    Ok(ufork(
        alloc, &words, &mut files, &mut input, &mut out, &mut err, board,
    ))
}

#[test]
fn what_is_written_is_a_prefix(rt: HostRuntime) -> Result<(), Fail> {
    let whole = b"exit 1 0\ndone 8\n";
    let hi = image_of(rt.alloc(), &HI)?;
    for count in 0..=16 {
        let mut out = [0; 3];
        let mut err = [0; 16];
        let ended = run_with_room(rt.alloc(), &hi, &mut out, &mut err[..count])?;
        assert_eq!(rt; ended.status, if count < 16 { 7 } else { 0 });
        assert_eq!(rt; &out, b"hi\n");
        assert_eq!(rt; &err[..count], &whole[..count]);
        assert_eq!(rt; left_on(&ended.board, &HI), Some(Left::Nothing));
    }
    Ok(())
}

#[test]
fn a_piece_is_cut_before_any_line(rt: HostRuntime) -> Result<(), Fail> {
    let hi = image_of(rt.alloc(), &HI)?;
    for count in 0..3 {
        let mut out = [0; 3];
        let mut err = [0; 16];
        let ended = run_with_room(rt.alloc(), &hi, &mut out[..count], &mut err)?;
        assert_eq!(rt; ended.status, 7);
        assert_eq!(rt; &out[..count], &b"hi\n"[..count]);
        assert_eq!(rt; err, [0; 16]);
        assert_eq!(rt; left_on(&ended.board, &HI), Some(Left::Page));
    }
    Ok(())
}
