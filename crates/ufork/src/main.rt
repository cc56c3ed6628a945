//! `ufork`: makes the real streams and files and an empty board, and ends with the status of the top call. Where there is no memory
//! for the words or for the board, it ends with 10 and writes nothing.
#![tactic(auto)]

use cap_format::MOST_FRAMES;
use outside_io::{HostFiles, StdSink, StdSource};
use std::env;
use std::io::ErrorKind;
use std::process::ExitCode;
use stores::Board;
use ufork_program::ufork;

// The status where memory is wanted for the words or for the board.
const NO_MEMORY: u8 = 10;

// The words after the program's name. Where one of them is no text there are none, which is no command. None: memory is wanted.
fn command_words(rt: &HostRuntime) -> Option<Vec<String>> {
    let mut words = Vec::new(rt.alloc());
    match env::args(rt) {
        Ok(all) => {
            for word in all.skip(1) {
                words.push(word).ok()?;
            }
            Some(words)
        }
        Err(error) if error.kind() == ErrorKind::OutOfMemory => None,
        Err(_) => Some(words),
    }
}

// Makes what the top call is given, calls it, and gives its status. None: memory is wanted for the words or for the board, and
// nothing was written.
fn call(rt: &HostRuntime) -> Option<u8> {
    let words = command_words(rt)?;
    let board = Board::new(rt.alloc(), MOST_FRAMES as u32).ok()?;
    let mut files = HostFiles::new(rt);
    let mut input = StdSource::new(rt.stdin());
    let mut out = StdSink::new(rt.stdout());
    let mut err = StdSink::new(rt.stderr());
    let ended = ufork(
        rt.alloc(),
        &words,
        &mut files,
        &mut input,
        &mut out,
        &mut err,
        board,
    );
    Some(ended.status)
}

fn main(rt: HostRuntime) -> ExitCode {
    ExitCode::from(call(&rt).unwrap_or(NO_MEMORY))
}
