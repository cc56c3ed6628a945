// The console's input, which is read whole before the first instruction.
ghost use Rattle.std.specs.Prelude.{◌≡◌, ◌≤◌, length, MatchResult};
ghost use Rattle.ufork_program.specs.Input.{TookAll, TookFor, Fills};

use outside_io::{Failed, Source};
use std::alloc::Global;

/// The most bytes that the console's input may have.
pub const MOST_INPUT: usize = 1_048_576;

/// The most bytes that a read of it asks for.
const MOST_PIECE: usize = 4096;

/// Why the console's input is not taken.
#[derive(Clone, Copy, Debug, PartialEq, Eq)]
pub enum InputRefusal {
    /// A read failed.
    Failed,
    /// It has over [`MOST_INPUT`] bytes.
    TooLong,
    /// There was no memory for it, and no byte of it was taken.
    NoMemory,
}

// Fills a room from its front, by reads of at most so many bytes, until it is full or the source has told its end. The number is that of
// the bytes put there.
fn fill<I: Source>(room: &mut [u8], input: &mut I) -> Result<usize, Failed>
    ensures { Fills room.new (I.state input.old) (I.state input.new) result }
{
    let mut filled = 0;
    while filled < room.len() {
        let end = room.len().min(filled + MOST_PIECE);
        match input.read(&mut room[filled..end])? {
            0 => return Ok(filled),
            count => filled += count,
        }
    }
    Ok(filled)
}

/// Reads the console's input to its end, in pieces of at most 4096 bytes. Of a longer input than [`MOST_INPUT`] bytes it takes one byte
/// more than that. Memory for all of it is found before the first read.
#[tactic(none)]
pub fn read_input<I: Source>(alloc: Global, input: &mut I) -> Result<Vec<u8>, InputRefusal>
    ensures { MatchResult result (λ bytes. TookAll bytes.items (I.state input.old) (I.state input.new)) (λ refusal. TookFor (I.state input.old) (I.state input.new) refusal) }
{
    let Ok(mut bytes) = vec![in alloc; 0_u8; MOST_INPUT + 1] else {
        return Err(InputRefusal::NoMemory);
    };
    let Ok(count) = fill(&mut bytes, input) else {
        return Err(InputRefusal::Failed);
    };
    if count > MOST_INPUT {
        return Err(InputRefusal::TooLong);
    }
    bytes.truncate(count);
    Ok(bytes)
}
