// The program headers of a file, on the stack.
ghost use Rattle.std.specs.Prelude.{◌≡◌, ◌≤◌, ◌+◌, ◌*◌, length};
ghost use Rattle.cap_format.specs.Image.{headers_at};

use crate::fields::header_at;
use cap_format::{FILE_HEADER_BYTES, MOST_HEADERS, PROGRAM_HEADER_BYTES, ProgramHeader};
use std::marker::Model;

/// At most [`MOST_HEADERS`] program headers.
#[derive(Drop)]
pub struct Headers {
    list: [ProgramHeader; MOST_HEADERS as usize],
    count: usize,
}

impl Model for Headers {
    ghost use Rattle.std.specs.Prelude.{List, take, ◌≤◌};
    ghost use Rattle.cap_format.specs.Numbers.{most_headers};
    ghost use Rattle.cap_format.specs.declared.image.ProgramHeader.{ProgramHeader};

    ghost Value = { List ProgramHeader };

    ghost view = { λ headers. take headers.count headers.list };

    ghost invariant = { λ headers. headers.count ≤ most_headers };
}

const NO_HEADER: ProgramHeader = ProgramHeader {
    kind: 0,
    flags: 0,
    from: 0,
    start: 0,
    in_file: 0,
    in_memory: 0,
};

impl Headers {
    /// Reads so many, from the end of the file header on.
    pub fn read(bytes: &[u8], count: usize) -> Headers
        requires few { count ≤ MOST_HEADERS }
        requires room { FILE_HEADER_BYTES + PROGRAM_HEADER_BYTES * count ≤ length bytes.now }
        ensures { result ≡ headers_at bytes.now FILE_HEADER_BYTES count }
    {
        let mut list = [NO_HEADER; MOST_HEADERS as usize];
        for number in 0..count {
            list[number] = header_at(bytes, FILE_HEADER_BYTES + PROGRAM_HEADER_BYTES * number);
        }
        Headers { list, count }
    }

    /// All of them, in order.
    pub fn list(&self) -> &[ProgramHeader]
        ensures { result.now ≡ self.now }
    {
        &self.list[..self.count]
    }
}
