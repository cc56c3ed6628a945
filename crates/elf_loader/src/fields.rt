// Numbers, program headers and relocations of a file, each at its place.
ghost use Rattle.std.specs.Prelude.{◌≡◌, ◌≤◌, ◌+◌, length};
ghost use Rattle.cap_format.specs.FileNumbers.{u16_at, u32_at, u64_at};
ghost use Rattle.cap_format.specs.Image.{header_at, relocation_at};

use byteorder::{ByteOrder, LittleEndian};
use cap_format::{ProgramHeader, Relocation};

/// The number of 2 bytes at a place.
pub fn u16_at(bytes: &[u8], place: usize) -> u16
    requires { place + 2 ≤ length bytes.now }
    ensures { result ≡ u16_at bytes.now place }
{
    LittleEndian::read_u16(&bytes[place..])
}

/// The number of 4 bytes at a place.
pub fn u32_at(bytes: &[u8], place: usize) -> u32
    requires { place + 4 ≤ length bytes.now }
    ensures { result ≡ u32_at bytes.now place }
{
    LittleEndian::read_u32(&bytes[place..])
}

/// The number of 8 bytes at a place.
pub fn u64_at(bytes: &[u8], place: usize) -> u64
    requires { place + 8 ≤ length bytes.now }
    ensures { result ≡ u64_at bytes.now place }
{
    LittleEndian::read_u64(&bytes[place..])
}

/// The program header at a place.
pub fn header_at(bytes: &[u8], place: usize) -> ProgramHeader
    requires { place + 56 ≤ length bytes.now }
    ensures { result ≡ header_at bytes.now place }
{
    ProgramHeader {
        kind: u32_at(bytes, place),
        flags: u32_at(bytes, place + 4),
        from: u64_at(bytes, place + 8),
        start: u64_at(bytes, place + 16),
        in_file: u64_at(bytes, place + 32),
        in_memory: u64_at(bytes, place + 40),
    }
}

/// The relocation at a place.
pub fn relocation_at(bytes: &[u8], place: usize) -> Relocation
    requires { place + 40 ≤ length bytes.now }
    ensures { result ≡ relocation_at bytes.now place }
{
    Relocation {
        place: u64_at(bytes, place),
        base: u64_at(bytes, place + 8),
        span: u64_at(bytes, place + 16),
        offset: u64_at(bytes, place + 24),
        perms: u64_at(bytes, place + 32),
    }
}
