// The file of an image, written part by part (ELF64, System V ABI).
ghost use Rattle.std.specs.Prelude.{◌≡◌, ◌<◌, ◌≤◌, ◌+◌, ◌*◌, ◌^◌, ◌++◌, OnOk, IfOk, All, length, map, flat_map};
ghost use Rattle.asm_image.specs.Pieces.{Half, Word, Quad, Bytes, piece_bytes, bytes_of};
ghost use Rattle.asm_image.specs.Program.{file_header, header_pieces, table_pieces, table_headers, zeros_to, relocation_pieces};
ghost use Rattle.asm_image.specs.Layout.{IsInside, closed_header, closed_headers, closed_after_all};

use crate::bytes::push_zeros;
use crate::place::{OpenSegment, up_to};
use byteorder::{ByteOrder, LittleEndian};
use cap_format::{
    FILE_HEADER_BYTES, PAGE_BYTES, PROGRAM_HEADER_BYTES, ProgramHeader, RELOCATION_BYTES,
    Relocation, SEGMENT_TYPE, TABLE_TYPE,
};
use std::alloc::AllocError;

// The identification of a file: the magic number, 64-bit, little-endian, version 1, and zeros.
const IDENTIFICATION: [u8; 16] = [0x7f, 0x45, 0x4c, 0x46, 2, 1, 1, 0, 0, 0, 0, 0, 0, 0, 0, 0];

// The rights of a table, which is read alone.
const TABLE_RIGHTS: u32 = 4;

// The multiple at which a table stands.
const TABLE_ALIGNMENT: u64 = 8;

// A number of 2 bytes.
#[tactic(auto, unfolding(crate::specs::Pieces::piece_bytes))]
fn put_half(n: u16, out: &mut Vec<u8>) -> Result<(), AllocError>
    ensures { OnOk result (out.new.items ≡ out.old.items ++ piece_bytes (Half n)) }
{
    let mut bytes = [0; 2];
    LittleEndian::write_u16(&mut bytes, n);
    out.extend_from_slice(&bytes)
}

// A number of 4 bytes.
#[tactic(auto, unfolding(crate::specs::Pieces::piece_bytes))]
fn put_word(n: u32, out: &mut Vec<u8>) -> Result<(), AllocError>
    ensures { OnOk result (out.new.items ≡ out.old.items ++ piece_bytes (Word n)) }
{
    let mut bytes = [0; 4];
    LittleEndian::write_u32(&mut bytes, n);
    out.extend_from_slice(&bytes)
}

// A number of 8 bytes.
#[tactic(auto, unfolding(crate::specs::Pieces::piece_bytes))]
fn put_quad(n: u64, out: &mut Vec<u8>) -> Result<(), AllocError>
    ensures { OnOk result (out.new.items ≡ out.old.items ++ piece_bytes (Quad n)) }
{
    let mut bytes = [0; 8];
    LittleEndian::write_u64(&mut bytes, n);
    out.extend_from_slice(&bytes)
}

// Numbers of 2 bytes.
fn put_halves(halves: &[u16], out: &mut Vec<u8>) -> Result<(), AllocError>
    ensures { OnOk result (out.new.items ≡ out.old.items ++ bytes_of (map Half halves.now)) }
{
    for half in halves {
        put_half(*half, out)?;
    }
    Ok(())
}

// Numbers of 8 bytes.
fn put_quads(quads: &[u64], out: &mut Vec<u8>) -> Result<(), AllocError>
    ensures { OnOk result (out.new.items ≡ out.old.items ++ bytes_of (map Quad quads.now)) }
{
    for quad in quads {
        put_quad(*quad, out)?;
    }
    Ok(())
}

/// The file header: type, machine, version, entry, phoff, shoff, flags, ehsize, phentsize, phnum, and three fields on sections.
#[tactic(auto, unfolding(crate::specs::Pieces::piece_bytes))]
pub fn put_file_header(entry: u64, count: u16, out: &mut Vec<u8>) -> Result<(), AllocError>
    ensures { OnOk result (out.new.items ≡ out.old.items ++ bytes_of (file_header entry count)) }
{
    let sizes = [FILE_HEADER_BYTES as u16, PROGRAM_HEADER_BYTES as u16];
    out.extend_from_slice(&IDENTIFICATION)?;
    put_halves(&[3, 243], out)?;
    put_word(1, out)?;
    put_quads(&[entry, FILE_HEADER_BYTES as u64, 0], out)?;
    put_word(0, out)?;
    put_halves(&sizes, out)?;
    put_halves(&[count, 0, 0, 0], out)
}

// A program header: type, flags, offset, vaddr, paddr, filesz, memsz, align.
fn put_header(header: &ProgramHeader, out: &mut Vec<u8>) -> Result<(), AllocError>
    ensures { OnOk result (out.new.items ≡ out.old.items ++ bytes_of (header_pieces header.now)) }
{
    let align = if header.kind == SEGMENT_TYPE {
        PAGE_BYTES as u64
    } else {
        TABLE_ALIGNMENT
    };
    let ProgramHeader {
        from,
        start,
        in_file,
        in_memory,
        ..
    } = *header;
    put_word(header.kind, out)?;
    put_word(header.flags, out)?;
    put_quads(&[from, start, start, in_file, in_memory, align], out)
}

// The header of a segment whose bytes follow behind a place in the file.
fn segment_header(at: u64, segment: &OpenSegment) -> ProgramHeader
    requires at { at ≤ 2 ^ 32 }
    requires inside { IsInside segment.now }
    ensures { result ≡ closed_header at segment.now }
{
    ProgramHeader {
        kind: SEGMENT_TYPE,
        flags: u32::from(segment.rights),
        from: up_to(u128::from(at), PAGE_BYTES as u128) as u64,
        start: segment.start as u64,
        in_file: segment.size as u64,
        in_memory: (segment.size + segment.bss) as u64,
    }
}

/// The headers of segments whose bytes follow behind a place in the file. The answer is the place behind those bytes.
pub fn put_segment_headers(
    at: u64,
    segments: &[OpenSegment],
    out: &mut Vec<u8>,
) -> Result<u64, AllocError>
    requires at { at ≤ 4096 }
    requires inside { All IsInside segments.now }
    requires few { length segments.now ≤ 15 }
    ensures headers { OnOk result (out.new.items ≡ out.old.items ++ bytes_of (flat_map header_pieces (closed_headers at segments.now))) }
    ensures end { IfOk result (λ end. end ≡ closed_after_all at segments.now) }
    ensures near { IfOk result (λ end. end ≤ 2 ^ 32) }
{
    let mut at = at;
    for segment in segments {
        let header = segment_header(at, segment);
        put_header(&header, out)?;
        at = header.from + header.in_file;
    }
    Ok(at)
}

/// The header of the table of relocations, which follows behind a place in the file, where there are relocations.
pub fn put_table_header(
    at: u64,
    relocations: &[Relocation],
    out: &mut Vec<u8>,
) -> Result<(), AllocError>
    requires at { at ≤ 2 ^ 32 }
    requires few { length relocations.now ≤ 65536 }
    ensures { OnOk result (out.new.items ≡ out.old.items ++ bytes_of (flat_map header_pieces (table_headers at relocations.now))) }
{
    if relocations.is_empty() {
        return Ok(());
    }
    let header = ProgramHeader {
        kind: TABLE_TYPE,
        flags: TABLE_RIGHTS,
        from: up_to(u128::from(at), u128::from(TABLE_ALIGNMENT)) as u64,
        start: 0,
        in_file: (RELOCATION_BYTES * relocations.len()) as u64,
        in_memory: 0,
    };
    put_header(&header, out)
}

/// Zeros up to a multiple of a page or less.
#[tactic(auto, unfolding(crate::specs::Pieces::piece_bytes))]
pub fn pad_to(multiple: usize, out: &mut Vec<u8>) -> Result<(), AllocError>
    requires some { 0 < multiple }
    requires few { multiple ≤ PAGE_BYTES }
    ensures { OnOk result (out.new.items ≡ out.old.items ++ piece_bytes (zeros_to (length out.old.items) multiple)) }
{
    let at = out.len() as u128;
    push_zeros(up_to(at, multiple as u128) - at, out)
}

// A relocation: place, base, length, offset, permissions.
fn put_relocation(relocation: &Relocation, out: &mut Vec<u8>) -> Result<(), AllocError>
    ensures { OnOk result (out.new.items ≡ out.old.items ++ bytes_of (relocation_pieces relocation.now)) }
{
    let Relocation {
        place,
        base,
        span,
        offset,
        perms,
    } = *relocation;
    put_quads(&[place, base, span, offset, perms], out)
}

/// The table of relocations, where there are relocations.
pub fn put_table(relocations: &[Relocation], out: &mut Vec<u8>) -> Result<(), AllocError>
    ensures { OnOk result (out.new.items ≡ out.old.items ++ bytes_of (table_pieces (length out.old.items) relocations.now)) }
{
    if relocations.is_empty() {
        return Ok(());
    }
    pad_to(TABLE_ALIGNMENT as usize, out)?;
    for relocation in relocations {
        put_relocation(relocation, out)?;
    }
    Ok(())
}
