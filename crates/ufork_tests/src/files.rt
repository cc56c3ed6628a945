// Image files that are put together from segments and relocations, by the format: the headers, and from byte 4096 on the segments'
// bytes, each from a multiple of 4096, and then the relocations, from a multiple of 8.
use cap_format::PAGE_BYTES;
use elf_loader::Reloc;
use std::alloc::Global;
use std::test::Fail;

/// The type of the table's header.
pub const TABLE: u64 = 0x6b00_0001;

/// A segment.
#[derive(Clone, Copy)]
pub struct Part<'a> {
    /// Where it begins in the region.
    pub start: u64,
    /// The rights of its pages: 4 to read, 2 to write, 1 to execute.
    pub rights: u8,
    /// Its bytes in the file.
    pub bytes: &'a [u8],
    /// The bytes that it has in memory.
    pub size: u64,
}

/// A segment.
pub fn segment(start: u64, rights: u8, bytes: &[u8], size: u64) -> Part<'_> {
    Part {
        start,
        rights,
        bytes,
        size,
    }
}

/// A relocation with the permissions for data.
pub fn relocation(place: u64, base: u64, length: u64, offset: u64) -> Reloc {
    Reloc {
        place,
        base,
        length,
        offset,
        perms: 0x3c,
    }
}

/// Where a field stands in a file, how many bytes it has, and the number that is put there.
pub type Change = (usize, usize, u64);

/// Changes a field of a file.
pub fn change(file: &mut [u8], (place, size, number): Change) {
    for (index, byte) in number.to_le_bytes().into_iter().enumerate().take(size) {
        if let Some(old) = file.get_mut(place.saturating_add(index)) {
            *old = byte;
        }
    }
}

/// The image of these segments and relocations, of which there are at most 16 and one table. There is none without relocations.
pub fn image_with(
    alloc: Global,
    entry: u64,
    parts: &[Part<'_>],
    relocs: &[Reloc],
) -> Result<Vec<u8>, Fail> {
    let mut file = file_header(alloc, entry)?;
    let mut place = 64_usize;
    for part in parts {
        add_part(&mut file, place, part)?;
        place = place.saturating_add(56);
    }
    if !relocs.is_empty() {
        add_table(&mut file, place, relocs)?;
        place = place.saturating_add(56);
    }
    let count = place.saturating_sub(64) / 56;
    change(&mut file, (56, 2, count as u64));
    Ok(file)
}

/// The image of code on page 0, which may be read and fetched and begins with its first instruction, and of further segments and
/// relocations.
pub fn image_with_code(
    alloc: Global,
    code: &[u8],
    parts: &[Part<'_>],
    relocs: &[Reloc],
) -> Result<Vec<u8>, Fail> {
    let mut all = Vec::new(alloc);
    all.push(segment(0, 5, code, code.len() as u64))?;
    all.extend_from_slice(parts)?;
    image_with(alloc, 0, &all, relocs)
}

// The file header without a number of program headers, and zeros up to byte 4096.
fn file_header(alloc: Global, entry: u64) -> Result<Vec<u8>, Fail> {
    let mut file = vec![in alloc; 0_u8; PAGE_BYTES]?;
    let fields: [Change; 9] = [
        (0, 4, 0x464c_457f),
        (4, 3, 0x01_0102),
        (16, 2, 3), // type
        (18, 2, 243), // machine
        (20, 4, 1), // version
        (24, 8, entry),
        (32, 8, 64), // phoff
        (52, 2, 64), // ehsize
        (54, 2, 56), // phentsize
    ];
    for field in fields {
        change(&mut file, field);
    }
    Ok(file)
}

// Puts a program header at a place: type, flags, offset, vaddr, paddr, filesz, memsz and align.
fn put_header(file: &mut [u8], place: usize, numbers: [u64; 8]) {
    let fields: [(usize, usize); 8] = [
        (0, 4),
        (4, 4),
        (8, 8),
        (16, 8),
        (24, 8),
        (32, 8),
        (40, 8),
        (48, 8),
    ];
    for ((from, size), number) in fields.into_iter().zip(numbers) {
        change(file, (place.saturating_add(from), size, number));
    }
}

// Adds zeros up to a multiple of a number.
fn pad(file: &mut Vec<u8>, to: usize) -> Result<(), Fail> {
    let over = file.len().checked_rem(to).unwrap_or(0);
    if over != 0 {
        let missing = to.saturating_sub(over);
        file.resize(file.len().saturating_add(missing), 0)?;
    }
    Ok(())
}

fn add_part(file: &mut Vec<u8>, place: usize, part: &Part<'_>) -> Result<(), Fail> {
    pad(file, PAGE_BYTES)?;
    let header = [
        1,
        u64::from(part.rights),
        file.len() as u64,
        part.start,
        part.start,
        part.bytes.len() as u64,
        part.size,
        PAGE_BYTES as u64,
    ];
    put_header(file, place, header);
    file.extend_from_slice(part.bytes)?;
    Ok(())
}

fn add_table(file: &mut Vec<u8>, place: usize, relocs: &[Reloc]) -> Result<(), Fail> {
    pad(file, 8)?;
    let size = (relocs.len() as u64).saturating_mul(40);
    let header = [TABLE, 4, file.len() as u64, 0, 0, size, 0, 8];
    put_header(file, place, header);
    for reloc in relocs {
        add_reloc(file, reloc)?;
    }
    Ok(())
}

fn add_reloc(file: &mut Vec<u8>, reloc: &Reloc) -> Result<(), Fail> {
    let numbers = [
        reloc.place,
        reloc.base,
        reloc.length,
        reloc.offset,
        u64::from(reloc.perms),
    ];
    for number in numbers {
        file.extend_from_slice(&number.to_le_bytes())?;
    }
    Ok(())
}
