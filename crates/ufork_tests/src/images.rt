// Pages that are put together by hand, and the image of one alone.
use crate::files::image_with_code;
use std::alloc::Global;
use std::test::Fail;

/// The page that writes `hi` and a line end and exits with 0.
pub const HI: [u8; 35] = [
    0x13, 0x05, 0x10, 0x00, // addi x10, x0, 1
    0xdb, 0x15, 0x01, 0x02, // cincoffsetimm c11, c2, 32
    0x13, 0x06, 0x30, 0x00, // addi x12, x0, 3
    0x93, 0x08, 0x80, 0x00, // addi x17, x0, 8
    0x73, 0x00, 0x00, 0x00, // ecall
    0x13, 0x05, 0x00, 0x00, // addi x10, x0, 0
    0x93, 0x08, 0x10, 0x00, // addi x17, x0, 1
    0x73, 0x00, 0x00, 0x00, // ecall
    b'h', b'i', b'\n',
];

/// The same with bounds of 2 bytes for the text, so that the write of 3 is refused, and without a status of its own.
pub const BOUNDS: [u8; 35] = [
    0x13, 0x05, 0x10, 0x00, // addi x10, x0, 1
    0xdb, 0x15, 0x01, 0x02, // cincoffsetimm c11, c2, 32
    0xdb, 0xa5, 0x25, 0x00, // csetboundsimm c11, c11, 2
    0x13, 0x06, 0x30, 0x00, // addi x12, x0, 3
    0x93, 0x08, 0x80, 0x00, // addi x17, x0, 8
    0x73, 0x00, 0x00, 0x00, // ecall
    0x93, 0x08, 0x10, 0x00, // addi x17, x0, 1
    0x73, 0x00, 0x00, 0x00, // ecall
    b'h', b'i', b'\n',
];

/// The page of these words, the lowest byte of each first.
pub fn page_of(alloc: Global, words: &[u32]) -> Result<Vec<u8>, Fail> {
    let mut page = Vec::new(alloc);
    for word in words {
        page.extend_from_slice(&word.to_le_bytes())?;
    }
    Ok(page)
}

/// The image of a page of 1 to 4096 bytes, which may be read and fetched, and begins with its first instruction.
pub fn image_of(alloc: Global, page: &[u8]) -> Result<Vec<u8>, Fail> {
    image_with_code(alloc, page, &[], &[])
}
