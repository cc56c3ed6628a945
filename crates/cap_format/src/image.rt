// Image files, as far as readers and writers of them share words: what stands in one, and the reasons for which a file is none.

/// Why a file is no image.
#[derive(Clone, Copy, Debug, PartialEq, Eq)]
pub enum ImageReason {
    /// The file has more than [`IMAGE_BYTES`](crate::IMAGE_BYTES) bytes.
    TooLong,
    /// The file ends before its headers do.
    Truncated,
    /// A byte of the identification is another.
    BadMagic,
    /// The type, machine, version, phoff, flags, ehsize or phentsize of the file header is another, or phnum isn't from 1 to 16.
    BadHeader,
    /// The type of a program header is none of the three.
    UnknownType,
    /// The flags of a segment aren't those of a page that may be read.
    BadFlags,
    /// A segment doesn't start at a page of the region.
    BadAddress,
    /// A segment has no bytes, more than the region has from its start on, or more in the file than in the region; or a table has no
    /// whole number of relocations, or more than [`TABLE_BYTES`](crate::TABLE_BYTES) bytes.
    BadSize,
    /// A segment starts before the end of the one before it, rounded up to a page.
    Overlap,
    /// There is a table already.
    SecondTable,
    /// A part of the file ends behind it.
    FileRange,
    /// There is no segment.
    NoSegment,
    /// The entry is at no instruction of a page that may be executed.
    BadEntry,
    /// A relocation isn't at a granule of a segment's page, or not behind the one before it.
    BadPlace,
    /// The bounds of a relocation don't lie in the region, or aren't exact.
    BadBounds,
    /// The address of a relocation lies behind its bounds.
    BadOffset,
    /// A relocation has a permission that there isn't.
    BadPerms,
}

/// The first rule that a file breaks.
#[derive(Clone, Copy, Debug, PartialEq, Eq)]
pub struct ImageFault {
    /// Why the file is no image.
    pub reason: ImageReason,
    /// The byte of the file at which it is seen, or the file's length where the file is cut short.
    pub place: u64,
}

/// What counts of a program header (ELF64). Places in the region are bytes from its start.
#[derive(Clone, Copy, Debug, PartialEq, Eq)]
pub struct ProgramHeader {
    /// The type. In an image it is [`SEGMENT_TYPE`](crate::SEGMENT_TYPE), [`TABLE_TYPE`](crate::TABLE_TYPE), or 0 for a header that is
    /// skipped.
    pub kind: u32,
    /// The rights of a segment's pages.
    pub flags: u32,
    /// Where its part of the file begins (offset), in bytes.
    pub from: u64,
    /// Where a segment begins in the region (vaddr).
    pub start: u64,
    /// The bytes of its part of the file (filesz).
    pub in_file: u64,
    /// The bytes of a segment in the region (memsz).
    pub in_memory: u64,
}

/// A capability that stands in the region when an image is started. Places in the region are bytes from its start.
#[derive(Clone, Copy, Debug, PartialEq, Eq)]
pub struct Relocation {
    /// Where it is stored in the region.
    pub place: u64,
    /// The base of its bounds in the region.
    pub base: u64,
    /// The length of its bounds, in bytes.
    pub span: u64,
    /// Its address less the base.
    pub offset: u64,
    /// Its permissions.
    pub perms: u64,
}
