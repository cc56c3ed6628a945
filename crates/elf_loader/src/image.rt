// Images as they are read.
ghost use Rattle.std.specs.Prelude.{◌≡◌, ◌<◌, ◌≤◌, ◌+◌, ◌*◌, [], ◌∷◌, All, IfSome, length, map, filter, find};
ghost use Rattle.cap_format.specs.Image.{is_segment, is_table, pages_of, relocations_at, relocations_in};
ghost use Rattle.elf_loader.specs.Tested.{IsInRegion, IsTableIn, IsNarrow};
ghost use Rattle.elf_loader.specs.Loaded.{segment_of, reloc_of, image_with, IsRead};

use crate::fields::{relocation_at, u16_at, u64_at};
use crate::program_headers::Headers;
use crate::rules::{end_of, front_fault, rest_fault, table_in};
use cap_format::{
    FILE_HEADER_BYTES, ImageFault, MOST_HEADERS, PAGE_BYTES, ProgramHeader, RELOCATION_BYTES,
    Relocation, SEGMENT_TYPE,
};
use std::alloc::Global;
use std::marker::Model;

/// A segment of an image. It begins at a page of the region.
#[derive(Clone, Copy, Debug, PartialEq, Eq)]
pub struct Segment {
    /// Where it begins in the region, in bytes from the region's start: a multiple of [`PAGE_BYTES`].
    pub start: u64,
    /// The bytes that it has in the region, at least 1.
    pub size: u64,
    /// Where its bytes begin in the file.
    pub from: u64,
    /// How many of its bytes stand in the file. The others are zero.
    pub file_size: u64,
    /// The rights of its pages.
    pub rights: u8,
}

/// A capability that stands in the region when the image is started. All is in bytes, from the region's start.
#[derive(Clone, Copy, Debug, PartialEq, Eq)]
pub struct Reloc {
    /// Where it stands: a multiple of 16, on a page of a segment.
    pub place: u64,
    /// The base of its bounds.
    pub base: u64,
    /// The length of its bounds.
    pub length: u64,
    /// Its address, from the base on.
    pub offset: u64,
    /// Its permissions.
    pub perms: u16,
}

/// The segments of an image, in rising order.
#[derive(Drop)]
pub struct Segments {
    list: Vec<Segment>,
}

impl Model for Segments {
    ghost use Rattle.std.specs.Prelude.{List};
    ghost use Rattle.elf_loader.specs.declared.image.Segment.{Segment};

    ghost Value = { List Segment };

    ghost view = { λ segments. segments.list.items };
}

/// The relocations of an image, in the rising order of their places.
#[derive(Drop)]
pub struct Relocs {
    list: Vec<Reloc>,
}

impl Model for Relocs {
    ghost use Rattle.std.specs.Prelude.{List};
    ghost use Rattle.elf_loader.specs.declared.image.Reloc.{Reloc};

    ghost Value = { List Reloc };

    ghost view = { λ relocs. relocs.list.items };
}

/// What an image holds.
#[derive(Drop)]
pub struct Image {
    /// Where the program begins, in bytes from the region's start: a multiple of 4.
    pub entry: u64,
    /// The segments.
    pub segments: Segments,
    /// The relocations.
    pub relocs: Relocs,
    /// How many pages the segments have, at most 256.
    pub pages: u32,
}

/// Why a file wasn't read.
#[derive(Clone, Copy, Debug, PartialEq, Eq)]
pub enum ImageRefusal {
    /// It is no image.
    Fault(ImageFault),
    /// It is one, and there was no memory for its lists.
    NoMemory,
}

impl Segments {
    /// The segments, in order.
    pub fn list(&self) -> &[Segment]
        ensures { result.now ≡ self.now }
    {
        self.list.as_slice()
    }

    // Those among program headers. None: memory is wanted.
    fn read(alloc: Global, headers: &[ProgramHeader]) -> Option<Segments>
        requires { All IsInRegion headers.now }
        ensures { IfSome result (λ segments. segments ≡ map segment_of (filter is_segment headers.now)) }
    {
        let mut list = Vec::new(alloc);
        for header in headers {
            if header.kind == SEGMENT_TYPE {
                list.push(segment_of(header)).ok()?;
            }
        }
        Some(Segments { list })
    }
}

impl Relocs {
    /// The relocations, in order.
    pub fn list(&self) -> &[Reloc]
        ensures { result.now ≡ self.now }
    {
        self.list.as_slice()
    }

    // So many from a place of the file on. None: memory is wanted.
    fn read(alloc: Global, bytes: &[u8], from: usize, count: usize) -> Option<Relocs>
        requires room { from + RELOCATION_BYTES * count ≤ length bytes.now }
        requires narrow { All IsNarrow (relocations_at bytes.now from count) }
        ensures { IfSome result (λ relocs. relocs ≡ map reloc_of (relocations_at bytes.now from count)) }
    {
        let mut list = Vec::new(alloc);
        for number in 0..count {
            let relocation = relocation_at(bytes, from + RELOCATION_BYTES * number);
            list.push(reloc_of(&relocation)).ok()?;
        }
        Some(Relocs { list })
    }

    // Those of the table, if there is one. None: memory is wanted.
    fn of_table(alloc: Global, bytes: &[u8], headers: &[ProgramHeader]) -> Option<Relocs>
        requires tables { All (IsTableIn (length bytes.now)) headers.now }
        requires narrow { All IsNarrow (relocations_in bytes.now (find is_table headers.now)) }
        ensures { IfSome result (λ relocs. relocs ≡ map reloc_of (relocations_in bytes.now (find is_table headers.now))) }
    {
        match table_in(headers) {
            Some(table) => Relocs::read(
                alloc,
                bytes,
                table.from as usize,
                table.in_file as usize / RELOCATION_BYTES,
            ),
            None => Some(Relocs {
                list: Vec::new(alloc),
            }),
        }
    }
}

fn segment_of(header: &ProgramHeader) -> Segment
    requires { header.now.flags < 8 }
    ensures { result ≡ segment_of header.now }
{
    Segment {
        start: header.start,
        size: header.in_memory,
        from: header.from,
        file_size: header.in_file,
        rights: header.flags as u8,
    }
}

fn reloc_of(relocation: &Relocation) -> Reloc
    requires { IsNarrow relocation.now }
    ensures { result ≡ reloc_of relocation.now }
{
    Reloc {
        place: relocation.place,
        base: relocation.base,
        length: relocation.span,
        offset: relocation.offset,
        perms: relocation.perms as u16,
    }
}

// How many pages a segment has, and none where the header is another.
fn pages_in(header: &ProgramHeader) -> u32
    requires { IsInRegion header.now }
    ensures is { result ≡ pages_of (filter is_segment (header.now ∷ [])) }
    ensures few { result ≤ 256 }
{
    if header.kind == SEGMENT_TYPE {
        ((end_of(header) - header.start) / PAGE_BYTES as u64) as u32
    } else {
        0
    }
}

// How many pages the segments among program headers have.
fn page_count(headers: &[ProgramHeader]) -> u32
    requires few { length headers.now ≤ MOST_HEADERS }
    requires region { All IsInRegion headers.now }
    ensures { result ≡ pages_of (filter is_segment headers.now) }
{
    let mut count = 0;
    for header in headers {
        count += pages_in(header);
    }
    count
}

// Reads what the headers of an image name. None: memory is wanted.
fn load(alloc: Global, bytes: &[u8], headers: &[ProgramHeader]) -> Option<Image>
    requires few { length headers.now ≤ MOST_HEADERS }
    requires long { FILE_HEADER_BYTES ≤ length bytes.now }
    requires region { All IsInRegion headers.now }
    requires tables { All (IsTableIn (length bytes.now)) headers.now }
    requires narrow { All IsNarrow (relocations_in bytes.now (find is_table headers.now)) }
    ensures { IfSome result (λ image. image ≡ image_with bytes.now headers.now) }
{
    let segments = Segments::read(alloc, headers)?;
    let relocs = Relocs::of_table(alloc, bytes, headers)?;
    Some(Image {
        entry: u64_at(bytes, 24),
        segments,
        relocs,
        pages: page_count(headers),
    })
}

/// Reads an image, in the format of ELF64 (System V ABI) with this project's own rules and table of relocations.
///
/// [`ImageRefusal::Fault`] comes exactly where the file breaks a rule, and tells the first one that it breaks, with the byte at which
/// it is seen. [`ImageRefusal::NoMemory`] comes only for an image. The bytes of the segments stay in the file.
pub fn read_image(alloc: Global, bytes: &[u8]) -> Result<Image, ImageRefusal>
    ensures { IsRead bytes.now result }
{
    if let Some(fault) = front_fault(bytes) {
        return Err(ImageRefusal::Fault(fault));
    }
    let count = usize::from(u16_at(bytes, 56));
    let headers = Headers::read(bytes, count);
    if let Some(fault) = rest_fault(bytes, headers.list()) {
        return Err(ImageRefusal::Fault(fault));
    }
    match load(alloc, bytes, headers.list()) {
        Some(image) => Ok(image),
        None => Err(ImageRefusal::NoMemory),
    }
}
