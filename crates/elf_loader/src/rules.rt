// The rules of image files, tested one after another: what each function answers is the first one that fails.
ghost use Rattle.std.specs.Prelude.{◌≡◌, ◌<◌, ◌≤◌, ◌+◌, ◌*◌, Some, None, All, IsTrue, length, true, find};
ghost use Rattle.std.specs.List.{list_any};
ghost use Rattle.cap_format.specs.Region.{region_start};
ghost use Rattle.cap_format.specs.SetBounds.{is_exact};
ghost use Rattle.cap_format.specs.Rules.{first_fault};
ghost use Rattle.cap_format.specs.Image.{front_rules, length_rules, byte_rules, identification, field_rules, room_rules, header_count, is_in_file, segment_rules, table_rules, header_rules, headers_rules, past_after, first_after, end_of, is_segment, is_table, covers, covers_code, entry_rules, relocation_rules, relocations_rules, relocations_at, relocations_in, table_place, rules_with};
ghost use Rattle.elf_loader.specs.Tested.{HasHeaders, IsInRegion, IsTableIn, IsNarrow};

use crate::fields::{relocation_at, u16_at, u32_at, u64_at};
use cap_format::{
    ALL_PERMISSIONS, Cap, FILE_HEADER_BYTES, FIRST_REGION, GRANULE_BYTES, IMAGE_BYTES, ImageFault,
    ImageReason, MOST_HEADERS, PAGE_BYTES, PROGRAM_HEADER_BYTES, ProgramHeader, REGION_BYTES,
    RELOCATION_BYTES, Relocation, SEGMENT_TYPE, TABLE_BYTES, TABLE_TYPE,
};

// The identification of a file: the magic number, 64-bit, little-endian, version 1, and zeros.
const IDENTIFICATION: [u8; 16] = [0x7f, 0x45, 0x4c, 0x46, 2, 1, 1, 0, 0, 0, 0, 0, 0, 0, 0, 0];

fn fault(reason: ImageReason, place: u64) -> Option<ImageFault>
    ensures { result ≡ Some (record { reason = reason; place = place }) }
{
    Some(ImageFault { reason, place })
}

// The length of the file.
fn length_fault(n: u64) -> Option<ImageFault>
    ensures is { result ≡ first_fault (length_rules n) }
    ensures fits { result ≡ None → (FILE_HEADER_BYTES ≤ n) × (n ≤ IMAGE_BYTES) }
{
    if n > IMAGE_BYTES as u64 {
        return fault(ImageReason::TooLong, IMAGE_BYTES as u64);
    }
    if n < FILE_HEADER_BYTES as u64 {
        return fault(ImageReason::Truncated, n);
    }
    None
}

// The identification.
fn magic_fault(bytes: &[u8]) -> Option<ImageFault>
    requires { FILE_HEADER_BYTES ≤ length bytes.now }
    ensures { result ≡ first_fault (byte_rules bytes.now 0 identification) }
{
    for place in 0..IDENTIFICATION.len() {
        if bytes[place] != IDENTIFICATION[place] {
            return fault(ImageReason::BadMagic, place as u64);
        }
    }
    None
}

// The fields of the file header.
fn field_fault(bytes: &[u8]) -> Option<ImageFault>
    requires { FILE_HEADER_BYTES ≤ length bytes.now }
    ensures is { result ≡ first_fault (field_rules bytes.now) }
    ensures few { result ≡ None → header_count bytes.now ≤ MOST_HEADERS }
{
    if u16_at(bytes, 16) != 3 {
        return fault(ImageReason::BadHeader, 16);
    }
    if u16_at(bytes, 18) != 243 {
        return fault(ImageReason::BadHeader, 18);
    }
    if u32_at(bytes, 20) != 1 {
        return fault(ImageReason::BadHeader, 20);
    }
    if u64_at(bytes, 32) != FILE_HEADER_BYTES as u64 {
        return fault(ImageReason::BadHeader, 32);
    }
    if u32_at(bytes, 48) != 0 {
        return fault(ImageReason::BadHeader, 48);
    }
    if usize::from(u16_at(bytes, 52)) != FILE_HEADER_BYTES {
        return fault(ImageReason::BadHeader, 52);
    }
    if usize::from(u16_at(bytes, 54)) != PROGRAM_HEADER_BYTES {
        return fault(ImageReason::BadHeader, 54);
    }
    let count = u16_at(bytes, 56);
    if count < 1 || count > MOST_HEADERS {
        return fault(ImageReason::BadHeader, 56);
    }
    None
}

// The room for the program headers.
fn room_fault(bytes: &[u8]) -> Option<ImageFault>
    requires long { FILE_HEADER_BYTES ≤ length bytes.now }
    requires few { header_count bytes.now ≤ MOST_HEADERS }
    ensures is { result ≡ first_fault (room_rules bytes.now) }
    ensures room { result ≡ None → FILE_HEADER_BYTES + PROGRAM_HEADER_BYTES * header_count bytes.now ≤ length bytes.now }
{
    let count = usize::from(u16_at(bytes, 56));
    if FILE_HEADER_BYTES + PROGRAM_HEADER_BYTES * count > bytes.len() {
        return fault(ImageReason::Truncated, bytes.len() as u64);
    }
    None
}

/// All that comes before the program headers.
pub fn front_fault(bytes: &[u8]) -> Option<ImageFault>
    ensures is { result ≡ first_fault (front_rules bytes.now) }
    ensures fits { result ≡ None → HasHeaders bytes.now }
{
    let found = length_fault(bytes.len() as u64);
    if found.is_some() {
        return found;
    }
    let found = magic_fault(bytes);
    if found.is_some() {
        return found;
    }
    let found = field_fault(bytes);
    if found.is_some() {
        return found;
    }
    room_fault(bytes)
}

// Whether the part of the file that a header names lies in a file of n bytes.
fn is_in_file(n: u64, header: &ProgramHeader) -> bool
    ensures { result ≡ is_in_file n header.now }
{
    header.from <= n && header.in_file <= n - header.from
}

// A segment's header at h, in a file of n bytes, behind segments that end at `past`.
fn segment_fault(n: u64, past: u64, h: u64, header: &ProgramHeader) -> Option<ImageFault>
    requires { h ≤ IMAGE_BYTES }
    ensures is { result ≡ first_fault (segment_rules n past h header.now) }
    ensures ends { result ≡ None → header.now.start + header.now.in_memory ≤ REGION_BYTES }
    ensures rights { result ≡ None → header.now.flags < 8 }
{
    if header.flags < 4 || header.flags > 7 {
        return fault(ImageReason::BadFlags, h + 4);
    }
    if header.start % PAGE_BYTES as u64 != 0 || header.start >= REGION_BYTES {
        return fault(ImageReason::BadAddress, h + 16);
    }
    if header.in_memory < 1 || header.in_memory > REGION_BYTES - header.start {
        return fault(ImageReason::BadSize, h + 40);
    }
    if header.in_file > header.in_memory {
        return fault(ImageReason::BadSize, h + 32);
    }
    if header.start < past {
        return fault(ImageReason::Overlap, h + 16);
    }
    if !is_in_file(n, header) {
        return fault(ImageReason::FileRange, h + 8);
    }
    None
}

// The header at h of a table of relocations, which is the first table or isn't.
fn table_fault(n: u64, first: bool, h: u64, header: &ProgramHeader) -> Option<ImageFault>
    requires { h ≤ IMAGE_BYTES }
    ensures is { result ≡ first_fault (table_rules n first h header.now) }
    ensures ends { result ≡ None → header.now.from + header.now.in_file ≤ n }
{
    if !first {
        return fault(ImageReason::SecondTable, h);
    }
    if header.in_file % RELOCATION_BYTES as u64 != 0 || header.in_file > TABLE_BYTES {
        return fault(ImageReason::BadSize, h + 32);
    }
    if !is_in_file(n, header) {
        return fault(ImageReason::FileRange, h + 8);
    }
    None
}

// The header at h.
fn header_fault(
    n: u64,
    past: u64,
    first: bool,
    h: u64,
    header: &ProgramHeader,
) -> Option<ImageFault>
    requires { h ≤ IMAGE_BYTES }
    ensures is { result ≡ first_fault (header_rules n past first h header.now) }
    ensures region { result ≡ None → IsInRegion header.now }
    ensures table { result ≡ None → IsTableIn n header.now }
{
    match header.kind {
        SEGMENT_TYPE => segment_fault(n, past, h, header),
        TABLE_TYPE => table_fault(n, first, h, header),
        0 => None,
        _ => fault(ImageReason::UnknownType, h),
    }
}

/// The end of a segment, rounded up to a page.
pub fn end_of(header: &ProgramHeader) -> u64
    requires { header.now.start + header.now.in_memory ≤ REGION_BYTES }
    ensures { result ≡ end_of header.now }
{
    let page = PAGE_BYTES as u64;
    (header.start + header.in_memory + (page - 1)) / page * page
}

// Where the segments end after a header.
fn past_after(past: u64, header: &ProgramHeader) -> u64
    requires { IsTrue (is_segment header.now) → header.now.start + header.now.in_memory ≤ REGION_BYTES }
    ensures { result ≡ past_after past header.now }
{
    if header.kind == SEGMENT_TYPE {
        end_of(header)
    } else {
        past
    }
}

// Whether there is no table yet, after a header.
fn first_after(first: bool, header: &ProgramHeader) -> bool
    ensures { result ≡ first_after first header.now }
{
    first && header.kind != TABLE_TYPE
}

// All program headers of a file of n bytes, which begin at byte 64.
fn headers_fault(n: u64, headers: &[ProgramHeader]) -> Option<ImageFault>
    requires { length headers.now ≤ MOST_HEADERS }
    ensures is { result ≡ first_fault (headers_rules n 0 true FILE_HEADER_BYTES headers.now) }
    ensures region { result ≡ None → All IsInRegion headers.now }
    ensures tables { result ≡ None → All (IsTableIn n) headers.now }
{
    let mut past = 0;
    let mut first = true;
    let mut h = FILE_HEADER_BYTES as u64;
    for header in headers {
        let found = header_fault(n, past, first, h, header);
        if found.is_some() {
            return found;
        }
        past = past_after(past, header);
        first = first_after(first, header);
        h += PROGRAM_HEADER_BYTES as u64;
    }
    None
}

// Whether one of the headers is a segment's.
fn has_segment(headers: &[ProgramHeader]) -> bool
    ensures { result ≡ list_any is_segment headers.now }
{
    headers.iter().any(|header| header.kind == SEGMENT_TYPE)
}

// Whether the place is on a page of the header's segment.
fn covers(place: u64, header: &ProgramHeader) -> bool
    requires { IsTrue (is_segment header.now) → header.now.start + header.now.in_memory ≤ REGION_BYTES }
    ensures { result ≡ covers place header.now }
{
    header.kind == SEGMENT_TYPE && header.start <= place && place < end_of(header)
}

// Whether the place is on a page of one of the segments.
fn is_covered(headers: &[ProgramHeader], place: u64) -> bool
    requires { All IsInRegion headers.now }
    ensures is { result ≡ list_any (covers place) headers.now }
    ensures within { IsTrue result → place < REGION_BYTES }
{
    for header in headers {
        if covers(place, header) {
            return true;
        }
    }
    false
}

// Whether it is on a page of one that may be executed.
fn is_code(headers: &[ProgramHeader], place: u64) -> bool
    requires { All IsInRegion headers.now }
    ensures { result ≡ list_any (covers_code place) headers.now }
{
    for header in headers {
        if header.flags % 2 == 1 && covers(place, header) {
            return true;
        }
    }
    false
}

// That there is a segment, and the entry.
fn entry_fault(entry: u64, headers: &[ProgramHeader]) -> Option<ImageFault>
    requires { All IsInRegion headers.now }
    ensures { result ≡ first_fault (entry_rules entry headers.now) }
{
    if !has_segment(headers) {
        return fault(ImageReason::NoSegment, 56);
    }
    if entry % 4 != 0 || !is_code(headers, entry) {
        return fault(ImageReason::BadEntry, 24);
    }
    None
}

// Whether bounds in region 0 are exact.
fn is_exact(base: u64, span: u64) -> bool
    requires { base ≤ REGION_BYTES }
    ensures { result ≡ is_exact (region_start 0 + base) span }
{
    Cap::from_int(FIRST_REGION + base).set_bounds(span).exact
}

// The relocation at r, whose place must not be below `least`.
fn relocation_fault(
    headers: &[ProgramHeader],
    least: u64,
    r: u64,
    relocation: &Relocation,
) -> Option<ImageFault>
    requires region { All IsInRegion headers.now }
    requires early { r ≤ IMAGE_BYTES }
    ensures is { result ≡ first_fault (relocation_rules headers.now least r relocation.now) }
    ensures within { result ≡ None → relocation.now.place < REGION_BYTES }
    ensures narrow { result ≡ None → IsNarrow relocation.now }
{
    if relocation.place % GRANULE_BYTES as u64 != 0
        || !is_covered(headers, relocation.place)
        || relocation.place < least
    {
        return fault(ImageReason::BadPlace, r);
    }
    if relocation.base > REGION_BYTES
        || relocation.span > REGION_BYTES - relocation.base
        || !is_exact(relocation.base, relocation.span)
    {
        return fault(ImageReason::BadBounds, r + 8);
    }
    if relocation.offset > relocation.span {
        return fault(ImageReason::BadOffset, r + 24);
    }
    if relocation.perms & u64::from(ALL_PERMISSIONS) != relocation.perms {
        return fault(ImageReason::BadPerms, r + 32);
    }
    None
}

// So many relocations from a place of the file on.
fn relocations_fault(
    bytes: &[u8],
    headers: &[ProgramHeader],
    from: usize,
    count: usize,
) -> Option<ImageFault>
    requires region { All IsInRegion headers.now }
    requires room { from + RELOCATION_BYTES * count ≤ length bytes.now }
    requires short { length bytes.now ≤ IMAGE_BYTES }
    ensures is { result ≡ first_fault (relocations_rules headers.now 0 from (relocations_at bytes.now from count)) }
    ensures narrow { result ≡ None → All IsNarrow (relocations_at bytes.now from count) }
{
    let mut least = 0;
    let mut r = from;
    for _number in 0..count {
        let relocation = relocation_at(bytes, r);
        let found = relocation_fault(headers, least, r as u64, &relocation);
        if found.is_some() {
            return found;
        }
        least = relocation.place + 1;
        r += RELOCATION_BYTES;
    }
    None
}

/// The first table among the headers.
pub fn table_in(headers: &[ProgramHeader]) -> Option<ProgramHeader>
    ensures { result ≡ find is_table headers.now }
{
    for header in headers {
        if header.kind == TABLE_TYPE {
            return Some(*header);
        }
    }
    None
}

// The relocations of the table, if there is one.
fn table_relocations_fault(bytes: &[u8], headers: &[ProgramHeader]) -> Option<ImageFault>
    requires region { All IsInRegion headers.now }
    requires tables { All (IsTableIn (length bytes.now)) headers.now }
    requires short { length bytes.now ≤ IMAGE_BYTES }
    ensures is { result ≡ first_fault (relocations_rules headers.now 0 (table_place (find is_table headers.now)) (relocations_in bytes.now (find is_table headers.now))) }
    ensures narrow { result ≡ None → All IsNarrow (relocations_in bytes.now (find is_table headers.now)) }
{
    match table_in(headers) {
        Some(table) => relocations_fault(
            bytes,
            headers,
            table.from as usize,
            table.in_file as usize / RELOCATION_BYTES,
        ),
        None => None,
    }
}

/// All that the program headers say.
pub fn rest_fault(bytes: &[u8], headers: &[ProgramHeader]) -> Option<ImageFault>
    requires few { length headers.now ≤ MOST_HEADERS }
    requires long { FILE_HEADER_BYTES ≤ length bytes.now }
    requires short { length bytes.now ≤ IMAGE_BYTES }
    ensures is { result ≡ first_fault (rules_with bytes.now headers.now) }
    ensures region { result ≡ None → All IsInRegion headers.now }
    ensures tables { result ≡ None → All (IsTableIn (length bytes.now)) headers.now }
    ensures narrow { result ≡ None → All IsNarrow (relocations_in bytes.now (find is_table headers.now)) }
{
    let n = bytes.len() as u64;
    let found = headers_fault(n, headers);
    if found.is_some() {
        return found;
    }
    let found = entry_fault(u64_at(bytes, 24), headers);
    if found.is_some() {
        return found;
    }
    table_relocations_fault(bytes, headers)
}
