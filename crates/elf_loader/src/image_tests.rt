// Image files that are put together by hand: what is read of them, or the first rule that they break.
//
// Most are the base image with one field changed. It has 360 bytes:
//
//   0    the file header
//   64   the header of a segment of one page, read and executed: 8 bytes from byte 232 on
//   120  the header of a segment of two pages, read and written: 40 bytes from byte 240 on, of 5000 in the region
//   176  the header of the table: 80 bytes from byte 280 on
//   232  the bytes of the segments
//   280  the first relocation: place, base (288), length (296), offset (304), permissions (312)
//   320  the second one: place, base (328), length (336), offset (344), permissions (352)
use crate::{Image, ImageRefusal, Reloc, Segment, read_image};
use cap_format::{ImageFault, ImageReason, ProgramHeader};
use std::alloc::Global;
use std::process::Abort;
use std::test::Fail;

// Where a field stands, how many bytes it has, and the number that is put there.
type Change = (usize, usize, u64);

// A change, and the reason and the place of the refusal.
type Refused = (Change, ImageReason, u64);

// A change, and what is read then: the entry, the pages, the segments and the relocations.
type Accepted = (Change, Counts);

type Counts = (u64, u32, usize, usize);

const BASE: Counts = (4, 3, 2, 2);

// The table's type.
const TABLE: u64 = 0x6b00_0001;

// A header that is skipped.
const SKIPPED: ProgramHeader = ProgramHeader {
    kind: 0,
    flags: u32::MAX,
    from: u64::MAX,
    start: u64::MAX,
    in_file: u64::MAX,
    in_memory: u64::MAX,
};

// The bytes of the base image's segments.
const CONTENT: [u8; 48] = [0x73; 48];

// The segments of the base image.
const SEGMENTS: [Segment; 2] = [
    Segment {
        start: 0,
        size: 8,
        from: 232,
        file_size: 8,
        rights: 5,
    },
    Segment {
        start: 8192,
        size: 5000,
        from: 240,
        file_size: 40,
        rights: 6,
    },
];

// The relocations of the base image: one where the second segment begins, and one in the last granule of its last page, behind its
// end, with empty bounds at the region's end.
const RELOCATIONS: [Reloc; 2] = [
    Reloc {
        place: 8192,
        base: 8192,
        length: 32,
        offset: 16,
        perms: 0x3c,
    },
    Reloc {
        place: 16368,
        base: 1048576,
        length: 0,
        offset: 0,
        perms: 2,
    },
];

// The bytes of a program that writes `hi` and a line end.
const HI: [u8; 35] = [
    0x13, 0x05, 0x10, 0x00, // addi x10, x0, 1
    0xdb, 0x15, 0x01, 0x02, // cincoffsetimm c11, c2, 32
    0x13, 0x06, 0x30, 0x00, // addi x12, x0, 3
    0x93, 0x08, 0x80, 0x00, // addi x17, x0, 8
    0x73, 0x00, 0x00, 0x00, // ecall
    0x13, 0x05, 0x00, 0x00, // addi x10, x0, 0
    0x93, 0x08, 0x10, 0x00, // addi x17, x0, 1
    0x73, 0x00, 0x00, 0x00, // ecall
    b'h', b'i', b'\n',
];

// The header of a segment.
fn segment(flags: u32, from: u64, start: u64, in_file: u64, in_memory: u64) -> ProgramHeader {
    ProgramHeader {
        kind: 1,
        flags,
        from,
        start,
        in_file,
        in_memory,
    }
}

// The header of a table.
fn table(from: u64, in_file: u64) -> ProgramHeader {
    ProgramHeader {
        kind: 0x6b00_0001,
        flags: 4,
        from,
        start: 0,
        in_file,
        in_memory: 0,
    }
}

// The bytes of a program header, with paddr and align 0.
fn push_header(image: &mut Vec<u8>, header: &ProgramHeader) -> Result<(), Fail> {
    image.extend_from_slice(&header.kind.to_le_bytes())?;
    image.extend_from_slice(&header.flags.to_le_bytes())?;
    for number in [
        header.from,
        header.start,
        0,
        header.in_file,
        header.in_memory,
        0,
    ] {
        image.extend_from_slice(&number.to_le_bytes())?;
    }
    Ok(())
}

// The bytes of a relocation.
fn push_relocation(image: &mut Vec<u8>, relocation: &Reloc) -> Result<(), Fail> {
    for number in [
        relocation.place,
        relocation.base,
        relocation.length,
        relocation.offset,
        u64::from(relocation.perms),
    ] {
        image.extend_from_slice(&number.to_le_bytes())?;
    }
    Ok(())
}

// The file with this entry and these program headers. The bytes of the segments and the relocations come behind them.
fn image_of(
    alloc: Global,
    entry: u64,
    headers: &[ProgramHeader],
    content: &[u8],
    relocations: &[Reloc],
) -> Result<Vec<u8>, Fail> {
    let mut image = Vec::new(alloc);
    let count = u16::try_from(headers.len()).unwrap_or(0);
    image.extend_from_slice(&[0x7f, b'E', b'L', b'F', 2, 1, 1, 0])?;
    image.extend_from_slice(&[0; 8])?;
    image.extend_from_slice(&[3, 0, 243, 0, 1, 0, 0, 0])?; // type, machine, version
    image.extend_from_slice(&entry.to_le_bytes())?;
    image.extend_from_slice(&[64, 0, 0, 0, 0, 0, 0, 0])?; // phoff
    image.extend_from_slice(&[0; 12])?; // shoff, flags
    image.extend_from_slice(&[64, 0, 56, 0])?; // ehsize, phentsize
    image.extend_from_slice(&count.to_le_bytes())?; // phnum
    image.extend_from_slice(&[0; 6])?; // the section fields
    for header in headers {
        push_header(&mut image, header)?;
    }
    image.extend_from_slice(content)?;
    for relocation in relocations {
        push_relocation(&mut image, relocation)?;
    }
    Ok(image)
}

// The base image.
fn base(alloc: Global) -> Result<Vec<u8>, Fail> {
    let headers = [
        segment(5, 232, 0, 8, 8),
        segment(6, 240, 8192, 40, 5000),
        table(280, 80),
    ];
    image_of(alloc, 4, &headers, &CONTENT, &RELOCATIONS)
}

// The program's image: its bytes begin at byte 4096.
fn hi(alloc: Global) -> Result<Vec<u8>, Fail> {
    let mut image = image_of(alloc, 0, &[segment(5, 4096, 0, 35, 35)], &[], &[])?;
    image.resize(4096, 0)?;
    image.extend_from_slice(&HI)?;
    Ok(image)
}

// Changes a field of a file.
fn change(bytes: &mut [u8], (place, size, number): Change) {
    for (index, byte) in number.to_le_bytes().into_iter().enumerate().take(size) {
        if let Some(old) = bytes.get_mut(place.saturating_add(index)) {
            *old = byte;
        }
    }
}

// The base image with one field changed.
fn changed(alloc: Global, field: Change) -> Result<Vec<u8>, Fail> {
    let mut image = base(alloc)?;
    change(&mut image, field);
    Ok(image)
}

// What the file breaks first, if anything.
fn fault_of(alloc: Global, bytes: &[u8]) -> Option<ImageRefusal> {
    read_image(alloc, bytes).err()
}

fn refused(reason: ImageReason, place: u64) -> Option<ImageRefusal> {
    Some(ImageRefusal::Fault(ImageFault { reason, place }))
}

fn read(alloc: Global, bytes: &[u8]) -> Result<Image, Fail> {
    read_image(alloc, bytes).map_err(|_refusal| Fail::from("not read"))
}

fn counts(image: &Image) -> Counts {
    (
        image.entry,
        image.pages,
        image.segments.list().len(),
        image.relocs.list().len(),
    )
}

// Each change of the base image is refused as it says.
fn check_refused(rt: &(impl Abort + AllocGlobal), rows: &[Refused]) -> Result<(), Fail> {
    for &(field, reason, place) in rows {
        let image = changed(rt.alloc(), field)?;
        assert_eq!(rt;
            fault_of(rt.alloc(), &image),
            refused(reason, place),
            "{field:?}"
        );
    }
    Ok(())
}

// After each change of the base image it is read as it says.
fn check_accepted(rt: &(impl Abort + AllocGlobal), rows: &[Accepted]) -> Result<(), Fail> {
    for &(field, want) in rows {
        let image = changed(rt.alloc(), field)?;
        assert_eq!(rt; fault_of(rt.alloc(), &image), None, "{field:?}");
        assert_eq!(rt; counts(&read(rt.alloc(), &image)?), want, "{field:?}");
    }
    Ok(())
}

// The file is read as the base image is.
fn check_base(rt: &(impl Abort + AllocGlobal), bytes: &[u8]) -> Result<(), Fail> {
    assert_eq!(rt; fault_of(rt.alloc(), bytes), None);
    let image = read(rt.alloc(), bytes)?;
    assert_eq!(rt; counts(&image), BASE);
    assert_eq!(rt; image.segments.list(), SEGMENTS.as_slice());
    assert_eq!(rt; image.relocs.list(), RELOCATIONS.as_slice());
    Ok(())
}

#[test]
fn the_base_image_is_read_whole(rt: HostRuntime) -> Result<(), Fail> {
    let image = base(rt.alloc())?;
    assert_eq!(rt; image.len(), 360);
    check_base(&rt, &image)
}

#[test]
fn fields_that_are_not_read_hold_anything(rt: HostRuntime) -> Result<(), Fail> {
    let fields = [
        (40, 8), // shoff
        (58, 2), // the section fields
        (60, 2),
        (62, 2),
        (88, 8), // paddr and align of the segments
        (112, 8),
        (144, 8),
        (168, 8),
        (180, 4), // flags, vaddr, paddr, memsz and align of the table
        (192, 8),
        (200, 8),
        (216, 8),
        (224, 8),
    ];
    let mut image = base(rt.alloc())?;
    for (place, size) in fields {
        change(&mut image, (place, size, u64::MAX));
        check_base(&rt, &image)?;
    }
    image.extend_from_slice(&[0xff; 3])?; // behind all that a header names
    check_base(&rt, &image)
}

#[test]
fn bytes_between_the_parts_hold_anything(rt: HostRuntime) -> Result<(), Fail> {
    let mut image = hi(rt.alloc())?;
    for place in 120..4096 {
        change(&mut image, (place, 1, 0xff));
    }
    assert_eq!(rt; fault_of(rt.alloc(), &image), None);
    let image = read(rt.alloc(), &image)?;
    assert_eq!(rt; counts(&image), (0, 1, 1, 0));
    let want = Segment {
        start: 0,
        size: 35,
        from: 4096,
        file_size: 35,
        rights: 5,
    };
    assert_eq!(rt; image.segments.list(), [want].as_slice());
    Ok(())
}

#[test]
fn each_byte_of_the_identification_counts(rt: HostRuntime) -> Result<(), Fail> {
    for place in 0..16 {
        let image = changed(rt.alloc(), (place, 1, 0x80))?;
        let want = refused(ImageReason::BadMagic, place as u64);
        assert_eq!(rt; fault_of(rt.alloc(), &image), want, "{place}");
    }
    Ok(())
}

#[test]
fn fields_of_the_file_header_are_fixed(rt: HostRuntime) -> Result<(), Fail> {
    let rows = [
        ((16, 2, 2), ImageReason::BadHeader, 16), // type
        ((17, 1, 1), ImageReason::BadHeader, 16),
        ((18, 2, 62), ImageReason::BadHeader, 18), // machine
        ((19, 1, 1), ImageReason::BadHeader, 18),
        ((20, 4, 0), ImageReason::BadHeader, 20), // version
        ((23, 1, 1), ImageReason::BadHeader, 20),
        ((32, 8, 120), ImageReason::BadHeader, 32), // phoff
        ((39, 1, 1), ImageReason::BadHeader, 32),
        ((48, 4, 5), ImageReason::BadHeader, 48), // flags
        ((51, 1, 1), ImageReason::BadHeader, 48),
        ((52, 2, 52), ImageReason::BadHeader, 52), // ehsize
        ((53, 1, 1), ImageReason::BadHeader, 52),
        ((54, 2, 32), ImageReason::BadHeader, 54), // phentsize
        ((55, 1, 1), ImageReason::BadHeader, 54),
        ((56, 2, 0), ImageReason::BadHeader, 56), // phnum
        ((56, 2, 17), ImageReason::BadHeader, 56),
        ((57, 1, 1), ImageReason::BadHeader, 56),
        ((56, 2, 16), ImageReason::Truncated, 360), // headers up to byte 960
        ((56, 2, 6), ImageReason::Truncated, 360), // headers up to byte 400
        ((56, 2, 5), ImageReason::UnknownType, 232), // headers up to byte 344
    ];
    check_refused(&rt, &rows)
}

#[test]
fn headers_of_segments_follow_their_rules(rt: HostRuntime) -> Result<(), Fail> {
    let rows = [
        ((64, 4, 2), ImageReason::UnknownType, 64),
        ((64, 4, TABLE - 1), ImageReason::UnknownType, 64),
        ((67, 1, 0x6b), ImageReason::BadSize, 96), // a table of 8 bytes
        ((68, 4, 8), ImageReason::BadFlags, 68),
        ((68, 4, 3), ImageReason::BadFlags, 68),
        ((71, 1, 1), ImageReason::BadFlags, 68),
        ((80, 8, 1), ImageReason::BadAddress, 80),
        ((80, 8, 4095), ImageReason::BadAddress, 80),
        ((80, 8, 1048576), ImageReason::BadAddress, 80),
        ((87, 1, 0x80), ImageReason::BadAddress, 80),
        ((104, 8, 0), ImageReason::BadSize, 104),
        ((104, 8, 1048577), ImageReason::BadSize, 104),
        ((111, 1, 0x80), ImageReason::BadSize, 104),
        ((96, 8, 9), ImageReason::BadSize, 96),
        ((103, 1, 0x80), ImageReason::BadSize, 96),
        ((72, 8, 361), ImageReason::FileRange, 72),
        ((72, 8, 353), ImageReason::FileRange, 72),
        ((72, 8, u64::MAX - 3), ImageReason::FileRange, 72), // 4 past 2^64
        ((104, 8, 8193), ImageReason::Overlap, 136), // up to 12288
        ((120, 4, 3), ImageReason::UnknownType, 120),
        ((124, 4, 2), ImageReason::BadFlags, 124),
        ((136, 8, 8191), ImageReason::BadAddress, 136),
        ((160, 8, 0), ImageReason::BadSize, 160),
        ((160, 8, 1040385), ImageReason::BadSize, 160), // 1 past the region
        ((152, 8, 5001), ImageReason::BadSize, 152),
        ((136, 8, 0), ImageReason::Overlap, 136),
        ((128, 8, 321), ImageReason::FileRange, 128),
        ((128, 8, u64::MAX - 39), ImageReason::FileRange, 128), // 0 past 2^64
    ];
    check_refused(&rt, &rows)
}

#[test]
fn segments_reach_as_far_as_their_rules_let_them(rt: HostRuntime) -> Result<(), Fail> {
    let rows = [
        ((68, 4, 7), BASE),
        ((124, 4, 4), BASE),
        ((72, 8, 0), BASE), // the headers' own bytes
        ((72, 8, 352), BASE),
        ((96, 8, 0), BASE), // nothing in the file
        ((104, 8, 4096), BASE),
        ((104, 8, 4097), (4, 4, 2, 2)),
        ((104, 8, 8192), (4, 4, 2, 2)), // up to the next segment
        ((160, 8, 8192), BASE),
        ((160, 8, 8193), (4, 4, 2, 2)),
        ((160, 8, 1040384), (4, 255, 2, 2)), // up to the region's end
        ((176, 4, 0), (4, 3, 2, 0)), // no table
    ];
    check_accepted(&rt, &rows)
}

#[test]
fn the_header_of_the_table_follows_its_rules(rt: HostRuntime) -> Result<(), Fail> {
    let rows = [
        ((176, 4, TABLE + 1), ImageReason::UnknownType, 176),
        ((120, 4, TABLE), ImageReason::SecondTable, 176), // the first has the 40 bytes of a segment
        ((208, 8, 79), ImageReason::BadSize, 208),
        ((208, 8, 81), ImageReason::BadSize, 208),
        ((208, 8, 2621480), ImageReason::BadSize, 208), // 65537 relocations
        ((208, 8, 2621440), ImageReason::FileRange, 184), // 65536
        ((208, 8, 120), ImageReason::FileRange, 184),
        ((184, 8, 281), ImageReason::FileRange, 184),
        ((184, 8, 361), ImageReason::FileRange, 184),
        ((184, 8, u64::MAX - 39), ImageReason::FileRange, 184), // 40 past 2^64
    ];
    check_refused(&rt, &rows)?;
    check_accepted(
        &rt,
        &[((208, 8, 40), (4, 3, 2, 1)), ((208, 8, 0), (4, 3, 2, 0))],
    )
}

#[test]
fn the_entry_is_a_word_on_a_page_that_is_executed(rt: HostRuntime) -> Result<(), Fail> {
    let rows = [
        ((24, 8, 1), ImageReason::BadEntry, 24),
        ((24, 8, 6), ImageReason::BadEntry, 24),
        ((24, 8, 4096), ImageReason::BadEntry, 24), // on no page
        ((24, 8, 8192), ImageReason::BadEntry, 24), // on a page without the right
        ((31, 1, 0x80), ImageReason::BadEntry, 24),
        ((68, 4, 4), ImageReason::BadEntry, 24),
        ((68, 4, 6), ImageReason::BadEntry, 24),
        ((64, 4, 0), ImageReason::BadEntry, 24),
    ];
    check_refused(&rt, &rows)?;
    // the page's last word, behind the segment's end, and the second page of a segment
    check_accepted(&rt, &[((24, 8, 4092), (4092, 3, 2, 2))])?;
    let image = image_of(rt.alloc(), 4096, &[segment(5, 0, 0, 8, 4097)], &[], &[])?;
    assert_eq!(rt; counts(&read(rt.alloc(), &image)?), (4096, 2, 1, 0));
    Ok(())
}

#[test]
fn relocations_stand_on_pages_in_rising_order(rt: HostRuntime) -> Result<(), Fail> {
    let rows = [
        ((280, 8, 8200), ImageReason::BadPlace, 280), // no multiple of 16
        ((280, 8, 4096), ImageReason::BadPlace, 280), // between the segments
        ((280, 8, 16384), ImageReason::BadPlace, 280), // behind them
        ((287, 1, 0x80), ImageReason::BadPlace, 280),
        ((120, 4, 0), ImageReason::BadPlace, 280), // no segment there
        ((280, 8, 16368), ImageReason::BadPlace, 320), // equal to the second
        ((320, 8, 8192), ImageReason::BadPlace, 320), // equal to the first
        ((320, 8, 0), ImageReason::BadPlace, 320), // falling
        ((320, 8, 16376), ImageReason::BadPlace, 320),
        ((320, 8, 16384), ImageReason::BadPlace, 320),
    ];
    check_refused(&rt, &rows)?;
    let rows = [
        ((280, 8, 0), BASE),
        ((280, 8, 4080), BASE), // in the first page's tail
        ((280, 8, 16352), BASE),
        ((320, 8, 8208), BASE),
    ];
    check_accepted(&rt, &rows)
}

#[test]
fn bounds_of_relocations_lie_in_the_region_and_are_exact(rt: HostRuntime) -> Result<(), Fail> {
    let rows = [
        ((288, 8, 1048576), ImageReason::BadBounds, 288), // 32 bytes from the region's end on
        ((295, 1, 0x80), ImageReason::BadBounds, 288),
        ((296, 8, 4097), ImageReason::BadBounds, 288), // not exact: no multiple of 8
        ((296, 8, 1040385), ImageReason::BadBounds, 288), // 1 past the region
        ((296, 8, 1041408), ImageReason::BadBounds, 288), // 1024 past it, and exact
        ((296, 8, u64::MAX), ImageReason::BadBounds, 288),
        ((328, 8, 1048577), ImageReason::BadBounds, 328), // empty bounds behind the region
        ((336, 8, 1), ImageReason::BadBounds, 328),
    ];
    check_refused(&rt, &rows)?;
    let rows = [
        ((288, 8, 8191), BASE), // bounds below 4096 bytes are always exact
        ((288, 8, 1048544), BASE), // up to the region's end
        ((296, 8, 4095), BASE),
        ((296, 8, 4096), BASE),
        ((296, 8, 4104), BASE),
        ((296, 8, 1040384), BASE), // multiples of 1024, up to the region's end
        ((328, 8, 0), BASE),
    ];
    check_accepted(&rt, &rows)
}

#[test]
fn addresses_and_permissions_of_relocations_follow_their_rules(
    rt: HostRuntime,
) -> Result<(), Fail> {
    let rows = [
        ((304, 8, 33), ImageReason::BadOffset, 304),
        ((304, 8, u64::MAX), ImageReason::BadOffset, 304),
        ((296, 8, 15), ImageReason::BadOffset, 304),
        ((344, 8, 1), ImageReason::BadOffset, 344),
        ((312, 8, 1), ImageReason::BadPerms, 312),
        ((312, 8, 0x7c), ImageReason::BadPerms, 312),
        ((319, 1, 0x80), ImageReason::BadPerms, 312),
        ((352, 8, 3), ImageReason::BadPerms, 352),
    ];
    check_refused(&rt, &rows)?;
    let rows = [
        ((304, 8, 0), BASE),
        ((304, 8, 32), BASE), // the top
        ((312, 8, 0), BASE),
        ((312, 8, 0x3e), BASE),
    ];
    check_accepted(&rt, &rows)
}

// The rules of relocations, the last one first, as changes that break them one after another.
const LATE: [Refused; 9] = [
    ((352, 8, 1), ImageReason::BadPerms, 352),
    ((344, 8, 1), ImageReason::BadOffset, 344),
    ((328, 8, 1048577), ImageReason::BadBounds, 328),
    ((320, 8, 0), ImageReason::BadPlace, 320),
    ((312, 8, 1), ImageReason::BadPerms, 312),
    ((304, 8, 33), ImageReason::BadOffset, 304),
    ((288, 8, 1048577), ImageReason::BadBounds, 288),
    ((280, 8, 1), ImageReason::BadPlace, 280),
    ((24, 8, 2), ImageReason::BadEntry, 24),
];

// Those of the program headers.
const MIDDLE: [Refused; 15] = [
    ((184, 8, 361), ImageReason::FileRange, 184),
    ((208, 8, 1), ImageReason::BadSize, 208),
    ((176, 4, 2), ImageReason::UnknownType, 176),
    ((128, 8, 361), ImageReason::FileRange, 128),
    ((136, 8, 0), ImageReason::Overlap, 136),
    ((152, 8, 5001), ImageReason::BadSize, 152),
    ((160, 8, 0), ImageReason::BadSize, 160),
    ((136, 8, 1), ImageReason::BadAddress, 136),
    ((124, 4, 8), ImageReason::BadFlags, 124),
    ((120, 4, 2), ImageReason::UnknownType, 120),
    ((72, 8, 361), ImageReason::FileRange, 72),
    ((96, 8, 9), ImageReason::BadSize, 96),
    ((104, 8, 0), ImageReason::BadSize, 104),
    ((80, 8, 1), ImageReason::BadAddress, 80),
    ((68, 4, 0), ImageReason::BadFlags, 68),
];

// Those that come before.
const EARLY: [Refused; 12] = [
    ((64, 4, 2), ImageReason::UnknownType, 64),
    ((56, 2, 16), ImageReason::Truncated, 360),
    ((56, 2, 17), ImageReason::BadHeader, 56),
    ((54, 2, 0), ImageReason::BadHeader, 54),
    ((52, 2, 0), ImageReason::BadHeader, 52),
    ((48, 4, 1), ImageReason::BadHeader, 48),
    ((32, 8, 0), ImageReason::BadHeader, 32),
    ((20, 4, 0), ImageReason::BadHeader, 20),
    ((18, 2, 0), ImageReason::BadHeader, 18),
    ((16, 2, 0), ImageReason::BadHeader, 16),
    ((15, 1, 1), ImageReason::BadMagic, 15),
    ((0, 1, 0), ImageReason::BadMagic, 0),
];

// Makes these changes one after another, and each is what is told then.
fn check_first(
    rt: &(impl Abort + AllocGlobal),
    image: &mut [u8],
    rows: &[Refused],
) -> Result<(), Fail> {
    for &(field, reason, place) in rows {
        change(image, field);
        assert_eq!(rt;
            fault_of(rt.alloc(), image),
            refused(reason, place),
            "{field:?}"
        );
    }
    Ok(())
}

#[test]
fn of_several_broken_rules_the_first_is_told(rt: HostRuntime) -> Result<(), Fail> {
    let mut image = base(rt.alloc())?;
    check_first(&rt, &mut image, &LATE)?;
    check_first(&rt, &mut image, &MIDDLE)?;
    check_first(&rt, &mut image, &EARLY)?;
    image.truncate(63);
    assert_eq!(rt;
        fault_of(rt.alloc(), &image),
        refused(ImageReason::Truncated, 63)
    );
    Ok(())
}

#[test]
fn a_file_that_is_cut_short_is_refused(rt: HostRuntime) -> Result<(), Fail> {
    // from which length on, up to below which, and the header whose part is cut
    let parts = [(232, 240, 72), (240, 280, 128), (280, 360, 184)];
    for length in 0..232 {
        let mut image = base(rt.alloc())?;
        image.truncate(length);
        let want = refused(ImageReason::Truncated, length as u64);
        assert_eq!(rt; fault_of(rt.alloc(), &image), want, "{length}");
    }
    for (from, to, place) in parts {
        for length in from..to {
            let mut image = base(rt.alloc())?;
            image.truncate(length);
            let want = refused(ImageReason::FileRange, place);
            assert_eq!(rt; fault_of(rt.alloc(), &image), want, "{length}");
        }
    }
    Ok(())
}

#[test]
fn a_program_that_is_cut_short_is_refused(rt: HostRuntime) -> Result<(), Fail> {
    let mut image = hi(rt.alloc())?;
    assert_eq!(rt; image.len(), 4131);
    assert_eq!(rt; counts(&read(rt.alloc(), &image)?), (0, 1, 1, 0));
    for cut in 1..=4131 {
        let length = 4131 - cut;
        image.truncate(length);
        let want = if length < 120 {
            refused(ImageReason::Truncated, length as u64)
        } else {
            refused(ImageReason::FileRange, 72)
        };
        assert_eq!(rt; fault_of(rt.alloc(), &image), want, "{length}");
    }
    Ok(())
}

#[test]
fn a_program_with_another_byte_is_refused(rt: HostRuntime) -> Result<(), Fail> {
    let rows = [
        (0, 0, ImageReason::BadMagic, 0),
        (16, 2, ImageReason::BadHeader, 16),
        (24, 2, ImageReason::BadEntry, 24),
        (64, 0, ImageReason::NoSegment, 56),
        (68, 8, ImageReason::BadFlags, 68),
        (80, 1, ImageReason::BadAddress, 80),
        (96, 36, ImageReason::BadSize, 96),
        (104, 0, ImageReason::BadSize, 104),
    ];
    for (place, byte, reason, at) in rows {
        let mut image = hi(rt.alloc())?;
        change(&mut image, (place, 1, byte));
        assert_eq!(rt;
            fault_of(rt.alloc(), &image),
            refused(reason, at),
            "{byte} at {place}"
        );
    }
    Ok(())
}

#[test]
fn an_image_has_at_most_sixteen_segments(rt: HostRuntime) -> Result<(), Fail> {
    // page by page, with the entry on the last one
    let mut headers = Vec::new(rt.alloc());
    for page in 0..16 {
        headers.push(segment(5, 8 * page, 4096 * page, 8, 8 + page))?;
    }
    let image = image_of(rt.alloc(), 61440, &headers, &[], &[])?;
    let image = read(rt.alloc(), &image)?;
    assert_eq!(rt; counts(&image), (61440, 16, 16, 0));
    for page in 0..16_u64 {
        let want = (4096 * page, 8 + page, 8 * page, 8, 5);
        let found = image
            .segments
            .list()
            .get(page as usize)
            .ok_or("no segment")?;
        let found = (
            found.start,
            found.size,
            found.from,
            found.file_size,
            found.rights,
        );
        assert_eq!(rt; found, want);
    }
    headers.push(segment(5, 0, 65536, 8, 8))?;
    let image = image_of(rt.alloc(), 0, &headers, &[], &[])?;
    assert_eq!(rt;
        fault_of(rt.alloc(), &image),
        refused(ImageReason::BadHeader, 56)
    );
    Ok(())
}

#[test]
fn headers_that_are_skipped_count_as_places(rt: HostRuntime) -> Result<(), Fail> {
    let headers = [
        SKIPPED,
        table(448, 80),
        SKIPPED,
        segment(5, 400, 0, 8, 8),
        SKIPPED,
        segment(6, 408, 8192, 40, 5000),
    ];
    let mut image = image_of(rt.alloc(), 4, &headers, &CONTENT, &RELOCATIONS)?;
    assert_eq!(rt; image.len(), 528);
    {
        let image = read(rt.alloc(), &image)?;
        assert_eq!(rt; counts(&image), BASE);
        let froms = [400, 408];
        for ((found, base), from) in image.segments.list().iter().zip(SEGMENTS).zip(froms) {
            assert_eq!(rt; *found, Segment { from, ..base });
        }
        assert_eq!(rt; image.relocs.list(), RELOCATIONS.as_slice());
    }
    // the last rules that fail first: the second relocation, the two segments, the table
    let rows = [
        ((520, 8, 1), ImageReason::BadPerms, 520),
        ((344 + 16, 8, 0), ImageReason::Overlap, 360),
        ((232 + 4, 4, 0), ImageReason::BadFlags, 236),
        ((120 + 8, 8, 449), ImageReason::FileRange, 128),
    ];
    check_first(&rt, &mut image, &rows)
}

// Program headers, and the reason and the place of the refusal.
type Listed<'a> = (&'a [ProgramHeader], ImageReason, u64);

// Each file of these headers is refused as it says.
fn check_listed(rt: &(impl Abort + AllocGlobal), rows: &[Listed<'_>]) -> Result<(), Fail> {
    for (headers, reason, place) in rows {
        let image = image_of(rt.alloc(), 0, headers, &[], &[])?;
        let want = refused(*reason, *place);
        assert_eq!(rt; fault_of(rt.alloc(), &image), want, "{headers:?}");
    }
    Ok(())
}

#[test]
fn no_page_is_in_two_segments(rt: HostRuntime) -> Result<(), Fail> {
    let first = segment(5, 0, 0, 8, 4097);
    let second = segment(5, 0, 4096, 8, 8);
    let rows: [Listed<'_>; 5] = [
        (&[first, second, SKIPPED], ImageReason::Overlap, 136), // the second page
        (&[first, SKIPPED, second], ImageReason::Overlap, 192),
        (&[first, table(0, 0), second], ImageReason::Overlap, 192),
        (&[first, first, SKIPPED], ImageReason::Overlap, 136),
        (&[second, SKIPPED, first], ImageReason::Overlap, 192), // falling
    ];
    check_listed(&rt, &rows)?;
    let image = image_of(
        rt.alloc(),
        0,
        &[segment(5, 0, 0, 8, 4096), second],
        &[],
        &[],
    )?;
    assert_eq!(rt; counts(&read(rt.alloc(), &image)?), (0, 2, 2, 0));
    Ok(())
}

#[test]
fn there_is_a_segment_and_at_most_one_table(rt: HostRuntime) -> Result<(), Fail> {
    let code = segment(5, 0, 0, 8, 8);
    let empty = table(0, 0);
    let rows: [Listed<'_>; 4] = [
        (&[empty, code, empty], ImageReason::SecondTable, 176),
        (&[code, empty, table(0, 1)], ImageReason::SecondTable, 176), // before its size
        (&[SKIPPED, empty, SKIPPED], ImageReason::NoSegment, 56),
        (&[SKIPPED, SKIPPED, SKIPPED], ImageReason::NoSegment, 56),
    ];
    check_listed(&rt, &rows)
}

#[test]
fn a_segment_may_be_the_whole_region(rt: HostRuntime) -> Result<(), Fail> {
    let whole = Reloc {
        place: 1048560,
        base: 0,
        length: 1048576,
        offset: 1048576,
        perms: 0x3e,
    };
    let headers = [segment(7, 216, 0, 0, 1048576), table(176, 40)];
    let image = image_of(rt.alloc(), 1048572, &headers, &[], &[whole])?;
    assert_eq!(rt; image.len(), 216);
    let image = read(rt.alloc(), &image)?;
    assert_eq!(rt; counts(&image), (1048572, 256, 1, 1));
    assert_eq!(rt; image.relocs.list(), [whole].as_slice());
    Ok(())
}

#[test]
fn a_file_has_at_most_four_mebibytes(rt: HostRuntime) -> Result<(), Fail> {
    let mut bytes = vec![in rt.alloc(); 0_u8; 4194305]?;
    assert_eq!(rt;
        fault_of(rt.alloc(), &bytes),
        refused(ImageReason::TooLong, 4194304)
    );
    bytes.truncate(4194304);
    assert_eq!(rt;
        fault_of(rt.alloc(), &bytes),
        refused(ImageReason::BadMagic, 0)
    );
    // the base image, and zeros up to that length
    let mut image = base(rt.alloc())?;
    image.resize(4194304, 0)?;
    check_base(&rt, &image)?;
    image.push(0)?;
    assert_eq!(rt;
        fault_of(rt.alloc(), &image),
        refused(ImageReason::TooLong, 4194304)
    );
    Ok(())
}
