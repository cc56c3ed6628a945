// Files that are no images: the line of the first rule that each breaks. Nothing is run then.
use crate::files::{Change, TABLE, change, image_with, image_with_code, relocation, segment};
use crate::images::{HI, image_of};
use crate::runs::{Given, RUN, check_file};
use std::alloc::Global;
use std::process::Abort;
use std::test::Fail;

// A field that is changed, and the reason and the place that are told.
type Row = (Change, &'static str);

// The file is refused for this reason, at this place. Where its line is not written nothing is.
fn check_refused(rt: &(impl Abort + AllocGlobal), file: &[u8], reason: &str) -> Result<(), Fail> {
    let line = format!(in rt.alloc(); "ufork: image refused: {reason}\n")?;
    check_file(rt, reason, file, RUN, (4, b"", line.as_bytes()))
}

// After each change alone the file is refused.
fn check_changed(rt: &(impl Abort + AllocGlobal), file: &[u8], rows: &[Row]) -> Result<(), Fail> {
    for &(field, reason) in rows {
        let mut changed = Vec::new(rt.alloc());
        changed.extend_from_slice(file)?;
        change(&mut changed, field);
        check_refused(rt, &changed, reason)?;
    }
    Ok(())
}

// Two segments of one page, of 35 and 40 bytes, and one relocation behind the 35 bytes. The relocation stands at byte 8232 of the file.
fn with_table(alloc: Global) -> Result<Vec<u8>, Fail> {
    image_with_code(
        alloc,
        &HI,
        &[segment(4096, 6, &[0; 40], 40)],
        &[relocation(48, 4096, 16, 0)],
    )
}

#[test]
fn the_base_files_are_images(rt: HostRuntime) -> Result<(), Fail> {
    let want: (u8, &[u8], &[u8]) = (0, b"hi\n", b"exit 1 0\ndone 8\n");
    let hi = image_of(rt.alloc(), &HI)?;
    assert_eq!(rt; hi.len(), 4131);
    check_file(&rt, "hi", &hi, RUN, want)?;
    let file = with_table(rt.alloc())?;
    assert_eq!(rt; file.len(), 8272);
    check_file(&rt, "with a table", &file, RUN, want)
}

#[test]
fn a_file_that_is_cut_short_is_refused(rt: HostRuntime) -> Result<(), Fail> {
    let rows: [(usize, &'static str); 12] = [
        (0, "Truncated at 0"),
        (1, "Truncated at 1"),
        (63, "Truncated at 63"),
        (64, "Truncated at 64"),
        (100, "Truncated at 100"),
        (119, "Truncated at 119"),
        (120, "FileRange at 72"),
        (121, "FileRange at 72"),
        (4095, "FileRange at 72"),
        (4096, "FileRange at 72"),
        (4097, "FileRange at 72"),
        (4130, "FileRange at 72"),
    ];
    for (length, reason) in rows {
        let mut file = image_of(rt.alloc(), &HI)?;
        file.truncate(length);
        check_refused(&rt, &file, reason)?;
    }
    Ok(())
}

#[test]
fn a_file_of_zeros_is_refused(rt: HostRuntime) -> Result<(), Fail> {
    check_refused(&rt, &vec![in rt.alloc(); 0_u8; 5]?, "Truncated at 5")?;
    check_refused(&rt, &vec![in rt.alloc(); 0_u8; 8193]?, "BadMagic at 0")
}

#[test]
fn a_file_that_is_too_long_is_refused(rt: HostRuntime) -> Result<(), Fail> {
    // Zeros, and an image with zeros behind it.
    let zeros = vec![in rt.alloc(); 0_u8; 4194305]?;
    check_refused(&rt, &zeros, "TooLong at 4194304")?;
    let mut file = image_of(rt.alloc(), &HI)?;
    file.resize(4194305, 0)?;
    check_refused(&rt, &file, "TooLong at 4194304")
}

#[test]
fn a_file_of_the_longest_length_is_run(rt: HostRuntime) -> Result<(), Fail> {
    let mut file = image_of(rt.alloc(), &HI)?;
    file.resize(4194304, 0)?;
    check_file(
        &rt,
        "longest",
        &file,
        RUN,
        (0, b"hi\n", b"exit 1 0\ndone 8\n"),
    )
}

#[test]
fn another_byte_of_a_header_is_refused(rt: HostRuntime) -> Result<(), Fail> {
    let rows: [Row; 9] = [
        ((0, 1, 0), "BadMagic at 0"),
        ((16, 1, 2), "BadHeader at 16"),
        ((24, 1, 2), "BadEntry at 24"),
        ((64, 1, 0), "NoSegment at 56"),
        ((64, 1, 2), "UnknownType at 64"),
        ((68, 1, 8), "BadFlags at 68"),
        ((80, 1, 1), "BadAddress at 80"),
        ((96, 1, 36), "BadSize at 96"),
        ((104, 1, 0), "BadSize at 104"),
    ];
    check_changed(&rt, &image_of(rt.alloc(), &HI)?, &rows)
}

#[test]
fn a_table_with_another_field_is_refused(rt: HostRuntime) -> Result<(), Fail> {
    let rows: [Row; 9] = [
        ((120, 4, TABLE), "SecondTable at 176"), // with the 40 bytes of the segment
        ((208, 8, 41), "BadSize at 208"),
        ((184, 8, 8233), "FileRange at 184"),
        ((8232, 8, 49), "BadPlace at 8232"),
        ((8232, 8, 8192), "BadPlace at 8232"),
        ((8240, 8, 1048577), "BadBounds at 8240"),
        ((8248, 8, 4097), "BadBounds at 8240"), // not exact
        ((8256, 8, 17), "BadOffset at 8256"),
        ((8264, 8, 1), "BadPerms at 8264"),
    ];
    check_changed(&rt, &with_table(rt.alloc())?, &rows)
}

#[test]
fn segments_on_one_page_are_refused(rt: HostRuntime) -> Result<(), Fail> {
    let parts = [segment(0, 5, &HI, 4097), segment(4096, 5, &[0], 1)];
    let file = image_with(rt.alloc(), 0, &parts, &[])?;
    check_refused(&rt, &file, "Overlap at 136")
}

#[test]
fn of_two_broken_rules_the_first_is_told(rt: HostRuntime) -> Result<(), Fail> {
    let mut file = with_table(rt.alloc())?;
    let rows: [Row; 4] = [
        ((8264, 8, 1), "BadPerms at 8264"),
        ((24, 8, 4096), "BadEntry at 24"), // on a page without the right to execute
        ((136, 8, 0), "Overlap at 136"),
        ((20, 4, 2), "BadHeader at 20"),
    ];
    for (field, reason) in rows {
        change(&mut file, field);
        check_refused(&rt, &file, reason)?;
    }
    Ok(())
}

#[test]
fn a_refusal_whose_line_is_not_written_is_a_write_fault(rt: HostRuntime) -> Result<(), Fail> {
    let rows: [(usize, &'static str); 3] = [(0, "empty"), (100, "Truncated"), (4130, "FileRange")];
    for (length, case) in rows {
        let mut file = image_of(rt.alloc(), &HI)?;
        file.truncate(length);
        let fails = Given {
            err_fails: Some(0),
            ..RUN
        };
        check_file(&rt, case, &file, fails, (7, b"", b""))?;
        let has_no_room = Given { err_room: 0, ..RUN };
        check_file(&rt, case, &file, has_no_room, (7, b"", b""))?;
    }
    Ok(())
}
