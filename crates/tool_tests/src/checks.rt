// Lines on images, and files that are none.
use crate::calls::{Given, assembled, check, with_words};
use crate::sources::HI;
use std::test::Fail;

// Two segments, and a list of two elements that point to one another.
const LIST: &[u8] =
    b".segment 0x1000 rx\nnop: ecall\nstart: ecall\n.entry start\n.segment 0x3000 rw\na: .cap b, 32, 0, 0x3c\n.align 16\nb: .cap a, 16, 16, 0x3c\n.bss 4096\n";

#[test]
fn a_line_tells_pages_relocations_and_entry(rt: HostRuntime) -> Result<(), Fail> {
    let hi = assembled(&rt, HI)?;
    let want = b"image 1 pages 0 relocations entry 0\n";
    check(&rt, &hi, with_words("check f"), (0, want, b""))?;
    let list = assembled(&rt, LIST)?;
    let want = b"image 3 pages 2 relocations entry 4100\n";
    check(&rt, &list, with_words("check f"), (0, want, b""))
}

#[test]
fn a_file_that_is_no_image_is_refused(rt: HostRuntime) -> Result<(), Fail> {
    let hi = assembled(&rt, HI)?;
    for words in ["check f", "disasm f"] {
        let want = b"ufork: image refused: Truncated at 0\n";
        check(&rt, b"", with_words(words), (4, b"", want))?;
        let want = b"ufork: image refused: Truncated at 100\n";
        check(
            &rt,
            hi.get(..100).unwrap_or(b""),
            with_words(words),
            (4, b"", want),
        )?;
        let want = b"ufork: image refused: BadMagic at 0\n";
        check(
            &rt,
            hi.get(4..).unwrap_or(b""),
            with_words(words),
            (4, b"", want),
        )?;
        let cut = Given {
            err_fails: Some(0),
            ..with_words(words)
        };
        check(&rt, b"", cut, (7, b"", b""))?;
    }
    Ok(())
}

#[test]
fn a_line_on_an_image_may_be_cut(rt: HostRuntime) -> Result<(), Fail> {
    let hi = assembled(&rt, HI)?;
    let cut = Given {
        out_fails: Some(0),
        ..with_words("check f")
    };
    check(&rt, &hi, cut, (7, b"", b""))
}
