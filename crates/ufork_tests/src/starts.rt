// The start of an image in a space of few frames.
ghost use Rattle.contents.specs.Conditions.{HasStore};
ghost use Rattle.stores.specs.Known.{StandsFor};
ghost use Rattle.full_space.specs.Full.{FullStands};

use crate::files::{image_with_code, relocation, segment};
use crate::images::HI;
use cap_format::{Cap, PAGE_GRANULES, REGION_PAGES};
use elf_loader::{read_image, start};
use full_space::FullSpace;
use std::alloc::Global;
use std::test::Fail;
use stores::{Board, Stores};

// PCC at the start of the region: the whole region, to execute and to load with tags.
const CODE: Cap = Cap {
    bits: 0x0016_0000_0400_4000_0000_0001_0000_0000,
    tag: true,
};

// Bits without a tag, and with one.
fn untagged(bits: u128) -> Cap {
    Cap { bits, tag: false }
}

fn tagged(bits: u128) -> Cap {
    Cap { bits, tag: true }
}

// An image of two pages: the code, and page 1 with four letters, whose second granule has a relocation.
fn two_pages(alloc: Global) -> Result<Vec<u8>, Fail> {
    image_with_code(
        alloc,
        &HI,
        &[segment(4096, 6, b"abcd", 40)],
        &[relocation(4112, 8, 256, 4)],
    )
}

// What a page holds at a granule, where there are such.
fn granule_of(space: &FullSpace, page: u32, granule: u32) -> Option<Cap>
    requires { ∥ StandsFor FullStands space.now (HasStore 0) ∥₁ }
{
    if page >= REGION_PAGES || granule >= PAGE_GRANULES as u32 {
        return None;
    }
    space.peek(0, page, granule)
}

#[test]
fn an_image_of_two_pages_is_not_started_on_one_frame(rt: HostRuntime) -> Result<(), Fail> {
    let file = two_pages(rt.alloc())?;
    let Ok(image) = read_image(rt.alloc(), &file) else {
        return Err(Fail::from("not read"));
    };
    let mut space = FullSpace::new(Board::new(rt.alloc(), 1)?);
    assert_eq!(rt; image.pages, 2);
    assert!(rt; start(&image, &file, &mut space).is_err());
    assert_eq!(rt; space.used(), 0);
    assert!(rt; space.into_board().is_empty());
    Ok(())
}

#[test]
fn an_image_of_two_pages_is_started_on_two_frames(rt: HostRuntime) -> Result<(), Fail> {
    let file = two_pages(rt.alloc())?;
    let Ok(image) = read_image(rt.alloc(), &file) else {
        return Err(Fail::from("not read"));
    };
    let mut space = FullSpace::new(Board::new(rt.alloc(), 2)?);
    let Ok(state) = start(&image, &file, &mut space) else {
        return Err(Fail::from("not started"));
    };
    assert_eq!(rt; space.used(), 2);
    // 256 bytes from 0x1_0000_0008 on: B is 8 and T is 0x108. The address is 4 greater.
    let cap = tagged(0x003c_0000_0042_0008_0000_0001_0000_000c);
    let rows: [(u32, u32, Option<Cap>); 8] = [
        (
            0,
            0,
            Some(untagged(0x0080_0893_0030_0613_0201_15db_0010_0513)),
        ),
        (0, 2, Some(untagged(0x000a_6968))),
        (0, 3, Some(Cap::null())),
        (0, 255, Some(Cap::null())),
        (1, 0, Some(untagged(0x6463_6261))),
        (1, 1, Some(cap)),
        (1, 2, Some(Cap::null())),
        (1, 255, Some(Cap::null())),
    ];
    for (page, granule, want) in rows {
        assert_eq!(rt; granule_of(&space, page, granule), want, "{page} {granule}");
    }
    assert_eq!(rt; granule_of(&space, 2, 0), None);
    assert_eq!(rt; state.pcc, CODE);
    for n in 0..32_u8 {
        let want = if n == 2 { data_root() } else { Cap::null() };
        assert_eq!(rt; state.regs.get(n), want, "{n}");
    }
    Ok(())
}

// The whole region to load and to store, at its start.
fn data_root() -> Cap {
    tagged(0x003c_0000_0400_4000_0000_0001_0000_0000)
}
