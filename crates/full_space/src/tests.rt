// Spaces on small boards: numbers, pointers and frames that were worked out by hand.
ghost use Rattle.std.specs.Prelude.{◌≡◌, ◌≢◌, ◌≤◌, ◌<◌, ℕ, IfOk, IsOk};
ghost use Rattle.machine_types.specs.Held.{MayHold};
ghost use Rattle.contents.specs.Conditions.{HasStore, HasNoStore, LacksPage, IsOwn};
ghost use Rattle.stores.specs.Known.{StandsFor, Any, KeepsStores, KeepsOtherStores};
ghost use Rattle.full_space.specs.Full.{FullStands};

use crate::FullSpace;
use cap_format::{Cap, GRANULE_BYTES, LOAD, MOST_FRAMES, MOST_REGIONS, PAGE_GRANULES, STORE};
use machine_types::{Access, FrameNo, NoFrame, RIGHT_R, RIGHT_W, RIGHT_X};
use std::alloc::Global;
use std::test::Fail;
use stores::{
    Board, Refusal, Stores, Translation, UNTOUCHED, add_and_fork, fill_region, take_bytes,
};

// The bytes with which pages begin, and the number of eight bytes that they are.
const FIRST: [u8; 8] = [1, 2, 3, 4, 5, 6, 7, 8];

const NUMBER: u64 = 0x0807_0605_0403_0201;

// A space of so many frames, in which no region has a store.
fn empty_space(alloc: Global, frames: u32) -> Result<FullSpace, Fail>
    requires least { 1 ≤ frames }
    requires most { frames ≤ MOST_FRAMES }
    ensures none { IfOk result (λ space. (region : ℕ) → ∥ StandsFor FullStands space (HasNoStore region) ∥₁) }
    ensures some { IfOk result (λ space. ∥ StandsFor FullStands space Any ∥₁) }
{
    Ok(FullSpace::new(Board::new(alloc, frames)?))
}

// Gives a region a store with page 0, with these rights, if a frame is free.
fn begin_page(space: &mut FullSpace, region: u32, rights: u8) -> Result<(), NoFrame>
    requires region { region < MOST_REGIONS }
    requires rights { rights < 8 }
    requires none { ∥ StandsFor FullStands space.old (HasNoStore region) ∥₁ }
    ensures begun { ∥ StandsFor FullStands space.new (HasStore region) ∥₁ }
    ensures own { IsOk result → ∥ StandsFor FullStands space.new (IsOwn region 0) ∥₁ }
    ensures lacks { ∥ StandsFor FullStands space.new (LacksPage region 1) ∥₁ }
    ensures keeps { KeepsOtherStores FullStands region space.old space.new }
{
    space.begin(region);
    space.add_page(region, 0, rights, &FIRST)
}

// A space of so many frames in which region 0 has two pages that may be read and written, and region 1 has no store.
fn two_pages(alloc: Global, frames: u32) -> Result<FullSpace, Fail>
    requires least { 1 ≤ frames }
    requires most { frames ≤ MOST_FRAMES }
    ensures store { IfOk result (λ space. ∥ StandsFor FullStands space (HasStore 0) ∥₁) }
    ensures none { IfOk result (λ space. ∥ StandsFor FullStands space (HasNoStore 1) ∥₁) }
    ensures some { IfOk result (λ space. ∥ StandsFor FullStands space Any ∥₁) }
{
    let mut space = empty_space(alloc, frames)?;
    begin_page(&mut space, 0, RIGHT_R | RIGHT_W)?;
    space.add_page(0, 1, RIGHT_R | RIGHT_W, &FIRST)?;
    Ok(space)
}

#[test]
fn pages_are_added_until_no_frame_is_free(rt: HostRuntime) -> Result<(), Fail> {
    let mut space = empty_space(rt.alloc(), 1)?;
    assert_eq!(rt; space.size(), 1);
    assert_eq!(rt; space.used(), 0);
    begin_page(&mut space, 0, RIGHT_R)?;
    assert_eq!(rt; space.used(), 1);
    let lack = NoFrame { before: UNTOUCHED };
    assert_eq!(rt; space.add_page(0, 1, RIGHT_R, &[]), Err(lack));
    assert_eq!(rt; space.used(), 1);
    assert_eq!(rt; space.rights(0, 1), None);
    Ok(())
}

#[test]
fn a_page_shows_what_it_was_given(rt: HostRuntime) -> Result<(), Fail> {
    let mut space = empty_space(rt.alloc(), 2)?;
    begin_page(&mut space, 0, RIGHT_R | RIGHT_X)?;
    assert_eq!(rt; space.rights(0, 0), Some(5));
    assert_eq!(rt; space.rights(0, 1), None);
    let front = Cap {
        bits: 0x0807_0605_0403_0201,
        tag: false,
    };
    assert_eq!(rt; space.peek(0, 0, 0), Some(front));
    assert_eq!(rt; space.peek(0, 0, 255), Some(Cap::null()));
    assert_eq!(rt; space.peek(0, 1, 0), None);
    let shown = Translation {
        frame: FrameNo(0),
        rights: 5,
        home: true,
        alone: true,
    };
    assert_eq!(rt; space.translate(0, 0), Some(shown));
    assert_eq!(rt; space.translate(0, 1), None);
    Ok(())
}

#[test]
fn numbers_of_each_size_are_read(rt: HostRuntime) -> Result<(), Fail> {
    let mut space = two_pages(rt.alloc(), 2)?;
    assert_eq!(rt; space.read(0, 5, 1), Ok((0x06, UNTOUCHED)));
    assert_eq!(rt; space.read(0, 2, 2), Ok((0x0403, UNTOUCHED)));
    assert_eq!(rt; space.read(0, 4, 4), Ok((0x0807_0605, UNTOUCHED)));
    assert_eq!(rt; space.read(0, 4096, 8), Ok((NUMBER, UNTOUCHED)));
    assert_eq!(rt; space.read(0, 8, 8), Ok((0, UNTOUCHED)));
    Ok(())
}

#[test]
fn numbers_of_each_size_are_stored(rt: HostRuntime) -> Result<(), Fail> {
    let mut space = two_pages(rt.alloc(), 2)?;
    assert_eq!(rt; space.write(0, 1, 1, 0x55ff), Ok(UNTOUCHED));
    assert_eq!(rt; space.write(0, 2, 2, 0xabcd), Ok(UNTOUCHED));
    assert_eq!(rt; space.write(0, 4, 4, 0x1122_3344), Ok(UNTOUCHED));
    assert_eq!(rt; space.read(0, 0, 8), Ok((0x1122_3344_abcd_ff01, UNTOUCHED)));
    assert_eq!(rt;
        space.write(0, 4096, 8, 0xffff_ffff_ffff_fffe),
        Ok(UNTOUCHED)
    );
    assert_eq!(rt;
        space.read(0, 4096, 8),
        Ok((0xffff_ffff_ffff_fffe, UNTOUCHED))
    );
    assert_eq!(rt; space.read(0, 0, 8), Ok((0x1122_3344_abcd_ff01, UNTOUCHED)));
    Ok(())
}

#[test]
fn a_page_that_may_be_fetched_gives_its_words(rt: HostRuntime) -> Result<(), Fail> {
    let mut space = empty_space(rt.alloc(), 1)?;
    begin_page(&mut space, 0, RIGHT_X)?;
    assert_eq!(rt; space.fetch(0, 0), Ok((0x0403_0201, UNTOUCHED)));
    assert_eq!(rt; space.fetch(0, 4), Ok((0x0807_0605, UNTOUCHED)));
    Ok(())
}

// Which of a read of a number and of a granule, a write of either, and a fetch, a page with these rights refuses.
fn are_refused(alloc: Global, rights: u8) -> Result<[bool; 5], Fail>
    requires { rights < 8 }
{
    let mut space = empty_space(alloc, 1)?;
    begin_page(&mut space, 0, rights)?;
    let refused = Refusal::NoRight;
    Ok([
        space.read(0, 0, 8) == Err(refused),
        space.read_cap(0, 0) == Err(refused),
        space.write(0, 0, 8, 0) == Err(refused),
        space.write_cap(0, 0, Cap::null()) == Err(refused),
        space.fetch(0, 0) == Err(refused),
    ])
}

#[test]
fn each_access_asks_for_its_right(rt: HostRuntime) -> Result<(), Fail> {
    let read = are_refused(rt.alloc(), RIGHT_R)?;
    assert_eq!(rt; read, [false, false, true, true, true]);
    let write = are_refused(rt.alloc(), RIGHT_W)?;
    assert_eq!(rt; write, [true, true, false, false, true]);
    let fetch = are_refused(rt.alloc(), RIGHT_X)?;
    assert_eq!(rt; fetch, [true, true, true, true, false]);
    assert_eq!(rt; are_refused(rt.alloc(), 0)?, [true; 5]);
    assert_eq!(rt; are_refused(rt.alloc(), 7)?, [false; 5]);
    Ok(())
}

#[test]
fn no_access_finds_an_absent_page(rt: HostRuntime) -> Result<(), Fail> {
    let mut space = two_pages(rt.alloc(), 2)?;
    assert_eq!(rt; space.read(0, 8192, 8), Err(Refusal::NoPage));
    assert_eq!(rt; space.read_cap(0, 8192), Err(Refusal::NoPage));
    assert_eq!(rt; space.write(0, 8192, 8, 1), Err(Refusal::NoPage));
    assert_eq!(rt; space.write_cap(1, 0, Cap::null()), Err(Refusal::NoPage));
    assert_eq!(rt; space.fetch(1, 0), Err(Refusal::NoPage));
    Ok(())
}

#[test]
fn pages_under_bytes_are_covered(rt: HostRuntime) -> Result<(), Fail> {
    let space = two_pages(rt.alloc(), 2)?;
    assert!(rt; space.covers(0, 0, 8192, Access::Read));
    assert!(rt; space.covers(0, 4095, 2, Access::Write));
    assert!(rt; space.covers(0, 8192, 0, Access::Read));
    assert!(rt; !space.covers(0, 8191, 2, Access::Read));
    assert!(rt; !space.covers(0, 0, 1, Access::Fetch));
    assert!(rt; !space.covers(1, 0, 1, Access::Read));
    Ok(())
}

#[test]
fn bytes_are_taken_over_the_end_of_a_page(rt: HostRuntime) -> Result<(), Fail> {
    let mut space = two_pages(rt.alloc(), 2)?;
    let mut bytes = [0xff; 6];
    assert!(rt; take_bytes(&mut space, 0, 4093, &mut bytes));
    assert_eq!(rt; bytes, [0, 0, 0, 1, 2, 3]);
    assert!(rt; !take_bytes(&mut space, 0, 8187, &mut bytes));
    assert_eq!(rt; bytes, [0, 0, 0, 1, 2, 3]);
    Ok(())
}

#[test]
fn bytes_are_stored_over_the_end_of_a_page(rt: HostRuntime) -> Result<(), Fail> {
    let mut space = two_pages(rt.alloc(), 2)?;
    let pointer = Cap::root(0, LOAD | STORE);
    assert!(rt; pointer.inside(0));
    space.write_cap(0, 4064, pointer)?;
    space.write_cap(0, 4080, pointer)?;
    space.write_cap(0, 4112, pointer)?;
    // Two bytes of the last granule of a page, and eighteen of the next.
    let bytes = [
        1, 2, 3, 4, 5, 6, 7, 8, 9, 10, 11, 12, 13, 14, 15, 16, 17, 18, 19, 20,
    ];
    assert!(rt; space.covers(0, 4094, 20, Access::Write));
    assert_eq!(rt;
        space.prepare(0, 4094, 20, Access::Write),
        Ok([UNTOUCHED; 2])
    );
    space.write_bytes(0, 4094, &bytes);
    assert_eq!(rt; space.read(0, 4094, 2), Ok((0x0201, UNTOUCHED)));
    assert_eq!(rt;
        space.read(0, 4096, 8),
        Ok((0x0a09_0807_0605_0403, UNTOUCHED))
    );
    let (before, _) = space.read_cap(0, 4064)?;
    let (last, _) = space.read_cap(0, 4080)?;
    let (next, _) = space.read_cap(0, 4112)?;
    assert!(rt; before == pointer);
    assert!(rt; !last.tag);
    assert!(rt; !next.tag);
    assert_eq!(rt; next.address(), 0x1_0000_1413);
    Ok(())
}

#[test]
fn a_granule_is_seeded_whatever_the_rights(rt: HostRuntime) -> Result<(), Fail> {
    let mut space = empty_space(rt.alloc(), 1)?;
    begin_page(&mut space, 3, RIGHT_R)?;
    let pointer = Cap::root(3, LOAD);
    assert!(rt; pointer.inside(3));
    space.seed_cap(3, 32, pointer);
    let (cap, _) = space.read_cap(3, 32)?;
    assert!(rt; cap == pointer);
    assert_eq!(rt; space.write_cap(3, 32, Cap::null()), Err(Refusal::NoRight));
    Ok(())
}

#[test]
fn a_fork_with_just_enough_frames_copies_each_page(rt: HostRuntime) -> Result<(), Fail> {
    let mut space = two_pages(rt.alloc(), 4)?;
    assert_eq!(rt; space.fork(0, 1), Ok(()));
    assert_eq!(rt; space.used(), 4);
    assert_eq!(rt; space.write(1, 4096, 8, 9), Ok(UNTOUCHED));
    assert_eq!(rt; space.read(0, 4096, 8), Ok((NUMBER, UNTOUCHED)));
    assert_eq!(rt; space.read(1, 4096, 8), Ok((9, UNTOUCHED)));
    assert_eq!(rt; space.read(1, 0, 8), Ok((NUMBER, UNTOUCHED)));
    assert_eq!(rt; space.rights(1, 1), Some(6));
    Ok(())
}

#[test]
fn a_fork_that_lacks_a_frame_changes_nothing(rt: HostRuntime) -> Result<(), Fail> {
    let mut space = two_pages(rt.alloc(), 3)?;
    let lack = NoFrame { before: UNTOUCHED };
    assert_eq!(rt; space.fork(0, 1), Err(lack));
    assert_eq!(rt; space.used(), 2);
    assert_eq!(rt; space.rights(1, 0), None);
    assert_eq!(rt; space.rights(1, 1), None);
    assert_eq!(rt; space.read(0, 4096, 8), Ok((NUMBER, UNTOUCHED)));
    Ok(())
}

#[test]
fn pointers_of_the_child_lie_in_its_region(rt: HostRuntime) -> Result<(), Fail> {
    let mut space = two_pages(rt.alloc(), 4)?;
    let pointer = Cap::root(0, LOAD | STORE);
    assert!(rt; pointer.inside(0));
    space.write_cap(0, 4112, pointer)?;
    // A number that is the pointer's bits, without its tag.
    space.write_cap(
        0,
        4128,
        Cap {
            bits: pointer.bits,
            tag: false,
        },
    )?;
    space.fork(0, 1)?;
    let (parent, _) = space.read_cap(0, 4112)?;
    let (child, _) = space.read_cap(1, 4112)?;
    let (number, _) = space.read_cap(1, 4128)?;
    assert!(rt; parent == pointer);
    assert!(rt; child.tag);
    assert_eq!(rt; child.address(), 0x1_0010_0000);
    assert_eq!(rt; child.base(), 0x1_0010_0000);
    assert_eq!(rt; child.top(), 0x1_0020_0000);
    assert_eq!(rt; child.perms(), LOAD | STORE);
    assert!(rt; !number.tag);
    assert_eq!(rt; number.address(), 0x1_0000_0000);
    Ok(())
}

#[test]
fn a_region_ends_and_begins_again(rt: HostRuntime) -> Result<(), Fail> {
    let mut space = two_pages(rt.alloc(), 4)?;
    space.fork(0, 1)?;
    space.end(0);
    assert_eq!(rt; space.used(), 2);
    assert_eq!(rt; space.rights(0, 1), None);
    assert_eq!(rt; space.read(1, 4096, 8), Ok((NUMBER, UNTOUCHED)));
    begin_page(&mut space, 0, RIGHT_R)?;
    assert_eq!(rt; space.used(), 3);
    assert_eq!(rt; space.rights(0, 0), Some(4));
    assert_eq!(rt; space.rights(0, 1), None);
    Ok(())
}

// Stores a granule in each place of page 0, which may be written.
fn fill_page(space: &mut FullSpace, region: u32, cap: Cap) -> Result<(), Refusal>
    requires region { region < MOST_REGIONS }
    requires held { MayHold region cap }
    requires some { ∥ StandsFor FullStands space.old Any ∥₁ }
    ensures { KeepsStores FullStands space.old space.new }
{
    for granule in 0..PAGE_GRANULES {
        space.write_cap(region, (GRANULE_BYTES * granule) as u64, cap)?;
    }
    Ok(())
}

// How many granules of page 0 of a region aren't zeros without a tag.
fn count_used(space: &FullSpace, region: u32) -> usize
    requires region { region < MOST_REGIONS }
    requires some { ∥ StandsFor FullStands space.now Any ∥₁ }
{
    (0..PAGE_GRANULES as u32)
        .filter(|&granule| space.peek(region, 0, granule) != Some(Cap::null()))
        .count()
}

#[test]
fn nothing_is_left_in_a_frame_that_is_used_again(rt: HostRuntime) -> Result<(), Fail> {
    let mut space = empty_space(rt.alloc(), 1)?;
    begin_page(&mut space, 0, RIGHT_R | RIGHT_W)?;
    let pointer = Cap::root(0, LOAD | STORE);
    assert!(rt; pointer.inside(0));
    fill_page(&mut space, 0, pointer)?;
    assert_eq!(rt; count_used(&space, 0), 256);
    space.end(0);
    begin_page(&mut space, 2, RIGHT_R)?;
    assert_eq!(rt; count_used(&space, 2), 1);
    let front = Cap {
        bits: 0x0807_0605_0403_0201,
        tag: false,
    };
    assert_eq!(rt; space.read_cap(2, 0), Ok((front, UNTOUCHED)));
    Ok(())
}

#[test]
fn a_caller_adds_and_forks(rt: HostRuntime) -> Result<(), Fail> {
    let mut space = two_pages(rt.alloc(), 4)?;
    space.write(0, 4096, 8, 0xff)?;
    assert_eq!(rt; add_and_fork(&mut space, 0, 0, 4096, 1), Ok(()));
    assert_eq!(rt;
        space.read(0, 4096, 8),
        Ok((0x0807_0605_0403_0300, UNTOUCHED))
    );
    assert_eq!(rt;
        space.read(1, 4096, 8),
        Ok((0x0807_0605_0403_0300, UNTOUCHED))
    );
    assert_eq!(rt; space.read(1, 0, 8), Ok((NUMBER, UNTOUCHED)));
    Ok(())
}

#[test]
fn a_caller_learns_that_a_fork_lacks_a_frame(rt: HostRuntime) -> Result<(), Fail> {
    let mut space = two_pages(rt.alloc(), 3)?;
    assert_eq!(rt;
        add_and_fork(&mut space, 0, 0, 4096, 1),
        Err(Refusal::NoFrame)
    );
    assert_eq!(rt;
        space.read(0, 4096, 8),
        Ok((0x100e_0c0a_0806_0402, UNTOUCHED))
    );
    assert_eq!(rt; space.used(), 2);
    Ok(())
}

#[test]
fn a_caller_fills_a_region(rt: HostRuntime) -> Result<(), Fail> {
    let mut space = empty_space(rt.alloc(), 3)?;
    let pointer = Cap::root(2, LOAD);
    assert!(rt; pointer.inside(2));
    assert_eq!(rt; fill_region(&mut space, 2, 3, RIGHT_R, pointer), Ok(()));
    assert_eq!(rt; space.read_cap(2, 0), Ok((pointer, UNTOUCHED)));
    assert_eq!(rt; space.read_cap(2, 8192), Ok((pointer, UNTOUCHED)));
    assert_eq!(rt; space.read_cap(2, 8208), Ok((Cap::null(), UNTOUCHED)));
    assert_eq!(rt; space.used(), 3);
    assert_eq!(rt; space.rights(2, 1), Some(4));
    Ok(())
}

#[test]
fn a_region_that_lacks_a_frame_is_not_seeded(rt: HostRuntime) -> Result<(), Fail> {
    let mut space = empty_space(rt.alloc(), 2)?;
    let lack = NoFrame { before: UNTOUCHED };
    assert_eq!(rt;
        fill_region(&mut space, 2, 3, RIGHT_R, Cap::from_int(5)),
        Err(lack)
    );
    assert_eq!(rt; space.read_cap(2, 4096), Ok((Cap::null(), UNTOUCHED)));
    assert_eq!(rt; space.read_cap(2, 8192), Err(Refusal::NoPage));
    assert_eq!(rt; space.used(), 2);
    Ok(())
}

#[test]
fn a_space_gives_its_board_back(rt: HostRuntime) -> Result<(), Fail> {
    let mut space = two_pages(rt.alloc(), 2)?;
    space.end(0);
    let board = space.into_board();
    assert!(rt; board.is_empty());
    Ok(())
}
