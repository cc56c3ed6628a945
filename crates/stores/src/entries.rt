// What a board's page table says of pages, for any space.
ghost use Rattle.std.specs.Prelude.{◌≡◌, ◌≢◌, ◌⊎◌, ◌≤◌, ◌<◌, ◌+◌, ℕ, true, IsErr, IsSome, IsTrue, length, replicate};
ghost use Rattle.cap_format.specs.Made.{null};
ghost use Rattle.machine_types.specs.Granules.{with_bytes};
ghost use Rattle.tagged_memory.specs.Frames.{with_frame};
ghost use Rattle.contents.specs.Content.{Content};
ghost use Rattle.contents.specs.Accesses.{page_of_place};
ghost use Rattle.contents.specs.Regions.{add_page_of};
ghost use Rattle.contents.specs.Transfers.{covers_of};
ghost use Rattle.contents.specs.Conditions.{LacksPage};
ghost use Rattle.stores.specs.Known.{StandsFor};
ghost use Rattle.stores.specs.Boards.{Stands, frame_of};
ghost use Rattle.stores.specs.Entered.{entry_for, entry_allows, IsOutcomeOf};

use crate::Board;
use cap_format::{MOST_REGIONS, PAGE_BYTES, PAGE_GRANULES, REGION_BYTES, REGION_PAGES};
use contents::Refusal;
use machine_types::{Access, FrameNo, NoFrame, Note, Touched};
use page_table::Entry;
use tagged_memory::Memory;

/// No page was touched.
pub const UNTOUCHED: Note = Note {
    page: 0,
    touched: Touched::No,
};

/// The entry of a page, below [`REGION_PAGES`], of a region, below [`MOST_REGIONS`], if it has one.
pub fn entry_of(board: &Board, region: u32, page: u32) -> Option<Entry>
    requires region { region < MOST_REGIONS }
    requires page { page < REGION_PAGES }
    ensures { result ≡ board.now.table.entries region page }
{
    board.table.look(region, page).ok()
}

/// The entry of the page of a place, below [`REGION_BYTES`], of a region, below [`MOST_REGIONS`], for an access. NoPage
/// comes exactly where the page is absent, and then NoRight exactly where it lacks the right.
pub fn entry_for(board: &Board, region: u32, at: u64, access: Access) -> Result<Entry, Refusal>
    requires region { region < MOST_REGIONS }
    requires within { at < REGION_BYTES }
    ensures { result ≡ entry_for access (board.now.table.entries region (page_of_place at)) }
{
    match entry_of(board, region, (at / PAGE_BYTES as u64) as u32) {
        None => Err(Refusal::NoPage),
        Some(entry) if access.is_allowed(entry.rights) => Ok(entry),
        Some(_) => Err(Refusal::NoRight),
    }
}

// Whether each page from the first to below another is there with the right for the access.
fn covers_pages(board: &Board, region: u32, first: u32, past: u32, access: Access) -> bool
    requires region { region < MOST_REGIONS }
    requires past { past ≤ REGION_PAGES }
    ensures all { IsTrue result → (page : ℕ) → first ≤ page → page < past → entry_allows access (board.now.table.entries region page) ≡ true }
    ensures none { ((page : ℕ) → first ≤ page → page < past → entry_allows access (board.now.table.entries region page) ≡ true) → IsTrue result }
{
    for page in first..past {
        match entry_of(board, region, page) {
            Some(entry) if access.is_allowed(entry.rights) => {}
            _ => return false,
        }
    }
    true
}

/// Whether every page under the `n` bytes from a place on is there with the right for the access. The bytes lie in the
/// region, which is below [`MOST_REGIONS`]. It looks at each page once.
pub fn covers(board: &Board, region: u32, at: u64, n: u64, access: Access) -> bool
    requires region { region < MOST_REGIONS }
    requires within { at + n ≤ REGION_BYTES }
    ensures { (c : Content) → Stands board.now c → result ≡ covers_of c region at n access }
{
    if n == 0 {
        return true;
    }
    let first = at / PAGE_BYTES as u64;
    let last = (at + n - 1) / PAGE_BYTES as u64;
    covers_pages(board, region, first as u32, last as u32 + 1, access)
}

// Makes a frame hold these bytes, at most [`PAGE_BYTES`], and then zeros, without a tag. All other frames stay.
fn fill_frame(memory: &mut Memory, frame: FrameNo, bytes: &[u8])
    requires frame { frame.0 < length memory.old }
    requires within { length bytes.now ≤ PAGE_BYTES }
    ensures { memory.new ≡ with_frame memory.old frame.0 (with_bytes (replicate PAGE_GRANULES null) 0 bytes.now) }
{
    memory.clear_frame(frame);
    memory.bytes_in(frame, 0, bytes);
}

/// Gives a page, below [`REGION_PAGES`], of a region, below [`MOST_REGIONS`], the least free frame, with these rights:
/// these bytes, at most [`PAGE_BYTES`], and then zeros, without a tag. The page is absent before, and then a class of its
/// own, with its region as home. NoFrame comes exactly where no frame is free, and changes nothing.
pub fn add_own_page(
    board: &mut Board,
    region: u32,
    page: u32,
    rights: u8,
    bytes: &[u8],
) -> Result<(), NoFrame>
    requires region { region < MOST_REGIONS }
    requires page { page < REGION_PAGES }
    requires within { length bytes.now ≤ PAGE_BYTES }
    requires absent { ∥ StandsFor Stands board.old (LacksPage region page) ∥₁ }
    ensures each { (c : Content) → Stands board.old c → IsSome (c.stores region) → IsOutcomeOf board.new (add_page_of c region page rights bytes.now) result }
    ensures frames { (r p : ℕ) → (r ≢ region) ⊎ (p ≢ page) → frame_of board.new.table.entries r p ≡ frame_of board.old.table.entries r p }
    ensures refused { IsErr result → board.new ≡ board.old }
{
    let Some(frame) = board.pool.take() else {
        return Err(NoFrame { before: UNTOUCHED });
    };
    fill_frame(&mut board.memory, frame, bytes);
    board.owners.begin(frame, region);
    board.table.set(region, page, Entry { frame, rights });
    Ok(())
}
