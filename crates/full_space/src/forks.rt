// Regions that get copies of the pages of others.
ghost use Rattle.std.specs.Prelude.{◌≡◌, ◌≢◌, ◌≤◌, ◌<◌, ◌+◌, ℕ, IsSome, Ok, length};
ghost use Rattle.machine_types.specs.declared.config.Rule.TheVariants.{Full};
ghost use Rattle.machine_types.specs.Held.{AreHeld};
ghost use Rattle.machine_types.specs.Stores.{moved_granules};
ghost use Rattle.frame_pool.specs.Pool.{used_count};
ghost use Rattle.tagged_memory.specs.Frames.{frame, with_frame};
ghost use Rattle.contents.specs.Content.{Content};
ghost use Rattle.contents.specs.Conditions.{HasNoStore};
ghost use Rattle.contents.specs.Regions.{fork_of, numbers_in};
ghost use Rattle.stores.specs.Boards.{Stands};
ghost use Rattle.stores.specs.Entered.{IsOutcomeOf};
ghost use Rattle.stores.specs.Known.{StandsFor, Any};
ghost use Rattle.full_space.specs.Own.{AreOwn};
ghost use Rattle.full_space.specs.Steps.{entries_below, forked_below};

use cap_format::{GRANULE_BYTES, MOST_REGIONS, REGION_PAGES};
use machine_types::FrameNo;
use page_table::Entry;
use stores::{Board, entry_of};
use tagged_memory::Memory;

/// How many pages a region, below [`MOST_REGIONS`], has.
pub fn page_count(board: &Board, region: u32) -> u32
    requires { region < MOST_REGIONS }
    ensures is { result ≡ entries_below (board.now.table.entries region) REGION_PAGES }
    ensures each { (c : Content) → Stands board.now c → result ≡ length (numbers_in (c.stores region)) }
{
    let mut count = 0;
    for page in 0..REGION_PAGES {
        if entry_of(board, region, page).is_some() {
            count += 1;
        }
    }
    count
}

/// Gives the region `to`, which has no page, the pages of `from`, moved, each in a frame of its own. Both are below
/// [`MOST_REGIONS`], and at least as many frames are free as `from` has pages.
pub fn copy_pages(board: &mut Board, from: u32, to: u32)
    requires from { from < MOST_REGIONS }
    requires to { to < MOST_REGIONS }
    requires apart { from ≢ to }
    requires own { AreOwn board.old }
    requires none { ∥ StandsFor Stands board.old (HasNoStore to) ∥₁ }
    requires room { used_count board.old.pool + entries_below (board.old.table.entries from) REGION_PAGES ≤ board.old.pool.size }
    ensures own { AreOwn board.new }
    ensures each { (c : Content) → Stands board.old c → c.rule ≡ Full → IsOutcomeOf board.new (fork_of c from to) (Ok tt) }
    ensures frames { (r p : ℕ) → r ≢ to → board.new.table.entries r p ≡ board.old.table.entries r p }
{
    for page in 0..REGION_PAGES {
        copy_page(board, from, to, page);
    }
}

// Gives a region the page of another, if that has it, moved, in a frame of its own. It has those below this page.
fn copy_page(board: &mut Board, from: u32, to: u32, page: u32)
    requires from { from < MOST_REGIONS }
    requires to { to < MOST_REGIONS }
    requires apart { from ≢ to }
    requires page { page < REGION_PAGES }
    requires own { AreOwn board.old }
    requires some { ∥ StandsFor Stands board.old Any ∥₁ }
    requires room { IsSome (board.old.table.entries from page) → used_count board.old.pool < board.old.pool.size }
    ensures own { AreOwn board.new }
    ensures each { (c : Content) → Stands board.old (forked_below c from to page) → Stands board.new (forked_below c from to (page + 1)) }
    ensures frames { (r p : ℕ) → r ≢ to → board.new.table.entries r p ≡ board.old.table.entries r p }
{
    if let Some(entry) = entry_of(board, from, page) {
        let frame = board.pool.take().unwrap();
        board.memory.copy_frame(entry.frame, frame);
        move_granules(&mut board.memory, frame, from, to);
        board.owners.begin(frame, to);
        board.table.set(
            to,
            page,
            Entry {
                frame,
                rights: entry.rights,
            },
        );
    }
}

// Moves what a frame holds from one region to another. Only tagged granules change.
fn move_granules(memory: &mut Memory, f: FrameNo, from: u32, to: u32)
    requires frame { f.0 < length memory.old }
    requires from { from < MOST_REGIONS }
    requires to { to < MOST_REGIONS }
    requires held { AreHeld from (frame memory.old f.0) }
    ensures { memory.new ≡ with_frame memory.old f.0 (moved_granules from to (frame memory.old f.0)) }
{
    let mut first = 0;
    while let Some(g) = memory.next_tag(f, first) {
        let cap = memory.load_cap(f, GRANULE_BYTES * g);
        memory.store_cap(f, GRANULE_BYTES * g, cap.moved(from, to));
        first = g + 1;
    }
}
