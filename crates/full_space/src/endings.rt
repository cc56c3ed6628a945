// Regions whose pages go.
ghost use Rattle.std.specs.Prelude.{◌≡◌, ◌≢◌, ◌<◌, ◌+◌, ℕ};
ghost use Rattle.contents.specs.Content.{Content};
ghost use Rattle.contents.specs.Regions.{end_of};
ghost use Rattle.stores.specs.Boards.{Stands};
ghost use Rattle.stores.specs.Known.{StandsFor, Any};
ghost use Rattle.full_space.specs.Own.{AreOwn};
ghost use Rattle.full_space.specs.Steps.{ended_below};

use cap_format::{MOST_REGIONS, REGION_PAGES};
use stores::{Board, entry_of};

/// Takes away each page of a region, below [`MOST_REGIONS`], and its frame. Those of other regions stay.
pub fn drop_pages(board: &mut Board, region: u32)
    requires region { region < MOST_REGIONS }
    requires own { AreOwn board.old }
    requires some { ∥ StandsFor Stands board.old Any ∥₁ }
    ensures own { AreOwn board.new }
    ensures each { (c : Content) → Stands board.old c → Stands board.new (end_of c region) }
    ensures frames { (r p : ℕ) → r ≢ region → board.new.table.entries r p ≡ board.old.table.entries r p }
{
    for page in 0..REGION_PAGES {
        drop_page(board, region, page);
    }
}

// Takes away a page and its frame, if the region has it. The pages below it are gone.
fn drop_page(board: &mut Board, region: u32, page: u32)
    requires region { region < MOST_REGIONS }
    requires page { page < REGION_PAGES }
    requires own { AreOwn board.old }
    requires some { ∥ StandsFor Stands board.old Any ∥₁ }
    ensures own { AreOwn board.new }
    ensures each { (c : Content) → Stands board.old (ended_below c region page) → Stands board.new (ended_below c region (page + 1)) }
    ensures frames { (r p : ℕ) → r ≢ region → board.new.table.entries r p ≡ board.old.table.entries r p }
{
    if let Some(entry) = entry_of(board, region, page) {
        board.table.unset(region, page);
        board.owners.leave(entry.frame);
        board.pool.give(entry.frame);
    }
}
