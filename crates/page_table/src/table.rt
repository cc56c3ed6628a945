// The page table.
ghost use Rattle.std.specs.Prelude.{◌≡◌, ◌≢◌, ◌⊎◌, ◌<◌, ◌+◌, ◌*◌, ℕ, IfOk, MatchResult, Some, None};

use cap_format::{MOST_REGIONS, REGION_PAGES};
use machine_types::{FrameNo, NoMemory};
use std::alloc::Global;
use std::marker::Model;

/// What a page has: its frame and its rights. A table keeps both as they are given.
#[derive(Clone, Copy, Debug, PartialEq, Eq)]
pub struct Entry {
    /// The frame with the page's bytes.
    pub frame: FrameNo,
    /// The sum of those of [`RIGHT_X`](crate::RIGHT_X), [`RIGHT_W`](crate::RIGHT_W) and [`RIGHT_R`](crate::RIGHT_R)
    /// that the page has.
    pub rights: u8,
}

/// There is no page: it has no entry.
#[derive(Clone, Copy, Debug, PartialEq, Eq)]
pub struct NoPage;

/// An entry or nothing for each of the [`REGION_PAGES`] pages of each of the [`MOST_REGIONS`] regions. Regions, and the
/// pages of a region, are numbered from 0 on. No other page has an entry.
#[derive(Drop)]
pub struct PageTable {
    slots: Vec<Option<Entry>>,
}

impl Model for PageTable {
    ghost use Rattle.std.specs.Prelude.{◌≡◌, ◌*◌, length};
    ghost use Rattle.cap_format.specs.Numbers.{most_regions, region_pages};
    ghost use Rattle.page_table.specs.Entries.{Table};
    ghost use Rattle.page_table.specs.Listed.{table_of};
    ghost use Rattle.page_table.specs.Stored.{table_code};

    ghost Value = { Table };

    ghost coded = { table_code };

    ghost view = { λ t. table_of t.slots.items };

    ghost invariant = { λ t. length t.slots.items ≡ most_regions * region_pages };
}

impl PageTable {
    ghost use Rattle.page_table.specs.Entries.{no_entries, with_entry};

    /// A table without entries. It takes all its memory at once, and [`NoMemory`] comes where that is not to be had.
    pub fn new(alloc: Global) -> Result<PageTable, NoMemory>
        ensures { IfOk result (λ table. table.entries ≡ no_entries) }
    {
        match vec![in alloc; None; (MOST_REGIONS * REGION_PAGES) as usize] {
            Ok(slots) => Ok(PageTable { slots }),
            Err(_) => Err(NoMemory),
        }
    }

    /// The entry of a page, below [`REGION_PAGES`], of a region, below [`MOST_REGIONS`]. [`NoPage`] comes exactly where
    /// it has none.
    pub fn look(&self, region: u32, page: u32) -> Result<Entry, NoPage>
        requires region { region < MOST_REGIONS }
        requires page { page < REGION_PAGES }
        ensures { MatchResult result (λ entry. self.now.entries region page ≡ Some entry) (λ _. self.now.entries region page ≡ None) }
    {
        self.slots[place(region, page)].ok_or(NoPage)
    }

    /// Sets the entry of a page, below [`REGION_PAGES`], of a region, below [`MOST_REGIONS`]. It overwrites the entry
    /// that the page has, if any. Those of all other pages stay.
    pub fn set(&mut self, region: u32, page: u32, e: Entry)
        requires region { region < MOST_REGIONS }
        requires page { page < REGION_PAGES }
        ensures is { self.new.entries ≡ with_entry self.old.entries region page (Some e) }
        ensures here { self.new.entries region page ≡ Some e }
        ensures others { (r p : ℕ) → (r ≢ region ⊎ (p ≢ page)) → self.new.entries r p ≡ self.old.entries r p }
    {
        self.slots[place(region, page)] = Some(e);
    }

    /// Takes away the entry of a page, below [`REGION_PAGES`], of a region, below [`MOST_REGIONS`]. Where it has none,
    /// nothing changes. Those of all other pages stay.
    pub fn unset(&mut self, region: u32, page: u32)
        requires region { region < MOST_REGIONS }
        requires page { page < REGION_PAGES }
        ensures is { self.new.entries ≡ with_entry self.old.entries region page None }
        ensures here { self.new.entries region page ≡ None }
        ensures others { (r p : ℕ) → (r ≢ region ⊎ (p ≢ page)) → self.new.entries r p ≡ self.old.entries r p }
    {
        self.slots[place(region, page)] = None;
    }
}

// The slot of a page of a region.
fn place(region: u32, page: u32) -> usize
    requires region { region < MOST_REGIONS }
    requires page { page < REGION_PAGES }
    ensures is { result ≡ region * REGION_PAGES + page }
    ensures within { result < MOST_REGIONS * REGION_PAGES }
{
    (region * REGION_PAGES + page) as usize
}
