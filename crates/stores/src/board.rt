// The physical machine on which spaces are built.
ghost use Rattle.std.specs.Prelude.{◌≡◌, ◌≤◌, ◌<◌, ◌↔◌, ℕ, IfOk, IsTrue, None, length};
ghost use Rattle.frame_owners.specs.Homes.{owner};
ghost use Rattle.stores.specs.Boards.{IsEmpty, made_frames};

use cap_format::{MOST_FRAMES, MOST_REGIONS, REGION_PAGES};
use frame_owners::Owners;
use frame_pool::FramePool;
use machine_types::{FrameNo, NoMemory};
use page_table::PageTable;
use std::alloc::Global;
use tagged_memory::Memory;

/// The physical machine: what the frames hold, which of them are used, who has them, and which page has which.
///
/// It has no invariant of its own. What it stands for is a relation, which the spaces keep.
#[derive(Drop)]
pub struct Board {
    /// The frames.
    pub memory: Memory,
    /// Which frames are used.
    pub pool: FramePool,
    /// The home and the number of sharers of each frame.
    pub owners: Owners,
    /// The frame and the rights of each page of each region.
    pub table: PageTable,
}

impl Board {
    /// An empty board of so many frames, from 1 to [`MOST_FRAMES`]. It takes all its memory at once.
    pub fn new(alloc: Global, frames: u32) -> Result<Board, NoMemory>
        requires least { 1 ≤ frames }
        requires most { frames ≤ MOST_FRAMES }
        ensures empty { IfOk result IsEmpty }
        ensures size { IfOk result (λ board. board.pool.size ≡ frames) }
        ensures made { IfOk result (λ board. made_frames board ≡ frames) }
        ensures memory { IfOk result (λ board. length board.memory ≡ frames) }
        ensures pool { IfOk result (λ board. length board.pool.used ≡ frames) }
        ensures owners { IfOk result (λ board. length board.owners ≡ frames) }
    {
        Ok(Board {
            memory: Memory::new(alloc, frames)?,
            pool: FramePool::new(alloc, frames)?,
            owners: Owners::new(alloc, frames)?,
            table: PageTable::new(alloc)?,
        })
    }

    /// How many frames were made: the least of what the memory, the pool and the owners were made with.
    pub fn made(&self) -> u32
        ensures { result ≡ made_frames self.now }
    {
        let least = self.pool.made().min(self.owners.frames());
        self.memory.frames().min(least)
    }

    /// Whether no page has an entry, no frame is used, no frame that was made has a sharer, and memory and owners have
    /// at least as many frames as the pool. So it stands for no store and for no class.
    pub fn is_empty(&self) -> bool
        ensures { IsTrue result ↔ IsEmpty self.now }
    {
        has_room(self)
            && self.pool.used() == 0
            && has_no_sharer(&self.owners)
            && has_no_entry(&self.table)
    }

    /// Makes the empty board one of `n` frames, at most the number that was made. It stays empty.
    pub fn set_frames(&mut self, n: u32)
        requires empty { IsEmpty self.old }
        requires most { n ≤ made_frames self.old }
        ensures is { self.new ≡ record self.old { pool = record self.old.pool { size = n } } }
        ensures empty { IsEmpty self.new }
    {
        self.pool.set_size(n);
    }
}

// Memory and owners have at least as many frames as the pool.
fn has_room(board: &Board) -> bool
    ensures room { IsTrue result → (board.now.pool.size ≤ length board.now.memory) × (board.now.pool.size ≤ length board.now.owners) }
    ensures none { board.now.pool.size ≤ length board.now.memory → board.now.pool.size ≤ length board.now.owners → IsTrue result }
{
    board.pool.size() <= board.memory.frames() && board.pool.size() <= board.owners.frames()
}

// No frame that was made has a sharer.
fn has_no_sharer(owners: &Owners) -> bool
    ensures none { IsTrue result → (f : ℕ) → (owner owners.now f).sharers ≡ 0 }
    ensures all { ((f : ℕ) → (owner owners.now f).sharers ≡ 0) → IsTrue result }
{
    for f in 0..owners.frames() {
        if owners.sharers(FrameNo(f)) != 0 {
            return false;
        }
    }
    true
}

// No page of the region has an entry.
fn has_no_page(table: &PageTable, region: u32) -> bool
    requires { region < MOST_REGIONS }
    ensures none { IsTrue result → (page : ℕ) → page < REGION_PAGES → table.now.entries region page ≡ None }
    ensures all { ((page : ℕ) → page < REGION_PAGES → table.now.entries region page ≡ None) → IsTrue result }
{
    for page in 0..REGION_PAGES {
        if table.look(region, page).is_ok() {
            return false;
        }
    }
    true
}

// No page has an entry.
fn has_no_entry(table: &PageTable) -> bool
    ensures none { IsTrue result → (region page : ℕ) → table.now.entries region page ≡ None }
    ensures all { ((region page : ℕ) → table.now.entries region page ≡ None) → IsTrue result }
{
    for region in 0..MOST_REGIONS {
        if !has_no_page(table, region) {
            return false;
        }
    }
    true
}
