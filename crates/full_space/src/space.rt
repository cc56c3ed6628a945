// The space.
ghost use Rattle.std.specs.Prelude.{◌≡◌, ◌≤◌, ◌<◌, ◌+◌, ◌%◌, ◌/◌, ℕ, Some, None};
ghost use Rattle.contents.specs.Content.{Content, nothing};
ghost use Rattle.stores.specs.Boards.{IsEmpty, Stands};
ghost use Rattle.full_space.specs.Own.{AreOwn};

use crate::bytes::{bytes_in, bytes_out};
use crate::endings::drop_pages;
use crate::forks::{copy_pages, page_count};
use cap_format::{Cap, GRANULE_BYTES, PAGE_BYTES, REGION_BYTES};
use machine_types::{Access, NoFrame, Note};
use stores::{
    Board, LiveRegions, Refusal, Stores, Translation, UNTOUCHED, add_own_page, covers,
    empty_stands_for_nothing, entry_for, entry_of,
};

/// A space of stores in which each page has a frame of its own. It serves the rule
/// [`Full`](machine_types::Rule::Full): nothing is shared, and nothing is touched.
#[derive(Drop)]
pub struct FullSpace {
    board: Board,
    live: LiveRegions,
    ghost own: { AreOwn board },
}

impl FullSpace {
    ghost use Rattle.machine_types.specs.declared.config.Rule.TheVariants.{Full};
    ghost use Rattle.full_space.specs.Full.{FullStands, frames_of};

    /// A space on an empty board, in which no region has a store. The board is as it was.
    pub fn new(board: Board) -> FullSpace
        requires { IsEmpty board }
        ensures stands { FullStands result (nothing Full board.pool.size) }
        ensures board { result.board ≡ board }
    {
        empty_stands_for_nothing();
        FullSpace {
            board,
            live: LiveRegions::new(),
        }
    }

    /// Its board as it is, which stands for what the space stood for. Its memory has the frames that the space showed.
    pub fn into_board(self) -> Board
        ensures stands { (c : Content) → FullStands self c → Stands result c }
        ensures memory { result.memory ≡ frames_of self }
        ensures board { result ≡ self.board }
    {
        self.board
    }
}

impl Stores for FullSpace {
    ghost use Rattle.std.proofs.Common.{◌∙◌, sym};
    ghost use Rattle.full_space.specs.Full.{FullStands, full_translations};
    ghost use Rattle.full_space.specs.Steps.{translation_of};
    ghost use Rattle.stores.proofs.WholeContents.{stands-whole};
    ghost use Rattle.stores.proofs.ShownPages.{translations-show};
    ghost use Rattle.full_space.specs.Shown.{own-shown};

    ghost stands_for = { FullStands };

    ghost translation_at = { full_translations };

    ghost is_whole = { λ space c stands. stands-whole space.board c stands.board };

    ghost is_shown = { λ space c stands. translations-show space.board c stands.board (λ region. translation_of) (own-shown space.board space.own) };

    ghost are_same = { λ space c d first second region. second.stores region ∙ sym (first.stores region) };

    fn begin(&mut self, region: u32) {
        self.live.begin(region);
    }

    fn end(&mut self, region: u32) {
        drop_pages(&mut self.board, region);
        self.live.end(region);
    }

    fn add_page(
        &mut self,
        region: u32,
        page: u32,
        rights: u8,
        bytes: &[u8],
    ) -> Result<(), NoFrame> {
        add_own_page(&mut self.board, region, page, rights, bytes)
    }

    fn seed_cap(&mut self, region: u32, at: u64, cap: Cap) {
        let entry = entry_of(&self.board, region, page_of(at)).unwrap();
        self.board.memory.store_cap(entry.frame, byte_of(at), cap);
    }

    fn read(&mut self, region: u32, at: u64, size: usize) -> Result<(u64, Note), Refusal> {
        let entry = entry_for(&self.board, region, at, Access::Read)?;
        let number = self.board.memory.load(entry.frame, byte_of(at), size);
        Ok((number, UNTOUCHED))
    }

    fn read_cap(&mut self, region: u32, at: u64) -> Result<(Cap, Note), Refusal> {
        let entry = entry_for(&self.board, region, at, Access::Read)?;
        let cap = self.board.memory.load_cap(entry.frame, byte_of(at));
        Ok((cap, UNTOUCHED))
    }

    fn write(&mut self, region: u32, at: u64, size: usize, v: u64) -> Result<Note, Refusal> {
        let entry = entry_for(&self.board, region, at, Access::Write)?;
        self.board.memory.store(entry.frame, byte_of(at), size, v);
        Ok(UNTOUCHED)
    }

    fn write_cap(&mut self, region: u32, at: u64, cap: Cap) -> Result<Note, Refusal> {
        let entry = entry_for(&self.board, region, at, Access::Write)?;
        self.board.memory.store_cap(entry.frame, byte_of(at), cap);
        Ok(UNTOUCHED)
    }

    fn fetch(&mut self, region: u32, at: u64) -> Result<(u32, Note), Refusal> {
        let entry = entry_for(&self.board, region, at, Access::Fetch)?;
        let word = self.board.memory.load(entry.frame, byte_of(at), 4);
        Ok((word as u32, UNTOUCHED))
    }

    fn covers(&self, region: u32, at: u64, n: u64, access: Access) -> bool {
        covers(&self.board, region, at, n, access)
    }

    fn prepare(
        &mut self,
        _region: u32,
        _at: u64,
        _n: usize,
        _access: Access,
    ) -> Result<[Note; 2], NoFrame> {
        Ok([UNTOUCHED; 2])
    }

    fn read_bytes(&self, region: u32, at: u64, into: &mut [u8]) {
        bytes_out(&self.board, region, at, into);
    }

    fn write_bytes(&mut self, region: u32, at: u64, from: &[u8]) {
        bytes_in(&mut self.board, region, at, from);
    }

    fn fork(&mut self, from: u32, to: u32) -> Result<(), NoFrame> {
        if self.board.pool.free() < page_count(&self.board, from) {
            return Err(NoFrame { before: UNTOUCHED });
        }
        copy_pages(&mut self.board, from, to);
        self.live.begin(to);
        Ok(())
    }

    fn peek(&self, region: u32, page: u32, granule: u32) -> Option<Cap> {
        let entry = entry_of(&self.board, region, page)?;
        Some(
            self.board
                .memory
                .load_cap(entry.frame, GRANULE_BYTES * granule as usize),
        )
    }

    fn rights(&self, region: u32, page: u32) -> Option<u8> {
        let entry = entry_of(&self.board, region, page)?;
        Some(entry.rights)
    }

    fn used(&self) -> u32 {
        self.board.pool.used()
    }

    fn size(&self) -> u32 {
        self.board.pool.size()
    }

    fn translate(&self, region: u32, page: u32) -> Option<Translation> {
        let entry = entry_of(&self.board, region, page)?;
        Some(Translation {
            frame: entry.frame,
            rights: entry.rights,
            home: true,
            alone: true,
        })
    }
}

// The page of a place.
fn page_of(at: u64) -> u32
    requires { at < REGION_BYTES }
    ensures { result ≡ at / PAGE_BYTES }
{
    (at / PAGE_BYTES as u64) as u32
}

// The byte of a place in its page.
fn byte_of(at: u64) -> usize
    ensures { result ≡ at % PAGE_BYTES }
{
    (at % PAGE_BYTES as u64) as usize
}
