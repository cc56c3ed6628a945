// The trait of spaces.
ghost use Rattle.std.specs.Prelude.{◌≡◌, ◌≢◌, ◌<◌, ◌≤◌, ◌+◌, ◌%◌, ◌⊎◌, ℕ, IsOk, IsErr, IsTrue, Option, length};
ghost use Rattle.std.specs.Option.{option_map};
ghost use Rattle.machine_types.specs.Granules.{IsSize};
ghost use Rattle.machine_types.specs.Held.{MayHold};
ghost use Rattle.contents.specs.Content.{Content, used_frames};
ghost use Rattle.contents.specs.Accesses.{read_of, read_cap_of, fetch_of, write_of, write_cap_of, page_of_place};
ghost use Rattle.contents.specs.Regions.{begin_of, end_of, add_page_of, seed_cap_of, fork_of};
ghost use Rattle.contents.specs.Transfers.{covers_of, prepare_of, read_bytes_of, write_bytes_of};
ghost use Rattle.contents.specs.Looks.{peek_of, rights_of, standing_of};
ghost use Rattle.contents.specs.Touching.{notes_of_load, notes_of_store, notes_of_transfer};
ghost use Rattle.contents.specs.Whole.{IsWhole};
ghost use Rattle.contents.specs.Laws.{HasSameRegions};
ghost use Rattle.stores.specs.Known.{Translations, StandsFor, Any, KeepsStores, KeepsOtherStores, standing, FrameStays, FramesStay, OtherFramesStay, FramesStayBut};
ghost use Rattle.contents.specs.Conditions.{HasStore, HasNoStore, HasEmptyStore, LacksPage, IsOwn, Covers, IsPrepared};
ghost use Rattle.machine_types.specs.declared.touches.Access.TheVariants.{Read, Write};

use crate::MOST_TRANSFER;
use cap_format::{
    Cap, GRANULE_BYTES, MOST_REGIONS, PAGE_BYTES, PAGE_GRANULES, REGION_BYTES, REGION_PAGES,
};
use contents::Refusal;
use machine_types::{Access, FrameNo, NoFrame, Note};

/// How a page of a region stands.
#[derive(Clone, Copy, Debug, PartialEq, Eq)]
pub struct Translation {
    /// The frame that holds the page.
    pub frame: FrameNo,
    /// The rights of the page.
    pub rights: u8,
    /// Whether the region is the home of the page's class.
    pub home: bool,
    /// Whether the page is alone in its class.
    pub alone: bool,
}

/// A space of stores: a store of pages for each region that has one, and the frame account over them.
///
/// Which content a space stands for is a relation, since no space keeps the order of the account's classes. Each
/// clause holds for every content that it stands for before the call, and names the one that it stands for afterwards.
/// A condition asks that it stands for some content with a property.
///
/// A region is below [`MOST_REGIONS`], a page below [`REGION_PAGES`], and a place `at` is a byte of the region, below
/// [`REGION_BYTES`]. No call takes memory. A refused call changes nothing, except that in [`Stores::prepare`] the touch
/// that was made before stays. The account, touches and copies are this project's own.
pub trait Stores {
    /// The contents that it stands for.
    ghost stands_for: { Self → Content → Type 0 };

    /// The translation of each page of each region: the second meaning, since contents say nothing of frames.
    ghost translation_at: { Self → Translations };

    /// Gives a region, which has none, an empty store.
    fn begin(&mut self, region: u32)
        requires region { region < MOST_REGIONS }
        requires none { ∥ StandsFor stands_for self.old (HasNoStore region) ∥₁ }
        ensures after { (c : Content) → stands_for self.old c → stands_for self.new (begin_of c region) }
        ensures begun { ∥ StandsFor stands_for self.new (HasStore region) ∥₁ }
        ensures empty { ∥ StandsFor stands_for self.new (HasEmptyStore region) ∥₁ }
        ensures keeps { KeepsOtherStores stands_for region self.old self.new }
        ensures frames { FramesStay (translation_at self.old) (translation_at self.new) };

    /// Ends the store of a region, which has one. Its pages leave their classes, and classes without members go.
    fn end(&mut self, region: u32)
        requires region { region < MOST_REGIONS }
        requires store { ∥ StandsFor stands_for self.old (HasStore region) ∥₁ }
        ensures after { (c : Content) → stands_for self.old c → stands_for self.new (end_of c region) }
        ensures ended { ∥ StandsFor stands_for self.new (HasNoStore region) ∥₁ }
        ensures keeps { KeepsOtherStores stands_for region self.old self.new }
        ensures frames { OtherFramesStay (translation_at self.old) (translation_at self.new) region };

    /// Gives a store a page that it doesn't have, with rights below 8: at most [`PAGE_BYTES`] bytes, and then zeros,
    /// without a tag. It is a class of its own, with the region as home. [`NoFrame`] comes exactly where no frame is
    /// free.
    fn add_page(&mut self, region: u32, page: u32, rights: u8, bytes: &[u8]) -> Result<(), NoFrame>
        requires region { region < MOST_REGIONS }
        requires page { page < REGION_PAGES }
        requires rights { rights < 8 }
        requires within { length bytes.now ≤ PAGE_BYTES }
        requires absent { ∥ StandsFor stands_for self.old (LacksPage region page) ∥₁ }
        ensures answer { (c : Content) → stands_for self.old c → result ≡ (add_page_of c region page rights bytes.now).answer }
        ensures after { (c : Content) → stands_for self.old c → stands_for self.new (add_page_of c region page rights bytes.now).after }
        ensures own { IsOk result → ∥ StandsFor stands_for self.new (IsOwn region page) ∥₁ }
        ensures keeps { KeepsStores stands_for self.old self.new }
        ensures frames { (r p : ℕ) → (r ≢ region) ⊎ (p ≢ page) → FrameStays (translation_at self.old) (translation_at self.new) r p }
        ensures refused { IsErr result → FramesStay (translation_at self.old) (translation_at self.new) };

    /// Stores a granule, whatever the rights of its page, which is alone in its class and has the region as home. A
    /// tagged one is inside the region. The place is a multiple of [`GRANULE_BYTES`].
    fn seed_cap(&mut self, region: u32, at: u64, cap: Cap)
        requires region { region < MOST_REGIONS }
        requires aligned { at % GRANULE_BYTES ≡ 0 }
        requires within { at < REGION_BYTES }
        requires held { MayHold region cap }
        requires own { ∥ StandsFor stands_for self.old (IsOwn region (page_of_place at)) ∥₁ }
        ensures after { (c : Content) → stands_for self.old c → stands_for self.new (seed_cap_of c region at cap) }
        ensures keeps { KeepsStores stands_for self.old self.new }
        ensures frames { FramesStay (translation_at self.old) (translation_at self.new) };

    /// The number of `size` bytes, 1, 2, 4 or 8, at a place that is a multiple of `size`, with the touch that the read
    /// made. It wants the right R.
    fn read(&mut self, region: u32, at: u64, size: usize) -> Result<(u64, Note), Refusal>
        requires region { region < MOST_REGIONS }
        requires size { IsSize size }
        requires aligned { at % size ≡ 0 }
        requires within { at < REGION_BYTES }
        requires some { ∥ StandsFor stands_for self.old Any ∥₁ }
        ensures answer { (c : Content) → stands_for self.old c → result ≡ (read_of c region at size).answer }
        ensures after { (c : Content) → stands_for self.old c → stands_for self.new (read_of c region at size).after }
        ensures keeps { KeepsStores stands_for self.old self.new }
        ensures frames { FramesStayBut (translation_at self.old) (translation_at self.new) region (notes_of_load result) };

    /// The granule at a place that is a multiple of [`GRANULE_BYTES`], with its tag, and the touch that the read made. It
    /// wants the right R.
    fn read_cap(&mut self, region: u32, at: u64) -> Result<(Cap, Note), Refusal>
        requires region { region < MOST_REGIONS }
        requires aligned { at % GRANULE_BYTES ≡ 0 }
        requires within { at < REGION_BYTES }
        requires some { ∥ StandsFor stands_for self.old Any ∥₁ }
        ensures answer { (c : Content) → stands_for self.old c → result ≡ (read_cap_of c region at).answer }
        ensures after { (c : Content) → stands_for self.old c → stands_for self.new (read_cap_of c region at).after }
        ensures keeps { KeepsStores stands_for self.old self.new }
        ensures frames { FramesStayBut (translation_at self.old) (translation_at self.new) region (notes_of_load result) };

    /// Stores the low `size` bytes of a number, 1, 2, 4 or 8, at a place that is a multiple of `size`, and clears the
    /// tag of their granule. The answer is the touch that the write made. It wants the right W.
    fn write(&mut self, region: u32, at: u64, size: usize, v: u64) -> Result<Note, Refusal>
        requires region { region < MOST_REGIONS }
        requires size { IsSize size }
        requires aligned { at % size ≡ 0 }
        requires within { at < REGION_BYTES }
        requires some { ∥ StandsFor stands_for self.old Any ∥₁ }
        ensures answer { (c : Content) → stands_for self.old c → result ≡ (write_of c region at size v).answer }
        ensures after { (c : Content) → stands_for self.old c → stands_for self.new (write_of c region at size v).after }
        ensures keeps { KeepsStores stands_for self.old self.new }
        ensures frames { FramesStayBut (translation_at self.old) (translation_at self.new) region (notes_of_store result) };

    /// Stores a granule with its tag at a place that is a multiple of [`GRANULE_BYTES`]. A tagged one is inside the
    /// region. The answer is the touch that the write made. It wants the right W.
    fn write_cap(&mut self, region: u32, at: u64, cap: Cap) -> Result<Note, Refusal>
        requires region { region < MOST_REGIONS }
        requires aligned { at % GRANULE_BYTES ≡ 0 }
        requires within { at < REGION_BYTES }
        requires held { MayHold region cap }
        requires some { ∥ StandsFor stands_for self.old Any ∥₁ }
        ensures answer { (c : Content) → stands_for self.old c → result ≡ (write_cap_of c region at cap).answer }
        ensures after { (c : Content) → stands_for self.old c → stands_for self.new (write_cap_of c region at cap).after }
        ensures keeps { KeepsStores stands_for self.old self.new }
        ensures frames { FramesStayBut (translation_at self.old) (translation_at self.new) region (notes_of_store result) };

    /// The four bytes at a place that is a multiple of 4, with the touch that the fetch made. It wants the right X.
    fn fetch(&mut self, region: u32, at: u64) -> Result<(u32, Note), Refusal>
        requires region { region < MOST_REGIONS }
        requires aligned { at % 4 ≡ 0 }
        requires within { at < REGION_BYTES }
        requires some { ∥ StandsFor stands_for self.old Any ∥₁ }
        ensures answer { (c : Content) → stands_for self.old c → result ≡ (fetch_of c region at).answer }
        ensures after { (c : Content) → stands_for self.old c → stands_for self.new (fetch_of c region at).after }
        ensures keeps { KeepsStores stands_for self.old self.new }
        ensures frames { FramesStayBut (translation_at self.old) (translation_at self.new) region (notes_of_load result) };

    /// Whether every page under the `n` bytes from a place on is there, with the right that the access wants. The bytes
    /// lie in the region. No bytes are always covered.
    fn covers(&self, region: u32, at: u64, n: u64, access: Access) -> bool
        requires region { region < MOST_REGIONS }
        requires within { at + n ≤ REGION_BYTES }
        requires some { ∥ StandsFor stands_for self.now Any ∥₁ }
        ensures answer { (c : Content) → stands_for self.now c → result ≡ covers_of c region at n access }
        ensures covered { IsTrue result → ∥ StandsFor stands_for self.now (Covers region at n access) ∥₁ };

    /// Makes the touches of a transfer of 1 to [`MOST_TRANSFER`] bytes that are covered, the lowest page first. The
    /// answer has those that were made, in their order, and then none. [`NoFrame`] comes exactly where one finds no
    /// frame; the touch that was made before it stays.
    fn prepare(
        &mut self,
        region: u32,
        at: u64,
        n: usize,
        access: Access,
    ) -> Result<[Note; 2], NoFrame>
        requires region { region < MOST_REGIONS }
        requires least { 1 ≤ n }
        requires most { n ≤ MOST_TRANSFER }
        requires within { at + n ≤ REGION_BYTES }
        requires covered { ∥ StandsFor stands_for self.old (Covers region at n access) ∥₁ }
        ensures answer { (c : Content) → stands_for self.old c → result ≡ (prepare_of c region at n access).answer }
        ensures after { (c : Content) → stands_for self.old c → stands_for self.new (prepare_of c region at n access).after }
        ensures prepared { IsOk result → ∥ StandsFor stands_for self.new (IsPrepared region at n access) ∥₁ }
        ensures keeps { KeepsStores stands_for self.old self.new }
        ensures frames { FramesStayBut (translation_at self.old) (translation_at self.new) region (notes_of_transfer result) };

    /// The bytes from a place on. They are covered for a read, and none of their pages would be touched by it.
    fn read_bytes(&self, region: u32, at: u64, into: &mut [u8])
        requires region { region < MOST_REGIONS }
        requires within { at + length into.old ≤ REGION_BYTES }
        requires prepared { ∥ StandsFor stands_for self.now (IsPrepared region at (length into.old) Read) ∥₁ }
        ensures { (c : Content) → stands_for self.now c → into.new ≡ read_bytes_of c region at (length into.old) };

    /// Stores bytes from a place on, and clears the tags of the granules that they overlap. They are covered for a
    /// write, and none of their pages would be touched by it.
    fn write_bytes(&mut self, region: u32, at: u64, from: &[u8])
        requires region { region < MOST_REGIONS }
        requires within { at + length from.now ≤ REGION_BYTES }
        requires prepared { ∥ StandsFor stands_for self.old (IsPrepared region at (length from.now) Write) ∥₁ }
        ensures after { (c : Content) → stands_for self.old c → stands_for self.new (write_bytes_of c region at from.now) }
        ensures keeps { KeepsStores stands_for self.old self.new }
        ensures frames { FramesStay (translation_at self.old) (translation_at self.new) };

    /// Gives the region `to`, which has no store, the store of `from`, moved. [`NoFrame`] comes only under
    /// [`Rule::Full`](machine_types::Rule::Full), exactly where fewer frames are free than `from` has pages.
    ///
    /// The two conditions on stores may hold of two contents, since the same regions have a store in all contents that
    /// a space stands for.
    fn fork(&mut self, from: u32, to: u32) -> Result<(), NoFrame>
        requires from { from < MOST_REGIONS }
        requires to { to < MOST_REGIONS }
        requires store { ∥ StandsFor stands_for self.old (HasStore from) ∥₁ }
        requires none { ∥ StandsFor stands_for self.old (HasNoStore to) ∥₁ }
        ensures answer { (c : Content) → stands_for self.old c → result ≡ (fork_of c from to).answer }
        ensures after { (c : Content) → stands_for self.old c → stands_for self.new (fork_of c from to).after }
        ensures begun { IsOk result → ∥ StandsFor stands_for self.new (HasStore to) ∥₁ }
        ensures keeps { KeepsOtherStores stands_for to self.old self.new }
        ensures frames { OtherFramesStay (translation_at self.old) (translation_at self.new) to }
        ensures refused { IsErr result → FramesStay (translation_at self.old) (translation_at self.new) };

    /// What a page holds at a granule, below [`PAGE_GRANULES`], without a touch. None comes exactly where the page is
    /// absent.
    fn peek(&self, region: u32, page: u32, granule: u32) -> Option<Cap>
        requires region { region < MOST_REGIONS }
        requires page { page < REGION_PAGES }
        requires granule { granule < PAGE_GRANULES }
        requires some { ∥ StandsFor stands_for self.now Any ∥₁ }
        ensures { (c : Content) → stands_for self.now c → result ≡ peek_of c region page granule };

    /// The rights of a page. None comes exactly where the page is absent.
    fn rights(&self, region: u32, page: u32) -> Option<u8>
        requires region { region < MOST_REGIONS }
        requires page { page < REGION_PAGES }
        requires some { ∥ StandsFor stands_for self.now Any ∥₁ }
        ensures { (c : Content) → stands_for self.now c → result ≡ rights_of c region page };

    /// How many frames are used.
    fn used(&self) -> u32
        requires { ∥ StandsFor stands_for self.now Any ∥₁ }
        ensures { (c : Content) → stands_for self.now c → result ≡ used_frames c };

    /// How many frames there are.
    fn size(&self) -> u32
        requires { ∥ StandsFor stands_for self.now Any ∥₁ }
        ensures { (c : Content) → stands_for self.now c → result ≡ c.frames };

    /// The frame of a page, its rights, and how it stands in its class. None comes exactly where the page is absent.
    fn translate(&self, region: u32, page: u32) -> Option<Translation>
        requires region { region < MOST_REGIONS }
        requires page { page < REGION_PAGES }
        requires some { ∥ StandsFor stands_for self.now Any ∥₁ }
        ensures answer { (c : Content) → stands_for self.now c → option_map standing result ≡ standing_of c region page }
        ensures is { result ≡ translation_at self.now region page };

    /// Every content that it stands for is whole.
    ghost is_whole: { (s : Self) (c : Content) → stands_for s c → IsWhole c };

    /// A translation shows how the page stands in every content that the space stands for, and is there exactly where
    /// the page is.
    ghost is_shown: { (s : Self) (c : Content) → stands_for s c → (region page : ℕ) → option_map standing (translation_at s region page) ≡ standing_of c region page };

    /// The same regions have a store in all contents that it stands for.
    ghost are_same: { (s : Self) (c d : Content) → stands_for s c → stands_for s d → HasSameRegions c d };
}
