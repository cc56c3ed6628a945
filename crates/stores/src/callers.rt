// Several calls in a row, over any space.
ghost use Rattle.std.specs.Prelude.{◌≡◌, ◌<◌, ◌≤◌, ◌+◌, ◌%◌, ℕ, IsTrue, IsOk, length};
ghost use Rattle.contents.specs.Content.{Content};
ghost use Rattle.stores.specs.Known.{StandsFor, Any};
ghost use Rattle.contents.specs.Conditions.{HasStore, HasNoStore};
ghost use Rattle.contents.specs.Transfers.{read_bytes_of};
ghost use Rattle.machine_types.specs.Held.{MayHold};
ghost use Rattle.contents.specs.Conditions.{HasEmptyStore, IsOwn};
ghost use Rattle.stores.specs.Callers.{add_and_fork_of, take_bytes_of, add_pages_of, seed_pages_of, fill_region_of};

use crate::MOST_TRANSFER;
use crate::space::Stores;
use cap_format::{Cap, MOST_REGIONS, PAGE_BYTES, REGION_BYTES, REGION_PAGES};
use contents::Refusal;
use machine_types::{Access, NoFrame};

/// Adds the number of eight bytes at one place of a region to that at another, modulo `2^64`, and forks the region to one
/// that has no store. Both places are multiples of 8 below [`REGION_BYTES`], and both regions below [`MOST_REGIONS`]. The
/// refusal of one of the four calls ends it, and what the earlier ones did stays; a fork that is refused is
/// [`Refusal::NoFrame`].
pub fn add_and_fork<S: Stores>(
    space: &mut S,
    region: u32,
    from: u64,
    to: u64,
    child: u32,
) -> Result<(), Refusal>
    requires region { region < MOST_REGIONS }
    requires child { child < MOST_REGIONS }
    requires from { from < REGION_BYTES }
    requires from_aligned { from % 8 ≡ 0 }
    requires to { to < REGION_BYTES }
    requires to_aligned { to % 8 ≡ 0 }
    requires store { ∥ StandsFor S.stands_for space.old (HasStore region) ∥₁ }
    requires none { ∥ StandsFor S.stands_for space.old (HasNoStore child) ∥₁ }
    ensures answer { (c : Content) → S.stands_for space.old c → result ≡ (add_and_fork_of c region from to child).answer }
    ensures after { (c : Content) → S.stands_for space.old c → S.stands_for space.new (add_and_fork_of c region from to child).after }
{
    let (first, _) = space.read(region, from, 8)?;
    let (second, _) = space.read(region, to, 8)?;
    let _touched = space.write(region, to, 8, first.wrapping_add(second))?;
    space.fork(region, child).map_err(|_| Refusal::NoFrame)
}

/// Reads 1 to [`MOST_TRANSFER`] bytes from a place of a region on, as the kernel does: nothing where a page is absent or
/// may not be read; then the touches; and where they found their frames, the bytes. The answer says whether they were read.
pub fn take_bytes<S: Stores>(space: &mut S, region: u32, at: u64, into: &mut [u8]) -> bool
    requires region { region < MOST_REGIONS }
    requires least { 1 ≤ length into.old }
    requires most { length into.old ≤ MOST_TRANSFER }
    requires within { at + length into.old ≤ REGION_BYTES }
    requires some { ∥ StandsFor S.stands_for space.old Any ∥₁ }
    ensures answer { (c : Content) → S.stands_for space.old c → result ≡ (take_bytes_of c region at (length into.old)).answer }
    ensures after { (c : Content) → S.stands_for space.old c → S.stands_for space.new (take_bytes_of c region at (length into.old)).after }
    ensures bytes { (c : Content) → S.stands_for space.new c → IsTrue result → into.new ≡ read_bytes_of c region at (length into.old) }
{
    if !space.covers(region, at, into.len() as u64, Access::Read) {
        return false;
    }
    match space.prepare(region, at, into.len(), Access::Read) {
        Ok(_) => {
            space.read_bytes(region, at, into);
            true
        }
        Err(_) => false,
    }
}

/// Gives a region, which has no store, a store of so many empty pages from page 0 on, up to [`REGION_PAGES`], with rights
/// below 8, and stores a granule at the front of each. A tagged one is inside the region. [`NoFrame`] comes where a page
/// finds no frame; the earlier ones stay, and no granule is stored.
pub fn fill_region<S: Stores>(
    space: &mut S,
    region: u32,
    pages: u32,
    rights: u8,
    cap: Cap,
) -> Result<(), NoFrame>
    requires region { region < MOST_REGIONS }
    requires pages { pages ≤ REGION_PAGES }
    requires rights { rights < 8 }
    requires held { MayHold region cap }
    requires none { ∥ StandsFor S.stands_for space.old (HasNoStore region) ∥₁ }
    ensures answer { (c : Content) → S.stands_for space.old c → result ≡ (fill_region_of c region pages rights cap).answer }
    ensures after { (c : Content) → S.stands_for space.old c → S.stands_for space.new (fill_region_of c region pages rights cap).after }
{
    space.begin(region);
    add_pages(space, region, pages, rights)?;
    seed_pages(space, region, pages, cap);
    Ok(())
}

// Adds so many empty pages to a store without pages. Each is its region's own.
fn add_pages<S: Stores>(space: &mut S, region: u32, pages: u32, rights: u8) -> Result<(), NoFrame>
    requires region { region < MOST_REGIONS }
    requires pages { pages ≤ REGION_PAGES }
    requires rights { rights < 8 }
    requires empty { ∥ StandsFor S.stands_for space.old (HasEmptyStore region) ∥₁ }
    ensures answer { (c : Content) → S.stands_for space.old c → result ≡ (add_pages_of c region rights pages).answer }
    ensures after { (c : Content) → S.stands_for space.old c → S.stands_for space.new (add_pages_of c region rights pages).after }
    ensures own { IsOk result → (page : ℕ) → page < pages → ∥ StandsFor S.stands_for space.new (IsOwn region page) ∥₁ }
{
    for page in 0..pages {
        space.add_page(region, page, rights, &[])?;
    }
    Ok(())
}

// Stores a granule at the front of each of so many pages, which are their region's own.
fn seed_pages<S: Stores>(space: &mut S, region: u32, pages: u32, cap: Cap)
    requires region { region < MOST_REGIONS }
    requires pages { pages ≤ REGION_PAGES }
    requires held { MayHold region cap }
    requires own { (page : ℕ) → page < pages → ∥ StandsFor S.stands_for space.old (IsOwn region page) ∥₁ }
    ensures after { (c : Content) → S.stands_for space.old c → S.stands_for space.new (seed_pages_of c region cap pages) }
{
    for page in 0..pages {
        space.seed_cap(region, u64::from(page) * PAGE_BYTES as u64, cap);
    }
}
