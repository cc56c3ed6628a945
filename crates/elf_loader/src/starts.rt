// The start of an image in a space.
ghost use Rattle.std.specs.Prelude.{◌≡◌, ◌<◌, ◌≤◌, ◌+◌, ◌*◌, All, IsErr, IsOk, length, Ok};
ghost use Rattle.contents.specs.Conditions.{HasNoStore, HasStore};
ghost use Rattle.contents.specs.Content.{Content};
ghost use Rattle.stores.specs.Known.{StandsFor, KeepsStores, KeepsOtherStores, FramesStay, OtherFramesStay};
ghost use Rattle.elf_loader.specs.Loaded.{IsRead};
ghost use Rattle.machine_types.specs.Held.{MayHold};
ghost use Rattle.elf_loader.specs.Start.{first_page, page_count, page_part, with_pages, with_segments, with_relocations, capability_for, start_registers, start_pcc, IsStarted};
ghost use Rattle.elf_loader.specs.Adding.{IsPlaced, ArePlaced, page_total, HasRoom, IsPlaceable, HasOwnPlaces};

use crate::PROCESS_REGION;
use crate::image::{Image, Reloc, Segment};
use cap_format::{
    Cap, EXECUTE, FIRST_REGION, IMAGE_BYTES, LOAD, LOAD_CAPABILITY, PAGE_BYTES, REGION_BYTES,
    REGION_PAGES, STORE, STORE_CAPABILITY, images_are_sound,
};
use contents::calls_keep_whole;
use machine_types::{NoFrame, Regs};
use stores::{Stores, UNTOUCHED};

/// What PCC allows at the start: to execute and to load.
const CODE_PERMISSIONS: u16 = EXECUTE | LOAD | LOAD_CAPABILITY;

/// What register 2 allows at the start: to load and to store.
const DATA_PERMISSIONS: u16 = LOAD | STORE | LOAD_CAPABILITY | STORE_CAPABILITY;

/// The registers with which a process begins.
#[derive(Drop)]
pub struct StartState {
    /// The registers. Number 2 is the whole region for data.
    pub regs: Regs,
    /// The capability for code, at the entry.
    pub pcc: Cap,
}

// How many pages a segment has. It lies in the region.
fn page_count(segment: &Segment) -> u32
    requires some { 1 ≤ segment.now.size }
    requires within { segment.now.start + segment.now.size ≤ REGION_BYTES }
    ensures { result ≡ page_count segment.now }
{
    let end = (segment.start + segment.size).next_multiple_of(PAGE_BYTES as u64);
    ((end - segment.start) / PAGE_BYTES as u64) as u32
}

// The bytes of a segment that stand in the file on one of its pages, counted from its first.
fn page_part<'a>(bytes: &'a [u8], segment: &Segment, number: u32) -> &'a [u8]
    requires part { segment.now.from + segment.now.file_size ≤ length bytes.now }
    requires short { length bytes.now ≤ IMAGE_BYTES }
    requires number { number < REGION_PAGES }
    ensures is { result.now ≡ page_part bytes.now segment.now number }
    ensures short { length result.now ≤ PAGE_BYTES }
{
    let from = segment.from as usize;
    let part = &bytes[from..from + segment.file_size as usize];
    let start = part.len().min(number as usize * PAGE_BYTES);
    let end = part.len().min(start + PAGE_BYTES);
    &part[start..end]
}

// Gives region 0 the pages of a segment, for which there are frames.
fn add_segment<S: Stores>(space: &mut S, bytes: &[u8], segment: &Segment)
    requires short { length bytes.now ≤ IMAGE_BYTES }
    requires placed { IsPlaced (length bytes.now) segment.now }
    requires room { ∥ StandsFor S.stands_for space.old (HasRoom (first_page segment.now) (page_count segment.now)) ∥₁ }
    ensures after { (c : Content) → S.stands_for space.old c → HasRoom (first_page segment.now) (page_count segment.now) c
        → S.stands_for space.new (with_pages bytes.now segment.now c (page_count segment.now)) }
    ensures keeps { KeepsStores S.stands_for space.old space.new }
    ensures frames { OtherFramesStay (S.translation_at space.old) (S.translation_at space.new) PROCESS_REGION }
{
    let first = (segment.start / PAGE_BYTES as u64) as u32;
    for number in 0..page_count(segment) {
        let part = page_part(bytes, segment, number);
        let _added = space.add_page(PROCESS_REGION, first + number, segment.rights, part);
    }
}

// Gives region 0, which has no page, the pages of segments, in order. There are frames for them.
fn add_segments<S: Stores>(space: &mut S, bytes: &[u8], segments: &[Segment])
    requires short { length bytes.now ≤ IMAGE_BYTES }
    requires placed { ArePlaced (length bytes.now) 0 segments.now }
    requires room { ∥ StandsFor S.stands_for space.old (HasRoom 0 (page_total segments.now)) ∥₁ }
    ensures after { (c : Content) → S.stands_for space.old c → HasRoom 0 (page_total segments.now) c → S.stands_for space.new (with_segments bytes.now c segments.now) }
    ensures keeps { KeepsStores S.stands_for space.old space.new }
    ensures frames { OtherFramesStay (S.translation_at space.old) (S.translation_at space.new) PROCESS_REGION }
{
    for segment in segments {
        add_segment(space, bytes, segment);
    }
}

// What a relocation stores.
fn capability_for(reloc: &Reloc) -> Cap
    requires { IsPlaceable reloc.now }
    ensures is { result ≡ capability_for reloc.now }
    ensures held { MayHold PROCESS_REGION result }
{
    let base = FIRST_REGION + reloc.base;
    Cap::root(PROCESS_REGION, reloc.perms)
        .with_address(base)
        .set_bounds(reloc.length)
        .cap
        .with_address(base + reloc.offset)
}

// Stores the capabilities of relocations, in order, on pages that are the process's own.
fn seed_relocs<S: Stores>(space: &mut S, relocs: &[Reloc])
    requires placeable { All IsPlaceable relocs.now }
    requires own { ∥ StandsFor S.stands_for space.old (HasOwnPlaces relocs.now) ∥₁ }
    ensures after { (c : Content) → S.stands_for space.old c → S.stands_for space.new (with_relocations c relocs.now) }
    ensures keeps { KeepsStores S.stands_for space.old space.new }
    ensures frames { FramesStay (S.translation_at space.old) (S.translation_at space.new) }
{
    for reloc in relocs {
        space.seed_cap(PROCESS_REGION, reloc.place, capability_for(reloc));
    }
}

fn start_registers() -> Regs
    ensures { result ≡ start_registers }
{
    let mut regs = Regs::new();
    regs.put(2, Cap::root(PROCESS_REGION, DATA_PERMISSIONS));
    regs
}

fn start_pcc(entry: u64) -> Cap
    requires { entry < REGION_BYTES }
    ensures { result ≡ start_pcc entry }
{
    Cap::root(PROCESS_REGION, CODE_PERMISSIONS).with_address(FIRST_REGION + entry)
}

/// Starts an image in a space: process 1 gets region 0, which has no store.
///
/// `image` was read from `bytes`. Each page of a segment has the segment's rights, the file's bytes and then zeros; then each
/// relocation stores its capability, whatever the rights of its page. PCC is the whole region for code, at the entry; register 2
/// is the whole region for data, at its start, and the other registers are null. The start is this project's own.
///
/// [`NoFrame`] comes exactly where the image has more pages than frames are free. Nothing changes then.
pub fn start<S: Stores>(image: &Image, bytes: &[u8], space: &mut S) -> Result<StartState, NoFrame>
    requires read { IsRead bytes.now (Ok image.now) }
    requires none { ∥ StandsFor S.stands_for space.old (HasNoStore PROCESS_REGION) ∥₁ }
    ensures started { (c : Content) → S.stands_for space.old c → IsStarted bytes.now image.now c result (S.stands_for space.new) }
    ensures store { IsOk result → ∥ StandsFor S.stands_for space.new (HasStore PROCESS_REGION) ∥₁ }
    ensures keeps { KeepsOtherStores S.stands_for PROCESS_REGION space.old space.new }
    ensures frames { OtherFramesStay (S.translation_at space.old) (S.translation_at space.new) PROCESS_REGION }
    ensures refused { IsErr result → space.new ≡ space.old }
{
    if space.size() - space.used() < image.pages {
        return Err(NoFrame { before: UNTOUCHED });
    }
    images_are_sound();
    calls_keep_whole();
    space.begin(PROCESS_REGION);
    add_segments(space, bytes, image.segments.list());
    seed_relocs(space, image.relocs.list());
    Ok(StartState {
        regs: start_registers(),
        pcc: start_pcc(image.entry),
    })
}
