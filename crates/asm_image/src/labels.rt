// The labels of a listing, and its entry.
ghost use Rattle.std.specs.Prelude.{◌≡◌, ℕ, ◌<◌, ◌^◌, not, false, is_some, IfOk, OnOk, None, [], Ok, List};
ghost use Rattle.asm_text.specs.Ranges.{HasRanges};
ghost use Rattle.asm_text.specs.Lines.{slice_of};
ghost use Rattle.asm_text.specs.Source.{source_of};
ghost use Rattle.asm_image.specs.Places.{here};
ghost use Rattle.asm_image.specs.Faults.{found_by};
ghost use Rattle.asm_image.specs.Labels.{offsets_in, entry_span, entry_in};
ghost use Rattle.asm_image.specs.Rules.{names_rules};
ghost use Rattle.asm_image.specs.Layout.{AreSmall, with_label};
ghost use Rattle.asm_image.specs.Known.{known};

use crate::found::Found;
use crate::place::{OpenSegment, open_after, place_in};
use asm_text::{Item, Listing, SourceReason, Span, What, sources_have_ranges};
use std::alloc::{AllocError, Global};
use std::collections::BTreeMap;

/// Labels by their names, each with its offset in the region, in bytes.
#[derive(Drop)]
pub struct Labels {
    offsets: BTreeMap<Vec<u8>, u128>,
}

impl Labels {
    // No labels.
    fn new(alloc: Global) -> Labels
        ensures { (name : List ℕ) → known result name ≡ None }
    {
        Labels {
            offsets: BTreeMap::new(alloc),
        }
    }

    /// The offset of a label, if there is one of the name.
    pub fn offset(&self, name: &[u8]) -> Option<u128>
        ensures { result ≡ known self.now name.now }
    {
        self.offsets.get(name).copied()
    }

    // Adds a label, unless there is one of the name. The answer is whether there was none.
    fn add(&mut self, alloc: Global, name: &[u8], offset: u128) -> Result<bool, AllocError>
        ensures new { IfOk result (λ new. new ≡ not (is_some (known self.old name.now))) }
        ensures added { OnOk result ((other : List ℕ) → known self.new other ≡ with_label (known self.old) name.now offset other) }
    {
        if self.offsets.contains_key(name) {
            return Ok(false);
        }
        let mut owned = Vec::new(alloc);
        owned.extend_from_slice(name)?;
        self.offsets.insert(owned, offset)?;
        Ok(true)
    }
}

/// The labels of a listing. The rules on names are tested: none is there twice, nor is `.entry`.
pub fn collect_labels(
    alloc: Global,
    text: &[u8],
    listing: &Listing,
    found: &mut Found,
) -> Result<Labels, AllocError>
    requires { source_of text.now ≡ Ok listing.now }
    ensures labels { IfOk result (λ labels. known labels ≡ offsets_in text.now listing.now) }
    ensures small { IfOk result (λ labels. AreSmall (known labels)) }
    ensures found { IfOk result (λ _. found.new ≡ found_by found.old (names_rules text.now [] false listing.now)) }
{
    sources_have_ranges();
    let mut labels = Labels::new(alloc);
    let mut entry = false;
    let mut current: Option<OpenSegment> = None;
    for at in 0..listing.count() {
        let item = listing.item(at);
        match item.what {
            What::Label { name } => {
                let new = labels.add(alloc, name.slice(text), place_in(current))?;
                found.need(new, SourceReason::Twice, item.line);
            }
            What::Entry { .. } => {
                found.need(!entry, SourceReason::Twice, item.line);
                entry = true;
            }
            _ => {}
        }
        current = open_after(text, &item, current);
    }
    Ok(labels)
}

// The name of the first `.entry`.
fn entry_span(listing: &Listing) -> Option<Span>
    ensures { result ≡ entry_span listing.now }
{
    for at in 0..listing.count() {
        if let What::Entry { name } = listing.item(at).what {
            return Some(name);
        }
    }
    None
}

/// The offset of the entry, if there is an entry, and its label.
pub fn entry_in(text: &[u8], labels: &Labels, listing: &Listing) -> Option<u128>
    ensures { result ≡ entry_in text.now (known labels.now) listing.now }
{
    labels.offset(entry_span(listing)?.slice(text))
}
