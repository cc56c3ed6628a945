// The second pass: the places of a listing.
ghost use Rattle.std.specs.Prelude.{◌≡◌, ◌<◌, ◌^◌, ◌++◌, IfSome, IfOk, OnOk, None, [], ◌∷◌, Ok};
ghost use Rattle.asm_text.specs.Ranges.{HasRanges};
ghost use Rattle.asm_text.specs.Source.{source_of};
ghost use Rattle.asm_image.specs.Places.{here, begun_by};
ghost use Rattle.asm_image.specs.Faults.{found_by};
ghost use Rattle.asm_image.specs.Rules.{end_rules, past_of, segment_rules, alignment_of, is_aligning, content_rules, is_content, is_entry, rules_in, rules_by, places_rules};
ghost use Rattle.asm_image.specs.Layout.{closed_by, closed_from};

use crate::found::Found;
use crate::place::{
    INSTRUCTION_BYTES, MOST_SEGMENTS, OpenSegment, begun, bss_of, is_alignment, open_after,
    size_of, up_to,
};
use asm_text::{Item, Listing, SourceReason, What, sources_have_ranges};
use cap_format::{GRANULE_BYTES, PAGE_BYTES, REGION_BYTES};
use std::alloc::{AllocError, Global};

// A segment's end.
fn need_end(current: Option<OpenSegment>, found: &mut Found)
    ensures { found.new ≡ found_by found.old (end_rules current) }
{
    if let Some(segment) = current {
        found.need(segment.counts, SourceReason::Empty, segment.line);
    }
}

// The end of the segments so far, rounded up to a page.
fn past_of(current: Option<OpenSegment>) -> u128
    requires { IfSome current (λ segment. here segment < 2 ^ 127) }
    ensures { result ≡ past_of current }
{
    match current {
        None => 0,
        Some(segment) => up_to(segment.here(), PAGE_BYTES as u128),
    }
}

// A segment that begins behind so many others.
fn need_segment(count: usize, new: &OpenSegment, current: Option<OpenSegment>, found: &mut Found)
    requires { IfSome current (λ segment. here segment < 2 ^ 127) }
    ensures { found.new ≡ found_by found.old (segment_rules count new.now current) }
{
    let placed = new.start % PAGE_BYTES as u128 == 0
        && new.start < u128::from(REGION_BYTES)
        && past_of(current) <= new.start;
    found.need(placed, SourceReason::BadSegment, new.line);
    found.need(count < MOST_SEGMENTS, SourceReason::TooMany, new.line);
    need_end(current, found);
}

// The multiple at which a statement has to stand.
fn alignment_of(what: &What) -> u128
    ensures is { result ≡ alignment_of what.now }
    ensures some { 0 < result }
{
    match *what {
        What::Cap { .. } => GRANULE_BYTES as u128,
        What::Instr { .. } => u128::from(INSTRUCTION_BYTES),
        _ => 1,
    }
}

// Whether a statement isn't an `.align` of another number than those that there are.
fn is_aligning(what: &What) -> bool
    ensures { result ≡ is_aligning what.now }
{
    match *what {
        What::Align { to } => is_alignment(to),
        _ => true,
    }
}

// Content in a segment.
fn need_content(text: &[u8], line: u64, what: &What, current: &OpenSegment, found: &mut Found)
    requires ranges { HasRanges what.now }
    requires here { here current.now < 2 ^ 127 }
    ensures { found.new ≡ found_by found.old (content_rules text.now line what.now current.now) }
{
    let at = current.here();
    let past = at + (size_of(text, at, what) + bss_of(what));
    found.need(is_aligning(what), SourceReason::BadAlign, line);
    found.need(!current.full, SourceReason::AfterBss, line);
    found.need(at % alignment_of(what) == 0, SourceReason::Misplaced, line);
    found.need(
        past <= u128::from(REGION_BYTES),
        SourceReason::TooLarge,
        line,
    );
}

// What is content, and what is `.entry`.
fn is_content(what: &What) -> bool
    ensures { result ≡ is_content what.now }
{
    !matches!(
        what,
        What::Label { .. } | What::Segment { .. } | What::Entry { .. }
    )
}

fn is_entry(what: &What) -> bool
    ensures { result ≡ is_entry what.now }
{
    matches!(what, What::Entry { .. })
}

// An item that begins no segment, where a segment is open or none is.
fn need_in(text: &[u8], item: &Item, current: Option<OpenSegment>, found: &mut Found)
    requires ranges { HasRanges item.now.what }
    requires here { IfSome current (λ segment. here segment < 2 ^ 127) }
    ensures { found.new ≡ found_by found.old (rules_in text.now item.now.line item.now.what current) }
{
    match current {
        None => found.need(is_entry(&item.what), SourceReason::NoSegment, item.line),
        Some(segment) if is_content(&item.what) => {
            need_content(text, item.line, &item.what, &segment, found)
        }
        Some(_) => {}
    }
}

// An item behind so many segments.
fn need_place(
    text: &[u8],
    count: usize,
    item: &Item,
    current: Option<OpenSegment>,
    found: &mut Found,
)
    requires ranges { HasRanges item.now.what }
    requires here { IfSome current (λ segment. here segment < 2 ^ 127) }
    ensures { found.new ≡ found_by found.old (rules_by text.now count item.now (begun_by item.now) current) }
{
    match begun(item) {
        Some(new) => need_segment(count, &new, current, found),
        None => need_in(text, item, current, found),
    }
}

// Keeps the segment that ends where an item begins another.
fn close_before(
    item: &Item,
    current: Option<OpenSegment>,
    segments: &mut Vec<OpenSegment>,
) -> Result<(), AllocError>
    ensures { OnOk result (segments.new.items ≡ segments.old.items ++ closed_by (begun_by item.now) current) }
{
    if begun(item).is_some()
        && let Some(segment) = current
    {
        segments.push(segment)?;
    }
    Ok(())
}

/// The segments of a listing, each as it stands at its end. The rules on places are tested.
pub fn lay_out(
    alloc: Global,
    text: &[u8],
    listing: &Listing,
    found: &mut Found,
) -> Result<Vec<OpenSegment>, AllocError>
    requires { source_of text.now ≡ Ok listing.now }
    ensures segments { IfOk result (λ segments. segments.items ≡ closed_from text.now None listing.now) }
    ensures found { IfOk result (λ _. found.new ≡ found_by found.old (places_rules text.now 0 None listing.now)) }
{
    sources_have_ranges();
    let mut segments = Vec::new(alloc);
    let mut current: Option<OpenSegment> = None;
    for at in 0..listing.count() {
        let item = listing.item(at);
        let count = segments.len() + usize::from(current.is_some());
        need_place(text, count, &item, current, found);
        close_before(&item, current, &mut segments)?;
        current = open_after(text, &item, current);
    }
    need_end(current, found);
    if let Some(segment) = current {
        segments.push(segment)?;
    }
    Ok(segments)
}
