// From a listing to a file.
ghost use Rattle.std.specs.Prelude.{◌≡◌, ◌<◌, ◌≤◌, ◌^◌, ◌++◌, true, false, None, Some, Ok, IfOk, IfSome, IsNone, IsTrue, OnOk, MatchOption, MatchResult, length, All};
ghost use Rattle.std.specs.List.{list_any};
ghost use Rattle.cap_format.specs.Image.{IsImage};
ghost use Rattle.asm_text.specs.Source.{source_of};
ghost use Rattle.asm_text.specs.Spans.{IsRefusedAs};
ghost use Rattle.asm_image.specs.Pieces.{bytes_of};
ghost use Rattle.asm_image.specs.Program.{file_of};
ghost use Rattle.asm_image.specs.Sound.{IsProgram};
ghost use Rattle.asm_image.specs.Labels.{offsets_in, entry_in};
ghost use Rattle.asm_text.specs.Ranges.{HasRanges};
ghost use Rattle.asm_image.specs.Places.{place_in, begun_by};
ghost use Rattle.asm_image.specs.Faults.{AllMet};
ghost use Rattle.asm_image.specs.Values.{item_bytes};
ghost use Rattle.asm_image.specs.Rules.{rules_in, value_rules};
ghost use Rattle.asm_image.specs.Assembled.{program_of, assembled};
ghost use Rattle.asm_image.specs.Layout.{AreSmall, IsInside, added, closed_from, closed_code, is_closed_start, count_closed, front_pieces, body_from, KeepsRules};
ghost use Rattle.asm_image.specs.Known.{known};

use crate::bytes::push_item;
use crate::file::{pad_to, put_file_header, put_segment_headers, put_table, put_table_header};
use crate::found::Found;
use crate::labels::{Labels, collect_labels, entry_in};
use crate::laws::{sources_are_images, sources_are_programs};
use crate::layout::lay_out;
use crate::place::{OpenSegment, begun, open_after, place_in, up_to};
use crate::relocations::relocations_of;
use crate::values::check_values;
use asm_text::{Item, Listing, SourceFault, SourceReason, SourceRefusal, sources_have_ranges};
use cap_format::{FILE_HEADER_BYTES, PAGE_BYTES, PROGRAM_HEADER_BYTES, Relocation};
use std::alloc::{AllocError, Global};

// Whether a place in the region is on a page of a segment that may be executed.
fn holds_code(place: u128, segment: &OpenSegment) -> bool
    requires { IsInside segment.now }
    ensures is { result ≡ closed_code place segment.now }
    ensures within { IsTrue result → place < 2 ^ 64 }
{
    segment.rights % 2 == 1
        && segment.start <= place
        && place < up_to(segment.here(), PAGE_BYTES as u128)
}

// Whether a place in the region is on a page of one of the segments that may be executed.
fn is_code(segments: &[OpenSegment], place: u128) -> bool
    requires inside { All IsInside segments.now }
    ensures is { result ≡ list_any (closed_code place) segments.now }
    ensures within { IsTrue result → place < 2 ^ 64 }
{
    for segment in segments {
        if holds_code(place, segment) {
            return true;
        }
    }
    false
}

// The entry, if there is one, and it is a place for an instruction on a page that may be executed.
fn start_of(text: &[u8], labels: &Labels, source: &Listing, segments: &[OpenSegment]) -> Option<u64>
    requires inside { All IsInside segments.now }
    ensures { MatchOption result (is_closed_start segments.now (entry_in text.now (known labels.now) source.now) ≡ false) (λ entry. (is_closed_start segments.now (entry_in text.now (known labels.now) source.now) ≡ true) × (entry_in text.now (known labels.now) source.now ≡ Some entry)) }
{
    let entry = entry_in(text, labels, source)?;
    if entry % 4 == 0 && is_code(segments, entry) {
        Some(entry as u64)
    } else {
        None
    }
}

// What an item that keeps the rules adds to the file: zeros up to a page before a segment, or its bytes.
fn put_item(
    text: &[u8],
    labels: &Labels,
    current: Option<OpenSegment>,
    item: &Item,
    out: &mut Vec<u8>,
) -> Result<(), AllocError>
    requires ranges { HasRanges item.now.what }
    requires small { AreSmall (known labels.now) }
    requires inside { IfSome current IsInside }
    requires place { IsNone (begun_by item.now) → AllMet (rules_in text.now item.now.line item.now.what current) }
    requires values { AllMet (value_rules text.now (known labels.now) (place_in current) item.now.line item.now.what) }
    ensures { OnOk result (out.new.items ≡ out.old.items ++ added (item_bytes text.now (known labels.now) (place_in current) item.now.what) (begun_by item.now) (length out.old.items)) }
{
    if begun(item).is_some() {
        pad_to(PAGE_BYTES, out)
    } else {
        push_item(text, labels, place_in(current), item, out)
    }
}

// The bytes of the segments, each from a page of the file on.
fn put_body(
    text: &[u8],
    labels: &Labels,
    source: &Listing,
    out: &mut Vec<u8>,
) -> Result<(), AllocError>
    requires small { AreSmall (known labels.now) }
    requires keeps { KeepsRules text.now (known labels.now) 0 None source.now }
    ensures { OnOk result (out.new.items ≡ out.old.items ++ body_from text.now (known labels.now) None (length out.old.items) source.now) }
{
    let mut current: Option<OpenSegment> = None;
    for at in 0..source.count() {
        let item = source.item(at);
        put_item(text, labels, current, &item, out)?;
        current = open_after(text, &item, current);
    }
    Ok(())
}

// How many program headers there are.
fn header_count(segments: &[OpenSegment], relocations: &[Relocation]) -> usize
    requires { length segments.now ≤ 15 }
    ensures { result ≡ count_closed segments.now relocations.now }
{
    if relocations.is_empty() {
        segments.len()
    } else {
        segments.len() + 1
    }
}

// What stands before the segments: the file header, and the program headers.
fn put_front(
    entry: u64,
    segments: &[OpenSegment],
    relocations: &[Relocation],
    out: &mut Vec<u8>,
) -> Result<(), AllocError>
    requires inside { All IsInside segments.now }
    requires few { length segments.now ≤ 15 }
    requires table { length relocations.now ≤ 65536 }
    ensures { OnOk result (out.new.items ≡ out.old.items ++ bytes_of (front_pieces entry segments.now relocations.now)) }
{
    let count = header_count(segments, relocations);
    put_file_header(entry, count as u16, out)?;
    let front = FILE_HEADER_BYTES + PROGRAM_HEADER_BYTES * count;
    let end = put_segment_headers(front as u64, segments, out)?;
    put_table_header(end, relocations, out)
}

// The file of a listing that keeps all rules.
fn write_file(
    alloc: Global,
    text: &[u8],
    labels: &Labels,
    source: &Listing,
    segments: &[OpenSegment],
    entry: u64,
) -> Result<Vec<u8>, AllocError>
    requires small { AreSmall (known labels.now) }
    requires keeps { KeepsRules text.now (known labels.now) 0 None source.now }
    requires labels { known labels.now ≡ offsets_in text.now source.now }
    requires segments { segments.now ≡ closed_from text.now None source.now }
    requires entry { entry_in text.now (known labels.now) source.now ≡ Some entry }
    requires program { IsProgram (program_of text.now source.now) }
    ensures { IfOk result (λ file. file.items ≡ file_of (program_of text.now source.now)) }
{
    let relocations = relocations_of(alloc, text, labels, source)?;
    let mut file = Vec::new(alloc);
    put_front(entry, segments, &relocations, &mut file)?;
    put_body(text, labels, source, &mut file)?;
    put_table(&relocations, &mut file)?;
    Ok(file)
}

/// Assembles a listing to the file of an image. `text` is the text that it was read from.
///
/// The segments stand in the file in their order, each from a page of 4096 bytes on, and behind them, from a multiple of 8 bytes on, the
/// relocations of its capabilities in theirs. The layout of the file is after ELF64; the language is this project's own.
///
/// [`SourceRefusal::Fault`] comes exactly where a rule is broken, but for want of memory: first the rules on places (NoSegment to Twice),
/// then those on values (UnknownLabel to BadCap), and at last NoEntry at line 0. In each of the two passes the fault is that of the first line that
/// has one, and on a line the first reason in the order of [`SourceReason`]. A segment without bytes is at fault at the line of its `.segment`.
pub fn assemble(alloc: Global, text: &[u8], source: &Listing) -> Result<Vec<u8>, SourceRefusal>
    requires { source_of text.now ≡ Ok source.now }
    ensures file { MatchResult result (λ file. assembled text.now source.now ≡ Ok file.items) (λ refusal. IsRefusedAs (assembled text.now source.now) refusal) }
    ensures image { IfOk result (λ file. IsImage file.items) }
{
    sources_have_ranges();
    sources_are_programs();
    sources_are_images();
    let mut found = Found::nothing();
    let segments = lay_out(alloc, text, source, &mut found)?;
    let labels = collect_labels(alloc, text, source, &mut found)?;
    if let Some(fault) = found.least() {
        return Err(SourceRefusal::Fault(fault));
    }
    check_values(text, &labels, source, &mut found);
    if let Some(fault) = found.least() {
        return Err(SourceRefusal::Fault(fault));
    }
    let Some(entry) = start_of(text, &labels, source, &segments) else {
        return Err(SourceRefusal::Fault(SourceFault {
            line: 0,
            reason: SourceReason::NoEntry,
        }));
    };
    Ok(write_file(alloc, text, &labels, source, &segments, entry)?)
}
