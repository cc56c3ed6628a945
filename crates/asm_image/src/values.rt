// The third pass: the values of a listing.
ghost use Rattle.std.specs.Prelude.{◌≡◌, ◌<◌, ◌≤◌, ◌+◌, ◌-◌, ◌^◌, ℤ, pos, int_le, nat_le, Bool, true, ◌&&◌, IsTrue, IfSome, IsSome, ◌↔◌, Option, None, option_map, Ok};
ghost use Rattle.cap_format.specs.Region.{region_start};
ghost use Rattle.cap_format.specs.SetBounds.{is_exact};
ghost use Rattle.riscv_decode.specs.Encoded.{word_of};
ghost use Rattle.asm_text.specs.Ranges.{HasRanges, HasRegisters};
ghost use Rattle.asm_text.specs.Source.{source_of};
ghost use Rattle.asm_image.specs.Places.{here};
ghost use Rattle.asm_image.specs.Faults.{found_by};
ghost use Rattle.asm_image.specs.Values.{value_from, origin_of, fits_data, fits_cap, fits_instr, with_immediate, HasSign};
ghost use Rattle.asm_image.specs.Rules.{value_rules, number_rules, cap_rules, known_rules, values_rules};
ghost use Rattle.asm_image.specs.Layout.{AreSmall};
ghost use Rattle.asm_image.specs.Known.{known};

use crate::found::Found;
use crate::labels::Labels;
use crate::place::{OpenSegment, natural, open_after, place_in};
use asm_text::{Item, Listing, SourceReason, Value, What, sources_have_ranges};
use cap_format::{ALL_PERMISSIONS, Cap, FIRST_REGION, REGION_BYTES};
use riscv_decode::{Instr, encode};

/// What a value comes to: a number is itself, and a label its offset less a place.
pub fn value_from(text: &[u8], labels: &Labels, from: u128, value: Value) -> Option<i128>
    requires small { AreSmall (known labels.now) }
    requires from { from < 2 ^ 127 }
    ensures { result ≡ value_from text.now (known labels.now) from value }
{
    match value {
        Value::Number(n) => Some(n),
        Value::Name(name) => {
            let offset = labels.offset(name.slice(text))?;
            Some(offset as i128 - from as i128)
        }
    }
}

/// The place that the value of an instruction at a place counts from.
pub fn origin_of(instr: &Instr, at: u128) -> u128
    ensures { result ≡ origin_of instr.now at }
{
    match instr {
        Instr::Branch { .. } | Instr::Jal { .. } => at,
        _ => 0,
    }
}

// Whether a number is one of so many bytes, with a sign or without.
fn fits_data(size: u8, n: i128) -> bool
    requires some { 1 ≤ size }
    requires few { size ≤ 8 }
    ensures { result ≡ fits_data size n }
{
    let bits = 8 * u32::from(size);
    -(1_i128 << (bits - 1)) <= n && n < 1_i128 << bits
}

// Whether bounds in region 0 are exact.
fn is_exact(base: u64, span: u64) -> bool
    requires { base ≤ REGION_BYTES }
    ensures { result ≡ is_exact (region_start 0 + base) span }
{
    Cap::from_int(FIRST_REGION + base).set_bounds(span).exact
}

// Whether bounds from a base on lie in the region and are exact.
fn fits_bounds(base: u128, span: u128) -> bool
    ensures { result ≡ (nat_le base REGION_BYTES && (nat_le span (REGION_BYTES - base) && is_exact (region_start 0 + base) span)) }
{
    let region = u128::from(REGION_BYTES);
    base <= region && span <= region - base && is_exact(base as u64, span as u64)
}

// Whether none of three numbers is negative.
fn are_natural(length: i128, offset: i128, perms: i128) -> bool
    ensures { result ≡ (int_le (pos 0) length && (int_le (pos 0) offset && int_le (pos 0) perms)) }
{
    length >= 0 && offset >= 0 && perms >= 0
}

// Whether a capability from a base on is one that an image may have.
fn fits_cap(base: u128, length: i128, offset: i128, perms: i128) -> bool
    ensures { result ≡ fits_cap base length offset perms }
{
    let span = natural(length);
    let permissions = natural(perms);
    are_natural(length, offset, perms)
        && fits_bounds(base, span)
        && natural(offset) <= span
        && permissions & u128::from(ALL_PERMISSIONS) == permissions
}

// The instruction with an immediate.
fn with_immediate(instr: Instr, n: i32) -> Instr
    ensures { result ≡ with_immediate instr n }
{
    match instr {
        Instr::Imm { op, rd, rs1, .. } => Instr::Imm {
            op,
            rd,
            rs1,
            imm: n,
        },
        Instr::Load { op, rd, rs1, .. } => Instr::Load {
            op,
            rd,
            rs1,
            imm: n,
        },
        Instr::Store { op, rs1, rs2, .. } => Instr::Store {
            op,
            rs1,
            rs2,
            imm: n,
        },
        Instr::Branch { op, rs1, rs2, .. } => Instr::Branch {
            op,
            rs1,
            rs2,
            imm: n,
        },
        Instr::Upper { op, rd, .. } => Instr::Upper {
            op,
            rd,
            imm: n.max(0) as u32,
        },
        Instr::Jal { rd, .. } => Instr::Jal { rd, imm: n },
        Instr::Jalr { rd, rs1, .. } => Instr::Jalr { rd, rs1, imm: n },
        other => other,
    }
}

// Whether an instruction may have an immediate of that sign.
fn has_sign(instr: &Instr, n: i32) -> bool
    ensures { IsTrue result ↔ HasSign instr.now n }
{
    match instr {
        Instr::Upper { .. } => n >= 0,
        _ => true,
    }
}

/// The word of an instruction with that immediate, if it fits.
pub fn word_of(instr: Instr, n: i128) -> Option<u32>
    requires { HasRegisters instr }
    ensures word { IfSome result (λ word. word ≡ word_of (with_immediate instr n)) }
    ensures some { IsSome result ↔ (fits_instr instr n ≡ true) }
{
    // The least number is in no row's range.
    let imm = i32::try_from(n).unwrap_or(i32::MIN);
    if !has_sign(&instr, imm) {
        return None;
    }
    encode(&with_immediate(instr, imm))
}

// Whether a number fits an instruction.
fn fits_instr(instr: Instr, n: i128) -> bool
    requires { HasRegisters instr }
    ensures { result ≡ fits_instr instr n }
{
    word_of(instr, n).is_some()
}

// There has to be a number, and it has to fit: whether it does, if there is one.
fn need_number(fits: Option<bool>, line: u64, found: &mut Found)
    ensures { (test : ℤ → Bool) (value : Option ℤ) → fits ≡ option_map test value → found.new ≡ found_by found.old (number_rules line test value) }
{
    match fits {
        None => found.need(false, SourceReason::UnknownLabel, line),
        Some(fits) => found.need(fits, SourceReason::OutOfRange, line),
    }
}

// The values of an item at a place.
fn need_values(text: &[u8], labels: &Labels, at: u128, item: &Item, found: &mut Found)
    requires ranges { HasRanges item.now.what }
    requires small { AreSmall (known labels.now) }
    requires at { at < 2 ^ 127 }
    ensures { found.new ≡ found_by found.old (value_rules text.now (known labels.now) at item.now.line item.now.what) }
{
    match item.what {
        What::Entry { name } => {
            let known = labels.offset(name.slice(text)).is_some();
            found.need(known, SourceReason::UnknownLabel, item.line);
        }
        What::Bytes { size, value } => {
            let fits = value_from(text, labels, 0, value).map(|n| fits_data(size, n));
            need_number(fits, item.line, found);
        }
        What::Cap {
            base,
            length,
            offset,
            perms,
        } => match labels.offset(base.slice(text)) {
            None => found.need(false, SourceReason::UnknownLabel, item.line),
            Some(base) => {
                let fits = fits_cap(base, length, offset, perms);
                found.need(fits, SourceReason::BadCap, item.line);
            }
        },
        What::Instr { instr, value } => {
            let number = value_from(text, labels, origin_of(&instr, at), value);
            let fits = number.map(|n| fits_instr(instr, n));
            need_number(fits, item.line, found);
        }
        _ => {}
    }
}

/// The rules on values are tested.
pub fn check_values(text: &[u8], labels: &Labels, listing: &Listing, found: &mut Found)
    requires source { source_of text.now ≡ Ok listing.now }
    requires small { AreSmall (known labels.now) }
    ensures { found.new ≡ found_by found.old (values_rules text.now (known labels.now) None listing.now) }
{
    sources_have_ranges();
    let mut current: Option<OpenSegment> = None;
    for at in 0..listing.count() {
        let item = listing.item(at);
        need_values(text, labels, place_in(current), &item, found);
        current = open_after(text, &item, current);
    }
}
