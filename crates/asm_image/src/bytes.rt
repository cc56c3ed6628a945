// The bytes of statements.
ghost use Rattle.std.specs.Prelude.{◌≡◌, ◌<◌, ◌≤◌, ◌^◌, ◌++◌, true, OnOk, replicate};
ghost use Rattle.std.specs.Int.{w32, to_le_bytes};
ghost use Rattle.riscv_decode.specs.Encoded.{word_of};
ghost use Rattle.asm_text.specs.Ranges.{HasRanges, HasRegisters};
ghost use Rattle.asm_image.specs.Places.{size_of};
ghost use Rattle.asm_image.specs.Faults.{AllMet};
ghost use Rattle.asm_image.specs.Values.{fits_instr, with_immediate, data_bytes, number_or_zero, item_bytes};
ghost use Rattle.asm_image.specs.Rules.{value_rules};
ghost use Rattle.asm_image.specs.Layout.{AreSmall};
ghost use Rattle.asm_image.specs.Known.{known};

use crate::labels::Labels;
use crate::place::{gap, natural};
use crate::strings::push_string;
use crate::values::{origin_of, value_from, word_of};
use asm_text::{Item, What};
use cap_format::{GRANULE_BYTES, REGION_BYTES};
use riscv_decode::Instr;
use std::alloc::AllocError;

// Adds so many of the lowest bytes of a number in two's complement, the lowest first.
fn push_data(size: u8, n: i128, out: &mut Vec<u8>) -> Result<(), AllocError>
    requires { size ≤ 8 }
    ensures { OnOk result (out.new.items ≡ out.old.items ++ data_bytes size n) }
{
    let bytes = (n.rem_euclid(1 << 64) as u64).to_le_bytes();
    out.extend_from_slice(&bytes[..usize::from(size)])
}

/// Adds so many zeros.
pub fn push_zeros(count: u128, out: &mut Vec<u8>) -> Result<(), AllocError>
    requires { count ≤ REGION_BYTES }
    ensures { OnOk result (out.new.items ≡ out.old.items ++ replicate count 0) }
{
    out.resize(out.len() + count as usize, 0)
}

// The number that a value is, where it is one.
fn number_or_zero(value: Option<i128>) -> i128
    ensures { result ≡ number_or_zero value }
{
    value.unwrap_or(0)
}

// Adds the word of an instruction with a number that fits.
fn push_word(instr: Instr, n: i128, out: &mut Vec<u8>) -> Result<(), AllocError>
    requires registers { HasRegisters instr }
    requires fits { fits_instr instr n ≡ true }
    ensures { OnOk result (out.new.items ≡ out.old.items ++ to_le_bytes w32 (word_of (with_immediate instr n))) }
{
    let word = word_of(instr, n).unwrap_or(0);
    out.extend_from_slice(&word.to_le_bytes())
}

/// Adds the bytes of a statement at a place, which keeps the rules on places and on values.
pub fn push_item(
    text: &[u8],
    labels: &Labels,
    at: u128,
    item: &Item,
    out: &mut Vec<u8>,
) -> Result<(), AllocError>
    requires ranges { HasRanges item.now.what }
    requires small { AreSmall (known labels.now) }
    requires at { at < 2 ^ 127 }
    requires size { size_of text.now at item.now.what ≤ REGION_BYTES }
    requires fits { AllMet (value_rules text.now (known labels.now) at item.now.line item.now.what) }
    ensures { OnOk result (out.new.items ≡ out.old.items ++ item_bytes text.now (known labels.now) at item.now.what) }
{
    match item.what {
        What::Bytes { size, value } => {
            let n = number_or_zero(value_from(text, labels, 0, value));
            push_data(size, n, out)
        }
        What::Ascii { text: span } => push_string(text, span, out),
        What::Space { count } => push_zeros(natural(count), out),
        What::Align { to } => push_zeros(gap(at, to), out),
        What::Cap { .. } => push_zeros(GRANULE_BYTES as u128, out),
        What::Instr { instr, value } => {
            let n = number_or_zero(value_from(text, labels, origin_of(&instr, at), value));
            push_word(instr, n, out)
        }
        What::Label { .. } | What::Segment { .. } | What::Entry { .. } | What::Bss { .. } => Ok(()),
    }
}
