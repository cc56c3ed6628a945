// The relocations of a listing.
ghost use Rattle.std.specs.Prelude.{◌≡◌, ◌<◌, ◌^◌, IfOk, OnOk, ◌++◌, None};
ghost use Rattle.asm_text.specs.Ranges.{HasRanges};
ghost use Rattle.asm_image.specs.Faults.{AllMet};
ghost use Rattle.asm_image.specs.Rules.{value_rules};
ghost use Rattle.asm_image.specs.Assembled.{relocation_of, relocations_from};
ghost use Rattle.asm_image.specs.Layout.{AreSmall, KeepsRules};
ghost use Rattle.asm_image.specs.Known.{known};

use crate::labels::Labels;
use crate::place::{OpenSegment, natural, open_after, place_in};
use asm_text::{Item, Listing, What};
use cap_format::Relocation;
use std::alloc::{AllocError, Global};

// Adds the relocation of an item at a place, if it is a capability.
fn push_relocation(
    text: &[u8],
    labels: &Labels,
    at: u128,
    item: &Item,
    relocations: &mut Vec<Relocation>,
) -> Result<(), AllocError>
    requires ranges { HasRanges item.now.what }
    requires small { AreSmall (known labels.now) }
    requires at { at < 2 ^ 64 }
    requires fits { AllMet (value_rules text.now (known labels.now) at item.now.line item.now.what) }
    ensures { OnOk result (relocations.new.items ≡ relocations.old.items ++ relocation_of text.now (known labels.now) at item.now.what) }
{
    let What::Cap {
        base,
        length,
        offset,
        perms,
    } = item.what
    else {
        return Ok(());
    };
    let base = labels.offset(base.slice(text)).unwrap_or(0);
    Ok(relocations.push(Relocation {
        place: at as u64,
        base: base as u64,
        span: natural(length) as u64,
        offset: natural(offset) as u64,
        perms: natural(perms) as u64,
    })?)
}

/// The relocations of a listing that keeps the rules.
pub fn relocations_of(
    alloc: Global,
    text: &[u8],
    labels: &Labels,
    listing: &Listing,
) -> Result<Vec<Relocation>, AllocError>
    requires small { AreSmall (known labels.now) }
    requires keeps { KeepsRules text.now (known labels.now) 0 None listing.now }
    ensures { IfOk result (λ relocations. relocations.items ≡ relocations_from text.now (known labels.now) None listing.now) }
{
    let mut relocations = Vec::new(alloc);
    let mut current: Option<OpenSegment> = None;
    for at in 0..listing.count() {
        let item = listing.item(at);
        push_relocation(text, labels, place_in(current), &item, &mut relocations)?;
        current = open_after(text, &item, current);
    }
    Ok(relocations)
}
