// The least fault of the rules of a pass, which are tested one after another.
ghost use Rattle.std.specs.Prelude.{◌≡◌, None, [], ◌∷◌};
ghost use Rattle.asm_image.specs.Faults.{rank, is_before, lesser, found_by, need◌else◌on◌};

use asm_text::{SourceFault, SourceReason};
use std::marker::Model;

/// The least fault so far.
#[derive(Clone, Copy)]
pub struct Found {
    least: Option<SourceFault>,
}

impl Model for Found {
    ghost use Rattle.std.specs.Prelude.{Option};
    ghost use Rattle.asm_text.specs.declared.source.SourceFault.{SourceFault};

    ghost Value = { Option SourceFault };

    ghost view = { λ f. f.least };

    ghost inverse = { λ least. record { least = least } };
}

impl Found {
    /// No fault.
    pub fn nothing() -> Found
        ensures { result ≡ None }
    {
        Found { least: None }
    }

    /// The least fault of all that was tested.
    pub fn least(&self) -> Option<SourceFault>
        ensures { result ≡ self.now }
    {
        self.least
    }

    /// What has to hold on a line, and the reason of the fault where it doesn't.
    pub fn need(&mut self, holds: bool, reason: SourceReason, line: u64)
        ensures { self.new ≡ found_by self.old ((need holds else reason on line) ∷ []) }
    {
        if !holds {
            self.least = Some(lesser(self.least, SourceFault { line, reason }));
        }
    }
}

// The lesser of the fault so far, if there is one, and another.
fn lesser(found: Option<SourceFault>, fault: SourceFault) -> SourceFault
    ensures { result ≡ lesser found fault }
{
    match found {
        Some(least) if is_before(&least, &fault) => least,
        _ => fault,
    }
}

// Whether a fault isn't behind another.
fn is_before(a: &SourceFault, b: &SourceFault) -> bool
    ensures { result ≡ is_before a.now b.now }
{
    a.line < b.line || a.line == b.line && rank(a.reason) <= rank(b.reason)
}

// The order of the reasons on one line.
fn rank(reason: SourceReason) -> u8
    ensures { result ≡ rank reason }
{
    match reason {
        SourceReason::TooLong => 0,
        SourceReason::BadText => 1,
        SourceReason::BadStatement => 2,
        SourceReason::NoSegment => 3,
        SourceReason::BadSegment => 4,
        SourceReason::TooMany => 5,
        SourceReason::BadAlign => 6,
        SourceReason::AfterBss => 7,
        SourceReason::Misplaced => 8,
        SourceReason::TooLarge => 9,
        SourceReason::Empty => 10,
        SourceReason::Twice => 11,
        SourceReason::UnknownLabel => 12,
        SourceReason::OutOfRange => 13,
        SourceReason::BadCap => 14,
        SourceReason::NoEntry => 15,
    }
}
