// What a source says, item by item.
ghost use Rattle.std.specs.Prelude.{◌≡◌, ◌<◌, ◌^◌, length, slice_get, Some};

use riscv_decode::Instr;
use std::marker::Model;

/// The place of a token in its text, in bytes.
#[derive(Clone, Copy, Debug, PartialEq, Eq)]
pub struct Span {
    /// The place of the first byte.
    pub first: u32,
    /// The place behind the last byte.
    pub past: u32,
}

impl Span {
    ghost use Rattle.asm_text.specs.Lines.{slice_of};

    /// The bytes of a text there, or those of them that the text has.
    pub fn slice(self, text: &[u8]) -> &[u8]
        ensures { result.now ≡ slice_of text.now self }
    {
        let past = text.len().min(self.past as usize);
        let first = past.min(self.first as usize);
        &text[first..past]
    }
}

/// A number from `-2^63` to `2^64 - 1`, or the label of this name.
#[derive(Clone, Copy, Debug, PartialEq, Eq)]
pub enum Value {
    Number(i128),
    Name(Span),
}

/// What an item says. Addresses, counts, lengths and offsets are in bytes.
#[derive(Clone, Copy, Debug, PartialEq, Eq)]
pub enum What {
    /// A label stands here.
    Label {
        name: Span,
    },
    /// A segment begins, at a place in the region, from its start, and with the rights of its pages: the bits r 4, w 2 and x 1.
    Segment {
        at: i128,
        rights: u8,
    },
    /// The entry is at this label.
    Entry {
        name: Span,
    },
    /// A number of so many bytes.
    Bytes {
        size: u8,
        value: Value,
    },
    /// The bytes of a string, which stands with its quotes here.
    Ascii {
        text: Span,
    },
    /// So many zero bytes.
    Space {
        count: i128,
    },
    /// Zeros up to a multiple of this many bytes.
    Align {
        to: i128,
    },
    /// So many bytes behind the file's part of the segment.
    Bss {
        count: i128,
    },
    /// A capability whose base is the place of a label in the region, from its start, with its length, the offset of its address from there,
    /// and its permissions.
    Cap {
        base: Span,
        length: i128,
        offset: i128,
        perms: i128,
    },
    /// An instruction, with the immediate 0, and the value that is written for it; `Number(0)` where its row has none.
    Instr {
        instr: Instr,
        value: Value,
    },
}

/// What a line says, a label, a statement or a value of one.
#[derive(Clone, Copy, Debug, PartialEq, Eq)]
pub struct Item {
    /// The number of the line, from 1.
    pub line: u64,
    pub what: What,
}

/// What the lines of a source say, in order.
#[derive(Drop)]
pub struct Listing {
    items: Vec<Item>,
}

impl Model for Listing {
    ghost use Rattle.std.specs.Prelude.{List};
    ghost use Rattle.asm_text.specs.declared.listing.Item.{Item};

    ghost Value = { List Item };

    ghost view = { λ l. l.items.items };
}

impl Listing {
    /// The listing of these items.
    pub fn new(items: Vec<Item>) -> Listing
        ensures { result ≡ items.items }
    {
        Listing { items }
    }

    /// The number of items.
    pub fn count(&self) -> usize
        ensures is { result ≡ length self.now }
        ensures small { result < 2 ^ 63 }
    {
        self.items.len()
    }

    /// The item at an index, which is below the count.
    pub fn item(&self, at: usize) -> Item
        requires { at < length self.now }
        ensures { slice_get self.now at ≡ Some result }
    {
        self.items[at]
    }
}
