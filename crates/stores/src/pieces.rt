// The pieces of a transfer: its bytes page by page.
ghost use Rattle.std.specs.Prelude.{◌≡◌, ◌≤◌, ◌<◌, ◌+◌, ◌-◌, ◌/◌, ◌%◌, min};

use cap_format::{PAGE_BYTES, REGION_BYTES};

/// The front of a transfer that lies on one page.
#[derive(Clone, Copy, Debug, PartialEq, Eq)]
pub struct Piece {
    /// The page.
    pub page: u32,
    /// The first byte in the page, below [`PAGE_BYTES`].
    pub byte: usize,
    /// How many bytes lie on the page, at least one.
    pub count: usize,
}

/// The front of the `n` bytes from a place on, at least one, which lie in the region.
pub fn first_piece(at: u64, n: usize) -> Piece
    requires least { 1 ≤ n }
    requires within { at + n ≤ REGION_BYTES }
    ensures page { result.page ≡ at / PAGE_BYTES }
    ensures byte { result.byte ≡ at % PAGE_BYTES }
    ensures count { result.count ≡ min n (PAGE_BYTES - at % PAGE_BYTES) }
    ensures some { 0 < result.count }
    ensures most { result.count ≤ n }
    ensures on_page { result.byte + result.count ≤ PAGE_BYTES }
{
    let byte = (at % PAGE_BYTES as u64) as usize;
    Piece {
        page: (at / PAGE_BYTES as u64) as u32,
        byte,
        count: n.min(PAGE_BYTES - byte),
    }
}
