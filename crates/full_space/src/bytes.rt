// Bytes that are moved between the kernel and the pages of a region.
ghost use Rattle.std.specs.Prelude.{◌≡◌, ◌≤◌, ◌<◌, ◌+◌, length};
ghost use Rattle.machine_types.specs.declared.touches.Access.TheVariants.{Read, Write};
ghost use Rattle.contents.specs.Content.{Content};
ghost use Rattle.contents.specs.Transfers.{read_bytes_of, write_bytes_of};
ghost use Rattle.contents.specs.Conditions.{Covers};
ghost use Rattle.stores.specs.Known.{StandsFor};
ghost use Rattle.stores.specs.Boards.{Stands};
ghost use Rattle.full_space.specs.Own.{AreOwn};

use cap_format::{MOST_REGIONS, REGION_BYTES};
use stores::{Board, entry_of, first_piece};

/// The bytes of a region from a place on, page by page. They lie in the region, whose pages under them are there.
pub fn bytes_out(board: &Board, region: u32, at: u64, into: &mut [u8])
    requires region { region < MOST_REGIONS }
    requires within { at + length into.old ≤ REGION_BYTES }
    requires own { AreOwn board.now }
    requires covered { ∥ StandsFor Stands board.now (Covers region at (length into.old) Read) ∥₁ }
    ensures { (c : Content) → Stands board.now c → into.new ≡ read_bytes_of c region at (length into.old) }
{
    let mut done = 0;
    while done < into.len() {
        let piece = first_piece(at + done as u64, into.len() - done);
        let entry = entry_of(board, region, piece.page).unwrap();
        let part = &mut into[done..done + piece.count];
        board.memory.bytes_out(entry.frame, piece.byte, part);
        done += piece.count;
    }
}

/// Stores bytes in a region from a place on, page by page, and clears the tags of the granules that they overlap. They lie
/// in the region, whose pages under them are there.
pub fn bytes_in(board: &mut Board, region: u32, at: u64, from: &[u8])
    requires region { region < MOST_REGIONS }
    requires within { at + length from.now ≤ REGION_BYTES }
    requires own { AreOwn board.old }
    requires covered { ∥ StandsFor Stands board.old (Covers region at (length from.now) Write) ∥₁ }
    ensures own { AreOwn board.new }
    ensures after { (c : Content) → Stands board.old c → Stands board.new (write_bytes_of c region at from.now) }
    ensures table { board.new.table ≡ board.old.table }
{
    let mut done = 0;
    while done < from.len() {
        let piece = first_piece(at + done as u64, from.len() - done);
        let entry = entry_of(board, region, piece.page).unwrap();
        let part = &from[done..done + piece.count];
        board.memory.bytes_in(entry.frame, piece.byte, part);
        done += piece.count;
    }
}
