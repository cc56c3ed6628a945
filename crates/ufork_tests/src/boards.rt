// What stands on the board that comes back from a run.
use cap_format::{MOST_REGIONS, PAGE_BYTES, REGION_PAGES};
use machine_types::{FrameNo, RIGHT_R, RIGHT_X};
use page_table::PageTable;
use stores::Board;

/// What stands on a board.
#[derive(Clone, Copy, Debug, PartialEq, Eq)]
pub enum Left {
    /// No page, and no frame is used.
    Nothing,
    /// The image's page alone: page 0 of region 0, which may be read and fetched, in the only frame that is used.
    Page,
}

/// What stands on the board of a run of this page, if it is one of the two.
pub fn left_on(board: &Board, page: &[u8]) -> Option<Left> {
    if board.is_empty() && board.pool.used() == 0 {
        return Some(Left::Nothing);
    }
    if has_page(board, page) {
        return Some(Left::Page);
    }
    None
}

// Whether the board has the image's page and nothing else.
fn has_page(board: &Board, page: &[u8]) -> bool {
    let Ok(entry) = board.table.look(0, 0) else {
        return false;
    };
    entry.rights == RIGHT_R | RIGHT_X
        && has_no_other(&board.table)
        && board.pool.used() == 1
        && is_own(board, entry.frame)
        && holds(board, entry.frame, page)
}

// Whether no page but page 0 of region 0 has an entry.
fn has_no_other(table: &PageTable) -> bool {
    for region in 0..MOST_REGIONS {
        for page in 0..REGION_PAGES {
            if (region, page) != (0, 0) && table.look(region, page).is_ok() {
                return false;
            }
        }
    }
    true
}

// Whether the frame is that of one page, and region 0 is its home.
fn is_own(board: &Board, frame: FrameNo) -> bool {
    frame.0 < board.owners.frames()
        && board.owners.home(frame) == 0
        && board.owners.sharers(frame) == 1
}

// Whether the frame has the bytes of the page, and then zeros.
fn holds(board: &Board, frame: FrameNo, page: &[u8]) -> bool {
    if frame.0 >= board.memory.frames() {
        return false;
    }
    let mut bytes = [0; PAGE_BYTES];
    board.memory.bytes_out(frame, 0, &mut bytes);
    bytes.starts_with(page) && bytes.iter().skip(page.len()).all(|byte| *byte == 0)
}
