// Boards that are empty, and boards that aren't; bytes that are covered; and the pieces of transfers.
use crate::{Board, Piece, covers, first_piece};
use machine_types::{Access, FrameNo};
use page_table::{Entry, RIGHT_R, RIGHT_W};
use std::test::Fail;

#[test]
fn a_new_board_is_empty(rt: HostRuntime) -> Result<(), Fail> {
    let board = Board::new(rt.alloc(), 3)?;
    assert!(rt; board.is_empty());
    assert_eq!(rt; board.made(), 3);
    assert_eq!(rt; board.pool.free(), 3);
    Ok(())
}

#[test]
fn an_empty_board_takes_fewer_frames(rt: HostRuntime) -> Result<(), Fail> {
    let mut board = Board::new(rt.alloc(), 3)?;
    board.set_frames(1);
    assert!(rt; board.is_empty());
    assert_eq!(rt; board.pool.free(), 1);
    assert_eq!(rt; board.made(), 3);
    board.set_frames(3);
    assert_eq!(rt; board.pool.free(), 3);
    Ok(())
}

#[test]
fn a_taken_frame_a_sharer_and_an_entry_each_show(rt: HostRuntime) -> Result<(), Fail> {
    let mut board = Board::new(rt.alloc(), 3)?;
    let frame = FrameNo(0);
    assert_eq!(rt; board.pool.take(), Some(frame));
    assert!(rt; !board.is_empty());
    board.pool.give(frame);
    assert!(rt; board.is_empty());
    board.owners.begin(FrameNo(2), 1);
    assert!(rt; !board.is_empty());
    let _left = board.owners.leave(FrameNo(2));
    assert!(rt; board.is_empty());
    board.table.set(
        63,
        255,
        Entry {
            frame,
            rights: RIGHT_R,
        },
    );
    assert!(rt; !board.is_empty());
    board.table.unset(63, 255);
    assert!(rt; board.is_empty());
    Ok(())
}

#[test]
fn bytes_are_covered_up_to_the_last_page(rt: HostRuntime) -> Result<(), Fail> {
    let mut board = Board::new(rt.alloc(), 2)?;
    let entries = [(0, RIGHT_R), (1, RIGHT_R + RIGHT_W)];
    for (page, rights) in entries {
        let frame = FrameNo(page);
        board.table.set(5, page, Entry { frame, rights });
    }
    assert!(rt; covers(&board, 5, 0, 8192, Access::Read));
    assert!(rt; covers(&board, 5, 4096, 4096, Access::Write));
    assert!(rt; !covers(&board, 5, 4095, 2, Access::Write));
    assert!(rt; !covers(&board, 5, 8191, 2, Access::Read));
    assert!(rt; covers(&board, 5, 1_048_576, 0, Access::Fetch));
    Ok(())
}

#[test]
fn a_first_piece_ends_with_its_page_at_the_latest(rt: HostRuntime) -> Result<(), Fail> {
    let pieces = [
        (0, 1, 0, 0, 1),
        (4095, 1, 0, 4095, 1),
        (4095, 2, 0, 4095, 1),
        (4096, 4096, 1, 0, 4096),
        (12_388, 3996, 3, 100, 3996),
        (12_388, 3997, 3, 100, 3996),
        (8192, 8192, 2, 0, 4096),
        (8193, 8192, 2, 1, 4095),
        (1_048_575, 1, 255, 4095, 1),
    ];
    for (at, n, page, byte, count) in pieces {
        assert_eq!(rt; first_piece(at, n), Piece { page, byte, count });
    }
    Ok(())
}
