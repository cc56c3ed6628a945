// Pools of a few frames.
use crate::FramePool;
use machine_types::FrameNo;
use std::test::Fail;

#[test]
fn the_least_free_frame_is_taken(rt: HostRuntime) -> Result<(), Fail> {
    let mut pool = FramePool::new(rt.alloc(), 3)?;
    assert_eq!(rt; pool.take(), Some(FrameNo(0)));
    assert_eq!(rt; pool.take(), Some(FrameNo(1)));
    assert_eq!(rt; pool.take(), Some(FrameNo(2)));
    assert_eq!(rt; pool.take(), None);
    pool.give(FrameNo(1));
    assert_eq!(rt; pool.used(), 2);
    assert_eq!(rt; pool.free(), 1);
    assert_eq!(rt; pool.take(), Some(FrameNo(1)));
    Ok(())
}

#[test]
fn a_smaller_pool_has_fewer_frames(rt: HostRuntime) -> Result<(), Fail> {
    let mut pool = FramePool::new(rt.alloc(), 3)?;
    pool.set_size(1);
    assert_eq!(rt; pool.size(), 1);
    assert_eq!(rt; pool.made(), 3);
    assert_eq!(rt; pool.free(), 1);
    assert_eq!(rt; pool.take(), Some(FrameNo(0)));
    assert_eq!(rt; pool.take(), None);
    assert_eq!(rt; pool.used(), 1);
    Ok(())
}
