// A frame that is shared, and left again.
use crate::{Left, Owners};
use machine_types::FrameNo;
use std::test::Fail;

#[test]
fn the_last_sharer_leaves_last(rt: HostRuntime) -> Result<(), Fail> {
    let mut owners = Owners::new(rt.alloc(), 3)?;
    assert_eq!(rt; owners.frames(), 3);
    let frame = FrameNo(1);
    owners.begin(frame, 2);
    owners.join(frame);
    assert_eq!(rt; owners.sharers(frame), 2);
    assert_eq!(rt; owners.home(frame), 2);
    owners.set_home(frame, 5);
    assert_eq!(rt; owners.home(frame), 5);
    assert_eq!(rt; owners.leave(frame), Left::Shared);
    assert_eq!(rt; owners.leave(frame), Left::Last);
    assert_eq!(rt; owners.sharers(frame), 0);
    Ok(())
}
