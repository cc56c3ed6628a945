// A page that is set, set again and unset.
use crate::{Entry, NoPage, PageTable, RIGHT_R, RIGHT_W, RIGHT_X};
use machine_types::FrameNo;
use std::test::Fail;

#[test]
fn an_entry_is_found_until_it_is_unset(rt: HostRuntime) -> Result<(), Fail> {
    let code = Entry {
        frame: FrameNo(7),
        rights: RIGHT_R | RIGHT_X,
    };
    let data = Entry {
        frame: FrameNo(9),
        rights: RIGHT_R | RIGHT_W,
    };
    let mut table = PageTable::new(rt.alloc())?;
    assert_eq!(rt; table.look(3, 255), Err(NoPage));
    table.set(3, 255, code);
    assert_eq!(rt; table.look(3, 255), Ok(code));
    table.set(3, 255, data);
    assert_eq!(rt; table.look(3, 255), Ok(data));
    assert_eq!(rt; table.look(4, 0), Err(NoPage));
    table.set(4, 0, code);
    table.unset(3, 255);
    assert_eq!(rt; table.look(3, 255), Err(NoPage));
    assert_eq!(rt; table.look(4, 0), Ok(code));
    Ok(())
}
