// A book from its lists, byte by byte as the file has it, and that each call which allocates can succeed.
use crate::{BRIDGE, Draft, Mark, Put};
use std::test::Fail;

#[test]
fn bridge_is_the_file(rt: HostRuntime) -> Result<(), Fail> {
    let book = BRIDGE.book(rt.alloc())?;
    assert_eq!(rt;
        book.as_slice(),
        [
            3, 0, 1, 0, 32, 0, 0, 0, 16, 0, 0, 0, 2, 0, 48, 0, 0, 0, 12, 0, 0, 0, 3, 0, 60, 0, 0,
            0, 12, 0, 0, 0, 3, 0, 1, 0, 2, 0, 0, 0, 2, 0, 0, 0, 4, 0, 2, 0, 2, 0, 2, 0, 1, 0, 2, 0,
            2, 0, 2, 0, 0, 0, 1, 0, 1, 0, 2, 0, 2, 0, 3, 0,
        ]
        .as_slice()
    );
    Ok(())
}

#[test]
fn edited_is_cut_and_filled(rt: HostRuntime) -> Result<(), Fail> {
    let cut = BRIDGE.edited(rt.alloc(), &[Put(0, 4)], 3)?;
    assert_eq!(rt; cut.as_slice(), [4, 0, 1].as_slice());
    let filled = BRIDGE.edited(rt.alloc(), &[], 73)?;
    assert_eq!(rt; filled.last().copied(), Some(0));
    Ok(())
}

#[test]
fn draft_of_one_each(rt: HostRuntime) -> Result<(), Fail> {
    let mut draft = Draft::new(rt.alloc());
    draft.add_module(3, Mark::Maker)?;
    draft.add_net(258, 1)?;
    draft.add_pin(7)?;
    let book = draft.book(rt.alloc())?;
    assert_eq!(rt; book.len(), 42);
    assert_eq!(rt; book[32..].first().copied(), Some(3));
    assert_eq!(rt; book.last().copied(), Some(0));
    Ok(())
}
