//! What a wait tells of.

use hub_acts::*;
use std::test::*;

const READABLE: Mark = Mark::Stream {
    serial: 7,
    readable: true,
    writable: false,
};

#[test]
fn marks_are_listed_in_their_order(rt: HostRuntime) -> Result<(), Fail> {
    let mut ready = ReadyList::new();
    ready.push(Mark::Accept);
    ready.push(READABLE);
    let marks = Marks::from_slice(rt.alloc(), ready.as_slice())?;
    ready.clear();
    assert_eq!(rt; marks.as_slice(), [Mark::Accept, READABLE].as_slice());
    assert_eq!(rt; ready.as_slice(), [].as_slice());
    assert_eq!(rt; Marks::new(rt.alloc()).as_slice(), [].as_slice());
    Ok(())
}
