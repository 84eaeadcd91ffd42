//! The table of connections.

use connection_table::*;
use hello_states::PartCause;
use message_codec::Msg;
use std::test::*;

/// A frame is queued for the connection of a serial, and no other; a parting for want of speed
/// drops it.
#[test]
fn a_connection_is_found_by_its_serial(rt: HostRuntime) -> Result<(), Fail> {
    let mut table = Table::new(rt.alloc());
    table.add(Connection::begin(rt.alloc(), 3, 40, 1024))?;
    table.add(Connection::begin(rt.alloc(), 7, 41, 1024))?;
    table.send(7, &Msg::QueryInfo)?;
    table.send(9, &Msg::QueryInfo)?;
    let told: [(u64, u64); 3] = [(3, 0), (7, 8), (9, 0)];
    for (serial, total) in told {
        let queued = table.get(serial).map_or(0, |c| c.queue().total());
        assert_eq!(rt; queued, total);
    }
    table.part(7, PartCause::Slow, 50);
    assert!(rt;
        table
            .get(7)
            .is_some_and(|c| !c.is_live() && !c.queue().is_left())
    );
    assert!(rt; table.get(3).is_some_and(|c| c.is_live()));
    Ok(())
}

/// A removed connection is found no more, and the others are.
#[test]
fn a_removed_connection_is_gone(rt: HostRuntime) -> Result<(), Fail> {
    let mut table = Table::new(rt.alloc());
    table.add(Connection::begin(rt.alloc(), 3, 40, 1024))?;
    table.add(Connection::begin(rt.alloc(), 7, 41, 1024))?;
    table.remove(3);
    assert!(rt; table.get(3).is_none());
    assert!(rt; table.get(7).is_some());
    Ok(())
}
