//! The summary of a counted run.

use generated_run::Summary;
use std::test::*;

#[test]
fn summary_has_five_lines(rt: HostRuntime) -> Result<(), Fail> {
    let _ = rt.alloc();
    let summary = Summary {
        switches: 10,
        frames: 729,
        queued: 9632,
        taken: 9632,
    };
    assert!(rt;
        summary.text().as_slice()
            == b"events 2000\nswitches 10\nframes 729\nqueued 9632\ntaken 9632\n".as_slice()
    );
    Ok(())
}
