ghost use Rattle.std.specs.Prelude.{◌≤◌, length, IfOk};

use super::*;
use crate::clip_sending::queue_copies;
use crate::copies::Copies;
use crate::outbox::Outbox;
use clip_chunks::frames_of;
use share_base::{ClipId, Octets, OutOfMemory};
use std::alloc::Global;
use std::process::Abort;
use std::test::*;

#[test]
fn versions(rt: HostRuntime) {
    assert!(rt; is_welcome(1, 6));
    assert!(rt; !is_welcome(1, 5));
    assert!(rt; is_welcome(1, 65_535));
    assert!(rt; !is_welcome(2, 6));
}

// So many bytes.
fn bytes_of(alloc: Global, size: usize) -> Result<Octets, OutOfMemory> {
    let mut bytes = Octets::new(alloc);
    let block = [7u8; 4096];
    for _ in 0..size / 4096 {
        bytes.extend(&block)?;
    }
    for _ in 0..size % 4096 {
        bytes.push(7)?;
    }
    Ok(bytes)
}

#[test]
fn a_copy_is_sent_in_the_frames_of_its_clipboard(rt: HostRuntime) -> Result<(), Fail> {
    for size in [0, 1, 32_767, 32_768, 32_769, 65_536] {
        let bytes = bytes_of(rt.alloc(), size)?;
        if bytes.len() > 4_194_304 {
            continue;
        }
        let mut frames = Octets::new(rt.alloc());
        frames_of(ClipId::Selection, 9, bytes.as_slice(), &mut frames)?;
        let mut copies = Copies::new();
        copies.keep(ClipId::Selection, bytes);
        let mut outbox = Outbox::new(rt.alloc());
        queue_copies(&mut outbox, 9, &copies)?;
        assert_eq!(rt; outbox.as_slice(), frames.as_slice(), "{size} bytes");
    }
    Ok(())
}

#[test]
fn a_queue_is_slow_once_a_part_has_no_room(rt: HostRuntime) -> Result<(), Fail> {
    let mut copies = Copies::new();
    copies.keep(ClipId::Clipboard, bytes_of(rt.alloc(), 4_194_304)?);
    let mut outbox = Outbox::new(rt.alloc());
    for slow in [false, false, false, true, true] {
        queue_copies(&mut outbox, 0, &copies)?;
        assert!(rt; outbox.is_slow() == slow);
        assert!(rt; outbox.as_slice().len() as u64 <= MOST_UNTAKEN);
    }
    Ok(())
}
