//! Writers that fail in the middle.
use crate::trail::guards::refusing;
use access_guard::Guard;
use std::alloc::Global;
use std::hash::RandomState;
use std::io;
use std::io::{ErrorKind, Write};
use std::process::Abort;
use std::test::Fail;
use trail_keeper::append_new;

/// A writer that takes at most `piece` bytes at once and `room` in all, and then fails, or takes nothing more.
#[derive(Drop)]
struct Disk {
    held: Vec<u8>,
    room: usize,
    piece: usize,
    fails: bool,
}

impl Write for Disk {
    fn write(&mut self, buf: &[u8]) -> io::Result<usize> {
        let left = self.room.saturating_sub(self.held.len());
        let count = buf.len().min(self.piece).min(left);
        if count == 0 && self.fails {
            return Err(ErrorKind::StorageFull.into());
        }
        let Ok(()) = self.held.extend_from_slice(&buf[..count.min(buf.len())]) else {
            return Err(ErrorKind::OutOfMemory.into());
        };
        Ok(count.min(buf.len()))
    }

    fn flush(&mut self) -> io::Result<()> {
        Ok(())
    }
}

fn disk_of(alloc: Global, room: usize, piece: usize, fails: bool) -> Disk {
    Disk {
        held: Vec::new(alloc),
        room,
        piece,
        fails,
    }
}

static LINES: &[u8] =
    b"DENY uid=1 op=READ obj=1 mask=00000001 missing=00000001\nDENY uid=2 op=READ obj=1 mask=00000001 missing=00000001\n";

fn lines() -> &'static [u8] {
    LINES
}

/// Whether the disk has all bytes of the lines that it has room for.
fn is_filled(disk: &Disk, lines: &[u8]) -> bool {
    let count = disk.room.min(lines.len());
    disk.held.as_slice() == lines.get(..count).unwrap_or(b"")
}

/// Whether two lines are appended to a disk exactly if it has room for them, and the disk is then filled as far as it
/// can be.
fn is_right_on(guard: &Guard, disk: Disk) -> bool {
    let mut disk = disk;
    let has_room = disk.room >= lines().len();
    let is_done = append_new(guard, 0, &mut disk).is_ok();
    (is_done == has_room) & is_filled(&disk, lines())
}

fn see_disks(rt: &impl Abort, alloc: Global, guard: &Guard) {
    for room in 0..120usize {
        let by_line = is_right_on(guard, disk_of(alloc, room, 1000, true));
        let by_byte = is_right_on(guard, disk_of(alloc, room, 1, true));
        let by_seven = is_right_on(guard, disk_of(alloc, room, 7, false));
        assert!(rt;
            (by_line, by_byte, by_seven) == (true, true, true),
            "{room}"
        );
    }
}

#[test]
fn a_prefix_is_written_where_a_write_fails(rt: HostRuntime) -> Result<(), Fail> {
    let guard = refusing(rt.alloc(), RandomState::new(&rt)?, 2)?;
    see_disks(&rt, rt.alloc(), &guard);
    Ok(())
}
