//! A writer of limited size.

use std::io;
use std::io::{ErrorKind, Write};

/// A disk with room for at most 256 bytes, which takes a limited number of bytes at once; full, it fails.
#[derive(Clone, Copy)]
pub struct Disk {
    held: [u8; 256],
    len: usize,
    room: usize,
    piece: usize,
    /// How many times `write` was called.
    pub writes: u32,
}

impl Disk {
    pub fn new(room: usize, piece: usize) -> Self {
        Disk {
            held: [0; 256],
            len: 0,
            room,
            piece,
            writes: 0,
        }
    }

    pub fn held(&self) -> &[u8] {
        self.held.get(..self.len).unwrap_or(&[])
    }

    /// Appends a prefix of some bytes, and returns its length.
    fn add(&mut self, buf: &[u8]) -> usize {
        let left = self.room.saturating_sub(self.len);
        let Some(place) = self.held.get_mut(self.len..) else {
            return 0;
        };
        let n = buf.len().min(self.piece).min(left).min(place.len());
        place[..n].copy_from_slice(&buf[..n]);
        self.len = self.len.saturating_add(n);
        n
    }
}

impl Write for Disk {
    fn write(&mut self, buf: &[u8]) -> io::Result<usize> {
        self.writes = self.writes.saturating_add(1);
        let n = self.add(buf).min(buf.len());
        if n == 0 {
            return Err(ErrorKind::StorageFull.into());
        }
        Ok(n)
    }

    fn flush(&mut self) -> io::Result<()> {
        Ok(())
    }
}
