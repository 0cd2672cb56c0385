//! A stream in memory that plays a server.

use nfs_client::Client;
use std::io::{self, ErrorKind, Read, Write};

/// The expected calls, and the replies that are left.
#[derive(Drop)]
pub struct Played<'a> {
    pub wants: &'a [u8],
    pub gives: &'a [u8],
    /// Whether any bytes are taken for calls.
    pub takes_any: bool,
}

/// Takes the expected bytes and no others, three at a time. It gives the replies, four bytes at a time: each reply ends
/// with a read. If any bytes are taken, it takes and gives as many as are offered and wanted.
#[derive(Drop)]
pub struct Lent<'a, 'b> {
    pub played: &'a mut Played<'b>,
}

/// A client over a stream in memory.
pub type Player<'a, 'b> = Client<Lent<'a, 'b>>;

impl Read for Lent<'_, '_> {
    fn read(&mut self, buf: &mut [u8]) -> io::Result<usize> {
        let most = if self.played.takes_any { buf.len() } else { 4 };
        let n = self.played.gives.len().min(buf.len()).min(most);
        let (prefix, rest) = self.played.gives.split_at(n);
        buf[..n].copy_from_slice(prefix);
        self.played.gives = rest;
        Ok(n)
    }
}

impl Write for Lent<'_, '_> {
    fn write(&mut self, buf: &[u8]) -> io::Result<usize> {
        if self.played.takes_any {
            return Ok(buf.len());
        }
        let n = self.played.wants.len().min(buf.len()).min(3);
        let (prefix, rest) = self.played.wants.split_at(n);
        if prefix != &buf[..n] {
            return Err(io::Error::from(ErrorKind::Other));
        }
        self.played.wants = rest;
        Ok(n)
    }

    fn flush(&mut self) -> io::Result<()> {
        Ok(())
    }
}
