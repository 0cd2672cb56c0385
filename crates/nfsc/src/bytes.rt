//! The bytes of files of this system.
use crate::fault::Fault;
use std::alloc::Global;
use std::fs;
use std::io::Read;
use std::rt::Files;

/// The most bytes of a file of the server.
const MOST_BYTES: usize = 1_048_576;

/// The most bytes of one read.
const PIECE: usize = 4096;

/// All bytes of a reader. `TooLarge`: more than a file of the server may have.
fn all_of<R: Read>(alloc: Global, reader: &mut R) -> Result<Vec<u8>, Fault> {
    let mut bytes = Vec::new(alloc);
    for _read in 0..u64::MAX {
        let mut piece = [0; PIECE];
        let Ok(n) = reader.read(&mut piece) else {
            return Err(Fault::Unread);
        };
        if n == 0 {
            return Ok(bytes);
        }
        if n > MOST_BYTES - bytes.len().min(MOST_BYTES) {
            return Err(Fault::TooLarge);
        }
        bytes.extend_from_slice(&piece[..n])?;
    }
    Err(Fault::TooLarge)
}

/// The bytes of a file, or of standard input for `-`. They are read completely before anything is
/// asked of the server.
pub(crate) fn read<R: Files + Input>(rt: &R, alloc: Global, file: &str) -> Result<Vec<u8>, Fault> {
    if file == "-" {
        return all_of(alloc, &mut rt.reader());
    }
    match fs::open(rt, file) {
        Ok(mut opened) => all_of(alloc, &mut opened),
        Err(_) => Err(Fault::Unread),
    }
}

/// Makes bytes those of a file, which is created if it doesn't exist.
pub(crate) fn write<R: Files>(rt: &R, file: &str, bytes: &[u8]) -> Result<(), Fault> {
    match fs::write(rt, file, bytes) {
        Ok(()) => Ok(()),
        Err(_) => Err(Fault::Unwritten),
    }
}
