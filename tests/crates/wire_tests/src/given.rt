//! Functions that the tests call. They have no contract, so that the prover doesn't compute on a test's bytes. They
//! return plain values, so that a test has nothing to drop.
use std::alloc::{AllocError, Global};
use xdr_wire::{Reader, Spell, Wire, Writer, XdrFault};

fn add_word(bytes: &mut Vec<u8>, word: u32) -> Result<(), AllocError> {
    bytes.extend_from_slice(&word.to_be_bytes())
}

/// Appends the bytes of words.
pub fn add_words(bytes: &mut Vec<u8>, words: &[u32]) -> Result<(), AllocError> {
    for word in words {
        add_word(bytes, *word)?;
    }
    Ok(())
}

/// The bytes of words.
pub fn bytes_of(alloc: Global, words: &[u32]) -> Result<Vec<u8>, AllocError> {
    let mut bytes = Vec::new(alloc);
    add_words(&mut bytes, words)?;
    Ok(bytes)
}

/// The answer of `read` to the bytes, and how many are left.
pub fn read<'a, T: Wire<'a>>(bytes: &'a [u8]) -> (Result<T, XdrFault>, usize) {
    let mut reader = Reader::new(bytes);
    let read = T::read(&mut reader);
    (read, reader.len())
}

/// Whether a buffer of this room takes a value, and has these bytes then.
pub fn is_written<T: Spell>(alloc: Global, room: usize, value: T, want: &[u8]) -> bool {
    match Writer::new(alloc, room) {
        Ok(mut writer) => {
            let is_taken = value.write(&mut writer).is_ok();
            is_taken & (writer.bytes() == want)
        }
        Err(_) => false,
    }
}

/// Whether a buffer of this room takes a value, and has the bytes of these words then.
pub fn is_written_as<T: Spell>(alloc: Global, room: usize, value: T, words: &[u32]) -> bool {
    match bytes_of(alloc, words) {
        Ok(want) => is_written(alloc, room, value, &want),
        Err(_) => false,
    }
}

/// Whether a buffer of this room refuses a value, and stays empty.
pub fn is_refused<T: Spell>(alloc: Global, room: usize, value: T) -> bool {
    match Writer::new(alloc, room) {
        Ok(mut writer) => {
            let is_taken = value.write(&mut writer).is_ok();
            !is_taken & writer.is_empty()
        }
        Err(_) => false,
    }
}

/// Whether a value is printed as this text, if the allocation succeeds.
pub fn is_text(printed: Result<String, AllocError>, text: &str) -> bool {
    match printed {
        Ok(printed) => printed.as_str() == text,
        Err(_) => false,
    }
}
