//! The calls that several tests send, as words.

use crate::given::{add_words, bytes_of};
use std::alloc::{AllocError, Global};

/// A call of NULL under AUTH_NONE, without its mark: transaction 1.
pub const NULL_CALL: [u32; 10] = [1, 0, 2, 100_003, 4, 0, 0, 0, 0, 0];

/// A call of COMPOUND by uid 1002 in group 100, without its mark: transaction 2, three operations in 40 bytes.
static LOOKUP_RECORD: [u32; 25] = [
    2,
    0,
    2,
    100_003,
    4,
    1,
    1,
    0x14,
    0,
    0,
    1002,
    100,
    0,
    0,
    0,
    0,
    1,
    3,
    0x18,
    0xf,
    5,
    0x6e6f_7465,
    0x7300_0000,
    3,
    0x2d,
];

/// The call of LOOKUP without its mark.
pub fn lookup_record() -> &'static [u32] {
    &LOOKUP_RECORD
}

/// The bytes of the call of LOOKUP, with its mark.
pub fn bytes_of_lookup(alloc: Global) -> Result<Vec<u8>, AllocError> {
    let mut bytes = bytes_of(alloc, &[0x8000_0064])?;
    add_words(&mut bytes, lookup_record())?;
    Ok(bytes)
}
