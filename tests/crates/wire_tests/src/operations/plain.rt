//! Functions that the tests call. They have no contract, so that the prover doesn't compute on a test's bytes.
use nfs_ops::{Op, OpResult, next_op, read_result, write_op, write_result};
use std::alloc::Global;
use xdr_wire::{Full, Reader, Writer};

/// An operation as it was read.
#[derive(Clone, Copy, Debug, PartialEq, Eq)]
pub enum Kind {
    Operation(u32),
    Unsupported(u32),
    Illegal,
    Bad(u32),
}

fn kind_of(op: &Op) -> Kind {
    match op {
        Op::Unsupported(number) => Kind::Unsupported(*number),
        Op::Illegal => Kind::Illegal,
        Op::Bad(number) => Kind::Bad(*number),
        _ => Kind::Operation(op.number()),
    }
}

/// The answer of `next_op` to the bytes, and how many are left.
pub fn read(bytes: &[u8]) -> (Kind, usize) {
    let mut reader = Reader::new(bytes);
    let op = next_op(&mut reader);
    (kind_of(&op), reader.len())
}

/// The answer to writing the operation that the bytes encode into a buffer of this room, and whether the buffer has
/// these bytes then.
fn again(
    alloc: Global,
    room: usize,
    bytes: &[u8],
    want: &[u8],
) -> Option<(Result<(), Full>, bool)> {
    match Writer::new(alloc, room) {
        Ok(mut writer) => {
            let answer = write_op(next_op(&mut Reader::new(bytes)), &mut writer);
            Some((answer, writer.bytes() == want))
        }
        Err(_) => None,
    }
}

/// Whether the operation that the bytes encode is written as them into their room, and nothing of it into a smaller
/// one.
pub fn is_written_again(alloc: Global, bytes: &[u8]) -> bool {
    let room = bytes.len();
    (again(alloc, room, bytes, bytes) == Some((Ok(()), true)))
        & (again(alloc, room.saturating_sub(1), bytes, b"") == Some((Err(Full), true)))
}

/// The answer to writing a result into a buffer of this room, and whether the buffer has these bytes then.
pub fn written(
    alloc: Global,
    room: usize,
    outcome: OpResult<'_>,
    want: &[u8],
) -> Option<(Result<(), Full>, bool)> {
    match Writer::new(alloc, room) {
        Ok(mut writer) => {
            let answer = write_result(outcome, &mut writer);
            Some((answer, writer.bytes() == want))
        }
        Err(_) => None,
    }
}

/// The number at the start, or 0 if the bytes are fewer.
pub fn number_of(bytes: &[u8]) -> u32 {
    Reader::new(bytes).u32().unwrap_or(0)
}

fn put_again(writer: &mut Writer, bytes: &[u8]) {
    if let Ok(outcome) = read_result(&mut Reader::new(bytes)) {
        let _ = write_result(outcome, writer);
    }
}

/// Whether the result that the bytes encode is written as these; as nothing if they encode none.
pub fn is_result_again(alloc: Global, bytes: &[u8], want: &[u8]) -> bool {
    match Writer::new(alloc, bytes.len()) {
        Ok(mut writer) => {
            put_again(&mut writer, bytes);
            writer.bytes() == want
        }
        Err(_) => false,
    }
}
