//! Bytes over a stream: a call's bytes, and the record of a reply.
ghost use Rattle.std.specs.Prelude.{◌≡◌, ◌≤◌, ◌++◌, List, ℕ};
ghost use Rattle.std.specs.Io.KnownBytes.{Appends};
ghost use Rattle.rpc_record.specs.Framer.{HasRead};
ghost use Rattle.nfs_client.specs.Streams.{WriteGives, PieceGives, RecordGives};

use crate::fault::ToolFault;
use rpc_record::{Framer, Step, a_framer_has_read_the_rest};
use std::alloc::Allocator;
use std::io::{Read, Write};

/// The most bytes of one read.
const PIECE: usize = 4096;

/// The most reads for one reply.
const MOST_READS: u32 = 200_000;

/// Writes all of the bytes. `Write`: the stream failed, or took no bytes.
pub fn write_out<W: Write>(stream: &mut W, bytes: &[u8]) -> Result<(), ToolFault>
    ensures { WriteGives (W.contents stream.old) (W.contents stream.new) bytes.now result }
{
    let mut done = 0;
    while done < bytes.len() {
        let Ok(n) = stream.write(&bytes[done..]) else {
            return Err(ToolFault::Write);
        };
        if n == 0 {
            return Err(ToolFault::Write);
        }
        done += n;
    }
    Ok(())
}

/// Reads a piece, and appends its part of the record. Returns whether the record ends with the piece. `Reply`: the
/// record breaks the stream, or bytes come after it.
fn take_piece<A: Allocator>(
    framer: &mut Framer,
    content: &mut Vec<u8, A>,
    piece: &[u8],
) -> Result<bool, ToolFault>
    ensures { (bytes : List ℕ) → HasRead framer.old content.old.items bytes →
        PieceGives framer.new content.new.items (bytes ++ piece.now) result }
{
    let mut at = 0;
    loop {
        match framer.feed(piece, at) {
            Step::Part(from, to) => {
                content.extend_from_slice(&piece[from..to])?;
                at = to;
            }
            Step::Record(from, to) => {
                content.extend_from_slice(&piece[from..to])?;
                if to < piece.len() {
                    return Err(ToolFault::Reply);
                }
                return Ok(true);
            }
            Step::NeedMore => return Ok(false),
            Step::Broken => return Err(ToolFault::Reply),
        }
    }
}

/// Reads a record, in at most 200,000 reads. `Read`: the stream failed or ended, or the record took
/// more reads. `Reply`: the stream breaks in the record, or bytes come after it.
pub fn read_record<A: Allocator, R: Read>(alloc: A, stream: &mut R) -> Result<Vec<u8, A>, ToolFault>
    ensures { RecordGives (λ v. v.items) (R.remaining stream.old) (R.remaining stream.new) result }
{
    a_framer_has_read_the_rest();
    let mut framer = Framer::new();
    let mut content = Vec::new(alloc);
    for _i in 0..MOST_READS {
        let mut buf = [0u8; PIECE];
        let Ok(n) = stream.read(&mut buf) else {
            return Err(ToolFault::Read);
        };
        if n == 0 {
            return Err(ToolFault::Read);
        }
        match take_piece(&mut framer, &mut content, &buf[..n]) {
            Ok(true) => return Ok(content),
            Ok(false) => {}
            Err(fault) => return Err(fault),
        }
    }
    Err(ToolFault::Read)
}
