//! Appending the new lines of a trail.
ghost use Rattle.std.specs.Prelude.{◌≡◌, ◌≤◌, [], length, drop, IfOk};
ghost use Rattle.trail_keeper.specs.Appended.{line_bytes, line_end, lost_text, new_text, start_text, text_of};
ghost use Rattle.trail_keeper.specs.Written.{WriteGives};

use crate::piece::{MOST_PREFIX, Piece};
use access_guard::{Guard, Line, write_line};
use circular_buffer::Iter;
use itoa::Buffer;
use std::alloc::Allocator;
use std::io;
use std::io::{ErrorKind, Write};

/// Writes all of the bytes. `Err`: the writer failed, or accepted nothing.
fn write_out<W: Write>(out: &mut W, bytes: &[u8]) -> io::Result<()>
    ensures { WriteGives (W.contents out.old) (W.contents out.new) bytes.now result }
{
    let mut done = 0;
    while done < bytes.len() {
        let n = out.write(&bytes[done..])?;
        if n == 0 {
            return Err(ErrorKind::WriteZero.into());
        }
        done += n;
    }
    Ok(())
}

/// Appends a line in one write: the prefix `prefix`, its text and its newline.
fn append_line<W: Write>(prefix: &[u8], line: &Line, out: &mut W) -> io::Result<()>
    requires { length prefix.now ≤ MOST_PREFIX }
    ensures { WriteGives (W.contents out.old) (W.contents out.new) (line_bytes prefix.now line.now) result }
{
    let mut piece = Piece::new();
    piece.push(prefix);
    piece.push(write_line(line).as_bytes());
    piece.end();
    write_out(out, piece.as_bytes())
}

/// Appends lines in their order.
fn append_lines<W: Write>(prefix: &[u8], lines: Iter<'_, Line>, out: &mut W) -> io::Result<()>
    requires { length prefix.now ≤ MOST_PREFIX }
    ensures { WriteGives (W.contents out.old) (W.contents out.new) (text_of prefix.now lines.entry) result }
{
    for line in lines {
        append_line(prefix, line, out)?;
    }
    Ok(())
}

/// Appends the number of missing lines, if any are missing.
fn append_lost<W: Write>(prefix: &[u8], count: u64, out: &mut W) -> io::Result<()>
    requires { length prefix.now ≤ MOST_PREFIX }
    ensures { WriteGives (W.contents out.old) (W.contents out.new) (lost_text prefix.now count) result }
{
    if count == 0 {
        return Ok(());
    }
    let mut piece = Piece::new();
    piece.push(prefix);
    piece.push(b"LOST lines=");
    piece.push(Buffer::new().format(count).as_bytes());
    piece.end();
    write_out(out, piece.as_bytes())
}

/// Appends the line of a start.
pub(crate) fn append_start<W: Write>(prefix: &[u8], out: &mut W) -> io::Result<()>
    requires { length prefix.now ≤ MOST_PREFIX }
    ensures { WriteGives (W.contents out.old) (W.contents out.new) (start_text prefix.now) result }
{
    let mut piece = Piece::new();
    piece.push(prefix);
    piece.push(b"START");
    piece.end();
    write_out(out, piece.as_bytes())
}

/// Appends a newline if the last byte leaves a line unfinished.
pub(crate) fn append_line_end<W: Write>(last: Option<u8>, out: &mut W) -> io::Result<()>
    ensures { WriteGives (W.contents out.old) (W.contents out.new) (line_end last) result }
{
    match last {
        None | Some(b'\n') => Ok(()),
        Some(_) => write_out(out, b"\n"),
    }
}

/// The lines of a trail after the first `count` that it keeps.
fn lines_after<A: Allocator + Copy>(guard: &Guard<A>, count: u64) -> Iter<'_, Line>
    ensures { result ≡ drop count guard.now.log.trail }
{
    let mut lines = guard.trail();
    for _ in 0..count {
        lines.next();
    }
    lines
}

/// Appends the lines of the trail after its first `seen` lines, in order, each with a newline. The text of a line is
/// that of [`write_line`]. The trail keeps its last 4,096 lines. If it no longer keeps some of the new ones, `LOST
/// lines=N` comes first, with their number in decimal digits.
///
/// The result is the number of all lines: `seen` for the next call. `Err`: the writer failed, or accepted nothing, and
/// then a prefix of these bytes was written. The function allocates nothing.
pub fn append_new<A: Allocator + Copy, W: Write>(
    guard: &Guard<A>,
    seen: u64,
    out: &mut W,
) -> io::Result<u64>
    ensures total { IfOk result (λ n. n ≡ guard.now.log.total) }
    ensures written { WriteGives (W.contents out.old) (W.contents out.new) (new_text [] seen guard.now.log) result }
{
    append_new_after(guard, seen, &[], out)
}

/// Does the same as [`append_new`], with the prefix `prefix` before each line, of at most 32 bytes.
pub fn append_new_after<A: Allocator + Copy, W: Write>(
    guard: &Guard<A>,
    seen: u64,
    prefix: &[u8],
    out: &mut W,
) -> io::Result<u64>
    requires { length prefix.now ≤ MOST_PREFIX }
    ensures total { IfOk result (λ n. n ≡ guard.now.log.total) }
    ensures written { WriteGives (W.contents out.old) (W.contents out.new) (new_text prefix.now seen guard.now.log)
        result }
{
    let total = guard.total();
    let new = total.saturating_sub(seen);
    let kept = guard.trail().len() as u64;
    append_lost(prefix, new.saturating_sub(kept), out)?;
    append_lines(prefix, lines_after(guard, kept.saturating_sub(new)), out)?;
    Ok(total)
}
