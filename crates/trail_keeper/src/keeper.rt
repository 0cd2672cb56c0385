//! A keeper of a trail.
ghost use Rattle.std.specs.Prelude.{◌≡◌, ◌≤◌, [], length, false, nat_lt};
ghost use Rattle.trail_keeper.specs.Appended.{line_end, start_text};
ghost use Rattle.trail_keeper.specs.Keeping.{AddingGives, KeepingGives};

use crate::appending::{append_line_end, append_new_after, append_start};
use crate::piece::MOST_PREFIX;
use access_guard::Guard;
use std::alloc::Allocator;
use std::io::Write;

/// Appends the lines of a trail to a writer, each once and with a newline. Once the writer has failed, nothing more is
/// appended.
#[derive(Drop)]
pub struct TrailKeeper<W> {
    out: W,
    /// The number of lines of the trail that have been appended, or reported as missing.
    seen: u64,
    has_failed: bool,
}

impl<W: Write> TrailKeeper<W> {
    /// A keeper that has appended no line. The writer isn't flushed, and must therefore buffer nothing, as a file does.
    pub fn new(out: W) -> Self
        ensures { result ≡ record { out = out; seen = 0; has_failed = false } }
    {
        TrailKeeper {
            out,
            seen: 0,
            has_failed: false,
        }
    }

    /// The writer.
    pub fn into_inner(self) -> W
        ensures { result ≡ self.out }
    {
        self.out
    }

    /// Continues with another writer, as that of the file that the trail's name now refers to. What was appended stays
    /// appended.
    pub fn replace(&mut self, out: W)
    where
        W: Drop,
        ensures { self.new ≡ record self.old { out = out } }
    {
        self.out = out;
    }

    /// Whether the trail has lines that aren't appended yet.
    pub fn has_new<A: Allocator + Copy>(&self, guard: &Guard<A>) -> bool
        ensures { result ≡ nat_lt self.now.seen guard.now.log.total }
    {
        self.seen < guard.total()
    }

    /// Appends a newline if `last`, the last byte so far, leaves a line unfinished. The next line then begins on a line
    /// of its own. `false`: the writer failed, or accepted no bytes, now or before.
    pub fn end_line(&mut self, last: Option<u8>) -> bool
        ensures { AddingGives W.contents (line_end last) result self.old self.new }
    {
        if self.has_failed {
            return false;
        }
        self.has_failed = append_line_end(last, &mut self.out).is_err();
        !self.has_failed
    }

    /// Appends the line of a start, `START`, after the prefix `prefix` of at most 32 bytes. `false`: the writer failed,
    /// or accepted no bytes, now or before.
    pub fn start(&mut self, prefix: &[u8]) -> bool
        requires { length prefix.now ≤ MOST_PREFIX }
        ensures { AddingGives W.contents (start_text prefix.now) result self.old self.new }
    {
        if self.has_failed {
            return false;
        }
        self.has_failed = append_start(prefix, &mut self.out).is_err();
        !self.has_failed
    }

    /// Appends the lines of the trail that aren't appended yet, in order, as [`append_new`](crate::append_new) writes
    /// them. The trail keeps its last 4,096 lines. If it no longer keeps some of the new ones, `LOST lines=N` comes
    /// first. `keep` allocates nothing.
    ///
    /// `false`: the writer failed, or accepted no bytes, now or before. At most a prefix of these lines was appended
    /// then, and no later call writes any bytes.
    pub fn keep<A: Allocator + Copy>(&mut self, guard: &Guard<A>) -> bool
        ensures { KeepingGives W.contents [] guard.now.log result self.old self.new }
    {
        self.keep_after(guard, &[])
    }

    /// Does the same as [`keep`](Self::keep), with the prefix `prefix` before each line, of at most 32 bytes.
    pub fn keep_after<A: Allocator + Copy>(&mut self, guard: &Guard<A>, prefix: &[u8]) -> bool
        requires { length prefix.now ≤ MOST_PREFIX }
        ensures { KeepingGives W.contents prefix.now guard.now.log result self.old self.new }
    {
        if self.has_failed {
            return false;
        }
        if guard.total() <= self.seen {
            return true;
        }
        let Ok(total) = append_new_after(guard, self.seen, prefix, &mut self.out) else {
            self.has_failed = true;
            return false;
        };
        self.seen = total;
        true
    }
}
