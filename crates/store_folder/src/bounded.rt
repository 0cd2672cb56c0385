//! A file that isn't written beyond the size limit of the system. Beyond it the system would end the program by a
//! signal (SIGXFSZ).
ghost use Rattle.std.specs.Prelude.{◌≡◌, ◌<◌, ◌-◌, length, IsErrAnd, MatchResult};
ghost use Rattle.std.specs.Io.{WritesAtMost};
ghost use Rattle.std.specs.Io.KnownBytes.{WriteAppends};
ghost use Rattle.std.specs.IoError.{error_kind};

use std::io::{ErrorKind, Write};
use std::rt::Files;
use std::{fs, io};

/// The file in which the system lists the limits of a process.
const LIMITS: &str = "/proc/self/limits";

/// The name of the limit of a file's size in that file.
const FILE_SIZE: &str = "Max file size";

/// The limit of a file's size in the text of the limits. Without a limit it is the greatest number.
fn limit_in(text: &str) -> u64 {
    for line in text.lines() {
        if let Some(limits) = line.strip_prefix(FILE_SIZE) {
            return first_number(limits);
        }
    }
    u64::MAX
}

/// The number at the start of a text. If the text starts with a word it is the greatest number.
fn first_number(text: &str) -> u64 {
    match text.split_whitespace().next() {
        Some(word) => word.parse::<u64>().unwrap_or(u64::MAX),
        None => u64::MAX,
    }
}

/// The greatest size of a file that this process may write. It is the greatest number if the size has no limit or the
/// system doesn't report it.
pub fn file_limit<R: Files + Alloc>(rt: &R) -> u64 {
    match fs::read_to_string(rt, LIMITS) {
        Ok(text) => limit_in(text.as_str()),
        Err(_) => u64::MAX,
    }
}

/// A writer, and the number of bytes that may still be written to it.
#[derive(Drop)]
pub struct Bounded<F> {
    file: F,
    room: u64,
}

impl<F> Bounded<F> {
    /// A writer to which `room` bytes may be written.
    pub fn new(file: F, room: u64) -> Self
        ensures { result ≡ record { file = file; room = room } }
    {
        Bounded { file, room }
    }
}

impl<F: Write> Write for Bounded<F> {
    ghost contents = { λ b. F.contents b.file };

    /// If the bytes don't all fit none is written. No line is then torn.
    fn write(&mut self, buf: &[u8]) -> io::Result<usize>
        ensures bound { WritesAtMost result buf.now }
        ensures bytes { WriteAppends (F.contents self.old.file) (F.contents self.new.file) result buf.now }
        ensures full { self.old.room < length buf.now → IsErrAnd result (λ e. error_kind e ≡ ErrorKind.FileTooLarge) }
        ensures whole { self.old.room < length buf.now → self.new ≡ self.old }
        ensures room { MatchResult result (λ n. self.new.room ≡ self.old.room - n)
            (λ e. self.new.room ≡ self.old.room) }
    {
        if buf.len() as u64 > self.room {
            return Err(ErrorKind::FileTooLarge.into());
        }
        let n = self.file.write(buf)?;
        self.room = self.room.saturating_sub(n as u64);
        Ok(n)
    }

    fn flush(&mut self) -> io::Result<()> {
        self.file.flush()
    }
}
