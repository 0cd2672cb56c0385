//! Printing the lines of the trail.
ghost use Rattle.std.specs.Prelude.{◌∷◌, [], ◌++◌, OnOk, codes};
ghost use Rattle.std.specs.Bool.{OnTrue};
ghost use Rattle.std.specs.Io.KnownBytes.{Appends};
ghost use Rattle.nfstrail.specs.Fates.{IsPrinted, marked, torn};

use crate::choice::Choice;
use crate::fate::{Fate, fate_of};
use crate::fault::Fault;
use crate::notice::Stamped;
use crate::words::Meanings;
use std::alloc::Global;
use std::fs::File;
use std::io;
use std::io::{BufRead, BufReader, Write};

/// Which lines are printed, and how.
#[derive(Clone, Copy)]
pub(crate) struct Printing<'a> {
    pub(crate) choice: &'a Choice,
    pub(crate) meanings: Meanings<'a>,
    /// Whether lines are printed unchanged.
    pub(crate) raw: bool,
}

/// Writes a text, and a newline.
fn write_ended<W: Write>(out: &mut W, text: &[u8]) -> io::Result<()>
    ensures { OnOk result (Appends (W.contents out.old) (W.contents out.new) (text.now ++ 10 ∷ [])) }
{
    out.write_all(text)?;
    out.write_all(b"\n")
}

/// Writes a line that isn't understood: after these words, or unchanged without them.
fn write_marked<W: Write>(out: &mut W, raw: bool, words: &str, text: &[u8]) -> io::Result<()>
    ensures { OnOk result (Appends (W.contents out.old) (W.contents out.new)
        (marked raw words.now text.now ++ 10 ∷ [])) }
{
    if !raw {
        out.write_all(words.as_bytes())?;
    }
    write_ended(out, text)
}

/// Writes the bytes after the last newline, which are no line: after words, or unchanged without a newline.
fn write_torn<W: Write>(out: &mut W, raw: bool, text: &[u8]) -> io::Result<()>
    ensures { OnOk result (Appends (W.contents out.old) (W.contents out.new) (torn raw text.now)) }
{
    if raw {
        return out.write_all(text);
    }
    write_marked(out, raw, "not ended: ", text)
}

impl<'a> Printing<'a> {
    /// Writes a matching line: unchanged, or in words.
    fn write_chosen<W: Write>(&self, out: &mut W, text: &[u8], stamped: &Stamped) -> io::Result<()>
        ensures { OnTrue self.now.raw (OnOk result
            (Appends (W.contents out.old) (W.contents out.new) (text.now ++ 10 ∷ []))) }
    {
        if self.raw {
            write_ended(out, text)
        } else {
            self.meanings.write_words(out, stamped)
        }
    }

    /// Writes a line that has a newline, passed without it, if it is to be printed.
    fn print_ended<W: Write>(&self, out: &mut W, text: &[u8]) -> io::Result<()>
        ensures { OnOk result (IsPrinted self.now.raw self.now.choice.now text.now (W.contents out.old)
            (W.contents out.new)) }
    {
        let fate = fate_of(self.choice, text);
        match &fate {
            Fate::LeftOut(_) => Ok(()),
            Fate::Chosen(stamped) => self.write_chosen(out, text, stamped),
            Fate::Unread => write_marked(out, self.raw, "not understood: ", text),
        }
    }

    /// Writes a line, if it is to be printed.
    pub(crate) fn print_line<W: Write>(&self, out: &mut W, line: &[u8]) -> io::Result<()> {
        match line.strip_suffix(b"\n".as_slice()) {
            Some(text) => self.print_ended(out, text),
            None => write_torn(out, self.raw, line),
        }
    }

    /// Writes the bytes after the last newline of a file that isn't read any further: after words, or unchanged. Other
    /// lines follow, so they have a newline either way.
    pub(crate) fn print_unended<W: Write>(&self, out: &mut W, text: &[u8]) -> io::Result<()>
        ensures { OnOk result (Appends (W.contents out.old) (W.contents out.new)
            (marked self.now.raw (codes "not ended: ") text.now ++ 10 ∷ [])) }
    {
        write_marked(out, self.raw, "not ended: ", text)
    }
}

/// Why printing stopped.
#[derive(Drop)]
pub(crate) enum Broken {
    /// The trail can't be read any more.
    Reading(io::Error),
    /// The file that replaced the trail can't be opened.
    Opening(Fault),
    /// Nothing more can be written.
    Writing(io::Error),
}

/// Reads the next line with its newline, if there is one more.
fn next_line(reader: &mut BufReader<File>, line: &mut Vec<u8>) -> Result<bool, Broken> {
    line.clear();
    match reader.read_until(b'\n', line) {
        Ok(count) => Ok(count > 0),
        Err(error) => Err(Broken::Reading(error)),
    }
}

/// Writes what is buffered.
pub(crate) fn flush<W: Write>(out: &mut W) -> Result<(), Broken> {
    match out.flush() {
        Ok(()) => Ok(()),
        Err(error) => Err(Broken::Writing(error)),
    }
}

/// Prints the lines of a file.
pub(crate) fn print_lines<W: Write>(
    alloc: Global,
    printing: &Printing<'_>,
    reader: &mut BufReader<File>,
    out: &mut W,
) -> Result<(), Broken> {
    let mut line = Vec::new(alloc);
    for _line in 0..u64::MAX {
        if !next_line(reader, &mut line)? {
            break;
        }
        if let Err(error) = printing.print_line(out, line.as_slice()) {
            return Err(Broken::Writing(error));
        }
    }
    flush(out)
}
