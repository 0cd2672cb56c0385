//! Following a trail: the lines that are there are printed, and then each that a server appends.
//!
//! An operator puts the trail away by moving `trail.txt`, and the server makes another file of this name. The old file
//! is read to its end, and then the new one from its beginning. A file that was cut is read again from its beginning.
//!
//! Paths are those of the store as it was read last. The store is read again for a line of an object that the tree
//! doesn't have, at most once a second. That line and those after it wait until then.
use crate::asking::{Refusal, choice_of};
use crate::choice::Choice;
use crate::fate::{Fate, fate_of};
use crate::growing::{Change, Growing};
use crate::home::{Home, Part};
use crate::known::{Known, know, places_of};
use crate::notice::Notice;
use crate::options::Options;
use crate::outlet::Outlet;
use crate::printing::{Broken, Printing, flush};
use crate::store_now::Unknown;
use crate::words::Meanings;
use std::fs::File;
use std::hash::RandomState;
use std::io::{BufWriter, Write};
use std::net::Net;
use std::rt::{Clock, Files};
use std::time::{Duration, Instant};
use std::{io, thread};

/// The time between two reads of the file. The server appends a line before it stores the call that wrote the line, so
/// the store is read for a line no sooner than this.
fn pause() -> Duration {
    Duration::from_millis(200)
}

/// The least time between two reads of the store.
fn store_pause() -> Duration {
    Duration::from_secs(1)
}

/// Why following stopped.
#[derive(Drop)]
pub(crate) enum Stop<'a> {
    /// The options can't be followed.
    Refused(Refusal<'a>),
    /// The trail can't be read, or nothing more can be written.
    Broken(Broken),
}

impl<'a> From<Refusal<'a>> for Stop<'a> {
    fn from(refusal: Refusal<'a>) -> Self {
        Stop::Refused(refusal)
    }
}

impl<'a> From<Broken> for Stop<'a> {
    fn from(broken: Broken) -> Self {
        Stop::Broken(broken)
    }
}

/// A trail that is followed, and what is known of its home.
#[derive(Drop)]
struct Follower<'h, 'w, R> {
    home: &'h Home<'h, R>,
    options: &'w Options<'w>,
    hasher: RandomState,
    trail: Growing,
    /// A pause ago the trail's name led to another file.
    is_left: bool,
    known: Known,
    /// The lines that match all options.
    choice: Choice,
    /// The lines that match all options but `--path`.
    but_path: Choice,
    /// When the store was read last. `None`: the clock can't be read.
    read_at: Option<Instant>,
    /// The length of the trail's file a pause before the store was read last, and at first before the first read. The
    /// store isn't read again for lines up to here.
    read_to: u64,
    /// It was reported that the store isn't known any more.
    is_reported: bool,
}

/// Whether standard output has lost its reader. If it can't be watched, a write shows that.
fn is_closed(outlet: &mut Option<Outlet>) -> bool {
    match outlet {
        Some(outlet) => outlet.is_closed(),
        None => false,
    }
}

/// The object of a line with its newline, if the line matches.
fn object_of(choice: &Choice, line: &[u8]) -> Option<u64> {
    let text = line.strip_suffix(b"\n".as_slice())?;
    match fate_of(choice, text) {
        Fate::Chosen(stamped) => match stamped.notice {
            Notice::Kept(line) => Some(line.object),
            Notice::Start | Notice::Lost(_) => None,
        },
        Fate::Unread | Fate::LeftOut(_) => None,
    }
}

impl<'h, 'w, R: Files<File = File> + Clock + Eprint> Follower<'h, 'w, R> {
    /// A follower that has printed nothing yet.
    fn new(
        home: &'h Home<'h, R>,
        options: &'w Options<'w>,
        hasher: RandomState,
        trail: Growing,
    ) -> Result<Self, Stop<'w>> {
        let read_to = trail.file_len().map_err(Broken::Reading)?;
        let known = know(home, hasher);
        let read_at = Instant::now(home.rt).ok();
        let places = known.places.as_ref();
        let choice = choice_of(home.alloc, options, &known.names, places)?;
        let mut others = *options;
        others.path = None;
        let but_path = choice_of(home.alloc, &others, &known.names, places)?;
        let is_reported = places.is_none();
        Ok(Follower {
            home,
            options,
            hasher,
            trail,
            is_left: false,
            known,
            choice,
            but_path,
            read_at,
            read_to,
            is_reported,
        })
    }

    /// How the lines are printed, by what is known now.
    fn printing(&self) -> Printing<'_> {
        Printing {
            choice: &self.choice,
            meanings: Meanings {
                alloc: self.home.alloc,
                names: &self.known.names,
                places: self.known.places.as_ref(),
            },
            raw: self.options.raw,
        }
    }

    /// Whether the options or the words of a line need the tree.
    fn needs_tree(&self) -> bool {
        !self.options.raw || self.options.path.is_some()
    }

    /// Whether the store is to be read again for the last line: it was appended after the last read, may be printed,
    /// and names an object that the tree doesn't have.
    fn lacks_object(&self) -> bool {
        if !self.needs_tree() || self.trail.position() <= self.read_to {
            return false;
        }
        match object_of(&self.but_path, self.trail.line()) {
            Some(object) => self.known.lacks(object),
            None => false,
        }
    }

    /// The time until a pause before the store may be read again.
    fn rest(&self) -> Duration {
        let passed = match self.read_at {
            Some(moment) => moment.elapsed(self.home.rt).ok(),
            None => None,
        };
        let rest = store_pause().saturating_sub(passed.unwrap_or(Duration::ZERO));
        rest.saturating_sub(pause())
    }

    /// Reports once that the store isn't known any more.
    fn report(&mut self, unknown: &Unknown) {
        if self.is_reported {
            return;
        }
        self.is_reported = true;
        let (rt, folder) = (self.home.rt, self.home.folder);
        let _ = eprintln!(rt;
            "nfstrail: {folder}/{unknown}; paths are those that were read before"
        );
    }

    /// Chooses lines by the tree as it is known now. If the path doesn't exist in it, the objects stay those that were
    /// there before.
    fn choose(&mut self) {
        let places = self.known.places.as_ref();
        match choice_of(self.home.alloc, self.options, &self.known.names, places) {
            Ok(choice) => self.choice = choice,
            Err(Refusal::Memory) => self.report(&Unknown::Memory),
            Err(_) => {}
        }
    }

    /// Reads the store. If it isn't known now, the tree stays the one that was read before.
    fn read_store(&mut self) {
        match places_of(self.home, self.hasher) {
            Ok(Some(places)) => {
                self.known.places = Some(places);
                self.is_reported = false;
                self.choose();
            }
            Ok(None) => {}
            Err(unknown) => self.report(&unknown),
        }
    }

    /// Reads the store again, once it may be read, for the lines that the file has a pause before that.
    fn renew<W: Write>(&mut self, out: &mut W) -> Result<(), Broken> {
        flush(out)?;
        thread::sleep(self.home.rt, self.rest());
        let read_to = self.trail.file_len().map_err(Broken::Reading)?;
        thread::sleep(self.home.rt, pause());
        self.read_store();
        self.read_at = Instant::now(self.home.rt).ok();
        self.read_to = read_to;
        Ok(())
    }

    /// Prints the line that was read last.
    fn print_last<W: Write>(&self, out: &mut W) -> Result<(), Broken> {
        let printed = self.printing().print_line(out, self.trail.line());
        printed.map_err(Broken::Writing)
    }

    /// Prints the next line. `false`: the file has none yet.
    fn print_next<W: Write>(&mut self, out: &mut W) -> Result<bool, Broken> {
        if !self.trail.next_line().map_err(Broken::Reading)? {
            return Ok(false);
        }
        if self.lacks_object() {
            self.renew(out)?;
        }
        self.print_last(out)?;
        Ok(true)
    }

    /// Prints the lines that were appended since the last call.
    fn print_new<W: Write>(&mut self, out: &mut W) -> Result<(), Broken> {
        for _line in 0..u64::MAX {
            if !self.print_next(out)? {
                break;
            }
        }
        flush(out)
    }

    /// Prints the bytes after the last newline of the file, which is left.
    fn print_unended<W: Write>(&self, out: &mut W) -> Result<(), Broken> {
        let text = self.trail.unended();
        if text.is_empty() {
            return Ok(());
        }
        let printed = self.printing().print_unended(out, text);
        printed.map_err(Broken::Writing)
    }

    /// Continues with the file that the trail's name leads to now, from its beginning. `false`: there is none.
    fn reopen<W: Write>(&mut self, out: &mut W) -> Result<bool, Broken> {
        let file = match self.home.find(Part::Trail) {
            Ok(Some(file)) => file,
            Ok(None) => return Ok(false),
            Err(fault) => return Err(Broken::Opening(fault)),
        };
        let trail = Growing::new(self.home.alloc, file).map_err(Broken::Reading)?;
        self.print_unended(out)?;
        self.trail = trail;
        self.is_left = false;
        self.read_to = 0;
        Ok(true)
    }

    /// Continues with another file if the trail's name leads to one, or the file was cut. `false`: it leads to the same
    /// one. A server may append a last line to the file that it leaves, so that is read once more after a pause.
    fn turn<W: Write>(&mut self, out: &mut W) -> Result<bool, Broken> {
        let change = self.trail.change(self.home).map_err(Broken::Opening)?;
        let was_left = self.is_left;
        self.is_left = change == Change::Replaced;
        match change {
            Change::Cut => self.reopen(out),
            Change::Replaced if was_left => self.reopen(out),
            Change::Replaced | Change::Same => Ok(false),
        }
    }

    /// Prints the lines that are there, and each that is appended, until standard output has no reader.
    fn run<W: Write>(&mut self, out: &mut W, outlet: &mut Option<Outlet>) -> Result<(), Broken> {
        for _turn in 0..u64::MAX {
            self.print_new(out)?;
            if self.turn(out)? {
                continue;
            }
            thread::sleep(self.home.rt, pause());
            if is_closed(outlet) {
                break;
            }
        }
        Ok(())
    }
}

/// Prints the lines of a trail that match the options, and then each that a server appends, until standard output has
/// no reader.
pub(crate) fn follow<'h, 'w, R: Files<File = File> + Net + Clock + Print + Eprint>(
    home: &'h Home<'h, R>,
    options: &'w Options<'w>,
    hasher: RandomState,
    file: File,
) -> Result<(), Stop<'w>> {
    let trail = Growing::new(home.alloc, file).map_err(Broken::Reading)?;
    let mut follower = Follower::new(home, options, hasher, trail)?;
    let writer = io::writer(home.rt);
    let mut out = BufWriter::new(home.alloc, writer).map_err(Broken::Writing)?;
    let mut outlet = Outlet::new(home.rt, home.alloc);
    follower.run(&mut out, &mut outlet)?;
    Ok(())
}
