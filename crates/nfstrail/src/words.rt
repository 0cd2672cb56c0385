//! Lines in words.
use crate::names::Names;
use crate::notice::{Notice, Stamped};
use crate::places::{Place, Places};
use crate::rights::{write_right, write_rights};
use access_guard::{Cause, Line, LineKind};
use acl_list::{Kind, mask};
use nfs_ops::operation_name;
use std::alloc::Global;
use std::io;
use std::io::Write;
use trail_keeper::moment_text;

/// The permissions on a directory that concern the names in it.
const ABOUT_NAMES: u32 = mask::ADD_FILE
    | mask::ADD_SUBDIRECTORY
    | mask::EXECUTE
    | mask::DELETE_CHILD;

/// The meanings of numbers: the names of users, and the places of objects.
#[derive(Clone, Copy)]
pub(crate) struct Meanings<'a> {
    pub(crate) alloc: Global,
    pub(crate) names: &'a Names,
    /// The store's tree, if it is known.
    pub(crate) places: Option<&'a Places>,
}

/// The type of an object, if it is known.
fn kind_at(place: Option<Place>) -> Option<Kind> {
    match place {
        Some(Place::There(kind)) => Some(kind),
        _ => None,
    }
}

/// The word before the object: permissions on a directory may concern the names in it.
fn preposition(kind: Option<Kind>, rights: u32) -> &'static str {
    if kind == Some(Kind::Directory) && rights & ABOUT_NAMES != 0 {
        " in "
    } else {
        " of "
    }
}

/// Writes an operation by its name, or its number if it has none.
fn write_operation<W: Write>(out: &mut W, op: u32) -> io::Result<()> {
    match operation_name(op) {
        Some(name) => out.write_all(name),
        None => write!(out, "operation {op}"),
    }
}

/// Writes which ACE (access control entry) it was, counted from 1, or that there was none.
fn write_denial<W: Write>(out: &mut W, line: &Line, kind: Option<Kind>) -> io::Result<()> {
    let is_one = line.mask.count_ones() == 1;
    match line.cause {
        Cause::Missing(0) => out.write_all(b", and the object wasn't there"),
        Cause::Missing(_) if is_one => out.write_all(b", which no entry allows"),
        Cause::Missing(right) => {
            out.write_all(b", of which no entry allows ")?;
            write_right(out, right, kind)
        }
        Cause::ByEntry(index) => {
            let entry = index.saturating_add(1);
            let which = if is_one { "which" } else { "of which" };
            let what = if is_one { "" } else { " at least one" };
            write!(out, ", {which} entry {entry} denies{what}")
        }
    }
}

/// Writes which ACE audits or alarms, counted from 1.
fn write_watch<W: Write>(out: &mut W, line: &Line) -> io::Result<()> {
    match line.cause {
        Cause::ByEntry(index) => {
            let entry = index.saturating_add(1);
            write!(out, ", which entry {entry} watches")
        }
        Cause::Missing(_) => Ok(()),
    }
}

/// Writes the reason for the line.
fn write_cause<W: Write>(out: &mut W, line: &Line, kind: Option<Kind>) -> io::Result<()> {
    match line.kind {
        LineKind::Deny => write_denial(out, line, kind),
        LineKind::Audit | LineKind::Alarm => write_watch(out, line),
    }
}

/// Writes the number of missing lines.
fn write_lost<W: Write>(out: &mut W, count: u64) -> io::Result<()> {
    let (lines, are) = if count == 1 {
        ("line", "is")
    } else {
        ("lines", "are")
    };
    write!(
        out,
        "{count} {lines} of AUDIT and ALARM entries {are} missing, of one call that wrote more than 4,096"
    )
}

/// The word before a line that an ACE requests.
fn kind_word(kind: LineKind) -> &'static str {
    match kind {
        LineKind::Deny => "",
        LineKind::Audit => "AUDIT: ",
        LineKind::Alarm => "ALARM: ",
    }
}

impl<'a> Meanings<'a> {
    fn place_of(&self, number: u64) -> Option<Place> {
        match self.places {
            Some(places) => Some(places.place_of(number)),
            None => None,
        }
    }

    /// Writes an object by its path now. `false`: it has none.
    fn write_path<W: Write>(&self, out: &mut W, number: u64) -> io::Result<bool> {
        match self.places {
            Some(places) => places.write_path(out, self.alloc, number),
            None => Ok(false),
        }
    }

    /// Writes an object by its path now, or by its number.
    fn write_object<W: Write>(&self, out: &mut W, number: u64) -> io::Result<()> {
        if self.write_path(out, number)? {
            return Ok(());
        }
        match self.place_of(number) {
            None => write!(out, "object {number}"),
            Some(Place::Later) => write!(out, "object {number}, not in the store yet"),
            Some(Place::Missing | Place::There(_)) => write!(out, "object {number}, gone"),
        }
    }

    /// Writes the user, the operation and the object of a line.
    fn write_deed<W: Write>(&self, out: &mut W, line: &Line, kind: Option<Kind>) -> io::Result<()> {
        self.names.write_user(out, line.uid)?;
        let how = if line.granted {
            " was granted "
        } else {
            " was refused "
        };
        out.write_all(how.as_bytes())?;
        write_operation(out, line.op)?;
        out.write_all(preposition(kind, line.mask).as_bytes())?;
        self.write_object(out, line.object)
    }

    /// Writes a line of the trail.
    fn write_line<W: Write>(&self, out: &mut W, line: &Line) -> io::Result<()> {
        let kind = kind_at(self.place_of(line.object));
        out.write_all(kind_word(line.kind).as_bytes())?;
        self.write_deed(out, line, kind)?;
        out.write_all(b": ")?;
        write_rights(out, line.mask, kind)?;
        write_cause(out, line, kind)
    }

    fn write_notice<W: Write>(&self, out: &mut W, notice: &Notice) -> io::Result<()> {
        match notice {
            Notice::Start => out.write_all(b"the server started"),
            Notice::Lost(count) => write_lost(out, *count),
            Notice::Kept(line) => self.write_line(out, line),
        }
    }

    /// Writes a line of the file in words, with a newline.
    pub(crate) fn write_words<W: Write>(&self, out: &mut W, stamped: &Stamped) -> io::Result<()> {
        if let Some(second) = stamped.second {
            out.write_all(&moment_text(i64::try_from(second).unwrap_or(i64::MAX)))?;
            out.write_all(b" ")?;
        }
        self.write_notice(out, &stamped.notice)?;
        out.write_all(b"\n")
    }
}
