//! The attributes of objects, as `stat` and the lines of `list` print them.
use crate::fault::Fault;
use crate::printable::Printable;
use crate::tree::Object;
use jiff::Timestamp;
use nfs_client::{Client, Given, Stat, ToolFault, Transport};
use nfs_ops::Bytes;
use nfs_types::{Attribute, Bitmap, Status};
use std::alloc::{AllocError, Global};
use std::fmt;
use std::fmt::{Display, Formatter};

/// Printed in place of an attribute that the server doesn't give.
const UNKNOWN: &str = "?";

/// A value, or `?` if the server didn't give it.
#[derive(Clone, Copy)]
struct Known<T>(Option<T>);

impl<T: Display> Display for Known<T> {
    fn fmt<W: fmt::Write>(&self, f: &mut Formatter<W>) -> fmt::Result {
        match &self.0 {
            Some(value) => write!(f, "{value}"),
            None => f.write_str(UNKNOWN),
        }
    }
}

/// A mode of four octal digits.
#[derive(Clone, Copy)]
struct Mode(u32);

impl Display for Mode {
    fn fmt<W: fmt::Write>(&self, f: &mut Formatter<W>) -> fmt::Result {
        let mode = self.0;
        write!(f, "{mode:04o}")
    }
}

/// A moment to the second, as `2026-11-28T02:44:00Z` (RFC 3339).
#[derive(Clone, Copy)]
struct Moment((i64, u32));

impl Display for Moment {
    fn fmt<W: fmt::Write>(&self, f: &mut Formatter<W>) -> fmt::Result {
        let (second, _) = self.0;
        match Timestamp::from_second(second) {
            Ok(moment) => write!(f, "{moment}"),
            Err(_) => write!(f, "{second}"),
        }
    }
}

/// A text that the server sent.
fn text(given: Option<Bytes<'_>>) -> Known<Printable<'_>> {
    Known(given.map(|text| Printable(text.bytes)))
}

/// The name of a type by its number, `nfs_ftype4`.
fn kind_name(number: Option<u32>) -> &'static str {
    match number {
        Some(1) => "file",
        Some(2) => "directory",
        Some(5) => "link",
        _ => UNKNOWN,
    }
}

/// The letter of a type in a listing.
fn kind_letter(number: Option<u32>) -> &'static str {
    match number {
        Some(1) => "-",
        Some(2) => "d",
        Some(5) => "l",
        _ => UNKNOWN,
    }
}

/// The attributes that no access control list governs: the others need READ_ATTRIBUTES.
fn ungoverned() -> Bitmap {
    Bitmap::empty()
        .with(Attribute::ObjectType.number())
        .with(Attribute::FileId.number())
}

/// The attributes of an object that the caller may read.
pub(crate) fn attributes<S: Transport>(
    client: &mut Client<S>,
    path: &[u8],
) -> Result<Given, Fault> {
    match client.attributes(path, Stat::asked()) {
        Err(ToolFault::Refused(_, Status::Access)) => Ok(client.attributes(path, ungoverned())?),
        outcome => Ok(outcome?),
    }
}

/// The attributes in a reply.
pub(crate) fn read(given: &Given) -> Result<Stat<'_>, Fault> {
    match Stat::read(given) {
        Some(stat) => Ok(stat),
        None => Err(Fault::Tool(ToolFault::Reply)),
    }
}

/// The first lines of an object's attributes.
fn identity(alloc: Global, stat: &Stat<'_>) -> Result<String, AllocError> {
    let (number, kind) = (Known(stat.number), kind_name(stat.kind));
    let (mode, owner) = (Known(stat.mode.map(Mode)), text(stat.owner));
    let group = text(stat.group);
    format!(in alloc;
        "number    {number}\nkind      {kind}\nmode      {mode}\nowner     {owner}\ngroup     {group}\n"
    )
}

/// The other lines.
fn object_text(alloc: Global, stat: &Stat<'_>) -> Result<String, AllocError> {
    let (size, links, change) = (Known(stat.size), Known(stat.links), Known(stat.change));
    let (changed, modified) = (
        Known(stat.changed.map(Moment)),
        Known(stat.modified.map(Moment)),
    );
    format!(in alloc;
        "size      {size}\nnames     {links}\nchange    {change}\nchanged   {changed}\nmodified  {modified}\n"
    )
}

/// Puts the attributes of an object.
fn put_known(alloc: Global, out: &mut Vec<u8>, stat: &Stat<'_>) -> Result<(), Fault> {
    out.extend_from_slice(identity(alloc, stat)?.as_bytes())?;
    out.extend_from_slice(object_text(alloc, stat)?.as_bytes())?;
    Ok(())
}

/// The size of the object of a path, if the caller may know it.
pub(crate) fn size<S: Transport>(
    client: &mut Client<S>,
    path: &[u8],
) -> Result<Option<u64>, Fault> {
    let given = attributes(client, path)?;
    let stat = read(&given)?;
    Ok(stat.size)
}

/// The attributes of an object, one a line.
pub(crate) fn stat<S: Transport>(
    client: &mut Client<S>,
    alloc: Global,
    path: &[u8],
) -> Result<Vec<u8>, Fault> {
    let given = attributes(client, path)?;
    let mut out = Vec::new(alloc);
    put_known(alloc, &mut out, &read(&given)?)?;
    Ok(out)
}

/// The end of an object's line: its file ID, its times and its name.
fn put_end(alloc: Global, out: &mut Vec<u8>, stat: &Stat<'_>, name: &[u8]) -> Result<(), Fault> {
    let (number, name) = (Known(stat.number), Printable(name));
    let (changed, modified) = (
        Known(stat.changed.map(Moment)),
        Known(stat.modified.map(Moment)),
    );
    let text = format!(in alloc; "{number} {changed} {modified} {name}\n")?;
    out.extend_from_slice(text.as_bytes())?;
    Ok(())
}

/// No attribute.
fn nothing<'a>() -> Stat<'a> {
    Stat {
        kind: None,
        change: None,
        size: None,
        number: None,
        mode: None,
        links: None,
        owner: None,
        group: None,
        changed: None,
        modified: None,
    }
}

/// Puts the line of an object of a listing, by this name. If its attributes are refused, those of
/// the listing are printed.
pub(crate) fn put_found<S: Transport>(
    client: &mut Client<S>,
    alloc: Global,
    out: &mut Vec<u8>,
    found: &Object,
    name: &[u8],
) -> Result<(), Fault> {
    out.extend_from_slice(found.columns.as_bytes())?;
    match attributes(client, found.path.as_slice()) {
        Ok(given) => put_end(alloc, out, &read(&given)?, name),
        Err(Fault::Tool(ToolFault::Refused(_, _))) => put_end(alloc, out, &nothing(), name),
        Err(fault) => Err(fault),
    }
}

/// Puts the line of the object of a path.
pub(crate) fn put_line<S: Transport>(
    client: &mut Client<S>,
    alloc: Global,
    out: &mut Vec<u8>,
    path: &[u8],
) -> Result<(), Fault> {
    let given = attributes(client, path)?;
    let stat = read(&given)?;
    let (kind, mode) = (kind_letter(stat.kind), Known(stat.mode.map(Mode)));
    let (owner, group, size) = (text(stat.owner), text(stat.group), Known(stat.size));
    let columns = format!(in alloc; "{kind} {mode} {owner} {group} {size} ")?;
    out.extend_from_slice(columns.as_bytes())?;
    put_end(alloc, out, &stat, path)
}
