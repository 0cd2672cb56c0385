//! The objects of a command, for the sentences on its faults.
use crate::deep::Deep;
use crate::printable::Printable;
use crate::wish::Wish;
use nfs_client::Command;
use nfs_ops::{OP_CREATE, OP_GETATTR, OP_LINK, OP_LOOKUP, OP_OPEN, OP_READ, OP_REMOVE, OP_RENAME};
use std::fmt;
use std::fmt::{Display, Formatter};

/// What a command has among its words or sets, for the sentences on its faults.
#[derive(Clone, Copy, PartialEq, Eq)]
pub(crate) enum Form {
    /// A word that can be no mode.
    Mode,
    /// A word that can be no access control entry (ACE).
    Entry,
    /// The times of an object, which not every server keeps.
    Times,
    /// None of these.
    Other,
}

/// The objects that a command is about.
#[derive(Clone, Copy)]
enum Objects<'a> {
    /// None, or one that no path names.
    Unnamed,
    /// The object of a path.
    At(&'a [u8]),
    /// The object of a path, and the directory of its name.
    Named(&'a [u8]),
    /// The directories of a path; some of them are made.
    Along(&'a [u8]),
    /// The first path is that of an object, the second that of a name that it gets, or of another
    /// object that gets its bytes.
    Both(&'a [u8], &'a [u8]),
}

/// The subject of a command: its objects, and its words beside their paths.
#[derive(Clone, Copy)]
pub(crate) struct About<'a> {
    objects: Objects<'a>,
    pub(crate) form: Form,
}

/// The subject of a command of the client.
fn about_plain<'a>(command: &Command<'a>) -> About<'a> {
    let (objects, form) = match command {
        Command::ChMod(_, path) => (Objects::At(path), Form::Mode),
        Command::SetAcl(_, path, _) => (Objects::At(path), Form::Entry),
        Command::Ln(old, new) | Command::Mv(old, new) => (Objects::Both(old, new), Form::Other),
        Command::Ls(path)
        | Command::Cat(path)
        | Command::Put(path, _)
        | Command::MkDir(path)
        | Command::Rm(path)
        | Command::GetAcl(_, path)
        | Command::Access(path) => (Objects::At(path), Form::Other),
    };
    About { objects, form }
}

/// The path of the directory that has a path's last name. `None`: it is the root's.
pub(crate) fn parent_of(path: &[u8]) -> Option<&[u8]> {
    let place = path.iter().rposition(|byte| *byte == b'/')?;
    if place.saturating_add(1) == path.len() {
        return None;
    }
    if place == 0 {
        return Some(b"/");
    }
    path.get(..place)
}

impl<'a> About<'a> {
    /// Nothing: a fault of words alone.
    pub(crate) fn nothing() -> Self {
        About {
            objects: Objects::Unnamed,
            form: Form::Other,
        }
    }

    /// The subject of a command.
    pub(crate) fn of(wish: &Wish<'a>) -> Self {
        let objects = match wish {
            Wish::Plain(command) => return about_plain(command),
            Wish::Deep {
                deep: Deep::ChMod(_),
                path,
                ..
            } => {
                return About {
                    objects: Objects::At(path),
                    form: Form::Mode,
                };
            }
            Wish::Touch(_, path) => {
                return About {
                    objects: Objects::At(path),
                    form: Form::Times,
                };
            }
            Wish::PathOf(_) => Objects::Unnamed,
            Wish::MakeAll(path) => Objects::Along(path),
            Wish::Copy(old, new) => Objects::Both(old, new),
            Wish::Why { rights, path, .. } | Wish::Who { rights, path } => {
                if *rights == "delete" || *rights == "remove" {
                    Objects::Named(path)
                } else {
                    Objects::At(path)
                }
            }
            Wish::Get { path, .. }
            | Wish::Send { path, .. }
            | Wish::GetFacl(path)
            | Wish::ChangeFacl { path, .. }
            | Wish::Stat(path)
            | Wish::List(path)
            | Wish::ChOwn(_, path)
            | Wish::ChGrp(_, path)
            | Wish::SymLink(_, path)
            | Wish::ReadLink(path)
            | Wish::Deep { path, .. } => Objects::At(path),
        };
        About {
            objects,
            form: Form::Other,
        }
    }
}

/// The objects whose access control lists (ACLs) may refuse an operation of a command. LOOKUP is
/// refused by a directory on the way, CREATE and LINK by the directory of the new name. OPEN and
/// REMOVE are refused by an object or by the directory of its name, RENAME by one of all of these.
#[derive(Clone, Copy)]
pub(crate) struct Refusing<'a> {
    pub(crate) about: About<'a>,
    pub(crate) op: u32,
}

/// Writes the directory that has a path's last name.
fn write_parent<W: fmt::Write>(f: &mut Formatter<W>, path: &[u8]) -> fmt::Result {
    let path = Printable(parent_of(path).unwrap_or(path));
    write!(f, "{path}: ")
}

/// Writes the objects that may refuse an operation of a command of one path.
fn write_one<W: fmt::Write>(f: &mut Formatter<W>, op: u32, path: &[u8]) -> fmt::Result {
    let printed = Printable(path);
    match op {
        OP_LOOKUP => write!(f, "on the way to {printed}: "),
        OP_CREATE => write_parent(f, path),
        OP_OPEN | OP_REMOVE => write!(f, "{printed} or its directory: "),
        _ => write!(f, "{printed}: "),
    }
}

/// Writes the objects that may refuse an operation of a command of two paths.
fn write_both<W: fmt::Write>(f: &mut Formatter<W>, op: u32, old: &[u8], new: &[u8]) -> fmt::Result {
    let (printed, other) = (Printable(old), Printable(new));
    match op {
        OP_LOOKUP => write!(f, "on the way to {printed} or {other}: "),
        OP_READ => write!(f, "{printed}: "),
        OP_LINK => write_parent(f, new),
        OP_RENAME => write!(f, "{printed}, {other} or their directories: "),
        _ => write_one(f, op, new),
    }
}

impl Display for Refusing<'_> {
    /// Writes the objects, with a colon and a space after them, or nothing if no path names them.
    fn fmt<W: fmt::Write>(&self, f: &mut Formatter<W>) -> fmt::Result {
        match self.about.objects {
            Objects::Unnamed => Ok(()),
            Objects::At(path) => write_one(f, self.op, path),
            Objects::Named(path) if self.op == OP_GETATTR => write_one(f, OP_REMOVE, path),
            Objects::Named(path) => write_one(f, self.op, path),
            Objects::Along(path) => write_one(f, OP_LOOKUP, path),
            Objects::Both(old, new) => write_both(f, self.op, old, new),
        }
    }
}
