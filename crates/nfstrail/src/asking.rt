//! The choice of lines by the words of the command line.
use crate::choice::Choice;
use crate::fields::operation_of;
use crate::moment::{MOMENT, read_moment};
use crate::names::Names;
use crate::options::Options;
use crate::places::Places;
use std::alloc::{AllocError, Global};
use std::collections::BTreeSet;
use std::fmt;
use std::fmt::{Display, Formatter};

/// Why the choice isn't known.
#[derive(Clone, Copy, PartialEq, Eq)]
pub(crate) enum Refusal<'a> {
    /// No user has this name in the book.
    NoUser(&'a str),
    /// There is no book with names of users.
    NoNames(&'a str),
    /// The book with the names can't be read.
    Names,
    /// The word is no path.
    NotAPath(&'a str),
    /// There is no object at this path.
    NoObject(&'a str),
    /// The tree isn't known.
    Tree,
    /// The word is no moment.
    NoMoment(&'a str),
    /// There is no operation of this name.
    NoOperation(&'a str),
    /// An allocation failed.
    Memory,
}

impl<'a> Refusal<'a> {
    /// Whether the words are wrong, and not the files that they refer to.
    pub(crate) fn is_of_words(&self) -> bool {
        !matches!(self, Refusal::Names | Refusal::Tree | Refusal::Memory)
    }
}

impl<'a> From<AllocError> for Refusal<'a> {
    fn from(_: AllocError) -> Self {
        Refusal::Memory
    }
}

impl<'a> Display for Refusal<'a> {
    fn fmt<W: fmt::Write>(&self, f: &mut Formatter<W>) -> fmt::Result {
        match self {
            Refusal::NoUser(name) => write!(f, "--user: the book has no user {name}"),
            Refusal::NoNames(name) => {
                write!(
                    f,
                    "--user: {name} is no number, and there is no book.toml with names"
                )
            }
            Refusal::Names => f.write_str("--user: the names aren't known"),
            Refusal::NotAPath(path) => {
                write!(
                    f,
                    "--path: {path} is no path: '/', or names each with '/' in front"
                )
            }
            Refusal::NoObject(path) => write!(f, "--path: the store has nothing at {path} now"),
            Refusal::Tree => f.write_str("--path: the paths aren't known"),
            Refusal::NoMoment(word) => write!(
                f,
                "--since: {word} is no moment, as 2026-11-26T20:28:01Z, and no day, as 2026-11-26"
            ),
            Refusal::NoOperation(name) => {
                write!(f, "--op: the server has no operation {name}; one is WRITE")
            }
            Refusal::Memory => f.write_str("there is no memory"),
        }
    }
}

/// The user of a name or a number.
fn user_of<'a>(names: &Names, word: &'a str) -> Result<u32, Refusal<'a>> {
    if let Ok(number) = word.parse::<u32>() {
        return Ok(number);
    }
    match (names.number_of(word), names) {
        (Some(number), _) => Ok(number),
        (None, Names::Book(_)) => Err(Refusal::NoUser(word)),
        (None, Names::NoBook) => Err(Refusal::NoNames(word)),
        (None, Names::Unknown) => Err(Refusal::Names),
    }
}

/// The rest of a moment's text that is the start of a day.
const MIDNIGHT: &[u8] = b"T00:00:00Z ";

/// The moment of a text and the end that completes it.
fn moment_of(text: &str, end: &[u8]) -> Option<u64> {
    let mut moment = [0u8; MOMENT];
    if text.len() + end.len() != MOMENT {
        return None;
    }
    moment[..text.len()].copy_from_slice(text.as_bytes());
    moment[text.len()..].copy_from_slice(end);
    read_moment(&moment)
}

/// The first second of a moment or a day.
fn since_of<'a>(word: &'a str) -> Result<u64, Refusal<'a>> {
    let read = match moment_of(word, b" ") {
        Some(second) => Some(second),
        None => moment_of(word, MIDNIGHT),
    };
    read.ok_or(Refusal::NoMoment(word))
}

fn op_of<'a>(word: &'a str) -> Result<u32, Refusal<'a>> {
    operation_of(word).ok_or(Refusal::NoOperation(word))
}

/// The objects at a path and below it.
fn objects_of<'a>(
    alloc: Global,
    places: Option<&Places>,
    path: &'a str,
) -> Result<BTreeSet<u64>, Refusal<'a>> {
    if !path.starts_with('/') {
        return Err(Refusal::NotAPath(path));
    }
    let Some(places) = places else {
        return Err(Refusal::Tree);
    };
    match places.below(alloc, path) {
        Ok(Some(objects)) => Ok(objects),
        Ok(None) => Err(Refusal::NoObject(path)),
        Err(_) => Err(Refusal::Memory),
    }
}

/// The choice by options that need no book and no tree.
fn plain_choice<'a>(options: &Options<'a>) -> Result<Choice, Refusal<'a>> {
    let op = match options.op {
        Some(word) => Some(op_of(word)?),
        None => None,
    };
    let since = match options.since {
        Some(word) => Some(since_of(word)?),
        None => None,
    };
    Ok(Choice {
        user: None,
        op,
        since,
        objects: None,
    })
}

/// The choice by all options.
pub(crate) fn choice_of<'a>(
    alloc: Global,
    options: &Options<'a>,
    names: &Names,
    places: Option<&Places>,
) -> Result<Choice, Refusal<'a>> {
    let mut choice = plain_choice(options)?;
    if let Some(word) = options.user {
        choice.user = Some(user_of(names, word)?);
    }
    if let Some(path) = options.path {
        choice.objects = Some(objects_of(alloc, places, path)?);
    }
    Ok(choice)
}
