//! The names of users.
use crate::escaped::write_name;
use crate::fault::Fault;
use crate::home::{Home, Part};
use book_words::explain;
use std::alloc::{AllocError, Global};
use std::fmt::{Display, Formatter};
use std::fs::File;
use std::io::{Read, Write};
use std::rt::Files;
use std::{fmt, io};
use who_book::{Book, NameKind};

/// The names of the users of a home.
#[derive(Drop)]
pub(crate) enum Names {
    /// The names of its book.
    Book(Book),
    /// It has no book.
    NoBook,
    /// Its book can't be read.
    Unknown,
}

/// Why a book isn't read.
#[derive(Drop)]
pub(crate) enum NoBook {
    /// Its file can't be read.
    Unread(Fault),
    /// It has a fault, with these words for it.
    Wrong(String),
}

impl From<AllocError> for NoBook {
    fn from(_: AllocError) -> Self {
        NoBook::Unread(Fault::Memory)
    }
}

impl Display for NoBook {
    fn fmt<W: fmt::Write>(&self, f: &mut Formatter<W>) -> fmt::Result {
        match self {
            NoBook::Unread(fault) => write!(f, "{fault}"),
            NoBook::Wrong(words) => write!(f, "{words}"),
        }
    }
}

/// The text of a file.
fn text_of(alloc: Global, mut file: File) -> io::Result<String> {
    let mut text = String::new(alloc);
    file.read_to_string(&mut text)?;
    Ok(text)
}

/// The book of a text.
fn book_of(alloc: Global, text: &str) -> Result<Book, NoBook> {
    match Book::read(alloc, text) {
        Ok(book) => Ok(book),
        Err(fault) => Err(NoBook::Wrong(explain(alloc, text, fault)?)),
    }
}

/// The names of a home.
pub(crate) fn read_names<R: Files<File = File>>(home: &Home<'_, R>) -> Result<Names, NoBook> {
    let file = match home.find(Part::Book) {
        Ok(Some(file)) => file,
        Ok(None) => return Ok(Names::NoBook),
        Err(fault) => return Err(NoBook::Unread(fault)),
    };
    let text = match text_of(home.alloc, file) {
        Ok(text) => text,
        Err(error) => return Err(NoBook::Unread(Fault::from(error))),
    };
    match book_of(home.alloc, text.as_str()) {
        Ok(book) => Ok(Names::Book(book)),
        Err(fault) => Err(fault),
    }
}

impl Names {
    /// The number of a user by its name, with or without the domain.
    pub(crate) fn number_of(&self, name: &str) -> Option<u32> {
        let Names::Book(book) = self else {
            return None;
        };
        match book.number_of(NameKind::User, name.as_bytes()) {
            Some(number) => Some(number),
            None => book.principal(NameKind::User, name.as_bytes()),
        }
    }

    /// Writes a user by its name, or as `uid 1002` if it has none.
    pub(crate) fn write_user<W: Write>(&self, out: &mut W, uid: u32) -> io::Result<()> {
        if let Names::Book(book) = self {
            if let Some(name) = book.name_of(NameKind::User, uid) {
                return write_name(out, name.as_bytes());
            }
        }
        write!(out, "uid {uid}")
    }
}
