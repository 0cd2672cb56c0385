//! The book of `--book FILE` or NFSC_BOOK, with the names of its users.
use crate::given::Given;
use crate::person::NoPerson;
use book_words::explain;
use std::alloc::{AllocError, Global};
use std::fs;
use std::rt::Files;
use who_book::{Book, NameKind};

/// A book of names, and the names of its users.
#[derive(Drop)]
pub(crate) struct Names {
    pub(crate) book: Book,
    /// The names of the users without the domain, in the order of their bytes.
    pub(crate) users: Vec<String>,
}

/// The names of the users of a text that is a book.
fn users_in(alloc: Global, text: &str) -> Result<Vec<String>, AllocError> {
    let mut users = Vec::new(alloc);
    let Ok(document) = toml::table_from_str(alloc, text) else {
        return Ok(users);
    };
    if let Some(rows) = document.get("users").and_then(|value| value.as_table()) {
        for (name, _) in rows {
            users.push(String::from_str(alloc, name.as_str())?)?;
        }
    }
    Ok(users)
}

impl Names {
    /// The book without names.
    pub(crate) fn none(alloc: Global) -> Self {
        Names {
            book: Book::default(alloc),
            users: Vec::new(alloc),
        }
    }

    /// The book of the text of a file.
    fn of(alloc: Global, file: &str, text: &str) -> Result<Self, NoPerson> {
        match Book::read(alloc, text) {
            Ok(book) => Ok(Names {
                book,
                users: users_in(alloc, text)?,
            }),
            Err(fault) => {
                let why = explain(alloc, text, fault)?;
                Err(NoPerson::Book(String::from_str(alloc, file)?, why))
            }
        }
    }

    /// The book of a call, or the one without names. A fault of a file that NFSC_BOOK names has
    /// that variable before the file.
    pub(crate) fn read<R: Files + Alloc>(
        rt: &R,
        alloc: Global,
        given: &Given<'_>,
    ) -> Result<Self, NoPerson> {
        let Some(file) = given.value("--book") else {
            return Ok(Names::none(alloc));
        };
        match Names::of_file(rt, alloc, file) {
            Err(NoPerson::Book(file, why)) => match given.source("--book") {
                Some(variable) => Err(NoPerson::Book(
                    format!(in alloc; "{variable}: {file}")?,
                    why,
                )),
                None => Err(NoPerson::Book(file, why)),
            },
            names => names,
        }
    }

    /// The book of a file.
    fn of_file<R: Files + Alloc>(rt: &R, alloc: Global, file: &str) -> Result<Self, NoPerson> {
        match fs::read_to_string(rt, file) {
            Ok(text) => Names::of(alloc, file, text.as_str()),
            Err(error) => {
                let why = format!(in alloc; "{error}")?;
                Err(NoPerson::Book(String::from_str(alloc, file)?, why))
            }
        }
    }
}

/// The owner or the group of a word as it is sent: a name of the book without its domain gets the
/// domain, and any other word is sent as it is.
pub(crate) fn principal_of(
    alloc: Global,
    book: &Book,
    kind: NameKind,
    word: &[u8],
) -> Result<Vec<u8>, AllocError> {
    let mut text = Vec::new(alloc);
    text.extend_from_slice(word)?;
    if book.number_of(kind, word).is_some() {
        text.push(b'@')?;
        text.extend_from_slice(book.domain().as_bytes())?;
    }
    Ok(text)
}

/// The number of a user of a book, by its name with or without the domain.
pub(crate) fn number_of(book: &Book, name: &str) -> Option<u32> {
    match book.number_of(NameKind::User, name.as_bytes()) {
        Some(number) => Some(number),
        None => book.principal(NameKind::User, name.as_bytes()),
    }
}
