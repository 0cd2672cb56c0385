//! A user by the book: `--as NAME --book FILE`, or NFSC_AS and NFSC_BOOK.
use crate::given::Given;
use crate::names::{Names, number_of};
use rpc_record::{Caller, GroupSet};
use std::alloc::{AllocError, AllocFailed, Global};
use std::fmt;
use std::fmt::{Display, Formatter};
use who_book::Book;

/// The group of a user who is in no group.
const NOBODY: u32 = 65_534;

/// A user by the book.
#[derive(Drop)]
pub(crate) struct Person {
    uid: u32,
    /// The user with its groups, if the book has members.
    member: Option<Caller>,
}

/// Why a call has no user of a book.
#[derive(Drop)]
pub(crate) enum NoPerson {
    /// Options that can't be given together, or a missing option.
    Words(&'static str),
    /// This variable isn't UTF-8.
    Variable(&'static str),
    /// The book has no user of this name: the option or the variable of the name, the book's file,
    /// and the name.
    Unknown(&'static str, String, String),
    /// The file is no book that can be read: its name, and why.
    Book(String, String),
    Memory,
}

impl From<AllocError> for NoPerson {
    fn from(_: AllocError) -> Self {
        NoPerson::Memory
    }
}

impl<T: Drop> From<AllocFailed<T>> for NoPerson {
    fn from(_: AllocFailed<T>) -> Self {
        NoPerson::Memory
    }
}

impl Display for NoPerson {
    fn fmt<W: fmt::Write>(&self, f: &mut Formatter<W>) -> fmt::Result {
        match self {
            NoPerson::Words(why) => write!(f, "{why}"),
            NoPerson::Variable(variable) => write!(f, "{variable} isn't UTF-8"),
            NoPerson::Unknown(option, file, name) => {
                write!(f, "{option}: {file} has no user {name}")
            }
            NoPerson::Book(file, why) => write!(f, "{file}: {why}"),
            NoPerson::Memory => write!(f, "there is no memory left here"),
        }
    }
}

impl NoPerson {
    /// The status that the program ends with.
    pub(crate) fn status(&self) -> u8 {
        match self {
            NoPerson::Words(_) | NoPerson::Variable(_) | NoPerson::Unknown(_, _, _) => 2,
            NoPerson::Book(_, _) | NoPerson::Memory => 1,
        }
    }
}

/// An owned copy of a text.
fn own(alloc: Global, text: &str) -> Result<String, AllocError> {
    String::from_str(alloc, text)
}

/// Whether a book has the members of groups: then the groups that a user sends don't matter.
pub(crate) fn has_members(book: &Book) -> bool {
    let first = book.member(&Caller::new(0, 0, &[]));
    let second = book.member(&Caller::new(0, 1, &[]));
    first.groups() == second.groups()
}

/// The user of this number with its groups by the book. `None`: the book doesn't have the members
/// of groups.
pub(crate) fn member_of(book: &Book, uid: u32) -> Option<Caller> {
    has_members(book).then_some(book.member(&Caller::new(uid, NOBODY, &[])))
}

/// The user of this number in no group, as a user whom a book with `members` puts in none.
pub(crate) fn alone(uid: u32) -> Caller {
    Caller::with_groups(uid, NOBODY, GroupSet::new())
}

/// An option of the words that the book gives too.
fn given_twice(given: &Given<'_>, person: &Person) -> Option<&'static str> {
    if given.is_word("--uid") {
        return Some("--as says the user, so leave --uid out");
    }
    let has_groups = given.is_word("--gid") || given.is_word("--groups");
    (has_groups && person.member.is_some()).then_some(
        "the book says the groups of its users, so leave --gid and --groups out",
    )
}

impl Person {
    /// The user that a call names by this book. `None`: it names none.
    pub(crate) fn read(
        alloc: Global,
        given: &Given<'_>,
        names: &Names,
    ) -> Result<Option<Self>, NoPerson> {
        let Some(name) = given.value("--as") else {
            return Ok(None);
        };
        let option = given.source("--as").unwrap_or("--as");
        let Some(file) = given.value("--book") else {
            return Err(NoPerson::Words(match given.source("--as") {
                Some(_) => "NFSC_AS wants --book FILE too, or NFSC_BOOK",
                None => "--as wants --book FILE too, or NFSC_BOOK",
            }));
        };
        let Some(uid) = number_of(&names.book, name) else {
            return Err(NoPerson::Unknown(option, own(alloc, file)?, own(alloc, name)?));
        };
        let member = member_of(&names.book, uid);
        let person = Person { uid, member };
        match given_twice(given, &person) {
            Some(why) => Err(NoPerson::Words(why)),
            None => Ok(Some(person)),
        }
    }

    /// The number that the book gives for an option, if it gives one.
    pub(crate) fn number(&self, option: &str) -> Option<u32> {
        match option {
            "--uid" => Some(self.uid),
            "--gid" => self.member.as_ref().map(|member| member.gid()),
            _ => None,
        }
    }

    /// The further groups, as `--groups` has them. `None`: the book gives none.
    pub(crate) fn groups(&self, alloc: Global) -> Result<Option<String>, AllocError> {
        let Some(member) = &self.member else {
            return Ok(None);
        };
        let mut text = String::new(alloc);
        for group in member.groups() {
            if *group != member.gid() {
                if !text.is_empty() {
                    text.push(',')?;
                }
                let number = format!(in alloc; "{group}")?;
                text.push_str(number.as_str())?;
            }
        }
        Ok((!text.is_empty()).then_some(text))
    }
}
