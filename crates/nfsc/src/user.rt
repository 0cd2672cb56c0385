//! The users that `why` and `who` are asked about.
use crate::fault::Fault;
use crate::grouped::groups_in;
use crate::names::number_of;
use crate::person::{alone, has_members, member_of};
use rpc_record::{Caller, MOST_FURTHER};
use std::alloc::Global;
use who_book::Book;

/// A user with the groups that the server uses.
#[derive(Clone, Copy)]
pub(crate) struct Asked<'a> {
    pub(crate) name: &'a str,
    pub(crate) caller: Caller,
}

/// The user of a number with its groups by the book, or in no group if the book doesn't have the
/// members of groups.
fn in_groups(book: &Book, uid: u32) -> Caller {
    match member_of(book, uid) {
        Some(member) => member,
        None => alone(uid),
    }
}

/// The number of a user: that of its name in the book, or its digits.
fn uid_in(book: &Book, text: &str) -> Option<u32> {
    match number_of(book, text) {
        Some(uid) => Some(uid),
        None => text.parse::<u32>().ok(),
    }
}

/// The caller of a user and its groups; the first is the gid of its calls.
fn caller_in(alloc: Global, uid: u32, text: &str) -> Result<Option<Caller>, Fault> {
    let Some(groups) = groups_in(alloc, Some(text))? else {
        return Ok(None);
    };
    match groups.split_first() {
        Some((gid, further)) if further.len() <= MOST_FURTHER => {
            Ok(Some(Caller::new(uid, *gid, further)))
        }
        _ => Ok(None),
    }
}

impl<'a> Asked<'a> {
    /// The user of a text: a name of the book, or a number; with its groups after a colon, if the
    /// book doesn't have the members of groups.
    pub(crate) fn read(alloc: Global, book: &Book, text: &'a str) -> Result<Self, Fault> {
        if let Some(uid) = uid_in(book, text) {
            return Ok(Asked {
                name: text,
                caller: in_groups(book, uid),
            });
        }
        let Some((user, groups)) = text.split_once(':') else {
            return Err(Fault::NoUser);
        };
        if has_members(book) {
            return Err(Fault::NoUser);
        }
        let Some(uid) = uid_in(book, user) else {
            return Err(Fault::NoUser);
        };
        match caller_in(alloc, uid, groups)? {
            Some(caller) => Ok(Asked { name: user, caller }),
            None => Err(Fault::NoUser),
        }
    }

    /// A user of a book by its name.
    pub(crate) fn of_book(book: &Book, name: &'a str) -> Option<Self> {
        let uid = number_of(book, name)?;
        Some(Asked {
            name,
            caller: in_groups(book, uid),
        })
    }
}
