//! The book and the caller of a call, beside its options.
use crate::names::Names;
use crate::person::member_of;
use rpc_record::{Caller, MOST_FURTHER};

/// The book of a call, and its caller with the groups that the server uses.
#[derive(Drop)]
pub(crate) struct Around {
    /// The book, or the one without names if none is given.
    pub(crate) names: Names,
    /// A book is given.
    pub(crate) is_named: bool,
    pub(crate) caller: Caller,
    /// Standard error is a terminal: the progress of a long command is reported on it.
    pub(crate) is_watched: bool,
}

/// The caller of this user and these groups, the first of which is its own; or of the user's groups
/// in the book, if it has them.
fn caller_of(names: &Names, uid: u32, gid: u32, groups: &[u32]) -> Caller {
    let further = groups.get(..MOST_FURTHER.min(groups.len())).unwrap_or(&[]);
    match member_of(&names.book, uid) {
        Some(member) => member,
        None => Caller::new(uid, gid, further),
    }
}

impl Around {
    /// The book and the caller of this user and these groups, which the book may replace.
    pub(crate) fn new(
        names: Names,
        (is_named, is_watched): (bool, bool),
        uid: u32,
        gid: u32,
        groups: &[u32],
    ) -> Self {
        let caller = caller_of(&names, uid, gid, groups);
        Around {
            names,
            is_named,
            caller,
            is_watched,
        }
    }
}
