//! The facts about an operation's objects that a row of the table uses.

use acl_list::Kind;

/// An object that exists.
#[derive(Clone, Copy, Debug, PartialEq, Eq)]
pub struct Object {
    /// The number of the object.
    pub number: u64,
    /// The type of the object.
    pub kind: Kind,
}

/// Whose time SETATTR sets.
#[derive(Clone, Copy, Debug, PartialEq, Eq)]
pub enum Clock {
    /// The times that are set are the server's alone.
    Server,
    /// A time of the client's is set, also beside one of the server's.
    Client,
}

/// The facts that are known before an operation looks up a name. `None`: the operation doesn't have the fact.
#[derive(Clone, Copy, Debug, PartialEq, Eq)]
pub struct First {
    /// The object of the current filehandle.
    pub current: Option<Object>,
    /// The object of the saved filehandle: for RENAME, the source directory.
    pub saved: Option<Object>,
    /// For WRITE and SETATTR, the size of the current object, in bytes.
    pub size: Option<u64>,
    /// For SETATTR, the size to be set, in bytes.
    pub new_size: Option<u64>,
    /// For SETATTR, whose time is set. `None`: no time is set.
    pub clock: Option<Clock>,
}

impl First {
    ghost use Rattle.std.specs.Prelude.{◌≡◌, None};

    /// The facts of these objects, without a size. No time is set.
    pub fn of(current: Option<Object>, saved: Option<Object>) -> Self
        ensures { result ≡ record { current = current; saved = saved; size = None; new_size = None; clock = None } }
    {
        First {
            current,
            saved,
            size: None,
            new_size: None,
            clock: None,
        }
    }
}

/// The facts that are known once an operation has looked up its names. `None`: the operation doesn't have the fact.
#[derive(Clone, Copy, Debug, PartialEq, Eq)]
pub struct Second {
    /// The object of the current filehandle.
    pub current: Option<Object>,
    /// The object of the saved filehandle: for RENAME, the source directory.
    pub saved: Option<Object>,
    /// The child of the name: for OPEN and REMOVE in the current directory, for RENAME the child to move, in the saved
    /// one.
    pub child: Option<Object>,
    /// For RENAME, the child of the new name in the current directory.
    pub replaced: Option<Object>,
    /// For OPEN, the size to be set, in bytes.
    pub new_size: Option<u64>,
}
