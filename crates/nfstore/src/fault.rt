//! Why an import, an export or a backup stops.
use node_tree::RestoreFault;
use std::alloc::{AllocError, AllocFailed};
use std::fmt::{Display, Formatter};
use std::io::ErrorKind;
use std::{fmt, io};

/// Why an import, an export or a backup stops.
#[derive(Drop)]
pub(crate) enum Fault {
    /// A call of the system failed.
    System(io::Error),
    /// A file of a home can't be read.
    Unread(io::Error),
    /// A file or a folder of a backup can't be made.
    Unmade(io::Error),
    /// It can't be written.
    Unwritten(io::Error),
    /// It can't be synced.
    Unsynced(io::Error),
    /// A file of a home is a folder, a pipe or something else.
    Irregular,
    /// A link's text isn't UTF-8, so it can't be a path of this system.
    Text,
    /// A surveyed object has changed meanwhile, so that a tree can't have it.
    Changed,
    /// An allocation failed.
    Memory,
}

impl Fault {
    /// Whether a file of a home is at fault, and not one of its copy.
    pub(crate) fn is_of_source(&self) -> bool {
        matches!(self, Fault::Unread(_) | Fault::Irregular)
    }
}

impl From<AllocError> for Fault {
    fn from(_: AllocError) -> Self {
        Fault::Memory
    }
}

impl<T: Drop> From<AllocFailed<T>> for Fault {
    fn from(_: AllocFailed<T>) -> Self {
        Fault::Memory
    }
}

impl From<io::Error> for Fault {
    fn from(error: io::Error) -> Self {
        if error.kind() == ErrorKind::OutOfMemory {
            Fault::Memory
        } else {
            Fault::System(error)
        }
    }
}

impl From<RestoreFault> for Fault {
    fn from(fault: RestoreFault) -> Self {
        match fault {
            RestoreFault::Unsound => Fault::Changed,
            RestoreFault::Memory => Fault::Memory,
        }
    }
}

impl Display for Fault {
    fn fmt<W: fmt::Write>(&self, f: &mut Formatter<W>) -> fmt::Result {
        match self {
            Fault::System(error) => write!(f, "{error}"),
            Fault::Unread(error) => write!(f, "it can't be read: {error}"),
            Fault::Unmade(error) => write!(f, "it can't be made: {error}"),
            Fault::Unwritten(error) => write!(f, "it can't be written: {error}"),
            Fault::Unsynced(error) => write!(f, "it can't be synced: {error}"),
            Fault::Irregular => f.write_str("it isn't a regular file"),
            Fault::Text => f.write_str("it has bytes that aren't UTF-8"),
            Fault::Changed => f.write_str("it has changed meanwhile"),
            Fault::Memory => f.write_str("there is no memory"),
        }
    }
}

/// Where something stopped, and why.
#[derive(Drop)]
pub(crate) struct Stopped {
    /// The path of this system, if it is known.
    pub(crate) path: Option<String>,
    pub(crate) fault: Fault,
}

impl Stopped {
    pub(crate) fn at(path: Option<String>, fault: Fault) -> Self {
        Stopped { path, fault }
    }
}

impl From<Fault> for Stopped {
    fn from(fault: Fault) -> Self {
        Stopped { path: None, fault }
    }
}

impl From<AllocError> for Stopped {
    fn from(_: AllocError) -> Self {
        Stopped {
            path: None,
            fault: Fault::Memory,
        }
    }
}
