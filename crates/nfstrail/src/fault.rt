//! Why a file of a home isn't read.
use std::alloc::{AllocError, AllocFailed};
use std::fmt::{Display, Formatter};
use std::io::ErrorKind;
use std::{fmt, io};

/// Why a file of a home isn't read.
#[derive(Drop)]
pub(crate) enum Fault {
    /// A call of the system failed.
    System(io::Error),
    /// It is no regular file, for example a pipe: reading it might never end.
    Irregular,
    /// An allocation failed.
    Memory,
}

impl Fault {
    /// Whether there is no such file.
    pub(crate) fn is_missing(&self) -> bool {
        matches!(self, Fault::System(error) if error.kind() == ErrorKind::NotFound)
    }
}

impl From<AllocError> for Fault {
    fn from(_: AllocError) -> Self {
        Fault::Memory
    }
}

impl<T: Drop> From<AllocFailed<T>> for Fault {
    fn from(_: AllocFailed<T>) -> Self {
        Fault::Memory
    }
}

impl From<io::Error> for Fault {
    fn from(error: io::Error) -> Self {
        if error.kind() == ErrorKind::OutOfMemory {
            Fault::Memory
        } else {
            Fault::System(error)
        }
    }
}

impl Display for Fault {
    fn fmt<W: fmt::Write>(&self, f: &mut Formatter<W>) -> fmt::Result {
        match self {
            Fault::System(error) => write!(f, "{error}"),
            Fault::Irregular => f.write_str("it is no regular file"),
            Fault::Memory => f.write_str("there is no memory for it"),
        }
    }
}
