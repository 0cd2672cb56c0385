//! Why a folder isn't opened, and the system's error.
ghost use Rattle.std.specs.Prelude.{◌≡◌};
ghost use Rattle.store_folder.specs.Faults.{part_in};

use std::fmt::{Display, Formatter};
use std::{fmt, io};
use store_journal::Slot;
use thiserror::Error;

/// The folder, or a file in it.
#[derive(Clone, Copy, Debug, PartialEq, Eq)]
pub enum Part {
    /// The folder itself.
    Folder,
    /// The empty file that is locked, as the folder is.
    Lock,
    /// The file that names the active one of the two files.
    Current,
    /// The file that is to become CURRENT.
    Fresh,
    /// A file of the same size, over which the next CURRENT is written.
    Spare,
    /// The first file of the journal.
    A,
    /// The second file of the journal.
    B,
    /// The key of an earlier form of store.
    Key,
}

/// The text that follows a folder's path in the path of the part.
impl Display for Part {
    fn fmt<W: fmt::Write>(&self, f: &mut Formatter<W>) -> fmt::Result {
        f.write_str(match self {
            Part::Folder => "",
            Part::Lock => "/LOCK",
            Part::Current => "/CURRENT",
            Part::Fresh => "/CURRENT.new",
            Part::Spare => "/CURRENT.spare",
            Part::A => "/tree.a",
            Part::B => "/tree.b",
            Part::Key => "/tree.key",
        })
    }
}

/// The part of a file of the journal.
pub(crate) fn part_of(slot: Slot) -> Part
    ensures { result ≡ part_in slot }
{
    match slot {
        Slot::A => Part::A,
        Slot::B => Part::B,
    }
}

/// The operation on a part that failed.
#[derive(Clone, Copy, Debug, PartialEq, Eq)]
pub enum Operation {
    /// Reading the file's metadata.
    Look,
    Make,
    Open,
    Lock,
    Read,
    Write,
    Sync,
    /// Renaming the part to CURRENT.
    Rename,
    Remove,
    /// Drawing an identity at random.
    Draw,
}

impl Display for Operation {
    fn fmt<W: fmt::Write>(&self, f: &mut Formatter<W>) -> fmt::Result {
        f.write_str(match self {
            Operation::Look => "it can't be looked at",
            Operation::Make => "it can't be made",
            Operation::Open => "it can't be opened",
            Operation::Lock => "it can't be locked",
            Operation::Read => "it can't be read",
            Operation::Write => "it can't be written",
            Operation::Sync => "it can't be synced",
            Operation::Rename => "it can't become CURRENT",
            Operation::Remove => "it can't be removed",
            Operation::Draw => "no identity can be drawn for it",
        })
    }
}

/// A failed operation on a part, with the system's error.
#[derive(Debug, Drop, Error)]
#[error("{part}: {operation}: {error}")]
pub struct Failure {
    pub part: Part,
    pub operation: Operation,
    pub error: io::Error,
}

impl Failure {
    pub(crate) fn new(part: Part, operation: Operation, error: io::Error) -> Self
        ensures { result ≡ record { part = part; operation = operation; error = error } }
    {
        Failure {
            part,
            operation,
            error,
        }
    }
}

/// The flaw of a part.
#[derive(Clone, Copy, Debug, PartialEq, Eq, Error)]
pub enum Flaw {
    /// It is missing, though other parts exist.
    #[error("it is missing")]
    Missing,
    /// It is a symbolic link, a folder or something else.
    #[error("it isn't a regular file")]
    NotRegular,
    /// It is a hard link: the file has another name too.
    #[error("the file has a second name (a hard link)")]
    Linked,
    /// It is the same file as `tree.a`.
    #[error("it is the same file as tree.a")]
    Same,
    /// It was another file a moment before, or had another length.
    #[error("it was replaced while it was opened")]
    Replaced,
}

/// The sentence for the folder of an earlier form of store.
const EARLIER: &str = ": it was written by an earlier nfsd; bring it over with that program's \
    `nfstore --export` and this one's `--import`";

/// Why a folder isn't opened. Its files are unchanged. The text follows the folder's path.
#[derive(Debug, Drop, Error)]
pub enum FolderFault {
    /// Another program has it.
    #[error(": another program has it")]
    InUse,
    /// A call of the system failed.
    #[error("{0}")]
    Failed(Failure),
    /// It has the key of an earlier form of store.
    #[error("{}", EARLIER)]
    Earlier,
    /// A part isn't as a store has it.
    #[error("{0}: {1}")]
    Corrupt(Part, Flaw),
    /// An allocation for a path failed.
    #[error(": there is no memory for it")]
    Memory,
}
