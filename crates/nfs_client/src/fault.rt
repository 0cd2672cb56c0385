//! The faults of a command.
ghost use Rattle.std.specs.Prelude.{◌≡◌};
ghost use Rattle.nfs_client.specs.declared.fault.ToolFault.TheVariants.{Memory};

use nfs_types::Status;
use std::alloc::{AllocError, AllocFailed};
use thiserror::Error;

/// Why a command has no answer.
#[derive(Clone, Copy, Debug, PartialEq, Eq, Error)]
pub enum ToolFault {
    /// A path is neither `/` nor names each with `/` before it, or a name is needed and `/` is given.
    #[error("no path, or no name in it")]
    Path,
    /// The server refused the operation of this number with this status.
    #[error("operation {0} was refused")]
    Refused(u32, Status),
    /// The received record is no reply to the call.
    #[error("no reply to the call")]
    Reply,
    /// The stream can't be read, or ended inside a reply, or a reply took too many reads.
    #[error("the stream can't be read")]
    Read,
    /// The stream can't be written.
    #[error("the stream can't be written")]
    Write,
    /// An allocation failed.
    #[error("out of memory")]
    Memory,
    /// A mode isn't one to four octal digits, or an ACE can't be read.
    #[error("no mode, or no entry")]
    Entry,
    /// An earlier command left the stream in a state in which no other command can run.
    #[error("an earlier command failed")]
    Failed,
    /// The call's record would have more than 131,072 bytes, which no server takes; or the owner of a client has more
    /// than 1,024 bytes.
    #[error("a call is too large")]
    TooLarge,
}

impl ToolFault {
    ghost use Rattle.nfs_client.specs.Faults.{number_of};

    /// The number that a program prints.
    pub fn number(self) -> u32
        ensures { result ≡ number_of self }
    {
        match self {
            ToolFault::Path => 1,
            ToolFault::Refused(_, _) => 2,
            ToolFault::Reply => 3,
            ToolFault::Read => 4,
            ToolFault::Write => 5,
            ToolFault::Memory => 6,
            ToolFault::Entry => 7,
            ToolFault::Failed => 8,
            ToolFault::TooLarge => 9,
        }
    }
}

impl From<AllocError> for ToolFault {
    ghost from_gives = { λ _ fault. fault ≡ Memory };

    fn from(_: AllocError) -> Self {
        ToolFault::Memory
    }
}

impl<T: Drop> From<AllocFailed<T>> for ToolFault {
    ghost from_gives = { λ _ fault. fault ≡ Memory };

    fn from(_: AllocFailed<T>) -> Self {
        ToolFault::Memory
    }
}
