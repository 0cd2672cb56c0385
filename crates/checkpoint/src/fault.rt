//! Why a checkpoint can't be read, or can't be written.

use store_journal::JournalFault;
use thiserror::Error;

/// Why a checkpoint can't be read.
#[derive(Clone, Copy, Debug, PartialEq, Eq, Error)]
pub enum CheckpointFault {
    /// It has a profile that this program doesn't know.
    #[error("another profile")]
    Profile,
    /// Its parts hold no state.
    #[error("damaged")]
    Corrupt,
    /// An allocation failed.
    #[error("no memory")]
    Memory,
}

/// Why a checkpoint can't be written.
#[derive(Clone, Copy, Debug, PartialEq, Eq, Error)]
pub enum WriteFault {
    /// The open files of the server don't fit its tree and its clients, and no server could be
    /// restored over the checkpoint. Nothing was done.
    #[error("the open files can't be restored")]
    Unfit,
    /// An allocation failed for the next part. The checkpoint may have been begun. Or the parts of
    /// clients don't encode the server's clients; then nothing was done.
    #[error("no memory")]
    Memory,
    /// The journal refused to begin it, one of its parts, or its end.
    #[error("{0}")]
    Refused(JournalFault),
}
