//! Why a journal isn't opened, and why a frame isn't written.
use thiserror::Error;

/// Why a journal isn't opened. The journal is unchanged.
#[derive(Clone, Copy, Debug, PartialEq, Eq, Error)]
pub enum OpenFault {
    /// CURRENT or a file can't be read.
    #[error("a file can't be read")]
    Failed,
    /// CURRENT is intact, and has another version.
    #[error("another version")]
    Version,
    /// CURRENT, the checkpoint that it names, or a durable record is corrupt or missing.
    #[error("damaged")]
    Corrupt,
    /// An allocation failed.
    #[error("no memory")]
    Memory,
}

/// Why CURRENT can't be used.
#[derive(Clone, Copy, Debug, PartialEq, Eq, Error)]
pub enum CurrentFault {
    /// It is intact, and has another version.
    #[error("another version")]
    Version,
    /// It is corrupt.
    #[error("damaged")]
    Corrupt,
}

/// Why a frame or CURRENT isn't written.
#[derive(Clone, Copy, Debug, PartialEq, Eq, Error)]
pub enum JournalFault {
    /// A part or a record has more than 64 MiB. Nothing has changed.
    #[error("more than 64 MiB in one piece")]
    TooLong,
    /// An allocation failed. Nothing has changed.
    #[error("no memory")]
    Memory,
    /// No number is left for a frame or a generation, or no room in the file. Nothing has changed.
    #[error("no number left")]
    Full,
    /// No checkpoint is being written, or none was finished yet. Nothing has changed.
    #[error("no checkpoint")]
    NoCheckpoint,
    /// The disk has failed, now or before. The journal doesn't call it again.
    #[error("the disk has failed")]
    Failed,
}
