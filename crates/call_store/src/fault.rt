//! Why a store isn't opened, or something isn't kept.
ghost use Rattle.std.specs.Prelude.{◌≡◌, true, IsTrue, ◌↔◌};
ghost use Rattle.call_store.specs.Keeping.{fault_of_write, is_memory};
ghost use Rattle.call_store.specs.Opening.{fault_of_journal, fault_of_load};

use checkpoint::WriteFault;
use store_journal::{JournalFault, OpenFault};
use thiserror::Error;

/// The place of an entry in a store. Both numbers begin with 0.
#[derive(Clone, Copy, Debug, PartialEq, Eq)]
pub struct EntryPlace {
    /// The number of its record, among those after the checkpoint.
    pub record_number: u64,
    /// The number of the entry in its record.
    pub entry_number: u64,
}

/// The part of a store that is corrupt.
#[derive(Clone, Copy, Debug, PartialEq, Eq, Error)]
pub enum Corruption {
    /// CURRENT, or the file that it names: something that was durable is corrupt or missing.
    #[error("a file of the journal")]
    Journal,
    /// No server can be restored from what the checkpoint holds.
    #[error("the checkpoint")]
    Checkpoint,
    /// The bytes at this place are no entry, or the entry has another result now.
    #[error("entry {} of record {}", place.entry_number, place.record_number)]
    Entry { place: EntryPlace },
}

/// Why a store isn't opened, or something isn't kept.
#[derive(Clone, Copy, Debug, PartialEq, Eq, Error)]
pub enum StoreFault {
    /// The disk can't be read, written or synced, now or before.
    #[error("the disk has failed")]
    Failed,
    /// The format, the profile, or the machine of stored entries is another one.
    #[error("another version")]
    Version,
    /// Something that was kept is corrupt or missing.
    #[error("damaged: {0}")]
    Corrupt(Corruption),
    /// An allocation failed.
    #[error("no memory")]
    Memory,
    /// No number or place is left for a frame, or a part of a checkpoint has more than 64 MiB.
    #[error("the store is full")]
    Full,
    /// No server could be restored from a checkpoint of this one.
    #[error("what is known of clients can't be restored")]
    Unfit,
}

/// Why a store isn't opened, given why its journal isn't.
pub(crate) fn fault_of_load(fault: OpenFault) -> StoreFault
    ensures { result ≡ fault_of_load fault }
{
    match fault {
        OpenFault::Failed => StoreFault::Failed,
        OpenFault::Version => StoreFault::Version,
        OpenFault::Corrupt => StoreFault::Corrupt(Corruption::Journal),
        OpenFault::Memory => StoreFault::Memory,
    }
}

/// Why something isn't kept, given why the journal refused it.
pub(crate) fn fault_of_journal(fault: JournalFault) -> StoreFault
    ensures { result ≡ fault_of_journal fault }
{
    match fault {
        JournalFault::Failed => StoreFault::Failed,
        JournalFault::Memory => StoreFault::Memory,
        JournalFault::TooLong | JournalFault::Full | JournalFault::NoCheckpoint => StoreFault::Full,
    }
}

/// Why something isn't kept, given why no checkpoint was written.
pub(crate) fn fault_of_write(fault: WriteFault) -> StoreFault
    ensures { result ≡ fault_of_write fault }
{
    match fault {
        WriteFault::Unfit => StoreFault::Unfit,
        WriteFault::Memory => StoreFault::Memory,
        WriteFault::Refused(fault) => fault_of_journal(fault),
    }
}

/// Whether no checkpoint was written because an allocation failed.
pub(crate) fn is_memory(fault: WriteFault) -> bool
    ensures { result ≡ is_memory fault }
{
    match fault {
        WriteFault::Memory | WriteFault::Refused(JournalFault::Memory) => true,
        WriteFault::Unfit | WriteFault::Refused(_) => false,
    }
}
