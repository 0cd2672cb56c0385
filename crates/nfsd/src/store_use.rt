//! Counts of syncs, and the bytes of the files of a store, since the server started.
use std::time::Duration;
use store_journal::Slot;

/// The place of the active generation in CURRENT, and of the number of the active file.
const GENERATION_AT: usize = 24;

const SLOT_AT: usize = 40;

/// The bytes of a number of CURRENT.
const WORD: usize = 8;

/// Counts of the syncs of a store, and what its files hold.
#[derive(Clone, Copy)]
pub(crate) struct StoreUse {
    /// How often a file was synced.
    pub(crate) syncs: u64,
    /// The microseconds of the slowest sync.
    pub(crate) slowest_sync: u64,
    /// The active generation: it grows with each checkpoint.
    pub(crate) generation: u64,
    /// The active file is the first one.
    is_first: bool,
    /// The bytes of the first file, and of the second one.
    first: u64,
    second: u64,
}

/// A number of CURRENT, which is in the order of XDR (RFC 4506, section 4.5).
fn word(current: &[u8], at: usize) -> Option<u64> {
    let bytes = current.get(at..)?.get(..WORD)?;
    let mut number = 0;
    for byte in bytes {
        number = number << 8 | u64::from(*byte);
    }
    Some(number)
}

impl StoreUse {
    /// Nothing was used yet.
    pub(crate) fn new() -> Self {
        StoreUse {
            syncs: 0,
            slowest_sync: 0,
            generation: 0,
            is_first: false,
            first: 0,
            second: 0,
        }
    }

    /// Notes the content of CURRENT, as it was read or written.
    pub(crate) fn note_current(&mut self, current: &[u8]) {
        if let (Some(generation), Some(slot)) = (
            word(current, GENERATION_AT),
            word(current, SLOT_AT),
        ) {
            self.generation = generation;
            self.is_first = slot == 0;
        }
    }

    /// Notes the end of what a file holds.
    pub(crate) fn note_end(&mut self, slot: Slot, end: u64) {
        match slot {
            Slot::A => self.first = end,
            Slot::B => self.second = end,
        }
    }

    /// Notes a sync, by the monotonic clock before and after it.
    pub(crate) fn note_sync(&mut self, before: Option<Duration>, after: Option<Duration>) {
        self.syncs = self.syncs.saturating_add(1);
        let (Some(before), Some(after)) = (before, after) else {
            return;
        };
        let took = after.saturating_sub(before).as_micros();
        self.slowest_sync = self
            .slowest_sync
            .max(u64::try_from(took).unwrap_or(u64::MAX));
    }

    /// The bytes of the active file: the last checkpoint and the calls after it.
    pub(crate) fn log_bytes(&self) -> u64 {
        if self.is_first {
            self.first
        } else {
            self.second
        }
    }
}
