//! A start: the checkpoint is restored, and the calls after it are run again.
ghost use Rattle.std.specs.Prelude.{◌≡◌, [], map, MatchBool};
ghost use Rattle.call_store.specs.Machine.{IsForeign, IsOwn};
ghost use Rattle.call_store.specs.Looking.{BeginningGives};
ghost use Rattle.call_store.specs.Replaying.{RecordEnds, RecordsEnd, RestoringGives, content_of};
ghost use Rattle.call_store.specs.Replaying as specs;
ghost use Rattle.call_store.specs.Stopping.{StartGives};

use crate::MACHINE;
use crate::fault::{Corruption, EntryPlace, StoreFault};
use checkpoint::{CheckpointFault, read};
use log_entries::Entries;
use nfs_hub::{ReplayFault, Restart};
use session_slots::RestoreFault;
use std::alloc::{Allocator, Global};
use std::hash::RandomState;

/// Why a record isn't replayed.
#[derive(Clone, Copy, PartialEq, Eq)]
pub(crate) enum RecordFault {
    /// The bytes at this number are no entry, or the entry has another result now.
    Corrupt(u64),
    /// An allocation failed.
    Memory,
}

/// Replays the entries of a record. After a fault the server can't be used.
fn replay_record<A: Allocator + Copy>(
    restart: &mut Restart<A>,
    bytes: &[u8],
) -> Result<(), RecordFault>
    ensures { RecordEnds result bytes.now restart.old restart.new }
{
    let mut entries = Entries::new(bytes);
    let mut number = 0usize;
    while !entries.is_empty() {
        let Some(entry) = entries.next() else {
            return Err(RecordFault::Corrupt(number as u64));
        };
        match restart.replay(&entry) {
            Ok(()) => number += 1,
            Err(ReplayFault::Differs) => return Err(RecordFault::Corrupt(number as u64)),
            Err(ReplayFault::Memory) => return Err(RecordFault::Memory),
        }
    }
    Ok(())
}

/// Why a store isn't opened, given why the record of this number isn't replayed.
fn fault_in(record_number: u64, fault: RecordFault) -> StoreFault
    ensures { result ≡ specs.fault_in record_number fault }
{
    match fault {
        RecordFault::Corrupt(entry_number) => {
            let place = EntryPlace {
                record_number,
                entry_number,
            };
            StoreFault::Corrupt(Corruption::Entry { place })
        }
        RecordFault::Memory => StoreFault::Memory,
    }
}

/// Replays records, one after the other. After a fault the server can't be used.
fn replay_records<A: Allocator + Copy>(
    restart: &mut Restart<A>,
    records: &[&[u8]],
) -> Result<(), StoreFault>
    ensures { RecordsEnd result (map (λ b. b.now) records.now) restart.old restart.new }
{
    for (number, bytes) in records.iter().enumerate() {
        match replay_record(restart, bytes) {
            Ok(()) => {}
            Err(fault) => return Err(fault_in(number as u64, fault)),
        }
    }
    Ok(())
}

/// Restores a server from the parts of a checkpoint. The leases of its clients are renewed in this second.
fn restored<A: Allocator + Copy>(
    alloc: A,
    global: Global,
    hasher: RandomState,
    second: u64,
    parts: &[&[u8]],
) -> Result<Restart<A>, StoreFault>
    ensures { RestoringGives (map (λ b. b.now) parts.now) result }
{
    let mut found = match read(alloc, global, parts) {
        Ok(found) => found,
        Err(CheckpointFault::Profile) => return Err(StoreFault::Version),
        Err(CheckpointFault::Corrupt) => return Err(StoreFault::Corrupt(Corruption::Checkpoint)),
        Err(CheckpointFault::Memory) => return Err(StoreFault::Memory),
    };
    found.clients.renew_all(second);
    match Restart::over(alloc, global, found.tree, found.clients, found.book, hasher) {
        Ok(mut restart) => {
            restart.set_second(second);
            Ok(restart)
        }
        Err(RestoreFault::Misfit) => Err(StoreFault::Corrupt(Corruption::Checkpoint)),
        Err(RestoreFault::Memory) => Err(StoreFault::Memory),
    }
}

/// Whether any records are of this machine.
fn is_own(machine: u64, records: &[&[u8]]) -> bool
    ensures { MatchBool result (IsOwn machine (content_of [] (map (λ b. b.now) records.now)))
        (IsForeign machine (content_of [] (map (λ b. b.now) records.now))) }
{
    if machine == MACHINE {
        return true;
    }
    records.is_empty()
}

/// Restores a server from the parts of a checkpoint, if the records after it can be replayed: with any record,
/// `machine` has to be this one's. The leases of its clients are renewed in this second, as are those that a replay
/// renews.
pub(crate) fn begin<A: Allocator + Copy>(
    alloc: A,
    global: Global,
    hasher: RandomState,
    second: u64,
    machine: u64,
    parts: &[&[u8]],
    records: &[&[u8]],
) -> Result<Restart<A>, StoreFault>
    ensures { BeginningGives machine (content_of (map (λ b. b.now) parts.now) (map (λ b. b.now) records.now)) result }
{
    if !is_own(machine, records) {
        return Err(StoreFault::Version);
    }
    restored(alloc, global, hasher, second, parts)
}

/// Starts a server from the stored content, in this second of a monotonic clock. With entries, `machine` is that of
/// CURRENT.
pub(crate) fn start<A: Allocator + Copy>(
    alloc: A,
    global: Global,
    hasher: RandomState,
    second: u64,
    machine: u64,
    parts: &[&[u8]],
    records: &[&[u8]],
) -> Result<Restart<A>, StoreFault>
    ensures { StartGives machine (content_of (map (λ b. b.now) parts.now) (map (λ b. b.now) records.now)) result }
{
    let mut restart = match begin(alloc, global, hasher, second, machine, parts, records) {
        Ok(restart) => restart,
        Err(fault) => return Err(fault),
    };
    match replay_records(&mut restart, records) {
        Ok(()) => Ok(restart),
        Err(fault) => Err(fault),
    }
}
