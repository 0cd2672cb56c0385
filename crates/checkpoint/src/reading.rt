//! The parts of a checkpoint are read as the state that they hold.
ghost use Rattle.std.specs.Prelude.{map};
ghost use Rattle.checkpoint.specs.Reading.{ReadingGives};
ghost use Rattle.compound_run.specs.ClientState.{unknown};
ghost use Rattle.checkpoint.specs.internal.Reading.{ApplyingPartsGives, ApplyingWholeGives, RestoringGives};
ghost use Rattle.checkpoint.specs.internal.Reading.{TakingGives};

use crate::fault::CheckpointFault;
use crate::head::head_of;
use crate::order::see_all;
use client_parts::{ChangeFault, apply_changes, client_part_count};
use compound_run::ClientState;
use nfs_types::Limits;
use node_tree::{RestoreFault, Restoring, Tree};
use std::alloc::{Allocator, Global};
use tree_parts::{WrittenPart, take};
use who_book::Book;
use xdr_wire::{Reader, Wire};

/// The state that a checkpoint holds.
#[derive(Drop)]
pub struct Found<A: Allocator> {
    /// The tree.
    pub tree: Tree<A>,
    /// The clients with their sessions, and the open files. Each slot lags.
    pub clients: ClientState<A>,
    /// The book of names.
    pub book: Book,
}

/// Takes the part that these bytes encode, without a rest.
fn take_part<A: Allocator + Copy>(
    alloc: A,
    limits: Limits,
    so_far: Option<Restoring<A>>,
    bytes: &[u8],
) -> Result<Restoring<A>, CheckpointFault>
    ensures { TakingGives limits so_far bytes.now result }
{
    let mut reader = Reader::new(bytes);
    let Ok(part) = WrittenPart::read(&mut reader) else {
        return Err(CheckpointFault::Corrupt);
    };
    if !reader.is_empty() {
        return Err(CheckpointFault::Corrupt);
    }
    match take(alloc, limits, so_far, part) {
        Ok(more) => Ok(more),
        Err(RestoreFault::Unsound) => Err(CheckpointFault::Corrupt),
        Err(RestoreFault::Memory) => Err(CheckpointFault::Memory),
    }
}

/// The tree of these parts, under these limits.
fn restored<A: Allocator + Copy>(
    alloc: A,
    limits: Limits,
    parts: &[&[u8]],
) -> Result<Tree<A>, CheckpointFault>
    ensures { RestoringGives limits (map (λ b. b.now) parts.now) result }
{
    let mut so_far = None;
    for bytes in parts {
        match take_part(alloc, limits, so_far, bytes) {
            Ok(more) => so_far = Some(more),
            Err(fault) => return Err(fault),
        }
    }
    let Some(restoring) = so_far else {
        return Err(CheckpointFault::Corrupt);
    };
    let Some(tree) = restoring.finish() else {
        return Err(CheckpointFault::Corrupt);
    };
    Ok(tree)
}

/// Applies the changes of clients that these bytes encode, without a rest. After a fault the
/// clients can't be used.
pub(crate) fn apply_whole<A: Allocator + Copy>(
    alloc: A,
    clients: &mut ClientState<A>,
    bytes: &[u8],
) -> Result<(), CheckpointFault>
    ensures { ApplyingWholeGives clients.old bytes.now result clients.new }
{
    let mut left = Reader::new(bytes);
    match apply_changes(clients, alloc, &mut left) {
        Ok(()) => {}
        Err(ChangeFault::Unfit) => return Err(CheckpointFault::Corrupt),
        Err(ChangeFault::Memory) => return Err(CheckpointFault::Memory),
    }
    if !left.is_empty() {
        return Err(CheckpointFault::Corrupt);
    }
    Ok(())
}

/// Reads the clients and open files that these parts encode, under these limits.
fn client_state_of<A: Allocator + Copy>(
    alloc: A,
    limits: Limits,
    parts: &[&[u8]],
) -> Result<ClientState<A>, CheckpointFault>
    ensures { ApplyingPartsGives (unknown limits) (map (λ b. b.now) parts.now) result }
{
    let mut clients = ClientState::nothing(alloc, limits);
    for bytes in parts {
        match apply_whole(alloc, &mut clients, bytes) {
            Ok(()) => {}
            Err(fault) => return Err(fault),
        }
    }
    Ok(clients)
}

/// Reads the parts of a checkpoint. The book is allocated by the global allocator, since its parser
/// takes no other.
///
/// `Profile`: if and only if its head is complete, and of a profile that doesn't exist here.
/// `Corrupt`: the parts hold no state. `Memory`: an allocation fails.
pub fn read<A: Allocator + Copy>(
    alloc: A,
    global: Global,
    parts: &[&[u8]],
) -> Result<Found<A>, CheckpointFault>
    ensures { ReadingGives (map (λ b. b.now) parts.now) result }
{
    let [head, others @ ..] = parts else {
        return Err(CheckpointFault::Corrupt);
    };
    let (limits, book) = match head_of(global, head) {
        Ok(found) => found,
        Err(fault) => return Err(fault),
    };
    let count = client_part_count(limits);
    if others.len() < count {
        return Err(CheckpointFault::Corrupt);
    }
    let (clients, tree) = others.split_at(count);
    let clients = match client_state_of(alloc, limits, clients) {
        Ok(clients) => clients,
        Err(fault) => return Err(fault),
    };
    let tree = match restored(alloc, limits, tree) {
        Ok(tree) => tree,
        Err(fault) => return Err(fault),
    };
    // clients that were examined are known to be in order
    see_all(&clients.clients);
    Ok(Found {
        tree,
        clients,
        book,
    })
}
