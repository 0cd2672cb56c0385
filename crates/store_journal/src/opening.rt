//! Which file is active, and its content.
ghost use Rattle.std.specs.Prelude.{◌≡◌, ◌≤◌, ◌+◌, ◌-◌, true, take, drop, length, map, IfOk, MatchBool, MatchResult};
ghost use Rattle.store_journal.specs.Files.{if_whole, IsRotten};
ghost use Rattle.store_journal.specs.Opening.{LoadGives, LoadFails};
ghost use Rattle.store_journal.specs.internal.Opening.{NoFiles, NoneFails, LoadsNamed, NamedFails};
ghost use Rattle.store_journal.specs.Opening.{Chooses, RefusedFor};
ghost use Rattle.store_journal.specs.Passage.{passage};

use crate::checksum::Identity;
use crate::current::{Current, read_current};
use crate::disk::{Disk, LoadFault, Slot};
use crate::fault::{CurrentFault, OpenFault};
use crate::frames::Place;
use crate::later::{is_ended, is_followed};
use crate::reading::{Bodies, FileRead, read_file};
use crate::writing::Position;
use std::alloc::Allocator;

/// CURRENT, and the bytes of the file that it names.
#[derive(Drop)]
pub struct Loaded<A: Allocator> {
    /// `None`: CURRENT doesn't exist, and the store is new. Generation 0: no checkpoint was finished yet.
    pub current: Option<Current>,
    /// The bytes of the active file. None if no checkpoint was finished yet.
    pub bytes: Vec<u8, A>,
}

/// The content of the active file.
#[derive(Drop)]
pub struct Chosen<'a, A: Allocator> {
    pub current: Current,
    /// The parts of the checkpoint.
    pub parts: Vec<&'a [u8], A>,
    /// The records after it.
    pub records: Vec<&'a [u8], A>,
    /// The position of the next frame.
    pub position: Position,
    /// The number of bytes before the last frame.
    pub last_at: u64,
    /// The bytes of the last frame.
    pub last: &'a [u8],
}

/// Loads CURRENT, and the file that it names. If CURRENT is missing, both files have to be empty. `Version`: CURRENT
/// is of another version. `Corrupt`: CURRENT is corrupt, or it is missing and a file isn't empty.
pub fn load<D: Disk, A: Allocator + Copy>(disk: &mut D, alloc: A) -> Result<Loaded<A>, OpenFault>
    ensures { MatchResult result
        (λ found. LoadGives (passage D.adds disk.old disk.new) found.current found.bytes.items)
        (λ e. LoadFails (passage D.adds disk.old disk.new) e) }
{
    let found = match disk.load_current(alloc) {
        Ok(found) => found,
        Err(LoadFault::Failed) => return Err(OpenFault::Failed),
        Err(LoadFault::Memory) => return Err(OpenFault::Memory),
    };
    match found {
        None => load_none(disk, alloc),
        Some(bytes) => load_named(disk, alloc, bytes.as_slice()),
    }
}

/// Checks that both files are empty.
fn load_none<D: Disk, A: Allocator + Copy>(disk: &mut D, alloc: A) -> Result<Loaded<A>, OpenFault>
    ensures { MatchResult result
        (λ found. NoFiles (passage D.adds disk.old disk.new) found.current found.bytes.items)
        (λ e. NoneFails (passage D.adds disk.old disk.new) e) }
{
    let a = match disk.load(alloc, Slot::A) {
        Ok(a) => a,
        Err(LoadFault::Failed) => return Err(OpenFault::Failed),
        Err(LoadFault::Memory) => return Err(OpenFault::Memory),
    };
    if !a.is_empty() {
        return Err(OpenFault::Corrupt);
    }
    let bytes = match disk.load(alloc, Slot::B) {
        Ok(bytes) => bytes,
        Err(LoadFault::Failed) => return Err(OpenFault::Failed),
        Err(LoadFault::Memory) => return Err(OpenFault::Memory),
    };
    if !bytes.is_empty() {
        return Err(OpenFault::Corrupt);
    }
    Ok(Loaded {
        current: None,
        bytes,
    })
}

/// Loads the file that CURRENT names.
fn load_named<D: Disk, A: Allocator + Copy>(
    disk: &mut D,
    alloc: A,
    bytes: &[u8],
) -> Result<Loaded<A>, OpenFault>
    ensures { MatchResult result
        (λ found. LoadsNamed (passage D.adds disk.old disk.new) bytes.now found.current found.bytes.items)
        (λ e. NamedFails (passage D.adds disk.old disk.new) bytes.now e) }
{
    let current = match read_current(bytes) {
        Ok(current) => current,
        Err(CurrentFault::Version) => return Err(OpenFault::Version),
        Err(CurrentFault::Corrupt) => return Err(OpenFault::Corrupt),
    };
    if current.generation == 0 {
        return Ok(Loaded {
            current: Some(current),
            bytes: Vec::new(alloc),
        });
    }
    match disk.load(alloc, current.slot) {
        Ok(bytes) => Ok(Loaded {
            current: Some(current),
            bytes,
        }),
        Err(LoadFault::Failed) => Err(OpenFault::Failed),
        Err(LoadFault::Memory) => Err(OpenFault::Memory),
    }
}

/// Whether a durable frame is missing after the valid ones.
fn is_rotten(identity: Identity, place: Place, rest: &[u8]) -> bool
    ensures { MatchBool result (IsRotten identity place rest.now) (IsRotten identity place rest.now → ⊥) }
{
    if is_ended(rest) {
        return false;
    }
    is_followed(identity, place, rest)
}

/// The bytes of a file from an offset on, without the bytes after its frames.
fn last_of<'a>(file: &'a [u8], at: usize, rest: &[u8]) -> &'a [u8]
    requires { at + length rest.now ≤ length file.now }
    ensures { result.now ≡ take (length file.now - length rest.now - at) (drop at file.now) }
{
    let (_, left) = file.split_at(at);
    let (last, _) = left.split_at(file.len() - rest.len() - at);
    last
}

/// Reads the active file, by its CURRENT. `Corrupt`: it has no complete checkpoint of the generation, or a durable
/// frame is corrupt or missing.
pub fn choose<'a, A: Allocator + Copy>(
    alloc: A,
    current: Current,
    file: &'a [u8],
) -> Result<Chosen<'a, A>, OpenFault>
    ensures current { IfOk result (λ c. c.current ≡ current) }
    ensures gives { MatchResult result (λ c. Chooses current file.now
        (if_whole true (map (λ b. b.now) c.parts.items) (map (λ b. b.now) c.records.items))
        c.position c.last_at c.last.now)
        (λ e. RefusedFor current file.now e) }
{
    let Ok(read) = read_file(alloc, current.identity, current.generation, file) else {
        return Err(OpenFault::Memory);
    };
    let FileRead {
        place,
        last_at,
        rest,
        bodies,
    } = read;
    let Bodies {
        is_whole,
        parts,
        records,
    } = bodies;
    if !is_whole {
        return Err(OpenFault::Corrupt);
    }
    if is_rotten(current.identity, place, rest) {
        return Err(OpenFault::Corrupt);
    }
    let last = last_of(file, last_at, rest);
    Ok(Chosen {
        current,
        parts,
        records,
        position: Position {
            place,
            at: (file.len() - rest.len()) as u64,
        },
        last_at: last_at as u64,
        last,
    })
}
