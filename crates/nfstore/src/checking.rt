//! Reading a store whole, and what a whole store has.
use crate::looking::look;
use crate::summary::{count_entries_of, count_objects};
use acl_list::Kind;
use call_store::Looked;
use node_tree::Tree;
use std::alloc::Global;
use std::fmt;
use std::fmt::{Display, Formatter};
use std::hash::RandomState;
use store_folder::{StoreStop, frames_of};
use store_journal::{Chosen, choose};
use store_words::Stop;

/// The counts of a whole store.
#[derive(Clone, Copy)]
pub(crate) struct Whole {
    generation: u64,
    frames: u64,
    /// The number of records after the checkpoint, and the number of their entries.
    records: u64,
    entries: u64,
    pub(crate) objects: u64,
    /// The number of bytes of all files.
    pub(crate) bytes: u64,
}

/// How many bytes the files of a tree have.
fn count_bytes(tree: &Tree) -> u64 {
    let mut bytes = 0u64;
    let mut at = 0;
    for _step in 0..u64::MAX {
        let Some(number) = tree.number_after(at) else {
            break;
        };
        at = number;
        if let Some(node) = tree.object(number) {
            if node.kind() == Kind::File {
                bytes = bytes.saturating_add(node.size());
            }
        }
    }
    bytes
}

impl Whole {
    /// What a store has whose file was chosen and whose entries were replayed.
    fn of(looked: &Looked, chosen: &Chosen<'_, Global>) -> Self {
        let current = looked.current;
        let tree = looked.restart.server().tree();
        Whole {
            generation: current.generation,
            frames: frames_of(current.identity, current.generation, &looked.file).frames,
            records: chosen.records.len() as u64,
            entries: count_entries_of(&chosen.records),
            objects: count_objects(tree),
            bytes: count_bytes(tree),
        }
    }
}

impl Display for Whole {
    fn fmt<W: fmt::Write>(&self, f: &mut Formatter<W>) -> fmt::Result {
        let Whole {
            generation,
            frames,
            records,
            entries,
            objects,
            bytes,
        } = self;
        write!(
            f,
            "generation {generation}, frames {frames}, records {records}, entries {entries}, "
        )?;
        write!(f, "objects {objects}, bytes of files {bytes}")
    }
}

/// Reads a store whole: each frame of its active file, its checkpoint, and each entry, which is replayed. `None`: no
/// checkpoint was finished yet.
pub(crate) fn check(
    rt: &HostRuntime,
    alloc: Global,
    store: &str,
    hasher: RandomState,
) -> Result<Option<Whole>, Stop> {
    let Some(looked) = look(rt, alloc, store, hasher)? else {
        return Ok(None);
    };
    // it was chosen before, so only an allocation can fail
    match choose(alloc, looked.current, &looked.file) {
        Ok(chosen) => Ok(Some(Whole::of(&looked, &chosen))),
        Err(_) => Err(Stop::Folder(StoreStop::Memory)),
    }
}
