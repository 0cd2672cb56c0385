//! A checkpoint of a server is written, part by part.
ghost use Rattle.std.specs.Prelude.{◌≡◌, ◌∷◌, [], flat_map, map, IsSome, OnOk};
ghost use Rattle.std.specs.List.{AllByRecursion};
ghost use Rattle.xdr_wire.specs.Xdr.{HasSpelling, spelling};
ghost use Rattle.store_journal.specs.Passage.{passage};
ghost use Rattle.node_tree.specs.Sound.{IsSound};
ghost use Rattle.node_tree.specs.World.{object};
ghost use Rattle.compound_run.specs.ClientState.{opens_fit};
ghost use Rattle.compound_run.specs.State.{client_state_of};
ghost use Rattle.tree_parts.specs.Parts.{part, counters_value};
ghost use Rattle.checkpoint.specs.internal.Drafting.{all_parts, draft_of, draft_parts};
ghost use Rattle.checkpoint.specs.Writing.{IsUnfitUnless, PartsEnd, WritingGives};
ghost use Rattle.checkpoint.specs.internal.Writing.{HasNameSpelling, HasObjectSpelling, HaveSpelling};
ghost use Rattle.checkpoint.specs.internal.Writing.{counted, name_bytes, object_bytes, parts_at, rests_at};

use crate::drafting::Draft;
use crate::fault::WriteFault;
use compound_run::{Lent, Server, opens_fit};
use node_tree::{ROOT, Tree};
use std::alloc::Allocator;
use store_journal::{Disk, Journal};
use tree_parts::{next_rest, write_counters, write_name, write_object, write_rest};
use xdr_wire::Writer;

/// Room for each part of the tree: at most 1,048,576 bytes of an object, at most 64 access control
/// entries of 20 bytes, and the rest.
const PART_ROOM: usize = 1_048_576 + 4096;

/// The parts of a checkpoint that is being written.
#[derive(Drop)]
struct Parts<A: Allocator> {
    /// The next part.
    writer: Writer<A>,
    /// The size in bytes of the parts before it.
    size: u64,
}

impl<A: Allocator + Copy> Parts<A> {
    /// Appends the part in the buffer, which is empty then.
    fn put<D: Disk>(
        &mut self,
        disk: &mut D,
        alloc: A,
        journal: &mut Journal,
    ) -> Result<(), WriteFault>
        ensures ends { PartsEnd (passage D.adds disk.old disk.new) journal.old (self.old.writer.bytes ∷ []) result
            journal.new }
        ensures size { OnOk result (self.new.size ≡ counted self.old.size (self.old.writer.bytes ∷ [])) }
        ensures empty { self.new.writer.bytes ≡ [] }
    {
        self.size = self.size.saturating_add(self.writer.len() as u64);
        let done = journal.part(disk, alloc, self.writer.bytes());
        self.writer.truncate(0);
        match done {
            Ok(()) => Ok(()),
            Err(fault) => Err(WriteFault::Refused(fault)),
        }
    }

    /// Appends a part that was made before.
    fn put_bytes<D: Disk>(
        &mut self,
        disk: &mut D,
        alloc: A,
        journal: &mut Journal,
        bytes: &Vec<u8, A>,
    ) -> Result<(), WriteFault>
        ensures ends { PartsEnd (passage D.adds disk.old disk.new) journal.old (bytes.now.items ∷ []) result
            journal.new }
        ensures size { OnOk result (self.new.size ≡ counted self.old.size (bytes.now.items ∷ [])) }
        ensures stays { self.new.writer ≡ self.old.writer }
    {
        self.size = self.size.saturating_add(bytes.len() as u64);
        match journal.part(disk, alloc, bytes.as_slice()) {
            Ok(()) => Ok(()),
            Err(fault) => Err(WriteFault::Refused(fault)),
        }
    }

    /// Appends parts that were made before, in order.
    fn put_made<D: Disk>(
        &mut self,
        disk: &mut D,
        alloc: A,
        journal: &mut Journal,
        parts: &[Vec<u8, A>],
    ) -> Result<(), WriteFault>
        ensures ends { PartsEnd (passage D.adds disk.old disk.new) journal.old (map (λ bytes. bytes.items) parts.now)
            result journal.new }
        ensures size { OnOk result (self.new.size ≡ counted self.old.size (map (λ bytes. bytes.items) parts.now)) }
        ensures stays { self.new.writer ≡ self.old.writer }
    {
        for bytes in parts {
            match self.put_bytes(disk, alloc, journal, bytes) {
                Ok(()) => {}
                Err(fault) => return Err(fault),
            }
        }
        Ok(())
    }

    /// Appends the head and the parts of the clients.
    fn put_draft<D: Disk>(
        &mut self,
        disk: &mut D,
        alloc: A,
        journal: &mut Journal,
        draft: &Draft<A>,
    ) -> Result<(), WriteFault>
        ensures ends { PartsEnd (passage D.adds disk.old disk.new) journal.old (draft_parts (draft_of draft.now)) result
            journal.new }
        ensures size { OnOk result (self.new.size ≡ counted self.old.size (draft_parts (draft_of draft.now))) }
        ensures stays { self.new.writer ≡ self.old.writer }
    {
        match self.put_bytes(disk, alloc, journal, &draft.head) {
            Ok(()) => {}
            Err(fault) => return Err(fault),
        }
        self.put_made(disk, alloc, journal, draft.clients.as_slice())
    }

    /// Appends the counters.
    fn put_counters<D: Disk>(
        &mut self,
        disk: &mut D,
        alloc: A,
        journal: &mut Journal,
        tree: &Tree<A>,
    ) -> Result<(), WriteFault>
        requires { self.old.writer.bytes ≡ [] }
        ensures ends { PartsEnd (passage D.adds disk.old disk.new) journal.old
            (spelling part (counters_value tree.now) ∷ []) result journal.new }
        ensures has_spelling { OnOk result (HasSpelling part (counters_value tree.now)) }
        ensures size { OnOk result (self.new.size ≡
            counted self.old.size (spelling part (counters_value tree.now) ∷ [])) }
        ensures empty { self.new.writer.bytes ≡ [] }
    {
        let Ok(()) = write_counters(tree, &mut self.writer) else {
            return Err(WriteFault::Memory);
        };
        self.put(disk, alloc, journal)
    }

    /// Appends the parts of an object after its first part, by rising offset.
    fn put_rests<D: Disk>(
        &mut self,
        disk: &mut D,
        alloc: A,
        journal: &mut Journal,
        tree: &Tree<A>,
        number: u64,
    ) -> Result<(), WriteFault>
        requires { self.old.writer.bytes ≡ [] }
        ensures ends { PartsEnd (passage D.adds disk.old disk.new) journal.old
            (map (spelling part) (rests_at tree.now number)) result journal.new }
        ensures has_spelling { OnOk result (AllByRecursion (HasSpelling part) (rests_at tree.now number)) }
        ensures size { OnOk result (self.new.size ≡
            counted self.old.size (map (spelling part) (rests_at tree.now number))) }
        ensures empty { OnOk result (self.new.writer.bytes ≡ []) }
    {
        let mut at = 0;
        while let Some(offset) = next_rest(tree, number, at) {
            let Ok(()) = write_rest(tree, alloc, number, offset, &mut self.writer) else {
                return Err(WriteFault::Memory);
            };
            match self.put(disk, alloc, journal) {
                Ok(()) => at = offset,
                Err(fault) => return Err(fault),
            }
        }
        Ok(())
    }

    /// Appends the parts of an object: one, and further ones if its bytes are many.
    fn put_object<D: Disk>(
        &mut self,
        disk: &mut D,
        alloc: A,
        journal: &mut Journal,
        tree: &Tree<A>,
        number: u64,
    ) -> Result<(), WriteFault>
        requires empty { self.old.writer.bytes ≡ [] }
        requires there { IsSome (object tree.now number) }
        ensures ends { PartsEnd (passage D.adds disk.old disk.new) journal.old
            (map (spelling part) (parts_at tree.now number)) result journal.new }
        ensures has_spelling { OnOk result (AllByRecursion (HasSpelling part) (parts_at tree.now number)) }
        ensures size { OnOk result (self.new.size ≡
            counted self.old.size (map (spelling part) (parts_at tree.now number))) }
        ensures empty { OnOk result (self.new.writer.bytes ≡ []) }
    {
        let Ok(()) = write_object(tree, alloc, number, &mut self.writer) else {
            return Err(WriteFault::Memory);
        };
        match self.put(disk, alloc, journal) {
            Ok(()) => {}
            Err(fault) => return Err(fault),
        }
        self.put_rests(disk, alloc, journal, tree, number)
    }

    /// Appends the objects, by rising number.
    fn put_objects<D: Disk>(
        &mut self,
        disk: &mut D,
        alloc: A,
        journal: &mut Journal,
        tree: &Tree<A>,
    ) -> Result<(), WriteFault>
        requires empty { self.old.writer.bytes ≡ [] }
        requires sound { IsSound tree.now }
        ensures ends { PartsEnd (passage D.adds disk.old disk.new) journal.old
            (flat_map object_bytes tree.now.objects) result journal.new }
        ensures has_spelling { OnOk result (AllByRecursion HasObjectSpelling tree.now.objects) }
        ensures size { OnOk result (self.new.size ≡
            counted self.old.size (flat_map object_bytes tree.now.objects)) }
        ensures empty { OnOk result (self.new.writer.bytes ≡ []) }
    {
        let mut at = 0;
        while let Some(number) = tree.number_after(at) {
            match self.put_object(disk, alloc, journal, tree, number) {
                Ok(()) => at = number,
                Err(fault) => return Err(fault),
            }
        }
        Ok(())
    }

    /// Appends the names, by rising cookie.
    fn put_names<D: Disk>(
        &mut self,
        disk: &mut D,
        alloc: A,
        journal: &mut Journal,
        tree: &Tree<A>,
    ) -> Result<(), WriteFault>
        requires empty { self.old.writer.bytes ≡ [] }
        requires sound { IsSound tree.now }
        ensures ends { PartsEnd (passage D.adds disk.old disk.new) journal.old (map name_bytes tree.now.names) result
            journal.new }
        ensures has_spelling { OnOk result (AllByRecursion HasNameSpelling tree.now.names) }
        ensures size { OnOk result (self.new.size ≡ counted self.old.size (map name_bytes tree.now.names)) }
    {
        let mut at = 0;
        while let Some(name) = tree.any_after(at) {
            let Ok(()) = write_name(name, &mut self.writer) else {
                return Err(WriteFault::Memory);
            };
            match self.put(disk, alloc, journal) {
                Ok(()) => at = name.cookie(),
                Err(fault) => return Err(fault),
            }
        }
        Ok(())
    }

    /// Appends all parts.
    fn put_all<D: Disk>(
        &mut self,
        disk: &mut D,
        alloc: A,
        journal: &mut Journal,
        tree: &Tree<A>,
        draft: &Draft<A>,
    ) -> Result<(), WriteFault>
        requires empty { self.old.writer.bytes ≡ [] }
        requires sound { IsSound tree.now }
        ensures ends { PartsEnd (passage D.adds disk.old disk.new) journal.old
            (all_parts tree.now (draft_of draft.now)) result journal.new }
        ensures has_spelling { OnOk result (HaveSpelling tree.now) }
        ensures size { OnOk result (self.new.size ≡
            counted self.old.size (all_parts tree.now (draft_of draft.now))) }
    {
        match self.put_draft(disk, alloc, journal, draft) {
            Ok(()) => {}
            Err(fault) => return Err(fault),
        }
        match self.put_counters(disk, alloc, journal, tree) {
            Ok(()) => {}
            Err(fault) => return Err(fault),
        }
        match self.put_objects(disk, alloc, journal, tree) {
            Ok(()) => {}
            Err(fault) => return Err(fault),
        }
        self.put_names(disk, alloc, journal, tree)
    }
}

/// Writes a checkpoint of a server into the inactive file, and syncs it. Then it replaces CURRENT
/// by one that names that file and has the caller's `machine` number. Returns the size of the parts
/// in bytes.
///
/// The written clients and open files are read again and compared with the server's before the
/// first act. A server can be restored over each checkpoint that is written.
///
/// `Unfit`: if and only if the open files of the server don't fit its tree; nothing was done.
/// `Memory`: an allocation fails for the next part; nothing was done, or the checkpoint is begun
/// and some parts are written. `Refused`: the journal refused to begin it, the next part, or its
/// end. After `Refused(Failed)` no further act is done with the disk. After any other refusal the
/// active log is unchanged, the journal can still be used, and the next record or checkpoint
/// abandons this one.
pub fn write_checkpoint<D: Disk, A: Allocator + Copy>(
    disk: &mut D,
    alloc: A,
    journal: &mut Journal,
    machine: u64,
    server: &Server<A>,
) -> Result<u64, WriteFault>
    ensures writes { WritingGives (passage D.adds disk.old disk.new) machine journal.old server.now result journal.new }
    ensures unfit { IsUnfitUnless (opens_fit server.now.realm.world (client_state_of server.now)) result }
{
    let tree = server.tree();
    if !opens_fit(tree, Lent::of(server)) {
        return Err(WriteFault::Unfit);
    }
    let Ok(draft) = Draft::of(alloc, server) else {
        return Err(WriteFault::Memory);
    };
    let Ok(writer) = Writer::new(alloc, PART_ROOM) else {
        return Err(WriteFault::Memory);
    };
    // a tree in which something was looked up is known to be sound
    let _root = tree.object(ROOT);
    match journal.begin(disk, alloc) {
        Ok(()) => {}
        Err(fault) => return Err(WriteFault::Refused(fault)),
    }
    let mut parts = Parts { writer, size: 0 };
    match parts.put_all(disk, alloc, journal, tree, &draft) {
        Ok(()) => {}
        Err(fault) => return Err(fault),
    }
    match journal.finish(disk, alloc, machine) {
        Ok(()) => Ok(parts.size),
        Err(fault) => Err(WriteFault::Refused(fault)),
    }
}
