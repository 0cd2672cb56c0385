//! Changes that are written. No contract states which they are. The caller applies them
//! ([`crate::apply_changes`]), and compares the result with the server's state ([`crate::are_same`]).
ghost use Rattle.std.specs.Prelude.{◌≡◌};
ghost use Rattle.client_parts.specs.PartCount.{client_part_count};

use crate::change::WrittenOpen;
use compound_run::{Lent, Open};
use nfs_types::Limits;
use session_slots::{CachedCall, Clients, Record, RecordForm, SessionForm, write_call};
use std::alloc::{AllocError, Allocator};
use xdr_wire::{Full, Opaque, Spell, Writer};

/// How many sessions have their calls in one part.
const PART_SESSIONS: usize = 32;

/// How many open files one part has.
const PART_OPENS: usize = 4_096;

/// Room for a record, a session, an open file, and a call without its arguments and results.
const ROOM: usize = 2_048;

/// The most bytes of arguments, and the most of results.
const MOST_ARGUMENTS: usize = 65_536;

const MOST_RESULTS: usize = 65_512;

/// Changes, and their number.
#[derive(Drop)]
struct Draft<A: Allocator> {
    writer: Writer<A>,
    count: u32,
}

/// Room was made before the write. `Full` is therefore reported as a failed allocation.
fn written(done: Result<(), Full>) -> Result<(), AllocError> {
    match done {
        Ok(()) => Ok(()),
        Err(Full) => Err(AllocError),
    }
}

impl<A: Allocator + Copy> Draft<A> {
    fn new(alloc: A) -> Self {
        Draft {
            writer: Writer::empty(alloc),
            count: 0,
        }
    }

    /// Makes room for one more change.
    fn grow(&mut self, bytes: usize) -> Result<(), AllocError> {
        self.writer.make_room(bytes)?;
        self.count = self.count.saturating_add(1);
        Ok(())
    }

    fn put_numbers(&mut self, clients: &Clients<A>) -> Result<(), AllocError> {
        self.grow(ROOM)?;
        written((0u32, clients.next_numbers()).write(&mut self.writer))
    }

    fn put_record(&mut self, record: Record<'_>) -> Result<(), AllocError> {
        let Some(form) = RecordForm::new(record) else {
            return Err(AllocError);
        };
        self.grow(ROOM)?;
        written((1u32, form).write(&mut self.writer))
    }

    /// The records of all clients.
    fn put_records(&mut self, clients: &Clients<A>) -> Result<(), AllocError> {
        let mut at = 0;
        for _record in 0..clients.limits().clients() {
            let Some(number) = clients.client_from(at) else {
                return Ok(());
            };
            if let Some(record) = clients.record(number) {
                self.put_record(record)?;
            }
            at = number.saturating_add(1);
        }
        Ok(())
    }

    fn put_session(&mut self, clients: &Clients<A>, number: u64) -> Result<(), AllocError> {
        let Some(held) = clients.held(number) else {
            return Ok(());
        };
        self.grow(ROOM)?;
        written((2u32, SessionForm { number, held }).write(&mut self.writer))
    }

    /// All sessions, without the calls of their slots.
    fn put_sessions(&mut self, clients: &Clients<A>) -> Result<(), AllocError> {
        let mut at = 0;
        for _session in 0..clients.limits().sessions() {
            let Some(number) = clients.session_from(at) else {
                return Ok(());
            };
            self.put_session(clients, number)?;
            at = number.saturating_add(1);
        }
        Ok(())
    }

    fn put_call(
        &mut self,
        session: u64,
        slot: u32,
        kept: CachedCall<'_>,
    ) -> Result<(), AllocError> {
        let (arguments, results) = (kept.arguments.len(), kept.results.len());
        if arguments > MOST_ARGUMENTS || results > MOST_RESULTS {
            return Err(AllocError);
        }
        self.grow(ROOM + arguments + results)?;
        written(self.writer.put_u32(3))?;
        written(write_call(session, slot, kept, &mut self.writer))
    }

    /// The calls of a session's slots.
    fn put_calls_of(&mut self, clients: &Clients<A>, session: u64) -> Result<(), AllocError> {
        let Some(held) = clients.held(session) else {
            return Ok(());
        };
        for slot in 0..held.granted.slots {
            if let Some(kept) = clients.kept(session, slot) {
                self.put_call(session, slot, kept)?;
            }
        }
        Ok(())
    }

    /// The calls of 32 sessions, from a place on.
    fn put_calls(&mut self, clients: &Clients<A>, first: usize) -> Result<(), AllocError> {
        let mut at = 0;
        for place in 0..first.saturating_add(PART_SESSIONS) {
            let Some(number) = clients.session_from(at) else {
                return Ok(());
            };
            if place >= first {
                self.put_calls_of(clients, number)?;
            }
            at = number.saturating_add(1);
        }
        Ok(())
    }

    fn put_open(&mut self, open: &Open<A>) -> Result<(), AllocError> {
        let Some(owner) = Opaque::<1024>::new(open.owner.as_slice()) else {
            return Err(AllocError);
        };
        let last = (owner, (open.object, (open.access, open.seqid)));
        let part: WrittenOpen<'_> = (open.number, (open.client, last));
        self.grow(ROOM)?;
        written((5u32, part).write(&mut self.writer))
    }

    /// 4,096 open files, from a place on.
    fn put_opens(&mut self, opens: &[Open<A>], first: usize) -> Result<(), AllocError> {
        let first = first.min(opens.len());
        let end = first.saturating_add(PART_OPENS).min(opens.len());
        for open in &opens[first..end] {
            self.put_open(open)?;
        }
        Ok(())
    }

    /// The bytes of the changes, with the number of the next open and the count before them.
    fn finish(self, alloc: A, next_open: u64) -> Result<Vec<u8, A>, AllocError> {
        let Draft { writer, count } = self;
        let mut prefix = Writer::new(alloc, 12)?;
        written((next_open, count).write(&mut prefix))?;
        let mut bytes = prefix.into_bytes();
        bytes.extend_from_slice(writer.bytes())?;
        Ok(bytes)
    }
}

/// How many parts the clients of a server take: a first part, and as many further ones as the calls
/// of all sessions or all open files need. It is 3 in the standard profile, and 17 in the office
/// profile.
pub fn client_part_count(limits: Limits) -> usize
    ensures { result ≡ client_part_count limits }
{
    1 + (limits.sessions() / PART_SESSIONS).max(limits.opens() / PART_OPENS)
}

/// The bytes of changes that lead from the empty state to all records and sessions, with no call on
/// a slot, and to the first 4,096 open files.
fn write_first<A: Allocator + Copy>(alloc: A, now: Lent<'_, A>) -> Result<Vec<u8, A>, AllocError> {
    let mut draft = Draft::new(alloc);
    draft.put_numbers(now.clients)?;
    draft.put_records(now.clients)?;
    draft.put_sessions(now.clients)?;
    draft.put_opens(now.opens, 0)?;
    draft.finish(alloc, now.next_open)
}

/// The bytes of changes that add the calls on the slots of 32 sessions, and 4,096 open files. Place 0
/// has the calls of the first 32 sessions, and the open files after the first 4,096.
fn write_further<A: Allocator + Copy>(
    alloc: A,
    now: Lent<'_, A>,
    place: usize,
) -> Result<Vec<u8, A>, AllocError> {
    let mut draft = Draft::new(alloc);
    draft.put_calls(now.clients, place.saturating_mul(PART_SESSIONS))?;
    draft.put_opens(
        now.opens,
        place.saturating_add(1).saturating_mul(PART_OPENS),
    )?;
    draft.finish(alloc, now.next_open)
}

/// The bytes of one of the parts ([`client_part_count`]), by its place. The part at place 0 leads
/// from the empty state to all records and sessions and the first 4,096 open files. Each other part
/// adds the calls on the slots of 32 sessions, and 4,096 open files. A part has at most 39 MB.
pub fn write_clients<A: Allocator + Copy>(
    alloc: A,
    now: Lent<'_, A>,
    place: usize,
) -> Result<Vec<u8, A>, AllocError> {
    if place == 0 {
        write_first(alloc, now)
    } else {
        write_further(alloc, now, place - 1)
    }
}
