//! A COMPOUND (RFC 8881, section 16.2).
ghost use Rattle.std.specs.Prelude.{◌≡◌, ◌+◌, ◌≤◌, ◌++◌, [], length, Some, IfSome, option_map};
ghost use Rattle.std.specs.Int.{w32, to_be_bytes};
ghost use Rattle.xdr_wire.specs.Buffer.{Appends};
ghost use Rattle.xdr_wire.specs.Reading.{read_at};
ghost use Rattle.xdr_wire.specs.Xdr.{padded};
ghost use Rattle.compound_run.specs.Limits as limits;
ghost use Rattle.compound_run.specs.Compound.{args_form, args_in, first_room, opening_fault, series};
ghost use Rattle.compound_run.specs.Written.{RunGives, OpensTo, WritesAnswer};
ghost use Rattle.compound_run.specs.internal.Written.{AppendsOpened};
ghost use Rattle.compound_run.specs.Views.{arguments_of, context_at, stage};

use crate::context::Context;
use crate::filehandles::FileHandles;
use crate::kept::{delayed_at, is_at, is_changing};
use crate::limits::{MAX_OPERATIONS, MAX_RESULTS, MAX_TAG, MINOR_VERSION, REFUSAL_ROOM};
use crate::realm::Realm;
use crate::step::Step;
use nfs_ops::next_op;
use nfs_types::Status;
use std::alloc::{Allocator, Global};
use xdr_wire::{Reader, Writer};

/// The end of a COMPOUND: the status of the last operation that ran, and how many ran. Also whether one that changes
/// state was OK, and which failed an allocation, by its place among those that ran here.
#[derive(Clone, Copy, PartialEq, Eq)]
pub(crate) struct Ended {
    pub status: Status,
    pub ran: u32,
    pub changed: bool,
    pub delayed: Option<u32>,
}

/// The operations of a COMPOUND that are to run.
#[derive(Clone, Copy)]
pub(crate) struct ToRun<'a> {
    pub operations: &'a [u8],
    /// The operation at this place among them fails its allocation, if it allocates any memory.
    pub refused: Option<u32>,
}

/// The arguments of a COMPOUND.
#[derive(Clone, Copy)]
pub(crate) struct CompoundArgs<'a> {
    pub tag: &'a [u8],
    pub minor_version: u32,
    pub count: u32,
    pub operations: &'a [u8],
}

impl<A: Allocator + Copy> Realm<A> {
    /// Runs the operations in these bytes, from the context of the first on, up to and including the first that isn't
    /// OK.
    pub fn run_all(
        &mut self,
        context: Context<'_>,
        to_run: ToRun<'_>,
        results: &mut Writer<A>,
    ) -> Ended
        requires settled { self.old.tree.log.held ≡ [] }
        requires place { context.position ≤ context.count }
        requires room { context.room + limits.REFUSAL_ROOM ≤ results.old.room }
        ensures gives { RunGives to_run.entry.refused (context_at self.old context.entry) to_run.entry.operations.now
            (stage self.old results.old) result (stage self.new results.new) }
        ensures settled { self.new.tree.log.held ≡ [] }
    {
        let end = results.capacity() - (results.room() - context.room);
        let mut handles = FileHandles::none();
        let mut changed = false;
        let mut reader = Reader::new(to_run.operations);
        for position in context.position..context.count {
            let op = next_op(&mut reader);
            let here = Context {
                position,
                room: end - results.len(),
                ..context
            };
            let step = Step {
                context: here,
                handles,
            };
            let refused = is_at(to_run.refused, position - context.position);
            handles = match self.run_one(step, &op, refused, results) {
                Ok(handles) => handles,
                Err(status) => {
                    return Ended {
                        status,
                        ran: position + 1,
                        changed,
                        delayed: delayed_at(status, position - context.position),
                    };
                }
            };
            changed |= is_changing(op.number());
        }
        Ended {
            status: Status::Ok,
            ran: context.count,
            changed,
            delayed: None,
        }
    }
}

impl<'a> CompoundArgs<'a> {
    /// Decodes tag, minor version and count. None of them may be missing.
    pub fn read(arguments: &'a [u8]) -> Option<CompoundArgs<'a>>
        ensures view { option_map arguments_of result ≡ args_in (read_at args_form arguments.now) }
        ensures short { IfSome result (λ a. length a.tag.now ≤ limits.MAX_TAG) }
    {
        let mut reader = Reader::new(arguments);
        let tag = reader.opaque(MAX_TAG).ok()?;
        let minor_version = reader.u32().ok()?;
        let count = reader.u32().ok()?;
        Some(CompoundArgs {
            tag,
            minor_version,
            count,
            operations: reader.rest(),
        })
    }

    /// Why no operation runs, if none does.
    fn fault(&self) -> Option<Status>
        ensures { result ≡ opening_fault limits.MAX_OPERATIONS self.now.minor_version self.now.count }
    {
        if self.minor_version != MINOR_VERSION {
            return Some(Status::MinorVersMismatch);
        }
        if self.count > MAX_OPERATIONS {
            return Some(Status::TooManyOps);
        }
        None
    }

    /// Runs the operations and appends their results to `out`, unless none is to run.
    fn run_operations<A: Allocator + Copy>(
        &self,
        realm: &mut Realm<A>,
        context: Context<'_>,
        out: &mut Writer<A>,
    ) -> Ended
        requires settled { realm.old.tree.log.held ≡ [] }
        requires first { context.position ≡ 0 }
        requires count { context.count ≡ self.now.count }
        requires least { context.room ≡ first_room limits.MAX_REPLY self.now.tag.now }
        requires room { context.room + limits.REFUSAL_ROOM ≤ out.old.room }
        ensures answers { AppendsOpened (opening_fault limits.MAX_OPERATIONS self.now.minor_version self.now.count)
            (series self.now.tag.now
            (record (context_at realm.old context.entry) { room = first_room limits.MAX_REPLY self.now.tag.now })
            self.now.operations.now)
            (stage realm.old out.old) result (stage realm.new out.new) }
        ensures settled { realm.new.tree.log.held ≡ [] }
    {
        if let Some(status) = self.fault() {
            return Ended {
                status,
                ran: 0,
                changed: false,
                delayed: None,
            };
        }
        let to_run = ToRun {
            operations: self.operations,
            refused: None,
        };
        realm.run_all(context, to_run, out)
    }

    /// Appends the results of the COMPOUND to `out`. Its status and the number of its results are filled in once they
    /// are known. The room of the context is that of the head and the results together.
    pub fn run<A: Allocator + Copy>(
        &self,
        realm: &mut Realm<A>,
        context: Context<'_>,
        out: &mut Writer<A>,
    )
        requires short { length self.now.tag.now ≤ limits.MAX_TAG }
        requires settled { realm.old.tree.log.held ≡ [] }
        requires first { context.position ≡ 0 }
        requires count { context.count ≡ self.now.count }
        requires whole { context.room + limits.REFUSAL_ROOM ≡ limits.MAX_RESULTS }
        requires room { limits.MAX_RESULTS ≤ out.old.room }
        ensures answers { WritesAnswer (λ bytes. OpensTo
            (opening_fault limits.MAX_OPERATIONS self.now.minor_version self.now.count)
            (series self.now.tag.now
            (record (context_at realm.old context.entry) { room = first_room limits.MAX_REPLY self.now.tag.now })
            self.now.operations.now)
            realm.old bytes realm.new) out.old out.new }
        ensures settled { realm.new.tree.log.held ≡ [] }
    {
        let end = out.capacity() - (out.room() - context.room);
        let status_at = out.len();
        put_word(out, 0);
        put_tag(out, self.tag);
        let count_at = out.len();
        put_word(out, 0);
        let first = Context {
            room: end - out.len(),
            ..context
        };
        let ended = self.run_operations(realm, first, out);
        out.fill(count_at, ended.ran);
        out.fill(status_at, ended.status.number());
    }
}

/// Writes a number. The room suffices for it.
pub(crate) fn put_word<A: Allocator>(writer: &mut Writer<A>, n: u32)
    requires { 4 ≤ writer.old.room }
    ensures { Appends writer.old writer.new (to_be_bytes w32 n) }
{
    writer.put_u32(n).unwrap();
}

/// Writes a tag. The room suffices for it.
pub(crate) fn put_tag<A: Allocator>(writer: &mut Writer<A>, tag: &[u8])
    requires short { length tag.now ≤ 1024 }
    requires room { 1028 ≤ writer.old.room }
    ensures written { Appends writer.old writer.new (to_be_bytes w32 (length tag.now) ++ padded tag.now) }
    ensures short { length (padded tag.now) ≤ 1024 }
{
    writer.put_opaque(tag).unwrap();
}
