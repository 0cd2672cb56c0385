//! Operations after a SEQUENCE (RFC 8881, sections 2.10.6.4 and 18.46).
ghost use Rattle.std.specs.Prelude.{◌≡◌, ◌+◌, ◌-◌, ◌≤◌, [], length};
ghost use Rattle.nfs_ops.specs.Results.{Done};
ghost use Rattle.nfs_ops.specs.Views.{sequence_result_value};
ghost use Rattle.nfs_ops.specs.declared.OpKind.TheVariants as kinds;
ghost use Rattle.compound_run.specs.Compound.{first_room, series};
ghost use Rattle.compound_run.specs.Limits as limits;
ghost use Rattle.compound_run.specs.Runs.{spelled};
ghost use Rattle.compound_run.specs.SessionViews.{SequencedGives, WritesWithin};
ghost use Rattle.compound_run.specs.internal.SessionViews.{AppendsSequenced, sequence_outcome};
ghost use Rattle.compound_run.specs.Views.{context_at, stage};

use crate::compound::{CompoundArgs, Ended, ToRun, put_tag, put_word};
use crate::context::Context;
use crate::limits::REFUSAL_ROOM;
use crate::operation_results::put_result;
use crate::realm::Realm;
use nfs_ops::{OpResult, SequenceResult};
use std::alloc::Allocator;
use xdr_wire::Writer;

impl CompoundArgs<'_> {
    /// Writes the result of SEQUENCE, and runs the operations after it. The results end before
    /// `end`.
    fn run_sequenced<A: Allocator + Copy>(
        &self,
        realm: &mut Realm<A>,
        context: Context<'_>,
        end: usize,
        given: SequenceResult,
        to_run: ToRun<'_>,
        out: &mut Writer<A>,
    ) -> Ended
        requires settled { realm.old.tree.log.held ≡ [] }
        requires second { context.position ≡ 1 }
        requires some { 1 ≤ context.count }
        requires result { length out.old.bytes + limits.MIN_ROOM ≤ end }
        requires room { end + limits.REFUSAL_ROOM ≤ length out.old.bytes + out.old.room }
        ensures answers { AppendsSequenced (end + limits.REFUSAL_ROOM) to_run.entry.refused
            (series self.now.tag.now (record (context_at realm.old context.entry) {
              room = end - length out.old.bytes
                  - length (spelled (Done kinds.Sequence (sequence_result_value given)));
            }) to_run.entry.operations.now) (sequence_outcome given) (stage realm.old out.old) result
            (stage realm.new out.new) }
        ensures settled { realm.new.tree.log.held ≡ [] }
    {
        put_result(OpResult::Sequence(given), out);
        let second = Context {
            room: end - out.len(),
            ..context
        };
        realm.run_all(second, to_run, out)
    }

    /// Appends to `out` the results of a COMPOUND with this SEQUENCE and these operations after it. They are at most
    /// `limit` bytes. Status and number of the results are filled in once they are known. Returns how the operations
    /// ended.
    pub fn run_after_sequence<A: Allocator + Copy>(
        &self,
        realm: &mut Realm<A>,
        context: Context<'_>,
        limit: usize,
        given: SequenceResult,
        to_run: ToRun<'_>,
        out: &mut Writer<A>,
    ) -> Ended
        requires short { length self.now.tag.now ≤ limits.MAX_TAG }
        requires settled { realm.old.tree.log.held ≡ [] }
        requires second { context.position ≡ 1 }
        requires some { 1 ≤ context.count }
        requires least { 4072 ≤ limit }
        requires room { limit ≤ out.old.room }
        ensures answers { WritesWithin limit
            (λ bytes. SequencedGives to_run.entry.refused
            (series self.now.tag.now (record (context_at realm.old context.entry) {
              room = first_room (limit + limits.REPLY_HEADER) self.now.tag.now
                  - length (spelled (Done kinds.Sequence (sequence_result_value given)));
            }) to_run.entry.operations.now) (sequence_outcome given) realm.old bytes result realm.new)
            out.old out.new }
        ensures settled { realm.new.tree.log.held ≡ [] }
    {
        let end = out.capacity() - (out.room() - limit) - REFUSAL_ROOM;
        let status_at = out.len();
        put_word(out, 0);
        put_tag(out, self.tag);
        let count_at = out.len();
        put_word(out, 0);
        let ended = self.run_sequenced(realm, context, end, given, to_run, out);
        out.fill(count_at, ended.ran);
        out.fill(status_at, ended.status.number());
        ended
    }
}
