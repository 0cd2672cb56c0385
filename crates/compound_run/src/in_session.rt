//! A call with sessions (RFC 8881, sections 2.10.6 and 16.2).
ghost use Rattle.std.specs.Prelude.{◌≡◌, ◌-◌, ◌<◌, ◌≤◌, [], drop, length, IfSome};
ghost use Rattle.nfs_ops.specs.Views.{sequence_args_value};
ghost use Rattle.session_slots.specs.declared.session.Begin.TheVariants as begins;
ghost use Rattle.session_slots.specs.Registry.{cache_size, session_at};
ghost use Rattle.session_slots.specs.Sequencing.{HasSlot};
ghost use Rattle.session_slots.specs.Views.{bytes_of};
ghost use Rattle.compound_run.specs.Views.{state_of};
ghost use Rattle.compound_run.specs.Limits as limits;
ghost use Rattle.compound_run.specs.Sequence as specs;
ghost use Rattle.compound_run.specs.Sequence.{keeping, sequence_done};
ghost use Rattle.compound_run.specs.Sessions.{session_of};
ghost use Rattle.compound_run.specs.SessionViews.{AnswersIncoming, SequencedCached, WritesWithin};
ghost use Rattle.compound_run.specs.internal.SessionViews.{AnswersSequence};
ghost use Rattle.compound_run.specs.internal.SessionViews.{context_after_sequence, sequence_outcome};
ghost use Rattle.compound_run.specs.Compound.{series};
ghost use Rattle.compound_run.specs.Beginning.{beginning};
ghost use Rattle.compound_run.specs.Replaying.{IsNumberedFor, ready_for};

use crate::compound::{CompoundArgs, Ended, ToRun};
use crate::context::{Calling, Context};
use crate::first_operation::{Beginning, begin};
use crate::kept::Ran;
use crate::realm::Realm;
use crate::result_heads::{put_cached, put_ended, put_refused};
use crate::server::Args;
use crate::sessions::{second, session_of};
use nfs_ops::{OP_SEQUENCE, SequenceArgs, SequenceResult};
use nfs_types::Moment;
use rpc_record::Caller;
use session_slots::{Begin, CallBytes, NewCall, REPLY_HEADER, Sequence};
use std::alloc::Allocator;
use xdr_wire::Writer;

/// A call with sessions.
#[derive(Clone, Copy)]
pub(crate) struct IncomingCall<'t> {
    pub args: Args<'t>,
    /// The arguments of the COMPOUND.
    pub compound: CompoundArgs<'t>,
    pub caller: &'t Caller,
    pub now: Moment,
    /// The operation at this place after SEQUENCE fails its allocation, if it allocates any memory.
    pub refused: Option<u32>,
}

/// The result of a SEQUENCE that begins a new call.
fn sequence_given(args: &SequenceArgs, new: NewCall) -> SequenceResult
    ensures { sequence_outcome result ≡ sequence_done (sequence_args_value args.now) new.highest_slot }
{
    SequenceResult {
        session: args.session,
        number: args.number,
        slot: args.slot,
        highest: new.highest_slot,
        target: new.highest_slot,
    }
}

/// The bytes that a retry of a call must have, of the bytes after its header. These are all of them; with persistent
/// sessions, all but sa_highest_slotid. The operations after SEQUENCE have `rest` bytes.
fn compared(lasting: bool, arguments: &[u8], rest: usize) -> CallBytes<'_>
    ensures bytes { bytes_of result ≡ specs.compared lasting arguments.now rest }
    ensures short { length (bytes_of result) ≤ length arguments.now }
{
    if !lasting {
        return CallBytes {
            prefix: arguments,
            back: &[],
        };
    }
    let end = arguments.len().saturating_sub(rest);
    CallBytes {
        prefix: &arguments[..end.saturating_sub(8)],
        back: &arguments[end.saturating_sub(4)..],
    }
}

impl<A: Allocator + Copy> Realm<A> {
    /// Marks the slot of a COMPOUND's SEQUENCE as lagging, if it begins with one.
    pub fn lag_for(&mut self, compound: CompoundArgs<'_>)
        requires settled { self.old.tree.log.held ≡ [] }
        ensures ready { state_of self.new ≡ ready_for
            (beginning compound.entry.minor_version compound.entry.count compound.entry.operations.now)
            (state_of self.old) }
        ensures settled { self.new.tree.log.held ≡ [] }
    {
        match begin(compound.minor_version, compound.count, compound.operations) {
            Beginning::Follows(args, _) => self.clients.lag(session_of(&args.session), args.slot),
            _ => {}
        }
    }

    /// Caches the bytes from `start` on as the results of a call.
    fn keep_from(&mut self, args: &SequenceArgs, out: &Writer<A>, start: usize)
        requires start { start ≤ length out.now.bytes }
        requires slot { IfSome (session_at self.old.clients (session_of args.now.session))
            (λ s. args.now.slot < s.granted.slots) }
        requires few { IfSome (session_at self.old.clients (session_of args.now.session))
            (λ s. length (drop start out.now.bytes) ≤ cache_size s.granted) }
        ensures { self.new ≡ record self.old {
          clients = keeping (sequence_args_value args.now) (drop start out.now.bytes) self.old.clients;
        } }
    {
        let results = &out.bytes()[start..];
        self.clients
            .keep(session_of(&args.session), args.slot, results);
    }

    /// Runs the operations after a SEQUENCE that has begun a new call, and caches their results. Returns how they
    /// ended.
    fn answer_new(
        &mut self,
        call: IncomingCall<'_>,
        args: &SequenceArgs,
        new: NewCall,
        operations: &[u8],
        out: &mut Writer<A>,
    ) -> Ended
        requires short { length call.compound.tag.now ≤ limits.MAX_TAG }
        requires settled { self.old.tree.log.held ≡ [] }
        requires some { 1 ≤ call.compound.count }
        requires has_slot { HasSlot self.old.clients (session_of args.now.session) args.now.slot (begins.New new) }
        requires room { limits.MAX_RESULTS ≤ out.old.room }
        ensures answers { WritesWithin (new.reply_size - limits.REPLY_HEADER)
            (λ bytes. SequencedCached call.entry.refused
            (series call.entry.compound.tag.now
            (context_after_sequence self.old.tree.book self.old.tree.world.limits.times call.entry
            (sequence_args_value args.now) new) operations.now)
            (sequence_args_value args.now) (sequence_done (sequence_args_value args.now) new.highest_slot) self.old
            bytes result self.new)
            out.old out.new }
        ensures settled { self.new.tree.log.held ≡ [] }
    {
        let start = out.len();
        let limit = new.reply_size as usize - REPLY_HEADER;
        let caller = call.caller;
        let context = Context {
            caller,
            now: call.now,
            times: self.times(),
            calling: Some(Calling {
                client: new.client,
                keeps_reply: args.keep,
            }),
            position: 1,
            count: call.compound.count,
            room: limit,
        };
        let given = sequence_given(args, new);
        let to_run = ToRun {
            operations,
            refused: call.refused,
        };
        let ended = call
            .compound
            .run_after_sequence(self, context, limit, given, to_run, out);
        self.keep_from(args, out, start);
        ended
    }

    /// Answers a COMPOUND that begins with a SEQUENCE. Returns the facts for its record.
    fn answer_sequence(
        &mut self,
        call: IncomingCall<'_>,
        args: &SequenceArgs,
        operations: &[u8],
        out: &mut Writer<A>,
    ) -> Ran
        requires short { length call.compound.tag.now ≤ limits.MAX_TAG }
        requires whole { length call.args.bytes.now ≤ call.args.record_len }
        requires settled { self.old.tree.log.held ≡ [] }
        requires some { 1 ≤ call.compound.count }
        requires room { limits.MAX_RESULTS ≤ out.old.room }
        ensures answers { WritesWithin limits.MAX_RESULTS
            (λ bytes. AnswersSequence call.entry (sequence_args_value args.now) operations.now (state_of self.old) bytes
            result (state_of self.new)) out.old out.new }
        ensures settled { self.new.tree.log.held ≡ [] }
    {
        let session = session_of(&args.session);
        let compound = call.compound;
        let asked = Sequence {
            slot: args.slot,
            number: args.number,
            highest: args.highest,
            count: compound.count,
            record_len: call.args.record_len,
            arguments: compared(self.lasting, call.args.bytes, operations.len()),
            caller: call.caller,
            now: second(call.now),
        };
        let passes = self.clients.passes(session, args.slot, args.number);
        match self.clients.begin(session, asked) {
            Begin::New(new) => {
                let ended = self.answer_new(call, args, new, operations, out);
                Ran {
                    kept: ended.changed | passes,
                    delayed: ended.delayed,
                }
            }
            Begin::Repeat => {
                put_cached(self.clients.results(session, args.slot), out);
                Ran::nothing()
            }
            Begin::Refused(status) => {
                put_refused(compound.tag, OP_SEQUENCE, status, out);
                Ran::nothing()
            }
        }
    }

    /// Answers a COMPOUND with sessions: its results are appended to `out`. Returns the facts for its record.
    pub fn answer_in_session(&mut self, call: IncomingCall<'_>, out: &mut Writer<A>) -> Ran
        requires short { length call.compound.tag.now ≤ limits.MAX_TAG }
        requires whole { length call.args.bytes.now ≤ call.args.record_len }
        requires settled { self.old.tree.log.held ≡ [] }
        requires room { limits.MAX_RESULTS ≤ out.old.room }
        ensures answers { WritesWithin limits.MAX_RESULTS
            (λ bytes. AnswersIncoming call.entry (state_of self.old) bytes result (state_of self.new)) out.old out.new }
        ensures numbered { IsNumberedFor (beginning call.entry.compound.minor_version call.entry.compound.count
            call.entry.compound.operations.now) }
        ensures settled { self.new.tree.log.held ≡ [] }
    {
        let compound = call.compound;
        match begin(compound.minor_version, compound.count, compound.operations) {
            Beginning::Ends(status) => {
                put_ended(compound.tag, status, out);
                Ran::nothing()
            }
            Beginning::Refuses(number, status) => {
                put_refused(compound.tag, number, status, out);
                Ran::nothing()
            }
            Beginning::Acts(lone) => {
                self.answer_alone(compound.tag, call.caller, call.now, &lone, out)
            }
            Beginning::Follows(args, operations) => {
                self.answer_sequence(call, &args, operations, out)
            }
        }
    }
}
