//! The server: a tree of objects, with its guard and a book of names, which runs COMPOUNDs.
ghost use Rattle.std.specs.Prelude.{◌≡◌, ◌≤◌, [], length, true, false, if◌then◌else◌, is_some, Err, IfOk, IfSome};
ghost use Rattle.std.specs.Prelude.{IsSome, MatchOption, Ok, OnErr, OnOk};
ghost use Rattle.std.specs.NonZero.{non_zero_usize_get};
ghost use Rattle.session_slots.specs.Registry.{client_at};
ghost use Rattle.access_guard.specs.Epochs.{next_epoch};
ghost use Rattle.access_guard.specs.Memory.{Agrees};
ghost use Rattle.compound_run.specs.Delaying.{RunsDelaying};
ghost use Rattle.compound_run.specs.InSession.{AnswersInSession};
ghost use Rattle.compound_run.specs.ClientState.{opens_fit};
ghost use Rattle.compound_run.specs.Limits as limits;
ghost use Rattle.compound_run.specs.Recorded.{RunsRecorded};
ghost use Rattle.compound_run.specs.Replaying.{IsNumbered, ready, ready_of};
ghost use Rattle.compound_run.specs.Compound.{args_form, args_in};
ghost use Rattle.xdr_wire.specs.Reading.{read_at};
ghost use Rattle.compound_run.specs.State.{fresh, next_numbers, restored, with_book, without_client};
ghost use Rattle.compound_run.specs.State.{with_lagging_slots, without_lines};
ghost use Rattle.compound_run.specs.State.{Answers, RunsBare};
ghost use Rattle.compound_run.specs.Views.{called, opens_view};

use crate::client_state::ClientState;
use crate::compound::CompoundArgs;
use crate::context::Context;
use crate::counts::{CallCounts, bytes_after};
use crate::in_session::IncomingCall;
use crate::kept::Ran;
use crate::limits::{MAX_RESULTS, REFUSAL_ROOM};
use crate::opens::Open;
use crate::realm::Realm;
use crate::sessions::second;
use access_guard::{Guard, GuardedTree};
use nfs_types::Moment;
use node_tree::Tree;
use rpc_record::Caller;
use session_slots::{Clients, NextNumbers, RestoreFault};
use std::alloc::{AllocError, Allocator, Global};
use std::hash::RandomState;
use std::marker::Model;
use std::num::NonZeroUsize;
use who_book::Book;
use xdr_wire::Writer;

/// The seconds of a lease: a client whose lease wasn't renewed for longer may expire.
const LEASE: u64 = 90;

/// The arguments of a COMPOUND.
#[derive(Clone, Copy)]
pub struct Args<'a> {
    /// The bytes after the call's header.
    pub bytes: &'a [u8],
    /// The byte count of the call's record.
    pub record_len: usize,
}

/// The end of a COMPOUND.
#[derive(Clone, Copy, Debug, PartialEq, Eq)]
pub enum RunEnd {
    /// The COMPOUND has results.
    Replied,
    /// The tag, the minor version or the operation count can't be decoded, and no results are written.
    Garbage,
}

/// A file server (RFC 8881).
#[derive(Drop)]
pub struct Server<A: Allocator + Copy = Global> {
    realm: Realm<A>,
}

impl<A: Allocator + Copy> Model for Server<A> {
    ghost use Rattle.std.specs.Prelude.{◌≡◌, ◌+◌, [], length};
    ghost use Rattle.compound_run.specs.State.{State};
    ghost use Rattle.compound_run.specs.Views.{state_of};

    ghost Value = { State };

    ghost view = { λ s. state_of s.realm };

    ghost invariant = { λ s. s.realm.tree.log.held ≡ [] };
}

impl<A: Allocator + Copy> Server<A> {
    /// A server of this tree, which has run nothing yet, and whose sessions aren't persistent. It remembers summaries
    /// of at most `capacity` pairs of an access control list (ACL) and a caller, whose keys are hashed by `hasher`.
    /// `Err`: an allocation fails.
    pub fn new(
        alloc: A,
        tree: Tree<A>,
        book: Book,
        capacity: NonZeroUsize,
        hasher: RandomState,
    ) -> Result<Self, AllocError>
        ensures { IfOk result (λ server. server ≡ fresh tree book (non_zero_usize_get capacity)) }
    {
        let limits = tree.limits();
        Ok(Server {
            realm: Realm {
                alloc,
                tree: GuardedTree::new(alloc, tree, book, capacity, hasher)?,
                opens: Vec::new(alloc),
                next_open: 1,
                clients: Clients::new(alloc, limits),
                lasting: false,
                counts: CallCounts::new(alloc)?,
            },
        })
    }

    /// A server over a tree and the clients from before a restart, which fit. `Err`: an allocation fails.
    fn lasting(
        alloc: A,
        tree: Tree<A>,
        client_state: ClientState<A>,
        book: Book,
        capacity: NonZeroUsize,
        hasher: RandomState,
    ) -> Result<Self, AllocError>
        ensures { IfOk result (λ server. server ≡ restored tree client_state book (non_zero_usize_get capacity)) }
    {
        let guarded = GuardedTree::new(alloc, tree, book, capacity, hasher)?;
        Ok(Server {
            realm: Realm {
                alloc,
                tree: guarded,
                opens: client_state.opens,
                next_open: client_state.next_open,
                clients: client_state.clients,
                lasting: true,
                counts: CallCounts::new(alloc)?,
            },
        })
    }

    /// A server that continues after a restart over the restored state: the tree, the clients with their sessions, and
    /// the open files (RFC 8881, section 2.10.6.5). Its sessions are persistent: they survive the next restart too.
    /// CREATE_SESSION grants CREATE_SESSION4_FLAG_PERSIST if it is requested.
    ///
    /// `Misfit`: the open files don't fit. An open's number isn't above those before it, or wasn't given out yet. Its
    /// file doesn't exist, or its client has no record. Its owner has more than 1,024 bytes, its access isn't 1, 2 or
    /// 3, or its seqid is 0. Or they are more than the profile permits, or the number of the next one is 0 or above
    /// 2^63.
    pub fn restored(
        alloc: A,
        tree: Tree<A>,
        client_state: ClientState<A>,
        book: Book,
        capacity: NonZeroUsize,
        hasher: RandomState,
    ) -> Result<Self, RestoreFault>
        ensures fits { OnOk result (opens_fit tree client_state ≡ true) }
        ensures misfit { result ≡ Err RestoreFault.Misfit → opens_fit tree client_state ≡ false }
        ensures memory { result ≡ Err RestoreFault.Memory → opens_fit tree client_state ≡ true }
        ensures ok { IfOk result (λ server. server ≡ restored tree client_state book (non_zero_usize_get capacity)) }
    {
        if !client_state.fits(&tree) {
            return Err(RestoreFault::Misfit);
        }
        Ok(Server::lasting(alloc, tree, client_state, book, capacity, hasher)?)
    }

    /// Runs a COMPOUND without a session at a moment (RFC 8881, section 16.2): its operations in turn, up to and
    /// including the first that isn't OK. Its results are appended to `out`. They are at most [`MAX_RESULTS`] bytes,
    /// and the room must suffice for that.
    ///
    /// Another minor version than 1 answers MINOR_VERS_MISMATCH, and more than 16 operations answer TOO_MANY_OPS, with
    /// no results. The operations of sessions, and unsupported ones, answer NOTSUPP. CREATE, LINK, NVERIFY, OPEN,
    /// RENAME, SETATTR, VERIFY and WRITE answer DELAY if an allocation fails, and then nothing changes. No other
    /// operation needs an allocation.
    #[tactic(auto, unfolding(crate::specs::State::fate))]
    pub fn run_bare(
        &mut self,
        args: Args<'_>,
        caller: &Caller,
        now: Moment,
        out: &mut Writer<A>,
    ) -> RunEnd
        requires room { limits.MAX_RESULTS ≤ out.old.room }
        ensures answers { RunsBare (Answers self.old (called args.entry caller.now now)) result out.old out.new
            self.new }
    {
        let Some(compound) = CompoundArgs::read(args.bytes) else {
            return RunEnd::Garbage;
        };
        let context = Context {
            caller,
            now,
            times: self.realm.times(),
            calling: None,
            position: 0,
            count: compound.count,
            room: MAX_RESULTS - REFUSAL_ROOM,
        };
        compound.run(&mut self.realm, context, out);
        RunEnd::Replied
    }

    /// Runs a COMPOUND with sessions at a moment (RFC 8881, sections 2.10.6 and 16.2). It is refused, is a retry, or is
    /// run. Its results are appended to `out`. They are at most [`MAX_RESULTS`] bytes, and the room must suffice for
    /// that.
    ///
    /// After a SEQUENCE the operations run in turn, up to and including the first that isn't OK, within what the
    /// session was granted. Their results are cached. A retry of the last call of a slot gets the cached reply, and
    /// changes nothing. EXCHANGE_ID, CREATE_SESSION, DESTROY_SESSION and DESTROY_CLIENTID are each the only operation
    /// of their COMPOUND. The operations that answer DELAY in [`Server::run_bare`] do here too if an allocation fails,
    /// and EXCHANGE_ID and a new CREATE_SESSION do as well. Then nothing changes.
    #[tactic(auto, using(crate::proofs::Replying::recorded_some, crate::proofs::Replying::recorded_none))]
    pub fn run(
        &mut self,
        args: Args<'_>,
        caller: &Caller,
        now: Moment,
        out: &mut Writer<A>,
    ) -> RunEnd
        requires whole { length args.bytes.now ≤ args.record_len }
        requires room { limits.MAX_RESULTS ≤ out.old.room }
        ensures answers { RunsBare (AnswersInSession self.old (called args.entry caller.now now)) result out.old out.new
            self.new }
    {
        match self.run_recorded(args, caller, now, out) {
            Some(_) => RunEnd::Replied,
            None => RunEnd::Garbage,
        }
    }

    /// Runs a COMPOUND as [`Server::run`] does, and returns the facts for the call's record. `None`: the tag, the minor
    /// version or the operation count can't be decoded, and no results are written. The sequence ID that a call encodes
    /// is a number of 32 bits (`numbered`).
    pub fn run_recorded(
        &mut self,
        args: Args<'_>,
        caller: &Caller,
        now: Moment,
        out: &mut Writer<A>,
    ) -> Option<Ran>
        requires whole { length args.bytes.now ≤ args.record_len }
        requires room { limits.MAX_RESULTS ≤ out.old.room }
        ensures answers { RunsRecorded self.old (called args.entry caller.now now) result out.old out.new self.new }
        ensures numbered { IsNumbered (called args.entry caller.now now) }
    {
        self.run_delaying(args, caller, now, None, out)
    }

    /// Runs a COMPOUND as [`Server::run`] does. The operation at a given place after SEQUENCE fails its allocation, if
    /// a place is given.
    #[tactic(auto, unfolding(crate::specs::InSession::fate, crate::specs::Replaying::IsNumbered))]
    fn run_delaying(
        &mut self,
        args: Args<'_>,
        caller: &Caller,
        now: Moment,
        refused: Option<u32>,
        out: &mut Writer<A>,
    ) -> Option<Ran>
        requires whole { length args.bytes.now ≤ args.record_len }
        requires room { limits.MAX_RESULTS ≤ out.old.room }
        ensures answers { RunsDelaying refused self.old (called args.entry caller.now now) result out.old out.new
            self.new }
        ensures numbered { IsNumbered (called args.entry caller.now now) }
    {
        let Some(compound) = CompoundArgs::read(args.bytes) else {
            return None;
        };
        let call = IncomingCall {
            args,
            compound,
            caller,
            now,
            refused,
        };
        let start = out.len();
        let ran = self.realm.answer_in_session(call, out);
        self.realm
            .counts
            .note_first(bytes_after(out.bytes(), start));
        Some(ran)
    }

    /// Replays a logged call, as [`Server::run_recorded`] does, after its slot is marked as lagging: the slot may have
    /// accepted calls that weren't logged. The call is then new if its sequence ID is 1 to 2^20 ahead of the one that
    /// the slot caches.
    ///
    /// `delayed` is the place of the operation whose allocation failed, from the call's record (see [`Ran`]). Its
    /// allocation fails here too: it is answered DELAY and isn't run. An operation that never allocates memory runs
    /// all the same; then the place in [`Ran`] is another one.
    pub fn replay(
        &mut self,
        args: Args<'_>,
        caller: &Caller,
        now: Moment,
        delayed: Option<u32>,
        out: &mut Writer<A>,
    ) -> Option<Ran>
        requires whole { length args.bytes.now ≤ args.record_len }
        requires room { limits.MAX_RESULTS ≤ out.old.room }
        ensures answers { RunsDelaying delayed (ready (called args.entry caller.now now) self.old)
            (called args.entry caller.now now) result out.old out.new self.new }
        ensures numbered { IsNumbered (called args.entry caller.now now) }
    {
        self.lag(args);
        self.run_delaying(args, caller, now, delayed, out)
    }

    /// Marks the slot of a call as lagging, if the call has one.
    fn lag(&mut self, args: Args<'_>)
        ensures { self.new ≡ ready_of (args_in (read_at args_form args.entry.bytes.now)) self.old }
    {
        let Some(compound) = CompoundArgs::read(args.bytes) else {
            return;
        };
        self.realm.lag_for(compound);
    }

    /// Whether the clients, sessions or open files are enough for a silent client to expire.
    fn is_crowded(&self) -> bool {
        let limits = self.realm.tree.limits();
        let (records, sessions) = self.realm.clients.counts();
        records > limits.clients() / 2
            || sessions > limits.sessions() / 2
            || self.realm.opens.len() > limits.opens() / 2
    }

    /// The client to expire at this moment, if any. None expires while at most half of the limits of clients, sessions
    /// and open files is in use. Its lease wasn't renewed for more than 90 seconds, or 10 for a run of `nfsc`. Of
    /// several it is the one whose lease ended first.
    pub fn silent(&self, now: Moment) -> Option<u64>
        ensures { IfSome result (λ client. IsSome (client_at self.now.realm.registry client)) }
    {
        if !self.is_crowded() {
            return None;
        }
        self.realm.clients.silent(second(now), LEASE)
    }

    /// Sets the second of a monotonic clock. From now on leases are renewed and expire by it (RFC 8881, section 8.3).
    /// They no longer depend on the moments of calls, whose clock can be set. No model has this second.
    pub fn set_second(&mut self, second: u64)
        ensures { self.new ≡ self.old }
    {
        self.realm.clients.set_second(second);
    }

    /// Expires a client: its record is removed with its sessions, and its open files are closed; all else stays (RFC
    /// 8881, section 8.3). `false`: it has no record, and nothing changes. It allocates no memory.
    pub fn expire_client(&mut self, client: u64) -> bool
        ensures live { result ≡ is_some (client_at self.old.realm.registry client) }
        ensures expired { self.new ≡ (if result then without_client client self.old else self.old) }
    {
        if !self.realm.clients.expire(client) {
            return false;
        }
        self.realm.end_opens_of(Some(client));
        true
    }

    /// Loads another book, and returns the previous one. From the next call on, ACLs are evaluated for each caller by
    /// the new book, and no summary that was remembered before is used again. The tree with its owner, the open files,
    /// the clients with their sessions, and the trail stay. It allocates no memory.
    ///
    /// `Err`: no epoch is left ([`next_epoch`]); the new book is returned, and nothing changes.
    pub fn reload(&mut self, book: Book) -> Result<Book, Book>
        ensures given { MatchOption (next_epoch self.old.settings.epoch) (result ≡ Err book)
            (λ epoch. result ≡ Ok self.old.settings.book) }
        ensures ok { OnOk result (self.new ≡ with_book book self.old) }
        ensures err { OnErr result (self.new ≡ self.old) }
    {
        self.realm.tree.reload(book)
    }

    /// The numbers of the next client, the next session and the next open file.
    pub fn next_numbers(&self) -> NextNumbers
        ensures { result ≡ next_numbers self.now }
    {
        let (client, session) = self.realm.clients.next_numbers();
        NextNumbers {
            client,
            session,
            open_file: self.realm.next_open,
        }
    }

    /// The tree.
    pub fn tree(&self) -> &Tree<A>
        ensures { result.now ≡ self.now.realm.world }
    {
        self.realm.tree.tree()
    }

    /// Forgets the lines of the trail and the counts of calls, and counts from 0 again. The lines of calls that are
    /// replayed at a start are then not reported twice. It allocates no memory.
    pub fn forget_lines(&mut self)
        ensures { self.new ≡ without_lines self.old }
    {
        self.realm.tree.forget();
        self.realm.counts.forget();
    }

    /// Marks all slots as lagging, as after a restart: each may have accepted calls after the one that it caches (RFC
    /// 8881, section 2.10.6.5). It allocates no memory.
    pub fn lag_all(&mut self)
        ensures { self.new ≡ with_lagging_slots self.old }
    {
        self.realm.clients.lag_all();
    }

    /// The book of names.
    pub fn book(&self) -> &Book
        ensures { result.now ≡ self.now.settings.book }
    {
        self.realm.tree.book()
    }

    /// The epoch of the book, counted from 1: it grows by 1 with each book that is loaded.
    pub fn epoch(&self) -> u64
        ensures { result ≡ self.now.settings.epoch }
    {
        self.realm.tree.epoch()
    }

    /// The guard, with the trail. Its remembered summaries agree with the current ACLs.
    pub fn guard(&self) -> &Guard<A>
        ensures log { result.now.log ≡ record { held = []; trail = self.now.trail; total = self.now.total } }
        ensures capacity { result.now.memory.capacity ≡ self.now.settings.capacity }
        ensures agrees { Agrees result.now.memory.remembered self.now.settings.book self.now.settings.epoch
            self.now.realm.world }
    {
        self.realm.tree.guard()
    }

    /// How often each operation was answered with each status, since the server was made or its lines were forgotten.
    pub fn call_counts(&self) -> &CallCounts<A> {
        &self.realm.counts
    }

    /// The clients with their sessions.
    pub fn clients(&self) -> &Clients<A>
        ensures { result.now ≡ self.now.realm.registry }
    {
        &self.realm.clients
    }

    /// The open files, by rising number.
    pub fn opens(&self) -> &[Open<A>]
        ensures { opens_view result.now ≡ self.now.realm.opens }
    {
        &self.realm.opens
    }
}
