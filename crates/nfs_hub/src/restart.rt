//! A server that starts over the state that a store kept, and replays the entries logged after it.
ghost use Rattle.std.specs.Prelude.{◌≡◌, true, false, option_map, Ok, Err, IfOk, OnOk};
ghost use Rattle.compound_run.specs.ClientState.{opens_fit};
ghost use Rattle.compound_run.specs.State.{restored};
ghost use Rattle.log_entries.specs.Entries as entries;
ghost use Rattle.log_entries.specs.Views.{called_of, entry_of, text_of};
ghost use Rattle.nfs_hub.specs.Answer.{REMEMBERED, started};
ghost use Rattle.nfs_hub.specs.Replaying.{BookEnds, Judges, ReplayEnds};
ghost use Rattle.nfs_hub.specs.internal.Replaying.{ReadsBook, BookGives};

use crate::server::{Service, remembered};
use compound_run::{Args, ClientState, MAX_RESULTS, Ran, Server};
use log_entries::{CallEntry, Entry, results_checksum};
use node_tree::Tree;
use rpc_record::read_call;
use session_slots::RestoreFault;
use std::alloc::{Allocator, Global};
use std::hash::RandomState;
use std::marker::Model;
use thiserror::Error;
use who_book::{Book, BookFault};
use xdr_wire::{Opaque, Writer};

/// Why an entry of a log can't be replayed.
#[derive(Clone, Copy, Debug, PartialEq, Eq, Error)]
pub enum ReplayFault {
    /// This server can't have logged it: it isn't a valid call, book or client, or its result
    /// differs now.
    #[error("an entry of the log has another result now")]
    Differs = 1,
    /// An allocation failed that didn't fail when the entry was logged.
    #[error("out of memory")]
    Memory = 2,
}

/// A server that starts. It begins with the state that a store kept, and replays the entries logged
/// after it.
#[derive(Drop)]
pub struct Restart<A: Allocator + Copy = Global> {
    server: Server<A>,
    /// Where results are written, compared and dropped.
    results: Writer<A>,
    /// Where books are allocated.
    global: Global,
}

impl<A: Allocator + Copy> Model for Restart<A> {
    ghost use Rattle.std.specs.Prelude.{◌≡◌, ◌≤◌, []};
    ghost use Rattle.compound_run.specs.Limits as limits;
    ghost use Rattle.compound_run.specs.State.{State};

    ghost Value = { State };

    ghost view = { λ r. r.server };

    ghost invariant = { λ r. (r.results.bytes ≡ []) × (limits.MAX_RESULTS ≤ r.results.room) };
}

/// Compares the result of a call with its entry.
fn judge(ran: Option<Ran>, call: &CallEntry<'_>, results: &[u8]) -> Result<(), ReplayFault>
    ensures { Judges (called_of call.entry.now) ran results.now result }
{
    let Some(ran) = ran else {
        return Err(ReplayFault::Differs);
    };
    if ran.delayed != call.delayed && ran.delayed.is_some() {
        return Err(ReplayFault::Memory);
    }
    if !ran.kept || ran.delayed != call.delayed || results_checksum(results) != call.checksum {
        return Err(ReplayFault::Differs);
    }
    Ok(())
}

/// The book of a text.
fn read_book(global: Global, text: Option<&str>) -> Result<Book, ReplayFault>
    ensures { ReadsBook result (option_map (λ text. text.now) text.entry) }
{
    match Book::from_text(global, text) {
        Ok(book) => Ok(book),
        Err(BookFault::Memory) => Err(ReplayFault::Memory),
        Err(_) => Err(ReplayFault::Differs),
    }
}

/// The book of a logged text.
fn book_in(global: Global, text: Option<Opaque<'_, 0xffff_ffff>>) -> Result<Book, ReplayFault>
    ensures { BookGives result (text_of text.entry) }
{
    let Some(text) = text else {
        return read_book(global, None);
    };
    match str::from_utf8(text.bytes) {
        Ok(text) => read_book(global, Some(text)),
        Err(_) => Err(ReplayFault::Differs),
    }
}

impl<A: Allocator + Copy> Restart<A> {
    /// A server over everything that was kept: the tree, the clients with their sessions, the open
    /// files and the book. `hasher` hashes the keys of its permission summaries.
    ///
    /// `Misfit`: an open file doesn't fit the tree, as [`Server::restored`] defines. `Memory`: only
    /// if all fit.
    pub fn over(
        alloc: A,
        global: Global,
        tree: Tree<A>,
        clients: ClientState<A>,
        book: Book,
        hasher: RandomState,
    ) -> Result<Self, RestoreFault>
        ensures fits { OnOk result (opens_fit tree clients ≡ true) }
        ensures misfit { result ≡ Err RestoreFault.Misfit → opens_fit tree clients ≡ false }
        ensures memory { result ≡ Err RestoreFault.Memory → opens_fit tree clients ≡ true }
        ensures ok { IfOk result (λ restart. restart ≡ restored tree clients book REMEMBERED) }
    {
        let server = Server::restored(alloc, tree, clients, book, remembered(), hasher)?;
        let results = Writer::new(alloc, MAX_RESULTS)?;
        Ok(Restart {
            server,
            results,
            global,
        })
    }

    /// Sets the second of a monotonic clock, as [`Server::set_second`] does. A replayed call renews
    /// its client's lease at this second. It is in no model.
    pub fn set_second(&mut self, second: u64)
        ensures { self.new ≡ self.old }
    {
        self.server.set_second(second);
    }

    /// Replays an entry. A call is run again, at its moment, and the same operation is refused
    /// memory; a client is expired; a book is loaded. A call that differs may have changed
    /// something: the replay must stop at it.
    pub fn replay(&mut self, entry: &Entry<'_>) -> Result<(), ReplayFault>
        ensures { ReplayEnds result (entry_of entry.entry.now) self.old self.new }
    {
        match entry {
            Entry::Call(call) => self.replay_call(call),
            Entry::ClientExpired(client) => {
                if !self.server.expire_client(*client) {
                    return Err(ReplayFault::Differs);
                }
                Ok(())
            }
            Entry::Book(text) => self.replay_book(*text),
        }
    }

    /// Runs a call again.
    fn replay_call(&mut self, call: &CallEntry<'_>) -> Result<(), ReplayFault>
        ensures { ReplayEnds result (entries.Call (called_of call.entry.now)) self.old self.new }
    {
        let bytes = call.bytes.bytes;
        let Ok(asked) = read_call(bytes) else {
            return Err(ReplayFault::Differs);
        };
        let Some(caller) = &asked.caller else {
            return Err(ReplayFault::Differs);
        };
        let args = Args {
            bytes: asked.arguments,
            record_len: bytes.len(),
        };
        let ran = self
            .server
            .replay(args, caller, call.now, call.delayed, &mut self.results);
        let judged = judge(ran, call, self.results.bytes());
        self.results.truncate(0);
        judged
    }

    /// Loads a book of this text; no text means the book without a file.
    fn replay_book(&mut self, text: Option<Opaque<'_, 0xffff_ffff>>) -> Result<(), ReplayFault>
        ensures { ReplayEnds result (entries.Loaded (text_of text.entry)) self.old self.new }
    {
        match book_in(self.global, text) {
            Ok(book) => self.load(book),
            Err(fault) => Err(fault),
        }
    }

    /// Loads a book.
    fn load(&mut self, book: Book) -> Result<(), ReplayFault>
        ensures { BookEnds result (Ok book) self.old self.new }
    {
        match self.server.reload(book) {
            Ok(_) => Ok(()),
            Err(_) => Err(ReplayFault::Differs),
        }
    }

    /// The server after the entries replayed until now.
    pub fn server(&self) -> &Server<A>
        ensures { result.now ≡ self.now }
    {
        &self.server
    }

    /// The server that serves from now on.
    pub(crate) fn into_service(self) -> Service<A>
        ensures { result ≡ started self }
    {
        Service::started(self.server)
    }
}
