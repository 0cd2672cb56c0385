//! The server and its connections.
ghost use Rattle.std.specs.Prelude.{◌≡◌, ◌≢◌, ◌↔◌, ◌≤◌, ◌<◌, ◌^◌, ℕ, List, [], ◌∷◌, ◌++◌, min, length, take, drop};
ghost use Rattle.std.specs.Prelude.{true, false, Some, None, Ok, Err, IfOk, IsErrOf, IsNone, IsOkUnless, MatchOption};
ghost use Rattle.std.specs.Prelude.{IfSome, IsTrue, OnOk, OnErr, option_map, is_err};
ghost use Rattle.nfs_types.specs.Limits.{standard};
ghost use Rattle.compound_run.specs.ClientState.{opens_fit};
ghost use Rattle.nfs_hub.specs.Answer.{Served, restored, started, with_lasting_sessions, with_sessions};
ghost use Rattle.nfs_hub.specs.Answer.{without_sessions};
ghost use Rattle.nfs_hub.specs.Machine.{Event, Connect, Piece, Take, Close, Reload, ClientExpired, BeginLog};

use crate::connection::{Connection, ConnectionFault};
use crate::fault::{HubFault, Unloaded};
use crate::restart::Restart;
use crate::server::Service;
use compound_run::{ClientState, Server};
use nfs_types::{Limits, Moment};
use node_tree::Tree;
use session_slots::RestoreFault;
use std::alloc::{AllocError, Allocator, Global};
use std::collections::BTreeMap;
use std::hash::RandomState;
use std::marker::Model;
use who_book::Book;

/// The most connections that are open at once in any profile, broken ones included. The limit of a
/// hub is that of its profile, [`Limits::connections`].
pub const MAX_CONNECTIONS: usize = 256;

/// A bound above the numbers of all connections.
const NUMBERS: u64 = 1 << 63;

/// The number of a connection. No number is used again.
#[derive(Clone, Copy, Debug)]
pub struct ConnId {
    number: u64,
}

impl Model for ConnId {
    ghost use Rattle.std.specs.Prelude.{ℕ};

    ghost Value = { ℕ };

    ghost view = { λ c. c.number };

    ghost inverse = { λ n. record { number = n } };
}

/// A server and its connections.
#[derive(Drop)]
pub struct Hub<A: Allocator + Copy = Global> {
    alloc: A,
    service: Service<A>,
    connections: BTreeMap<u64, Connection<A>, A>,
    next: u64,
}

impl<A: Allocator + Copy> Hub<A> {
    ghost use Rattle.nfs_hub.specs.Machine.{State};
    ghost use Rattle.nfs_hub.specs.Connection.{taken_of};
    ghost use Rattle.nfs_hub.specs.Hub.{IsHub, IsUnchanged, IsHistoryOf, Goes, PrefixGives, ConnectGives};
    ghost use Rattle.nfs_hub.specs.Hub.{ReloadGives, TakeGives, ConsumeGives, BreaksInPiece, broken_at, pending_at};
    ghost use Rattle.nfs_hub.specs.Hub.{most_connections};

    /// A hub of this server, with no connection open.
    fn over(alloc: A, service: Service<A>) -> Self
        ensures { IsHistoryOf service [] result }
    {
        Hub {
            alloc,
            service,
            connections: BTreeMap::new(alloc),
            next: 1,
        }
    }

    /// A hub over the sample tree, without sessions: a root with the file `notes` and the directory
    /// `pub`. The book of names takes only `Global`; this one has no names, and allocates nothing.
    /// `hasher` hashes the keys of the server's permission summaries. `Err`: there is no memory for
    /// the hub.
    pub fn bare(alloc: A, global: Global, hasher: RandomState) -> Result<Self, AllocError>
        ensures { IfOk result (λ hub. IsHistoryOf without_sessions [] hub) }
    {
        Ok(Hub::over(alloc, Service::without_sessions(alloc, global, hasher)?))
    }

    /// A hub over a root directory alone, with sessions, under the limits of the standard profile.
    /// The root's owner, group and mode are those of the book. `hasher` hashes the keys of the
    /// server's permission summaries. `Err`: there is no memory for the hub.
    pub fn new(alloc: A, book: Book, hasher: RandomState) -> Result<Self, AllocError>
        ensures { IfOk result (λ hub. IsHistoryOf (with_sessions standard book) [] hub) }
    {
        Hub::with_limits(alloc, Limits::standard(), book, hasher)
    }

    /// A hub as that of [`Hub::new`], under the limits of a profile.
    pub fn with_limits(
        alloc: A,
        limits: Limits,
        book: Book,
        hasher: RandomState,
    ) -> Result<Self, AllocError>
        ensures { IfOk result (λ hub. IsHistoryOf (with_sessions limits book) [] hub) }
    {
        Ok(Hub::over(alloc, Service::with_sessions(alloc, limits, book, hasher)?))
    }

    /// A hub over a root directory alone, with sessions that persist over a restart, for a store
    /// that begins. Otherwise it is that of [`Hub::with_limits`]. `Err`: there is no memory for the
    /// hub.
    pub fn lasting(
        alloc: A,
        limits: Limits,
        book: Book,
        hasher: RandomState,
    ) -> Result<Self, RestoreFault>
        ensures ok { IfOk result (λ hub. IsHistoryOf (with_lasting_sessions limits book) [] hub) }
        ensures err { IsOkUnless result RestoreFault.Memory }
    {
        Ok(Hub::over(
            alloc,
            Service::with_lasting_sessions(alloc, limits, book, hasher)?,
        ))
    }

    /// The hub of a server that was restarted, over everything that was kept. That is the tree, the
    /// clients with their sessions, and the open files. The sessions persist over the next restart
    /// too. `hasher` hashes the keys of the server's permission summaries. `Misfit`: an open file
    /// doesn't fit the tree, as [`Server::restored`] defines.
    pub fn restored(
        alloc: A,
        tree: Tree<A>,
        clients: ClientState<A>,
        book: Book,
        hasher: RandomState,
    ) -> Result<Self, RestoreFault>
        ensures fits { OnOk result (opens_fit tree clients ≡ true) }
        ensures misfit { result ≡ Err RestoreFault.Misfit → opens_fit tree clients ≡ false }
        ensures memory { result ≡ Err RestoreFault.Memory → opens_fit tree clients ≡ true }
        ensures ok { IfOk result (λ hub. IsHistoryOf (restored tree clients book) [] hub) }
    {
        Ok(Hub::over(
            alloc,
            Service::restored(alloc, tree, clients, book, hasher)?,
        ))
    }

    /// Sets the second of a monotonic clock. From now on leases are renewed and expire by it
    /// ([`Server::set_second`]). No reply changes.
    pub fn set_second(&mut self, second: u64)
        ensures { IsUnchanged self.old self.new }
    {
        self.service.set_second(second);
    }

    /// Expires the client that was silent longest, if one is due at this moment (RFC 8881, section
    /// 8.3). Its record and its sessions are removed, and its open files are closed; all else is
    /// unchanged. [`Server::silent`] decides which client is due. The event is logged if a log is
    /// kept. `None`: no client is due, or there is no memory for the entry, and nothing changes.
    pub fn expire_client(&mut self, now: Moment) -> Option<u64>
        ensures extends { MatchOption result
            ((first : Served) (events : List Event) → IsHistoryOf first events self.old → IsHistoryOf first events self.new)
            (λ client. (first : Served) (events : List Event) → IsHistoryOf first events self.old →
            IsHistoryOf first (ClientExpired client ∷ events) self.new) }
        ensures goes { IfSome result (λ client. Goes (ClientExpired client) self.old self.new) }
        ensures nothing { IsNone result → IsUnchanged self.old self.new }
    {
        let client = self.service.silent(now)?;
        if !self.service.expire_client(client) {
            return None;
        }
        Some(client)
    }

    /// Begins the log anew. What is kept over a restart is logged from now on; what was logged
    /// before is stored. It allocates no memory.
    pub fn begin_log(&mut self)
        ensures extends { (first : Served) (events : List Event) → IsHistoryOf first events self.old →
            IsHistoryOf first (BeginLog ∷ events) self.new }
        ensures goes { Goes BeginLog self.old self.new }
    {
        self.service.begin_log(self.alloc);
    }

    /// The log's entries since it was begun, as `log_entries` writes them. There is one for each
    /// call that is kept ([`Server::run_recorded`]), each loaded book and each expired client, in
    /// the order of these events. `None`: no log was begun.
    pub fn log(&self) -> Option<&[u8]>
        ensures { (s : State) → IsHub self.now s → option_map (λ bytes. bytes.now) result ≡ s.served.log }
    {
        self.service.log()
    }

    /// The server of these connections.
    pub fn server(&self) -> &Server<A>
        ensures { (s : State) → IsHub self.now s → s.served.state ≡ result.now }
    {
        self.service.server()
    }

    /// Loads another book of names, and gives back the previous one. From now on it decides the
    /// permissions of every call whose last byte comes later (RFC 8881, section 5.9), even if its
    /// first byte came before. The tree with its root's owner, the connections with their pending
    /// bytes, the sessions with their cached replies, the open files and the trail are unchanged.
    /// It runs no call. It allocates memory for its log entry alone.
    ///
    /// `Memory`: a log is kept, and there is no memory for the entry. `Exhausted`: the book's
    /// epoch, which begins at 1 and rises by 1 with each book, has no next one ([`next_epoch`]). In
    /// both cases the new book is given back, and nothing changes.
    pub fn reload(&mut self, book: Book) -> Result<Book, Unloaded>
        ensures extends { (first : Served) (events : List Event) → IsHistoryOf first events self.old →
            IsHistoryOf first (Reload book ∷ events) self.new }
        ensures goes { Goes (Reload book) self.old self.new }
        ensures gives { ReloadGives book result self.old self.new }
    {
        self.service.reload(book)
    }

    /// A hub that serves after a restart, with no connection open. All slots lag (RFC 8881, section
    /// 2.10.6.5). The trail's lines of replayed calls are forgotten: they were written when the
    /// calls first ran.
    pub fn started(alloc: A, restart: Restart<A>) -> Self
        ensures { IsHistoryOf (started restart) [] result }
    {
        Hub::over(alloc, restart.into_service())
    }

    /// The most connections that are open at once, broken ones included.
    pub fn most_connections(&self) -> usize
        ensures { result ≡ most_connections self.now }
    {
        self.service.server().tree().limits().connections()
    }

    /// Opens a connection. `TooMany` if and only if the limit of open connections is reached, which
    /// is that of the profile. Else
    /// `Exhausted` if and only if no number below 2^63 is left. Else `Memory` if an allocation
    /// fails. A refusal changes nothing.
    pub fn connect(&mut self) -> Result<ConnId, HubFault>
        ensures extends { (first : Served) (events : List Event) → IsHistoryOf first events self.old →
            IsHistoryOf first (Connect ∷ events) self.new }
        ensures goes { Goes Connect self.old self.new }
        ensures gives { ConnectGives result self.old self.new }
    {
        if self.connections.len() >= self.most_connections() {
            return Err(HubFault::TooMany);
        }
        if self.next >= NUMBERS {
            return Err(HubFault::Exhausted);
        }
        let number = self.next;
        let Ok(_) = self.connections.insert(number, Connection::new(self.alloc)) else {
            return Err(HubFault::Memory);
        };
        self.next += 1;
        Ok(ConnId { number })
    }

    /// Moves a connection's first pending bytes to the beginning of the buffer, up to the buffer's
    /// size, and returns how many. `NoSuch` if and only if no open connection has this number; then
    /// no event happens. A broken connection's bytes can be taken until it is closed.
    pub fn take_out(&mut self, conn: ConnId, buf: &mut [u8]) -> Result<usize, HubFault>
        ensures extends { IfOk result (λ n. (first : Served) (events : List Event) → IsHistoryOf first events self.old →
            IsHistoryOf first (Take conn n ∷ events) self.new) }
        ensures goes { IfOk result (λ n. Goes (Take conn n) self.old self.new) }
        ensures nothing { OnErr result ((first : Served) (events : List Event) → IsHistoryOf first events self.old →
            IsHistoryOf first events self.new) }
        ensures gives { TakeGives conn result self.old self.new buf.old buf.new }
    {
        let Some(bytes) = self.pending(conn) else {
            return Err(HubFault::NoSuch);
        };
        let n = buf.len().min(bytes.len());
        buf[..n].copy_from_slice(&bytes[..n]);
        self.consume(conn, n)
    }

    /// Lends the pending bytes of a connection. `None` if and only if no open connection has this
    /// number.
    pub fn pending(&self, conn: ConnId) -> Option<&[u8]>
        ensures { option_map (λ bytes. bytes.now) result ≡ pending_at self.now conn }
    {
        let connection = self.connections.get(&conn.number)?;
        Some(connection.pending.bytes())
    }

    /// Drops the first `most` pending bytes of a connection, or all if there are fewer, and returns
    /// how many. `NoSuch` if and only if no open connection has this number. The memory of the
    /// bytes is kept with the connection, for other replies.
    pub fn consume(&mut self, conn: ConnId, most: usize) -> Result<usize, HubFault>
        ensures extends { IfOk result (λ n. (first : Served) (events : List Event) → IsHistoryOf first events self.old →
            IsHistoryOf first (Take conn n ∷ events) self.new) }
        ensures goes { IfOk result (λ n. Goes (Take conn n) self.old self.new) }
        ensures nothing { OnErr result ((first : Served) (events : List Event) → IsHistoryOf first events self.old →
            IsHistoryOf first events self.new) }
        ensures gives { ConsumeGives conn most result self.old self.new }
    {
        match self.connections.get_mut(&conn.number) {
            Some(connection) => Ok(connection.consume(most)),
            None => Err(HubFault::NoSuch),
        }
    }

    /// Whether a connection is broken: no further byte of its stream is taken. `None` if and only
    /// if no open connection has this number.
    pub fn is_broken(&self, conn: ConnId) -> Option<bool>
        ensures { result ≡ broken_at self.now conn }
    {
        Some(self.connections.get(&conn.number)?.broken)
    }

    /// Whether a connection that isn't broken is inside a record; for a broken one nothing is
    /// stated.
    pub fn is_inside(&self, conn: ConnId) -> bool
        ensures { (s : State) → IsHub self.now s → broken_at self.now conn ≡ Some false →
            IfSome (s.connection conn) (λ c. IsTrue result ↔ (c.rest ≢ [])) }
    {
        match self.connections.get(&conn.number) {
            Some(connection) => connection.framer.is_inside(),
            None => false,
        }
    }

    /// Closes a connection, and drops its incomplete record and its pending bytes. `NoSuch` if and
    /// only if no open connection has this number.
    pub fn close(&mut self, conn: ConnId) -> Result<(), HubFault>
        ensures extends { (first : Served) (events : List Event) → IsHistoryOf first events self.old →
            IsHistoryOf first (Close conn ∷ events) self.new }
        ensures goes { Goes (Close conn) self.old self.new }
        ensures gives { MatchOption (broken_at self.old conn) (result ≡ Err HubFault.NoSuch) (λ was. result ≡ Ok tt) }
        ensures closed { IsNone (broken_at self.new conn) }
    {
        match self.connections.remove(&conn.number) {
            Some(_) => Ok(()),
            None => Err(HubFault::NoSuch),
        }
    }

    /// Takes the next piece of a connection's stream; all of its calls have this moment. Each
    /// record that is complete now is answered, and its reply is pending. `NoSuch` if and only if
    /// no open connection has this number. There is another fault if and only if the connection is
    /// broken afterwards. It is `Broken` if the stream or a record of it breaks, or if the
    /// connection was broken before. It is `Memory` if an allocation fails, and then the next
    /// record isn't answered.
    pub fn feed(&mut self, conn: ConnId, piece: &[u8], now: Moment) -> Result<(), HubFault>
        ensures extends { (first : Served) (events : List Event) → IsHistoryOf first events self.old →
            IsHistoryOf first (Piece conn piece.now now ∷ events) self.new }
        ensures goes { Goes (Piece conn piece.now now) self.old self.new }
        ensures no_such { IsErrOf result HubFault.NoSuch ↔ IsNone (broken_at self.old conn) }
        ensures broken { broken_at self.new conn ≡ option_map (λ was. is_err result) (broken_at self.old conn) }
        ensures stays { broken_at self.old conn ≡ Some true → result ≡ Err HubFault.Broken }
        ensures breaks { result ≡ Err HubFault.Broken → broken_at self.old conn ≡ Some false →
            BreaksInPiece conn piece.now now self.old self.new }
        ensures faults { (result ≢ Err HubFault.TooMany) × (result ≢ Err HubFault.Exhausted) }
    {
        let Some(connection) = self.connections.get_mut(&conn.number) else {
            return Err(HubFault::NoSuch);
        };
        connection
            .feed(&mut self.service, piece, now)
            .map_err(|fault| match fault {
                ConnectionFault::Broken => HubFault::Broken,
                ConnectionFault::Memory => HubFault::Memory,
            })
    }
    /// Takes a prefix of the next piece of a connection's stream, and returns its length. The
    /// prefix ends with the last byte of the first record that ends in the piece. If no record ends
    /// in it, the prefix is the whole piece. The record is answered at this moment, and its reply
    /// is pending. Feeding the rest of the piece after that has the effect that [`Hub::feed`] of
    /// the whole piece would have. At most one record runs.
    ///
    /// The faults are those of [`Hub::feed`]; if the piece breaks the connection, no record is
    /// answered.
    pub fn feed_record(
        &mut self,
        conn: ConnId,
        piece: &[u8],
        now: Moment,
    ) -> Result<usize, HubFault>
        ensures extends { (first : Served) (events : List Event) → IsHistoryOf first events self.old →
            IsHistoryOf first (Piece conn (take (taken_of result piece.now) piece.now) now ∷ events) self.new }
        ensures goes { Goes (Piece conn (take (taken_of result piece.now) piece.now) now) self.old self.new }
        ensures prefix { PrefixGives conn piece.now result self.old self.new }
        ensures within { IfOk result (λ n. n ≤ length piece.now) }
        ensures further { IfOk result (λ n. 0 < length piece.now → 0 < n) }
        ensures no_such { IsErrOf result HubFault.NoSuch ↔ IsNone (broken_at self.old conn) }
        ensures broken { broken_at self.new conn ≡ option_map (λ was. is_err result) (broken_at self.old conn) }
        ensures stays { broken_at self.old conn ≡ Some true → result ≡ Err HubFault.Broken }
        ensures breaks { result ≡ Err HubFault.Broken → broken_at self.old conn ≡ Some false →
            BreaksInPiece conn piece.now now self.old self.new }
        ensures faults { (result ≢ Err HubFault.TooMany) × (result ≢ Err HubFault.Exhausted) }
    {
        let Some(connection) = self.connections.get_mut(&conn.number) else {
            return Err(HubFault::NoSuch);
        };
        match connection.feed_record(&mut self.service, piece, now) {
            Ok(n) => Ok(n),
            Err(ConnectionFault::Broken) => Err(HubFault::Broken),
            Err(ConnectionFault::Memory) => Err(HubFault::Memory),
        }
    }
}
