//! The client state that is kept over a restart (RFC 8881, section 2.10.6.5).
ghost use Rattle.std.specs.Prelude.{◌≡◌, is_some};
ghost use Rattle.std.specs.List.{list_all};
ghost use Rattle.node_tree.specs.World.{is_file_at};
ghost use Rattle.session_slots.specs.Registry.{client_at};
ghost use Rattle.compound_run.specs.ClientState as specs;
ghost use Rattle.compound_run.specs.State.{client_state_of};
ghost use Rattle.compound_run.specs.Views.{lent_view, open_view, opens_view};

use crate::limits::{MAX_COUNT, MAX_OWNER};
use crate::opens::Open;
use crate::server::Server;
use nfs_types::Limits;
use node_tree::{Kind, Tree};
use session_slots::Clients;
use std::alloc::{Allocator, Global};
use std::marker::Model;

/// The client state: the clients' records with their sessions and slots, the open files, and the number of the next
/// open file.
#[derive(Drop)]
pub struct ClientState<A: Allocator = Global> {
    /// The clients with their sessions.
    pub clients: Clients<A>,
    /// The open files, by rising number.
    pub opens: Vec<Open<A>, A>,
    /// The number of the next open file, from 1 on.
    pub next_open: u64,
}

impl<A: Allocator> Model for ClientState<A> {
    ghost use Rattle.compound_run.specs.ClientState.{ClientState};
    ghost use Rattle.compound_run.specs.Views.{opens_view};

    ghost Value = { ClientState };

    ghost view = { λ k. record { registry = k.clients; opens = opens_view k.opens.items; next_open = k.next_open } };
}

/// The client state, borrowed.
#[derive(Clone, Copy)]
pub struct Lent<'a, A: Allocator = Global> {
    /// The clients with their sessions.
    pub clients: &'a Clients<A>,
    /// The open files, by rising number.
    pub opens: &'a [Open<A>],
    /// The number of the next open file.
    pub next_open: u64,
}

/// Renews the leases of all clients in this second.
fn renew_all<A: Allocator + Copy>(clients: &mut Clients<A>, now: u64)
    ensures { clients.new ≡ clients.old }
{
    let mut at = 0;
    for _client in 0..clients.limits().clients() {
        let Some(number) = clients.client_from(at) else {
            return;
        };
        clients.renew(number, now);
        at = number.saturating_add(1);
    }
}

/// Whether the number is that of an existing file.
fn is_file_at<A: Allocator + Copy>(tree: &Tree<A>, number: u64) -> bool
    ensures { result ≡ is_file_at tree.now number }
{
    match tree.object(number) {
        Some(node) => matches!(node.kind(), Kind::File),
        None => false,
    }
}

/// Whether a client has a record.
fn has_record<A: Allocator + Copy>(clients: &Clients<A>, client: u64) -> bool
    ensures { result ≡ is_some (client_at clients.now client) }
{
    clients.record(client).is_some()
}

/// Whether an open may have this access: 1 to read, 2 to write, 3 for both.
fn is_access(access: u32) -> bool
    ensures { result ≡ specs.is_access access }
{
    1 <= access && access <= 3
}

/// Whether an open may have this seqid.
fn is_seqid(seqid: u32) -> bool
    ensures { result ≡ specs.is_seqid seqid }
{
    1 <= seqid
}

/// Whether the next open may have this number.
fn is_next(next: u64) -> bool
    ensures { result ≡ specs.is_next next }
{
    1 <= next && next <= MAX_COUNT
}

impl<A: Allocator + Copy> Open<A> {
    /// Whether it fits: its number was given out, the file exists, and its client has a record. Owner, access and seqid
    /// are within their bounds.
    fn fits(&self, tree: &Tree<A>, clients: &Clients<A>, next: u64) -> bool
        ensures { result ≡ specs.open_fits tree.now clients.now next (open_view self.now) }
    {
        self.number < next
            && (is_file_at(tree, self.object)
                && (has_record(clients, self.client)
                    && (self.owner.len() <= MAX_OWNER
                        && (is_access(self.access) && is_seqid(self.seqid)))))
    }
}

/// Whether each of these opens fits.
fn all_fit<A: Allocator + Copy>(
    opens: &[Open<A>],
    tree: &Tree<A>,
    clients: &Clients<A>,
    next: u64,
) -> bool
    ensures { result ≡ list_all (λ o. specs.open_fits tree.now clients.now next (open_view o)) opens.now }
{
    opens.iter().all(|open| open.fits(tree, clients, next))
}

/// Whether the numbers of these opens rise, from 1 on.
fn rise<A: Allocator>(opens: &[Open<A>]) -> bool
    ensures { result ≡ specs.rise_above 0 (opens_view opens.now) }
{
    let mut last = 0;
    for open in opens {
        if open.number <= last {
            return false;
        }
        last = open.number;
    }
    true
}

/// Whether a server can be restored over a tree with this client state, as `Server::restored` tests. The numbers of the
/// open files rise from 1 on and were given out, each file exists, and each client has a record.
pub fn opens_fit<A: Allocator + Copy>(tree: &Tree<A>, now: Lent<'_, A>) -> bool
    ensures { result ≡ specs.opens_fit tree.now (lent_view now.entry) }
{
    let most = tree.limits().opens();
    is_next(now.next_open)
        && (now.opens.len() <= most
            && (rise(now.opens) && all_fit(now.opens, tree, now.clients, now.next_open)))
}

impl<A: Allocator + Copy> ClientState<A> {
    /// No client ever had a record, and no file was ever open. These limits hold.
    pub fn nothing(alloc: A, limits: Limits) -> Self
        ensures { result ≡ specs.unknown limits }
    {
        ClientState {
            clients: Clients::new(alloc, limits),
            opens: Vec::new(alloc),
            next_open: 1,
        }
    }

    /// All of it, borrowed.
    pub fn lend(&self) -> Lent<'_, A>
        ensures { lent_view result ≡ self.now }
    {
        Lent {
            clients: &self.clients,
            opens: &self.opens,
            next_open: self.next_open,
        }
    }

    /// Renews the leases of all clients in this second. A client that is restored then has a lease again. Leases are no
    /// part of the model.
    pub fn renew_all(&mut self, now: u64)
        ensures { self.new ≡ self.old }
    {
        renew_all(&mut self.clients, now);
    }

    /// Whether the open files fit a tree and the clients.
    pub(crate) fn fits(&self, tree: &Tree<A>) -> bool
        ensures { result ≡ specs.opens_fit tree.now self.now }
    {
        opens_fit(tree, self.lend())
    }
}

impl<'a, A: Allocator + Copy> Lent<'a, A> {
    /// Borrows the client state of a server.
    pub fn of(server: &'a Server<A>) -> Self
        ensures { lent_view result ≡ client_state_of server.now }
    {
        Lent {
            clients: server.clients(),
            opens: server.opens(),
            next_open: server.next_numbers().open_file,
        }
    }
}
