//! Clients and their sessions, by number (RFC 8881, sections 2.4 and 2.10).
//!
//! Each call makes one change of the registry. [`crate::Clients`] defines its meaning by the histories of calls, and
//! keeps records and sessions orderly.
ghost use Rattle.std.specs.Prelude.{◌≡◌, ◌≤◌, ◌<◌, length, IfSome};
ghost use Rattle.std.specs.Option.{option_map};
ghost use Rattle.session_slots.specs.Covering.{all_lagging, lagging_at};
ghost use Rattle.session_slots.specs.Keeping.{is_created, last_at};
ghost use Rattle.session_slots.specs.Slots.{finished};
ghost use Rattle.session_slots.specs.Registry.{nobody, session_at, results_at, cache_size, most_cached};
ghost use Rattle.session_slots.specs.Registry.{confirmed_entry};
ghost use Rattle.session_slots.specs.Registry.{with_session, with_place};
ghost use Rattle.session_slots.specs.Sequencing.{sequence_begin, sequence_begun};
ghost use Rattle.session_slots.specs.Views.{asked_of, bytes_of};

use crate::changes::{confirmed_in, lag_each, renew};
use crate::client::Client;
use crate::session::{Begin, Sequence, Session};
use nfs_types::{Limits, Status};
use std::alloc::{Allocator, Global};
use std::collections::BTreeMap;
use std::marker::Model;

/// Clients and their sessions, and the numbers of the next ones.
#[derive(Drop)]
pub struct Registry<A: Allocator = Global> {
    pub(crate) alloc: A,
    pub(crate) limits: Limits,
    pub(crate) clients: BTreeMap<u64, Client<A>, A>,
    pub(crate) sessions: BTreeMap<u64, Session<A>, A>,
    pub(crate) next_client: u64,
    pub(crate) next_session: u64,
    // the second of a monotonic clock, if one is set; it isn't part of the model
    pub(crate) steady: Option<u64>,
}

impl<A: Allocator> Model for Registry<A> {
    ghost use Rattle.session_slots.specs.Registry.{Registry};

    ghost Value = { Registry };

    ghost view = { λ r. record {
      limits = r.limits;
      clients = r.clients.entries;
      sessions = r.sessions.entries;
      next_client = r.next_client;
      next_session = r.next_session;
    } };
}

impl<A: Allocator + Copy> Registry<A> {
    /// No client and no session, under these limits.
    pub fn new(alloc: A, limits: Limits) -> Self
        ensures { result ≡ nobody limits }
    {
        Registry {
            alloc,
            limits,
            clients: BTreeMap::new(alloc),
            sessions: BTreeMap::new(alloc),
            next_client: 1,
            next_session: 1,
            steady: None,
        }
    }

    /// The limits, which never change.
    pub fn limits(&self) -> Limits
        ensures { result ≡ self.now.limits }
    {
        self.limits
    }

    /// The client ID of an owner's confirmed record.
    pub fn confirmed_of(&self, owner: &[u8]) -> Option<u64>
        ensures { result ≡ option_map (λ c. c.number) (confirmed_entry self.now owner.now) }
    {
        confirmed_in(&self.clients, owner).map(|client| client.number())
    }

    /// Begins a call on a slot of a session.
    fn begin_on_slot(&mut self, session: u64, asked: Sequence<'_>) -> Begin
        requires { length (bytes_of asked.arguments) ≤ asked.record_len }
        ensures answer { result ≡ sequence_begin self.old session (asked_of asked.entry) }
        ensures begun { self.new ≡ sequence_begun self.old session (asked_of asked.entry) }
    {
        match self.sessions.get_mut(&session) {
            Some(session) => session.begin(asked),
            None => Begin::Refused(Status::BadSession),
        }
    }

    /// Renews the lease of a session's client in this second.
    #[tactic(auto, using(crate::proofs::Restored::changed_by_nothing))]
    fn renew_of(&mut self, session: u64, now: u64)
        ensures { self.new ≡ self.old }
    {
        let now = self.second_at(now);
        if let Some(session) = self.sessions.get(&session) {
            let client = session.client();
            renew(&mut self.clients, client, now);
        }
    }

    /// Begins a call on a slot of a session. If it is new or a retry, its client's lease is renewed.
    pub fn begin(&mut self, session: u64, asked: Sequence<'_>) -> Begin
        requires { length (bytes_of asked.arguments) ≤ asked.record_len }
        ensures answer { result ≡ sequence_begin self.old session (asked_of asked.entry) }
        ensures begun { self.new ≡ sequence_begun self.old session (asked_of asked.entry) }
    {
        let now = asked.now;
        let begun = self.begin_on_slot(session, asked);
        if !matches!(begun, Begin::Refused(_)) {
            self.renew_of(session, now);
        }
        begun
    }

    /// The results that a slot caches.
    pub fn results(&self, session: u64, slot: u32) -> &[u8]
        ensures kept { result.now ≡ results_at self.now session slot }
        ensures few { length result.now ≤ most_cached (session_at self.now session) }
    {
        match self.sessions.get(&session) {
            Some(session) => match session.slot(slot) {
                Some(slot) => slot.results(),
                None => &[],
            },
            None => &[],
        }
    }

    /// Caches the results of the newest call of a slot.
    pub fn keep(&mut self, session: u64, slot: u32, results: &[u8])
        requires slot { IfSome (session_at self.old session) (λ s. slot < s.granted.slots) }
        requires few { IfSome (session_at self.old session) (λ s. length results.now ≤ cache_size s.granted) }
        ensures { self.new ≡ with_session session (with_place slot (λ p. finished p results.now)) self.old }
    {
        if let Some(session) = self.sessions.get_mut(&session) {
            session.keep(slot, results);
        }
    }

    /// The sequence ID of the last call of a slot. 0 if none is cached, or the slot doesn't exist.
    pub fn last_number(&self, session: u64, slot: u32) -> u32
        ensures { result ≡ last_at self.now session slot }
    {
        match self.sessions.get(&session) {
            Some(session) => match session.slot(slot) {
                Some(slot) => slot.last_number(),
                None => 0,
            },
            None => 0,
        }
    }

    /// Whether this is the sequence ID of a client's last CREATE_SESSION.
    pub fn is_created(&self, client: u64, sequence: u32) -> bool
        ensures { result ≡ is_created self.now client sequence }
    {
        match self.clients.get(&client) {
            Some(client) => client.cached_result(sequence).is_some(),
            None => false,
        }
    }

    /// Makes a slot lag, if it exists.
    pub fn lag(&mut self, session: u64, slot: u32)
        ensures { self.new ≡ lagging_at session slot self.old }
    {
        if let Some(session) = self.sessions.get_mut(&session) {
            session.lag(slot);
        }
    }

    /// Makes all slots of all sessions lag.
    pub fn lag_all(&mut self)
        ensures { self.new ≡ all_lagging self.old }
    {
        lag_each(&mut self.sessions);
    }
}
