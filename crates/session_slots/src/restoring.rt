//! Clients, sessions and slots of before a restart (RFC 8881, section 2.10.6.5).
ghost use Rattle.std.specs.Prelude.{◌≡◌, ◌≤◌, ◌<◌, true, nat_le, find, length, OnOk, OnErr, IfSome};
ghost use Rattle.std.specs.Option.{option_map, option_copied};
ghost use Rattle.std.specs.Map.{keys_of};
ghost use Rattle.std.specs.BTreeMap.{insert_entry};
ghost use Rattle.std.specs.Ordering.{nat_cmp};
ghost use Rattle.session_slots.specs.Registry.{client_at, session_at, cache_size};
ghost use Rattle.session_slots.specs.Orderly.{has_form, is_cached_refusal};
ghost use Rattle.session_slots.specs.Sequencing.{HasSlots};
ghost use Rattle.session_slots.specs.Restoring.{IsRising, number_from, numbers_fit, record_fits, with_record};
ghost use Rattle.session_slots.specs.Restoring.{is_within, is_home, session_fits, with_restored, slot_fits};
ghost use Rattle.session_slots.specs.Restoring.{with_cached};
ghost use Rattle.session_slots.specs.Restoring.{held_of, kept_at, with_numbers};
ghost use Rattle.session_slots.specs.Views.{client_of, kept_of};
ghost use Rattle.session_slots.specs.declared.restoring.RestoreFault.TheVariants.{Memory};

use crate::changes::{add_client, add_session};
use crate::client::{Client, Record};
use crate::limits::{END, LEAST_REPLY, MOST_BYTES, MOST_OPERATIONS, MOST_OWNER, MOST_SLOTS};
use crate::registry::Registry;
use crate::session::{Channel, Held, Session};
use crate::slot::CachedCall;
use nfs_types::Status;
use std::alloc::{AllocError, Allocator};
use std::collections::BTreeMap;
use thiserror::Error;

/// The numbers of the next client, the next session and the next open file. None is given twice, over any number of
/// restarts.
#[derive(Clone, Copy, PartialEq, Eq)]
pub struct NextNumbers {
    /// The number of the next client, from 1 on.
    pub client: u64,
    /// The number of the next session, from 1 on.
    pub session: u64,
    /// The number of the next open file, from 1 on.
    pub open_file: u64,
}

/// Why a record or a session isn't restored.
#[derive(Clone, Copy, Debug, PartialEq, Eq, Error)]
pub enum RestoreFault {
    /// It doesn't fit beside the existing ones.
    #[error("a record or a session that can't stand beside the others")]
    Misfit,
    /// An allocation failed.
    #[error("out of memory")]
    Memory,
}

impl From<AllocError> for RestoreFault {
    ghost from_gives = { λ _ fault. fault ≡ Memory };

    fn from(_: AllocError) -> Self {
        RestoreFault::Memory
    }
}

/// Whether a refusal of CREATE_SESSION is cached with its sequence ID.
fn is_cached_refusal(status: Status) -> bool
    ensures { result ≡ is_cached_refusal status }
{
    match status {
        Status::NoSpc | Status::TooSmall | Status::ClidInUse => true,
        _ => false,
    }
}

/// Whether a record has a form, in which it is stored.
fn has_form(kept: Record<'_>) -> bool
    ensures { result ≡ has_form (client_of kept.entry) }
{
    if kept.owner.len() > MOST_OWNER {
        return false;
    }
    match kept.created {
        None => true,
        Some(creation) => match creation.result {
            Ok(_) => true,
            Err(status) => is_cached_refusal(status),
        },
    }
}

/// Whether no more is granted than may be.
fn is_within(granted: Channel) -> bool
    ensures { result ≡ is_within granted }
{
    granted.request_size <= MOST_BYTES
        && (LEAST_REPLY <= granted.reply_size
            && (granted.reply_size <= MOST_BYTES
                && (granted.operations <= MOST_OPERATIONS
                    && (granted.slots <= MOST_SLOTS && 1 <= granted.slots))))
}

/// Whether `number` is at most `n`.
fn is_from(number: u64, n: u64) -> bool
    ensures { result ≡ nat_le number n }
{
    number <= n
}

/// The least number in the map that is at least `number`, borrowed.
fn kept_from<V, A: Allocator>(map: &BTreeMap<u64, V, A>, number: u64) -> Option<&u64>
    ensures { option_copied result ≡ find (λ n. nat_le number n) (keys_of map.now.entries) }
{
    map.keys().find(|n| is_from(number, **n))
}

/// The least number in the map that is at least `number`.
fn first_from<V, A: Allocator>(map: &BTreeMap<u64, V, A>, number: u64) -> Option<u64>
    ensures { result ≡ number_from number map.now.entries }
{
    match kept_from(map, number) {
        Some(n) => Some(*n),
        None => None,
    }
}

impl<A: Allocator + Copy> Registry<A> {
    /// Whether the next client and the next session may get these numbers.
    pub fn numbers_fit(&self, next_client: u64, next_session: u64) -> bool
        ensures { result ≡ numbers_fit self.now next_client next_session }
    {
        self.next_client <= next_client
            && (self.next_session <= next_session && (next_client <= END && next_session <= END))
    }

    /// The next client and the next session get these numbers.
    pub fn give_numbers(&mut self, next_client: u64, next_session: u64)
        ensures { self.new ≡ with_numbers next_client next_session self.old }
    {
        self.next_client = next_client;
        self.next_session = next_session;
    }

    /// Whether a record fits beside the existing ones.
    pub fn record_fits(&self, kept: Record<'_>) -> bool
        ensures { result ≡ record_fits self.now (client_of kept.entry) }
    {
        kept.number < self.next_client
            && (self.clients.len() < self.limits.clients()
                && (!self.clients.contains_key(&kept.number)
                    && (!(kept.confirmed && self.confirmed_of(kept.owner).is_some())
                        && has_form(kept))))
    }

    /// Restores a record that fits, whose lease begins in this second.
    pub fn restore_record(&mut self, kept: Record<'_>, now: u64) -> Result<(), AllocError>
        ensures ok { OnOk result (self.new ≡ with_record self.old (client_of kept.entry)) }
        ensures err { OnErr result (self.new ≡ self.old) }
    {
        let client = Client::restored(self.alloc, kept, now)?;
        add_client(&mut self.clients, kept.number, client)
    }

    /// Whether a client has a confirmed record.
    fn is_home(&self, client: u64) -> bool
        ensures { result ≡ is_home (client_at self.now client) }
    {
        match self.clients.get(&client) {
            Some(client) => client.is_confirmed(),
            None => false,
        }
    }

    /// Whether a session fits.
    pub fn session_fits(&self, number: u64, held: Held) -> bool
        ensures { result ≡ session_fits self.now number held }
    {
        number < self.next_session
            && (self.sessions.len() < self.limits.sessions()
                && (!self.sessions.contains_key(&number)
                    && (self.is_home(held.client) && is_within(held.granted))))
    }

    /// Restores a session that fits.
    pub fn restore_session(&mut self, number: u64, held: Held) -> Result<(), AllocError>
        requires { 1 ≤ held.granted.slots }
        ensures ok { OnOk result (self.new ≡ with_restored self.old number held) }
        ensures err { OnErr result (self.new ≡ self.old) }
    {
        let session = Session::restored(self.alloc, held)?;
        add_session(&mut self.sessions, number, session)
    }

    /// Whether a call fits a slot.
    pub fn slot_fits(&self, session: u64, slot: u32, kept: CachedCall<'_>) -> bool
        ensures { result ≡ slot_fits (session_at self.now session) slot (kept_of kept.entry) }
    {
        match self.sessions.get(&session) {
            Some(session) => session.has_room(slot, kept),
            None => false,
        }
    }

    /// Restores the last call of a slot, which fits.
    pub fn restore_slot(&mut self, session: u64, slot: u32, kept: CachedCall<'_>)
        requires slot { IfSome (session_at self.old session) (λ s. slot < s.granted.slots) }
        requires arguments { IfSome (session_at self.old session)
            (λ s. length kept.arguments.now ≤ s.granted.request_size) }
        requires results { IfSome (session_at self.old session) (λ s. length kept.results.now ≤ cache_size s.granted) }
        ensures { self.new ≡ with_cached self.old session slot (kept_of kept.entry) }
    {
        if let Some(session) = self.sessions.get_mut(&session) {
            session.restore(slot, kept);
        }
    }

    /// The least number of a client that is at least this one.
    pub fn client_from(&self, number: u64) -> Option<u64>
        ensures { result ≡ number_from number self.now.clients }
    {
        first_from(&self.clients, number)
    }

    /// The least number of a session that is at least this one.
    pub fn session_from(&self, number: u64) -> Option<u64>
        ensures { result ≡ number_from number self.now.sessions }
    {
        first_from(&self.sessions, number)
    }

    /// The numbers of records and of sessions.
    pub fn counts(&self) -> (usize, usize)
        ensures counts { result ≡ (length self.now.clients, length self.now.sessions) }
        ensures rising { IsRising self.now.clients × IsRising self.now.sessions }
    {
        (self.clients.len(), self.sessions.len())
    }

    /// The record of a client.
    pub fn record(&self, client: u64) -> Option<Record<'_>>
        ensures { option_map client_of result ≡ client_at self.now client }
    {
        match self.clients.get(&client) {
            Some(client) => Some(client.record()),
            None => None,
        }
    }

    /// A session, without its slots.
    pub fn held(&self, session: u64) -> Option<Held>
        ensures held { result ≡ option_map held_of (session_at self.now session) }
        ensures slots { IfSome (session_at self.now session) (λ s. HasSlots s.granted s.slots) }
    {
        match self.sessions.get(&session) {
            Some(session) => Some(session.held()),
            None => None,
        }
    }

    /// The call that a slot caches.
    pub fn kept(&self, session: u64, slot: u32) -> Option<CachedCall<'_>>
        ensures kept { option_map kept_of result ≡ kept_at self.now session slot }
        ensures fits { IfSome result (λ k. slot_fits (session_at self.now session) slot (kept_of k) ≡ true) }
    {
        match self.sessions.get(&session) {
            Some(session) => match session.slot(slot) {
                Some(slot) => slot.kept(),
                None => None,
            },
            None => None,
        }
    }
}
