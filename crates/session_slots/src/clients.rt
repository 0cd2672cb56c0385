//! Clients and their sessions, as a server calls them.
ghost use Rattle.std.specs.Prelude.{◌≡◌, ◌≤◌, ◌<◌, true, false, if◌then◌else◌, length, is_some, Err, IfSome, IsSome};
ghost use Rattle.std.specs.Prelude.{IsOk, OnOk, OnErr, MatchOption};
ghost use Rattle.std.specs.Option.{option_map};
ghost use Rattle.session_slots.specs.Limits as limits;
ghost use Rattle.session_slots.specs.Covering.{all_lagging, lagging_at};
ghost use Rattle.session_slots.specs.Keeping.{is_created, last_at, passes};
ghost use Rattle.session_slots.specs.Slots.{finished};
ghost use Rattle.session_slots.specs.Registry.{nobody, client_at, session_at, results_at, cache_size, confirmed_entry};
ghost use Rattle.session_slots.specs.Registry.{with_session, with_place};
ghost use Rattle.session_slots.specs.Sequencing.{sequence_begin, sequence_begun, SequencesByHistory, HasSlot};
ghost use Rattle.session_slots.specs.Sequencing.{UnlessNew, KeepsAt, HasSlots};
ghost use Rattle.session_slots.specs.Creating.{Creates, CreatesAt};
ghost use Rattle.session_slots.specs.Exchanging.{Exchanges};
ghost use Rattle.session_slots.specs.Destroying.{destroy_session_refusal, without_session, destroy_client_refusal};
ghost use Rattle.session_slots.specs.Destroying.{without_client, reclaim_refusal, with_reclaimed};
ghost use Rattle.session_slots.specs.Orderly.{IsOrderly, has_form};
ghost use Rattle.session_slots.specs.Restoring.{IsRising, number_from, numbers_fit, record_fits, with_record};
ghost use Rattle.session_slots.specs.Restoring.{session_fits, with_restored, slot_fits, with_cached, held_of, kept_at};
ghost use Rattle.session_slots.specs.Restoring.{with_numbers};
ghost use Rattle.session_slots.specs.Expiring.{expire};
ghost use Rattle.session_slots.specs.Views.{asked_of, bytes_of, exchanging_of, client_of, kept_of};

use crate::client::Record;
use crate::creating::{Create, Made};
use crate::exchanging::{Exchange, Exchanged};
use crate::limits::MOST_AHEAD;
use crate::registry::Registry;
use crate::restoring::RestoreFault;
use crate::session::{Begin, Held, Sequence};
use crate::slot::CachedCall;
use nfs_types::{Limits, Status};
use std::alloc::{Allocator, Global};
use std::marker::Model;

/// Clients and their sessions (RFC 8881, sections 2.4 and 2.10).
#[derive(Drop)]
pub struct Clients<A: Allocator = Global> {
    registry: Registry<A>,
}

impl<A: Allocator> Model for Clients<A> {
    ghost use Rattle.session_slots.specs.Registry.{Registry};
    ghost use Rattle.session_slots.specs.Orderly.{IsOrderly};

    ghost Value = { Registry };

    ghost view = { λ c. c.registry };

    ghost invariant = { λ c. IsOrderly c.registry };
}

impl<A: Allocator + Copy> Clients<A> {
    /// No client and no session, under these limits.
    #[tactic(auto, using(crate::proofs::Orderly::nobody_is_orderly))]
    pub fn new(alloc: A, limits: Limits) -> Self
        ensures { result ≡ nobody limits }
    {
        Clients {
            registry: Registry::new(alloc, limits),
        }
    }

    /// The limits, which never change.
    pub fn limits(&self) -> Limits
        ensures { result ≡ self.now.limits }
    {
        self.registry.limits()
    }

    /// The client ID of an owner's confirmed record. It allocates no memory.
    pub fn confirmed_of(&self, owner: &[u8]) -> Option<u64>
        ensures { result ≡ option_map (λ c. c.number) (confirmed_entry self.now owner.now) }
    {
        self.registry.confirmed_of(owner)
    }

    /// EXCHANGE_ID (RFC 8881, section 18.35). DELAY: the allocation of a new record failed, and nothing changes.
    pub fn exchange_id(&mut self, asked: Exchange<'_>) -> Result<Exchanged, Status>
        requires { length asked.owner.now ≤ limits.MOST_OWNER }
        ensures { Exchanges self.old (exchanging_of asked.entry) result self.new }
    {
        self.registry.exchange(asked)
    }

    /// CREATE_SESSION (RFC 8881, section 18.36). A call with the sequence ID of the last one gets the cached result.
    /// A call that is refused after its sequence ID was checked is cached as the last one, except for DELAY. DELAY:
    /// the allocation of a new session failed, and nothing changes.
    #[tactic(auto, using(crate::proofs::Creations::creates_by_history))]
    pub fn create_session(&mut self, asked: Create) -> Made
        ensures creates { Creates self.old asked result self.new }
        ensures by_history { CreatesAt self.old self.new asked result.result }
    {
        self.registry.create(asked)
    }

    /// DESTROY_SESSION (RFC 8881, section 18.37). BADSESSION: the session doesn't exist. It allocates no memory.
    pub fn destroy_session(&mut self, session: u64) -> Result<(), Status>
        ensures refused { MatchOption (destroy_session_refusal self.old session) (IsOk result)
            (λ status. result ≡ Err status) }
        ensures ok { OnOk result (self.new ≡ without_session self.old session) }
        ensures err { OnErr result (self.new ≡ self.old) }
    {
        self.registry.destroy_session(session)
    }

    /// DESTROY_CLIENTID (RFC 8881, section 18.50). STALE_CLIENTID: the client doesn't exist. CLIENTID_BUSY: it has
    /// opens or sessions. It allocates no memory.
    pub fn destroy_client(&mut self, client: u64, has_opens: bool) -> Result<(), Status>
        ensures refused { MatchOption (destroy_client_refusal self.old client has_opens) (IsOk result)
            (λ status. result ≡ Err status) }
        ensures ok { OnOk result (self.new ≡ without_client self.old client) }
        ensures err { OnErr result (self.new ≡ self.old) }
    {
        self.registry.destroy_client(client, has_opens)
    }

    /// RECLAIM_COMPLETE for all file systems (RFC 8881, section 18.51). COMPLETE_ALREADY: the client has sent it
    /// before. STALE_CLIENTID: the client doesn't exist. It allocates no memory.
    pub fn reclaim_complete(&mut self, client: u64) -> Result<(), Status>
        ensures refused { MatchOption (reclaim_refusal self.old client) (IsOk result) (λ status. result ≡ Err status) }
        ensures ok { OnOk result (self.new ≡ with_reclaimed self.old client) }
        ensures err { OnErr result (self.new ≡ self.old) }
    {
        self.registry.reclaim_complete(client)
    }

    /// SEQUENCE (RFC 8881, section 18.46): begins a call on a slot. A retry gets [`Clients::results`]. A call that
    /// isn't new changes nothing. It allocates no memory.
    #[tactic(auto, using(crate::proofs::Beginning::sequences_by_history, crate::proofs::Staying::stays))]
    pub fn begin(&mut self, session: u64, asked: Sequence<'_>) -> Begin
        requires { length (bytes_of asked.arguments) ≤ asked.record_len }
        ensures answer { result ≡ sequence_begin self.old session (asked_of asked.entry) }
        ensures begun { self.new ≡ sequence_begun self.old session (asked_of asked.entry) }
        ensures by_history { SequencesByHistory self.old self.new session (asked_of asked.entry) result }
        ensures has_slot { HasSlot self.new session asked.entry.slot result }
        ensures stays { UnlessNew result (self.new ≡ self.old) }
    {
        self.registry.begin(session, asked)
    }

    /// The results that a slot caches. None if it caches no call, or doesn't exist. It allocates no memory.
    #[tactic(auto, using(crate::proofs::Orderly::kept_are_few))]
    pub fn results(&self, session: u64, slot: u32) -> &[u8]
        ensures kept { result.now ≡ results_at self.now session slot }
        ensures few { length result.now ≤ limits.MOST_RESULTS }
    {
        self.registry.results(session, slot)
    }

    /// Caches the results of the newest call of a slot. They are those of a reply of the granted size, after its
    /// header of 24 bytes. It allocates no memory.
    #[tactic(auto, using(crate::proofs::Keeping::keeps_at_by_history))]
    pub fn keep(&mut self, session: u64, slot: u32, results: &[u8])
        requires slot { IfSome (session_at self.old session) (λ s. slot < s.granted.slots) }
        requires few { IfSome (session_at self.old session) (λ s. length results.now ≤ cache_size s.granted) }
        ensures kept { self.new ≡ with_session session (with_place slot (λ p. finished p results.now)) self.old }
        ensures by_history { KeepsAt self.old self.new session slot results.now }
    {
        self.registry.keep(session, slot, results);
    }

    // ---- over a restart

    /// Whether a call with this sequence ID takes its slot past a multiple of 2^20. The call is then logged, whatever
    /// it changes.
    pub fn passes(&self, session: u64, slot: u32, number: u32) -> bool
        ensures { result ≡ passes (last_at self.now session slot) number }
    {
        self.registry.last_number(session, slot) / MOST_AHEAD != number / MOST_AHEAD
    }

    /// Whether a CREATE_SESSION of a client with this sequence ID is a retry of its last one.
    pub fn is_created(&self, client: u64, sequence: u32) -> bool
        ensures { result ≡ is_created self.now client sequence }
    {
        self.registry.is_created(client, sequence)
    }

    /// Makes a slot lag, if it exists: it may have accepted calls after the cached one. From now on a call is new if
    /// its sequence ID is 1 to 2^20 ahead of the cached one.
    pub fn lag(&mut self, session: u64, slot: u32)
        ensures { self.new ≡ lagging_at session slot self.old }
    {
        self.registry.lag(session, slot);
    }

    /// Makes all slots lag, as after a restart: each may have accepted calls after the cached one, or its first calls
    /// (RFC 8881, section 2.10.6.5). It allocates no memory.
    pub fn lag_all(&mut self)
        ensures { self.new ≡ all_lagging self.old }
    {
        self.registry.lag_all();
    }

    /// The next client and the next session get these stored numbers. `false`: one of them is below the number that
    /// it replaces, or above 2^63, and nothing changes.
    pub fn restore_numbers(&mut self, next_client: u64, next_session: u64) -> bool
        ensures fits { result ≡ numbers_fit self.old next_client next_session }
        ensures given { self.new ≡ (if result then with_numbers next_client next_session self.old else self.old) }
    {
        if !self.registry.numbers_fit(next_client, next_session) {
            return false;
        }
        self.registry.give_numbers(next_client, next_session);
        true
    }

    /// Restores the record of a client, whose lease begins in this second. It is `Misfit` if its client ID wasn't
    /// given yet, or has a record; its owner has another confirmed record, or more than 1,024 bytes; it caches a
    /// refusal that is never cached; or there are 64 records.
    pub fn restore_record(&mut self, kept: Record<'_>, now: u64) -> Result<(), RestoreFault>
        ensures fits { OnOk result (record_fits self.old (client_of kept.entry) ≡ true) }
        ensures misfit { result ≡ Err RestoreFault.Misfit → record_fits self.old (client_of kept.entry) ≡ false }
        ensures memory { result ≡ Err RestoreFault.Memory → record_fits self.old (client_of kept.entry) ≡ true }
        ensures ok { OnOk result (self.new ≡ with_record self.old (client_of kept.entry)) }
        ensures err { OnErr result (self.new ≡ self.old) }
    {
        if !self.registry.record_fits(kept) {
            return Err(RestoreFault::Misfit);
        }
        if let Err(_) = self.registry.restore_record(kept, now) {
            return Err(RestoreFault::Memory);
        }
        Ok(())
    }

    /// Restores a session, whose slots lag and cache no call yet. It is `Misfit` if its number wasn't given yet, or
    /// is in use; its client has no confirmed record; more is granted than may be; or there are 64 sessions.
    #[tactic(auto, using(crate::proofs::Restored::session_has_slots))]
    pub fn restore_session(&mut self, number: u64, held: Held) -> Result<(), RestoreFault>
        ensures fits { OnOk result (session_fits self.old number held ≡ true) }
        ensures misfit { result ≡ Err RestoreFault.Misfit → session_fits self.old number held ≡ false }
        ensures memory { result ≡ Err RestoreFault.Memory → session_fits self.old number held ≡ true }
        ensures ok { OnOk result (self.new ≡ with_restored self.old number held) }
        ensures err { OnErr result (self.new ≡ self.old) }
    {
        if !self.registry.session_fits(number, held) {
            return Err(RestoreFault::Misfit);
        }
        if let Err(_) = self.registry.restore_session(number, held) {
            return Err(RestoreFault::Memory);
        }
        Ok(())
    }

    /// Restores the last call of a slot, which lags. `false`: the slot doesn't exist, or has too little room, and
    /// nothing changes. It allocates no memory.
    #[tactic(auto, using(crate::proofs::Restored::slot_fit_facts))]
    pub fn restore_slot(&mut self, session: u64, slot: u32, kept: CachedCall<'_>) -> bool
        ensures fits { result ≡ slot_fits (session_at self.old session) slot (kept_of kept.entry) }
        ensures kept { self.new ≡ (if result then with_cached self.old session slot (kept_of kept.entry) else self.old) }
    {
        if !self.registry.slot_fits(session, slot, kept) {
            return false;
        }
        self.registry.restore_slot(session, slot, kept);
        true
    }

    /// The least client ID of a record that is at least `number`. From 0 on it finds all in order. It allocates no
    /// memory.
    pub fn client_from(&self, number: u64) -> Option<u64>
        ensures { result ≡ number_from number self.now.clients }
    {
        self.registry.client_from(number)
    }

    /// The least number of a session that is at least `number`. From 0 on it finds all in order. It allocates no
    /// memory.
    pub fn session_from(&self, number: u64) -> Option<u64>
        ensures { result ≡ number_from number self.now.sessions }
    {
        self.registry.session_from(number)
    }

    /// How many records and sessions there are, at most 64 of each. Both are in the order of rising numbers.
    pub fn counts(&self) -> (usize, usize)
        ensures counts { result ≡ (length self.now.clients, length self.now.sessions) }
        ensures rising { IsRising self.now.clients × IsRising self.now.sessions }
        ensures orderly { IsOrderly self.now }
    {
        self.registry.counts()
    }

    /// The record of a client, as it is stored.
    #[tactic(auto, using(crate::proofs::Restored::found_form))]
    pub fn record(&self, client: u64) -> Option<Record<'_>>
        ensures record { option_map client_of result ≡ client_at self.now client }
        ensures form { IfSome (client_at self.now client) (λ c. has_form c ≡ true) }
    {
        self.registry.record(client)
    }

    /// A session, as it is stored, without its slots.
    pub fn held(&self, session: u64) -> Option<Held>
        ensures held { result ≡ option_map held_of (session_at self.now session) }
        ensures slots { IfSome (session_at self.now session) (λ s. HasSlots s.granted s.slots) }
    {
        self.registry.held(session)
    }

    /// The call that a slot caches, with its results. It fits the slot when it is restored.
    pub fn kept(&self, session: u64, slot: u32) -> Option<CachedCall<'_>>
        ensures kept { option_map kept_of result ≡ kept_at self.now session slot }
        ensures fits { IfSome result (λ k. slot_fits (session_at self.now session) slot (kept_of k) ≡ true) }
    {
        self.registry.kept(session, slot)
    }

    /// The numbers that the next client and the next session get.
    pub fn next_numbers(&self) -> (u64, u64)
        ensures { result ≡ (self.now.next_client, self.now.next_session) }
    {
        (self.registry.next_client, self.registry.next_session)
    }

    // ---- expired clients

    /// Sets the second of a monotonic clock, from any start. From now on leases are renewed and expire by it (RFC
    /// 8881, section 8.3). The seconds of calls, whose clock can be set back, aren't used any more. The clock isn't
    /// part of the model.
    pub fn set_second(&mut self, second: u64)
        ensures { self.new ≡ self.old }
    {
        self.registry.set_second(second);
    }

    /// Renews a client's lease in this second, which isn't part of the model. A second before the last one changes
    /// nothing.
    pub fn renew(&mut self, client: u64, now: u64)
        ensures { self.new ≡ self.old }
    {
        self.registry.renew(client, now);
    }

    /// The client with the oldest renewal, if that was more than `lease` seconds ago.
    pub fn silent(&self, now: u64, lease: u64) -> Option<u64>
        ensures { IfSome result (λ client. IsSome (client_at self.now client)) }
    {
        self.registry.silent(now, lease)
    }

    /// Expires a client: its record is removed with its sessions, and nothing else. `false`: it has no record, and
    /// nothing changes. It allocates no memory.
    pub fn expire(&mut self, client: u64) -> bool
        ensures live { result ≡ is_some (client_at self.old client) }
        ensures removed { self.new ≡ (if result then expire client self.old else self.old) }
    {
        if !self.registry.has_record(client) {
            return false;
        }
        self.registry.expire(client);
        true
    }
}
