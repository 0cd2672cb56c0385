//! Clients that are expired (RFC 8881, section 8.3).
ghost use Rattle.std.specs.Prelude.{◌≡◌, is_some, IsSome, IfSome};
ghost use Rattle.session_slots.specs.Registry.{client_at};
ghost use Rattle.session_slots.specs.Expiring.{expire};

use crate::changes::{remove_record, remove_sessions, renew};
use crate::registry::Registry;
use std::alloc::Allocator;

impl<A: Allocator + Copy> Registry<A> {
    /// Sets the second of a monotonic clock, by which leases are renewed and expire from now on.
    pub fn set_second(&mut self, second: u64)
        ensures { self.new ≡ self.old }
    {
        self.steady = Some(second);
    }

    /// The second of the monotonic clock if one was set, else `now`.
    pub(crate) fn second_at(&self, now: u64) -> u64 {
        self.steady.unwrap_or(now)
    }

    /// Renews a client's lease in this second.
    #[tactic(auto, using(crate::proofs::Restored::changed_by_nothing))]
    pub fn renew(&mut self, client: u64, now: u64)
        ensures { self.new ≡ self.old }
    {
        let now = self.second_at(now);
        renew(&mut self.clients, client, now);
    }

    /// The client whose lease ended first, if it has ended by now: `lease` seconds after its last renewal, or 10 for a
    /// client whose runs are short (`Client::lease_end`).
    pub fn silent(&self, now: u64, lease: u64) -> Option<u64>
        ensures { IfSome result (λ client. IsSome (client_at self.now client)) }
    {
        let first = self
            .clients
            .values()
            .map(|client| client.lease_end(lease))
            .min()?;
        if self.second_at(now) <= first {
            return None;
        }
        let client = self
            .clients
            .values()
            .find(|client| client.lease_end(lease) == first)
            .map(|client| client.number())?;
        if self.clients.contains_key(&client) {
            Some(client)
        } else {
            None
        }
    }

    /// Whether a client has a record.
    pub fn has_record(&self, client: u64) -> bool
        ensures { result ≡ is_some (client_at self.now client) }
    {
        self.clients.contains_key(&client)
    }

    /// Expires a client, with its sessions.
    pub fn expire(&mut self, client: u64)
        ensures { self.new ≡ expire client self.old }
    {
        remove_sessions(&mut self.sessions, Some(client));
        remove_record(&mut self.clients, Some(client));
    }
}
