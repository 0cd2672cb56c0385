//! The record of a client (RFC 8881, section 2.4).
ghost use Rattle.std.specs.Prelude.{◌≡◌, ◌==◌, ◌&&◌, if◌then◌else◌, not, true, false, Some, None, Ok, IfOk};
ghost use Rattle.std.specs.Option.{option_map};
ghost use Rattle.session_slots.specs.Counting.{due, last_number};
ghost use Rattle.session_slots.specs.Creating.{number_of, cached_result};
ghost use Rattle.session_slots.specs.Destroying.{has_reclaimed};
ghost use Rattle.session_slots.specs.Exchanging.{is_unconfirmed_of};
ghost use Rattle.session_slots.specs.Registry.{is_confirmed_of};
ghost use Rattle.session_slots.specs.Views.{client_of};

use crate::session::Channel;
use crate::slot;
use nfs_types::Status;
use std::alloc::{AllocError, Allocator, Global};
use std::marker::Model;

// the seconds of the lease of a client whose runs are short
const SHORT_LEASE: u64 = 10;

// the first bytes of the owner of a run of `nfsc` with one command
const SHORT_RUN: &[u8] = b"nfsc";

/// The answer to a CREATE_SESSION that created a session (RFC 8881, section 18.36).
#[derive(Clone, Copy, Debug, PartialEq, Eq)]
pub struct Created {
    /// The number of the session.
    pub session: u64,
    /// The sequence ID of the call.
    pub sequence: u32,
    /// Whether the session is persistent, CREATE_SESSION4_FLAG_PERSIST.
    pub persist: bool,
    /// The fore channel, as granted.
    pub fore: Channel,
    /// The backchannel, as it was requested.
    pub back: Channel,
}

/// A CREATE_SESSION that was accepted.
#[derive(Clone, Copy, Debug, PartialEq, Eq)]
pub struct Creation {
    /// The sequence ID of the call.
    pub number: u32,
    /// The session, or why none is created.
    pub result: Result<Created, Status>,
}

/// The record of a client, as it is stored.
#[derive(Clone, Copy)]
pub struct Record<'a> {
    /// The client ID.
    pub number: u64,
    /// The client owner's ID.
    pub owner: &'a [u8],
    /// The verifier.
    pub verifier: u64,
    /// The user for whom the record was created.
    pub uid: u32,
    /// Whether the record is confirmed.
    pub confirmed: bool,
    /// The last CREATE_SESSION that was accepted, with its result.
    pub created: Option<Creation>,
    /// Whether the client has sent RECLAIM_COMPLETE.
    pub reclaimed: bool,
}

/// The record of a client.
#[derive(Drop)]
pub struct Client<A: Allocator = Global> {
    number: u64,
    owner: Vec<u8, A>,
    verifier: u64,
    uid: u32,
    confirmed: bool,
    created: Option<Creation>,
    reclaimed: bool,
    // the second of the lease's last renewal, which isn't part of the model
    renewed: u64,
}

impl<A: Allocator> Model for Client<A> {
    ghost use Rattle.session_slots.specs.Registry.{Client};

    ghost Value = { Client };

    ghost view = { λ c. record {
      number = c.number;
      owner = c.owner.items;
      verifier = c.verifier;
      uid = c.uid;
      confirmed = c.confirmed;
      created = c.created;
      reclaimed = c.reclaimed;
    } };
}

impl<A: Allocator> Client<A> {
    /// A new record of an owner, not confirmed, whose lease begins in this second. `Err`: an allocation failed.
    pub fn new(
        alloc: A,
        number: u64,
        owner: &[u8],
        verifier: u64,
        uid: u32,
        now: u64,
    ) -> Result<Self, AllocError>
        ensures { IfOk result (λ c. c ≡ record {
          number = number;
          owner = owner.now;
          verifier = verifier;
          uid = uid;
          confirmed = false;
          created = None;
          reclaimed = false;
        }) }
    {
        Ok(Client {
            number,
            owner: Vec::from_slice(alloc, owner)?,
            verifier,
            uid,
            confirmed: false,
            created: None,
            reclaimed: false,
            renewed: now,
        })
    }

    /// A record of before a restart, whose lease begins in this second. `Err`: an allocation failed.
    pub fn restored(alloc: A, kept: Record<'_>, now: u64) -> Result<Self, AllocError>
        ensures { IfOk result (λ c. c ≡ client_of kept.entry) }
    {
        Ok(Client {
            number: kept.number,
            owner: Vec::from_slice(alloc, kept.owner)?,
            verifier: kept.verifier,
            uid: kept.uid,
            confirmed: kept.confirmed,
            created: kept.created,
            reclaimed: kept.reclaimed,
            renewed: now,
        })
    }

    /// The record, as it is stored.
    pub fn record(&self) -> Record<'_>
        ensures { client_of result ≡ self.now }
    {
        Record {
            number: self.number,
            owner: &self.owner,
            verifier: self.verifier,
            uid: self.uid,
            confirmed: self.confirmed,
            created: self.created,
            reclaimed: self.reclaimed,
        }
    }

    /// The last second of the lease, after which the client may expire when room is wanted: `lease` after its last
    /// renewal, or 10 if that is less and its runs are short.
    pub(crate) fn lease_end(&self, lease: u64) -> u64 {
        let seconds = if has_short_runs(&self.owner) {
            lease.min(SHORT_LEASE)
        } else {
            lease
        };
        self.renewed.saturating_add(seconds)
    }

    /// Renews the lease.
    pub fn renew(&mut self, now: u64)
        ensures { self.new ≡ self.old }
    {
        self.renewed = self.renewed.max(now);
    }

    /// The client ID.
    pub fn number(&self) -> u64
        ensures { result ≡ self.now.number }
    {
        self.number
    }

    /// The verifier.
    pub fn verifier(&self) -> u64
        ensures { result ≡ self.now.verifier }
    {
        self.verifier
    }

    /// The user for whom the record was created.
    pub fn uid(&self) -> u32
        ensures { result ≡ self.now.uid }
    {
        self.uid
    }

    /// Whether the record is confirmed.
    pub fn is_confirmed(&self) -> bool
        ensures { result ≡ self.now.confirmed }
    {
        self.confirmed
    }

    /// The owner.
    pub fn owner(&self) -> &[u8]
        ensures { result.now ≡ self.now.owner }
    {
        &self.owner
    }

    /// Whether this is the confirmed record of an owner.
    pub fn is_confirmed_of(&self, owner: &[u8]) -> bool
        ensures { result ≡ is_confirmed_of owner.now self.now }
    {
        self.confirmed && self.owner.as_slice() == owner
    }

    /// Whether this is an unconfirmed record of an owner.
    pub fn is_unconfirmed_of(&self, owner: &[u8]) -> bool
        ensures { result ≡ is_unconfirmed_of owner.now self.now }
    {
        self.owner.as_slice() == owner && !self.confirmed
    }

    /// The sequence ID of the next CREATE_SESSION.
    pub fn due(&self) -> u32
        ensures { result ≡ due (last_number number_of self.now.created) }
    {
        match &self.created {
            Some(creation) => slot::due(creation.number),
            None => 1,
        }
    }

    /// The result of the last CREATE_SESSION, if this is its sequence ID.
    pub fn cached_result(&self, number: u32) -> Option<Result<Created, Status>>
        ensures { result ≡ cached_result self.now.created number }
    {
        match &self.created {
            Some(creation) if creation.number == number => Some(creation.result),
            _ => None,
        }
    }

    /// Caches a CREATE_SESSION as the last one.
    pub fn accept(&mut self, creation: Creation)
        ensures { self.new ≡ record self.old { created = Some creation } }
    {
        self.created = Some(creation);
    }

    /// Confirms the record, and caches the CREATE_SESSION that confirmed it.
    pub fn confirm(&mut self, creation: Creation)
        ensures { self.new ≡ record self.old { confirmed = true; created = Some creation } }
    {
        self.confirmed = true;
        self.created = Some(creation);
    }

    /// Whether the client has sent RECLAIM_COMPLETE.
    pub fn has_reclaimed(&self) -> bool
        ensures { result ≡ self.now.reclaimed }
    {
        self.reclaimed
    }

    /// Records that the client has sent RECLAIM_COMPLETE.
    pub fn reclaim(&mut self)
        ensures { self.new ≡ has_reclaimed self.old }
    {
        self.reclaimed = true;
    }
}

/// Whether an owner names a program whose runs take a moment. A killed run then needn't keep its place for a whole
/// lease.
fn has_short_runs(owner: &[u8]) -> bool {
    owner.starts_with(SHORT_RUN)
}
