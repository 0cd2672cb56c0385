//! EXCHANGE_ID (RFC 8881, section 18.35).
ghost use Rattle.std.specs.Prelude.{◌≡◌, ◌<◌, ◌^◌, Ok, Err, Some, None};
ghost use Rattle.session_slots.specs.Exchanging.{confirmed_answer, answered_flags, decision_for_new, exchange_decision};
ghost use Rattle.session_slots.specs.Exchanging.{without_unconfirmed};
ghost use Rattle.session_slots.specs.Exchanging.{MakesClient, Exchanges};
ghost use Rattle.session_slots.specs.Views.{exchanging_of};

use crate::changes::{
    add_client, confirmed_in, remove_others, remove_sessions, remove_unconfirmed, staying_count,
};
use crate::client::Client;
use crate::limits::{CONFIRMED, END, UPDATE_CONFIRMED, USE_NON_PNFS};
use crate::registry::Registry;
use nfs_types::Status;
use std::alloc::Allocator;

/// The arguments of EXCHANGE_ID, and the caller.
#[derive(Clone, Copy, Debug)]
pub struct Exchange<'a> {
    /// The client owner's ID.
    pub owner: &'a [u8],
    /// The verifier of this incarnation of the client: its eight bytes, as a number.
    pub verifier: u64,
    /// The user of the caller.
    pub uid: u32,
    /// EXCHGID4_FLAG bits.
    pub flags: u32,
    /// Whether the owner's confirmed record has opens.
    pub has_opens: bool,
    /// The second of the server's clock. The client's lease begins in it, unless a monotonic second
    /// is set ([`crate::Clients::set_second`]).
    pub now: u64,
}

/// The answer to EXCHANGE_ID: the record of the client.
#[derive(Clone, Copy, PartialEq, Eq)]
pub struct Exchanged {
    /// The client ID.
    pub client: u64,
    /// The sequence ID of the next CREATE_SESSION.
    pub sequence: u32,
    /// Whether the record is confirmed.
    pub is_confirmed: bool,
}

impl Exchanged {
    /// The flags of the answer.
    pub fn flags(self) -> u32
        ensures { result ≡ answered_flags self }
    {
        if self.is_confirmed {
            CONFIRMED + USE_NON_PNFS
        } else {
            USE_NON_PNFS
        }
    }
}

/// The decision on an EXCHANGE_ID, before memory is allocated.
#[derive(Clone, Copy, PartialEq, Eq)]
enum ExchangeDecision {
    /// The call is refused, and nothing changes.
    Refuses(Status),
    /// The owner's confirmed record is answered.
    Knows(Exchanged),
    /// A record is created, and this client is removed with its sessions.
    Makes(Option<u64>),
}

/// The answer for a confirmed record.
fn confirmed_answer<A: Allocator>(client: &Client<A>) -> Exchanged
    ensures { result ≡ confirmed_answer client.now }
{
    Exchanged {
        client: client.number(),
        sequence: client.due(),
        is_confirmed: true,
    }
}

impl<A: Allocator + Copy> Registry<A> {
    /// Whether one more record fits, if the client `removed` is removed.
    fn judge_new(&self, asked: Exchange<'_>, removed: Option<u64>) -> ExchangeDecision
        ensures { result ≡ decision_for_new removed self.now (exchanging_of asked.entry) }
    {
        let staying = staying_count(&self.clients, asked.owner, removed);
        if staying >= self.limits.clients() || self.next_client >= END {
            return ExchangeDecision::Refuses(Status::NoSpc);
        }
        ExchangeDecision::Makes(removed)
    }

    /// The decision on an EXCHANGE_ID, before memory is allocated.
    fn judge_exchange(&self, asked: Exchange<'_>) -> ExchangeDecision
        ensures { result ≡ exchange_decision self.now (exchanging_of asked.entry) }
    {
        if asked.flags & CONFIRMED != 0 {
            return ExchangeDecision::Refuses(Status::Inval);
        }
        if asked.flags & UPDATE_CONFIRMED != 0 {
            return ExchangeDecision::Refuses(Status::NotSupp);
        }
        let Some(client) = confirmed_in(&self.clients, asked.owner) else {
            return self.judge_new(asked, None);
        };
        if client.uid() != asked.uid {
            if asked.has_opens {
                return ExchangeDecision::Refuses(Status::ClidInUse);
            }
            return self.judge_new(asked, Some(client.number()));
        }
        if client.verifier() != asked.verifier {
            return self.judge_new(asked, None);
        }
        ExchangeDecision::Knows(confirmed_answer(client))
    }

    /// Creates a record that isn't confirmed. The owner's other unconfirmed record is removed, and the client `removed`
    /// with its sessions.
    fn make_client(
        &mut self,
        asked: Exchange<'_>,
        removed: Option<u64>,
    ) -> Result<Exchanged, Status>
        requires { self.old.next_client < 2 ^ 63 }
        ensures { MakesClient self.old (exchanging_of asked.entry) removed result self.new }
    {
        let number = self.next_client;
        let now = self.second_at(asked.now);
        let Ok(client) = Client::new(
            self.alloc,
            number,
            asked.owner,
            asked.verifier,
            asked.uid,
            now,
        ) else {
            return Err(Status::Delay);
        };
        if let Err(_) = add_client(&mut self.clients, number, client) {
            return Err(Status::Delay);
        }
        remove_others(&mut self.clients, number, asked.owner, removed);
        remove_sessions(&mut self.sessions, removed);
        self.next_client += 1;
        Ok(Exchanged {
            client: number,
            sequence: 1,
            is_confirmed: false,
        })
    }

    /// The client has a confirmed record: the owner's unconfirmed record is removed, and the client's lease is
    /// renewed.
    fn meet(&mut self, owner: &[u8], client: u64, now: u64)
        ensures { self.new ≡ without_unconfirmed owner.now self.old }
    {
        remove_unconfirmed(&mut self.clients, owner);
        self.renew(client, now);
    }

    /// EXCHANGE_ID.
    pub fn exchange(&mut self, asked: Exchange<'_>) -> Result<Exchanged, Status>
        ensures { Exchanges self.old (exchanging_of asked.entry) result self.new }
    {
        match self.judge_exchange(asked) {
            ExchangeDecision::Refuses(status) => Err(status),
            ExchangeDecision::Knows(confirmed_answer) => {
                self.meet(asked.owner, confirmed_answer.client, asked.now);
                Ok(confirmed_answer)
            }
            ExchangeDecision::Makes(removed) => self.make_client(asked, removed),
        }
    }
}
