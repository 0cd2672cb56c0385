//! CREATE_SESSION (RFC 8881, section 18.36).
ghost use Rattle.std.specs.Prelude.{◌≡◌, ◌<◌, ◌^◌, Ok, Err, Some, None, OnOk, OnErr};
ghost use Rattle.std.specs.BTreeMap.{insert_entry};
ghost use Rattle.std.specs.Ordering.{nat_cmp};
ghost use Rattle.session_slots.specs.Registry.{new_session};
ghost use Rattle.session_slots.specs.Creating.{judged, creation_fault, granted, refusing, delayed, MakesSession};
ghost use Rattle.session_slots.specs.Creating.{Creates};

use crate::changes::{accept, add_session, confirm, other_in, remove_record, remove_sessions};
use crate::client::{Client, Created, Creation};
use crate::limits::{END, LEAST_REPLY, MOST_BYTES, MOST_OPERATIONS, MOST_SLOTS};
use crate::registry::Registry;
use crate::session::{Channel, Session};
use nfs_types::Status;
use std::alloc::Allocator;

/// The arguments of CREATE_SESSION, and the caller.
#[derive(Clone, Copy)]
pub struct Create {
    /// The client.
    pub client: u64,
    /// The sequence ID of the call.
    pub sequence: u32,
    /// The user of the caller.
    pub uid: u32,
    /// Whether CREATE_SESSION4_FLAG_PERSIST is asked for.
    pub persist: bool,
    /// Whether the server's sessions are persistent, and it may grant the flag.
    pub lasting: bool,
    /// The fore channel that is requested.
    pub fore: Channel,
    /// The backchannel that is requested.
    pub back: Channel,
}

/// The answer to CREATE_SESSION.
#[derive(Clone, Copy, PartialEq, Eq)]
pub struct Made {
    /// The session, or why none is created.
    pub result: Result<Created, Status>,
    /// The client whose record was removed, with its sessions.
    pub removed: Option<u64>,
}

impl Made {
    fn refused(status: Status) -> Self
        ensures { result ≡ refusing status }
    {
        Made {
            result: Err(status),
            removed: None,
        }
    }

    fn delayed() -> Self
        ensures { result ≡ delayed }
    {
        Made::refused(Status::Delay)
    }
}

/// The decision on a CREATE_SESSION, before memory is allocated.
#[derive(Clone, Copy, PartialEq, Eq)]
enum Judged {
    /// The call is answered, and nothing changes.
    Answers(Made),
    /// The call is refused, and cached.
    Refuses(Status),
    /// The call creates a session, and the record of this client is removed.
    Makes(Option<u64>),
}

/// The part of a channel that is granted.
fn granted(asked: Channel) -> Channel
    ensures { result ≡ granted asked }
{
    let reply_size = asked.reply_size.min(MOST_BYTES);
    Channel {
        padding: 0,
        request_size: asked.request_size.min(MOST_BYTES),
        reply_size,
        cached_size: reply_size,
        operations: asked.operations.min(MOST_OPERATIONS).max(1),
        slots: asked.slots.min(MOST_SLOTS).max(1),
    }
}

impl<A: Allocator + Copy> Registry<A> {
    /// Why a CREATE_SESSION with the next sequence ID is refused.
    fn creation_fault(&self, client: &Client<A>, asked: Create) -> Option<Status>
        ensures { result ≡ creation_fault client.now self.now asked }
    {
        if !client.is_confirmed() && client.uid() != asked.uid {
            return Some(Status::ClidInUse);
        }
        if asked.fore.reply_size < LEAST_REPLY {
            return Some(Status::TooSmall);
        }
        if self.sessions.len() >= self.limits.sessions() || self.next_session >= END {
            return Some(Status::NoSpc);
        }
        None
    }

    /// The decision on a CREATE_SESSION, before memory is allocated.
    fn judge_creation(&self, asked: Create) -> Judged
        ensures { result ≡ judged self.now asked }
    {
        let Some(client) = self.clients.get(&asked.client) else {
            return Judged::Answers(Made::refused(Status::StaleClientId));
        };
        if let Some(result) = client.cached_result(asked.sequence) {
            return Judged::Answers(Made {
                result,
                removed: None,
            });
        }
        if asked.sequence != client.due() {
            return Judged::Answers(Made::refused(Status::SeqMisordered));
        }
        if let Some(status) = self.creation_fault(client, asked) {
            return Judged::Refuses(status);
        }
        Judged::Makes(other_in(&self.clients, client.owner(), asked.client))
    }

    /// Creates a session, and confirms its client. The owner's other confirmed record is removed with its sessions.
    fn make_session(&mut self, asked: Create, other: Option<u64>) -> Made
        requires { self.old.next_session < 2 ^ 63 }
        ensures { MakesSession self.old asked other result self.new }
    {
        let granted = granted(asked.fore);
        let Ok(session) = Session::new(self.alloc, asked.client, granted) else {
            return Made::delayed();
        };
        let number = self.next_session;
        if let Err(_) = add_session(&mut self.sessions, number, session) {
            return Made::refused(Status::Delay);
        }
        remove_sessions(&mut self.sessions, other);
        remove_record(&mut self.clients, other);
        let created = Created {
            session: number,
            sequence: asked.sequence,
            persist: asked.persist && asked.lasting,
            fore: granted,
            back: asked.back,
        };
        let creation = Creation {
            number: asked.sequence,
            result: Ok(created),
        };
        confirm(&mut self.clients, asked.client, creation);
        self.next_session += 1;
        Made {
            result: Ok(created),
            removed: other,
        }
    }

    /// CREATE_SESSION.
    pub fn create(&mut self, asked: Create) -> Made
        ensures { Creates self.old asked result self.new }
    {
        match self.judge_creation(asked) {
            Judged::Answers(made) => made,
            Judged::Refuses(status) => {
                let creation = Creation {
                    number: asked.sequence,
                    result: Err(status),
                };
                accept(&mut self.clients, asked.client, creation);
                Made::refused(status)
            }
            Judged::Makes(other) => self.make_session(asked, other),
        }
    }
}
