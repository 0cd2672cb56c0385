//! A session (RFC 8881, section 2.10).
ghost use Rattle.std.specs.Prelude.{◌≡◌, ◌≤◌, ◌<◌, length, map, slice_get, Some, IfSome, IfOk};
ghost use Rattle.std.specs.Option.{option_copied};
ghost use Rattle.session_slots.specs.Covering.{lagging, session_lagging};
ghost use Rattle.session_slots.specs.Slots.{begun, finished, restored};
ghost use Rattle.session_slots.specs.Registry.{changed_place, cache_size, with_place, unused_places, new_session};
ghost use Rattle.session_slots.specs.Registry.{restored_session};
ghost use Rattle.session_slots.specs.Restoring.{held_of, slot_fits};
ghost use Rattle.session_slots.specs.Views.{asked_of, bytes_of, call_of, kept_of};
ghost use Rattle.session_slots.specs.Sequencing.{HasSlots, grant_fault, place_turn, begin_of, session_begin};
ghost use Rattle.session_slots.specs.Sequencing.{session_begun};

use crate::call_bytes::CallBytes;
use crate::limits::REPLY_HEADER;
use crate::slot::{CachedCall, Slot, Turn};
use nfs_types::Status;
use rpc_record::Caller;
use std::alloc::{AllocError, Allocator, Global};
use std::marker::Model;

/// The attributes of a channel, `channel_attrs4` (RFC 8881, section 18.36), RDMA apart.
#[derive(Clone, Copy, Debug, PartialEq, Eq)]
pub struct Channel {
    /// Padding of requests and replies, in bytes.
    pub padding: u32,
    /// The most bytes of a request.
    pub request_size: u32,
    /// The most bytes of a reply.
    pub reply_size: u32,
    /// The most bytes of a reply that is cached.
    pub cached_size: u32,
    /// The most operations of a COMPOUND.
    pub operations: u32,
    /// The number of slots.
    pub slots: u32,
}

/// The arguments of SEQUENCE (RFC 8881, section 18.46), and its COMPOUND.
#[derive(Clone, Copy)]
pub struct Sequence<'a> {
    /// The slot.
    pub slot: u32,
    /// The sequence ID of the call.
    pub number: u32,
    /// The highest slot that is in use.
    pub highest: u32,
    /// How many operations the COMPOUND has, with SEQUENCE.
    pub count: u32,
    /// How many bytes the call's record has.
    pub record_len: usize,
    /// The bytes that a retry of the call has to repeat, of those after its header.
    pub arguments: CallBytes<'a>,
    /// The caller.
    pub caller: &'a Caller,
    /// The second of the server's clock. In it a new call and a retry renew the client's lease, unless a monotonic
    /// second is set ([`crate::Clients::set_second`]).
    pub now: u64,
}

/// A new call on a slot.
#[derive(Clone, Copy, Debug, PartialEq, Eq)]
pub struct NewCall {
    /// The client of the session.
    pub client: u64,
    /// The most bytes of the reply.
    pub reply_size: u32,
    /// The highest slot of the session.
    pub highest_slot: u32,
}

/// The answer to SEQUENCE.
#[derive(Clone, Copy, Debug, PartialEq, Eq)]
pub enum Begin {
    /// The call is new: its operations run, and its results are cached at the end.
    New(NewCall),
    /// The call is a retry of the last call of its slot: it gets the cached results.
    Repeat,
    /// The call is refused.
    Refused(Status),
}

/// A session, as it is stored, without its slots.
#[derive(Clone, Copy, Debug, PartialEq, Eq)]
pub struct Held {
    /// The client of the session.
    pub client: u64,
    /// The fore channel, as granted.
    pub granted: Channel,
}

/// A session.
#[derive(Drop)]
pub struct Session<A: Allocator = Global> {
    client: u64,
    granted: Channel,
    slots: Vec<Slot<A>, A>,
}

impl<A: Allocator> Model for Session<A> {
    ghost use Rattle.session_slots.specs.Registry.{Session};
    ghost use Rattle.session_slots.specs.Sequencing.{HasSlots};

    ghost Value = { Session };

    ghost view = { λ s. record { client = s.client; granted = s.granted; slots = s.slots.items } };

    ghost invariant = { λ s. HasSlots s.granted s.slots.items };
}

/// The limits of a new call.
fn begin_of(client: u64, granted: Channel, turn: Turn) -> Begin
    requires { 1 ≤ granted.slots }
    ensures { result ≡ begin_of client granted turn }
{
    match turn {
        Turn::New => Begin::New(NewCall {
            client,
            reply_size: granted.reply_size,
            highest_slot: granted.slots - 1,
        }),
        Turn::Repeat => Begin::Repeat,
        Turn::Refused(status) => Begin::Refused(status),
    }
}

/// Begins a call on one of these slots.
#[tactic(auto, using(crate::proofs::Places::changed_there, crate::proofs::Places::is_there))]
fn begin_at<A: Allocator + Copy>(slots: &mut Vec<Slot<A>, A>, asked: Sequence<'_>) -> Turn
    requires within { asked.slot < length slots.old.items }
    requires room { IfSome (slice_get slots.old.items asked.slot)
        (λ p. length (bytes_of asked.arguments) ≤ p.most_arguments) }
    ensures turn { result ≡ place_turn (slice_get slots.old.items asked.entry.slot) (call_of asked.entry) }
    ensures begun { slots.new.items ≡ changed_place asked.entry.slot (λ p. begun p (call_of asked.entry))
        slots.old.items }
{
    let index = asked.slot as usize;
    let slot = &mut slots[index];
    slot.begin(asked.number, asked.arguments, asked.caller)
}

/// Caches the results of the newest call of one of these slots.
#[tactic(auto, using(crate::proofs::Places::changed_there, crate::proofs::Places::is_there))]
fn keep_at<A: Allocator + Copy>(slots: &mut Vec<Slot<A>, A>, index: usize, results: &[u8])
    requires within { index < length slots.old.items }
    requires room { IfSome (slice_get slots.old.items index) (λ p. length results.now ≤ p.most_results) }
    ensures { slots.new.items ≡ changed_place index (λ p. finished p results.now) slots.old.items }
{
    let slot = &mut slots[index];
    slot.keep(results);
}

/// Makes one of these slots lag.
#[tactic(auto, using(crate::proofs::Places::changed_there, crate::proofs::Places::is_there))]
fn lag_at<A: Allocator + Copy>(slots: &mut Vec<Slot<A>, A>, index: usize)
    requires within { index < length slots.old.items }
    ensures { slots.new.items ≡ changed_place index lagging slots.old.items }
{
    let slot = &mut slots[index];
    slot.lag();
}

/// Makes each of these slots lag.
fn lag_each<A: Allocator + Copy>(slots: &mut Vec<Slot<A>, A>)
    ensures { slots.new.items ≡ map lagging slots.old.items }
{
    for slot in slots.iter_mut() {
        slot.lag();
    }
}

/// Caches a call of before a restart as the last one of one of these slots.
#[tactic(auto, using(crate::proofs::Places::changed_there, crate::proofs::Places::is_there))]
fn restore_at<A: Allocator + Copy>(slots: &mut Vec<Slot<A>, A>, index: usize, kept: CachedCall<'_>)
    requires within { index < length slots.old.items }
    requires arguments { IfSome (slice_get slots.old.items index) (λ p. length kept.arguments.now ≤ p.most_arguments) }
    requires results { IfSome (slice_get slots.old.items index) (λ p. length kept.results.now ≤ p.most_results) }
    ensures { slots.new.items ≡ changed_place index (restored (kept_of kept.entry)) slots.old.items }
{
    let slot = &mut slots[index];
    slot.restore(kept);
}

/// `count` slots that cache no call, and lag or have accepted none, each with this room.
fn new_slots<A: Allocator + Copy>(
    alloc: A,
    lags: bool,
    count: u32,
    most_arguments: usize,
    most_results: usize,
) -> Result<Vec<Slot<A>, A>, AllocError>
    ensures { IfOk result (λ slots. slots.items ≡ unused_places lags count most_arguments most_results) }
{
    let mut slots = Vec::with_capacity(alloc, count as usize)?;
    for _ in 0..count {
        slots.push(Slot::new(alloc, lags, most_arguments, most_results)?)?;
    }
    Ok(slots)
}

impl<A: Allocator + Copy> Session<A> {
    /// A session of a client, with the granted channels. Its slots have accepted no call, and have room for their
    /// calls and replies. `Err`: an allocation failed.
    #[tactic(auto, using(crate::proofs::Places::unused_has_slots))]
    pub fn new(alloc: A, client: u64, granted: Channel) -> Result<Self, AllocError>
        requires { 1 ≤ granted.slots }
        ensures { IfOk result (λ session. session ≡ new_session client granted) }
    {
        let arguments = granted.request_size as usize;
        let results = (granted.reply_size as usize).saturating_sub(REPLY_HEADER);
        Ok(Session {
            client,
            granted,
            slots: new_slots(alloc, false, granted.slots, arguments, results)?,
        })
    }

    /// A session of before a restart. Its slots lag and cache no call yet. `Err`: an allocation failed.
    #[tactic(auto, using(crate::proofs::Places::unused_has_slots))]
    pub fn restored(alloc: A, held: Held) -> Result<Self, AllocError>
        requires { 1 ≤ held.granted.slots }
        ensures { IfOk result (λ session. session ≡ restored_session held.client held.granted) }
    {
        let granted = held.granted;
        let arguments = granted.request_size as usize;
        let results = (granted.reply_size as usize).saturating_sub(REPLY_HEADER);
        Ok(Session {
            client: held.client,
            granted,
            slots: new_slots(alloc, true, granted.slots, arguments, results)?,
        })
    }

    /// The session, as it is stored, without its slots.
    pub fn held(&self) -> Held
        ensures held { result ≡ held_of self.now }
        ensures slots { HasSlots self.now.granted self.now.slots }
    {
        Held {
            client: self.client,
            granted: self.granted,
        }
    }

    /// Whether a call of before a restart fits a slot.
    pub fn has_room(&self, number: u32, kept: CachedCall<'_>) -> bool
        ensures { result ≡ slot_fits (Some self.now) number (kept_of kept.entry) }
    {
        let granted = &self.granted;
        number < granted.slots
            && (kept.arguments.len() <= granted.request_size as usize
                && kept.results.len() <= (granted.reply_size as usize).saturating_sub(REPLY_HEADER))
    }

    /// Caches a call of before a restart as the last one of a slot, which lags. It allocates no memory.
    #[tactic(auto, using(crate::proofs::Places::restored_slot_facts))]
    pub fn restore(&mut self, number: u32, kept: CachedCall<'_>)
        requires slot { number < self.old.granted.slots }
        requires arguments { length kept.arguments.now ≤ self.old.granted.request_size }
        requires results { length kept.results.now ≤ cache_size self.old.granted }
        ensures { self.new ≡ with_place number (restored (kept_of kept.entry)) self.old }
    {
        restore_at(&mut self.slots, number as usize, kept);
    }

    /// The client ID of the session's client.
    pub fn client(&self) -> u64
        ensures { result ≡ self.now.client }
    {
        self.client
    }

    /// The slot of a number.
    #[tactic(auto, using(crate::proofs::Places::has_size, crate::proofs::Places::has_argument_size))]
    pub fn slot(&self, number: u32) -> Option<&Slot<A>>
        ensures slot { option_copied result ≡ slice_get self.now.slots number }
        ensures room { IfSome (slice_get self.now.slots number) (λ p. p.most_results ≡ cache_size self.now.granted) }
        ensures argument_room { IfSome (slice_get self.now.slots number)
            (λ p. p.most_arguments ≡ self.now.granted.request_size) }
        ensures slots { HasSlots self.now.granted self.now.slots }
    {
        self.slots.get(number as usize)
    }

    /// Why a call is refused before its sequence ID is checked.
    fn fault(&self, asked: Sequence<'_>) -> Option<Status>
        ensures { result ≡ grant_fault self.now.granted (asked_of asked.entry) }
    {
        let granted = &self.granted;
        if asked.record_len > granted.request_size as usize {
            return Some(Status::ReqTooBig);
        }
        if asked.count > granted.operations {
            return Some(Status::TooManyOps);
        }
        if asked.slot >= granted.slots {
            return Some(Status::BadSlot);
        }
        if asked.highest >= granted.slots {
            return Some(Status::BadHighSlot);
        }
        None
    }

    /// Begins a call on a slot. It allocates no memory.
    #[tactic(auto, using(crate::proofs::Places::begun_has_slots, crate::proofs::Places::has_room_for_arguments))]
    pub fn begin(&mut self, asked: Sequence<'_>) -> Begin
        requires { length (bytes_of asked.arguments) ≤ asked.record_len }
        ensures answer { result ≡ session_begin self.old (asked_of asked.entry) }
        ensures begun { self.new ≡ session_begun self.old (asked_of asked.entry) }
    {
        if let Some(status) = self.fault(asked) {
            return Begin::Refused(status);
        }
        let turn = begin_at(&mut self.slots, asked);
        begin_of(self.client, self.granted, turn)
    }

    /// Caches the results of the newest call of a slot. It allocates no memory.
    #[tactic(auto, using(crate::proofs::Places::finished_has_slots, crate::proofs::Places::has_room_for_results))]
    pub fn keep(&mut self, number: u32, results: &[u8])
        requires slot { number < self.old.granted.slots }
        requires few { length results.now ≤ cache_size self.old.granted }
        ensures { self.new ≡ with_place number (λ p. finished p results.now) self.old }
    {
        keep_at(&mut self.slots, number as usize, results);
    }

    /// Makes a slot lag, if it exists.
    #[tactic(auto, using(crate::proofs::Places::lagging_has_slots, crate::proofs::Places::none_there))]
    pub fn lag(&mut self, number: u32)
        ensures { self.new ≡ with_place number lagging self.old }
    {
        if number < self.granted.slots {
            lag_at(&mut self.slots, number as usize);
        }
    }

    /// Makes all slots lag.
    pub fn lag_all(&mut self)
        ensures { self.new ≡ session_lagging self.old }
    {
        lag_each(&mut self.slots);
    }
}
