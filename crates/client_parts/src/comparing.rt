//! Two states of clients are compared: a server's, and the one that was read.
ghost use Rattle.std.specs.Prelude.{◌≡◌, ◌<◌, ◌↔◌, ℕ, IsTrue};
ghost use Rattle.std.specs.Option.{option_map};
ghost use Rattle.session_slots.specs.Registry.{client_at};
ghost use Rattle.session_slots.specs.Restoring.{kept_at};
ghost use Rattle.session_slots.specs.Views.{client_of, kept_of};
ghost use Rattle.client_parts.specs.Comparing.{IsSessionSame, AreSame};
ghost use Rattle.client_parts.specs.internal.Comparing.{first_of};
ghost use Rattle.compound_run.specs.Views.{lent_view, open_view, opens_view};

use compound_run::{Lent, Open};
use nfs_types::Status;
use session_slots::{CachedCall, Channel, Clients, Created, Creation, Record};
use std::alloc::Allocator;

/// Whether two channels are equal.
fn is_same_channel(a: Channel, b: Channel) -> bool
    ensures { IsTrue result ↔ (a ≡ b) }
{
    a.padding == b.padding
        && a.request_size == b.request_size
        && a.reply_size == b.reply_size
        && a.cached_size == b.cached_size
        && a.operations == b.operations
        && a.slots == b.slots
}

/// Whether two results of CREATE_SESSION that made a session are equal.
fn is_same_created(a: Created, b: Created) -> bool
    ensures { IsTrue result ↔ (a ≡ b) }
{
    a.session == b.session
        && a.sequence == b.sequence
        && a.persist == b.persist
        && is_same_channel(a.fore, b.fore)
        && is_same_channel(a.back, b.back)
}

/// Whether two statuses are equal.
fn is_same_status(a: Status, b: Status) -> bool
    ensures { IsTrue result ↔ (a ≡ b) }
{
    a == b
}

/// Whether two results of CREATE_SESSION are equal.
fn is_same_result(a: Result<Created, Status>, b: Result<Created, Status>) -> bool
    ensures { IsTrue result ↔ (a ≡ b) }
{
    match (a, b) {
        (Ok(x), Ok(y)) => is_same_created(x, y),
        (Err(x), Err(y)) => is_same_status(x, y),
        _ => false,
    }
}

/// Whether two cached calls of CREATE_SESSION are equal.
fn is_same_creation(a: Creation, b: Creation) -> bool
    ensures { IsTrue result ↔ (a ≡ b) }
{
    a.number == b.number && is_same_result(a.result, b.result)
}

/// Whether the last CREATE_SESSION is equal, or absent in both.
fn are_created_same(a: Option<Creation>, b: Option<Creation>) -> bool
    ensures { IsTrue result ↔ (a ≡ b) }
{
    match (a, b) {
        (None, None) => true,
        (Some(x), Some(y)) => is_same_creation(x, y),
        _ => false,
    }
}

/// Whether two records are equal.
fn is_same_record(a: Record<'_>, b: Record<'_>) -> bool
    ensures { IsTrue result ↔ (client_of a.entry ≡ client_of b.entry) }
{
    are_created_same(a.created, b.created)
        && a.number == b.number
        && a.owner == b.owner
        && a.verifier == b.verifier
        && a.uid == b.uid
        && a.confirmed == b.confirmed
        && a.reclaimed == b.reclaimed
}

/// Whether a client has equal records in both, or none in both.
fn is_record_same<A: Allocator + Copy>(a: &Clients<A>, b: &Clients<A>, number: u64) -> bool
    ensures { IsTrue result ↔ (client_at a.now number ≡ client_at b.now number) }
{
    match (a.record(number), b.record(number)) {
        (None, None) => true,
        (Some(x), Some(y)) => is_same_record(x, y),
        _ => false,
    }
}

/// The lesser of two numbers.
fn first(x: Option<u64>, y: Option<u64>) -> Option<u64>
    ensures { result ≡ first_of x y }
{
    match (x, y) {
        (Some(m), Some(n)) => Some(m.min(n)),
        (Some(m), None) => Some(m),
        (None, y) => y,
    }
}

/// Whether each client has equal records in both.
fn are_records_same<A: Allocator + Copy>(a: &Clients<A>, b: &Clients<A>) -> bool
    ensures { IsTrue result ↔ ((number : ℕ) → client_at a.now number ≡ client_at b.now number) }
{
    let _orderly = (a.counts(), b.counts());
    let mut at = 0;
    while let Some(number) = first(a.client_from(at), b.client_from(at)) {
        if !is_record_same(a, b, number) {
            return false;
        }
        at = number + 1;
    }
    true
}

/// Whether two calls are equal.
fn is_same_call(a: CachedCall<'_>, b: CachedCall<'_>) -> bool
    ensures { IsTrue result ↔ (kept_of a.entry ≡ kept_of b.entry) }
{
    a.number == b.number
        && a.caller == b.caller
        && a.arguments == b.arguments
        && a.results == b.results
}

/// Whether two slots cache equal calls, or none.
fn are_calls_same(a: Option<CachedCall<'_>>, b: Option<CachedCall<'_>>) -> bool
    ensures { IsTrue result ↔ (option_map kept_of a.entry ≡ option_map kept_of b.entry) }
{
    match (a, b) {
        (None, None) => true,
        (Some(x), Some(y)) => is_same_call(x, y),
        _ => false,
    }
}

/// Whether the first `slots` slots of a session cache equal calls.
fn are_slots_same<A: Allocator + Copy>(
    a: &Clients<A>,
    b: &Clients<A>,
    session: u64,
    slots: u32,
) -> bool
    ensures { IsTrue result ↔ ((slot : ℕ) → slot < slots → kept_at a.now session slot ≡ kept_at b.now session slot) }
{
    for slot in 0..slots {
        if !are_calls_same(a.kept(session, slot), b.kept(session, slot)) {
            return false;
        }
    }
    true
}

/// Whether a session and its slots are equal, or absent in both.
fn is_session_same<A: Allocator + Copy>(a: &Clients<A>, b: &Clients<A>, number: u64) -> bool
    ensures { IsTrue result ↔ IsSessionSame a.now b.now number }
{
    match (a.held(number), b.held(number)) {
        (None, None) => true,
        (Some(x), Some(y)) => x == y && are_slots_same(a, b, number, x.granted.slots),
        _ => false,
    }
}

/// Whether each session and its slots are equal.
fn are_sessions_same<A: Allocator + Copy>(a: &Clients<A>, b: &Clients<A>) -> bool
    ensures { IsTrue result ↔ ((number : ℕ) → IsSessionSame a.now b.now number) }
{
    let _orderly = (a.counts(), b.counts());
    let mut at = 0;
    while let Some(number) = first(a.session_from(at), b.session_from(at)) {
        if !is_session_same(a, b, number) {
            return false;
        }
        at = number + 1;
    }
    true
}

/// Whether two open files are equal.
fn is_same_open<A: Allocator>(a: &Open<A>, b: &Open<A>) -> bool
    ensures { IsTrue result ↔ (open_view a.now ≡ open_view b.now) }
{
    a.number == b.number
        && a.client == b.client
        && a.owner.as_slice() == b.owner.as_slice()
        && a.object == b.object
        && a.access == b.access
        && a.seqid == b.seqid
}

/// Whether the open files are equal.
fn are_opens_same<A: Allocator>(a: &[Open<A>], b: &[Open<A>]) -> bool
    ensures { IsTrue result ↔ (opens_view a.now ≡ opens_view b.now) }
{
    if a.len() != b.len() {
        return false;
    }
    for at in 0..a.len() {
        if !is_same_open(&a[at], &b[at]) {
            return false;
        }
    }
    true
}

/// Whether the next client and the next session get the same numbers.
fn are_numbers_same<A: Allocator + Copy>(a: &Clients<A>, b: &Clients<A>) -> bool
    ensures { IsTrue result ↔ ((a.now.next_client ≡ b.now.next_client) × (a.now.next_session ≡ b.now.next_session)) }
{
    let (client, session) = a.next_numbers();
    let (other_client, other_session) = b.next_numbers();
    client == other_client && session == other_session
}

/// Whether the limits are equal. Those of one profile are.
fn are_limits_same<A: Allocator + Copy>(a: &Clients<A>, b: &Clients<A>) -> bool
    ensures { IsTrue result ↔ (a.now.limits ≡ b.now.limits) }
{
    a.limits().profile() == b.limits().profile()
}

/// Whether two states of clients are equal: the limits, the records, the sessions with the cached
/// calls of their slots, the open files, and the next numbers.
pub fn are_same<A: Allocator + Copy>(old: Lent<'_, A>, new: Lent<'_, A>) -> bool
    ensures { IsTrue result ↔ AreSame (lent_view old.entry) (lent_view new.entry) }
{
    if old.next_open != new.next_open {
        return false;
    }
    if !are_limits_same(old.clients, new.clients) {
        return false;
    }
    if !are_numbers_same(old.clients, new.clients) {
        return false;
    }
    if !are_records_same(old.clients, new.clients) {
        return false;
    }
    if !are_sessions_same(old.clients, new.clients) {
        return false;
    }
    are_opens_same(old.opens, new.opens)
}
