//! Records and sessions are in order: what is known of them once all were examined.
ghost use Rattle.std.specs.Prelude.{◌≡◌, ◌<◌, ◌^◌, ℕ, option_map};
ghost use Rattle.session_slots.specs.Counting as counting;
ghost use Rattle.session_slots.specs.Restoring.{kept_at};
ghost use Rattle.session_slots.specs.Slots as slots;
ghost use Rattle.session_slots.specs.Views.{kept_of};
ghost use Rattle.checkpoint.specs.Covering.{IsInOrder, IsSessionInOrder};

use session_slots::{CachedCall, Clients};
use std::alloc::Allocator;

/// The sequence ID of the last call of a slot: 0 if it caches none.
fn last_number(kept: Option<CachedCall<'_>>) -> u32
    ensures { result ≡ counting.last_number slots.number_of (option_map kept_of kept.entry) }
{
    match kept {
        Some(kept) => kept.number,
        None => 0,
    }
}

/// Examines the first slots of a session.
fn see_slots<A: Allocator + Copy>(clients: &Clients<A>, session: u64, count: u32)
    ensures { (slot : ℕ) → slot < count →
        counting.last_number slots.number_of (kept_at clients.now session slot) < 2 ^ 32 }
{
    for slot in 0..count {
        let _number = last_number(clients.kept(session, slot));
    }
}

/// Examines a session.
fn see_session<A: Allocator + Copy>(clients: &Clients<A>, number: u64)
    ensures { IsSessionInOrder clients.now number }
{
    if let Some(held) = clients.held(number) {
        see_slots(clients, number, held.granted.slots);
    }
}

/// Examines all sessions: at most 256, of at most 8 slots each.
pub(crate) fn see_all<A: Allocator + Copy>(clients: &Clients<A>)
    ensures { IsInOrder clients.now }
{
    let _rising = clients.counts();
    let mut at = 0;
    while let Some(number) = clients.session_from(at) {
        see_session(clients, number);
        at = number + 1;
    }
}
