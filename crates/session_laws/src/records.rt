//! Records of clients, and the histories of CREATE_SESSION that they represent (RFC 8881, section 18.36).
ghost use Rattle.std.specs.Prelude.{◌≡◌, ℕ, ◌<◌, ◌^◌, true, List, Option, IfSome};
ghost use Rattle.session_slots.specs.declared.client.Creation.{Creation};
ghost use Rattle.session_slots.specs.Counting.{last_number};
ghost use Rattle.session_slots.specs.Creating.{number_of, RecordRepresents};
ghost use Rattle.session_slots.specs.Orderly.{has_creation_form, IsIn, IsOrderly};
ghost use Rattle.session_slots.specs.Registry.{Client, Registry, client_at};

use session_slots::{Clients, Record};
use std::alloc::Allocator;

/// A record whose last call has the form of a cached call represents some history of calls (`formed`). So does each
/// record of an orderly registry (`orderly`). Both assume that a sequence ID is below 2^32.
#[tactic(auto, using(crate::proofs::Recording::some_history, crate::proofs::Recording::orderly_history))]
pub fn every_record_has_a_history()
    ensures formed { (last : Option Creation) → has_creation_form last ≡ true → last_number number_of last < 2 ^ 32 →
        (history : List Creation) × RecordRepresents last history }
    ensures orderly { (r : Registry) (e : ℕ × Client) → IsOrderly r → IsIn e r.clients →
        last_number number_of e.1.created < 2 ^ 32 → (history : List Creation) × RecordRepresents e.1.created history }
{}

/// The sequence ID of a record that is read is below 2^32, by its type.
fn number_fits(kept: Record<'_>)
    ensures { last_number number_of kept.entry.created < 2 ^ 32 }
{}

/// Each record of a program's clients represents some history, whatever calls came. Nothing is assumed: the record is
/// read here.
#[tactic(auto, using(crate::proofs::Recording::no_client))]
pub fn every_client_has_a_history<A: Allocator + Copy>(clients: &Clients<A>, client: u64)
    ensures { IfSome (client_at clients.now client)
        (λ c. (history : List Creation) × RecordRepresents c.created history) }
{
    if let Some(kept) = clients.record(client) {
        number_fits(kept);
    }
}
