//! Changes of clients and of sessions, by number.
ghost use Rattle.std.specs.Prelude.{◌≡◌, ◌==◌, ◌||◌, true, not, filter, find, length, map, Some, Ok, OnOk, OnErr};
ghost use Rattle.std.specs.Option.{option_copied};
ghost use Rattle.std.specs.List.{list_any};
ghost use Rattle.std.specs.Map.{values_of};
ghost use Rattle.std.specs.BTreeMap.{insert_entry};
ghost use Rattle.std.specs.Ordering.{nat_cmp};
ghost use Rattle.session_slots.specs.Covering.{session_lagging};
ghost use Rattle.session_slots.specs.Destroying.{has_reclaimed};
ghost use Rattle.session_slots.specs.Exchanging.{goes, stays, is_unconfirmed_of};
ghost use Rattle.session_slots.specs.Creating.{other_record};
ghost use Rattle.session_slots.specs.Registry.{is_confirmed_of, changed_client, without_record, without_sessions};

use crate::client::{Client, Creation};
use crate::session::Session;
use std::alloc::{AllocError, Allocator};
use std::collections::BTreeMap;

/// Caches a CREATE_SESSION of a client.
pub fn accept<A: Allocator>(
    clients: &mut BTreeMap<u64, Client<A>, A>,
    number: u64,
    creation: Creation,
)
    ensures { clients.new.entries ≡ changed_client number (λ c. record c { created = Some creation })
        clients.old.entries }
{
    if let Some(client) = clients.get_mut(&number) {
        client.accept(creation);
    }
}

/// Confirms a client.
pub fn confirm<A: Allocator>(
    clients: &mut BTreeMap<u64, Client<A>, A>,
    number: u64,
    creation: Creation,
)
    ensures { clients.new.entries ≡ changed_client number (λ c. record c { confirmed = true; created = Some creation })
        clients.old.entries }
{
    if let Some(client) = clients.get_mut(&number) {
        client.confirm(creation);
    }
}

/// Removes the sessions of the client `removed`, if any.
pub fn remove_sessions<A: Allocator + Copy>(
    sessions: &mut BTreeMap<u64, Session<A>, A>,
    removed: Option<u64>,
)
    ensures { sessions.new.entries ≡ without_sessions removed sessions.old.entries }
{
    if let Some(client) = removed {
        remove_sessions_of(sessions, client);
    }
}

/// Removes the sessions of a client.
fn remove_sessions_of<A: Allocator + Copy>(sessions: &mut BTreeMap<u64, Session<A>, A>, client: u64)
    ensures { sessions.new.entries ≡ filter (λ e. not (e.1.client == client)) sessions.old.entries }
{
    sessions.retain(|_, session| session.client() != client);
}

/// Makes all slots of these sessions lag.
pub fn lag_each<A: Allocator + Copy>(sessions: &mut BTreeMap<u64, Session<A>, A>)
    ensures { sessions.new.entries ≡ map (λ e. (e.0, session_lagging e.1)) sessions.old.entries }
{
    sessions.retain(|_, session| {
        session.lag_all();
        true
    });
}

/// Removes the unconfirmed record of an owner.
pub fn remove_unconfirmed<A: Allocator>(clients: &mut BTreeMap<u64, Client<A>, A>, owner: &[u8])
    ensures { clients.new.entries ≡ filter (λ e. not (is_unconfirmed_of owner.now e.1)) clients.old.entries }
{
    clients.retain(|_, client| !client.is_unconfirmed_of(owner));
}

/// Whether this client is removed.
fn goes(removed: Option<u64>, number: u64) -> bool
    ensures { result ≡ goes removed number }
{
    match removed {
        Some(client) => number == client,
        None => false,
    }
}

/// Whether a record stays when its owner gets a new one and the client `removed` is removed.
fn stays<A: Allocator>(removed: Option<u64>, owner: &[u8], number: u64, client: &Client<A>) -> bool
    ensures { result ≡ stays removed owner.now (number, client.now) }
{
    !client.is_unconfirmed_of(owner) && !goes(removed, number)
}

/// Removes the records that don't stay when an owner gets this new one and the client `removed` is removed.
pub fn remove_others<A: Allocator>(
    clients: &mut BTreeMap<u64, Client<A>, A>,
    number: u64,
    owner: &[u8],
    removed: Option<u64>,
)
    ensures { clients.new.entries ≡ filter (λ e. e.0 == number || stays removed owner.now e) clients.old.entries }
{
    clients.retain(|n, client| *n == number || stays(removed, owner, *n, client));
}

/// Removes the record of the client `removed`, if any.
pub fn remove_record<A: Allocator>(clients: &mut BTreeMap<u64, Client<A>, A>, removed: Option<u64>)
    ensures { clients.new.entries ≡ without_record removed clients.old.entries }
{
    if let Some(number) = removed {
        remove_number(clients, number);
    }
}

/// Removes the record of this client ID.
fn remove_number<A: Allocator>(clients: &mut BTreeMap<u64, Client<A>, A>, number: u64)
    ensures { clients.new.entries ≡ filter (λ e. not (e.0 == number)) clients.old.entries }
{
    clients.retain(|n, _| *n != number);
}

/// Records that a client has sent RECLAIM_COMPLETE.
pub fn reclaim<A: Allocator>(clients: &mut BTreeMap<u64, Client<A>, A>, number: u64)
    ensures { clients.new.entries ≡ changed_client number has_reclaimed clients.old.entries }
{
    if let Some(client) = clients.get_mut(&number) {
        client.reclaim();
    }
}

/// Renews a client's lease in this second.
pub fn renew<A: Allocator>(clients: &mut BTreeMap<u64, Client<A>, A>, number: u64, now: u64)
    ensures { clients.new.entries ≡ changed_client number (λ c. c) clients.old.entries }
{
    if let Some(client) = clients.get_mut(&number) {
        client.renew(now);
    }
}

/// Whether a client has sessions.
pub fn has_sessions<A: Allocator + Copy>(
    sessions: &BTreeMap<u64, Session<A>, A>,
    client: u64,
) -> bool
    ensures { result ≡ list_any (λ s. s.client == client) (values_of sessions.now.entries) }
{
    sessions.values().any(|session| session.client() == client)
}

/// How many records stay when an owner gets a new one and the client `removed` is removed.
pub fn staying_count<A: Allocator>(
    clients: &BTreeMap<u64, Client<A>, A>,
    owner: &[u8],
    removed: Option<u64>,
) -> usize
    ensures { result ≡ length (filter (stays removed owner.now) clients.now.entries) }
{
    clients
        .iter()
        .filter(|e| stays(removed, owner, *e.0, e.1))
        .count()
}

/// An owner's confirmed record.
pub fn confirmed_in<'c, A: Allocator>(
    clients: &'c BTreeMap<u64, Client<A>, A>,
    owner: &[u8],
) -> Option<&'c Client<A>>
    ensures { option_copied result ≡ find (is_confirmed_of owner.now) (values_of clients.now.entries) }
{
    clients
        .values()
        .find(|client| client.is_confirmed_of(owner))
}

/// The client ID of an owner's confirmed record, unless it is `number`.
pub fn other_in<A: Allocator>(
    clients: &BTreeMap<u64, Client<A>, A>,
    owner: &[u8],
    number: u64,
) -> Option<u64>
    ensures { result ≡ other_record owner.now number clients.now.entries }
{
    clients
        .values()
        .find(|client| client.is_confirmed_of(owner) && client.number() != number)
        .map(|client| client.number())
}

/// Adds the record of a client. `Err`: an allocation failed.
pub fn add_client<A: Allocator + Copy>(
    clients: &mut BTreeMap<u64, Client<A>, A>,
    number: u64,
    client: Client<A>,
) -> Result<(), AllocError>
    ensures ok { OnOk result (clients.new.entries ≡ insert_entry nat_cmp clients.old.entries number client) }
    ensures err { OnErr result (clients.new.entries ≡ clients.old.entries) }
{
    clients.insert(number, client)?;
    Ok(())
}

/// Adds a session. `Err`: an allocation failed.
pub fn add_session<A: Allocator + Copy>(
    sessions: &mut BTreeMap<u64, Session<A>, A>,
    number: u64,
    session: Session<A>,
) -> Result<(), AllocError>
    ensures ok { OnOk result (sessions.new.entries ≡ insert_entry nat_cmp sessions.old.entries number session) }
    ensures err { OnErr result (sessions.new.entries ≡ sessions.old.entries) }
{
    sessions.insert(number, session)?;
    Ok(())
}
