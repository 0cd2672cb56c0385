//! The first parts of a checkpoint are made, and read again, before any of them is written.
ghost use Rattle.std.specs.Prelude.{map, IfOk};
ghost use Rattle.compound_run.specs.ClientState.{ClientState as ClientStateGives};
ghost use Rattle.checkpoint.specs.Holds.{BeginsClients};
ghost use Rattle.checkpoint.specs.internal.Drafting.{IsDraft, draft_of};

use crate::head::write_head;
use crate::order::see_all;
use crate::reading::apply_whole;
use client_parts::{are_same, client_part_count, write_clients};
use compound_run::{ClientState, Lent, Server};
use nfs_types::Limits;
use std::alloc::{AllocError, Allocator};

/// The first parts of a checkpoint: its head, and the parts of the clients with the open files.
#[derive(Drop)]
pub(crate) struct Draft<A: Allocator> {
    pub(crate) head: Vec<u8, A>,
    pub(crate) clients: Vec<Vec<u8, A>, A>,
}

/// The parts of the clients, and the clients that are read again from them.
#[derive(Drop)]
struct ReadAgain<A: Allocator> {
    parts: Vec<Vec<u8, A>, A>,
    clients: ClientState<A>,
}

impl<A: Allocator + Copy> ReadAgain<A> {
    /// Makes the parts, and reads each of them again. `Err`: an allocation fails, or the parts encode
    /// no clients.
    fn of(alloc: A, limits: Limits, now: Lent<'_, A>) -> Result<Self, AllocError>
        ensures { IfOk result (λ again.
            BeginsClients limits (map (λ bytes. bytes.items) again.parts.items) again.clients) }
    {
        let mut clients = ClientState::nothing(alloc, limits);
        let mut parts = Vec::new(alloc);
        for place in 0..client_part_count(limits) {
            let bytes = write_clients(alloc, now, place)?;
            let Ok(()) = apply_whole(alloc, &mut clients, bytes.as_slice()) else {
                return Err(AllocError);
            };
            parts.push(bytes)?;
        }
        Ok(ReadAgain { parts, clients })
    }
}

impl<A: Allocator + Copy> Draft<A> {
    /// Makes the parts, reads them again, and compares the result with the server's clients.
    /// Nothing that differs from them is ever written. `Err`: an allocation fails, or they differ.
    pub(crate) fn of(alloc: A, server: &Server<A>) -> Result<Self, AllocError>
        ensures { IfOk result (λ draft.
            (client_state : ClientStateGives) × IsDraft (draft_of draft) client_state server.now) }
    {
        let limits = server.tree().limits();
        let head = write_head(alloc, limits, server.book())?;
        let again = ReadAgain::of(alloc, limits, Lent::of(server))?;
        if !are_same(again.clients.lend(), Lent::of(server)) {
            return Err(AllocError);
        }
        // clients that were examined are known to be in order
        see_all(&again.clients.clients);
        see_all(server.clients());
        Ok(Draft {
            head,
            clients: again.parts,
        })
    }
}
