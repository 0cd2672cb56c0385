//! The state of clients after each of some turns.

use crate::clients::{after_steps, call, exchange, opens};
use compound_run::ClientState;
use nfs_types::Limits;
use std::alloc::{AllocError, Global};

/// The changes of clients in a turn. Returns whether they had the expected results.
fn change_clients(
    alloc: Global,
    clients: &mut ClientState<Global>,
    turn: u64,
) -> Result<bool, AllocError> {
    Ok(match turn {
        // a client registers, and has no session yet
        3 => exchange(clients, b"early") == Some(1),
        // another one has a session, and calls on a slot
        4 => after_steps(clients, b"alice") == Some(1) && call(clients, 1, 0, 1, b"a", b"one"),
        // a call that changes the tree, and one that opens a file
        5 => {
            opens(alloc, clients, 2, 2)?;
            call(clients, 1, 0, 2, &[3; 40], &[4; 200]) && call(clients, 1, 1, 1, b"c", b"three")
        }
        // calls that change nothing
        6 => call(clients, 1, 1, 2, b"d", b"four") && call(clients, 1, 1, 3, b"e", b""),
        // files are opened and nothing else
        8 => {
            opens(alloc, clients, 2, 2)?;
            opens(alloc, clients, 2, 3)?;
            call(clients, 1, 0, 3, b"f", b"five")
        }
        // one is closed
        10 => {
            clients.opens.remove(0);
            true
        }
        // a third client, with another session, and calls on both
        11 => {
            after_steps(clients, b"bob") == Some(2)
                && call(clients, 2, 1, 1, b"g", b"six")
                && call(clients, 1, 0, 4, b"h", b"seven")
        }
        // one expires, with its session and its opens
        12 => {
            clients.opens = Vec::new(alloc);
            clients.clients.expire(2)
        }
        _ => true,
    })
}

/// The state of clients after `turns` turns.
pub(crate) fn clients_after(alloc: Global, turns: u64) -> Result<ClientState<Global>, AllocError> {
    let mut clients = ClientState::nothing(alloc, Limits::standard());
    for turn in 1..turns + 1 {
        if !change_clients(alloc, &mut clients, turn)? {
            return Err(AllocError);
        }
    }
    Ok(clients)
}
