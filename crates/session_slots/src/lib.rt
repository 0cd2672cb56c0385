//! Clients, sessions and slots (RFC 8881, sections 2.4 and 2.10).
//!
//! A server keeps a client's record, the granted channels of a session, and the last call of a slot with its results.
//! This state represents every history of calls that leads to it.
#![tactic(auto)]

mod call_bytes;
mod changes;
mod client;
mod clients;
mod creating;
mod destroying;
mod exchanging;
mod expiring;
mod forms;
mod laws;
mod limits;
mod registry;
mod restoring;
mod session;
mod slot;

pub use call_bytes::CallBytes;
pub use client::{Created, Creation, Record};
pub use clients::Clients;
pub use creating::{Create, Made};
pub use exchanging::{Exchange, Exchanged};
pub use forms::{CallForm, RecordForm, SessionForm, write_call};
pub use laws::{
    World, calls_change_slots_alone, every_slot_has_a_history, nothing_was_accepted,
    numbers_are_read_in_order, retries_change_nothing, slots_go_by_history,
    what_changes_the_world_acts_once, what_is_read_out_is_restored, what_is_written_is_of_one,
};
pub use limits::{
    CONFIRMED, END, LEAST_REPLY, MOST_AHEAD, MOST_BYTES, MOST_OPERATIONS, MOST_OWNER, MOST_RESULTS,
    MOST_SLOTS, REPLY_HEADER, UPDATE_CONFIRMED, USE_NON_PNFS,
};
pub use restoring::{NextNumbers, RestoreFault};
pub use session::{Begin, Channel, Held, NewCall, Sequence};
pub use slot::{CachedCall, due};
