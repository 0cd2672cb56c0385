//! A server's state on a disk: checkpoints, and the calls after them.
#![tactic(auto)]

mod fault;
mod laws;
mod looking;
mod opening;
mod replaying;
mod sizes;
mod store;

pub use fault::{Corruption, EntryPlace, StoreFault};
pub use laws::{
    a_checkpoint_represents_its_server, a_closed_store_has_no_entries,
    a_crash_leaves_a_represented_state, a_mark_leaves_what_is_kept, a_new_folder_has_no_checkpoint,
    a_new_store_keeps_its_server, a_record_extends_the_store,
    a_start_continues_a_represented_state, a_start_is_represented, a_start_lasts,
    at_each_moment_of_a_start_the_disk_represents_the_same,
    at_each_moment_the_disk_represents_one_of_the_two, two_starts_replay_to_states_alike,
    what_is_kept_is_never_new, what_is_served_is_represented, what_represents_some_represents_more,
    what_was_logged_is_kept,
};
pub use looking::{Looked, look, restore};
pub use opening::{Opened, Restarted, open};
pub use store::Store;

/// The version of the machine. It changes when any definition of an effect or a result changes. Kept calls are
/// therefore run again only by the machine that ran them.
pub const MACHINE: u64 = 1;
