//! The entries of a log: the calls that a server kept, the clients that it expired and the books that it loaded.
#![tactic(auto)]

mod checksum;
mod entry;
mod laws;
mod reading;
mod room;

pub use checksum::results_checksum;
pub use entry::{CallEntry, Entry};
pub use laws::{
    a_record_has_one_spelling, all_that_is_written_is_read, an_entry_has_one_spelling,
    entries_are_read_in_turn, what_is_written_is_read,
};
pub use reading::{Entries, count_entries};
pub use room::call_room;
