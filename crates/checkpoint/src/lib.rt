//! A checkpoint of a server: its whole state as parts, which are written into a journal and read
//! again when a server starts.
#![tactic(auto)]

mod drafting;
mod fault;
mod head;
mod laws;
mod order;
mod reading;
mod writing;

pub use fault::{CheckpointFault, WriteFault};
pub use laws::{
    a_checkpoint_leaves_the_next_generation_new, a_written_checkpoint_counts,
    what_a_checkpoint_holds_is_one, what_is_kept_covers,
};
pub use reading::{Found, read};
pub use writing::write_checkpoint;
