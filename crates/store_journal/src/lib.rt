//! A journal in two files and CURRENT, which names the active file: checkpoints, and records after them.
#![tactic(auto)]

mod checksum;
mod current;
mod disk;
mod fault;
mod frames;
mod head;
mod journal;
mod later;
mod laws;
mod opening;
mod reading;
mod resuming;
mod writing;

pub use checksum::Identity;
pub use current::Current;
pub use disk::{Disk, LoadFault, Slot};
pub use fault::{CurrentFault, JournalFault, OpenFault};
pub use frames::{Frame, Frames, Place};
pub use head::Head;
pub use journal::Journal;
pub use later::is_ended;
pub use laws::{
    a_checkpoint_that_is_begun_leaves_the_log, a_checkpoint_that_is_synced_is_a_log,
    a_crash_leaves_one_log, a_finished_checkpoint_counts, a_frame_is_loose_until_its_sync,
    a_further_part_leaves_the_log, a_generation_that_is_begun_is_new, a_new_folder_is_a_journal,
    a_part_follows_the_others, a_start_finds_one_of_the_logs, a_start_goes_on_with_all,
    a_start_is_never_refused, a_start_leaves_the_next_generation_new, a_sync_keeps_all,
    a_turn_decides_which_log_counts, a_whole_log_may_count,
    each_call_leaves_the_next_generation_new, either_may_be_named_first,
    nothing_is_owed_to_chance_where_all_is_synced, reading_leaves_a_journal,
    the_first_part_is_alone, the_other_file_is_not_looked_at, what_is_appended_is_kept,
    what_is_written_again_goes_on,
};
pub use opening::{Chosen, Loaded, choose, load};
pub use writing::Position;
