//! Laws of the written machine of connections, which follow from its definitions alone.
//!
//! Each is the contract of a function with an empty body. A program or a reader can cite it by
//! name.
#![tactic(auto)]

mod kept;
mod steps;

pub use kept::{a_start_covers, replays_leave_what_lasts, what_is_kept_is_logged};
pub use steps::{steps_leave_epochs, steps_leave_lasting};
