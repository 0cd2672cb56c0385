//! A file server over streams and a disk: its store is opened, and then it serves.
#![tactic(auto)]

mod laws;
mod opening;
mod serving;
mod site;

pub use laws::{a_run_goes_on_with_what_was_answered, a_start_that_is_cut_off_loses_nothing};
pub use opening::Start;
pub use serving::{KeptEnd, serve_kept};
pub use site::Site;
