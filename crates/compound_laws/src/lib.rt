//! Laws of a COMPOUND over a tree with access control lists, which follow from its definitions alone.
//!
//! Each is the contract of a function that does nothing. Programs and readers can cite it by its name.
#![tactic(auto)]

mod conforming;
mod disclosure;
mod exactness;
mod lasting;
mod opens;
mod replaying;
mod retries;

pub use conforming::what_is_answered_conforms;
pub use disclosure::{
    a_lookup_that_discloses_names_is_refused, operations_disclose_nothing,
    sessions_disclose_nothing,
};
pub use exactness::{
    access_is_exact, each_row_is_asked, ok_is_exact, ok_is_granted, others_never_delay,
    readdir_gives_exactly, readdir_is_refused_exactly, refused_is_access, rows_are_asked_exactly,
    rows_decide, wrong_rows_are_refused,
};
pub use lasting::{calls_leave_lasting, operations_leave_lasting};
pub use opens::{calls_keep_opens, opens_hold_at_first, operations_keep_opens};
pub use replaying::{
    kept_calls_run_again, operations_are_determined, operations_see_no_session, other_events_cover,
};
pub use retries::retries_change_nothing;
