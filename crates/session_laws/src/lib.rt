//! Laws of sessions that are stored by turns, over restarts (RFC 8881, section 2.10.6.5), and of clients' records.
//!
//! Each is the contract of a function that does nothing or only reads. Programs and readers can cite it by its name.
#![tactic(auto)]

mod records;
mod turns;

pub use records::{every_client_has_a_history, every_record_has_a_history};
pub use turns::{
    a_rule_that_forgets_calls_refuses_them, a_rule_that_forgets_slots_acts_twice,
    what_turns_change_acts_once,
};
