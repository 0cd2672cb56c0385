//! Laws that tie the reasons of access control lists (ACLs) to the guard's decisions and lines (RFC 8881, sections
//! 6.2.1 and 6.2.1.3.2).
#![tactic(auto)]

mod laws;

pub use laws::{reasons_are_decisions, removal_reasons_are_decisions};
