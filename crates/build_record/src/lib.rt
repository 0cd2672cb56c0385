//! The record of a build, as the programs of this tree report it.
#![tactic(auto)]

mod record;

pub use record::version;
