//! Access control lists (ACLs): their entries (ACEs) and their verdicts (RFC 8881, sections 6.2.1 and 6.3.2).
//!
//! Only functions that build an ACL allocate: a verdict never fails.
#![tactic(auto)]

mod answer;
mod deciding;
mod entry;
pub mod flag;
mod laws;
mod list;
pub mod mask;
mod plain;
mod summing;

pub use answer::{FirstMatch, Summary, Verdict};
pub use deciding::{class_grant, concerns, first_match, judge};
pub use entry::{Entry, EntryKind, Kind, Who};
pub use laws::{
    bit_is_its_first_match, constants_are_places, covered_is_granted, unwatched_writes_nothing,
    verdict_is_by_bits,
};
pub use list::AclList;
pub use plain::judge_bit_by_bit;
pub use rpc_record::Caller;
pub use summing::{summary, watched_bits};
