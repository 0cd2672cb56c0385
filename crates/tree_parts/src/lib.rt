//! The parts of a tree in a checkpoint: encoded by XDR (RFC 4506), read again, and taken in order.
#![tactic(auto)]

mod forms;
mod laws;
mod part;
mod taking;

pub use forms::{EntryForm, EntryKindForm, KindForm, ListForm, PrincipalForm};
pub use laws::a_tree_is_taken_again;
pub use part::{
    PartFault, WrittenList, WrittenMoment, WrittenObject, WrittenPart, next_rest, write_counters,
    write_name, write_object, write_rest,
};
pub use taking::take;
