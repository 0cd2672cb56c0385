//! The parts of a checkpoint that have the clients of a server (RFC 8881, section 2.10.6.5): their
//! records, sessions and slots, and the open files. Each part is a list of changes, which are
//! encoded by XDR (RFC 4506), read again and applied.
#![tactic(auto)]

mod applying;
mod change;
mod comparing;
mod leading;
mod writing;

pub use applying::{ChangeFault, apply};
pub use change::{WrittenChange, WrittenOpen};
pub use comparing::are_same;
pub use leading::apply_changes;
pub use writing::{client_part_count, write_clients};
