//! Access control lists (ACLs) as text (RFC 8881, section 6.2.1, in the letters of nfs4-acl-tools).
#![tactic(auto)]

mod entries;
mod field;
mod fields;
mod laws;
mod letters;
mod lists;
mod rights;
mod text;
mod words;

pub use entries::{read_entry, write_entry};
pub use field::Field;
pub use laws::{entries_are_read_again, words_are_read_again};
pub use lists::{AclFault, read_acl};
pub use rights::{RIGHTS, right_name};
pub use text::{MOST_TEXT, Text};
pub use words::Words;
