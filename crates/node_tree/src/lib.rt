//! The objects and names of a file server, as one tree of directories (RFC 8881, sections 4, 5.8 and 18).
//!
//! [`Tree`] refuses a change that would break the tree or exceed a limit, and is unchanged then. It doesn't check
//! access.
#![tactic(auto)]

mod at;
mod block;
mod blocks;
mod contents;
mod cookie_sets;
mod edits;
mod entry;
mod fault;
mod laws;
mod limits;
mod moved;
mod name_index;
mod name_list;
mod name_table;
mod node;
mod node_table;
mod restoring;
mod sample;
mod store;
mod tree;

pub use acl_list::{AclList, Entry, Kind};
pub use at::{At, EPOCH};
pub use entry::DirEntry;
pub use fault::TreeFault;
pub use laws::{parts_are_read_in_order, way_up_shows_what_lies_below};
pub use limits::{MAX_NAME, MAX_TEXT, ROOT, most_bytes};
pub use moved::{Move, Plan};
pub use nfs_types::Moment;
pub use node::{Kept, NewObject, Node};
pub use restoring::{RestoreFault, Restoring};
pub use tree::Tree;
