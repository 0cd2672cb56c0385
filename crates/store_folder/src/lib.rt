//! The folder of a store on a file system: CURRENT, and the two files of a journal. One program has it at a time.
#![tactic(auto)]

mod bounded;
mod corruption;
mod fault;
mod folder;
mod held;
mod identity;
mod judging;
mod laws;
mod making;
mod names;
mod stop;
mod store_file;
mod turning;

pub use bounded::{Bounded, file_limit};
pub use corruption::{Corruption, FileFrames, Spot, frames_of};
pub use fault::{Failure, Flaw, FolderFault, Operation, Part};
pub use folder::StoreFolder;
pub use laws::room_is_made_where_bytes_were_written;
pub use stop::{StoreStop, Unknown};
