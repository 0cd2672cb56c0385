//! Scripts of a client's commands over a hub in memory, and with them the client of NFS version 4.1
//! (RFC 8881), `nfs_client`.
#![tactic(auto)]

mod local;
mod reloading;
mod script_line;
mod scripting;

pub use local::Local;
pub use nfs_client::{
    AclPart, Answer, Client, Command, EntryText, FaultText, Listed, Path, ToolFault, Transport,
    an_entry_as_text_is_read, mode_text, read_mode,
};
pub use reloading::Texts;
pub use scripting::script;
