//! A client of NFS version 4.1 (RFC 8881): its commands as words, and each command as calls and replies over a
//! stream.
#![tactic(auto)]

mod access;
mod acl_part;
mod answer;
mod approach;
mod attributes;
mod cat;
mod chmod;
mod chown;
mod client;
mod entry_text;
mod fault;
mod fault_text;
mod getacl;
mod listing;
mod ln;
mod ls;
mod mkdir;
mod modes;
mod mv;
mod path;
mod put;
mod readlink;
mod request;
mod rm;
mod route;
mod running;
mod sessions;
mod setacl;
mod setting;
mod stat;
mod stream;
mod symlink;
mod taking;
mod touch;
mod transport;
mod words;

pub use acl_part::AclPart;
pub use attributes::Given;
pub use client::Client;
pub use entry_text::{EntryText, an_entry_as_text_is_read};
pub use fault::ToolFault;
pub use fault_text::FaultText;
pub use listing::{Listed, columns_are_unambiguous};
pub use modes::{mode_text, read_mode};
pub use path::Path;
pub use running::Answer;
pub use stat::Stat;
pub use stream::{read_record, write_out};
pub use transport::Transport;
pub use words::Command;
