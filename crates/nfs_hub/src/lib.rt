//! Connections to the file server.
#![tactic(auto)]

mod connection;
mod fault;
mod hub;
mod log;
mod restart;
mod server;
mod serving;

pub use access_guard::next_epoch;
pub use fault::{HubFault, Unloaded};
pub use hub::{ConnId, Hub, MAX_CONNECTIONS};
pub use restart::{ReplayFault, Restart};
pub use serving::{Clock, ServeEnd, serve};
