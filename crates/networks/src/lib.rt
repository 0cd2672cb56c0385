//! Networks as text, and which connections are served (RFC 4632, section 3.1; RFC 4291, section 2.3).
#![tactic(auto)]

mod address;
mod admission;
mod network;
mod reading;

pub use address::is_loopback;
pub use admission::{admits, needs_privileged};
pub use network::Network;
pub use reading::NetworkError;
