//! The command line of `nfsd`: `nfsd [--book FILE] [--bare] [--port N] [--connections N] [--concurrent] [--trail FILE]
//! [--stamped] [--privileged-ports] [--store FOLDER] [--leases] [--home FOLDER] [--profile NAME]
//! [--listen ADDRESS].. [--allow NETWORK].. [--any-port]`, or `nfsd --version`.
#![tactic(auto)]

mod command;
mod mistake;
mod options;
mod profile;
mod values;

pub use options::Options;
pub use profile::Profile;
