//! The command lines of the client's programs: `nfsc --port N --uid N --gid N COMMAND ..`, and `nfslab [--book FILE]`.
#![tactic(auto)]

mod command;
mod commands;
mod host;
mod lab;
mod lab_command;
mod options;
mod wrong;

pub use commands::COMMANDS;
pub use lab::LabOptions;
pub use options::Options;
pub use wrong::wrong_command;
