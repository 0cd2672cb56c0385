//! Why a program can't use the store of a folder, in words for people.
#![tactic(auto)]

mod stop;

pub use stop::Stop;
