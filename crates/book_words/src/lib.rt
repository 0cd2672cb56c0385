//! Explains in a sentence why a text isn't a book of names: the key, the names, the line, and the valid values.
#![tactic(auto)]

mod members;
mod names;
mod sentence;
mod shape;

pub use sentence::explain;
