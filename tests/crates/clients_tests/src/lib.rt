//! Tests of `client_parts`: the state of clients, as changes that are written, read and applied.
#![tactic(auto)]

#[cfg(test)]
mod clients;
#[cfg(test)]
mod parts;
#[cfg(test)]
mod script;
