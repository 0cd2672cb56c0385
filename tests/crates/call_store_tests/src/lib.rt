//! Tests of `call_store`: a hub whose calls are logged on a disk in memory that loses, cuts and corrupts unsynced
//! bytes.
#![tactic(auto)]

#[cfg(test)]
mod calls;
#[cfg(test)]
mod crashes;
#[cfg(test)]
mod dice;
#[cfg(test)]
mod heap;
#[cfg(test)]
mod image;
#[cfg(test)]
mod looks;
#[cfg(test)]
mod memory;
#[cfg(test)]
mod refused;
#[cfg(test)]
mod replays;
#[cfg(test)]
mod requests;
#[cfg(test)]
mod script;
#[cfg(test)]
mod starts;
