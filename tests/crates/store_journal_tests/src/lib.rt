//! Tests of `store_journal`: a disk in memory that loses, cuts, reorders and corrupts unsynced bytes, and corrupt
//! durable bytes.
#![tactic(auto)]

#[cfg(test)]
mod calls;
#[cfg(test)]
mod crashes;
#[cfg(test)]
mod heap;
#[cfg(test)]
mod image;
#[cfg(test)]
mod memory;
#[cfg(test)]
mod rot;
#[cfg(test)]
mod script;
#[cfg(test)]
mod starts;
