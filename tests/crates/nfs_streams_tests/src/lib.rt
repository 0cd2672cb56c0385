//! Tests of `nfs_streams`: streams in memory, ready in any order, some of which fail, break or are silent. Books arrive
//! meanwhile. Persistent sessions over a store on a disk in memory outlive a crash. Some tests use sockets of
//! 127.0.0.1.
#![tactic(auto)]

#[cfg(test)]
mod books;
#[cfg(test)]
mod bytes;
#[cfg(test)]
mod ends;
#[cfg(test)]
mod house;
#[cfg(test)]
mod keeping;
#[cfg(test)]
mod listening;
#[cfg(test)]
mod memory;
#[cfg(test)]
mod orders;
#[cfg(test)]
mod peers;
#[cfg(test)]
mod plain;
#[cfg(test)]
mod sessions;
#[cfg(test)]
mod sockets;
#[cfg(test)]
mod stopping;
#[cfg(test)]
mod storing;
#[cfg(test)]
mod talks;
