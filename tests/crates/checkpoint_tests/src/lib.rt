//! Tests of `checkpoint`, over a journal on a disk in memory.
#![tactic(auto)]

#[cfg(test)]
mod clients;
#[cfg(test)]
mod heap;
#[cfg(test)]
mod memory;
#[cfg(test)]
mod office;
#[cfg(test)]
mod rot;
#[cfg(test)]
mod servers;
#[cfg(test)]
mod writing;
