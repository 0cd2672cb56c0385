//! Tests of a server whose state no script sees from outside: the trail on disks of every size, an endless reader, what
//! is remembered, numbers, silent clients, a restart, the log of a hub, calls that are run again, and the last epoch of
//! a book.
#![tactic(auto)]

#[cfg(test)]
mod disk;
#[cfg(test)]
mod endless;
#[cfg(test)]
mod kept;
#[cfg(test)]
mod logs;
#[cfg(test)]
mod numbers;
#[cfg(test)]
mod remembered;
#[cfg(test)]
mod replays;
#[cfg(test)]
mod restarts;
#[cfg(test)]
mod silent;
