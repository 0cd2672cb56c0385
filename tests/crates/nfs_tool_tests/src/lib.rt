//! Tests of the client that texts can't express: streams that fail, memory that runs out, streams over a hub, and texts
//! of words and faults.
#![tactic(auto)]

#[cfg(test)]
mod examples;
#[cfg(test)]
mod failing;
#[cfg(test)]
mod local;
#[cfg(test)]
mod memory;
#[cfg(test)]
mod pages;
#[cfg(test)]
mod plain;
#[cfg(test)]
mod replies;
#[cfg(test)]
mod scripts;
#[cfg(test)]
mod texts;
