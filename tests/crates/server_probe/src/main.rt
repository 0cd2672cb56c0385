//! `server_probe`: makes servers and hubs, and answers lines of standard input about them. `README.md` describes the
//! lines.
#![tactic(auto)]

mod calls;
mod connections;
mod courses;
mod digits;
mod houses;
mod looks;
mod making;
mod objects;
mod pictures;
mod plain;
mod refusing;
mod servers;
mod serving;
mod streams;
mod trees;

use crate::making::answer_block;
use std::alloc::Global;
use std::hash::RandomState;
use std::io;
use std::test::Fail;

/// The first word of a line, and the rest of it.
pub(crate) fn split_word(line: &str) -> (&str, &str) {
    line.split_once(' ').unwrap_or((line, ""))
}

/// Answers the lines of each block. An empty line ends one.
fn answer_all<R: Print>(
    rt: &R,
    alloc: Global,
    hasher: RandomState,
    text: &str,
) -> Result<(), Fail> {
    for block in text.split("\n\n") {
        answer_block(rt, alloc, hasher, block)?;
    }
    Ok(())
}

fn main(rt: HostRuntime) -> Result<(), Fail> {
    let hasher = RandomState::new(&rt)?;
    let text = io::read_to_string(rt.alloc(), rt.reader())?;
    answer_all(&rt, rt.alloc(), hasher, text.as_str())
}
