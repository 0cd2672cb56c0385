//! `client_probe`: runs commands of a client over a stream in memory, and prints the outcome of each, for a script that
//! compares it.
//!
//! Standard input has scenes, with an empty line between two. README.md describes their lines. A line that can't be
//! read ends it with status 1.
#![tactic(auto)]

mod methods;
mod outcomes;
mod played;
mod scenes;

use crate::scenes::scene_printed;
use std::alloc::Global;
use std::io;
use std::test::Fail;

/// Plays the scenes of a text, and prints their outcomes.
fn play_all(rt: &impl Print, alloc: Global, text: &str) -> Result<(), Fail> {
    for scene in text.split("\n\n") {
        rt.write_all(scene_printed(alloc, scene)?.as_bytes())?;
    }
    Ok(())
}

fn main(rt: HostRuntime) -> Result<(), Fail> {
    let text = io::read_to_string(rt.alloc(), rt.reader())?;
    play_all(&rt, rt.alloc(), text.as_str())
}
