//! Prints the summary of a store, a name and a value on each line.
use anyhow::Result;
use call_store::Looked;
use compound_run::Server;
use log_entries::count_entries;
use node_tree::Tree;
use std::alloc::Global;
use std::io;
use std::io::{BufWriter, Write};
use store_folder::{FileFrames, frames_of};
use store_journal::{Chosen, Slot, choose};

/// The version of CURRENT and of frames. A store of another version isn't opened.
const FORMAT: u64 = 3;

/// How many objects a tree has.
pub(crate) fn count_objects(tree: &Tree) -> u64 {
    let mut count = 0u64;
    let mut at = 0;
    for _step in 0..u64::MAX {
        let Some(number) = tree.number_after(at) else {
            break;
        };
        at = number;
        count = count.saturating_add(1);
    }
    count
}

/// How many names it has.
fn names(tree: &Tree) -> u64 {
    let mut count = 0u64;
    let mut at = 0;
    for _step in 0..u64::MAX {
        let Some(name) = tree.any_after(at) else {
            break;
        };
        at = name.cookie();
        count = count.saturating_add(1);
    }
    count
}

/// How many entries records have.
pub(crate) fn count_entries_of(records: &[&[u8]]) -> u64 {
    let mut count = 0u64;
    for record in records {
        count = count.saturating_add(count_entries(record).unwrap_or(0) as u64);
    }
    count
}

/// How many bytes a crash tore after the valid frames, up to the last one that isn't 0. It is 0 if the end of the log
/// follows the frames.
fn torn(file: &[u8], frames: FileFrames) -> u64 {
    if frames.is_ended {
        return 0;
    }
    let mut torn = 0u64;
    let mut seen = 0u64;
    for byte in file.iter().skip(file.len().saturating_sub(frames.rest)) {
        seen = seen.saturating_add(1);
        if *byte != 0 {
            torn = seen;
        }
    }
    torn
}

/// Writes the content of the active file.
fn write_file<W: Write>(
    out: &mut W,
    looked: &Looked,
    chosen: &Chosen<'_, Global>,
) -> io::Result<()> {
    let current = looked.current;
    let file = match current.slot {
        Slot::A => "tree.a",
        Slot::B => "tree.b",
    };
    let limits = looked.restart.server().tree().limits();
    let (format, profile) = (FORMAT, limits.profile());
    let frames = frames_of(current.identity, current.generation, &looked.file);
    writeln!(out, "format {format}")?;
    writeln!(out, "machine {}", current.machine)?;
    writeln!(out, "profile {profile}")?;
    writeln!(out, "file {file}")?;
    writeln!(out, "generation {}", current.generation)?;
    writeln!(out, "begun {}", current.begun)?;
    writeln!(out, "frames {}", frames.frames)?;
    writeln!(out, "records {}", chosen.records.len())?;
    writeln!(out, "entries {}", count_entries_of(&chosen.records))?;
    writeln!(out, "torn {}", torn(&looked.file, frames))
}

/// Writes the counters of the server.
fn write_server<W: Write>(out: &mut W, server: &Server) -> io::Result<()> {
    let tree = server.tree();
    let next = server.next_numbers();
    let (clients, sessions) = server.clients().counts();
    writeln!(out, "next-number {}", tree.next_number())?;
    writeln!(out, "next-tick {}", tree.next_tick())?;
    writeln!(out, "next-stamp {}", tree.next_stamp())?;
    writeln!(out, "next-cookie {}", tree.next_cookie())?;
    writeln!(out, "next-client {}", next.client)?;
    writeln!(out, "next-session {}", next.session)?;
    writeln!(out, "next-open {}", next.open_file)?;
    writeln!(out, "clients {clients}")?;
    writeln!(out, "sessions {sessions}")?;
    writeln!(out, "opens {}", server.opens().len())?;
    writeln!(out, "objects {}", count_objects(tree))?;
    writeln!(out, "names {}", names(tree))
}

/// Writes the summary of a store.
fn write_all<W: Write>(out: &mut W, alloc: Global, looked: &Looked) -> io::Result<()> {
    // it was chosen before, so only an allocation can fail
    let Ok(chosen) = choose(alloc, looked.current, &looked.file) else {
        return Err(io::ErrorKind::OutOfMemory.into());
    };
    write_file(out, looked, &chosen)?;
    write_server(out, looked.restart.server())
}

/// Writes the summary of a store, if it has a checkpoint.
fn write_looked<W: Write>(out: &mut W, alloc: Global, looked: &Option<Looked>) -> io::Result<()> {
    match looked {
        Some(looked) => write_all(out, alloc, looked),
        None => writeln!(out, "file none"),
    }
}

/// Prints the summary of a store.
pub(crate) fn print<R: Print>(rt: &R, alloc: Global, looked: &Option<Looked>) -> Result<()> {
    let mut out = BufWriter::new(alloc, io::writer(rt))?;
    write_looked(&mut out, alloc, looked)?;
    out.flush()?;
    Ok(())
}
