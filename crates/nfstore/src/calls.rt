//! The entries of a store's log, a line each.
use crate::looking::{Opened, chosen, refused};
use crate::operations::write_operations;
use crate::paths::Paths;
use call_store::{Corruption, EntryPlace, StoreFault, restore};
use log_entries::{CallEntry, Entries, Entry};
use nfs_hub::{ReplayFault, Restart};
use node_tree::Tree;
use rpc_record::read_call;
use std::alloc::Global;
use std::hash::RandomState;
use std::io::{BufWriter, Write};
use std::{io, str};
use store_words::Stop;
use toml::{Table, table_from_str};
use trail_keeper::moment_text;

/// Why no more entries are printed.
#[derive(Drop)]
pub(crate) enum Broken {
    /// The output can't be written, or the allocation of a line failed.
    Output(io::Error),
    /// The rest of the store can't be replayed.
    Store(StoreFault),
    /// The store isn't opened.
    Stop(Stop),
}

impl From<io::Error> for Broken {
    fn from(error: io::Error) -> Self {
        Broken::Output(error)
    }
}

/// A server that replays entries, and the place of the next entry.
#[derive(Drop)]
struct Calls {
    alloc: Global,
    restart: Restart,
    paths: Paths,
    /// The number of earlier entries.
    before: u64,
}

/// How many names a table of a book has.
fn names_in(book: &Table, key: &str) -> usize {
    match book.get(key) {
        Some(value) => value.as_table().map_or(0, |names| names.len()),
        None => 0,
    }
}

/// Writes that a book was loaded, and the number of its users and groups.
fn write_book<W: Write>(out: &mut W, alloc: Global, text: Option<&[u8]>) -> io::Result<()> {
    let Some(text) = text else {
        return writeln!(out, "book loaded (no file)");
    };
    let Ok(text) = str::from_utf8(text) else {
        return writeln!(out, "book loaded (no text)");
    };
    let Ok(book) = table_from_str(alloc, text) else {
        return writeln!(out, "book loaded (no book)");
    };
    let names = names_in(&book, "users").saturating_add(names_in(&book, "groups"));
    writeln!(out, "book loaded ({names} names)")
}

/// Writes a call: its moment, its caller, and its operations.
fn write_call<W: Write>(
    out: &mut W,
    paths: &mut Paths,
    tree: &Tree,
    call: &CallEntry<'_>,
) -> io::Result<()> {
    out.write_all(&moment_text(call.now.seconds))?;
    let Ok(asked) = read_call(call.bytes.bytes) else {
        return writeln!(out, "no call");
    };
    let Some(caller) = &asked.caller else {
        return writeln!(out, "no caller");
    };
    write!(out, "uid {} gid {}", caller.uid(), caller.gid())?;
    write_operations(out, paths, tree, asked.arguments)?;
    if let Some(place) = call.delayed {
        write!(out, " delayed at {place}")?;
    }
    out.write_all(b"\n")
}

/// Why no further entries are replayed.
fn fault_at(place: EntryPlace, fault: ReplayFault) -> StoreFault {
    match fault {
        ReplayFault::Differs => StoreFault::Corrupt(Corruption::Entry { place }),
        ReplayFault::Memory => StoreFault::Memory,
    }
}

impl Calls {
    /// Writes an entry, by the tree before it.
    fn write_entry<W: Write>(&mut self, out: &mut W, entry: &Entry<'_>) -> io::Result<()> {
        self.before = self.before.saturating_add(1);
        write!(out, "{} ", self.before)?;
        match entry {
            Entry::Call(call) => {
                write_call(out, &mut self.paths, self.restart.server().tree(), call)
            }
            Entry::ClientExpired(client) => writeln!(out, "client {client} let go"),
            Entry::Book(text) => write_book(out, self.alloc, text.map(|text| text.bytes)),
        }
    }

    /// Writes the entries of a record and replays them, one after the other.
    fn write_record<W: Write>(
        &mut self,
        out: &mut W,
        record_number: u64,
        bytes: &[u8],
    ) -> Result<(), Broken> {
        let mut entries = Entries::new(bytes);
        for entry_number in 0..u64::MAX {
            if entries.is_empty() {
                break;
            }
            let place = EntryPlace {
                record_number,
                entry_number,
            };
            let Some(entry) = entries.next() else {
                return Err(Broken::Store(fault_at(place, ReplayFault::Differs)));
            };
            self.write_entry(out, &entry)?;
            if let Err(fault) = self.restart.replay(&entry) {
                return Err(Broken::Store(fault_at(place, fault)));
            }
        }
        Ok(())
    }

    /// Writes all entries.
    fn write_all<W: Write>(&mut self, out: &mut W, records: &[&[u8]]) -> Result<(), Broken> {
        for (number, record) in records.iter().enumerate() {
            self.write_record(out, number as u64, record)?;
        }
        Ok(())
    }
}

/// Prints entries, also those before a fault.
fn print_all<R: Print>(rt: &R, calls: &mut Calls, records: &[&[u8]]) -> Result<(), Broken> {
    let mut out = BufWriter::new(calls.alloc, io::writer(rt))?;
    let written = calls.write_all(&mut out, records);
    out.flush()?;
    written
}

/// Prints the entries of the store that was loaded.
fn print_loaded(
    rt: &HostRuntime,
    alloc: Global,
    opened: &mut Opened<'_>,
    hasher: RandomState,
) -> Result<(), Broken> {
    let chosen = match chosen(alloc, &opened.loaded) {
        Ok(Some(chosen)) => chosen,
        Ok(None) => return Ok(()),
        Err(fault) => return Err(Broken::Stop(refused(alloc, &mut opened.folder, fault))),
    };
    let restart = match restore(alloc, alloc, hasher, &chosen) {
        Ok(restart) => restart,
        Err(fault) => return Err(Broken::Store(fault)),
    };
    let mut calls = Calls {
        alloc,
        restart,
        paths: Paths::new(alloc),
        before: 0,
    };
    print_all(rt, &mut calls, &chosen.records)
}

/// Prints the entries of the log in a folder.
pub(crate) fn print(
    rt: &HostRuntime,
    alloc: Global,
    path: &str,
    hasher: RandomState,
) -> Result<(), Broken> {
    let mut opened = match Opened::load(rt, alloc, path) {
        Ok(opened) => opened,
        Err(stop) => return Err(Broken::Stop(stop)),
    };
    match print_loaded(rt, alloc, &mut opened, hasher) {
        Err(Broken::Store(fault)) => {
            Err(Broken::Stop(Stop::of(alloc, &mut opened.folder, fault)))
        }
        ended => ended,
    }
}
