//! The figures as a table for people.
use crate::figures::{Figures, Limits, Store, Work};
use crate::number::{Grouped, Moment, Percent, Seconds};
use server_metrics::{Usage, read_call};
use std::alloc::Global;
use std::io;
use std::io::Write;

/// Writes a number at the right of a column.
fn write_number<W: Write>(out: &mut W, alloc: Global, number: u64) -> io::Result<()> {
    let digits = format!(in alloc; "{}", Grouped(number))?;
    write!(out, "{:>22}", digits.as_str())
}

/// Writes the line of something that has a limit.
fn write_usage<W: Write>(out: &mut W, alloc: Global, name: &str, usage: Usage) -> io::Result<()> {
    write!(out, "{name:<12}")?;
    write_number(out, alloc, usage.used)?;
    write_number(out, alloc, usage.limit)?;
    let share = format!(in alloc; "{}", Percent(usage))?;
    writeln!(out, "{:>9}", share.as_str())
}

/// Writes the line of the bytes of all files, which may have no limit.
fn write_content<W: Write>(out: &mut W, alloc: Global, limits: &Limits) -> io::Result<()> {
    match limits.capacity {
        Some(limit) => {
            let used = limits.content;
            write_usage(out, alloc, "bytes", Usage { used, limit })
        }
        None => {
            write!(out, "{:<12}", "bytes")?;
            write_number(out, alloc, limits.content)?;
            writeln!(out, "{:>22}{:>9}", "none", "-")
        }
    }
}

/// Writes what is used of each limit.
fn write_limits<W: Write>(out: &mut W, alloc: Global, limits: &Limits) -> io::Result<()> {
    writeln!(
        out,
        "{:<12}{:>22}{:>22}{:>9}",
        "", "used", "limit", "percent"
    )?;
    write_usage(out, alloc, "connections", limits.connections)?;
    write_usage(out, alloc, "clients", limits.clients)?;
    write_usage(out, alloc, "sessions", limits.sessions)?;
    write_usage(out, alloc, "opens", limits.opens)?;
    write_usage(out, alloc, "objects", limits.objects)?;
    write_content(out, alloc, limits)
}

/// Writes the line of an operation and a status, if a line of the text states their calls.
fn write_call<W: Write>(out: &mut W, alloc: Global, line: &str) -> io::Result<()> {
    match read_call(alloc, line)? {
        Some(call) => {
            let (operation, status) = (call.operation, call.status);
            write!(out, "  {operation:<22} {status:<24}")?;
            write_number(out, alloc, call.count)?;
            writeln!(out)
        }
        None => Ok(()),
    }
}

/// Writes the calls by operation and status.
fn write_calls<W: Write>(out: &mut W, alloc: Global, text: &str) -> io::Result<()> {
    writeln!(out, "calls")?;
    for line in text.lines() {
        write_call(out, alloc, line)?;
    }
    Ok(())
}

/// Writes a line with a number.
fn write_count<W: Write>(out: &mut W, alloc: Global, name: &str, number: u64) -> io::Result<()> {
    write!(out, "{name:<34}")?;
    write_number(out, alloc, number)?;
    writeln!(out)
}

/// Writes what was done.
fn write_work<W: Write>(out: &mut W, alloc: Global, work: &Work) -> io::Result<()> {
    write_count(out, alloc, "refused by ACLs", work.acl_refusals)?;
    write_count(out, alloc, "bytes read", work.read_bytes)?;
    write_count(out, alloc, "bytes written", work.written_bytes)?;
    write_count(out, alloc, "syncs", work.syncs)?;
    let slowest = Seconds(work.slowest_sync);
    let slowest = format!(in alloc; "{slowest}")?;
    writeln!(
        out,
        "{:<34}{:>22}",
        "slowest sync, in seconds",
        slowest.as_str()
    )
}

/// Writes the store, the book and the start.
fn write_store<W: Write>(out: &mut W, alloc: Global, store: &Store) -> io::Result<()> {
    write_count(out, alloc, "generation of the store", store.generation)?;
    write_count(out, alloc, "bytes of the log", store.log_bytes)?;
    write_count(
        out,
        alloc,
        "seconds since the last checkpoint",
        store.checkpoint_age,
    )?;
    write_count(out, alloc, "epoch of the book", store.book_epoch)?;
    let full = if store.full == 0 { "no" } else { "yes" };
    writeln!(out, "{:<34}{full:>22}", "full")?;
    let moment = Moment(store.start_time);
    let moment = format!(in alloc; "{moment}")?;
    writeln!(out, "{:<34}{:>22}", "up since", moment.as_str())
}

/// Writes the figures of a text.
pub(crate) fn write_table<W: Write>(
    out: &mut W,
    alloc: Global,
    figures: &Figures,
    text: &str,
) -> io::Result<()> {
    write_limits(out, alloc, &figures.limits)?;
    writeln!(out)?;
    write_calls(out, alloc, text)?;
    writeln!(out)?;
    write_work(out, alloc, &figures.work)?;
    writeln!(out)?;
    write_store(out, alloc, &figures.store)
}
