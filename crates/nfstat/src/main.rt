//! `nfstat`: prints what the server of a home is doing, for people.
//!
//! The status is 0; it is 2 if the words aren't understood, with a text on standard error. It is 1 if there are no
//! numbers, or if they are older than a minute; standard error says so. With `--watch` it prints them again each 10
//! seconds, and ends with 0 once standard output has no reader.
#![tactic(auto)]

mod figures;
mod number;
mod options;
mod source;
mod table;

use clap::Error;
use clap::error::ErrorKind as WordsKind;
use figures::Figures;
use options::Options;
use source::{Fault, Source};
use std::alloc::Global;
use std::fs::File;
use std::io::{BufWriter, ErrorKind, Write};
use std::process::ExitCode;
use std::rt::{Clock, Files};
use std::time::Duration;
use std::{env, io, thread};
use table::write_table;

/// Numbers that are older than these seconds are reported: the server writes them anew each 10.
const OLD: u64 = 60;

/// The time until the numbers are printed again.
fn pause() -> Duration {
    Duration::from_secs(10)
}

/// Why nothing is printed.
#[derive(Drop)]
enum Stop {
    /// There are no figures.
    Reading(Fault),
    /// Standard output can't be written.
    Writing(io::Error),
}

impl From<Fault> for Stop {
    fn from(fault: Fault) -> Self {
        Stop::Reading(fault)
    }
}

/// Prints the table of a text.
fn print_table<R: Print>(rt: &R, alloc: Global, figures: &Figures, text: &str) -> io::Result<()> {
    let mut out = BufWriter::new(alloc, io::writer(rt))?;
    write_table(&mut out, alloc, figures, text)?;
    out.flush()
}

/// Reads the file and prints the table. The result is how old the numbers are, in seconds.
fn print_now<R: Files<File = File> + Clock + Print>(
    rt: &R,
    alloc: Global,
    path: &str,
) -> Result<u64, Stop> {
    let source = Source::read(rt, alloc, path)?;
    let text = source.text.as_str();
    let figures = match Figures::read(text) {
        Ok(figures) => figures,
        Err(metric) => return Err(Stop::Reading(Fault::Lacks(metric))),
    };
    match print_table(rt, alloc, &figures, text) {
        Ok(()) => Ok(source.age.unwrap_or(0)),
        Err(error) => Err(Stop::Writing(error)),
    }
}

/// Reports numbers that are old. The result is whether they are not.
fn report_age<R: Eprint>(rt: &R, path: &str, age: u64) -> bool {
    if age <= OLD {
        return true;
    }
    let _ = eprintln!(rt; "nfstat: {path}: it is {age} seconds old; the server may have stopped");
    false
}

/// Reports why nothing is printed. The result is the status: 0 if standard output has no reader.
fn report_stop<R: Eprint>(rt: &R, path: &str, stop: &Stop) -> ExitCode {
    let _ = match stop {
        Stop::Reading(fault) => eprintln!(rt; "nfstat: {path}: {fault}"),
        Stop::Writing(error) if error.kind() == ErrorKind::BrokenPipe => return ExitCode::SUCCESS,
        Stop::Writing(error) => eprintln!(rt; "nfstat: standard output: {error}"),
    };
    ExitCode::FAILURE
}

/// Prints the numbers once.
fn print_once<R: Files<File = File> + Clock + Print + Eprint>(
    rt: &R,
    alloc: Global,
    path: &str,
) -> ExitCode {
    match print_now(rt, alloc, path) {
        Ok(age) if report_age(rt, path, age) => ExitCode::SUCCESS,
        Ok(_) => ExitCode::FAILURE,
        Err(stop) => report_stop(rt, path, &stop),
    }
}

/// Prints the numbers again after a pause, with an empty line before them. Why it stops, if it does: a file that can't
/// be read now may be there later.
fn print_again<R: Files<File = File> + Clock + Print + Eprint>(
    rt: &R,
    alloc: Global,
    path: &str,
) -> Option<ExitCode> {
    thread::sleep(rt, pause());
    if let Err(error) = println!(rt; "") {
        return Some(report_stop(rt, path, &Stop::Writing(error)));
    }
    match print_now(rt, alloc, path) {
        Ok(age) => {
            let _ = report_age(rt, path, age);
            None
        }
        Err(stop) => {
            let status = report_stop(rt, path, &stop);
            match stop {
                Stop::Reading(_) => None,
                Stop::Writing(_) => Some(status),
            }
        }
    }
}

/// Prints the numbers again and again, until standard output has no reader.
fn watch<R: Files<File = File> + Clock + Print + Eprint>(
    rt: &R,
    alloc: Global,
    path: &str,
) -> ExitCode {
    match print_now(rt, alloc, path) {
        Ok(age) => {
            let _ = report_age(rt, path, age);
        }
        Err(stop) => return report_stop(rt, path, &stop),
    }
    for _turn in 0..u64::MAX {
        if let Some(status) = print_again(rt, alloc, path) {
            return status;
        }
    }
    ExitCode::SUCCESS
}

/// Prints help or the version on standard output.
fn print_asked_words<R: Print + Eprint>(rt: &R, text: &Error) -> ExitCode {
    match print!(rt; "{text}") {
        Ok(()) => ExitCode::SUCCESS,
        Err(error) => {
            let _ = eprintln!(rt; "nfstat: standard output: {error}");
            ExitCode::FAILURE
        }
    }
}

/// Prints `clap`'s text about the words. Help and the version go to standard output, with status 0. A fault goes to
/// standard error with the program's name before it, with status 2.
fn print_words<R: Print + Eprint>(rt: &R, alloc: Global, error: &Error) -> ExitCode {
    if matches!(
        error.kind(),
        WordsKind::DisplayHelp | WordsKind::DisplayVersion
    ) {
        return print_asked_words(rt, error);
    }
    if let Ok(text) = format!(in alloc; "{error}") {
        let _ = match text.as_str().strip_prefix("error: ") {
            Some(fault) => eprint!(rt; "nfstat: {fault}"),
            None => eprint!(rt; "{text}"),
        };
    }
    ExitCode::from(2)
}

fn main(rt: HostRuntime) -> io::Result<ExitCode> {
    let alloc = rt.alloc();
    let words: Vec<String> = env::args(&rt)?.collect(alloc)?;
    let options = match Options::read(alloc, words.as_slice()) {
        Ok(options) => options,
        Err(error) => return Ok(print_words(&rt, alloc, &error)),
    };
    let folder = options.folder;
    let path = format!(in alloc; "{folder}/metrics.prom")?;
    if options.watch {
        Ok(watch(&rt, alloc, path.as_str()))
    } else {
        Ok(print_once(&rt, alloc, path.as_str()))
    }
}
