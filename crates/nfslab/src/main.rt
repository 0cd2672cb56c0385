//! `nfslab`: runs a script of commands on an NFS version 4.1 server (RFC 8881) in memory, from
//! standard input to standard output.
//!
//! The status is 0. It is 2 if the words aren't understood, with `clap`'s text on standard error;
//! and else 1. It is 1 after a line that was answered `bad line`, `failed N` or `book N`, and after
//! a fault of the whole run, in two lines on standard error.
#![tactic(auto)]

mod fault;

use anyhow::Result;
use book_words::explain;
use fault::{Fault, report};
use nfs_hub::Hub;
use nfs_tool::{Texts, script};
use nfsc_options::LabOptions;
use std::alloc::Global;
use std::fmt::Display;
use std::hash::RandomState;
use std::process::ExitCode;
use std::rt::Files;
use std::{env, fs, io};
use who_book::Book;

/// The texts of files, by the files' names.
#[derive(Drop)]
struct FileTexts<'r, R> {
    rt: &'r R,
}

impl<R: Files + AllocGlobal> Texts for FileTexts<'_, R> {
    fn text(&mut self, name: &str) -> Option<String> {
        fs::read_to_string(self.rt, name).ok()
    }
}

/// The book of a file, or the book without names.
fn book<R: Files + Alloc>(rt: &R, alloc: Global, file: Option<&str>) -> Result<Book, Fault> {
    let Some(file) = file else {
        return Ok(Book::default(alloc));
    };
    let text = match fs::read_to_string(rt, file) {
        Ok(text) => text,
        Err(error) => return Err(Fault::File(format!(in alloc; "{error}").ok())),
    };
    match Book::read(alloc, text.as_str()) {
        Ok(book) => Ok(book),
        Err(fault) => Err(Fault::Book(fault, explain(alloc, text.as_str(), fault).ok())),
    }
}

/// The hub of a root directory alone, with the owner and the group of the book.
fn hub<R: Files + Alloc>(
    rt: &R,
    alloc: Global,
    options: &LabOptions<'_>,
    hasher: RandomState,
) -> Result<Hub, Fault> {
    let book = book(rt, alloc, options.book)?;
    Hub::new(alloc, book, hasher).map_err(|_| Fault::Hub)
}

/// Runs the script on standard input. Returns whether no line was answered `bad line`, `failed N`
/// or `book N`.
fn run<R: Files + AllocGlobal + Input + Print>(
    rt: &R,
    alloc: Global,
    options: &LabOptions<'_>,
    hasher: RandomState,
) -> Result<bool, Fault> {
    let mut hub = hub(rt, alloc, options, hasher)?;
    let mut texts = FileTexts { rt };
    script(
        alloc,
        alloc,
        &mut hub,
        &mut texts,
        &mut rt.reader(),
        &mut io::writer(rt),
    )
    .map_err(Fault::Failed)
}

/// Prints on standard error what `clap` reports of the words. A fault begins with the program's
/// name, and help is unchanged.
fn report_words<R: Eprint, E: Display>(rt: &R, alloc: Global, error: &E) -> Result<()> {
    let text = format!(in alloc; "{error}")?;
    match text.as_str().strip_prefix("error: ") {
        Some(fault) => eprint!(rt; "nfslab: {fault}")?,
        None => eprint!(rt; "{text}")?,
    }
    Ok(())
}

/// Runs a script by the words of the command line. Returns the status of the program.
fn run_words(rt: &HostRuntime, alloc: Global, words: &[String]) -> Result<ExitCode> {
    let options = match LabOptions::read(alloc, words) {
        Ok(options) => options,
        Err(error) => {
            let _ = report_words(rt, alloc, &error);
            return Ok(ExitCode::from(2));
        }
    };
    match run(rt, alloc, &options, RandomState::new(rt)?) {
        Ok(true) => Ok(ExitCode::SUCCESS),
        Ok(false) => Ok(ExitCode::FAILURE),
        Err(fault) => {
            report(rt, &options, &fault);
            Ok(ExitCode::FAILURE)
        }
    }
}

/// Runs a script by the words that the program was started with.
fn run_all(rt: &HostRuntime) -> Result<ExitCode> {
    let alloc = rt.alloc();
    let words: Vec<String> = env::args(rt)?.collect(alloc)?;
    run_words(rt, alloc, words.as_slice())
}

fn main(rt: HostRuntime) -> ExitCode {
    match run_all(&rt) {
        Ok(status) => status,
        Err(error) => {
            let _ = eprintln!(rt; "nfslab: {error}");
            ExitCode::FAILURE
        }
    }
}
