//! Answers questions on access control lists (ACLs), for comparison with any other implementation. It reads one
//! question a line from standard input, and writes one answer a line to standard output. `docs/acl_lines.md` describes
//! the lines.
#![tactic(auto)]

mod answer;
mod entries;
mod options;

use anyhow::Result;
use entries::Form;
use options::Options;
use std::alloc::Global;
use std::env;
use std::fmt::Display;
use std::io::{BufRead, BufReader, BufWriter, Write};
use std::process::ExitCode;
use who_book::Book;

fn answer_all(rt: &(impl Input + Print), alloc: Global, form: &Form) -> Result<()> {
    let lines = BufReader::new(alloc, rt.reader())?.lines(alloc);
    let mut out = BufWriter::new(alloc, std::io::writer(rt))?;
    for line in lines {
        let line = line?;
        match answer::answer(alloc, form, line.as_str())? {
            Some(text) => out.write_all(text.as_bytes())?,
            None => out.write_all(b"bad line")?,
        }
        out.write_all(b"\n")?;
    }
    out.flush()?;
    Ok(())
}

/// Prints on standard error what `clap` reports about the words. A fault is printed after the program's name, and help
/// is printed unchanged.
fn report_words<R: Eprint, E: Display>(rt: &R, alloc: Global, error: &E) -> Result<()> {
    let text = format!(in alloc; "{error}")?;
    match text.as_str().strip_prefix("error: ") {
        Some(fault) => eprint!(rt; "acl_lines: {fault}")?,
        None => eprint!(rt; "{text}")?,
    }
    Ok(())
}

/// Answers as the words of the command line ask.
fn run_words(rt: &HostRuntime, alloc: Global, words: &[String]) -> Result<ExitCode> {
    let options = match Options::read(alloc, words) {
        Ok(options) => options,
        Err(error) => {
            let _ = report_words(rt, alloc, &error);
            return Ok(ExitCode::from(2));
        }
    };
    let form = if options.words {
        Form::Words(Book::default(alloc))
    } else {
        Form::Plain
    };
    answer_all(rt, alloc, &form)?;
    Ok(ExitCode::SUCCESS)
}

/// Answers as the words that the program was started with ask.
fn run_all(rt: &HostRuntime) -> Result<ExitCode> {
    let alloc = rt.alloc();
    let words: Vec<String> = env::args(rt)?.collect(alloc)?;
    run_words(rt, alloc, words.as_slice())
}

fn main(rt: HostRuntime) -> ExitCode {
    match run_all(&rt) {
        Ok(status) => status,
        Err(error) => {
            let _ = eprintln!(rt; "acl_lines: {error}");
            ExitCode::FAILURE
        }
    }
}
