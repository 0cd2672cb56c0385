//! `nfstrail`: prints the trail of a home for people.
//!
//! The status is 0; it is 2 if the words aren't understood, with a text on standard error. Else it is 1, with what is
//! wrong and where on standard error. Nothing else is written. With `--follow` it prints on as the server appends, and
//! ends with 0 once standard output has no reader.
#![tactic(auto)]

mod asking;
mod choice;
mod escaped;
mod fate;
mod fault;
mod fields;
mod following;
mod growing;
mod home;
mod known;
mod moment;
mod names;
mod notice;
mod options;
mod outlet;
mod places;
mod printing;
mod reading;
mod rights;
mod store_now;
mod words;

use asking::{Refusal, choice_of};
use clap::Error;
use clap::error::ErrorKind as WordsKind;
use fault::Fault;
use following::{Stop, follow};
use home::{Home, Part};
use known::{Known, know};
use options::Options;
use printing::{Broken, Printing, print_lines};
use std::alloc::Global;
use std::fs::File;
use std::hash::RandomState;
use std::io::{BufReader, BufWriter, ErrorKind};
use std::net::Net;
use std::process::ExitCode;
use std::rt::{Clock, Files};
use std::{env, io};
use words::Meanings;

/// Reports why a file of the home can't be read.
fn report_fault<R: Eprint>(home: &Home<'_, R>, part: Part, fault: &Fault) {
    let (rt, folder) = (home.rt, home.folder);
    let _ = if fault.is_missing() {
        eprintln!(rt; "nfstrail: {folder} is no home of nfsd: it has no {part}")
    } else {
        eprintln!(rt; "nfstrail: {folder}/{part}: {fault}")
    };
}

/// Reports why the words can't be followed.
fn report_refusal<R: Eprint>(rt: &R, refusal: &Refusal<'_>) -> ExitCode {
    let _ = eprintln!(rt; "nfstrail: {refusal}");
    if refusal.is_of_words() {
        ExitCode::from(2)
    } else {
        ExitCode::FAILURE
    }
}

/// Reports why printing stopped.
fn report_broken<R: Eprint>(home: &Home<'_, R>, broken: &Broken) {
    let (rt, folder, part) = (home.rt, home.folder, Part::Trail);
    let _ = match broken {
        Broken::Reading(error) => eprintln!(rt; "nfstrail: {folder}/{part}: {error}"),
        Broken::Opening(fault) => eprintln!(rt; "nfstrail: {folder}/{part}: {fault}"),
        Broken::Writing(error) => eprintln!(rt; "nfstrail: standard output: {error}"),
    };
}

/// Prints the matching lines.
fn print<R: Print>(rt: &R, printing: &Printing<'_>, trail: File) -> Result<(), Broken> {
    let alloc = printing.meanings.alloc;
    let mut out = match BufWriter::new(alloc, io::writer(rt)) {
        Ok(out) => out,
        Err(error) => return Err(Broken::Writing(error)),
    };
    match BufReader::new(alloc, trail) {
        Ok(mut reader) => print_lines(alloc, printing, &mut reader, &mut out),
        Err(error) => Err(Broken::Reading(error)),
    }
}

/// Prints the lines of a trail that match the words.
fn print_asked<R: Files<File = File> + Print + Eprint>(
    home: &Home<'_, R>,
    options: &Options<'_>,
    known: &Known,
    trail: File,
) -> ExitCode {
    let places = known.places.as_ref();
    let choice = match choice_of(home.alloc, options, &known.names, places) {
        Ok(choice) => choice,
        Err(refusal) => return report_refusal(home.rt, &refusal),
    };
    let printing = Printing {
        choice: &choice,
        meanings: Meanings {
            alloc: home.alloc,
            names: &known.names,
            places,
        },
        raw: options.raw,
    };
    match print(home.rt, &printing, trail) {
        Ok(()) if known.is_whole => ExitCode::SUCCESS,
        Ok(()) => ExitCode::FAILURE,
        Err(broken) => {
            report_broken(home, &broken);
            ExitCode::FAILURE
        }
    }
}

/// Prints the lines of a trail that match the words, and those that are appended later.
fn follow_asked<R: Files<File = File> + Net + Clock + Print + Eprint>(
    home: &Home<'_, R>,
    options: &Options<'_>,
    hasher: RandomState,
    trail: File,
) -> ExitCode {
    match follow(home, options, hasher, trail) {
        Ok(()) => ExitCode::SUCCESS,
        Err(Stop::Broken(Broken::Writing(error))) if error.kind() == ErrorKind::BrokenPipe => {
            ExitCode::SUCCESS
        }
        Err(Stop::Broken(broken)) => {
            report_broken(home, &broken);
            ExitCode::FAILURE
        }
        Err(Stop::Refused(refusal)) => report_refusal(home.rt, &refusal),
    }
}

/// Whether a home has an earlier form of store.
fn has_earlier<R: Files<File = File>>(home: &Home<'_, R>) -> bool {
    matches!(home.find(Part::Key), Ok(Some(_)))
}

/// The trail of a home. `None`: the folder is no home, or its trail can't be read, which is reported.
fn trail_of<R: Files<File = File> + Eprint>(home: &Home<'_, R>) -> Option<File> {
    if let Err(fault) = home.open(Part::Current) {
        if fault.is_missing() && !has_earlier(home) {
            report_fault(home, Part::Current, &fault);
            return None;
        }
    }
    match home.open(Part::Trail) {
        Ok(trail) => Some(trail),
        Err(fault) => {
            report_fault(home, Part::Trail, &fault);
            None
        }
    }
}

/// Prints help or the version on standard output.
fn print_asked_words<R: Print + Eprint>(rt: &R, text: &Error) -> ExitCode {
    match print!(rt; "{text}") {
        Ok(()) => ExitCode::SUCCESS,
        Err(error) => {
            let _ = eprintln!(rt; "nfstrail: standard output: {error}");
            ExitCode::FAILURE
        }
    }
}

/// Prints `clap`'s text about the words. Help and the version go to standard output, with status 0. A fault goes to
/// standard error with the program's name before it, with status 2.
fn print_words<R: Print + Eprint>(rt: &R, alloc: Global, error: &Error) -> ExitCode {
    if matches!(
        error.kind(),
        WordsKind::DisplayHelp | WordsKind::DisplayVersion
    ) {
        return print_asked_words(rt, error);
    }
    if let Ok(text) = format!(in alloc; "{error}") {
        let _ = match text.as_str().strip_prefix("error: ") {
            Some(fault) => eprint!(rt; "nfstrail: {fault}"),
            None => eprint!(rt; "{text}"),
        };
    }
    ExitCode::from(2)
}

/// Runs the words of the command line.
fn run_words(rt: &HostRuntime, alloc: Global, words: &[String], hasher: RandomState) -> ExitCode {
    let options = match Options::read(alloc, words) {
        Ok(options) => options,
        Err(error) => return print_words(rt, alloc, &error),
    };
    let home = Home {
        rt,
        alloc,
        folder: options.folder,
    };
    match trail_of(&home) {
        Some(trail) if options.follow => follow_asked(&home, &options, hasher, trail),
        Some(trail) => print_asked(&home, &options, &know(&home, hasher), trail),
        None => ExitCode::FAILURE,
    }
}

fn main(rt: HostRuntime) -> io::Result<ExitCode> {
    let alloc = rt.alloc();
    let words: Vec<String> = env::args(&rt)?.collect(alloc)?;
    let hasher = RandomState::new(&rt)?;
    Ok(run_words(&rt, alloc, words.as_slice(), hasher))
}
