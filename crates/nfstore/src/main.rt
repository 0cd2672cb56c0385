//! `nfstore`: prints the content of a server's store, checks it, copies it, exports it, closes it, or makes a new one.
//!
//! The status is 0; 2 if the words aren't understood, with `clap`'s text on standard error; and else 1, with what is
//! wrong and where on standard error.
#![tactic(auto)]

mod backing_up;
mod backup_words;
mod calls;
mod checking;
mod closing;
mod escaped;
mod exporting;
mod fault;
mod importing;
mod listing;
mod looking;
mod operations;
mod options;
mod paths;
mod places;
mod summary;
mod survey;
mod unlocked;
mod walk;

use anyhow::Result;
use backing_up::back_up;
use backup_words::{print_made, report_refused};
use call_store::Looked;
use calls::Broken;
use checking::check;
use clap::Error;
use clap::error::ErrorKind;
use exporting::write_tree;
use fault::Stopped;
use importing::{Unmade, import};
use looking::look;
use options::{Options, Task};
use places::{Source, Target};
use std::alloc::Global;
use std::env;
use std::hash::RandomState;
use std::process::ExitCode;
use store_words::Stop;
use survey::look_at;

/// Reports where something stopped, and why. If no other path is known it is that of the directory.
fn report_stopped(rt: &HostRuntime, directory: &str, stopped: &Stopped) -> ExitCode {
    let path = match &stopped.path {
        Some(path) => path.as_str(),
        None => directory,
    };
    let fault = &stopped.fault;
    let _ = eprintln!(rt; "nfstore: {path}: {fault}");
    ExitCode::FAILURE
}

/// Reports why a store can't be used.
fn report_stop(rt: &HostRuntime, folder: &str, stop: &Stop) -> ExitCode {
    let _ = eprintln!(rt; "nfstore: {folder}{stop}");
    ExitCode::FAILURE
}

/// Reports that a store has no checkpoint.
fn report_nothing(rt: &HostRuntime, folder: &str) -> ExitCode {
    let _ = eprintln!(rt; "nfstore: {folder}: nothing is kept yet");
    ExitCode::FAILURE
}

/// Exports the content of a store.
fn write_out(
    rt: &HostRuntime,
    alloc: Global,
    folder: &str,
    looked: &Option<Looked>,
    directory: &str,
) -> ExitCode {
    let Some(looked) = looked else {
        return report_nothing(rt, folder);
    };
    match write_tree(rt, alloc, looked.restart.server().tree(), directory) {
        Ok(()) => ExitCode::SUCCESS,
        Err(stopped) => report_stopped(rt, directory, &stopped),
    }
}

/// How the content of a store is printed or exported.
#[derive(Clone, Copy)]
enum Output<'a> {
    Summary,
    Tree,
    /// It is exported to this directory.
    Export(&'a str),
}

/// Prints the content of a store, or exports it.
fn print_found(
    rt: &HostRuntime,
    alloc: Global,
    folder: &str,
    looked: &Option<Looked>,
    output: Output<'_>,
) -> Result<ExitCode> {
    match output {
        Output::Export(directory) => Ok(write_out(rt, alloc, folder, looked, directory)),
        Output::Tree => {
            listing::print(rt, alloc, looked)?;
            Ok(ExitCode::SUCCESS)
        }
        Output::Summary => {
            summary::print(rt, alloc, looked)?;
            Ok(ExitCode::SUCCESS)
        }
    }
}

/// Reads a store, and prints its content or exports it.
fn print_store(
    rt: &HostRuntime,
    alloc: Global,
    folder: &str,
    hasher: RandomState,
    output: Output<'_>,
) -> Result<ExitCode> {
    match look(rt, alloc, folder, hasher) {
        Ok(looked) => print_found(rt, alloc, folder, &looked, output),
        Err(stop) => Ok(report_stop(rt, folder, &stop)),
    }
}

/// Prints the entries of a store's log.
fn print_calls(rt: &HostRuntime, alloc: Global, folder: &str, hasher: RandomState) -> ExitCode {
    match calls::print(rt, alloc, folder, hasher) {
        Ok(()) => ExitCode::SUCCESS,
        Err(Broken::Stop(stop)) => report_stop(rt, folder, &stop),
        Err(Broken::Store(fault)) => {
            let _ = eprintln!(rt; "nfstore: {folder}: {fault}");
            ExitCode::FAILURE
        }
        Err(Broken::Output(error)) => {
            let _ = eprintln!(rt; "nfstore: {error}");
            ExitCode::FAILURE
        }
    }
}

/// Writes a checkpoint, so that no entry is left after it.
fn close(rt: &HostRuntime, alloc: Global, folder: &str, hasher: RandomState) -> ExitCode {
    match closing::close(rt, alloc, folder, hasher) {
        Ok(true) => ExitCode::SUCCESS,
        Ok(false) => report_nothing(rt, folder),
        Err(stop) => report_stop(rt, folder, &stop),
    }
}

/// Makes a new store from a directory. What a tree can't have is reported first, and then nothing is written.
fn make(
    rt: &HostRuntime,
    alloc: Global,
    folder: &str,
    hasher: RandomState,
    directory: &str,
) -> ExitCode {
    let survey = match look_at(rt, alloc, directory) {
        Ok(survey) => survey,
        Err(stopped) => return report_stopped(rt, directory, &stopped),
    };
    if survey.refused > 0 {
        return ExitCode::FAILURE;
    }
    match import(rt, alloc, folder, &survey, hasher) {
        Ok(()) => ExitCode::SUCCESS,
        Err(Unmade::Stopped(stopped)) => report_stopped(rt, directory, &stopped),
        Err(Unmade::Store(stop)) => report_stop(rt, folder, &stop),
        Err(Unmade::Taken) => {
            let _ = eprintln!(rt; "nfstore: {folder}: it has a store");
            ExitCode::FAILURE
        }
    }
}

/// Reads a store whole, and prints what it has.
fn print_check(
    rt: &HostRuntime,
    alloc: Global,
    folder: &str,
    hasher: RandomState,
) -> Result<ExitCode> {
    let source = Source::find(rt, alloc, folder)?;
    let store = source.store.as_str();
    match check(rt, alloc, store, hasher) {
        Ok(Some(whole)) => {
            println!(rt; "{store}: it is whole: {whole}")?;
            Ok(ExitCode::SUCCESS)
        }
        Ok(None) => Ok(report_nothing(rt, store)),
        Err(stop) => Ok(report_stop(rt, store, &stop)),
    }
}

/// Makes a whole copy of a home or a store.
fn copy(
    rt: &HostRuntime,
    alloc: Global,
    folder: &str,
    hasher: RandomState,
    directory: &str,
) -> Result<ExitCode> {
    let source = Source::find(rt, alloc, folder)?;
    let target = Target::new(alloc, &source, directory)?;
    match back_up(rt, alloc, &source, &target, hasher) {
        Ok(made) => {
            print_made(rt, &target, made)?;
            Ok(ExitCode::SUCCESS)
        }
        Err(refused) => {
            report_refused(rt, &source, &target, &refused);
            Ok(ExitCode::FAILURE)
        }
    }
}

/// Prints `clap`'s text about the words. Help and the version go to standard output, with status 0. A fault goes to
/// standard error with the program's name before it, with status 2.
fn print_words<R: Print + Eprint>(rt: &R, alloc: Global, error: &Error) -> Result<ExitCode> {
    if matches!(
        error.kind(),
        ErrorKind::DisplayHelp | ErrorKind::DisplayVersion
    ) {
        print!(rt; "{error}")?;
        return Ok(ExitCode::SUCCESS);
    }
    let text = format!(in alloc; "{error}")?;
    let _ = match text.as_str().strip_prefix("error: ") {
        Some(fault) => eprint!(rt; "nfstore: {fault}"),
        None => eprint!(rt; "{text}"),
    };
    Ok(ExitCode::from(2))
}

/// Runs the words of the command line.
fn run_words(rt: &HostRuntime, alloc: Global, words: &[String]) -> Result<ExitCode> {
    let options = match Options::read(alloc, words) {
        Ok(options) => options,
        Err(error) => return print_words(rt, alloc, &error),
    };
    let hasher = RandomState::new(rt)?;
    let folder = options.folder;
    match options.task {
        Task::Summary => print_store(rt, alloc, folder, hasher, Output::Summary),
        Task::Tree => print_store(rt, alloc, folder, hasher, Output::Tree),
        Task::Export(directory) => print_store(
            rt,
            alloc,
            folder,
            hasher,
            Output::Export(directory),
        ),
        Task::Calls => Ok(print_calls(rt, alloc, folder, hasher)),
        Task::Close => Ok(close(rt, alloc, folder, hasher)),
        Task::Import(directory) => Ok(make(rt, alloc, folder, hasher, directory)),
        Task::Check => print_check(rt, alloc, folder, hasher),
        Task::Backup(directory) => copy(rt, alloc, folder, hasher, directory),
    }
}

/// Runs the words with which the program was started.
fn run(rt: &HostRuntime) -> Result<ExitCode> {
    let alloc = rt.alloc();
    let words: Vec<String> = env::args(rt)?.collect(alloc)?;
    run_words(rt, alloc, words.as_slice())
}

fn main(rt: HostRuntime) -> ExitCode {
    match run(&rt) {
        Ok(status) => status,
        Err(error) => {
            let _ = eprintln!(rt; "nfstore: {error}");
            ExitCode::FAILURE
        }
    }
}
