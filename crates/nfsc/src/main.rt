//! `nfsc`: runs one command on an NFS version 4.1 server (RFC 8881), and prints its answer. The
//! server is at 127.0.0.1, or at the address that the words or the environment name.
//!
//! The status is 0. It is 2 if the words aren't understood or ask for help, with a text on standard
//! error; and else 1. It is 1 after a refusal or another fault of the command, which is printed in
//! place of its answer. It is 1 too if no server answers or no file has the given name, which is
//! reported on standard error. A sentence on standard error explains the fault and its remedy.
#![tactic(auto)]

mod about;
mod around;
mod batch;
mod bytes;
mod calling;
mod clap_text;
mod deep;
mod descriptors;
mod facl;
mod fault;
mod given;
mod grouped;
mod helping;
mod judged;
mod lasting;
mod link;
mod names;
mod object;
mod persistent;
mod person;
mod printable;
mod printing;
mod quoting;
mod rights;
mod starting;
mod times;
mod tree;
mod user;
mod why;
mod wish;

use about::About;
use anyhow::Result;
use around::Around;
use descriptors::open_stand_in;
use given::Given;
use grouped::groups_in;
use helping::{Help, Usages, report_time};
use names::Names;
use nfsc_options::{Options, wrong_command};
use person::{NoPerson, Person};
use printable::Printable;
use printing::{Place, print_answer};
use std::alloc::{AllocError, Global};
use std::env::FillError;
use std::io::{ErrorKind, IsTerminal};
use std::net::{Net, TcpStream};
use std::process::ExitCode;
use std::random::RandomSource;
use std::rt::{Clock, Env, Files};
use std::{env, io, str};
use wish::{Wish, wrong_time};

/// The sentence on groups that can't be read.
const GROUPS: &str =
    "--groups wants numbers from 0 to 4294967295, at most 16, with commas between them, as in 100,200";

/// The sentence on a book in which nothing is looked up.
const BOOK: &str =
    "--book wants --as NAME too, but for the commands 'why', 'who', 'chown', 'chgrp' and 'batch'";

/// The most bytes of a word that is printed because it isn't UTF-8.
const MOST_OF_WORD: usize = 4096;

/// Reports that words are no command, and the words of the command of this name.
fn refuse<R: Eprint>(rt: &R, alloc: Global, name: &str) -> Result<ExitCode> {
    let usages = Usages::of(name);
    match (usages.more, usages.deep) {
        (Some(usage), _) => eprintln!(rt; "nfsc: the command '{name}' wants these words: {usage}")?,
        (None, Some(deep)) if usages.plain.is_none() => {
            eprintln!(rt; "nfsc: the command '{name}' wants these words: {deep}")?;
            return Ok(ExitCode::from(2));
        }
        (None, _) => {
            let text = wrong_command(alloc, name)?.to_string(alloc)?;
            clap_text::report(rt, alloc, text.as_str(), &[])?;
        }
    }
    if let Some(deep) = usages.deep {
        eprintln!(rt; "nfsc: or these: {deep}")?;
    }
    Ok(ExitCode::from(2))
}

/// Reports that words are no command: a word that is no time, or the words of the command of their
/// name.
fn refuse_words<R: Eprint>(rt: &R, alloc: Global, words: &[&str]) -> Result<ExitCode> {
    if let Some(word) = wrong_time(words) {
        report_time(rt, Place::Call, word)?;
        return Ok(ExitCode::from(2));
    }
    refuse(rt, alloc, words.first().copied().unwrap_or(""))
}

/// The help that a call without options asks for.
fn asked(alloc: Global, words: &[String]) -> Result<Option<Help>, AllocError> {
    let printed: Vec<&str> = words
        .iter()
        .skip(1)
        .map(|word| word.as_str())
        .collect(alloc)?;
    Ok(Help::read(printed.as_slice()))
}

/// Prints help, as `clap` does: on standard error. Returns the status with which the program ends.
fn print_help<R: Eprint>(rt: &R, help: Help) -> io::Result<ExitCode> {
    help.report(rt)?;
    Ok(ExitCode::from(2))
}

/// The status with which the program ends, by whether everything was answered.
fn status(is_well: bool) -> ExitCode {
    if is_well {
        ExitCode::SUCCESS
    } else {
        ExitCode::FAILURE
    }
}

/// Runs the command of these options, by a user with these further groups.
fn run<R: Net<Stream = TcpStream> + Clock + RandomSource + Files + Input + Print + Eprint>(
    rt: &R,
    alloc: Global,
    options: &Options<'_>,
    groups: &[u32],
    around: &Around,
) -> Result<ExitCode> {
    let words = options.words.as_slice();
    if let ["batch"] = words {
        return Ok(status(batch::run(rt, alloc, options, groups, around)?));
    }
    let printed: Vec<&[u8]> = words.iter().map(|word| word.as_bytes()).collect(alloc)?;
    match Wish::read(words, printed.as_slice()) {
        Some(wish) => {
            let about = About::of(&wish);
            let outcome = calling::call(rt, alloc, options, groups, around, wish);
            Ok(status(print_answer(rt, Place::Call, options, about, outcome)?))
        }
        None => refuse_words(rt, alloc, words),
    }
}

/// Whether the words name a book in which nothing is looked up. A book of NFSC_BOOK may be unused.
fn is_book_unused(given: &Given<'_>, options: &Options<'_>) -> bool {
    let takes_book = matches!(
        options.words.first().copied(),
        Some("why" | "who" | "chown" | "chgrp" | "batch")
    );
    given.is_word("--book") && options.person.is_none() && !takes_book
}

/// Runs the command of words. The first word is the program's name. They have the options of the
/// call.
fn start<R: Net<Stream = TcpStream> + Clock + RandomSource + Files + Input + Print + Eprint>(
    rt: &R,
    alloc: Global,
    (given, words): (&Given<'_>, &[String]),
    names: Names,
    is_watched: bool,
) -> Result<ExitCode> {
    let options = match Options::read(alloc, words) {
        Ok(options) => options,
        Err(error) => {
            let (text, sources) = (error.to_string(alloc)?, given.sources(alloc)?);
            clap_text::report(rt, alloc, text.as_str(), sources.as_slice())?;
            return Ok(ExitCode::from(2));
        }
    };
    if let Some(help) = Help::read(options.words.as_slice()) {
        return Ok(print_help(rt, help)?);
    }
    if is_book_unused(given, &options) {
        eprintln!(rt; "nfsc: {BOOK}")?;
        return Ok(ExitCode::from(2));
    }
    match groups_in(alloc, options.groups)? {
        Some(groups) => {
            let is_named = options.book.is_some();
            let (uid, gid) = (options.uid, options.gid);
            let around = Around::new(names, (is_named, is_watched), uid, gid, groups.as_slice());
            run(rt, alloc, &options, groups.as_slice(), &around)
        }
        None => {
            eprintln!(rt; "nfsc: {GROUPS}")?;
            Ok(ExitCode::from(2))
        }
    }
}

/// Reports why the words give no user of a book. Returns the status with which the program ends.
fn refuse_person<R: Eprint>(rt: &R, why: &NoPerson) -> io::Result<ExitCode> {
    eprintln!(rt; "nfsc: {why}")?;
    Ok(ExitCode::from(why.status()))
}

/// Runs the command of a call by the user that it names.
fn start_as(rt: &HostRuntime, alloc: Global, given: &Given<'_>, names: Names) -> Result<ExitCode> {
    match Person::read(alloc, given, &names) {
        Ok(person) => {
            let words = given.words(alloc, person.as_ref())?;
            start(
                rt,
                alloc,
                (given, words.as_slice()),
                names,
                rt.stderr().is_terminal(),
            )
        }
        Err(why) => Ok(refuse_person(rt, &why)?),
    }
}

/// Runs the command of a call with the book that it names.
fn start_with(rt: &HostRuntime, alloc: Global, given: &Given<'_>) -> Result<ExitCode> {
    match Names::read(rt, alloc, given) {
        Ok(names) => start_as(rt, alloc, given, names),
        Err(why) => Ok(refuse_person(rt, &why)?),
    }
}

/// Runs the command of words, or prints help. The first word is the program's name.
fn run_words(rt: &HostRuntime, alloc: Global, words: &[String]) -> Result<ExitCode> {
    if let Some(help) = asked(alloc, words)? {
        return Ok(print_help(rt, help)?);
    }
    match Given::read(rt, alloc, words) {
        Ok(given) => start_with(rt, alloc, &given),
        Err(why) => Ok(refuse_person(rt, &why)?),
    }
}

/// Reports the first word of a call that isn't UTF-8.
fn report_word<R: Env + Eprint>(rt: &R) -> io::Result<()> {
    let mut word = [0; MOST_OF_WORD];
    for index in 0..usize::MAX {
        match rt.arg(index, &mut word) {
            Ok(len) if str::from_utf8(&word[..len]).is_err() => {
                let printed = Printable(&word[..len]);
                return eprintln!(rt;
                    "nfsc: the words are UTF-8, and word {index} isn't: {printed}"
                );
            }
            Err(FillError::NotPresent) => {
                return eprintln!(rt; "nfsc: the words are UTF-8, and one of them isn't");
            }
            Ok(_) | Err(FillError::TooLong) => {}
        }
    }
    Ok(())
}

/// Refuses the words of a call, one of which isn't UTF-8.
fn refuse_text<R: Env + Eprint>(rt: &R) -> io::Result<ExitCode> {
    report_word(rt)?;
    eprintln!(rt; "nfsc: text")?;
    Ok(ExitCode::from(2))
}

/// Runs the words that the program was started with.
fn run_all(rt: &HostRuntime) -> Result<ExitCode> {
    let alloc = rt.alloc();
    match env::args(rt) {
        Ok(words) => {
            let words: Vec<String> = words.collect(alloc)?;
            run_words(rt, alloc, words.as_slice())
        }
        Err(error) if matches!(error.kind(), ErrorKind::InvalidData) => Ok(refuse_text(rt)?),
        Err(error) => Err(error.into()),
    }
}

fn main(rt: HostRuntime) -> ExitCode {
    let _stand_ins = [open_stand_in(&rt), open_stand_in(&rt), open_stand_in(&rt)];
    match run_all(&rt) {
        Ok(status) => status,
        Err(error) => {
            let _ = eprintln!(rt; "nfsc: {error}");
            ExitCode::FAILURE
        }
    }
}
