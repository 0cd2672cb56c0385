//! The command of `nfsc`, with its help.
ghost use Rattle.std.specs.Prelude.{◌≡◌, IfOk, false};
ghost use Rattle.clap.specs.Words.{app_of, rule_of};
ghost use Rattle.nfsc_options.specs.Simple.{as_rule, book_rule, command_rule, gid_rule, groups_rule, host_rule, nfsc};
ghost use Rattle.nfsc_options.specs.Simple.{port_rule};
ghost use Rattle.nfsc_options.specs.Simple.{text_rule, timeout_rule, uid_rule};

use crate::commands::COMMANDS;
use clap::{Arg, ArgAction, Command, value_parser};
use std::alloc::{AllocError, Global};

/// The command that is run, the server's address, and the variables of the environment.
const ABOUT: &str = "\
Runs one command on the NFS version 4.1 server at 127.0.0.1 or at the address that '--host' names, as this user in
this group, and prints its answer.

For example, on the server at port 2049:

    nfsc --port 2049 --uid 0 --gid 0 put /notes hi
    nfsc --port 2049 --uid 0 --gid 0 ls /

With a book the user has a name in place of numbers, and the groups that the book says:

    nfsc --port 2049 --as carol --book book.toml ls /

These variables of the environment are read where their options aren't given: NFSC_PORT for --port, NFSC_UID for --uid,
NFSC_GID for --gid, NFSC_HOST for --host, NFSC_BOOK for --book, and NFSC_AS for --as, unless --uid is given.";

/// The command of `nfsc`, as `clap` reads it.
pub(crate) fn command<'a>(alloc: Global) -> Result<Command<'a>, AllocError>
    ensures { IfOk result (λ c. app_of c ≡ nfsc) }
{
    let command = Command::new(alloc, "nfsc")
        .about(ABOUT)
        .after_help(COMMANDS)
        .arg(port(alloc))?
        .arg(uid(alloc))?
        .arg(gid(alloc))?
        .arg(words(alloc))?
        .arg(timeout(alloc))?
        .arg(groups(alloc))?
        .arg(person(alloc))?
        .arg(book(alloc))?
        .arg(host(alloc))?;
    Ok(command)
}

fn port<'a>(alloc: Global) -> Arg<'a>
    ensures { (rule_of result ≡ port_rule) × (result.global ≡ false) }
{
    Arg::new(alloc, "port")
        .long("port")
        .value_name("N")
        .required(true)
        .action(ArgAction::Set)
        .value_parser(value_parser!(u16).range(1..))
        .help("The port of the server, from 1 to 65535")
}

fn uid<'a>(alloc: Global) -> Arg<'a>
    ensures { (rule_of result ≡ uid_rule) × (result.global ≡ false) }
{
    Arg::new(alloc, "uid")
        .long("uid")
        .value_name("N")
        .required(true)
        .action(ArgAction::Set)
        .value_parser(value_parser!(u32))
        .help("The user's number, from 0 to 4294967295")
}

fn gid<'a>(alloc: Global) -> Arg<'a>
    ensures { (rule_of result ≡ gid_rule) × (result.global ≡ false) }
{
    Arg::new(alloc, "gid")
        .long("gid")
        .value_name("N")
        .required(true)
        .action(ArgAction::Set)
        .value_parser(value_parser!(u32))
        .help("The group's number, from 0 to 4294967295")
}

/// The words of the command. After its first word a hyphen has no meaning.
fn words<'a>(alloc: Global) -> Arg<'a>
    ensures { (rule_of result ≡ command_rule) × (result.global ≡ false) }
{
    Arg::new(alloc, "command")
        .value_name("COMMAND")
        .required(true)
        .action(ArgAction::Set)
        .num_args(1..)
        .trailing_var_arg(true)
        .help("The command and its words, with the options before it")
}

fn timeout<'a>(alloc: Global) -> Arg<'a>
    ensures { (rule_of result ≡ timeout_rule) × (result.global ≡ false) }
{
    Arg::new(alloc, "timeout")
        .long("timeout")
        .value_name("SECONDS")
        .action(ArgAction::Set)
        .value_parser(value_parser!(u32).range(1..=86400))
        .help("How long an answer may take, from 1 to 86400 seconds [default: 30]")
}

/// An option with any text.
fn text<'a>(alloc: Global, name: &'a str, value: &'a str, help: &'a str) -> Arg<'a>
    ensures { (rule_of result ≡ text_rule name.entry.now) × (result.global ≡ false) }
{
    Arg::new(alloc, name)
        .long(name)
        .value_name(value)
        .help(help)
}

fn groups<'a>(alloc: Global) -> Arg<'a>
    ensures { (rule_of result ≡ groups_rule) × (result.global ≡ false) }
{
    text(
        alloc,
        "groups",
        "N,N",
        "Further groups of the user, at most 16, with commas between them",
    )
}

fn person<'a>(alloc: Global) -> Arg<'a>
    ensures { (rule_of result ≡ as_rule) × (result.global ≡ false) }
{
    text(
        alloc,
        "as",
        "NAME",
        "The user of this name in the book, in place of --uid, and of --gid and --groups where the book has members",
    )
}

fn book<'a>(alloc: Global) -> Arg<'a>
    ensures { (rule_of result ≡ book_rule) × (result.global ≡ false) }
{
    text(
        alloc,
        "book",
        "FILE",
        "The book of --as, a file in TOML ('nfsd --help' tells of it)",
    )
}

fn host<'a>(alloc: Global) -> Arg<'a>
    ensures { (rule_of result ≡ host_rule) × (result.global ≡ false) }
{
    text(
        alloc,
        "host",
        "ADDRESS",
        "The IPv4 or IPv6 address of the server [default: 127.0.0.1]",
    )
}
