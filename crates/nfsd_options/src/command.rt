//! The command of `nfsd`, with its help.
ghost use Rattle.std.specs.Prelude.{◌≡◌, IfOk, false};
ghost use Rattle.clap.specs.Words.{app_of, rule_of};
ghost use Rattle.nfsd_options.specs.Simple.{allow_rule, any_port_rule, bare_rule, book_rule, concurrent_rule};
ghost use Rattle.nfsd_options.specs.Simple.{connections_rule, file_rule, flag_rule, home_rule, leases_rule};
ghost use Rattle.nfsd_options.specs.Simple.{list_rule, listen_rule, nfsd, port_rule, privileged_rule, profile_rule};
ghost use Rattle.nfsd_options.specs.Simple.{stamped_rule, store_rule, trail_rule};

use build_record::version;
use clap::builder::ValueParser;
use clap::{Arg, ArgAction, Command, value_parser};
use std::alloc::{AllocError, Global};

/// The files that are served, and the address.
const ABOUT: &str = "\
Serves files over NFS version 4.1, and enforces their access control lists exactly.

It listens on 127.0.0.1, prints 'listening on 127.0.0.1:PORT', serves its connections one after the
other, and ends. With '--concurrent' it serves several at the same time. With '--listen ADDRESS' it
listens on that address, and with '--allow NETWORK' it serves connections from that network. The
files are kept in memory. There is an empty root at first, and the book names its owner. With
'--store FOLDER' the files are kept in that folder too, and outlive the server: no acknowledged
operation is lost, whatever ends it.";

/// The form of a book, with an example.
const BOOK: &str = "\
A book gives users and groups their names, and may list the members of groups. It is a file
in TOML with these seven keys, of which 'members' may be missing, and no others:

    domain = \"example.org\"
    root_owner = 0
    root_group = 0
    root_mode = 0o755
    users = { root = 0, alice = 1001 }
    groups = { wheel = 0, staff = 100 }
    members = { wheel = [\"root\"], staff = [\"alice\"] }

Without a book there are no names, the domain is 'localdomain', and the root belongs to user 0 and
group 0, with mode 0o755.

With 'members' a user is in the groups whose array names it, at most 17, and in no others; without
it, in the groups that its calls claim.

When the file of the book changes, it is loaded again: with the next call if another file was moved
to its place, or else after two seconds without a change. If it can't be read, isn't a book, or
lacks the 'members' that the previous book has, standard error gets a line, and the previous book
stays.

Nobody overrides a list, not even root. If the list of an object allows nobody to change it
(WRITE_ACL), the object is locked, also for its owner, as long as the server runs, and with
'--store' for ever. Sticky, setuid and setgid bits are kept and shown, and have no effect. A change
of the mode restricts the entries of named users and groups: an entry that allows keeps no right to
read, write or execute that the group's bits lack.

For example, two connections on port 12049:

    nfsd --book names.toml --port 12049 --connections 2

and any number, up to 16 at the same time, until it is stopped:

    nfsd --concurrent --trail trail.txt

and the same with files that are there again after a restart:

    nfsd --concurrent --trail trail.txt --store tree

and all of it in one folder, with the book if it is there:

    nfsd --home office

and the same with room for an office:

    nfsd --home office --profile office

and the same for the machines of a network. The server trusts each of them about its users, and
nothing is encrypted on the way:

    nfsd --home office --listen 192.0.2.7 --allow 192.0.2.0/24";

/// The command of `nfsd`, as `clap` reads it.
pub(crate) fn command<'a>(alloc: Global) -> Result<Command<'a>, AllocError>
    ensures { IfOk result (λ c. app_of c ≡ nfsd) }
{
    let command = Command::new(alloc, "nfsd")
        .version(version())
        .about(ABOUT)
        .after_help(BOOK)
        .arg(book(alloc))?
        .arg(bare(alloc))?
        .arg(port(alloc))?
        .arg(connections(alloc))?
        .arg(concurrent(alloc))?
        .arg(trail(alloc))?
        .arg(stamped(alloc))?
        .arg(privileged_ports(alloc))?
        .arg(store(alloc))?
        .arg(leases(alloc))?
        .arg(home(alloc))?
        .arg(profile(alloc))?
        .arg(listen(alloc))?
        .arg(allow(alloc))?
        .arg(any_port(alloc))?;
    Ok(command)
}

/// An option that names a file or a folder. The empty name is refused.
fn file<'a>(alloc: Global, name: &'a str, what: &'a str, help: &'a str) -> Arg<'a>
    ensures { (rule_of result ≡ file_rule name.entry.now) × (result.global ≡ false) }
{
    Arg::new(alloc, name)
        .long(name)
        .value_name(what)
        .value_parser(ValueParser::NonEmptyString)
        .help(help)
}

/// An option without a value.
fn flag<'a>(alloc: Global, name: &'a str, help: &'a str) -> Arg<'a>
    ensures { (rule_of result ≡ flag_rule name.entry.now) × (result.global ≡ false) }
{
    Arg::new(alloc, name)
        .long(name)
        .value_parser(value_parser!(bool))
        .action(ArgAction::SetTrue)
        .help(help)
}

/// An option that may be given more than once.
fn list<'a>(alloc: Global, name: &'a str, what: &'a str, help: &'a str) -> Arg<'a>
    ensures { (rule_of result ≡ list_rule name.entry.now) × (result.global ≡ false) }
{
    Arg::new(alloc, name)
        .long(name)
        .value_name(what)
        .action(ArgAction::Append)
        .help(help)
}

fn book<'a>(alloc: Global) -> Arg<'a>
    ensures { (rule_of result ≡ book_rule) × (result.global ≡ false) }
{
    file(alloc, "book", "FILE", "The book of names")
}

fn bare<'a>(alloc: Global) -> Arg<'a>
    ensures { (rule_of result ≡ bare_rule) × (result.global ≡ false) }
{
    flag(
        alloc,
        "bare",
        "Serves a sample tree, without sessions and without a book, from standard input to standard output",
    )
}

fn port<'a>(alloc: Global) -> Arg<'a>
    ensures { (rule_of result ≡ port_rule) × (result.global ≡ false) }
{
    Arg::new(alloc, "port")
        .long("port")
        .value_name("N")
        .value_parser(value_parser!(u16).range(1..))
        .help("The port to listen on, from 1 to 65535 [default: 2049]")
}

fn connections<'a>(alloc: Global) -> Arg<'a>
    ensures { (rule_of result ≡ connections_rule) × (result.global ≡ false) }
{
    Arg::new(alloc, "connections")
        .long("connections")
        .value_name("N")
        .value_parser(value_parser!(u32))
        .help(
            "How many connections to serve in all, from 0 to 4294967295 [default: 1; with --concurrent: 4294967295]",
        )
}

fn concurrent<'a>(alloc: Global) -> Arg<'a>
    ensures { (rule_of result ≡ concurrent_rule) × (result.global ≡ false) }
{
    flag(
        alloc,
        "concurrent",
        "Serves up to 16 connections at the same time, or 256 with '--profile office'",
    )
}

fn trail<'a>(alloc: Global) -> Arg<'a>
    ensures { (rule_of result ≡ trail_rule) × (result.global ≡ false) }
{
    file(
        alloc,
        "trail",
        "FILE",
        "Appends the lines of the audit trail to this file, before the replies go out; not with --bare",
    )
}

fn stamped<'a>(alloc: Global) -> Arg<'a>
    ensures { (rule_of result ≡ stamped_rule) × (result.global ≡ false) }
{
    flag(
        alloc,
        "stamped",
        "Begins each line of the trail's file with its time in UTC, and writes a line START at each start; \
         only with --trail",
    )
}

fn privileged_ports<'a>(alloc: Global) -> Arg<'a>
    ensures { (rule_of result ≡ privileged_rule) × (result.global ≡ false) }
{
    flag(
        alloc,
        "privileged-ports",
        "Closes each connection from a port of 1024 or above, before anything is read of it; not with --bare",
    )
}

fn store<'a>(alloc: Global) -> Arg<'a>
    ensures { (rule_of result ≡ store_rule) × (result.global ≡ false) }
{
    file(
        alloc,
        "store",
        "FOLDER",
        "Keeps the files in this folder, which is made if it is missing, before the replies go out; \
         not with --bare",
    )
}

fn leases<'a>(alloc: Global) -> Arg<'a>
    ensures { (rule_of result ≡ leases_rule) × (result.global ≡ false) }
{
    flag(
        alloc,
        "leases",
        "Expires a client that was silent for more than 90 seconds, if more than half of the permitted clients, \
         sessions or open files are in use",
    )
}

fn home<'a>(alloc: Global) -> Arg<'a>
    ensures { (rule_of result ≡ home_rule) × (result.global ≡ false) }
{
    file(
        alloc,
        "home",
        "FOLDER",
        "One folder for all: stands for '--concurrent --leases --store FOLDER/store --trail FOLDER/trail.txt \
         --stamped', and '--book FOLDER/book.toml' if that file is there",
    )
}

fn profile<'a>(alloc: Global) -> Arg<'a>
    ensures { (rule_of result ≡ profile_rule) × (result.global ≡ false) }
{
    Arg::new(alloc, "profile")
        .long("profile")
        .value_name("NAME")
        .help(
            "The limits, 'standard' or 'office'; of office: files of up to 1 TiB, 1048576 objects and names of a \
             directory, 256 connections. A store keeps its profile, and is refused with the other; not 'office' with \
             --bare [default: standard]",
        )
}

fn listen<'a>(alloc: Global) -> Arg<'a>
    ensures { (rule_of result ≡ listen_rule) × (result.global ≡ false) }
{
    list(
        alloc,
        "listen",
        "ADDRESS",
        "Listens on this IPv4 or IPv6 address; up to 8 times; an address that isn't loopback needs '--allow'; \
         not with --bare [default: 127.0.0.1]",
    )
}

fn allow<'a>(alloc: Global) -> Arg<'a>
    ensures { (rule_of result ≡ allow_rule) × (result.global ≡ false) }
{
    list(
        alloc,
        "allow",
        "NETWORK",
        "Serves connections from this network too, as 192.0.2.0/24, 2001:db8::/32 or an address; up to 64 times. \
         Other connections are closed before anything is read of them, except those of the machine itself; \
         not with --bare",
    )
}

fn any_port<'a>(alloc: Global) -> Arg<'a>
    ensures { (rule_of result ≡ any_port_rule) × (result.global ≡ false) }
{
    flag(
        alloc,
        "any-port",
        "Serves connections from ports of 1024 and above also on addresses that aren't loopback, where \
         '--privileged-ports' is the default; not with that option, nor with --bare",
    )
}
