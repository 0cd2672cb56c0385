//! Options that can't be given together.
ghost use Rattle.std.specs.Prelude.{◌≡◌, ◌&&◌, IfOk, not, option_map};
ghost use Rattle.std.specs.List.{list_any};
ghost use Rattle.clap.specs.Words.{kind_of};
ghost use Rattle.networks.specs.Address.{is_loopback};
ghost use Rattle.nfsd_options.specs.Given.{is_for_listening, is_meant, listening_mistake, mistake, together};
ghost use Rattle.nfsd_options.specs.Mistakes.{kind_at};

use crate::command::command;
use crate::options::Options;
use crate::profile::Profile;
use clap::Error;
use clap::error::ErrorKind;
use networks::is_loopback;
use std::alloc::{AllocError, Global};
use std::net::IpAddr;

/// Options that can't be given together.
#[derive(Clone, Copy, PartialEq, Eq)]
pub(crate) enum Mistake {
    /// `--home` with `--bare`, or with an option that it stands for.
    HomeWithOthers,
    /// `--trail` with `--bare`.
    TrailOfBare,
    /// `--privileged-ports` with `--bare`.
    PortsOfBare,
    /// `--store` with `--bare`.
    StoreOfBare,
    /// `--listen`, `--allow` or `--any-port` with `--bare`.
    ListeningOfBare,
    /// `--profile office` with `--bare`.
    OfficeOfBare,
    /// `--any-port` with `--privileged-ports`.
    AnyIsPrivileged,
    /// More addresses or networks than permitted.
    TooMany,
    /// An address that other machines can reach, without `--allow`.
    NobodyAllowed,
    /// `--stamped` without `--trail`.
    NothingToStamp,
}

/// The most addresses that the server listens on.
const MOST_ADDRESSES: usize = 8;

/// The most networks that are allowed.
const MOST_NETWORKS: usize = 64;

/// Whether an option is given that a home stands for.
fn is_meant(options: &Options<'_>) -> bool
    ensures { result ≡ is_meant (together options.now) }
{
    options.book.is_some()
        || (options.concurrent
            || (options.trail.is_some()
                || (options.stamped || (options.store.is_some() || options.leases))))
}

/// Whether an option is given for where the server listens, or for who may connect.
fn is_for_listening(options: &Options<'_>) -> bool
    ensures { result ≡ is_for_listening (together options.now) }
{
    !options.listen.is_empty() || (!options.allow.is_empty() || options.any_port)
}

/// Whether the office profile is given.
fn is_office(options: &Options<'_>) -> bool
    ensures { result ≡ (together options.now).office }
{
    match options.profile {
        Profile::Standard => false,
        Profile::Office => true,
    }
}

/// Whether there are more addresses or networks than permitted.
fn are_many(options: &Options<'_>) -> bool
    ensures { result ≡ (together options.now).many }
{
    options.listen.len() > MOST_ADDRESSES || options.allow.len() > MOST_NETWORKS
}

/// Whether other machines can reach one of the addresses.
fn is_beyond(addresses: &[IpAddr]) -> bool
    ensures { result ≡ list_any (λ a. not (is_loopback a)) addresses.now }
{
    addresses.iter().any(|address| !is_loopback(address))
}

/// Whether other machines can reach an address, and no network is allowed.
fn is_nobody_allowed(options: &Options<'_>) -> bool
    ensures { result ≡ ((together options.now).beyond && not (together options.now).allow) }
{
    is_beyond(&options.listen) && options.allow.is_empty()
}

impl Mistake {
    /// The first mistake of the options for listening, and of `--stamped`.
    fn of_listening(options: &Options<'_>) -> Option<Mistake>
        ensures { option_map kind_at result ≡ listening_mistake (together options.now) }
    {
        if options.any_port && options.privileged_ports {
            Some(Mistake::AnyIsPrivileged)
        } else if are_many(options) {
            Some(Mistake::TooMany)
        } else if is_nobody_allowed(options) {
            Some(Mistake::NobodyAllowed)
        } else if options.stamped && options.trail.is_none() {
            Some(Mistake::NothingToStamp)
        } else {
            None
        }
    }

    /// The first mistake of the options, if there is one.
    pub(crate) fn of(options: &Options<'_>) -> Option<Mistake>
        ensures { option_map kind_at result ≡ mistake (together options.now) }
    {
        let bare = options.bare;
        let trail = options.trail;
        if options.home.is_some() && (bare || is_meant(options)) {
            Some(Mistake::HomeWithOthers)
        } else if bare && trail.is_some() {
            Some(Mistake::TrailOfBare)
        } else if bare && options.privileged_ports {
            Some(Mistake::PortsOfBare)
        } else if bare && is_for_listening(options) {
            Some(Mistake::ListeningOfBare)
        } else if bare && options.store.is_some() {
            Some(Mistake::StoreOfBare)
        } else if bare && is_office(options) {
            Some(Mistake::OfficeOfBare)
        } else {
            Mistake::of_listening(options)
        }
    }

    /// The kind of the error in `clap`.
    fn kind(self) -> ErrorKind
        ensures { result ≡ kind_at self }
    {
        match self {
            Mistake::HomeWithOthers
            | Mistake::TrailOfBare
            | Mistake::PortsOfBare
            | Mistake::StoreOfBare
            | Mistake::ListeningOfBare
            | Mistake::OfficeOfBare
            | Mistake::AnyIsPrivileged => ErrorKind::ArgumentConflict,
            Mistake::TooMany => ErrorKind::TooManyValues,
            Mistake::NobodyAllowed | Mistake::NothingToStamp => ErrorKind::MissingRequiredArgument,
        }
    }

    /// The text for the user.
    fn text(self) -> &'static str {
        match self {
            Mistake::HomeWithOthers => {
                "the argument '--home <FOLDER>' stands for '--concurrent', '--leases', '--store', '--trail', \
                 '--stamped' and '--book', and goes with none of them, nor with '--bare'"
            }
            Mistake::TrailOfBare => {
                "the argument '--trail <FILE>' cannot be used with '--bare', whose trail goes to no file"
            }
            Mistake::PortsOfBare => {
                "the argument '--privileged-ports' cannot be used with '--bare', which listens on no port"
            }
            Mistake::StoreOfBare => {
                "the argument '--store <FOLDER>' cannot be used with '--bare', whose tree is kept nowhere"
            }
            Mistake::ListeningOfBare => {
                "the arguments '--listen <ADDRESS>', '--allow <NETWORK>' and '--any-port' cannot be used with \
                 '--bare', which listens on no port"
            }
            Mistake::OfficeOfBare => {
                "the argument '--profile office' cannot be used with '--bare', whose sample tree has the limits of the \
                 standard profile"
            }
            Mistake::AnyIsPrivileged => {
                "the argument '--any-port' cannot be used with '--privileged-ports'"
            }
            Mistake::TooMany => {
                "the argument '--listen <ADDRESS>' is taken 8 times at most, and '--allow <NETWORK>' 64 times"
            }
            Mistake::NobodyAllowed => {
                "the argument '--listen <ADDRESS>' names an address that other machines reach, and '--allow <NETWORK>' \
                 names nobody who may connect to it"
            }
            Mistake::NothingToStamp => {
                "the argument '--stamped' is for the lines of a file, and '--trail <FILE>' names none"
            }
        }
    }

    /// The error of the mistake.
    pub(crate) fn error(self, alloc: Global) -> Result<Error, AllocError>
        ensures { IfOk result (λ e. kind_of e ≡ kind_at self) }
    {
        command(alloc)?.error(self.kind(), self.text())
    }
}
