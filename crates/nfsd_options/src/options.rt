//! The options of `nfsd`.
ghost use Rattle.std.specs.Prelude.{◌≡◌, ◌||◌, IfOk, is_some, map};
ghost use Rattle.nfsd_options.specs.Given.{AreReadOr, IsTakenOr, OptionsOf, default_connections};

use crate::command::command;
use crate::mistake::Mistake;
use crate::profile::{Profile, read_profile};
use crate::values::values;
use clap::Error;
use networks::Network;
use std::alloc::Global;
use std::convert::AsStr;
use std::net::IpAddr;

/// The port without `--port`.
const PORT: u16 = 2049;

/// How many connections are served without `--connections`, one after the other.
const CONNECTIONS: u32 = 1;

/// How many connections are served without `--connections`, several at a time.
const CONCURRENT_CONNECTIONS: u32 = 4_294_967_295;

/// The options of `nfsd`.
#[derive(PartialEq, Eq, Drop)]
pub struct Options<'a> {
    /// The file of the book.
    pub book: Option<&'a str>,
    /// Whether the sample tree is served, from standard input to standard output.
    pub bare: bool,
    /// The port to listen on, 1 to 65535.
    pub port: u16,
    /// How many connections are served in all. Without `--connections` it is 1, or the most with `concurrent` or
    /// `home`.
    pub connections: u32,
    /// Whether several connections are served at the same time.
    pub concurrent: bool,
    /// The file to which the lines of the trail are appended.
    pub trail: Option<&'a str>,
    /// Whether each line in the trail's file begins with its time.
    pub stamped: bool,
    /// Whether connections are served only from ports below 1024.
    pub privileged_ports: bool,
    /// The folder of the store, which has the state that outlives a restart.
    pub store: Option<&'a str>,
    /// Whether a client expires that is silent for longer than a lease, if there are many clients.
    pub leases: bool,
    /// The folder of the store, the trail and the book.
    pub home: Option<&'a str>,
    /// The profile. Without `--profile` it is the standard one.
    pub profile: Profile,
    /// The addresses to listen on, at most 8. If there are none, it is 127.0.0.1.
    pub listen: Vec<IpAddr>,
    /// The networks from which connections are served, at most 64, beside the machine itself.
    pub allow: Vec<Network>,
    /// Whether connections from ports of 1024 and above are also served on addresses that aren't loopback.
    pub any_port: bool,
}

/// How many connections are served without `--connections`.
fn connections_of(concurrent: bool) -> u32
    ensures { result ≡ default_connections concurrent }
{
    if concurrent {
        CONCURRENT_CONNECTIONS
    } else {
        CONNECTIONS
    }
}

/// Whether several connections are served at the same time, as in each home.
fn are_many(concurrent: bool, home: Option<&str>) -> bool
    ensures { result ≡ (concurrent || is_some home.entry) }
{
    concurrent || home.is_some()
}

impl<'a> Options<'a> {
    /// Reads the words by `clap`. The options may be ones that can't be given together.
    fn taken<S: AsStr>(alloc: Global, words: &'a [S]) -> Result<Options<'a>, Error>
        ensures options_are { IfOk result (OptionsOf (map S.text words.entry.now)) }
        ensures refused { AreReadOr (map S.text words.entry.now) result }
    {
        let matches = command(alloc)?.try_get_matches_from(words)?;
        let bare = matches.get_flag("bare");
        let concurrent = matches.get_flag("concurrent");
        let stamped = matches.get_flag("stamped");
        let privileged_ports = matches.get_flag("privileged-ports");
        let leases = matches.get_flag("leases");
        let trail = matches.get_str("trail");
        let store = matches.get_str("store");
        let home = matches.get_str("home");
        let many = are_many(concurrent, home);
        let default_count = connections_of(many);
        let profile = read_profile(alloc, matches.get_str("profile"))?;
        let any_port = matches.get_flag("any-port");
        let listen = values(alloc, "--listen <ADDRESS>", matches.get_strs("listen"))?;
        let allow = values(alloc, "--allow <NETWORK>", matches.get_strs("allow"))?;
        Ok(Options {
            book: matches.get_str("book"),
            bare,
            port: matches.get_one::<u16>("port").unwrap_or(PORT),
            connections: matches
                .get_one::<u32>("connections")
                .unwrap_or(default_count),
            concurrent,
            trail,
            stamped,
            privileged_ports,
            store,
            leases,
            home,
            profile,
            listen,
            allow,
            any_port,
        })
    }

    /// Reads the words. The first one is the program's name, as in `env::args`.
    ///
    /// An error is `clap`'s own, and its `Display` is the text for the user. These are the errors: a mistake in the
    /// words, a request for help or for the version, a name of no profile, a text that is no address or no network,
    /// and a failed allocation. Too many addresses or networks are an error too, and so are these options together:
    /// `--home` with an option that it stands for or with `--bare`; `--bare` with `--trail`, `--store`, the office
    /// profile or an option for listening; `--any-port` with `--privileged-ports`; an address that isn't loopback
    /// without `--allow`; `--stamped` without `--trail`.
    pub fn read<S: AsStr>(alloc: Global, words: &'a [S]) -> Result<Options<'a>, Error>
        ensures options_are { IfOk result (OptionsOf (map S.text words.entry.now)) }
        ensures refused { IsTakenOr (map S.text words.entry.now) result }
    {
        let options = Options::taken(alloc, words)?;
        if let Some(mistake) = Mistake::of(&options) {
            return Err(mistake.error(alloc)?);
        }
        Ok(options)
    }
}
