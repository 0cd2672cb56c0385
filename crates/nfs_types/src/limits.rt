//! The limits that a profile sets.
ghost use Rattle.std.specs.Prelude.{◌≡◌};
ghost use Rattle.nfs_types.specs.Limits.{standard, office, limits_of, IsAllowed};

use std::marker::Model;

/// The limits that a profile sets. A server never changes its own.
#[derive(Clone, Copy)]
pub struct Limits {
    profile: u32,
    connections: usize,
    clients: usize,
    sessions: usize,
    opens: usize,
    objects: usize,
    names: usize,
    links: usize,
    bytes: u64,
    times: bool,
}

impl Model for Limits {
    ghost use Rattle.nfs_types.specs.Limits.{Limits, IsAllowed};

    ghost Value = { Limits };

    ghost view = { λ l. record {
      profile = l.profile;
      connections = l.connections;
      clients = l.clients;
      sessions = l.sessions;
      opens = l.opens;
      objects = l.objects;
      names = l.names;
      links = l.links;
      bytes = l.bytes;
      times = l.times;
    } };

    ghost inverse = { λ l. record {
      profile = l.profile;
      connections = l.connections;
      clients = l.clients;
      sessions = l.sessions;
      opens = l.opens;
      objects = l.objects;
      names = l.names;
      links = l.links;
      bytes = l.bytes;
      times = l.times;
    } };

    ghost invariant = { λ l. IsAllowed (record {
      profile = l.profile;
      connections = l.connections;
      clients = l.clients;
      sessions = l.sessions;
      opens = l.opens;
      objects = l.objects;
      names = l.names;
      links = l.links;
      bytes = l.bytes;
      times = l.times;
    }) };
}

impl Limits {
    /// The standard profile: 16 connections, 64 clients, 64 sessions, 4,096 open files, 16,384 objects, 4,096 names in
    /// a directory, 1,000 names of an object, and 1,048,576 bytes of a file.
    pub fn standard() -> Self
        ensures { result ≡ standard }
    {
        Limits {
            profile: 0,
            connections: 16,
            clients: 64,
            sessions: 64,
            opens: 4_096,
            objects: 16_384,
            names: 4_096,
            links: 1_000,
            bytes: 1_048_576,
            times: false,
        }
    }

    /// The office profile: 256 connections, 256 clients, 256 sessions, 65,536 open files, 1,048,576 objects, 1,048,576
    /// names in a directory, 32,767 names of an object, and 2^40 bytes of a file.
    pub fn office() -> Self
        ensures { result ≡ office }
    {
        Limits {
            profile: 1,
            connections: 256,
            clients: 256,
            sessions: 256,
            opens: 65_536,
            objects: 1_048_576,
            names: 1_048_576,
            links: 32_767,
            bytes: 1_099_511_627_776,
            times: true,
        }
    }

    /// The limits of the profile of a number: 0 is the standard profile, 1 the office profile. `None`: no profile has
    /// it.
    pub fn of(profile: u32) -> Option<Self>
        ensures { result ≡ limits_of profile }
    {
        match profile {
            0 => Some(Limits::standard()),
            1 => Some(Limits::office()),
            _ => None,
        }
    }

    /// The number of the profile: 0 is the standard profile, 1 the office profile.
    pub fn profile(&self) -> u32
        ensures number { result ≡ self.now.profile }
        ensures allowed { IsAllowed self.now }
    {
        self.profile
    }

    /// The most connections at a time.
    pub fn connections(&self) -> usize
        ensures { result ≡ self.now.connections }
    {
        self.connections
    }

    /// The most records of clients.
    pub fn clients(&self) -> usize
        ensures { result ≡ self.now.clients }
    {
        self.clients
    }

    /// The most sessions.
    pub fn sessions(&self) -> usize
        ensures { result ≡ self.now.sessions }
    {
        self.sessions
    }

    /// The most files that may be open at once.
    pub fn opens(&self) -> usize
        ensures { result ≡ self.now.opens }
    {
        self.opens
    }

    /// The most objects in a tree.
    pub fn objects(&self) -> usize
        ensures { result ≡ self.now.objects }
    {
        self.objects
    }

    /// The most names in a directory.
    pub fn names(&self) -> usize
        ensures { result ≡ self.now.names }
    {
        self.names
    }

    /// The most names of an object that isn't a directory, the attribute `maxlink` (RFC 8881, section 5.8.2.27).
    pub fn links(&self) -> usize
        ensures { result ≡ self.now.links }
    {
        self.links
    }

    /// The most bytes of a file, the attribute `maxfilesize` (RFC 8881, section 5.8.2.26).
    pub fn bytes(&self) -> u64
        ensures { result ≡ self.now.bytes }
    {
        self.bytes
    }

    /// Whether times can be set, and the time of the last access is kept (RFC 8881, section 5.8.2).
    pub fn times(&self) -> bool
        ensures { result ≡ self.now.times }
    {
        self.times
    }
}
