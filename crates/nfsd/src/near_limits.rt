//! Lines on standard error about limits that are nearly reached.
ghost use Rattle.std.specs.Prelude.{◌≡◌};
ghost use Rattle.nfsd.specs.NearLimits.{is_due, level_of, rank, reaches, reported_after};

use compound_run::Server;

/// How near a count is to its limit.
#[derive(Clone, Copy)]
pub(crate) enum Level {
    /// Less than 80 hundredths of the limit are in use.
    Low,
    /// At least 80 hundredths are in use.
    High,
    /// At least 95 hundredths are in use.
    Critical,
    /// The limit is reached.
    Full,
}

/// Whether at least this number of hundredths of a limit is in use.
fn reaches(hundredths: u8, used: usize, limit: usize) -> bool
    ensures { result ≡ reaches hundredths used limit }
{
    u128::from(hundredths) * (limit as u128) <= 100 * (used as u128)
}

impl Level {
    /// The level of a count.
    fn of(used: usize, limit: usize) -> Level
        ensures { result ≡ level_of used limit }
    {
        if reaches(100, used, limit) {
            Level::Full
        } else if reaches(95, used, limit) {
            Level::Critical
        } else if reaches(80, used, limit) {
            Level::High
        } else {
            Level::Low
        }
    }

    /// The number of levels below it.
    fn rank(self) -> u8
        ensures { result ≡ rank self }
    {
        match self {
            Level::Low => 0,
            Level::High => 1,
            Level::Critical => 2,
            Level::Full => 3,
        }
    }
}

/// Records a count. `reported` is the level that was reported last; it is low again once less than 75 hundredths of the
/// limit are in use. Returns whether the count is to be reported, as its level is above the one that was reported.
fn is_to_report(reported: &mut Level, used: usize, limit: usize) -> bool
    ensures due { result ≡ is_due reported.old used limit }
    ensures after { reported.new ≡ reported_after reported.old used limit }
{
    let level = Level::of(used, limit);
    let due = level.rank() > reported.rank();
    if !reaches(75, used, limit) {
        *reported = Level::Low;
    } else if due {
        *reported = level;
    }
    due
}

/// A count, its limit, and the texts of a line about it.
#[derive(Clone, Copy)]
struct Count<'a> {
    used: usize,
    limit: usize,
    /// The things that are counted.
    name: &'a str,
    /// The effect at the limit, and what would help.
    advice: &'a str,
}

/// Reports a count on standard error if that is due. A line that can't be written is dropped.
fn report_count<R: Eprint>(rt: &R, reported: &mut Level, count: Count<'_>) {
    let Count {
        used,
        limit,
        name,
        advice,
    } = count;
    if !is_to_report(reported, used, limit) {
        return;
    }
    let hundredths = (used as u128 * 100)
        .checked_div(limit as u128)
        .unwrap_or(100);
    let _ = eprintln!(rt; "nfsd: {used} of {limit} {name} ({hundredths}%): at the limit {advice}");
}

/// The levels that were reported last, one for each limit that has lines.
#[derive(Clone, Copy)]
pub(crate) struct NearLimits {
    connections: Level,
    clients: Level,
    sessions: Level,
    opens: Level,
    objects: Level,
}

impl NearLimits {
    /// Nothing was reported yet.
    pub(crate) fn new() -> Self {
        NearLimits {
            connections: Level::Low,
            clients: Level::Low,
            sessions: Level::Low,
            opens: Level::Low,
            objects: Level::Low,
        }
    }

    /// Reports the counts of a server that are due, given how many connections are open.
    pub(crate) fn report<R: Eprint>(&mut self, rt: &R, connections: usize, server: &Server) {
        self.report_callers(rt, connections, server);
        let limits = server.tree().limits();
        let opens = Count {
            used: server.opens().len(),
            limit: limits.opens(),
            name: "open files",
            advice: "no further file is opened (NOSPC); end programs that keep files open",
        };
        report_count(rt, &mut self.opens, opens);
        let objects = Count {
            used: server.tree().object_count(),
            limit: limits.objects(),
            name: "objects",
            advice: "no further file, directory or link is made (NOSPC); remove what isn't needed",
        };
        report_count(rt, &mut self.objects, objects);
    }

    /// Reports the counts of connections, clients and sessions that are due.
    fn report_callers<R: Eprint>(&mut self, rt: &R, connections: usize, server: &Server) {
        let limits = server.tree().limits();
        let (clients, sessions) = server.clients().counts();
        let open = Count {
            used: connections,
            limit: limits.connections(),
            name: "connections",
            advice: "the next one waits until one ends or is quiet",
        };
        report_count(rt, &mut self.connections, open);
        let clients = Count {
            used: clients,
            limit: limits.clients(),
            name: "clients",
            advice: "new clients are refused with NOSPC; unmount where no files are used",
        };
        report_count(rt, &mut self.clients, clients);
        let sessions = Count {
            used: sessions,
            limit: limits.sessions(),
            name: "sessions",
            advice: "new sessions are refused with NOSPC; unmount where no files are used",
        };
        report_count(rt, &mut self.sessions, sessions);
    }
}
