//! The times that CREATE, OPEN and SETATTR set, by the time of the call (RFC 8881, sections 3.3.3 and 5.8.2).
ghost use Rattle.std.specs.Prelude.{◌≡◌};
ghost use Rattle.compound_run.specs.Times as specs;
ghost use Rattle.compound_run.specs.Views.{wanted_view};

use access_rows::Clock;
use nfs_types::{Attrs, Moment, SetTime};
use std::alloc::Allocator;

/// The moment that is set, if one is.
pub(crate) fn moment_set(now: Moment, time: Option<SetTime>) -> Option<Moment>
    ensures { result ≡ specs.moment_set now time }
{
    match time {
        None => None,
        Some(SetTime::Server) => Some(now),
        Some(SetTime::Client(moment)) => Some(moment),
    }
}

/// Whether a time is set.
pub(crate) fn sets_times<A: Allocator>(wanted: &Attrs<A>) -> bool
    ensures { result ≡ specs.sets_times (wanted_view wanted.now) }
{
    wanted.access.is_some() || wanted.modify.is_some()
}

/// Whose time is set, if one is. A client's time beside the server's is a client's.
pub(crate) fn clock_by(access: Option<SetTime>, modify: Option<SetTime>) -> Option<Clock>
    ensures { result ≡ specs.clock_by access modify }
{
    match (access, modify) {
        (None, None) => None,
        (Some(SetTime::Client(_)), _) | (_, Some(SetTime::Client(_))) => Some(Clock::Client),
        _ => Some(Clock::Server),
    }
}

/// The time_access of a new object. `None`: it is time_modify.
pub(crate) fn first_access(times: bool, now: Moment, access: Option<SetTime>) -> Option<Moment>
    ensures { result ≡ specs.first_access times now access }
{
    if times {
        Some(moment_set(now, access).unwrap_or(now))
    } else {
        None
    }
}

/// The time_modify of a new object.
pub(crate) fn first_modify(now: Moment, modify: Option<SetTime>) -> Moment
    ensures { result ≡ specs.first_modify now modify }
{
    moment_set(now, modify).unwrap_or(now)
}
