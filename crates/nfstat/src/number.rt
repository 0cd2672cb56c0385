//! Numbers in words for people.
use jiff::Timestamp;
use server_metrics::Usage;
use std::fmt;
use std::fmt::{Display, Formatter};

/// A number with a comma before each three digits.
#[derive(Clone, Copy)]
pub(crate) struct Grouped(pub(crate) u64);

/// The group of three digits above a power of 1,000, if the number has one there.
fn group_at(number: u64, power: u64) -> Option<u64> {
    if power != 0 && number >= power {
        Some(number / power % 1000)
    } else {
        None
    }
}

/// The powers of 1,000 below 2^64, the largest first.
const POWERS: [u64; 7] = [
    1_000_000_000_000_000_000,
    1_000_000_000_000_000,
    1_000_000_000_000,
    1_000_000_000,
    1_000_000,
    1000,
    1,
];

impl Display for Grouped {
    fn fmt<W: fmt::Write>(&self, f: &mut Formatter<W>) -> fmt::Result {
        let number = self.0;
        let mut is_first = true;
        for power in &POWERS {
            match group_at(number, *power) {
                Some(group) if is_first => write!(f, "{group}")?,
                Some(group) => write!(f, ",{group:03}")?,
                None if *power == 1 => f.write_str("0")?,
                None => continue,
            }
            is_first = false;
        }
        Ok(())
    }
}

/// How many hundredths of a limit are used, rounded down.
#[derive(Clone, Copy)]
pub(crate) struct Percent(pub(crate) Usage);

impl Display for Percent {
    fn fmt<W: fmt::Write>(&self, f: &mut Formatter<W>) -> fmt::Result {
        let Usage { used, limit } = self.0;
        if limit == 0 {
            return f.write_str("-");
        }
        let share = u128::from(used) * 100 / u128::from(limit);
        write!(f, "{share}")
    }
}

/// Microseconds, in seconds with six decimals.
#[derive(Clone, Copy)]
pub(crate) struct Seconds(pub(crate) u64);

impl Display for Seconds {
    fn fmt<W: fmt::Write>(&self, f: &mut Formatter<W>) -> fmt::Result {
        let (whole, rest) = (self.0 / 1_000_000, self.0 % 1_000_000);
        write!(f, "{whole}.{rest:06}")
    }
}

/// Seconds since 1970 as a moment in UTC, as `2026-11-28T02:44:00Z` (RFC 3339).
#[derive(Clone, Copy)]
pub(crate) struct Moment(pub(crate) u64);

impl Display for Moment {
    fn fmt<W: fmt::Write>(&self, f: &mut Formatter<W>) -> fmt::Result {
        let second = self.0;
        let Ok(signed) = i64::try_from(second) else {
            return write!(f, "{second}");
        };
        match Timestamp::from_second(signed) {
            Ok(moment) => write!(f, "{moment}"),
            Err(_) => write!(f, "{second}"),
        }
    }
}
