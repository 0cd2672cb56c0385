//! The text of a time.
ghost use Rattle.std.specs.Prelude.{◌≡◌, ◌<◌, ◌+◌, ◌/◌, ◌%◌};
ghost use Rattle.trail_keeper.specs.Dates.{IsMoment, written_second};

use crate::date::date_of;

/// The seconds of a day.
const DAY: u64 = 86_400;

/// The last second that is written, in the year 9994.
const LAST: u64 = 253_234_079_999;

/// The first of two decimal digits.
fn tens(n: u32) -> u8
    requires { n < 100 }
    ensures { result ≡ 48 + n / 10 }
{
    b'0' + (n / 10) as u8
}

/// The second of two decimal digits.
fn ones(n: u32) -> u8
    ensures { result ≡ 48 + n % 10 }
{
    b'0' + (n % 10) as u8
}

/// The second that is written. A time before 1970 is written as the start of 1970, and one after the last second as
/// that one.
fn written_second(seconds: i64) -> u64
    ensures { result ≡ written_second seconds }
{
    u64::try_from(seconds).unwrap_or(0).min(LAST)
}

/// The text of a time in UTC, with a space after it, as `2026-11-26T20:28:01Z `, from the seconds since 1970-01-01. A
/// time before that is written as that one. A time after the 2,930,950 days from then on, in the year 9994, is written
/// as the last second of these.
pub fn moment_text(seconds: i64) -> [u8; 21]
    ensures { IsMoment (written_second seconds) result }
{
    let written = written_second(seconds);
    let date = date_of((written / DAY) as u32);
    let second = (written % DAY) as u32;
    let (century, year) = (date.year / 100, date.year % 100);
    let (hour, minute) = (second / 3600, second / 60 % 60);
    [
        tens(century),
        ones(century),
        tens(year),
        ones(year),
        b'-',
        tens(date.month),
        ones(date.month),
        b'-',
        tens(date.day),
        ones(date.day),
        b'T',
        tens(hour),
        ones(hour),
        b':',
        tens(minute),
        ones(minute),
        b':',
        tens(second % 60),
        ones(second % 60),
        b'Z',
        b' ',
    ]
}
