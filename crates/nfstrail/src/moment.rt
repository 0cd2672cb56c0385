//! Reading a moment.
ghost use Rattle.std.specs.Prelude.{◌≤◌, IfSome};
ghost use Rattle.trail_keeper.specs.Dates.{IsMoment};

use std::str;
use trail_keeper::moment_text;

/// The bytes of a moment before a line, with the space after it.
pub(crate) const MOMENT: usize = 21;

/// The last second that has a text, in the year 9994.
const LAST: u64 = 253_234_079_999;

/// The days from 1 January of the year 1 to 1 January 1970.
const EPOCH: u64 = 719_162;

/// The days of a common year before each month.
const MONTHS: [u64; 12] = [0, 31, 59, 90, 120, 151, 181, 212, 243, 273, 304, 334];

/// The number of some decimal digits of a text.
fn digits(text: &str, from: usize, to: usize) -> Option<u64> {
    text.get(from..to)?.parse::<u64>().ok()
}

fn is_leap(year: u64) -> bool {
    year % 4 == 0 && (year % 100 != 0 || year % 400 == 0)
}

/// The days from 1970 to a date.
fn days_before(year: u64, month: u64, day: u64) -> Option<u64> {
    let past = year.saturating_sub(1);
    let leap_days = (past / 4)
        .saturating_sub(past / 100)
        .saturating_add(past / 400);
    let months = *MONTHS.get(month.saturating_sub(1) as usize)?;
    let leap_day = if month > 2 && is_leap(year) { 1u64 } else { 0 };
    let days = past.saturating_mul(365).saturating_add(leap_days);
    let days = days.saturating_add(months).saturating_add(leap_day);
    Some(
        days.saturating_add(day)
            .saturating_sub(EPOCH)
            .saturating_sub(1),
    )
}

/// The second of the day.
fn second_in(text: &str) -> Option<u64> {
    let hours = digits(text, 11, 13)?.saturating_mul(3600);
    let minutes = digits(text, 14, 16)?.saturating_mul(60);
    let seconds = digits(text, 17, 19)?;
    Some(hours.saturating_add(minutes).saturating_add(seconds))
}

/// The second since 1970 that a text may represent.
fn guess(text: &[u8]) -> Option<u64> {
    let text = str::from_utf8(text).ok()?;
    let year = digits(text, 0, 4)?;
    let month = digits(text, 5, 7)?;
    let days = days_before(year, month, digits(text, 8, 10)?)?;
    Some(days.saturating_mul(86_400).saturating_add(second_in(text)?))
}

/// The text of the moment of a second.
fn text_of(second: u64) -> [u8; MOMENT]
    requires { second ≤ LAST }
    ensures { IsMoment second result }
{
    moment_text(second as i64)
}

/// The second since 1970 of a moment in UTC, as `2026-11-26T20:28:01Z ` with the space after it.
/// `None`: the text is no moment.
pub(crate) fn read_moment(text: &[u8]) -> Option<u64>
    ensures { IfSome result (λ second. IsMoment second text.now) }
{
    let second = guess(text)?;
    if second <= LAST && text_of(second).as_slice() == text {
        Some(second)
    } else {
        None
    }
}
