//! Dates of the Gregorian calendar.
ghost use Rattle.std.specs.Prelude.{◌≡◌, ◌≤◌, ◌<◌, ◌+◌, ◌-◌};
ghost use Rattle.trail_keeper.specs.Dates.{IsDate, is_leap, month_length, months_length, year_length, years_length};

/// A date of the Gregorian calendar.
#[derive(Clone, Copy, PartialEq, Eq)]
pub struct Date {
    /// The year, from 1970 to 9999.
    pub year: u32,
    /// The month, from 1 to 12.
    pub month: u32,
    /// The day of the month, from 1 to 31.
    pub day: u32,
}

/// The first year.
const EPOCH: u32 = 1970;

/// The largest number of days from the epoch to a date: that of 8,030 years of 365 days. Each year therefore has four
/// digits.
pub(crate) const MOST_DAYS: u32 = 2_930_949;

fn is_leap(year: u32) -> bool
    ensures { result ≡ is_leap year }
{
    year % 4 == 0 && (year % 100 != 0 || year % 400 == 0)
}

/// The number of days of a year.
fn year_length(leap: bool) -> u32
    ensures { result ≡ year_length leap }
{
    if leap { 366 } else { 365 }
}

/// The number of days of a month from 1 to 12.
fn month_length(leap: bool, month: u32) -> u32
    ensures { result ≡ month_length leap month }
{
    match month {
        2 if leap => 29,
        2 => 28,
        4 | 6 | 9 | 11 => 30,
        _ => 31,
    }
}

/// A number of years since the epoch, and the days that are left of a number of days.
#[derive(Clone, Copy)]
struct Years {
    years: u32,
    left: u32,
}

/// The whole years in a number of days since the epoch.
fn whole_years(days: u32) -> Years
    requires { days ≤ MOST_DAYS }
    ensures few { result.years < 8030 }
    ensures left { result.left < year_length (is_leap (1970 + result.years)) }
    ensures counted { years_length result.years + result.left ≡ days }
{
    let mut years = 0;
    let mut left = days;
    while left >= year_length(is_leap(EPOCH + years)) {
        left -= year_length(is_leap(EPOCH + years));
        years += 1;
    }
    Years { years, left }
}

/// The date of a day of a year; the first day is 0.
fn day_of_year(year: u32, day: u32) -> Date
    requires { day < year_length (is_leap year) }
    ensures year { result.year ≡ year }
    ensures first_month { 1 ≤ result.month }
    ensures last_month { result.month ≤ 12 }
    ensures first_day { 1 ≤ result.day }
    ensures last_day { result.day ≤ month_length (is_leap year) result.month }
    ensures counted { months_length (is_leap year) (result.month - 1) + (result.day - 1) ≡ day }
{
    let leap = is_leap(year);
    let mut month = 1;
    let mut left = day;
    while month < 12 {
        let len = month_length(leap, month);
        if left < len {
            return Date {
                year,
                month,
                day: left + 1,
            };
        }
        left -= len;
        month += 1;
    }
    Date {
        year,
        month,
        day: left + 1,
    }
}

/// The date of the day `days` days after 1 January 1970.
pub(crate) fn date_of(days: u32) -> Date
    requires { days ≤ MOST_DAYS }
    ensures date { IsDate days result }
    ensures four_digits { result.year ≤ 9999 }
{
    let Years { years, left } = whole_years(days);
    day_of_year(EPOCH + years, left)
}
