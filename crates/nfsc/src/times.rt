//! The words of a time: RFC 3339 text, or seconds since the epoch.
use jiff::Timestamp;

/// The most digits of a fraction of a second.
const MOST_DIGITS: usize = 9;

/// Whether a text is decimal digits, at least one.
fn are_digits(text: &str) -> bool {
    !text.is_empty() && text.bytes().all(|byte| byte.is_ascii_digit())
}

/// The nanoseconds of the digits after a point, of one to nine.
fn fraction_in(digits: &str) -> Option<u32> {
    if !are_digits(digits) || digits.len() > MOST_DIGITS {
        return None;
    }
    let mut nanoseconds = digits.parse::<u32>().ok()?;
    for _ in digits.len()..MOST_DIGITS {
        nanoseconds = nanoseconds.saturating_mul(10);
    }
    Some(nanoseconds)
}

/// The time of seconds since the epoch, with a sign and a fraction or without.
fn seconds_in(text: &str) -> Option<(i64, u32)> {
    let (whole, nanoseconds) = match text.split_once('.') {
        Some((whole, digits)) => (whole, fraction_in(digits)?),
        None => (text, 0),
    };
    let digits = whole.strip_prefix('-').unwrap_or(whole);
    if !are_digits(digits) {
        return None;
    }
    let seconds = whole.parse::<i64>().ok()?;
    if whole.starts_with('-') && nanoseconds > 0 {
        let rest = 1_000_000_000u32.saturating_sub(nanoseconds);
        return Some((seconds.checked_sub(1)?, rest));
    }
    Some((seconds, nanoseconds))
}

/// The time of RFC 3339 text.
fn instant_in(text: &str) -> Option<(i64, u32)> {
    let all = text.parse::<Timestamp>().ok()?.as_nanosecond();
    let seconds = i64::try_from(all.div_euclid(1_000_000_000)).ok()?;
    let nanoseconds = u32::try_from(all.rem_euclid(1_000_000_000)).ok()?;
    Some((seconds, nanoseconds))
}

/// The time of a word: the seconds since the epoch, and the nanoseconds after them. The word is
/// RFC 3339 text, or `@` and seconds. `None`: it is neither.
pub(crate) fn time_in(word: &str) -> Option<(i64, u32)> {
    match word.strip_prefix('@') {
        Some(text) => seconds_in(text),
        None => instant_in(word),
    }
}
