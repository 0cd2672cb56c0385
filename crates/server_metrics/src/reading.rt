//! Reading samples from a text of metrics.
ghost use Rattle.std.specs.Prelude.{◌≡◌, ◌+◌, ◌∷◌, IfOk, IfSome, drop, find, option_map};
ghost use Rattle.std.specs.Bool.{OnTrue};
ghost use Rattle.std.specs.Str.Lines.{lines};
ghost use Rattle.server_metrics.specs.Reading.{ReadsMetric, ReadsNumber, ReadsSeconds, has_series, value_of};
ghost use Rattle.server_metrics.specs.Text.{call_sample, seconds, six_digits};

use crate::metric::Metric;
use crate::metrics::CallCount;
use crate::piece::{MICROS, six_digits};
use crate::text::push_sample;
use itoa::Buffer;
use std::alloc::{AllocError, Allocator};
use std::str;

/// Whether a line is that of a series: the series and a space begin it.
fn has_series(line: &[u8], series: &[u8]) -> bool
    ensures { result ≡ has_series line.now series.now }
{
    line.starts_with(series) && line.get(series.len()) == Some(&b' ')
}

/// The first line of a series.
fn line_of<'a>(text: &'a str, series: &str) -> Option<&'a str>
    ensures { option_map (λ line. line.now) result ≡ find (λ line. has_series line series.now) (lines text.now) }
{
    text.lines()
        .find(|line| has_series(line.as_bytes(), series.as_bytes()))
}

/// The bytes from a place on. Past the end there are none.
fn rest_of(bytes: &[u8], at: usize) -> &[u8]
    ensures { result.now ≡ drop at bytes.now }
{
    bytes.get(at..).unwrap_or(b"")
}

/// The value of a series: the text after the series and a space, in the first line of a text that they begin. A
/// series is a name, or a name and its labels as they are written. `None`: no line is of this series.
pub fn value_of<'a>(text: &'a str, series: &str) -> Option<&'a [u8]>
    ensures { option_map (λ value. value.now) result ≡ value_of text.now series.now }
{
    match line_of(text, series) {
        Some(line) => Some(rest_of(line.as_bytes(), series.len() + 1)),
        None => None,
    }
}

/// The number that a value writes in decimal digits, without a sign and without zeros before it.
pub fn read_number(value: &[u8]) -> Option<u64>
    ensures { ReadsNumber value.now result }
{
    let Ok(text) = str::from_utf8(value) else {
        return None;
    };
    let Ok(number) = text.parse::<u64>() else {
        return None;
    };
    if Buffer::new().format(number).as_bytes() == value {
        Some(number)
    } else {
        None
    }
}

/// Whether bytes are a point and the six digits of a number.
fn is_fraction(number: u32, bytes: &[u8]) -> bool
    ensures { OnTrue result (bytes.now ≡ 46 ∷ six_digits number) }
{
    let digits = six_digits(number);
    match bytes {
        [b'.', rest @ ..] => rest == digits.as_slice(),
        _ => false,
    }
}

/// Whether a value is that of microseconds in seconds, as in `0.000250`.
#[tactic(auto, unfolding(crate::specs::Text::seconds))]
fn is_seconds(micros: u64, value: &[u8]) -> bool
    ensures { OnTrue result (value.now ≡ seconds micros) }
{
    let mut buffer = Buffer::new();
    match value.strip_prefix(buffer.format(micros / MICROS).as_bytes()) {
        Some(rest) => is_fraction((micros % MICROS) as u32, rest),
        None => false,
    }
}

/// The microseconds of a text of seconds with six decimals.
fn micros_in(text: &str) -> Option<u64> {
    let (whole, digits) = text.split_once('.')?;
    let whole = whole.parse::<u64>().ok()?;
    let digits = digits.parse::<u64>().ok()?;
    whole.checked_mul(MICROS)?.checked_add(digits)
}

/// The microseconds that a value writes in seconds with six decimals, as in `0.000250`.
pub fn read_seconds(value: &[u8]) -> Option<u64>
    ensures { IfSome result (λ micros. value.now ≡ seconds micros) }
{
    let micros = micros_in(str::from_utf8(value).ok()?)?;
    if is_seconds(micros, value) {
        Some(micros)
    } else {
        None
    }
}

/// The number of a metric in a text. `None`: no line is of the metric, or the first one has no number below 2^64 in
/// decimal digits.
pub fn number_of(text: &str, metric: Metric) -> Option<u64>
    ensures { ReadsMetric text.now metric result }
{
    match value_of(text, metric.name()) {
        Some(value) => read_number(value),
        None => None,
    }
}

/// The microseconds of a metric in seconds, in a text. `None`: no line is of the metric, or the first one has no number
/// of seconds with six decimals.
pub fn micros_of(text: &str, metric: Metric) -> Option<u64>
    ensures { ReadsSeconds text.now metric result }
{
    match value_of(text, metric.name()) {
        Some(value) => read_seconds(value),
        None => None,
    }
}

/// The calls of a line, if it has the form of one.
fn call_in(line: &str) -> Option<CallCount<'_>> {
    let labels = line.strip_prefix(Metric::Calls.name())?;
    let (operation, rest) = labels
        .strip_prefix("{operation=\"")?
        .split_once("\",status=\"")?;
    let (status, digits) = rest.split_once("\"} ")?;
    let count = digits.parse::<u64>().ok()?;
    Some(CallCount {
        operation,
        status,
        count,
    })
}

/// The calls that a line of a text states. `None`: it is another line, or its labels have a backslash.
///
/// The error is that an allocation failed.
pub fn read_call<A: Allocator>(alloc: A, line: &str) -> Result<Option<CallCount<'_>>, AllocError>
    ensures { IfOk result (λ read. IfSome read (λ call. call_sample call ≡ line.now)) }
{
    let Some(call) = call_in(line) else {
        return Ok(None);
    };
    let mut written = Vec::new(alloc);
    push_sample(&mut written, &call)?;
    if written.as_slice() == line.as_bytes() {
        Ok(Some(call))
    } else {
        Ok(None)
    }
}
