//! Pieces of the text. Each is appended to what is there.
ghost use Rattle.std.specs.Prelude.{◌≡◌, ◌+◌, ◌%◌, ◌++◌, OnOk, decimal};
ghost use Rattle.server_metrics.specs.Names.{help_of, kind_of, kind_word, name_of};
ghost use Rattle.server_metrics.specs.Text as specs;

use crate::metric::Metric;
use itoa::Buffer;
use std::alloc::{AllocError, Allocator};

/// The microseconds of a second.
pub(crate) const MICROS: u64 = 1_000_000;

/// Appends a text.
pub(crate) fn push_text<A: Allocator>(out: &mut Vec<u8, A>, text: &str) -> Result<(), AllocError>
    ensures { OnOk result (out.new.items ≡ out.old.items ++ text.now) }
{
    out.extend_from_slice(text.as_bytes())
}

/// Appends four texts.
fn push_all<A: Allocator>(
    out: &mut Vec<u8, A>,
    first: &str,
    second: &str,
    third: &str,
    fourth: &str,
) -> Result<(), AllocError>
    ensures { OnOk result (out.new.items ≡ out.old.items ++ (first.now ++ second.now ++ third.now ++ fourth.now)) }
{
    push_text(out, first)?;
    push_text(out, second)?;
    push_text(out, third)?;
    push_text(out, fourth)
}

/// Appends the lines before the samples of a metric.
#[tactic(auto, unfolding(crate::specs::Text::head))]
pub(crate) fn push_head<A: Allocator>(
    out: &mut Vec<u8, A>,
    metric: Metric,
) -> Result<(), AllocError>
    ensures { OnOk result (out.new.items ≡ out.old.items ++ specs.head metric) }
{
    push_all(out, "# HELP ", metric.name(), " ", metric.help())?;
    push_all(out, "\n# TYPE ", metric.name(), " ", metric.kind().word())?;
    push_text(out, "\n")
}

/// Appends a metric of one sample.
#[tactic(auto, unfolding(crate::specs::Text::single))]
fn push_single<A: Allocator>(
    out: &mut Vec<u8, A>,
    metric: Metric,
    value: &str,
) -> Result<(), AllocError>
    ensures { OnOk result (out.new.items ≡ out.old.items ++ specs.single metric value.now) }
{
    push_head(out, metric)?;
    push_all(out, metric.name(), " ", value, "\n")
}

/// Appends a metric of one whole number.
#[tactic(auto, unfolding(crate::specs::Text::count))]
pub(crate) fn push_count<A: Allocator>(
    out: &mut Vec<u8, A>,
    metric: Metric,
    value: u64,
) -> Result<(), AllocError>
    ensures { OnOk result (out.new.items ≡ out.old.items ++ specs.count metric value) }
{
    let mut buffer = Buffer::new();
    push_single(out, metric, buffer.format(value))
}

/// A decimal digit of a number.
fn digit(number: u32) -> u8
    ensures { result ≡ 48 + number % 10 }
{
    b'0' + (number % 10) as u8
}

/// A number as six digits.
#[tactic(auto, unfolding(crate::specs::Text::six_digits))]
pub(crate) fn six_digits(number: u32) -> [u8; 6]
    ensures { result ≡ specs.six_digits number }
{
    [
        digit(number / 100_000),
        digit(number / 10_000),
        digit(number / 1000),
        digit(number / 100),
        digit(number / 10),
        digit(number),
    ]
}

/// Appends a metric of microseconds, in seconds.
#[tactic(auto, unfolding(crate::specs::Text::single, crate::specs::Text::seconds))]
pub(crate) fn push_seconds<A: Allocator>(
    out: &mut Vec<u8, A>,
    metric: Metric,
    micros: u64,
) -> Result<(), AllocError>
    ensures { OnOk result (out.new.items ≡ out.old.items ++ specs.single metric (specs.seconds micros)) }
{
    let mut buffer = Buffer::new();
    push_head(out, metric)?;
    push_all(out, metric.name(), " ", buffer.format(micros / MICROS), ".")?;
    out.extend_from_slice(&six_digits((micros % MICROS) as u32))?;
    push_text(out, "\n")
}

/// Appends a byte of a label's value.
fn push_escaped_byte<A: Allocator>(out: &mut Vec<u8, A>, byte: u8) -> Result<(), AllocError>
    ensures { OnOk result (out.new.items ≡ out.old.items ++ specs.escaped_byte byte) }
{
    match byte {
        b'\\' => push_text(out, "\\\\"),
        b'"' => push_text(out, "\\\""),
        b'\n' => push_text(out, "\\n"),
        other => out.extend_from_slice(&[other]),
    }
}

/// Appends the value of a label.
#[tactic(auto, unfolding(crate::specs::Text::escaped))]
fn push_escaped<A: Allocator>(out: &mut Vec<u8, A>, text: &str) -> Result<(), AllocError>
    ensures { OnOk result (out.new.items ≡ out.old.items ++ specs.escaped text.now) }
{
    for byte in text.as_bytes() {
        push_escaped_byte(out, *byte)?;
    }
    Ok(())
}

/// Appends the value of a label after the text before it.
#[tactic(auto, unfolding(crate::specs::Text::label))]
pub(crate) fn push_label<A: Allocator>(
    out: &mut Vec<u8, A>,
    before: &str,
    text: &str,
) -> Result<(), AllocError>
    ensures { OnOk result (out.new.items ≡ out.old.items ++ specs.label before.now text.now) }
{
    push_text(out, before)?;
    push_escaped(out, text)
}

/// Appends a whole number in decimal digits.
pub(crate) fn push_number<A: Allocator>(out: &mut Vec<u8, A>, value: u64) -> Result<(), AllocError>
    ensures { OnOk result (out.new.items ≡ out.old.items ++ decimal value) }
{
    let mut buffer = Buffer::new();
    push_text(out, buffer.format(value))
}
