//! The text exposition format of Prometheus, version 0.0.4, read strictly: each metric has its help, its type and its
//! samples in one group, in this order, each name and label is allowed, and the last line ends with a newline.
use std::alloc::{AllocError, Global};
use std::collections::BTreeSet;

/// Whether a text is a name: letters, digits, `_` and, in names of metrics, `:`; no digit is first.
fn is_name(text: &str, colons: bool) -> bool {
    let is_start = |byte: u8| byte.is_ascii_alphabetic()
        || byte == b'_'
        || (colons && byte == b':');
    match text.as_bytes() {
        [first, rest @ ..] => {
            is_start(*first)
                && rest
                    .iter()
                    .all(|byte| is_start(*byte) || byte.is_ascii_digit())
        }
        [] => false,
    }
}

/// What follows the value of a label, whose opening quote was read. `None`: an escape is unknown, or there is no end.
fn after_value(text: &str) -> Option<&str> {
    let mut is_escape = false;
    for (index, byte) in text.as_bytes().iter().enumerate() {
        match byte {
            b'\\' | b'"' | b'n' if is_escape => is_escape = false,
            _ if is_escape => return None,
            b'\\' => is_escape = true,
            b'"' => return text.get(index + 1..),
            _ => {}
        }
    }
    None
}

/// What follows the labels, whose opening brace was read. `None`: they aren't labels.
fn after_labels(text: &str) -> Option<&str> {
    let mut rest = text;
    for _label in 0..16u32 {
        let (name, value) = rest.split_once("=\"")?;
        if !is_name(name, false) {
            return None;
        }
        rest = after_value(value)?;
        match rest.strip_prefix(',') {
            Some(next) => rest = next,
            None => return rest.strip_prefix('}'),
        }
    }
    None
}

/// The name of a sample. `None`: the line is no sample with a number.
fn sample_name(line: &str) -> Option<&str> {
    let (series, value) = line.rsplit_once(' ')?;
    let is_number = value.parse::<f64>().is_ok();
    let (name, is_whole) = match series.split_once('{') {
        Some((name, labels)) => (name, after_labels(labels)? == ""),
        None => (series, true),
    };
    if is_number && is_whole && is_name(name, true) {
        Some(name)
    } else {
        None
    }
}

/// The name of a line of help.
fn help_name(line: &str) -> Option<&str> {
    let (name, help) = line.strip_prefix("# HELP ")?.split_once(' ')?;
    if is_name(name, true) && !help.contains('\\') {
        Some(name)
    } else {
        None
    }
}

/// The name of a line of a type. A counter's ends in `_total`, and no other's does.
fn type_name(line: &str) -> Option<&str> {
    let (name, kind) = line.strip_prefix("# TYPE ")?.split_once(' ')?;
    match kind {
        "counter" if name.ends_with("_total") => Some(name),
        "gauge" if !name.ends_with("_total") => Some(name),
        _ => None,
    }
}

/// Whether the lines are the groups of metrics. Each has a name that no other has.
fn are_groups(alloc: Global, text: &str) -> Result<bool, AllocError> {
    let mut seen = BTreeSet::new(alloc);
    let (mut helped, mut typed) = ("", "");
    for line in text.lines() {
        if line.starts_with("# HELP ") {
            helped = help_name(line).unwrap_or("");
            if helped == "" || seen.contains(helped) {
                return Ok(false);
            }
            seen.insert(helped)?;
        } else if line.starts_with("# TYPE ") {
            typed = type_name(line).unwrap_or("");
            if typed == "" || typed != helped {
                return Ok(false);
            }
        } else if sample_name(line) != Some(typed) || typed != helped {
            return Ok(false);
        }
    }
    Ok(true)
}

/// Whether a text is in the format.
pub(crate) fn is_exposition(alloc: Global, text: &str) -> Result<bool, AllocError> {
    Ok(text.ends_with('\n') && are_groups(alloc, text)?)
}
