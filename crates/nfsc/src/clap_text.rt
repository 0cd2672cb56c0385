//! The reports of `clap` on the words, as `nfsc` prints them.
use std::alloc::{AllocError, Global};

/// The text that `clap` writes before each fault. The program's name is printed in its place.
const FAULT: &str = "error: ";

/// The tip that a word after `--` is a value. Here it would be the command.
const TIP: &str = "\n  tip: to pass '";

/// A text without that tip.
fn without_tip(alloc: Global, text: &str) -> Result<String, AllocError> {
    let Some((before, after)) = text.split_once(TIP) else {
        return String::from_str(alloc, text);
    };
    let rest = match after.split_once('\n') {
        Some((_, rest)) => rest,
        None => "",
    };
    let end = if before.ends_with('\n') { "" } else { "\n" };
    format!(in alloc; "{before}{end}{rest}")
}

/// The text of an invalid value of this option, with the variable that it is from. `None`: the text
/// isn't of this option.
fn with_variable(
    alloc: Global,
    text: &str,
    (option, variable): (&str, &str),
) -> Result<Option<String>, AllocError> {
    let of_option = format!(in alloc; "' for '{option} <")?;
    let Some((value, after)) = text.split_once(of_option.as_str()) else {
        return Ok(None);
    };
    let Some((name, why)) = after.split_once('\'') else {
        return Ok(None);
    };
    Ok(Some(format!(in alloc; "{value}{of_option}{name}' from {variable}{why}")?))
}

/// The text of a fault of these words, as it is printed: without the tip, and with the variable
/// that an invalid value is from. The rows are the options that are from variables.
fn fault_text(
    alloc: Global,
    fault: &str,
    sources: &[(&'static str, &'static str)],
) -> Result<String, AllocError> {
    let text = without_tip(alloc, fault)?;
    if text.starts_with("invalid value '") {
        for source in sources {
            if let Some(text) = with_variable(alloc, text.as_str(), *source)? {
                return Ok(text);
            }
        }
    }
    Ok(text)
}

/// Prints on standard error what `clap` reports of the words. A fault begins with the program's
/// name, and help is unchanged. The rows are the options that are from variables of the
/// environment, with the variable of each.
pub(crate) fn report<R: Eprint>(
    rt: &R,
    alloc: Global,
    text: &str,
    sources: &[(&'static str, &'static str)],
) -> anyhow::Result<()> {
    match text.strip_prefix(FAULT) {
        Some(fault) => {
            let text = fault_text(alloc, fault, sources)?;
            eprint!(rt; "nfsc: {text}")?;
        }
        None => eprint!(rt; "{text}")?,
    }
    Ok(())
}
