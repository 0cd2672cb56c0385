//! The values of an option that may be given more than once.
ghost use Rattle.std.specs.Prelude.{◌≡◌, IfOk};
ghost use Rattle.clap.specs.Values.{kind_of};
ghost use Rattle.clap.specs.declared.error.kind.ErrorKind.TheVariants as kind;
ghost use Rattle.nfsd_options.specs.Lists.{ReadsEach, texts_of};

use crate::command::command;
use clap::Error;
use clap::error::ErrorKind;
use std::alloc::{AllocError, Global};
use std::fmt::Display;
use std::str::FromStr;

/// The error of a text that is no value of an option.
pub(crate) fn wrong_value<E: Display>(
    alloc: Global,
    option: &str,
    text: &str,
    why: &E,
) -> Result<Error, AllocError>
    ensures { IfOk result (λ e. kind_of e ≡ kind.ValueValidation) }
{
    let message = format!(in alloc; "invalid value '{text}' for '{option}': {why}")?;
    command(alloc)?.error(ErrorKind::ValueValidation, message.as_str())
}

/// The values of an option, in the order of their texts. An error is that of the first text that is no value, or of a
/// failed allocation.
pub(crate) fn values<T: FromStr + Drop>(
    alloc: Global,
    option: &str,
    texts: Option<&[&str]>,
) -> Result<Vec<T>, Error>
where
    T::Err: Display + Drop,
    ensures { ReadsEach T.from_str_gives (texts_of texts.entry) result }
{
    let mut values = Vec::new(alloc);
    let Some(texts) = texts else {
        return Ok(values);
    };
    for text in texts {
        match text.parse::<T>() {
            Ok(value) => values.push(value)?,
            Err(error) => return Err(wrong_value(alloc, option, text, &error)?),
        }
    }
    Ok(values)
}
