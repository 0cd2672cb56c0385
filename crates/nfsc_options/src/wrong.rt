//! The error of words that aren't a command.
ghost use Rattle.std.specs.Prelude.{◌≡◌, IfOk};
ghost use Rattle.clap.specs.Values.{kind_of};
ghost use Rattle.clap.specs.declared.error.kind.ErrorKind.TheVariants as kind;

use crate::command::command;
use crate::commands::usage_of;
use clap::Error;
use clap::error::ErrorKind;
use std::alloc::{AllocError, Global};

/// `clap`'s error for words that aren't a command. Its text has the words of the command with this
/// name, or states that no command has this name.
pub fn wrong_command(alloc: Global, name: &str) -> Result<Error, AllocError>
    ensures { IfOk result (λ e. kind_of e ≡ kind.InvalidSubcommand) }
{
    let message = match usage_of(name) {
        Some(usage) => format!(in alloc; "the command '{name}' wants these words: {usage}")?,
        None => format!(in alloc; "there is no command '{name}'")?,
    };
    command(alloc)?.error(ErrorKind::InvalidSubcommand, message.as_str())
}
