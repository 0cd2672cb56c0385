//! The examples of each command in the help of the programs.

use nfs_tool::Command;
use nfsc_options::COMMANDS;
use std::alloc::{AllocError, Global};
use std::test::Fail;

/// Whether the words of a text, split at spaces, are a command.
fn is_command(alloc: Global, text: &str) -> Result<bool, AllocError> {
    let words: Vec<&[u8]> = text.split(' ').map(|word| word.as_bytes()).collect(alloc)?;
    Ok(Command::read(words.as_slice()).is_some())
}

/// The example at the end of a line of a command, after at least two spaces.
fn example(line: &str) -> Option<&str> {
    let (_, found) = line.strip_prefix("    ")?.rsplit_once("  ")?;
    Some(found.trim_start())
}

/// How many lines of the table have an example that is a command.
fn examples(alloc: Global) -> Result<usize, AllocError> {
    let mut count: usize = 0;
    for line in COMMANDS.lines() {
        if let Some(found) = example(line)
            && is_command(alloc, found)?
        {
            count = count.saturating_add(1);
        }
    }
    Ok(count)
}

/// The example of each of the fifteen commands is a command.
#[test]
fn examples_are_commands(rt: HostRuntime) -> Result<(), Fail> {
    let count = examples(rt.alloc())?;
    assert!(rt; count == 15);
    Ok(())
}
