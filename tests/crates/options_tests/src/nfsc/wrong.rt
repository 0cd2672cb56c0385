//! The answers to words that aren't a command.
use clap::error::ErrorKind;
use nfsc_options::wrong_command;
use std::alloc::Global;
use std::test::Fail;

/// The commands by their names, with the words of each.
static USAGES: [(&str, &str); 15] = [
    ("ls", "ls P"),
    ("cat", "cat P"),
    ("put", "put P TEXT"),
    ("mkdir", "mkdir P"),
    ("ln", "ln OLD NEW"),
    ("mv", "mv OLD NEW"),
    ("rm", "rm P"),
    ("chmod", "chmod OCTAL P"),
    ("getacl", "getacl P"),
    ("setacl", "setacl P ENTRY.."),
    ("getdacl", "getdacl P"),
    ("setdacl", "setdacl P ENTRY.."),
    ("getsacl", "getsacl P"),
    ("setsacl", "setsacl P ENTRY.."),
    ("access", "access P"),
];

/// Words that name no command.
static NO_NAMES: [&str; 7] = ["", "copy", "l", "lss", "LS", "P", "An"];

fn usages() -> &'static [(&'static str, &'static str)] {
    &USAGES
}

fn no_names() -> &'static [&'static str] {
    &NO_NAMES
}

/// Whether the error for words that begin with this name has this text and the usage of `nfsc`.
fn reports(alloc: Global, name: &str, text: &str) -> Result<bool, Fail> {
    let error = wrong_command(alloc, name)?;
    let printed = error.to_string(alloc)?;
    Ok(
        error.kind() == ErrorKind::InvalidSubcommand
            && printed.contains(text)
            && printed.contains(
                "Usage: nfsc [OPTIONS] --port <N> --uid <N> --gid <N> <COMMAND>...\n",
            ),
    )
}

#[test]
fn a_command_reports_which_words_it_wants(rt: HostRuntime) -> Result<(), Fail> {
    for row in usages() {
        let (name, usage) = *row;
        let text = format!(in rt.alloc(); "the command '{name}' wants these words: {usage}\n")?;
        let printed = reports(rt.alloc(), name, text.as_str())?;
        assert!(rt; printed, "{name}");
    }
    Ok(())
}

#[test]
fn a_name_of_no_command_is_reported(rt: HostRuntime) -> Result<(), Fail> {
    for name in no_names() {
        let text = format!(in rt.alloc(); "there is no command '{name}'\n")?;
        let printed = reports(rt.alloc(), name, text.as_str())?;
        assert!(rt; printed, "{name}");
    }
    Ok(())
}
