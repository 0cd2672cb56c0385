//! The options of a command line of `nfslab`.
ghost use Rattle.std.specs.Prelude.{IfOk, map};
ghost use Rattle.clap.specs.Words.{FailsBy, fault_of};
ghost use Rattle.nfsc_options.specs.Simple.{nfslab};
ghost use Rattle.nfsc_options.specs.Given.{LabOptionsOf};

use crate::lab_command::lab_command;
use clap::Error;
use std::alloc::Global;
use std::convert::AsStr;

/// The options of a command line of `nfslab`.
#[derive(Clone, Copy, PartialEq, Eq)]
pub struct LabOptions<'a> {
    /// The file of the book.
    pub book: Option<&'a str>,
}

impl<'a> LabOptions<'a> {
    /// Reads the words of a command line. The first one is the program's name, as in `env::args`.
    ///
    /// An error is `clap`'s own: a fault in the words, a call for help, or an allocation that fails.
    /// Its `Display` is the text for the user.
    pub fn read<S: AsStr>(alloc: Global, words: &'a [S]) -> Result<LabOptions<'a>, Error>
        ensures options_are { IfOk result (LabOptionsOf (map S.text words.entry.now)) }
        ensures refused { FailsBy (fault_of nfslab (map S.text words.entry.now)) result }
    {
        let matches = lab_command(alloc)?.try_get_matches_from(words)?;
        Ok(LabOptions {
            book: matches.get_str("book"),
        })
    }
}
