//! How a line of the file is handled.
ghost use Rattle.nfstrail.specs.Fates.{IsFate};

use crate::choice::Choice;
use crate::notice::Stamped;
use crate::reading::read_line;

/// How a line of the file that has its newline is handled.
#[derive(Clone, Copy, PartialEq, Eq)]
pub(crate) enum Fate {
    /// It is no line of a trail's file, and is printed whatever options are given.
    Unread,
    /// It doesn't match the options.
    LeftOut(Stamped),
    /// It matches the options.
    Chosen(Stamped),
}

/// How a line is handled, without its newline. It is left out only if its own content doesn't match.
pub(crate) fn fate_of(choice: &Choice, text: &[u8]) -> Fate
    ensures { IsFate choice.now text.now result }
{
    match read_line(text) {
        Some(stamped) if choice.takes(&stamped) => Fate::Chosen(stamped),
        Some(stamped) => Fate::LeftOut(stamped),
        None => Fate::Unread,
    }
}
