//! A fault prevents `nfslab` from running a script to its end, and is printed in two lines on
//! standard error.
use nfs_hub::HubFault;
use nfs_tool::ToolFault;
use nfsc_options::LabOptions;
use std::fmt;
use std::fmt::{Display, Formatter};
use who_book::BookFault;

/// A fault that prevents `nfslab` from running a script to its end. Faults are tested in this
/// order. A reason is missing if its allocation failed.
#[derive(Drop)]
pub(crate) enum Fault {
    /// The book's file can't be read, or isn't UTF-8, for this reason.
    File(Option<String>),
    /// The book has this fault, for this reason.
    Book(BookFault, Option<String>),
    /// The allocation of the hub fails.
    Hub,
    /// The script can't be read, or its answers can't be written.
    Failed(ToolFault),
}

impl Display for Fault {
    fn fmt<W: fmt::Write>(&self, f: &mut Formatter<W>) -> fmt::Result {
        match self {
            Fault::File(_) => f.write_str("file"),
            Fault::Book(fault, _) => write!(f, "book {}", *fault as u8),
            Fault::Hub => write!(f, "hub {}", HubFault::Memory as u8),
            Fault::Failed(fault) => write!(f, "failed {}", fault.number()),
        }
    }
}

/// Prints why a script wasn't run to its end.
fn report_failed<R: Eprint>(rt: &R, fault: ToolFault) {
    let _ = match fault {
        ToolFault::Read => eprintln!(rt; "standard input: it can't be read"),
        ToolFault::Write => eprintln!(rt; "standard output: it can't be written"),
        other => eprintln!(rt; "standard input: {other}"),
    };
}

/// Prints a fault in two lines on standard error. A failure to print isn't reported.
pub(crate) fn report<R: Eprint>(rt: &R, options: &LabOptions<'_>, fault: &Fault) {
    let _ = eprintln!(rt; "nfslab: {fault}");
    match fault {
        Fault::File(Some(why)) | Fault::Book(_, Some(why)) => {
            if let Some(path) = options.book {
                let _ = eprintln!(rt; "{path}: {why}");
            }
        }
        Fault::File(None) | Fault::Book(_, None) | Fault::Hub => {
            let _ = eprintln!(rt; "there is no memory for it");
        }
        Fault::Failed(fault) => report_failed(rt, *fault),
    }
}
