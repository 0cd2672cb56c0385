//! Printing an answer or a fault, with the line of a batch that it belongs to.
use crate::about::{About, Form, Refusing};
use crate::calling::server_of;
use crate::fault::{Fault, is_denied};
use nfs_client::{Answer, ToolFault};
use nfs_types::Status;
use nfsc_options::Options;
use std::fmt::{Display, Formatter};
use std::io::Write;
use std::{fmt, io};

/// The line of a batch that a report belongs to, counted from 1, or a call of one command.
#[derive(Clone, Copy)]
pub(crate) enum Place {
    Call,
    Line(u64),
}

impl Display for Place {
    fn fmt<W: fmt::Write>(&self, f: &mut Formatter<W>) -> fmt::Result {
        match self {
            Place::Call => Ok(()),
            Place::Line(number) => write!(f, "line {number}: "),
        }
    }
}

/// The sentence on a server that takes no times.
const NO_TIMES: &str = "the server's profile keeps no times that are set";

/// A sentence on a mode or an access control entry (ACE) that can't be read.
fn sentence_on(form: Form) -> &'static str {
    match form {
        Form::Mode => "a mode is one to four octal digits, as in 0640",
        Form::Entry => "an entry is TYPE:FLAGS:MASK:WHO, as in A:00:00000001:1001",
        Form::Times | Form::Other => Fault::Tool(ToolFault::Entry).sentence(),
    }
}

/// Explains what was wrong, and what would help.
fn explain<R: Eprint>(
    rt: &R,
    place: Place,
    options: &Options<'_>,
    about: About<'_>,
    fault: Fault,
) -> io::Result<()> {
    match fault {
        Fault::Late(_) | Fault::LateSocket => {
            let (server, seconds) = (server_of(options), options.timeout);
            eprintln!(rt; "nfsc: {place}no answer from {server} in {seconds} seconds")
        }
        Fault::Socket => {
            let server = server_of(options);
            eprintln!(rt; "nfsc: {place}nothing listens at {server}, or it takes no connection")
        }
        Fault::Tool(ToolFault::Entry) => {
            eprintln!(rt; "nfsc: {place}{}", sentence_on(about.form))
        }
        Fault::Tool(ToolFault::Refused(op, status)) if is_denied(status) => {
            let refusing = Refusing { about, op };
            eprintln!(rt; "nfsc: {place}{refusing}{}", fault.sentence())
        }
        Fault::Tool(ToolFault::Refused(_, Status::AttrNotSupp)) if about.form == Form::Times => {
            eprintln!(rt; "nfsc: {place}{NO_TIMES}")
        }
        fault => eprintln!(rt; "nfsc: {place}{}", fault.sentence()),
    }
}

/// Prints a fault of a command in place of its answer.
fn print_in_place<R: Print>(rt: &R, place: Place, fault: ToolFault) -> io::Result<()> {
    let text = fault.text();
    let mut out = io::writer(rt);
    write!(out, "{place}")?;
    out.write_all(text.as_bytes())?;
    out.write_all(b"\n")
}

/// Prints a fault: one of the command in place of its answer, and any other on standard error.
fn print_fault<R: Print + Eprint>(rt: &R, place: Place, fault: Fault) -> io::Result<()> {
    match fault {
        Fault::Tool(fault) | Fault::Late(fault) => print_in_place(rt, place, fault),
        fault => eprintln!(rt; "nfsc: {place}{fault}"),
    }
}

/// Prints the answer to a command, or its fault with a sentence on standard error. Returns whether
/// it was an answer.
pub(crate) fn print_answer<R: Print + Eprint>(
    rt: &R,
    place: Place,
    options: &Options<'_>,
    about: About<'_>,
    outcome: Result<Answer, Fault>,
) -> io::Result<bool> {
    match outcome {
        Ok(answer) => {
            io::writer(rt).write_all(answer.as_bytes())?;
            Ok(true)
        }
        Err(fault) => {
            explain(rt, place, options, about, fault)?;
            print_fault(rt, place, fault)?;
            Ok(false)
        }
    }
}
