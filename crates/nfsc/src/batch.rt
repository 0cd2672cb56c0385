//! `batch`: commands from standard input, in one session.
use crate::about::About;
use crate::around::Around;
use crate::calling::Session;
use crate::fault::Fault;
use crate::helping::{Help, Usages, report_time};
use crate::lasting::Stay;
use crate::printing::{Place, print_answer};
use crate::quoting::words_in;
use crate::wish::{Wish, wrong_time};
use nfs_client::ToolFault;
use nfsc_options::Options;
use std::alloc::Global;
use std::cell::Cell;
use std::io::{BufRead, Write};
use std::net::{Net, TcpStream};
use std::random::RandomSource;
use std::rt::{Clock, Files};
use std::{io, str};

/// The outcome of a line.
#[derive(Clone, Copy)]
enum Fate {
    /// It was answered, or needed no answer.
    Answered,
    Failed,
    /// It failed, and every later line would fail too.
    Over,
}

/// Whether no later command of a session can run after this fault.
fn is_last(fault: Fault) -> bool {
    match fault {
        Fault::Late(_) => true,
        Fault::Tool(fault) => matches!(
            fault,
            ToolFault::Read | ToolFault::Write | ToolFault::Reply | ToolFault::Failed
        ),
        _ => false,
    }
}

/// A batch, whose lines run in one session.
#[derive(Drop)]
struct Batch<'a, 'b, R> {
    rt: &'a R,
    alloc: Global,
    options: &'a Options<'b>,
    around: &'a Around,
    session: Session<'a, R>,
}

impl<R: Net<Stream = TcpStream> + Clock + RandomSource + Files + Input + Print + Eprint> Batch<
    '_,
    '_,
    R,
> {
    /// Reports a fault of a line that sends nothing to the server.
    fn refuse(&self, place: Place, fault: Fault) -> io::Result<Fate> {
        print_answer(self.rt, place, self.options, About::nothing(), Err(fault))?;
        Ok(Fate::Failed)
    }

    /// Runs a command.
    fn act(&mut self, place: Place, wish: Wish<'_>) -> io::Result<Fate> {
        if wish.takes_input() {
            return self.refuse(place, Fault::Input);
        }
        let about = About::of(&wish);
        let outcome = self
            .session
            .run(self.rt, self.alloc, self.around, place, wish);
        let fate = match &outcome {
            Ok(_) => Fate::Answered,
            Err(fault) if is_last(*fault) => Fate::Over,
            Err(_) => Fate::Failed,
        };
        print_answer(self.rt, place, self.options, about, outcome)?;
        Ok(fate)
    }

    /// Runs the command of these words.
    fn run(&mut self, place: Place, words: &[String]) -> io::Result<Fate> {
        let printed: Vec<&str> = words.iter().map(|word| word.as_str()).collect(self.alloc)?;
        let bytes: Vec<&[u8]> = words
            .iter()
            .map(|word| word.as_bytes())
            .collect(self.alloc)?;
        if let Some(help) = Help::read(printed.as_slice()) {
            help.print(self.rt)?;
            return Ok(Fate::Answered);
        }
        if let ["batch"] = printed.as_slice() {
            return self.refuse(place, Fault::Nested);
        }
        match Wish::read(printed.as_slice(), bytes.as_slice()) {
            Some(wish) => self.act(place, wish),
            None => {
                if let Some(word) = wrong_time(printed.as_slice()) {
                    report_time(self.rt, place, word)?;
                    return Ok(Fate::Failed);
                }
                let name = printed.first().copied().unwrap_or("");
                Usages::of(name).report(self.rt, place, name)?;
                Ok(Fate::Failed)
            }
        }
    }

    /// Runs a line. A line without words, or one that begins with `#`, is skipped.
    fn line(&mut self, place: Place, bytes: &[u8]) -> io::Result<Fate> {
        let Ok(line) = str::from_utf8(bytes) else {
            return self.refuse(place, Fault::Text);
        };
        if line.starts_with('#') {
            return Ok(Fate::Answered);
        }
        match words_in(self.alloc, line)? {
            Some(words) if words.is_empty() => Ok(Fate::Answered),
            Some(words) => self.run(place, words.as_slice()),
            None => self.refuse(place, Fault::Quote),
        }
    }

    /// Runs the lines of standard input, as each is read. Returns whether all were answered.
    fn lines(&mut self) -> io::Result<bool> {
        let mut reader = self.rt.reader();
        let mut is_well = true;
        for number in 1..u64::MAX {
            let mut bytes = Vec::new(self.alloc);
            let place = Place::Line(number);
            match reader.read_until(b'\n', &mut bytes) {
                Ok(0) => return Ok(is_well),
                Ok(_) => {}
                Err(_) => {
                    self.refuse(place, Fault::Unread)?;
                    return Ok(false);
                }
            }
            let line = bytes.strip_suffix(b"\n").unwrap_or(bytes.as_slice());
            match self.line(place, line)? {
                Fate::Answered => {}
                Fate::Failed => is_well = false,
                Fate::Over => return Ok(false),
            }
        }
        Ok(is_well)
    }
}

/// Runs the commands of standard input in one session. If the server grants a persistent session,
/// the batch continues after a restart of the server. Returns whether all were answered.
pub(crate) fn run<
    'a,
    R: Net<Stream = TcpStream> + Clock + RandomSource + Files + Input + Print + Eprint,
>(
    rt: &'a R,
    alloc: Global,
    options: &'a Options<'_>,
    groups: &'a [u32],
    around: &'a Around,
) -> io::Result<bool> {
    let is_late = Cell::new(false);
    match Session::open(rt, alloc, options, groups, &is_late, Stay::Asked) {
        Ok(session) => {
            let mut batch = Batch {
                rt,
                alloc,
                options,
                around,
                session,
            };
            let outcome = batch.lines();
            batch.session.end();
            outcome
        }
        Err(fault) => print_answer(rt, Place::Call, options, About::nothing(), Err(fault)),
    }
}
