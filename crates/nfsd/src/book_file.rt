//! The file of the book, which is read again after it has changed.
use crate::book_rule::{
    Change, FileId, FileTime, Plan, Stamp, Start, has_members, may_follow, plan_for,
};
use crate::clock::second;
use crate::home::Home;
use crate::words::report_no_book;
use crate::{Fault, slips};
use std::alloc::Global;
use std::fs::{Metadata, OpenFile};
use std::io::ErrorKind;
use std::os::unix::fs::MetadataExt;
use std::rt::{Clock, Files};
use std::{fs, io};
use who_book::Book;

/// A file that is kept open, and its stamp when it was opened. Until it is closed the system gives its number to no
/// other file, whatever happens to its name.
#[derive(Drop)]
struct Held<F> {
    file: F,
    stamp: Stamp,
}

/// The object that a name refers to.
#[derive(Drop)]
enum Found {
    /// There is none.
    Nothing,
    /// A regular file with this stamp.
    File(Stamp),
    /// It isn't a regular file, or the system doesn't report its attributes.
    Other,
}

/// The file of the book, if there is one.
#[derive(Drop)]
pub(crate) struct BookFile<'a, R: Files> {
    rt: &'a R,
    alloc: Global,
    path: Option<&'a str>,
    /// The home that the file is in.
    home: Option<&'a Home<'a>>,
    /// The file that was read last, whether it had a book or not.
    last: Option<Held<R::File>>,
    /// It was reported that no regular file can be opened.
    is_missed: bool,
    /// The home has the note that there was a book.
    is_noted: bool,
    /// The book that is in use has `members`.
    has_members: bool,
}

/// The number of a file, with its device.
pub(crate) fn id_of(answer: &Metadata) -> FileId {
    FileId {
        device: answer.dev(),
        node: answer.ino(),
    }
}

/// The stamp of a regular file. `None`: it isn't one. Reading a pipe, for example, might never end.
fn stamp_of(answer: &Metadata) -> Option<Stamp> {
    if !answer.is_file() {
        return None;
    }
    Some(Stamp {
        id: id_of(answer),
        written: FileTime {
            seconds: answer.mtime(),
            nanoseconds: answer.mtime_nsec(),
        },
        changed: FileTime {
            seconds: answer.ctime(),
            nanoseconds: answer.ctime_nsec(),
        },
        len: answer.len(),
    })
}

/// Finds the object that a name refers to.
fn look(files: &impl Files, path: &str) -> Found {
    match fs::metadata(files, path) {
        Ok(answer) => match stamp_of(&answer) {
            Some(stamp) => Found::File(stamp),
            None => Found::Other,
        },
        Err(error) if error.kind() == ErrorKind::NotFound => Found::Nothing,
        Err(_) => Found::Other,
    }
}

/// Opens a regular file to read. `None`: it can't be opened, or isn't regular.
fn open_at<R: Files>(rt: &R, path: &str) -> Option<Held<R::File>> {
    let file = fs::open(rt, path).ok()?;
    let stamp = stamp_of(&file.metadata().ok()?)?;
    Some(Held { file, stamp })
}

/// Whether an open file is unchanged since it was opened.
fn is_as_opened<F: OpenFile>(held: &Held<F>) -> bool {
    match held.file.metadata() {
        Ok(answer) => stamp_of(&answer).is_some_and(|stamp| stamp.is(&held.stamp)),
        Err(_) => false,
    }
}

/// The book that was read, if it may follow the previous one.
fn follower(book: Result<Book, Fault>, change: Change, had_members: bool) -> Result<Book, Fault> {
    match book {
        Ok(book) if may_follow(change, had_members, has_members(&book)) => Ok(book),
        Ok(_) => Err(Fault::Members),
        Err(fault) => Err(fault),
    }
}

impl<'a, R: Files + Alloc + Eprint + Clock> BookFile<'a, R> {
    /// The file of this name, which isn't read yet, or no file. In a home the file may be missing.
    pub(crate) fn new(
        rt: &'a R,
        alloc: Global,
        path: Option<&'a str>,
        home: Option<&'a Home<'a>>,
    ) -> Self {
        BookFile {
            rt,
            alloc,
            path,
            home,
            last: None,
            is_missed: false,
            is_noted: false,
            has_members: false,
        }
    }

    /// The book of the file when the server starts. Without a file it is the book without names.
    pub(crate) fn read(&mut self) -> Result<Book, Fault> {
        let Some(path) = self.path else {
            return Ok(Book::default(self.alloc));
        };
        match self.home.map_or(Start::Read, |home| home.start(self.rt)) {
            Start::Read => self.read_first(path),
            Start::Await => Ok(Book::default(self.alloc)),
            Start::Refuse => Err(Fault::Missing),
        }
    }

    /// The book of the file, which is there.
    fn read_first(&mut self, path: &str) -> Result<Book, Fault> {
        let Found::File(_) = look(self.rt, path) else {
            return Err(Fault::File);
        };
        let Some(mut opened) = open_at(self.rt, path) else {
            return Err(Fault::File);
        };
        let book = self.read_from(path, &mut opened.file)?;
        self.last = Some(opened);
        self.note()?;
        self.has_members = has_members(&book);
        Ok(book)
    }

    /// The book of a regular file. Standard error gets a warning if the root's mode is most likely a mistake.
    fn read_from(&self, path: &str, file: &mut R::File) -> Result<Book, Fault> {
        let Ok(text) = io::read_to_string(self.alloc, file) else {
            return Err(Fault::File);
        };
        let book = Book::read(self.alloc, text.as_str()).map_err(Fault::Book)?;
        slips::report(self.rt, path, text.as_str(), book.root_mode());
        Ok(book)
    }

    /// Writes the note that the home has a book, if there is a home. A book doesn't count before that.
    fn note(&mut self) -> Result<(), Fault> {
        let Some(home) = self.home else {
            return Ok(());
        };
        if !self.is_noted {
            home.note_book(self.rt).map_err(Fault::Note)?;
            self.is_noted = true;
        }
        Ok(())
    }

    /// The book of the file, if the file has changed since its last read and its book may follow the previous one. If
    /// the file can't be read, has no book or may not follow, standard error gets a line, once for each change. A home
    /// that never had a book gets no line.
    pub(crate) fn changed(&mut self) -> Option<Book> {
        let path = self.path?;
        match look(self.rt, path) {
            Found::File(seen) => self.follow(path, &seen),
            Found::Nothing if self.last.is_none() => None,
            Found::Nothing | Found::Other => {
                self.miss(path);
                None
            }
        }
    }

    /// The plan for a file with this stamp.
    fn plan(&self, seen: &Stamp) -> Plan {
        let last = self.last.as_ref().map(|held| held.stamp);
        plan_for(&last, seen, second(self.rt))
    }

    /// The book of the file that the name refers to, if the plan is to read it. `seen` is the stamp that the name had.
    /// Another file may be there by now, so the plan is made again for the file that is opened.
    fn follow(&mut self, path: &str, seen: &Stamp) -> Option<Book> {
        if let Plan::Load(_) = self.plan(seen) {
            let Some(opened) = open_at(self.rt, path) else {
                self.miss(path);
                return None;
            };
            self.is_missed = false;
            return self.take(path, opened);
        }
        self.is_missed = false;
        None
    }

    /// The book of an open file, if the plan is to read it.
    fn take(&mut self, path: &str, opened: Held<R::File>) -> Option<Book> {
        match self.plan(&opened.stamp) {
            Plan::Load(change) => self.load(path, opened, change),
            Plan::Stay | Plan::Wait => None,
        }
    }

    /// Reads the book of an open file. A file that is written meanwhile has no book yet. From then on it counts as
    /// written in place.
    fn load(&mut self, path: &str, opened: Held<R::File>, change: Change) -> Option<Book> {
        let mut opened = opened;
        let book = self.read_from(path, &mut opened.file);
        let is_whole = is_as_opened(&opened);
        self.last = Some(opened);
        if !is_whole {
            return None;
        }
        match self.counted(book, change) {
            Ok(book) => {
                self.has_members = has_members(&book);
                Some(book)
            }
            Err(fault) => {
                self.refuse(path, &fault);
                None
            }
        }
    }

    /// The book that counts from now on, if it may follow the previous one.
    fn counted(&mut self, book: Result<Book, Fault>, change: Change) -> Result<Book, Fault> {
        let book = follower(book, change, self.has_members)?;
        self.note()?;
        Ok(book)
    }

    /// Reports that no regular file can be opened, once until one can be.
    fn miss(&mut self, path: &str) {
        if !self.is_missed {
            self.is_missed = true;
            self.refuse(path, &Fault::File);
        }
    }

    /// Reports why the previous book stays.
    fn refuse(&self, path: &str, fault: &Fault) {
        let rt = self.rt;
        let _ = eprintln!(rt; "nfsd: {fault}; the book before stays");
        report_no_book(rt, self.alloc, path, fault);
    }
}
