//! The file in which the trail is kept.
use crate::book_file::id_of;
use crate::book_rule::FileId;
use crate::clock::{second, steady_second};
use crate::home::FILE_MODE;
use crate::trail_sync::Syncing;
use access_guard::Guard;
use nfsd_options::Options;
use std::fmt::{Display, Formatter};
use std::fs::{OpenFile, OpenOptions};
use std::io::{Read, Seek, SeekFrom, Write};
use std::os::unix::fs::{MetadataExt, OpenOptionsExt};
use std::rt::{Clock, Files};
use std::{fmt, fs, io};
use store_folder::{Bounded, Part, file_limit};
use trail_keeper::{TrailKeeper, moment_text};

/// Why the trail can't be kept in a file. The text follows the file's path.
#[derive(Drop)]
pub(crate) enum TrailFault {
    /// It is the file of the book.
    Book,
    /// It is a file of the store.
    Store,
    /// The system doesn't open it, for this reason.
    Unopened(io::Error),
    /// The system doesn't write it, for this reason. `None`: it reported no reason.
    Unwritten(Option<io::Error>),
    /// The system doesn't sync it, for this reason.
    Unsynced(io::Error),
}

impl Display for TrailFault {
    fn fmt<W: fmt::Write>(&self, f: &mut Formatter<W>) -> fmt::Result {
        match self {
            TrailFault::Book => f.write_str(": it is the file of the book"),
            TrailFault::Store => f.write_str(": it is a file of the store"),
            TrailFault::Unopened(error) => write!(f, ": it can't be opened: {error}"),
            TrailFault::Unwritten(Some(error)) => write!(f, ": it can't be written: {error}"),
            TrailFault::Unwritten(None) => f.write_str(": it can't be written"),
            TrailFault::Unsynced(error) => write!(f, ": it can't be synced: {error}"),
        }
    }
}

/// A writer, and the reason of its last write that failed.
#[derive(Drop)]
struct Watched<W> {
    out: W,
    failure: Option<io::Error>,
}

impl<W: Write> Write for Watched<W> {
    ghost contents = { λ b. W.contents b.out };

    fn write(&mut self, buf: &[u8]) -> io::Result<usize> {
        match self.out.write(buf) {
            Ok(count) => Ok(count),
            Err(error) => {
                let kind = error.kind();
                self.failure = Some(error);
                Err(kind.into())
            }
        }
    }

    fn flush(&mut self) -> io::Result<()> {
        self.out.flush()
    }
}

/// The file that a name refers to, opened to append to, with its number, and how it is synced.
#[derive(Drop)]
struct Opened<F> {
    file: Watched<Bounded<F>>,
    id: FileId,
    syncing: Syncing<F>,
}

/// The file in which the trail is kept, and each file that its name refers to later.
#[derive(Drop)]
pub(crate) struct TrailFile<'a, R: Files> {
    rt: &'a R,
    path: &'a str,
    /// The name of the book's file, which the trail can't be kept in.
    book: Option<&'a str>,
    /// Each line begins with its time.
    is_stamped: bool,
    /// It is the trail of a home: it is synced, and a file that is made is only for its owner.
    is_of_home: bool,
    /// The file that is written.
    id: FileId,
    keeper: TrailKeeper<Watched<Bounded<R::File>>>,
    syncing: Syncing<R::File>,
    /// Why the file that the name refers to now can't be opened.
    fault: Option<TrailFault>,
}

/// The last byte of a file. `None`: the file is empty or isn't regular. A byte that can't be read counts as one that
/// isn't a newline.
fn last_byte<R: Files>(rt: &R, path: &str) -> Option<u8> {
    let answer = fs::metadata(rt, path).ok()?;
    if !answer.is_file() || answer.len() == 0 {
        return None;
    }
    Some(read_last(rt, path).unwrap_or(0))
}

/// The last byte of a file that isn't empty.
fn read_last<R: Files>(rt: &R, path: &str) -> io::Result<u8> {
    let mut file = fs::open(rt, path)?;
    file.seek(SeekFrom::End(-1))?;
    let mut byte = [0u8; 1];
    file.read_exact(&mut byte)?;
    Ok(byte[0])
}

/// Whether a name refers to this file.
fn is_at<R: Files>(rt: &R, path: &str, id: &FileId) -> bool {
    match fs::metadata(rt, path) {
        Ok(answer) => id_of(&answer).is(id),
        Err(_) => false,
    }
}

/// Whether two names refer to one file.
fn is_same_file<R: Files>(rt: &R, path: &str, other: &str) -> bool {
    match fs::metadata(rt, other) {
        Ok(answer) => is_at(rt, path, &id_of(&answer)),
        Err(_) => false,
    }
}

/// Whether a name refers to a file of the store in a folder.
fn is_of_store<R: Files + Alloc>(rt: &R, path: &str, folder: &str) -> bool {
    for part in [
        Part::Lock,
        Part::Current,
        Part::Fresh,
        Part::Spare,
        Part::A,
        Part::B,
    ] {
        match format!(in rt.alloc(); "{folder}{part}") {
            Ok(name) if !is_same_file(rt, path, name.as_str()) => {}
            _ => return true,
        }
    }
    false
}

/// Opens a file to append to. It is made if it is missing; the file of a home is made only for its owner.
fn open_to_append<R: Files>(rt: &R, path: &str, is_of_home: bool) -> io::Result<R::File> {
    let mut how = OpenOptions::new();
    how.append(true).create(true);
    if is_of_home {
        how.mode(FILE_MODE);
    }
    how.open(rt, path)
}

/// Opens a file to append to, with a second handle by which a regular file of a home is synced.
fn open_at<R: Files + Alloc>(rt: &R, path: &str, is_of_home: bool) -> io::Result<Opened<R::File>> {
    let file = open_to_append(rt, path, is_of_home)?;
    let answer = file.metadata()?;
    let room = if answer.is_file() {
        file_limit(rt).saturating_sub(answer.len())
    } else {
        u64::MAX
    };
    let synced = if is_of_home && answer.is_file() {
        Some(file.try_clone()?)
    } else {
        None
    };
    Ok(Opened {
        syncing: Syncing::new(synced),
        file: Watched {
            out: Bounded::new(file, room),
            failure: None,
        },
        id: id_of(&answer),
    })
}

/// Opens the file of a trail, unless it is the file of the book.
fn open_trail<R: Files + Alloc>(
    rt: &R,
    path: &str,
    book: Option<&str>,
    is_of_home: bool,
) -> Result<Opened<R::File>, TrailFault> {
    match (open_at(rt, path, is_of_home), book) {
        (Ok(opened), Some(book)) if is_at(rt, book, &opened.id) => Err(TrailFault::Book),
        (Ok(opened), _) => Ok(opened),
        (Err(_), Some(book)) if is_same_file(rt, book, path) => Err(TrailFault::Book),
        (Err(error), _) => Err(TrailFault::Unopened(error)),
    }
}

impl<R: Files> TrailFile<'_, R> {
    /// Whether the trail can't be kept any more.
    pub(crate) fn has_fault(&self) -> bool {
        self.fault.is_some()
    }

    /// Whether a line isn't synced.
    pub(crate) fn is_due(&self) -> bool {
        self.syncing.is_due()
    }

    /// Syncs the lines that aren't synced. `false`: they can't be synced.
    pub(crate) fn sync(&mut self) -> bool {
        match self.syncing.sync() {
            Ok(()) => true,
            Err(error) => {
                self.fault = Some(TrailFault::Unsynced(error));
                false
            }
        }
    }

    /// Why the trail can't be kept any more.
    pub(crate) fn into_fault(self) -> TrailFault {
        let TrailFile { keeper, fault, .. } = self;
        match fault {
            Some(fault) => fault,
            None => TrailFault::Unwritten(keeper.into_inner().failure),
        }
    }
}

impl<'a, R: Files + Alloc + Clock> TrailFile<'a, R> {
    /// Opens the file, ends its last line, and writes the line of a start if lines have their times. A file of the
    /// book or of the store is refused. In a home the file is made only for its owner.
    pub(crate) fn start(
        rt: &'a R,
        path: &'a str,
        options: &Options<'a>,
    ) -> Result<Self, TrailFault> {
        if options
            .store
            .is_some_and(|folder| is_of_store(rt, path, folder))
        {
            return Err(TrailFault::Store);
        }
        let is_of_home = options.home.is_some();
        let Opened { file, id, syncing } = open_trail(rt, path, options.book, is_of_home)?;
        let mut trail = TrailFile {
            rt,
            path,
            book: options.book,
            is_stamped: options.stamped,
            is_of_home,
            id,
            keeper: TrailKeeper::new(file),
            syncing,
            fault: None,
        };
        if trail.begin() {
            Ok(trail)
        } else {
            Err(trail.into_fault())
        }
    }

    /// Ends the file's last line, and writes the line of a start if lines have their times.
    fn begin(&mut self) -> bool {
        if !self.keeper.end_line(last_byte(self.rt, self.path)) {
            return false;
        }
        if !self.is_stamped {
            return true;
        }
        self.syncing.note(steady_second(self.rt));
        self.keeper.start(&moment_text(second(self.rt)))
    }

    /// Appends the lines that aren't appended yet. If the name refers to another file than before, they go to that
    /// file. `false`: they can't be appended.
    pub(crate) fn keep(&mut self, guard: &Guard) -> bool {
        if !self.keeper.has_new(guard) {
            return self.keeper.keep(guard);
        }
        if !self.follow() {
            return false;
        }
        self.syncing.note(steady_second(self.rt));
        if self.is_stamped {
            self.keeper.keep_after(guard, &moment_text(second(self.rt)))
        } else {
            self.keeper.keep(guard)
        }
    }

    /// Continues with the file that the name refers to.
    fn follow(&mut self) -> bool {
        is_at(self.rt, self.path, &self.id) || self.open_anew()
    }

    /// Opens the file that the name refers to now, and continues with it.
    fn open_anew(&mut self) -> bool {
        match open_trail(self.rt, self.path, self.book, self.is_of_home) {
            Ok(opened) => self.go_on(opened),
            Err(fault) => {
                self.fault = Some(fault);
                false
            }
        }
    }

    /// Syncs the lines that are of an earlier second. `false`: they can't be synced.
    pub(crate) fn sync_old(&mut self) -> bool {
        !self.syncing.is_old(steady_second(self.rt)) || self.sync()
    }

    /// Continues with this file, whose last line is ended. The lines of the file before are synced.
    fn go_on(&mut self, opened: Opened<R::File>) -> bool {
        if !self.sync() {
            return false;
        }
        let Opened { file, id, syncing } = opened;
        self.keeper.replace(file);
        self.syncing = syncing;
        self.id = id;
        self.keeper.end_line(last_byte(self.rt, self.path))
    }
}
