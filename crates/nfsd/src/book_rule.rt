//! When the file of the book is read again, which book may follow the previous one, and when a home is served.
ghost use Rattle.std.specs.Prelude.{◌≡◌, is_some};
ghost use Rattle.nfsd.specs.Books.{is_fresh, is_near, is_one_file, is_one_time, is_unchanged, may_follow, plan, start};

use rpc_record::Caller;
use who_book::Book;

/// The identity of a file: its device, and its number there.
#[derive(Clone, Copy)]
pub(crate) struct FileId {
    pub(crate) device: u64,
    pub(crate) node: u64,
}

/// A time of a file, as the system keeps it, since the epoch.
#[derive(Clone, Copy)]
pub(crate) struct FileTime {
    pub(crate) seconds: i64,
    pub(crate) nanoseconds: i64,
}

/// The stamp of a file: its identity, the times of its last write and of its last change, and its length. A file whose
/// content has changed has another stamp, unless it was written twice in one tick of the system's clock and has its old
/// length.
#[derive(Clone, Copy)]
pub(crate) struct Stamp {
    pub(crate) id: FileId,
    /// The time of the last write. Each user with write access can set it.
    pub(crate) written: FileTime,
    /// The time of the last change of content, owner, mode, names or times. Nobody can set it. If the file system
    /// doesn't keep it, it is always the same.
    pub(crate) changed: FileTime,
    pub(crate) len: u64,
}

/// How the file of the book has changed since it was read last.
#[derive(Clone, Copy)]
pub(crate) enum Change {
    /// Another file was moved to its place.
    Moved,
    /// The file was written in place.
    Written,
}

/// The plan for the file of the book.
#[derive(Clone, Copy)]
pub(crate) enum Plan {
    /// It isn't read, since it is unchanged.
    Stay,
    /// It isn't read yet: it was written just now, and further writes may follow.
    Wait,
    /// It is read now.
    Load(Change),
}

/// How a start of a home treats its book.
#[derive(Clone, Copy)]
pub(crate) enum Start {
    /// It reads the book.
    Read,
    /// It serves without a book until there is one.
    Await,
    /// It doesn't serve.
    Refuse,
}

impl FileId {
    /// Whether both identities are of one file.
    pub(crate) fn is(&self, other: &FileId) -> bool
        ensures { result ≡ is_one_file self.now other.now }
    {
        self.device == other.device && self.node == other.node
    }
}

impl FileTime {
    /// Whether both times are the same.
    fn is(&self, other: &FileTime) -> bool
        ensures { result ≡ is_one_time self.now other.now }
    {
        self.seconds == other.seconds && self.nanoseconds == other.nanoseconds
    }

    /// Whether it is at most two seconds before or after `now`, in whole seconds.
    fn is_near(&self, now: i64) -> bool
        ensures { result ≡ is_near now self.now }
    {
        now.abs_diff(self.seconds) <= 2
    }
}

impl Stamp {
    /// Whether the file is unchanged since it had the other stamp.
    pub(crate) fn is(&self, other: &Stamp) -> bool
        ensures { result ≡ is_unchanged self.now other.now }
    {
        let same_times = self.written.is(&other.written) && self.changed.is(&other.changed);
        self.id.is(&other.id) && same_times && self.len == other.len
    }

    /// Whether the last write or the last change is at most two seconds before or after `now`.
    fn is_fresh(&self, now: i64) -> bool
        ensures { result ≡ is_fresh now self.now }
    {
        self.written.is_near(now) || self.changed.is_near(now)
    }
}

/// The plan, given the stamp of the file that was read last, the stamp of the file now, and the second of the clock.
/// Another file is read at once. A file that was written in place is read after its last write and its last change are
/// more than two seconds ago, since a prefix of a book can be a book.
///
/// A file with another number is another file. A file with the same number is the same file only if the file that was
/// read last is still open. Otherwise the system may have given its number to another file.
pub(crate) fn plan_for(last: &Option<Stamp>, seen: &Stamp, now: i64) -> Plan
    ensures { result ≡ plan last.now seen.now now }
{
    let Some(last) = last else {
        return Plan::Load(Change::Moved);
    };
    if last.is(seen) {
        Plan::Stay
    } else if !last.id.is(&seen.id) {
        Plan::Load(Change::Moved)
    } else if seen.is_fresh(now) {
        Plan::Wait
    } else {
        Plan::Load(Change::Written)
    }
}

/// Whether a book may follow the previous one. If the same file was written, a book without `members` doesn't follow
/// one that has them.
pub(crate) fn may_follow(change: Change, had_members: bool, has_members: bool) -> bool
    ensures { result ≡ may_follow change had_members has_members }
{
    match change {
        Change::Moved => true,
        Change::Written => !had_members || has_members,
    }
}

/// How a start of a home treats its book, given whether the book is there and whether the home had one before. Without
/// the `members` of a book each caller is in the groups that it claims. Therefore a home that had a book isn't served
/// without it.
pub(crate) fn start_for(is_there: bool, was_there: bool) -> Start
    ensures { result ≡ start is_there was_there }
{
    if is_there {
        Start::Read
    } else if was_there {
        Start::Refuse
    } else {
        Start::Await
    }
}

/// Whether a book has `members`. If it has, two callers of one user have the same groups although they claim different
/// ones.
pub(crate) fn has_members(book: &Book) -> bool
    ensures { result ≡ is_some book.now.members }
{
    let first = book.member(&Caller::new(0, 0, &[]));
    let second = book.member(&Caller::new(0, 1, &[]));
    first.groups() == second.groups()
}
