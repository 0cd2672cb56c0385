//! A session of its own with the server, and the commands that run in it.
use crate::around::Around;
use crate::deep::{Deep, Manner, Voice};
use crate::facl::Change;
use crate::fault::Fault;
use crate::lasting::{Lasting, Peer, Stay};
use crate::names::principal_of;
use crate::printing::Place;
use crate::rights::Rights;
use crate::starting::{owner, verifier};
use crate::user::Asked;
use crate::wish::Wish;
use crate::{bytes, deep, facl, object, why};
use nfs_client::{Answer, Client, ToolFault, Transport};
use nfs_ops::{OP_CLOSE, OP_SETATTR, OP_WRITE};
use nfsc_options::Options;
use std::alloc::Global;
use std::cell::Cell;
use std::net::{Net, SocketAddr, TcpStream};
use std::random::RandomSource;
use std::rt::{Clock, Files};
use std::time::Duration;
use who_book::NameKind;

/// A command, whose bytes of this system were read before.
#[derive(Drop)]
pub(crate) enum Task<'a> {
    Wish(Wish<'a>),
    /// These bytes become those of a file.
    Put(&'a [u8], Vec<u8>),
    /// A question on the permissions of users.
    Question(Question<'a>),
    /// A change of an object's access control list (ACL), and whether it is forced.
    Facl(&'a [u8], (Change<'a>, bool), &'a Around),
    /// Sets the owner or the group of the object of a path.
    Give(NameKind, Vec<u8>, &'a [u8]),
    /// A command over the object of a path and all below it.
    Deep((Deep<'a>, Manner, &'a [u8]), &'a Around),
}

/// A question on the permissions of a user, or of all users of the book, on the object of a path.
#[derive(Clone, Copy)]
pub(crate) struct Question<'a> {
    /// The user, or all users of the book.
    user: Option<&'a str>,
    rights: &'a str,
    path: &'a [u8],
    around: &'a Around,
}

/// The permissions of a word.
fn rights_in(alloc: Global, text: &str) -> Result<Rights, Fault> {
    let entry = format!(in alloc; "A::EVERYONE@:{text}")?;
    match Rights::read(text, entry.as_str()) {
        Some(rights) => Ok(rights),
        None => Err(Fault::NoRight),
    }
}

/// The answer to a question, by the server's ACLs.
fn answered<S: Transport>(
    client: &mut Client<S>,
    alloc: Global,
    question: Question<'_>,
) -> Result<Vec<u8>, Fault> {
    let rights = rights_in(alloc, question.rights)?;
    let names = &question.around.names;
    match question.user {
        Some(user) => match Asked::read(alloc, &names.book, user) {
            Ok(asked) => why::explain(client, alloc, &names.book, &asked, rights, question.path),
            Err(fault) => Err(fault),
        },
        None if question.around.is_named => why::list(client, alloc, names, rights, question.path),
        None => Err(Fault::NoBook),
    }
}

/// Whether a refusal of this operation can have left a part of the sent bytes in the file.
fn may_leave(op: u32) -> bool {
    op == OP_WRITE || op == OP_SETATTR || op == OP_CLOSE
}

/// Makes bytes those of a file, which keeps its own up to the first WRITE. If the server refused
/// some of them, the size of the file is printed. If no reply came, a sentence reports that a part
/// of them may be in the file.
fn send<S: Transport, R: Eprint>(
    client: &mut Client<S>,
    voice: Voice<'_, R>,
    path: &[u8],
    bytes: &[u8],
) -> Result<(), Fault> {
    match client.replace(path, bytes) {
        Err(fault @ ToolFault::Refused(op, _)) if may_leave(op) => {
            if let Ok(Some(size)) = object::size(client, path) {
                voice.report_size(path, size);
            }
            Err(Fault::Tool(fault))
        }
        Err(fault) => {
            if is_of_stream(fault) {
                voice.report_part(path);
            }
            Err(Fault::Tool(fault))
        }
        Ok(()) => Ok(()),
    }
}

/// Does a task by a client. The answer is to be printed.
fn done<S: Transport, R: Print + Eprint>(
    client: &mut Client<S>,
    voice: Voice<'_, R>,
    alloc: Global,
    task: Task<'_>,
) -> Result<Answer, Fault> {
    match task {
        Task::Wish(Wish::Plain(command)) => Ok(client.answer(command)?),
        Task::Wish(Wish::Get { path, file: _ }) => Ok(Answer::Text(client.cat(path)?)),
        Task::Wish(Wish::GetFacl(path)) => Ok(Answer::Text(facl::get(client, alloc, path)?)),
        Task::Facl(path, change, around) => {
            facl::apply(client, alloc, around, path, change)?;
            Ok(Answer::Done)
        }
        Task::Wish(Wish::MakeAll(path)) => {
            deep::make_all(client, path)?;
            Ok(Answer::Done)
        }
        Task::Deep(asked, around) => deep::run(client, voice, alloc, around, asked),
        Task::Wish(Wish::List(path)) => deep::list_one(client, alloc, path),
        Task::Wish(Wish::PathOf(number)) => deep::paths_of(client, voice, alloc, number),
        Task::Wish(Wish::Stat(path)) => Ok(Answer::Text(object::stat(client, alloc, path)?)),
        Task::Wish(Wish::ReadLink(path)) => {
            let mut text = client.readlink(path)?;
            text.push(b'\n')?;
            Ok(Answer::Text(text))
        }
        Task::Give(NameKind::User, owner, path) => {
            client.chown(owner.as_slice(), path)?;
            Ok(Answer::Done)
        }
        Task::Give(NameKind::Group, group, path) => {
            client.chgrp(group.as_slice(), path)?;
            Ok(Answer::Done)
        }
        Task::Wish(Wish::Touch(time, path)) => {
            client.touch(time, path)?;
            Ok(Answer::Done)
        }
        Task::Wish(Wish::SymLink(text, path)) => {
            client.symlink(text, path)?;
            Ok(Answer::Done)
        }
        Task::Wish(Wish::Copy(old, new)) => {
            let bytes = client.cat(old)?;
            send(client, voice, new, bytes.as_slice())?;
            Ok(Answer::Done)
        }
        Task::Question(question) => Ok(Answer::Text(answered(client, alloc, question)?)),
        Task::Put(path, bytes) => {
            send(client, voice, path, bytes.as_slice())?;
            Ok(Answer::Done)
        }
        Task::Wish(
            Wish::Send { .. }
            | Wish::Why { .. }
            | Wish::Who { .. }
            | Wish::ChangeFacl { .. }
            | Wish::ChOwn(_, _)
            | Wish::ChGrp(_, _)
            | Wish::Deep { .. },
        ) => Err(Fault::Unread),
    }
}

/// The file of this system that an answer is written to, if any.
fn file_of<'a>(wish: &Wish<'a>) -> Option<&'a str> {
    match wish {
        Wish::Get { path: _, file } => *file,
        _ => None,
    }
}

/// The task that sets the owner or the group of the object of a path to that of a word.
fn given_to<'a>(
    alloc: Global,
    around: &Around,
    kind: NameKind,
    word: &[u8],
    path: &'a [u8],
) -> Result<Task<'a>, Fault> {
    let principal = principal_of(alloc, &around.names.book, kind, word)?;
    Ok(Task::Give(kind, principal, path))
}

/// The task of a command: the bytes to be sent are read before anything is asked of the server.
fn task_of<'a, R: Files + Input>(
    rt: &R,
    alloc: Global,
    around: &'a Around,
    wish: Wish<'a>,
) -> Result<Task<'a>, Fault> {
    match wish {
        Wish::Send { file, path } => Ok(Task::Put(path, bytes::read(rt, alloc, file)?)),
        Wish::Why { user, rights, path } => Ok(Task::Question(Question {
            user: Some(user),
            rights,
            path,
            around,
        })),
        Wish::ChangeFacl {
            path,
            change,
            is_forced,
        } => Ok(Task::Facl(path, (change, is_forced), around)),
        Wish::ChOwn(owner, path) => given_to(alloc, around, NameKind::User, owner, path),
        Wish::ChGrp(group, path) => given_to(alloc, around, NameKind::Group, group, path),
        Wish::Deep { deep, manner, path } => Ok(Task::Deep((deep, manner, path), around)),
        Wish::Who { rights, path } => Ok(Task::Question(Question {
            user: None,
            rights,
            path,
            around,
        })),
        wish => Ok(Task::Wish(wish)),
    }
}

/// Writes an answer to its file, if it has one.
fn kept<R: Files>(rt: &R, file: Option<&str>, answer: Answer) -> Result<Answer, Fault> {
    match file {
        Some(file) => {
            bytes::write(rt, file, answer.as_bytes())?;
            Ok(Answer::Done)
        }
        None => Ok(answer),
    }
}

/// The server of the options.
pub(crate) fn server_of(options: &Options<'_>) -> SocketAddr {
    SocketAddr::new(options.host, options.port)
}

/// The fault of a session on whose stream a reply was late, if one was.
fn judged(fault: Fault, is_late: bool) -> Fault {
    match fault {
        Fault::Tool(fault) if is_late && is_of_stream(fault) => Fault::Late(fault),
        fault => fault,
    }
}

/// Whether a fault is one of reading or writing.
fn is_of_stream(fault: ToolFault) -> bool {
    matches!(fault, ToolFault::Read | ToolFault::Write)
}

/// A client with a session of its own.
#[derive(Drop)]
pub(crate) struct Session<'a, R> {
    client: Client<Lasting<'a, R>>,
    is_late: &'a Cell<bool>,
}

impl<
    'a,
    R: Net<Stream = TcpStream> + Clock + RandomSource + Files + Input + Print + Eprint,
> Session<'a, R> {
    /// Connects to the server, and opens a session by an owner of its own. The cell is false at
    /// first.
    pub(crate) fn open(
        rt: &'a R,
        alloc: Global,
        options: &Options<'_>,
        groups: &'a [u32],
        is_late: &'a Cell<bool>,
        stay: Stay,
    ) -> Result<Self, Fault> {
        let Ok(owner) = owner(rt) else {
            return Err(Fault::Random);
        };
        let peer = Peer {
            rt,
            alloc,
            server: server_of(options),
            patience: Duration::from_secs(u64::from(options.timeout)),
            groups,
            is_late,
        };
        let calls = Lasting::open(peer, stay)?;
        let (uid, gid) = (options.uid, options.gid);
        match Client::open(alloc, calls, uid, gid, &owner, verifier(rt)) {
            Ok(client) => Ok(Session { client, is_late }),
            Err(fault) => Err(judged(Fault::Tool(fault), is_late.get())),
        }
    }

    /// Does a task.
    fn act(&mut self, voice: Voice<'_, R>, alloc: Global, task: Task<'_>) -> Result<Answer, Fault> {
        match done(&mut self.client, voice, alloc, task) {
            Ok(answer) => Ok(answer),
            Err(fault) => Err(judged(fault, self.is_late.get())),
        }
    }

    /// Runs a command.
    pub(crate) fn run<'w>(
        &mut self,
        rt: &R,
        alloc: Global,
        around: &'w Around,
        place: Place,
        wish: Wish<'w>,
    ) -> Result<Answer, Fault> {
        let file = file_of(&wish);
        let task = task_of(rt, alloc, around, wish)?;
        let answer = self.act(
            Voice {
                rt,
                place,
                is_watched: around.is_watched,
            },
            alloc,
            task,
        )?;
        kept(rt, file, answer)
    }

    /// Ends the session and its client. A refusal or a fault isn't reported.
    pub(crate) fn end(&mut self) {
        let _ = self.client.end();
    }
}

/// Runs a command in a session of its own, which is ended even if the command was refused.
pub(crate) fn call<
    'a,
    'w,
    R: Net<Stream = TcpStream> + Clock + RandomSource + Files + Input + Print + Eprint,
>(
    rt: &'a R,
    alloc: Global,
    options: &Options<'_>,
    groups: &'a [u32],
    around: &'w Around,
    wish: Wish<'w>,
) -> Result<Answer, Fault> {
    let file = file_of(&wish);
    let task = task_of(rt, alloc, around, wish)?;
    let is_late = Cell::new(false);
    let mut session = Session::open(rt, alloc, options, groups, &is_late, Stay::Never)?;
    let voice = Voice {
        rt,
        place: Place::Call,
        is_watched: around.is_watched,
    };
    let outcome = session.act(voice, alloc, task);
    session.end();
    kept(rt, file, outcome?)
}
