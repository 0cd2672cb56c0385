//! Running a command, and the text of its answer.
ghost use Rattle.std.specs.Prelude.{◌≡◌, false, Err};
ghost use Rattle.nfs_client.specs.AnswerTexts.{answer_text, rights_line, ok_text, rights_text, text_of_bytes, PrintsAs};
ghost use Rattle.nfs_client.specs.AnswerTexts.{NewlineGives};
ghost use Rattle.nfs_client.specs.declared.fault.ToolFault.TheVariants.{Failed};

use crate::client::Client;
use crate::entry_text::hex_word;
use crate::fault::ToolFault;
use crate::transport::Transport;
use crate::words::Command;
use nfs_ops::AccessResult;
use std::alloc::{Allocator, Global};

/// The bytes of the line of permissions.
const RIGHTS_LINE: usize = 25;

/// The answer to a command, as text: lines, each with a newline after it, or the bytes of a file
/// with a newline after them.
#[derive(Drop)]
pub enum Answer<A: Allocator = Global> {
    /// `ok`: the command was done, and has no other text.
    Done,
    /// `access SUPPORTED GRANTED`, by eight hexadecimal digits each.
    Rights([u8; RIGHTS_LINE]),
    /// Lines, or the bytes of a file, as printed.
    Text(Vec<u8, A>),
}

impl<A: Allocator> Answer<A> {
    /// The text as printed, with its newlines.
    pub fn as_bytes(&self) -> &[u8]
        ensures { result.now ≡ answer_text self.now }
    {
        match self {
            Answer::Done => b"ok\n",
            Answer::Rights(line) => line,
            Answer::Text(text) => text,
        }
    }
}

/// The line of permissions: the supported ones, and the granted ones.
fn rights_line(rights: AccessResult) -> [u8; RIGHTS_LINE]
    ensures { result ≡ rights_line rights }
{
    let [a, b, c, d, e, f, g, h] = hex_word(rights.supported);
    let [i, j, k, l, m, n, o, p] = hex_word(rights.granted);
    [
        b'a', b'c', b'c', b'e', b's', b's', b' ', a, b, c, d, e, f, g, h, b' ', i, j, k, l, m, n,
        o, p, b'\n',
    ]
}

/// The answer to a command that has no other text than `ok`.
fn done<A: Allocator>(outcome: Result<(), ToolFault>) -> Result<Answer<A>, ToolFault>
    ensures { PrintsAs ok_text outcome result }
{
    match outcome {
        Ok(()) => Ok(Answer::Done),
        Err(fault) => Err(fault),
    }
}

/// The answer to a command that returns permissions.
fn rights<A: Allocator>(outcome: Result<AccessResult, ToolFault>) -> Result<Answer<A>, ToolFault>
    ensures { PrintsAs rights_text outcome result }
{
    match outcome {
        Ok(rights) => Ok(Answer::Rights(rights_line(rights))),
        Err(fault) => Err(fault),
    }
}

/// The answer to a command that returns lines.
fn lines<A: Allocator>(outcome: Result<Vec<u8, A>, ToolFault>) -> Result<Answer<A>, ToolFault>
    ensures { PrintsAs text_of_bytes outcome result }
{
    match outcome {
        Ok(text) => Ok(Answer::Text(text)),
        Err(fault) => Err(fault),
    }
}

/// The bytes of a file, with a newline after them.
fn with_newline<A: Allocator>(bytes: Vec<u8, A>) -> Result<Answer<A>, ToolFault>
    ensures { NewlineGives bytes.items result }
{
    let mut text = bytes;
    text.push(b'\n')?;
    Ok(Answer::Text(text))
}

impl<S: Transport, A: Allocator + Copy> Client<S, A> {
    ghost use Rattle.nfs_client.specs.WordViews.{command_line};
    ghost use Rattle.nfs_client.specs.Running.{CatPrints, Runs};

    /// The bytes of a file, with a newline after them.
    fn cat_text(&mut self, path: &[u8]) -> Result<Answer<A>, ToolFault>
        ensures { CatPrints S.talks path.now self.old self.new result }
    {
        match self.cat(path) {
            Ok(bytes) => {
                let outcome = with_newline(bytes);
                self.spoil(&outcome);
                outcome
            }
            Err(fault) => Err(fault),
        }
    }

    /// Runs a command, and returns its answer as text.
    fn answered(&mut self, command: Command<'_>) -> Result<Answer<A>, ToolFault>
        ensures { Runs S.talks (command_line command.entry) self.old self.new result }
    {
        match command {
            Command::Ls(path) => lines(self.ls(path)),
            Command::Cat(path) => self.cat_text(path),
            Command::Put(path, text) => done(self.put(path, text)),
            Command::MkDir(path) => done(self.mkdir(path)),
            Command::Ln(old, new) => done(self.ln(old, new)),
            Command::Mv(old, new) => done(self.mv(old, new)),
            Command::Rm(path) => done(self.rm(path)),
            Command::ChMod(mode, path) => done(self.chmod(mode, path)),
            Command::GetAcl(part, path) => lines(self.get_acl(part, path)),
            Command::SetAcl(part, path, entries) => done(self.set_list(part, path, entries)),
            Command::Access(path) => rights(self.access(path)),
        }
    }

    /// Runs a command, and returns its answer as text. It is the lines of `ls`, `getacl`, `getdacl` and `getsacl`,
    /// the bytes of a file with a newline after them, or the permissions of `access`. Of any other command it is
    /// `ok`. The text of a fault is `ToolFault::text`.
    pub fn answer(&mut self, command: Command<'_>) -> Result<Answer<A>, ToolFault>
        ensures failed { self.old.usable ≡ false → result ≡ Err Failed }
        ensures gives { Runs S.talks (command_line command.entry)
            self.old self.new result }
    {
        match self.start() {
            Ok(()) => self.answered(command),
            Err(fault) => Err(fault),
        }
    }
}
