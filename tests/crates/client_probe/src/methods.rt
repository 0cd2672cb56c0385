//! The client's method for each command, without its contract, which no caller here needs.

use crate::outcomes::{put_done, put_given, put_rights};
use crate::played::Player;
use nfs_client::{AclPart, Answer, Command, ToolFault};
use std::test::Fail;

/// Runs a command, whose answer is a text.
pub fn answer(client: &mut Player<'_, '_>, command: Command<'_>) -> Result<Answer, ToolFault> {
    client.answer(command)
}

/// Ends the session and the client.
pub fn end(client: &mut Player<'_, '_>) -> Result<(), ToolFault> {
    client.end()
}

/// The ACEs of an ACL (access control list) or of a part of it.
fn get(client: &mut Player<'_, '_>, part: AclPart, path: &[u8]) -> Result<Vec<u8>, ToolFault> {
    match part {
        AclPart::Acl => client.getacl(path),
        AclPart::Dacl => client.getdacl(path),
        AclPart::Sacl => client.getsacl(path),
    }
}

/// Sets an ACL or a part of it.
fn set(
    client: &mut Player<'_, '_>,
    part: AclPart,
    path: &[u8],
    entries: &[&[u8]],
) -> Result<(), ToolFault> {
    match part {
        AclPart::Acl => client.setacl(path, entries),
        AclPart::Dacl => client.setdacl(path, entries),
        AclPart::Sacl => client.setsacl(path, entries),
    }
}

/// The supported permissions, and the granted ones.
fn access(client: &mut Player<'_, '_>, path: &[u8]) -> Result<(u32, u32), ToolFault> {
    match client.access(path) {
        Ok(rights) => Ok((rights.supported, rights.granted)),
        Err(fault) => Err(fault),
    }
}

fn ls(client: &mut Player<'_, '_>, path: &[u8]) -> Result<Vec<u8>, ToolFault> {
    client.ls(path)
}

/// The entries of a directory, with a zero byte after each column.
pub fn ls_zero(client: &mut Player<'_, '_>, path: &[u8]) -> Result<Vec<u8>, ToolFault> {
    client.ls_zero(path)
}

fn cat(client: &mut Player<'_, '_>, path: &[u8]) -> Result<Vec<u8>, ToolFault> {
    client.cat(path)
}

fn put(client: &mut Player<'_, '_>, path: &[u8], text: &[u8]) -> Result<(), ToolFault> {
    client.put(path, text)
}

/// Makes a text the bytes of a file that keeps its own until then.
pub fn replace(client: &mut Player<'_, '_>, path: &[u8], text: &[u8]) -> Result<(), ToolFault> {
    client.replace(path, text)
}

fn mkdir(client: &mut Player<'_, '_>, path: &[u8]) -> Result<(), ToolFault> {
    client.mkdir(path)
}

fn ln(client: &mut Player<'_, '_>, old: &[u8], new: &[u8]) -> Result<(), ToolFault> {
    client.ln(old, new)
}

fn mv(client: &mut Player<'_, '_>, old: &[u8], new: &[u8]) -> Result<(), ToolFault> {
    client.mv(old, new)
}

fn rm(client: &mut Player<'_, '_>, path: &[u8]) -> Result<(), ToolFault> {
    client.rm(path)
}

fn chmod(client: &mut Player<'_, '_>, mode: &[u8], path: &[u8]) -> Result<(), ToolFault> {
    client.chmod(mode, path)
}

/// Appends the outcome of the client's method for a command.
pub fn put_method(
    out: &mut String,
    client: &mut Player<'_, '_>,
    command: Command<'_>,
) -> Result<(), Fail> {
    match command {
        Command::Ls(path) => put_given(out, ls(client, path)),
        Command::Cat(path) => put_given(out, cat(client, path)),
        Command::Put(path, text) => put_done(out, put(client, path, text)),
        Command::MkDir(path) => put_done(out, mkdir(client, path)),
        Command::Ln(old, new) => put_done(out, ln(client, old, new)),
        Command::Mv(old, new) => put_done(out, mv(client, old, new)),
        Command::Rm(path) => put_done(out, rm(client, path)),
        Command::ChMod(mode, path) => put_done(out, chmod(client, mode, path)),
        Command::GetAcl(part, path) => put_given(out, get(client, part, path)),
        Command::SetAcl(part, path, entries) => put_done(out, set(client, part, path, entries)),
        Command::Access(path) => put_rights(out, access(client, path)),
    }
}
