//! Setting an ACL (access control list), or a part of it.
ghost use Rattle.std.specs.Prelude.{◌≡◌, ◌<◌, false, Err, IfOk, MatchResult, length, map};
ghost use Rattle.nfs_types.specs.AceView.{ace_value};
ghost use Rattle.nfs_types.specs.ClientViews.{client_value};
ghost use Rattle.nfs_client.specs.Acls.{ace_of, kind_number, EntriesGive, SetAclAsks, WrongAcl};
ghost use Rattle.nfs_client.specs.EntryViews.{entry_line};
ghost use Rattle.nfs_client.specs.Requests.{PutGives};
ghost use Rattle.nfs_client.specs.Setting.{of_entries};
ghost use Rattle.nfs_client.specs.Walking.{CommandGives};
ghost use Rattle.nfs_client.specs.declared.fault.ToolFault.TheVariants.{Entry, Failed};

use crate::acl_part::AclPart;
use crate::client::Client;
use crate::entry_text::EntryText;
use crate::fault::ToolFault;
use crate::path::Path;
use crate::request::sendable;
use crate::setting::{setting, values_of};
use crate::transport::Transport;
use acl_list::EntryKind;
use nfs_types::{Ace, Aces, Acl41, ClientAttributes};
use std::alloc::Allocator;

/// The number of an ACE's type.
fn kind_number(kind: EntryKind) -> u32
    ensures { result ≡ kind_number kind }
{
    match kind {
        EntryKind::Allow => 0,
        EntryKind::Deny => 1,
        EntryKind::Audit => 2,
        EntryKind::Alarm => 3,
    }
}

/// An ACE as sent.
fn ace(entry: EntryText<'_>) -> Result<Ace<'_>, ToolFault>
    ensures sent { IfOk result (λ a. ace_value a ≡ ace_of (entry_line entry.entry)) }
    ensures memory { PutGives result }
{
    Ok(Ace {
        kind: kind_number(entry.kind),
        flags: u32::from(entry.flags),
        mask: entry.mask,
        who: sendable(entry.who)?,
    })
}

/// `Entry` if no ACE is given.
fn some_entry(texts: &[&[u8]]) -> Result<(), ToolFault>
    ensures { MatchResult result (λ _. 0 < length texts.now) (λ fault. (fault ≡ Entry) × (length texts.now ≡ 0)) }
{
    if texts.is_empty() {
        return Err(ToolFault::Entry);
    }
    Ok(())
}

/// The ACEs of these texts. `Entry`: a text can't be read.
fn read_entries<'a, A: Allocator>(
    alloc: A,
    texts: &[&'a [u8]],
) -> Result<Vec<Ace<'a>, A>, ToolFault>
    ensures { EntriesGive (λ v. map ace_value v.items) (map (λ t. t.now) texts.now) result }
{
    let mut aces = Vec::new(alloc);
    for text in texts {
        let Some(entry) = EntryText::read(text) else {
            return Err(ToolFault::Entry);
        };
        aces.push(ace(entry)?)?;
    }
    Ok(aces)
}

/// The ACEs alone, as the ACL or as a part of it.
fn acl_attribute<'a>(part: AclPart, entries: Aces<'a>) -> ClientAttributes<'a>
    ensures { client_value result ≡ of_entries part (map ace_value entries.entry.entries.now) }
{
    let plain = Acl41 { flags: 0, entries };
    let (list, dacl, sacl) = match part {
        AclPart::Acl => (Some(entries), None, None),
        AclPart::Dacl => (None, Some(plain), None),
        AclPart::Sacl => (None, None, Some(plain)),
    };
    ClientAttributes {
        kind: None,
        size: None,
        error: None,
        entries: list,
        mode: None,
        owner: None,
        group: None,
        access: None,
        modify: None,
        dacl,
        sacl,
    }
}

/// The ACEs alone, as the ACL or as a part of it.
fn of_aces<'a>(part: AclPart, aces: &'a [Ace<'a>]) -> Result<ClientAttributes<'a>, ToolFault>
    ensures attributes_are { IfOk result (λ s. client_value s ≡ of_entries part (map ace_value aces.now)) }
    ensures memory { PutGives result }
{
    let Some(entries) = Aces::new(aces) else {
        return Err(ToolFault::Memory);
    };
    Ok(acl_attribute(part, entries))
}

impl<S: Transport, A: Allocator + Copy> Client<S, A> {
    /// Sets the ACL of an object, or a part of it, to these ACEs, each as text. `Entry`: an ACE can't be read, or
    /// none is given.
    pub(crate) fn set_list(
        &mut self,
        part: AclPart,
        path: &[u8],
        texts: &[&[u8]],
    ) -> Result<(), ToolFault>
        ensures failed { self.old.usable ≡ false → result ≡ Err Failed }
        ensures gives { CommandGives S.talks
            (SetAclAsks part path.now (map (λ t. t.now) texts.now)) (WrongAcl path.now (map (λ t. t.now) texts.now))
            self.old self.new result }
    {
        self.start()?;
        let path = match Path::read(self.alloc, path) {
            Ok(path) => path,
            Err(fault) => return Err(fault),
        };
        some_entry(texts)?;
        let aces = match read_entries(self.alloc, texts) {
            Ok(aces) => aces,
            Err(fault) => return Err(fault),
        };
        let attributes = of_aces(part, &aces)?;
        let values = values_of(self.alloc, &attributes)?;
        let op = setting(&attributes, values.bytes())?;
        match self.ready(path.names(), op) {
            Ok(request) => self.run(request, true),
            Err(fault) => Err(fault),
        }
    }

    /// Sets the ACL (access control list) of an object to these ACEs, each as text. `Entry`: an ACE can't be read, or
    /// none is given.
    pub fn setacl(&mut self, path: &[u8], texts: &[&[u8]]) -> Result<(), ToolFault>
        ensures failed { self.old.usable ≡ false → result ≡ Err Failed }
        ensures gives { CommandGives S.talks
            (SetAclAsks AclPart.Acl path.now (map (λ t. t.now) texts.now))
            (WrongAcl path.now (map (λ t. t.now) texts.now)) self.old self.new result }
    {
        self.set_list(AclPart::Acl, path, texts)
    }

    /// Sets the ACEs that allow and deny, dacl, of the ACL of an object to these ACEs, each as text. `Entry`: an ACE
    /// can't be read, or none is given.
    pub fn setdacl(&mut self, path: &[u8], texts: &[&[u8]]) -> Result<(), ToolFault>
        ensures failed { self.old.usable ≡ false → result ≡ Err Failed }
        ensures gives { CommandGives S.talks
            (SetAclAsks AclPart.Dacl path.now (map (λ t. t.now) texts.now))
            (WrongAcl path.now (map (λ t. t.now) texts.now)) self.old self.new result }
    {
        self.set_list(AclPart::Dacl, path, texts)
    }

    /// Sets the ACEs that audit and alarm, sacl, of the ACL of an object to these ACEs, each as text. `Entry`: an ACE
    /// can't be read, or none is given.
    pub fn setsacl(&mut self, path: &[u8], texts: &[&[u8]]) -> Result<(), ToolFault>
        ensures failed { self.old.usable ≡ false → result ≡ Err Failed }
        ensures gives { CommandGives S.talks
            (SetAclAsks AclPart.Sacl path.now (map (λ t. t.now) texts.now))
            (WrongAcl path.now (map (λ t. t.now) texts.now)) self.old self.new result }
    {
        self.set_list(AclPart::Sacl, path, texts)
    }
}
