//! The ACL (access control list) of an object, or a part of it.
ghost use Rattle.std.specs.Prelude.{◌≡◌, ◌≤◌, ◌<◌, Some, None, false, true, Err, List, option_map, option_and_then};
ghost use Rattle.xdr_wire.specs.Wire.{array_values};
ghost use Rattle.nfs_types.specs.AceView.{ace_value};
ghost use Rattle.nfs_types.specs.Attributes as attributes;
ghost use Rattle.nfs_types.specs.Seen.{seen_of};
ghost use Rattle.nfs_types.specs.SeenViews.{seen_value};
ghost use Rattle.nfs_types.specs.Views.{bitmap_value};
ghost use Rattle.nfs_ops.specs.Operations.{Operation};
ghost use Rattle.nfs_ops.specs.ResultViews.{read_view};
ghost use Rattle.nfs_client.specs.Access.{NoPath};
ghost use Rattle.nfs_client.specs.Acls.{IsAlone, kind_numbered, line_of, list_text, entries_of, list_in, acl_of};
ghost use Rattle.nfs_client.specs.Acls.{acl_in, GetAclAsks, PutsList};
ghost use Rattle.nfs_client.specs.Commands.{AskGives, within_session};
ghost use Rattle.nfs_client.specs.Compound.{results_to};
ghost use Rattle.nfs_client.specs.CompoundViews.{outcomes};
ghost use Rattle.nfs_client.specs.EntryViews.{entry_line};
ghost use Rattle.nfs_client.specs.Requests.{Asks};
ghost use Rattle.nfs_client.specs.Taking.{ReplyResultsGive, TakeGives, taking};
ghost use Rattle.nfs_client.specs.Walking.{CommandResults};
ghost use Rattle.nfs_client.specs.declared.fault.ToolFault.TheVariants.{Failed};

use crate::acl_part::AclPart;
use crate::client::{Client, Reply};
use crate::entry_text::EntryText;
use crate::fault::ToolFault;
use crate::path::Path;
use crate::request::Request;
use crate::taking::last;
use crate::transport::Transport;
use acl_list::EntryKind;
use nfs_ops::{GetAttrArgs, Op, OpResult};
use nfs_types::{Ace, Attributes, Bitmap, SeenAttributes, read_given};
use std::alloc::Allocator;
use xdr_wire::Array;

/// The ACEs of a returned ACL.
type GivenAces<'a> = Array<'a, Ace<'a>, 0xffff_ffff>;

/// The set of this attribute alone.
fn alone(part: AclPart) -> Bitmap
    ensures { IsAlone part (bitmap_value result) }
{
    Bitmap::empty().with(part.number())
}

/// The type of an ACE by its number.
fn kind_numbered(number: u32) -> Option<EntryKind>
    ensures { result ≡ kind_numbered number }
{
    match number {
        0 => Some(EntryKind::Allow),
        1 => Some(EntryKind::Deny),
        2 => Some(EntryKind::Audit),
        3 => Some(EntryKind::Alarm),
        _ => None,
    }
}

/// A returned ACE, as an ACE of text.
fn entry_text_of<'a>(ace: Ace<'a>) -> Option<EntryText<'a>>
    ensures { option_map entry_line result ≡ line_of (ace_value ace.entry) }
{
    let kind = kind_numbered(ace.kind)?;
    let Ok(flags) = u8::try_from(ace.flags) else {
        return None;
    };
    Some(EntryText {
        kind,
        flags,
        mask: ace.mask,
        who: ace.who.bytes,
    })
}

/// Appends a line for each ACE. `Reply`: an ACE can't be written as text.
fn put_acl<A: Allocator>(out: &mut Vec<u8, A>, aces: GivenAces<'_>) -> Result<(), ToolFault>
    ensures { PutsList out.old.items out.new.items
        (array_values attributes.ace None aces.entry.count aces.entry.bytes.now) result }
{
    let mut left = aces;
    while let Some(ace) = left.next() {
        let Some(entry) = entry_text_of(ace) else {
            return Err(ToolFault::Reply);
        };
        entry.put(out)?;
        out.push(b'\n')?;
    }
    Ok(())
}

/// The ACEs of the ACL or of the part, among attributes that were read.
fn entries_of<'a>(part: AclPart, seen: SeenAttributes<'a>) -> Option<GivenAces<'a>>
    ensures { option_map (λ a. array_values attributes.ace None a.count a.bytes.now) result ≡
        entries_of part (seen_value seen.entry) }
{
    let part = match part {
        AclPart::Acl => return seen.entries,
        AclPart::Dacl => seen.dacl?,
        AclPart::Sacl => seen.sacl?,
    };
    Some(part.entries)
}

/// The ACL among returned attributes.
fn list_given(part: AclPart, given: Attributes<'_>) -> Option<GivenAces<'_>>
    ensures { option_map (λ a. array_values attributes.ace None a.count a.bytes.now) result ≡
        list_in part (seen_of (bitmap_value given.entry.set) given.entry.values.bytes.now) }
{
    match read_given(&given) {
        Ok(seen) => entries_of(part, seen),
        Err(_) => None,
    }
}

/// The ACL in a result, as text.
fn acl_text_of<A: Allocator>(
    alloc: A,
    part: AclPart,
    found: Option<OpResult<'_>>,
) -> Result<Vec<u8, A>, ToolFault>
    ensures { TakeGives (λ v. v.items) (option_and_then (acl_of part) (option_map read_view found.entry)) result }
{
    let Some(OpResult::GetAttr(outcome)) = found else {
        return Err(ToolFault::Reply);
    };
    let Some(aces) = list_given(part, outcome.attributes) else {
        return Err(ToolFault::Reply);
    };
    let mut text = Vec::new(alloc);
    match put_acl(&mut text, aces) {
        Ok(()) => Ok(text),
        Err(fault) => Err(fault),
    }
}

impl<A: Allocator + Copy> Reply<A> {
    /// The ACL at the end of the results, as text.
    fn list(&self, alloc: A, part: AclPart) -> Result<Vec<u8, A>, ToolFault>
        ensures { ReplyResultsGive (taking (acl_in part) (λ v. v.items))
            (results_to self.now.xid self.now.asked.items self.now.content.items) result }
    {
        match self.results(alloc) {
            Ok(results) => acl_text_of(alloc, part, last(results)),
            Err(fault) => Err(fault),
        }
    }
}

impl<S: Transport, A: Allocator + Copy> Client<S, A> {
    fn ask_acl(&mut self, part: AclPart, request: Request<A>) -> Result<Vec<u8, A>, ToolFault>
        ensures { (ops : List Operation) → Asks request ops →
            AskGives S.talks (taking (acl_in part) (λ v. v.items)) (within_session ops)
            self.old self.new result }
    {
        let reply = match self.exchange(request) {
            Ok(reply) => reply,
            Err(fault) => return Err(fault),
        };
        let outcome = reply.list(self.alloc, part);
        self.conclude(&outcome, true);
        outcome
    }

    /// The ACL of an object, or a part of it: a line for each ACE, with a newline after it.
    pub(crate) fn get_acl(&mut self, part: AclPart, path: &[u8]) -> Result<Vec<u8, A>, ToolFault>
        ensures failed { self.old.usable ≡ false → result ≡ Err Failed }
        ensures gives { CommandResults S.talks (taking (acl_in part) (λ v. v.items))
            (GetAclAsks part path.now) (NoPath path.now) self.old self.new result }
    {
        self.start()?;
        let path = match Path::read(self.alloc, path) {
            Ok(path) => path,
            Err(fault) => return Err(fault),
        };
        let op = Op::GetAttr(GetAttrArgs { asked: alone(part) });
        match self.ready(path.names(), op) {
            Ok(request) => self.ask_acl(part, request),
            Err(fault) => Err(fault),
        }
    }

    /// The ACL (access control list) of an object: a line for each ACE, with a newline after it.
    pub fn getacl(&mut self, path: &[u8]) -> Result<Vec<u8, A>, ToolFault>
        ensures failed { self.old.usable ≡ false → result ≡ Err Failed }
        ensures gives { CommandResults S.talks
            (taking (acl_in AclPart.Acl) (λ v. v.items)) (GetAclAsks AclPart.Acl path.now) (NoPath path.now)
            self.old self.new result }
    {
        self.get_acl(AclPart::Acl, path)
    }

    /// The ACEs that allow and deny, dacl, of the ACL of an object: a line for each ACE, with a newline after it.
    pub fn getdacl(&mut self, path: &[u8]) -> Result<Vec<u8, A>, ToolFault>
        ensures failed { self.old.usable ≡ false → result ≡ Err Failed }
        ensures gives { CommandResults S.talks
            (taking (acl_in AclPart.Dacl) (λ v. v.items)) (GetAclAsks AclPart.Dacl path.now) (NoPath path.now)
            self.old self.new result }
    {
        self.get_acl(AclPart::Dacl, path)
    }

    /// The ACEs that audit and alarm, sacl, of the ACL of an object: a line for each ACE, with a newline after it.
    pub fn getsacl(&mut self, path: &[u8]) -> Result<Vec<u8, A>, ToolFault>
        ensures failed { self.old.usable ≡ false → result ≡ Err Failed }
        ensures gives { CommandResults S.talks
            (taking (acl_in AclPart.Sacl) (λ v. v.items)) (GetAclAsks AclPart.Sacl path.now) (NoPath path.now)
            self.old self.new result }
    {
        self.get_acl(AclPart::Sacl, path)
    }
}
