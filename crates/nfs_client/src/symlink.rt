//! Creating a symbolic link.
ghost use Rattle.std.specs.Prelude.{◌≡◌, false, Err, IfOk};
ghost use Rattle.nfs_ops.specs.OpViews.{op_view};
ghost use Rattle.nfs_client.specs.SymLink.{SymLinkAsks, create_link};
ghost use Rattle.nfs_client.specs.Requests.{PutGives};
ghost use Rattle.nfs_client.specs.Rm.{WrongPath};
ghost use Rattle.nfs_client.specs.Walking.{CommandGives};
ghost use Rattle.nfs_client.specs.declared.fault.ToolFault.TheVariants.{Failed};

use crate::client::Client;
use crate::fault::ToolFault;
use crate::path::Place;
use crate::request::sendable;
use crate::transport::Transport;
use nfs_ops::{CreateArgs, CreateType, Op};
use nfs_types::{Attributes, Bitmap};
use std::alloc::Allocator;

/// CREATE of a symbolic link of this name with this text.
fn creating<'a>(text: &'a [u8], name: &'a [u8]) -> Result<Op<'a>, ToolFault>
    ensures asks { IfOk result (λ op. op_view op ≡ create_link text.entry.now name.entry.now) }
    ensures memory { PutGives result }
{
    let text = sendable(text)?;
    let name = sendable(name)?;
    let values = sendable(&[])?;
    let set = Bitmap::empty();
    Ok(Op::Create(CreateArgs {
        kind: CreateType::Link(text),
        name,
        attributes: Attributes { set, values },
    }))
}

impl<S: Transport, A: Allocator + Copy> Client<S, A> {
    /// Creates a symbolic link with this text, which the server takes as it is: of 1 to 1,024 bytes.
    pub fn symlink(&mut self, text: &[u8], path: &[u8]) -> Result<(), ToolFault>
        ensures failed { self.old.usable ≡ false → result ≡ Err Failed }
        ensures gives { CommandGives S.talks (SymLinkAsks text.now path.now)
            (WrongPath path.now) self.old self.new result }
    {
        self.start()?;
        let place = match Place::read(self.alloc, path) {
            Ok(place) => place,
            Err(fault) => return Err(fault),
        };
        let op = creating(text, place.name)?;
        match self.ready(&place.directory, op) {
            Ok(request) => self.run(request, true),
            Err(fault) => Err(fault),
        }
    }
}
