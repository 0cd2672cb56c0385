//! Setting an owner or an owning group (RFC 8881, sections 5.8.2.26 and 5.8.2.27).
ghost use Rattle.std.specs.Prelude.{◌≡◌, false, Err};
ghost use Rattle.nfs_types.specs.ClientViews.{client_value};
ghost use Rattle.nfs_client.specs.Access.{NoPath};
ghost use Rattle.nfs_client.specs.ChOwn.{ChOwnAsks, ChGrpAsks, SetAsks, of_owner, of_group};
ghost use Rattle.nfs_client.specs.Walking.{CommandGives};
ghost use Rattle.nfs_client.specs.declared.fault.ToolFault.TheVariants.{Failed};

use crate::client::Client;
use crate::fault::ToolFault;
use crate::path::Path;
use crate::request::sendable;
use crate::setting::{setting, values_of};
use crate::transport::Transport;
use nfs_ops::Bytes;
use nfs_types::ClientAttributes;
use std::alloc::Allocator;

/// The owner alone.
fn of_owner(owner: Bytes<'_>) -> ClientAttributes<'_>
    ensures { client_value result ≡ of_owner owner.entry.bytes.now }
{
    ClientAttributes {
        kind: None,
        size: None,
        error: None,
        entries: None,
        mode: None,
        owner: Some(owner),
        group: None,
        access: None,
        modify: None,
        dacl: None,
        sacl: None,
    }
}

/// The owning group alone.
fn of_group(group: Bytes<'_>) -> ClientAttributes<'_>
    ensures { client_value result ≡ of_group group.entry.bytes.now }
{
    ClientAttributes {
        kind: None,
        size: None,
        error: None,
        entries: None,
        mode: None,
        owner: None,
        group: Some(group),
        access: None,
        modify: None,
        dacl: None,
        sacl: None,
    }
}

impl<S: Transport, A: Allocator + Copy> Client<S, A> {
    /// Sets these attributes of an object.
    pub(crate) fn set_attributes(
        &mut self,
        path: &[u8],
        attributes: &ClientAttributes<'_>,
    ) -> Result<(), ToolFault>
        ensures { CommandGives S.talks (SetAsks (client_value attributes.now) path.now)
            (NoPath path.now) self.old self.new result }
    {
        let path = match Path::read(self.alloc, path) {
            Ok(path) => path,
            Err(fault) => return Err(fault),
        };
        let values = values_of(self.alloc, attributes)?;
        let op = setting(attributes, values.bytes())?;
        match self.ready(path.names(), op) {
            Ok(request) => self.run(request, true),
            Err(fault) => Err(fault),
        }
    }

    /// Sets the owner of an object to this text: a name and the domain of the server's book, or a number.
    pub fn chown(&mut self, owner: &[u8], path: &[u8]) -> Result<(), ToolFault>
        ensures failed { self.old.usable ≡ false → result ≡ Err Failed }
        ensures gives { CommandGives S.talks (ChOwnAsks owner.now path.now)
            (NoPath path.now) self.old self.new result }
    {
        self.start()?;
        let attributes = of_owner(sendable(owner)?);
        self.set_attributes(path, &attributes)
    }

    /// Sets the owning group of an object to this text: a name and the domain of the server's book, or a number.
    pub fn chgrp(&mut self, group: &[u8], path: &[u8]) -> Result<(), ToolFault>
        ensures failed { self.old.usable ≡ false → result ≡ Err Failed }
        ensures gives { CommandGives S.talks (ChGrpAsks group.now path.now)
            (NoPath path.now) self.old self.new result }
    {
        self.start()?;
        let attributes = of_group(sendable(group)?);
        self.set_attributes(path, &attributes)
    }
}
