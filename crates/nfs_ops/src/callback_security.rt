//! The security of callbacks (RFC 8881, section 18.36).
use crate::bytes::Bytes;
use std::alloc::Allocator;
use xdr_wire::{Array, Full, Opaque, Reader, Spell, Wire, Writer, XdrFault};

/// A caller by numbers (RFC 5531, appendix A, `authsys_parms`).
#[derive(Drop)]
pub struct AuthSys<'a> {
    pub stamp: u32,
    /// The caller's machine.
    pub machine: Opaque<'a, 255>,
    pub uid: u32,
    pub gid: u32,
    /// Further groups.
    pub gids: Array<'a, u32, 16>,
}

impl<'a> Spell for AuthSys<'a> {
    ghost use Rattle.std.specs.Prelude.{None};
    ghost use Rattle.nfs_ops.specs.Forms.{authsys};
    ghost use Rattle.nfs_ops.specs.ItemViews.{authsys_value};

    ghost form = { authsys };

    ghost view = { authsys_value };

    ghost normal = { None };

    fn write<A: Allocator>(self, writer: &mut Writer<A>) -> Result<(), Full> {
        let AuthSys {
            stamp,
            machine,
            uid,
            gid,
            gids,
        } = self;
        (stamp, (machine, (uid, (gid, gids)))).write(writer)
    }
}

impl<'a> Wire<'a> for AuthSys<'a> {
    fn read(reader: &mut Reader<'a>) -> Result<Self, XdrFault> {
        let (stamp, (machine, (uid, (gid, gids)))) = Wire::read(reader)?;
        Ok(AuthSys {
            stamp,
            machine,
            uid,
            gid,
            gids,
        })
    }
}

/// Handles of a context of RPCSEC_GSS (RFC 8881, section 18.36, `gss_cb_handles4`).
#[derive(Clone, Copy)]
pub struct GssHandles<'a> {
    pub service: u32,
    /// The server's handle.
    pub server: Bytes<'a>,
    /// The client's handle.
    pub client: Bytes<'a>,
}

impl<'a> Spell for GssHandles<'a> {
    ghost use Rattle.std.specs.Prelude.{None};
    ghost use Rattle.nfs_ops.specs.Forms.{gss_handles};
    ghost use Rattle.nfs_ops.specs.ItemViews.{gss_handles_value};

    ghost form = { gss_handles };

    ghost view = { gss_handles_value };

    ghost normal = { None };

    fn write<A: Allocator>(self, writer: &mut Writer<A>) -> Result<(), Full> {
        (self.service, (self.server, self.client)).write(writer)
    }
}

impl<'a> Wire<'a> for GssHandles<'a> {
    fn read(reader: &mut Reader<'a>) -> Result<Self, XdrFault> {
        let (service, (server, client)) = Wire::read(reader)?;
        Ok(GssHandles {
            service,
            server,
            client,
        })
    }
}

/// The credentials of callbacks (RFC 8881, section 18.36, `callback_sec_parms4`).
#[derive(Drop)]
pub enum CallbackSecurity<'a> {
    /// AUTH_NONE (0).
    Nobody,
    /// AUTH_SYS (1).
    Sys(AuthSys<'a>),
    /// RPCSEC_GSS (6).
    Gss(GssHandles<'a>),
}

impl<'a> Spell for CallbackSecurity<'a> {
    ghost use Rattle.std.specs.Prelude.{None};
    ghost use Rattle.nfs_ops.specs.Forms.{callback_security};
    ghost use Rattle.nfs_ops.specs.ItemViews.{callback_security_value};

    ghost form = { callback_security };

    ghost view = { callback_security_value };

    ghost normal = { None };

    fn write<A: Allocator>(self, writer: &mut Writer<A>) -> Result<(), Full> {
        match self {
            CallbackSecurity::Nobody => (0u32, ()).write(writer),
            CallbackSecurity::Sys(sys) => (1u32, sys).write(writer),
            CallbackSecurity::Gss(gss) => (6u32, gss).write(writer),
        }
    }
}

impl<'a> Wire<'a> for CallbackSecurity<'a> {
    fn read(reader: &mut Reader<'a>) -> Result<Self, XdrFault> {
        let mut ahead = reader.fork();
        let security = match ahead.u32()? {
            0 => CallbackSecurity::Nobody,
            1 => CallbackSecurity::Sys(Wire::read(&mut ahead)?),
            6 => CallbackSecurity::Gss(Wire::read(&mut ahead)?),
            _ => return Err(XdrFault::BadChoice),
        };
        *reader = ahead;
        Ok(security)
    }
}
