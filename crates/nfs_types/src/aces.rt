//! The access control entries (ACEs) of an access control list (ACL).
ghost use Rattle.std.specs.Prelude.{◌≡◌, ◌<◌, ◌≤◌, ◌↔◌, length, IfSome, IsNone};

use crate::ace::Ace;
use std::alloc::Allocator;
use xdr_wire::{Full, Spell, Writer};

/// The ACEs of an ACL as a client sends them, `nfsace4<>` (RFC 8881, section 6.2.1), borrowed. They are at most as many
/// as an array can have.
#[derive(Clone, Copy)]
pub struct Aces<'a> {
    pub entries: &'a [Ace<'a>],
    ghost within: { length entries.now ≤ 0xffff_ffff },
}

impl<'a> Aces<'a> {
    /// The ACEs as an array. `None`: they are more than 4294967295.
    pub fn new(entries: &'a [Ace<'a>]) -> Option<Self>
        ensures same { IfSome result (λ aces. aces.entries.now ≡ entries.now) }
        ensures none { IsNone result ↔ (0xffff_ffff < length entries.now) }
    {
        if entries.len() > 0xffff_ffff {
            return None;
        }
        Some(Aces { entries })
    }
}

impl<'a> Spell for Aces<'a> {
    ghost use Rattle.std.specs.Prelude.{None, map};
    ghost use Rattle.nfs_types.specs.Attributes.{acl};
    ghost use Rattle.nfs_types.specs.AceView.{ace_value};

    ghost form = { acl };

    ghost view = { λ a. map ace_value a.entries.now };

    ghost normal = { None };

    fn write<A: Allocator>(self, writer: &mut Writer<A>) -> Result<(), Full> {
        let start = writer.len();
        let Aces { entries } = self;
        writer.put_u32(entries.len() as u32)?;
        for entry in entries {
            if entry.write(writer).is_err() {
                writer.truncate(start);
                return Err(Full);
            }
        }
        Ok(())
    }
}
