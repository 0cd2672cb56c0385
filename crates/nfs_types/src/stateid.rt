//! Stateids (RFC 8881, section 8.2).
ghost use Rattle.std.specs.Prelude.{◌≡◌, ◌==◌, ◌&&◌};
ghost use Rattle.std.specs.List.{list_all};
ghost use Rattle.nfs_types.specs.StateIds as specs;
ghost use Rattle.nfs_types.specs.StateIds.{open_stateid, open_of};
ghost use Rattle.nfs_types.specs.Views.{stateid_value};

use crate::filled::is_filled;
use std::alloc::Allocator;
use xdr_wire::{Full, Reader, Spell, Wire, Writer, XdrFault};

/// A stateid, `stateid4` (RFC 8881, section 8.2).
#[derive(Clone, Copy, Debug, PartialEq, Eq)]
pub struct StateId {
    /// The seqid: the number of changes of the open. 0 in a call means the newest.
    pub seqid: u32,
    /// The other field, which names the open.
    pub other: [u8; 12],
}

fn open_in(other: &[u8; 12]) -> Option<u64>
    ensures { result ≡ open_of (0, other.now) }
{
    let (prefix, item) = other.split_at(4);
    if is_filled(prefix, 0) {
        Some(u64::from_be_bytes([
            item[0], item[1], item[2], item[3], item[4], item[5], item[6], item[7],
        ]))
    } else {
        None
    }
}

impl StateId {
    /// The anonymous stateid, all zeros (section 8.2.3).
    pub fn anonymous() -> Self
        ensures { stateid_value result ≡ specs.anonymous }
    {
        StateId {
            seqid: 0,
            other: [0; 12],
        }
    }

    /// The READ bypass stateid, all ones: a READ may bypass locks with it (section 8.2.3).
    pub fn read_bypass() -> Self
        ensures { stateid_value result ≡ specs.read_bypass }
    {
        StateId {
            seqid: 0xffff_ffff,
            other: [255; 12],
        }
    }

    /// The stateid that CLOSE returns: the invalid stateid, which no operation accepts (section 8.2.3).
    pub fn closed() -> Self
        ensures { stateid_value result ≡ specs.closed }
    {
        StateId {
            seqid: 0xffff_ffff,
            other: [0; 12],
        }
    }

    /// The stateid of the open with this number: 4 zero bytes and the number.
    pub fn of_open(seqid: u32, number: u64) -> Self
        ensures { stateid_value result ≡ open_stateid seqid number }
    {
        let mut other = [0; 12];
        other[4..].copy_from_slice(&number.to_be_bytes());
        StateId { seqid, other }
    }

    /// Whether it is the anonymous or the READ bypass stateid, including the seqid.
    pub fn is_special(&self) -> bool
        ensures { result ≡ specs.is_special (stateid_value self.now) }
    {
        self.is_all(0, 0) || self.is_all(0xffff_ffff, 255)
    }

    fn is_all(&self, seqid: u32, byte: u8) -> bool
        ensures { result ≡ (self.now.seqid == seqid) && list_all (λ b. b == byte) self.now.other }
    {
        self.seqid == seqid && is_filled(&self.other, byte)
    }

    /// The number of the open that it names, whether or not the open exists. `None`: its first 4 bytes aren't zero.
    pub fn open_number(&self) -> Option<u64>
        ensures { result ≡ open_of (stateid_value self.now) }
    {
        open_in(&self.other)
    }
}

impl Spell for StateId {
    ghost use Rattle.std.specs.Prelude.{None};
    ghost use Rattle.nfs_types.specs.Forms.{stateid};

    ghost form = { stateid };

    ghost view = { stateid_value };

    ghost normal = { None };

    fn write<A: Allocator>(self, writer: &mut Writer<A>) -> Result<(), Full> {
        let StateId { seqid, other } = self;
        (seqid, other).write(writer)
    }
}

impl<'a> Wire<'a> for StateId {
    fn read(reader: &mut Reader<'a>) -> Result<Self, XdrFault> {
        let (seqid, other) = Wire::read(reader)?;
        Ok(StateId { seqid, other })
    }
}
