//! The arguments of an OPEN or an EXCHANGE_ID that aren't supported, read up to the unsupported word.
ghost use Rattle.std.specs.Prelude.{◌≡◌, ◌||◌, is_ok};
ghost use Rattle.xdr_wire.specs.Reading.{read_at};
ghost use Rattle.nfs_ops.specs.Forms.{open_exclusive, open_by_other_claim, exchange_id_protected};

use crate::always::Always;
use crate::open::OpenHow;
use std::alloc::Allocator;
use xdr_wire::{Full, Opaque, Reader, Spell, Wire, Writer, XdrFault};

/// Exclusive creation (RFC 8881, section 18.16, `createmode4`).
#[derive(Clone, Copy)]
pub(crate) enum Exclusive {
    /// EXCLUSIVE4 (2).
    Plain,
    /// EXCLUSIVE4_1 (3).
    WithAttributes,
}

impl Spell for Exclusive {
    ghost use Rattle.std.specs.Prelude.{None};
    ghost use Rattle.nfs_ops.specs.Forms.{exclusive};
    ghost use Rattle.nfs_ops.specs.UnsupportedViews.{exclusive_value};

    ghost form = { exclusive };

    ghost view = { exclusive_value };

    ghost normal = { None };

    fn write<A: Allocator>(self, writer: &mut Writer<A>) -> Result<(), Full> {
        match self {
            Exclusive::Plain => (2u32, ()).write(writer),
            Exclusive::WithAttributes => (3u32, ()).write(writer),
        }
    }
}

impl<'a> Wire<'a> for Exclusive {
    fn read(reader: &mut Reader<'a>) -> Result<Self, XdrFault> {
        let mut ahead = reader.fork();
        let exclusive = match ahead.u32()? {
            2 => Exclusive::Plain,
            3 => Exclusive::WithAttributes,
            _ => return Err(XdrFault::BadChoice),
        };
        *reader = ahead;
        Ok(exclusive)
    }
}

/// A claim of a reclaim or a delegation (RFC 8881, section 18.16, `open_claim_type4`).
#[derive(Clone, Copy)]
pub(crate) enum OtherClaim {
    /// CLAIM_PREVIOUS (1).
    Previous,
    /// CLAIM_DELEGATE_CUR (2).
    DelegateCurrent,
    /// CLAIM_DELEGATE_PREV (3).
    DelegatePrevious,
    /// CLAIM_DELEG_CUR_FH (5).
    DelegateCurrentByHandle,
    /// CLAIM_DELEG_PREV_FH (6).
    DelegatePreviousByHandle,
}

impl Spell for OtherClaim {
    ghost use Rattle.std.specs.Prelude.{None};
    ghost use Rattle.nfs_ops.specs.Forms.{other_claim};
    ghost use Rattle.nfs_ops.specs.UnsupportedViews.{other_claim_value};

    ghost form = { other_claim };

    ghost view = { other_claim_value };

    ghost normal = { None };

    fn write<A: Allocator>(self, writer: &mut Writer<A>) -> Result<(), Full> {
        match self {
            OtherClaim::Previous => (1u32, ()).write(writer),
            OtherClaim::DelegateCurrent => (2u32, ()).write(writer),
            OtherClaim::DelegatePrevious => (3u32, ()).write(writer),
            OtherClaim::DelegateCurrentByHandle => (5u32, ()).write(writer),
            OtherClaim::DelegatePreviousByHandle => (6u32, ()).write(writer),
        }
    }
}

impl<'a> Wire<'a> for OtherClaim {
    fn read(reader: &mut Reader<'a>) -> Result<Self, XdrFault> {
        let mut ahead = reader.fork();
        let claim = match ahead.u32()? {
            1 => OtherClaim::Previous,
            2 => OtherClaim::DelegateCurrent,
            3 => OtherClaim::DelegatePrevious,
            5 => OtherClaim::DelegateCurrentByHandle,
            6 => OtherClaim::DelegatePreviousByHandle,
            _ => return Err(XdrFault::BadChoice),
        };
        *reader = ahead;
        Ok(claim)
    }
}

/// The protection of a client's state (RFC 8881, section 18.35, `state_protect_how4`).
#[derive(Clone, Copy)]
pub(crate) enum Protection {
    /// SP4_MACH_CRED (1).
    Machine,
    /// SP4_SSV (2).
    Ssv,
}

impl Spell for Protection {
    ghost use Rattle.std.specs.Prelude.{None};
    ghost use Rattle.nfs_ops.specs.Forms.{protection};
    ghost use Rattle.nfs_ops.specs.UnsupportedViews.{protection_value};

    ghost form = { protection };

    ghost view = { protection_value };

    ghost normal = { None };

    fn write<A: Allocator>(self, writer: &mut Writer<A>) -> Result<(), Full> {
        match self {
            Protection::Machine => (1u32, ()).write(writer),
            Protection::Ssv => (2u32, ()).write(writer),
        }
    }
}

impl<'a> Wire<'a> for Protection {
    fn read(reader: &mut Reader<'a>) -> Result<Self, XdrFault> {
        let mut ahead = reader.fork();
        let protection = match ahead.u32()? {
            1 => Protection::Machine,
            2 => Protection::Ssv,
            _ => return Err(XdrFault::BadChoice),
        };
        *reader = ahead;
        Ok(protection)
    }
}

type OpenPrefix<'a, T> = (u32, (u32, (u32, (u64, (Opaque<'a, 1024>, T)))));

fn asks_exclusive(reader: &Reader<'_>) -> bool
    ensures { result ≡ is_ok (read_at open_exclusive reader.now) }
{
    let mut ahead = reader.fork();
    OpenPrefix::<(Always<1>, Exclusive)>::read(&mut ahead).is_ok()
}

fn asks_other_claim(reader: &Reader<'_>) -> bool
    ensures { result ≡ is_ok (read_at open_by_other_claim reader.now) }
{
    let mut ahead = reader.fork();
    OpenPrefix::<(OpenHow, OtherClaim)>::read(&mut ahead).is_ok()
}

/// Whether the arguments of an OPEN request exclusive creation, or have a claim of a reclaim or a delegation.
pub(crate) fn is_open_unsupported(reader: &Reader<'_>) -> bool
    ensures { result ≡ is_ok (read_at open_exclusive reader.now) || is_ok (read_at open_by_other_claim reader.now) }
{
    asks_exclusive(reader) || asks_other_claim(reader)
}

/// Whether the arguments of an EXCHANGE_ID request protection of the client's state.
pub(crate) fn is_exchange_id_unsupported(reader: &Reader<'_>) -> bool
    ensures { result ≡ is_ok (read_at exchange_id_protected reader.now) }
{
    let mut ahead = reader.fork();
    <([u8; 8], (Opaque<1024>, (u32, Protection)))>::read(&mut ahead).is_ok()
}
