//! Calls as a client writes them (RFC 5531, section 9).
ghost use Rattle.std.specs.Prelude.{◌≡◌, ◌≤◌, ◌++◌, ℕ, List, Ok, Option, IfSome, IsTrue, length};
ghost use Rattle.xdr_wire.specs.Xdr.{Spells, HasSpelling};
ghost use Rattle.std.specs.List.Sorted.{IsStrictlyIncreasing};
ghost use Rattle.xdr_wire.specs.Buffer.{Puts};
ghost use Rattle.rpc_record.specs.Call.{authsys, asked};
ghost use Rattle.rpc_record.specs.Calling.{parms_of, call_message, call_of, call_bytes, call_len};
ghost use Rattle.rpc_record.specs.Identity.{is_member};

use crate::caller::Caller;
use crate::credential::Further;
use crate::reading::{AUTH_SYS, CALL, COMPOUND, NFS_PROGRAM, NFS_VERSION, NULL, RPC_VERSION};
use std::alloc::Allocator;
use xdr_wire::{Full, Writer};

/// The largest number of bytes of a call's header: a COMPOUND by a caller in 17 groups. The arguments follow the
/// header.
pub const CALL_HEADER_LIMIT: usize = 124;

/// A credential or a verifier of AUTH_NONE, which is empty: flavor and length.
const AUTH_NONE: [u32; 2] = [0, 0];

/// The number of bytes of an AUTH_SYS credential's data without the further groups.
const FIXED_PARMS: usize = 20;

/// Writes the header of a COMPOUND.
fn put_compound<A: Allocator>(xid: u32, caller: &Caller, writer: &mut Writer<A>) -> Result<(), Full>
    requires { IsTrue (is_member caller.now caller.now.gid) }
    ensures fits { HasSpelling authsys (parms_of caller.now) }
    ensures rising { IsStrictlyIncreasing caller.now.groups }
    ensures puts { Puts writer.old writer.new (call_bytes xid (Option.Some caller.now)) result }
{
    let (uid, gid) = (caller.uid(), caller.gid());
    let further = Further::of(caller);
    let groups = further.as_slice();
    let parms = FIXED_PARMS + 4 * groups.len();
    // the six words of the call, flavor and length, the data, and the verifier
    if writer.room() < 24 + 8 + parms + 8 {
        return Err(Full);
    }
    let count = groups.len() as u32;
    writer
        .put_words(&[xid, CALL, RPC_VERSION, NFS_PROGRAM, NFS_VERSION, COMPOUND])
        .unwrap();
    writer
        .put_words(&[AUTH_SYS, parms as u32, 0, 0, uid, gid, count])
        .unwrap();
    writer.put_words(groups).unwrap();
    writer.put_words(&AUTH_NONE)
}

/// Writes the header of a call of this transaction, all of it or nothing. `Full`: exactly if the room is less than it
/// takes. Without a caller it calls NULL under AUTH_NONE, with one COMPOUND under AUTH_SYS. The caller's groups must
/// include its gid, as those of `Caller::new` do. The header, followed by the arguments, is read as the same call.
pub fn write_call<A: Allocator>(
    xid: u32,
    caller: Option<Caller>,
    writer: &mut Writer<A>,
) -> Result<(), Full>
    requires { IfSome caller (λ c. IsTrue (is_member c c.gid)) }
    ensures spelled { Spells call_message (call_of xid caller) (call_bytes xid caller) }
    ensures len { length (call_bytes xid caller) ≡ call_len caller }
    ensures limit { call_len caller ≤ CALL_HEADER_LIMIT }
    ensures read_again { (arguments : List ℕ)
        → asked (call_bytes xid caller ++ arguments)
        ≡ Ok (record { xid = xid; arguments = arguments; caller = caller }) }
    ensures puts { Puts writer.old writer.new (call_bytes xid caller) result }
{
    match caller {
        None => writer.put_words(&[
            xid,
            CALL,
            RPC_VERSION,
            NFS_PROGRAM,
            NFS_VERSION,
            NULL,
            0,
            0,
            0,
            0,
        ]),
        Some(caller) => put_compound(xid, &caller, writer),
    }
}
