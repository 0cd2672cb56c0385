//! The data of an AUTH_SYS credential (RFC 5531, appendix A).
ghost use Rattle.std.specs.Prelude.{◌≡◌, ◌≤◌, ◌<◌, ◌++◌, ◌∷◌, [], length, IsTrue};
ghost use Rattle.std.specs.List.Sorted.{IsStrictlyIncreasing};
ghost use Rattle.xdr_wire.specs.Xdr.{uint, array};
ghost use Rattle.xdr_wire.specs.Reading.{Gives, read_at};
ghost use Rattle.rpc_record.specs.Call.{authsys, caller_of};
ghost use Rattle.rpc_record.specs.Calling.{further_groups};
ghost use Rattle.rpc_record.specs.Identity.{is_member};

use crate::caller::{Caller, MOST_FURTHER};
use std::marker::Model;
use xdr_wire::{Reader, XdrFault};

/// The largest number of bytes of a machine name.
const MOST_NAME: usize = 255;

/// The further gids of a credential, at most 16, as sent.
#[derive(Drop)]
pub(crate) struct Further {
    row: [u32; MOST_FURTHER],
    len: usize,
}

impl Model for Further {
    ghost use Rattle.std.specs.Prelude.{List, ℕ, take, ◌≤◌};

    ghost Value = { List ℕ };

    ghost view = { λ g. take g.len g.row };

    ghost invariant = { λ g. g.len ≤ 16 };
}

impl Further {
    fn new() -> Self
        ensures { result ≡ [] }
    {
        Further {
            row: [0; MOST_FURTHER],
            len: 0,
        }
    }

    fn push(&mut self, group: u32)
        requires { length self.old < MOST_FURTHER }
        ensures { self.new ≡ self.old ++ group ∷ [] }
    {
        self.row[self.len] = group;
        self.len += 1;
    }

    pub(crate) fn as_slice(&self) -> &[u32]
        ensures groups { result.now ≡ self.now }
        ensures few { length self.now ≤ MOST_FURTHER }
    {
        &self.row[..self.len]
    }

    /// The groups of a caller without its gid.
    pub(crate) fn of(caller: &Caller) -> Further
        requires { IsTrue (is_member caller.now caller.now.gid) }
        ensures groups { result ≡ further_groups caller.now }
        ensures rising { IsStrictlyIncreasing caller.now.groups }
    {
        let mut further = Further::new();
        for group in caller.groups() {
            if *group != caller.gid() {
                further.push(*group);
            }
        }
        further
    }

    fn read(reader: &mut Reader<'_>) -> Result<Further, XdrFault>
        ensures { Gives (λ g. g) reader.old reader.new result (read_at (array 16 uint) reader.old) }
    {
        let mut ahead = reader.fork();
        let count = ahead.count(MOST_FURTHER)?;
        let mut groups = Further::new();
        for _ in 0..count {
            let group = ahead.u32()?;
            groups.push(group);
        }
        *reader = ahead;
        Ok(groups)
    }
}

/// The caller of an AUTH_SYS credential, by all of its data (appendix A). The stamp and the machine name may be any
/// bytes.
pub(crate) fn read_caller(body: &[u8]) -> Option<Caller>
    ensures { result ≡ caller_of (read_at authsys body.now) }
{
    let mut reader = Reader::new(body);
    let _stamp = reader.u32().ok()?;
    let _machine_name = reader.opaque(MOST_NAME).ok()?;
    let uid = reader.u32().ok()?;
    let gid = reader.u32().ok()?;
    let further = Further::read(&mut reader).ok()?;
    if !reader.is_empty() {
        return None;
    }
    Some(Caller::new(uid, gid, further.as_slice()))
}
