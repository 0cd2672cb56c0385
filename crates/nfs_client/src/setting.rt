//! Attributes that are set (RFC 8881, section 18.30).
ghost use Rattle.std.specs.Prelude.{◌≡◌, ◌∷◌, ◌++◌, [], List, IfOk, OnOk};
ghost use Rattle.nfs_types.specs.ClientViews.{client_value};
ghost use Rattle.nfs_types.specs.Views.{stateid_value};
ghost use Rattle.nfs_ops.specs.OpViews.{op_view};
ghost use Rattle.nfs_ops.specs.Operations.{Operation};
ghost use Rattle.nfs_client.specs.Requests.{Asks, PutGives};
ghost use Rattle.nfs_client.specs.Setting.{ValuesGive, set_by, set_under, set_size, with_size};

use crate::fault::ToolFault;
use crate::request::{Request, sendable};
use nfs_ops::{Op, SetAttrArgs};
use nfs_types::{Attributes, ClientAttributes, StateId, write_given};
use rpc_record::RECORD_LIMIT;
use std::alloc::Allocator;
use xdr_wire::{Full, Writer};

/// The values of these attributes, one after the other. `TooLarge`: they have more bytes than a
/// record.
pub(crate) fn values_of<A: Allocator>(
    alloc: A,
    given: &ClientAttributes<'_>,
) -> Result<Writer<A>, ToolFault>
    ensures { ValuesGive (λ w. w.bytes) (client_value given.now) result }
{
    let mut values = Writer::new(alloc, RECORD_LIMIT)?;
    match write_given(given, &mut values) {
        Ok(()) => Ok(values),
        Err(Full) => Err(ToolFault::TooLarge),
    }
}

/// SETATTR of these attributes by these values, by a stateid.
fn setting_under<'a>(
    stateid: StateId,
    given: &ClientAttributes<'_>,
    values: &'a [u8],
) -> Result<Op<'a>, ToolFault>
    ensures asks { IfOk result (λ op. op_view op ≡
        set_under (stateid_value stateid) (client_value given.now) values.entry.now) }
    ensures memory { PutGives result }
{
    let values = sendable(values)?;
    let set = given.set();
    let attributes = Attributes { set, values };
    Ok(Op::SetAttr(SetAttrArgs {
        stateid,
        attributes,
    }))
}

/// SETATTR of these attributes by these values, without an open.
pub(crate) fn setting<'a>(
    given: &ClientAttributes<'_>,
    values: &'a [u8],
) -> Result<Op<'a>, ToolFault>
    ensures asks { IfOk result (λ op. op_view op ≡ set_by (client_value given.now) values.entry.now) }
    ensures memory { PutGives result }
{
    setting_under(StateId::anonymous(), given, values)
}

/// The size alone, if any.
pub(crate) fn with_size(size: Option<u64>) -> ClientAttributes<'static>
    ensures { client_value result ≡ with_size size }
{
    ClientAttributes {
        kind: None,
        size,
        error: None,
        entries: None,
        mode: None,
        owner: None,
        group: None,
        access: None,
        modify: None,
        dacl: None,
        sacl: None,
    }
}

impl<A: Allocator + Copy> Request<A> {
    /// SETATTR of the size by the stateid of an open.
    pub(crate) fn put_size(
        &mut self,
        alloc: A,
        stateid: StateId,
        size: u64,
    ) -> Result<(), ToolFault>
        ensures asks { OnOk result ((ops : List Operation) → Asks self.old ops →
            Asks self.new (ops ++ set_size (stateid_value stateid) size ∷ [])) }
        ensures memory { PutGives result }
    {
        let given = with_size(Some(size));
        let values = values_of(alloc, &given)?;
        let op = setting_under(stateid, &given, values.bytes())?;
        self.put(op)
    }
}
