//! Tests of the bytes on the wire: `xdr_wire`, `rpc_record`, `nfs_types` and `nfs_ops`.
#![tactic(auto)]

#[cfg(test)]
mod given;
#[cfg(test)]
mod operations;
#[cfg(test)]
mod records;
#[cfg(test)]
mod types;
#[cfg(test)]
mod xdr;
