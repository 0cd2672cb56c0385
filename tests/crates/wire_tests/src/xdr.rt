//! The tests of `xdr_wire`.

mod compound;
mod memory;
mod reader;
mod sequences;
mod writer;
