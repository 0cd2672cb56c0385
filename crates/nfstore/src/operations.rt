//! The operations of a call, for people.
use crate::escaped::write_name;
use crate::paths::Paths;
use nfs_ops::{CreateType, Op, OpenArgs, OpenClaim, OpenHow, next_op};
use nfs_types::Handle;
use node_tree::Tree;
use std::io;
use std::io::Write;
use xdr_wire::{Opaque, Reader, Wire};

/// The tag, the minor version and the number of operations of a COMPOUND (RFC 8881, section 16.2).
type Head<'a> = (Opaque<'a, 0xffff_ffff>, (u32, u32));

/// Writes the name of an operation, or its number.
fn write_operation<W: Write>(out: &mut W, op: &Op<'_>) -> io::Result<()> {
    match op.kind() {
        Some(kind) => out.write_all(kind.name()),
        None => {
            let number = op.number();
            write!(out, "operation {number}")
        }
    }
}

/// Writes a name after a space.
fn write_after<W: Write>(out: &mut W, name: &[u8]) -> io::Result<()> {
    out.write_all(b" ")?;
    write_name(out, name)
}

/// The word for the type of object that is created.
fn word_of(kind: &CreateType<'_>) -> &'static str {
    match kind {
        CreateType::Directory => "directory",
        CreateType::Link(_) => "link",
        _ => "other",
    }
}

/// Writes the file that is opened, and how.
fn write_open<W: Write>(out: &mut W, args: &OpenArgs<'_>) -> io::Result<()> {
    if let OpenClaim::ByName(name) = &args.claim {
        write_after(out, name.bytes)?;
    }
    match &args.how {
        OpenHow::NoCreate => Ok(()),
        OpenHow::Unchecked(_) => out.write_all(b" to create it"),
        OpenHow::Guarded(_) => out.write_all(b" to create it anew"),
    }
}

/// Writes the path of a filehandle.
fn write_handle<W: Write>(
    out: &mut W,
    paths: &mut Paths,
    tree: &Tree,
    handle: &Handle<'_>,
) -> io::Result<()> {
    match handle.object() {
        Ok(number) => {
            out.write_all(b" ")?;
            paths.write(out, tree, number)
        }
        Err(_) => out.write_all(b" of no object"),
    }
}

/// Writes the names of an operation, and its other arguments.
fn write_arguments<W: Write>(out: &mut W, op: &Op<'_>) -> io::Result<()> {
    match op {
        Op::Lookup(args) => write_after(out, args.name.bytes),
        Op::Remove(args) => write_after(out, args.name.bytes),
        Op::Link(args) => write_after(out, args.name.bytes),
        Op::Rename(args) => {
            write_after(out, args.old.bytes)?;
            out.write_all(b" to")?;
            write_after(out, args.new.bytes)
        }
        Op::Create(args) => {
            write!(out, " {}", word_of(&args.kind))?;
            write_after(out, args.name.bytes)
        }
        Op::Open(args) => write_open(out, args),
        Op::Write(args) => write!(out, " {} bytes at {}", args.data.bytes.len(), args.offset),
        Op::Read(args) => write!(out, " {} bytes at {}", args.count, args.offset),
        Op::CreateSession(args) => write!(out, " of client {}", args.client),
        Op::DestroyClientId(args) => write!(out, " {}", args.client),
        _ => Ok(()),
    }
}

/// Writes an operation.
fn write_op<W: Write>(out: &mut W, paths: &mut Paths, tree: &Tree, op: &Op<'_>) -> io::Result<()> {
    out.write_all(b" ")?;
    write_operation(out, op)?;
    match op {
        Op::PutFh(args) => write_handle(out, paths, tree, &args.handle),
        _ => write_arguments(out, op),
    }
}

/// Writes the operations of a COMPOUND, each after a space. Objects have their paths in this tree.
pub(crate) fn write_operations<W: Write>(
    out: &mut W,
    paths: &mut Paths,
    tree: &Tree,
    arguments: &[u8],
) -> io::Result<()> {
    let mut reader = Reader::new(arguments);
    let Ok(head) = <Head<'_>>::read(&mut reader) else {
        return Ok(());
    };
    let (_tag, (_version, count)) = head;
    for _position in 0..count {
        let op = next_op(&mut reader);
        write_op(out, paths, tree, &op)?;
        if matches!(op, Op::Bad(_)) {
            break;
        }
    }
    Ok(())
}
