//! The outcome of a command, as a line: `= HEX`, the bytes of its answer; or `! NUMBER`, the number of its fault. For a
//! refusal the numbers of the operation and of the status follow.

use nfs_client::{Answer, ToolFault};
use nfs_types::Status;
use std::test::Fail;

/// Appends the line of an answer.
fn put_bytes(out: &mut String, bytes: &[u8]) -> Result<(), Fail> {
    let digits = hex::encode(*out.allocator(), bytes)?;
    out.push_str("= ")?;
    out.push_str(digits.as_str())?;
    out.push('\n')?;
    Ok(())
}

/// Appends the line of a refusal.
fn put_refusal(out: &mut String, operation: u32, status: Status) -> Result<(), Fail> {
    let (alloc, status) = (*out.allocator(), status.number());
    let line = format!(in alloc; "! 2 {operation} {status}\n")?;
    out.push_str(line.as_str())?;
    Ok(())
}

/// Appends the line of a fault.
fn put_fault(out: &mut String, fault: ToolFault) -> Result<(), Fail> {
    if let ToolFault::Refused(operation, status) = fault {
        return put_refusal(out, operation, status);
    }
    let (alloc, number) = (*out.allocator(), fault.number());
    let line = format!(in alloc; "! {number}\n")?;
    out.push_str(line.as_str())?;
    Ok(())
}

/// Appends the outcome of a command whose answer is a text.
pub fn put_answer(out: &mut String, outcome: Result<Answer, ToolFault>) -> Result<(), Fail> {
    match outcome {
        Ok(answer) => put_bytes(out, answer.as_bytes()),
        Err(fault) => put_fault(out, fault),
    }
}

/// Appends the outcome of a method that returns bytes.
pub fn put_given(out: &mut String, outcome: Result<Vec<u8>, ToolFault>) -> Result<(), Fail> {
    match outcome {
        Ok(bytes) => put_bytes(out, &bytes),
        Err(fault) => put_fault(out, fault),
    }
}

/// Appends the line of two sets of permissions.
fn put_numbers(out: &mut String, supported: u32, granted: u32) -> Result<(), Fail> {
    let alloc = *out.allocator();
    let line = format!(in alloc; "access {supported:08x} {granted:08x}\n")?;
    put_bytes(out, line.as_bytes())
}

/// Appends the outcome of a method that returns the supported permissions and the granted ones.
pub fn put_rights(out: &mut String, outcome: Result<(u32, u32), ToolFault>) -> Result<(), Fail> {
    match outcome {
        Ok((supported, granted)) => put_numbers(out, supported, granted),
        Err(fault) => put_fault(out, fault),
    }
}

/// Appends the outcome of a method that returns no value.
pub fn put_done(out: &mut String, outcome: Result<(), ToolFault>) -> Result<(), Fail> {
    match outcome {
        Ok(()) => put_bytes(out, b"ok\n"),
        Err(fault) => put_fault(out, fault),
    }
}
