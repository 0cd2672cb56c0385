//! A file takes the descriptor of standard input, output or error if that is closed.
use std::fs::{File, OpenOptions};
use std::os::fd::AsRawFd;

/// The file that discards the bytes written to it.
const NOWHERE: &str = "/dev/null";

/// The descriptor of standard output.
const OUTPUT: i32 = 1;

/// The descriptors of standard input, output and error are below this one.
const FIRST_DESCRIPTOR: i32 = 3;

/// The lowest free descriptor.
fn free_descriptor(rt: &HostRuntime) -> Option<i32> {
    let file = OpenOptions::new().write(true).open(rt, NOWHERE).ok()?;
    Some(file.as_raw_fd())
}

/// Opens a file that takes the first closed descriptor of standard input, output and error. Else
/// the connection would have this descriptor, and would get the output meant for it. `None`: none
/// is closed.
///
/// Reading standard input fails then, as does writing standard output. Output to standard error is
/// lost.
pub(crate) fn open_stand_in(rt: &HostRuntime) -> Option<File> {
    let descriptor = free_descriptor(rt)?;
    if descriptor >= FIRST_DESCRIPTOR {
        return None;
    }
    let is_output = descriptor == OUTPUT;
    OpenOptions::new()
        .read(is_output)
        .write(!is_output)
        .open(rt, NOWHERE)
        .ok()
}
