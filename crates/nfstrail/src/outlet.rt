//! Whether standard output still has a reader.
use mio::unix::SourceFd;
use mio::{Events, Interest, Poll, Token};
use std::alloc::Global;
use std::net::Net;
use std::time::Duration;

/// The descriptor of standard output.
const STANDARD_OUTPUT: i32 = 1;

/// A watch on standard output. Nothing is connected: `Net` is the handle that a `Poll` takes.
#[derive(Drop)]
pub(crate) struct Outlet {
    poll: Poll,
    events: Events<Global>,
}

impl Outlet {
    /// Watches standard output. `None`: the system can't watch it, as it can't watch a file.
    pub(crate) fn new(net: &impl Net, alloc: Global) -> Option<Self> {
        let poll = Poll::new(net).ok()?;
        let events = Events::with_capacity(alloc, 1).ok()?;
        let descriptor = STANDARD_OUTPUT;
        let mut source = SourceFd(&descriptor);
        // an error is reported whatever the interest, and standard output has no priority data
        poll.registry()
            .register(&mut source, Token(0), Interest::PRIORITY)
            .ok()?;
        Some(Outlet { poll, events })
    }

    /// Whether standard output has lost its reader since the last call, as a pipe whose other end was closed.
    pub(crate) fn is_closed(&mut self) -> bool {
        if self
            .poll
            .poll(&mut self.events, Some(Duration::ZERO))
            .is_err()
        {
            return false;
        }
        for event in &self.events {
            if event.is_error() || event.is_write_closed() {
                return true;
            }
        }
        false
    }
}
