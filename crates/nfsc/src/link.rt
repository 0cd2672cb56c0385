//! The stream to the server, with a time limit for each reply.
use std::cell::Cell;
use std::io;
use std::io::{ErrorKind, Read, Write};
use std::net::TcpStream;
use std::rt::Clock;
use std::time::{Duration, Instant};

/// A stream to the server. A reply is late if it isn't complete within its time after the first
/// write of its call. A call that isn't sent within that time is late too.
#[derive(Drop)]
pub(crate) struct Link<'a, R> {
    rt: &'a R,
    stream: TcpStream,
    /// The time that a reply may take.
    patience: Duration,
    /// When the call was begun. `None`: no call was begun, or the clock can't be read.
    begun: Option<Instant>,
    /// Whether something was read after the last write. The next write then begins a call.
    is_answered: bool,
    /// Set if a reply is late.
    is_late: &'a Cell<bool>,
}

/// Whether a read or a write ended because its time was over.
fn is_over(error: &io::Error) -> bool {
    matches!(error.kind(), ErrorKind::WouldBlock | ErrorKind::TimedOut)
}

/// Whether a signal interrupted a read or a write, as when a stopped program continues.
fn is_broken_in_on(error: &io::Error) -> bool {
    matches!(error.kind(), ErrorKind::Interrupted)
}

impl<'a, R: Clock> Link<'a, R> {
    /// The link over a stream. The cell is set if a reply is late.
    pub(crate) fn new(
        rt: &'a R,
        stream: TcpStream,
        patience: Duration,
        is_late: &'a Cell<bool>,
    ) -> Self {
        Link {
            rt,
            stream,
            patience,
            begun: None,
            is_answered: true,
            is_late,
        }
    }

    /// The rest of the reply's time. It is all of it if the clock can't be read.
    fn left(&self) -> Duration {
        let Some(begun) = self.begun else {
            return self.patience;
        };
        match Instant::now(self.rt) {
            Ok(now) => self.patience.saturating_sub(now.duration_since(begun)),
            Err(_) => self.patience,
        }
    }

    /// The rest of the reply's time, at least a millisecond, or the error of a late reply.
    fn wait(&self) -> io::Result<Duration> {
        let left = self.left();
        if left.as_millis() == 0 {
            self.is_late.set(true);
            return Err(io::Error::from(ErrorKind::TimedOut));
        }
        Ok(left)
    }

    /// Notes a late reply by the error of its read or its write.
    fn note(&self, error: &io::Error) {
        if is_over(error) {
            self.is_late.set(true);
        }
    }
}

impl<R: Clock> Read for Link<'_, R> {
    fn read(&mut self, buf: &mut [u8]) -> io::Result<usize> {
        self.is_answered = true;
        for _try in 0..u64::MAX {
            let left = self.wait()?;
            let _ = self.stream.set_read_timeout(Some(left));
            match self.stream.read(buf) {
                Ok(n) => return Ok(n),
                Err(error) if is_broken_in_on(&error) => {}
                Err(error) => {
                    self.note(&error);
                    return Err(error);
                }
            }
        }
        Err(io::Error::from(ErrorKind::Interrupted))
    }
}

impl<R: Clock> Write for Link<'_, R> {
    fn write(&mut self, buf: &[u8]) -> io::Result<usize> {
        if self.is_answered {
            self.is_answered = false;
            self.begun = Instant::now(self.rt).ok();
        }
        for _try in 0..u64::MAX {
            let left = self.wait()?;
            let _ = self.stream.set_write_timeout(Some(left));
            match self.stream.write(buf) {
                Ok(n) => return Ok(n),
                Err(error) if is_broken_in_on(&error) => {}
                Err(error) => {
                    self.note(&error);
                    return Err(error);
                }
            }
        }
        Err(io::Error::from(ErrorKind::Interrupted))
    }

    fn flush(&mut self) -> io::Result<()> {
        self.stream.flush()
    }
}
