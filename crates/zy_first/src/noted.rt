//! Streams that note why a call has failed.
ghost use Rattle.std.specs.Prelude.{◌≡◌};

use std::io::{ErrorKind, Read, Write};
use std::{fmt, io};

/// The number by which the system says that a stream is not open for what is asked of it.
const NOT_OPEN: i32 = 9;

/// Why a call of a stream has failed.
#[derive(Clone, Copy, PartialEq, Eq)]
pub enum Cause {
    /// There is no such file.
    Missing,
    /// It may not be read.
    Forbidden,
    /// It is a directory.
    Directory,
    /// It is not open for what is asked of it.
    NotOpen,
    /// The reader of a pipe has closed it.
    Unread,
    /// Something else.
    Other,
}

impl Cause {
    /// The cause that an error tells of.
    fn of(error: &io::Error) -> Cause {
        match error.kind() {
            ErrorKind::NotFound | ErrorKind::NotADirectory => Cause::Missing,
            ErrorKind::PermissionDenied => Cause::Forbidden,
            ErrorKind::IsADirectory => Cause::Directory,
            ErrorKind::BrokenPipe => Cause::Unread,
            _ if error.raw_os_error() == Some(NOT_OPEN) => Cause::NotOpen,
            _ => Cause::Other,
        }
    }
}

/// What it says of standard input.
impl fmt::Display for Cause {
    fn fmt<W: fmt::Write>(&self, f: &mut fmt::Formatter<W>) -> fmt::Result {
        f.write_str(match self {
            Cause::Missing => "there is no such file",
            Cause::Forbidden => "there is no permission to read standard input",
            Cause::Directory => "standard input is a directory",
            Cause::NotOpen => "standard input is closed, or open for writing alone",
            Cause::Unread | Cause::Other => "standard input could not be read to its end",
        })
    }
}

/// A stream that notes why a call has failed.
#[derive(Drop)]
pub struct Noted<T> {
    stream: T,
    /// Why the last call that failed has failed; `Other` before one has.
    cause: Cause,
}

impl<T> Noted<T> {
    /// No call has failed yet.
    pub fn new(stream: T) -> Noted<T> {
        Noted {
            stream,
            cause: Cause::Other,
        }
    }

    /// Why the last call that failed has failed.
    pub fn cause(&self) -> Cause {
        self.cause
    }

    /// Notes why a call has failed, if it has.
    fn note<N>(&mut self, outcome: &io::Result<N>)
        ensures { self.new.stream ≡ self.old.stream }
    {
        if let Err(error) = outcome {
            self.cause = Cause::of(error);
        }
    }
}

impl<R: Read> Read for Noted<R> {
    ghost remaining = { λ s. R.remaining s.stream };

    fn read(&mut self, buffer: &mut [u8]) -> io::Result<usize> {
        let outcome = self.stream.read(buffer);
        self.note(&outcome);
        outcome
    }
}

impl<W: Write> Write for Noted<W> {
    ghost contents = { λ s. W.contents s.stream };

    fn write(&mut self, bytes: &[u8]) -> io::Result<usize> {
        let outcome = self.stream.write(bytes);
        self.note(&outcome);
        outcome
    }

    fn flush(&mut self) -> io::Result<()> {
        let outcome = self.stream.flush();
        self.note(&outcome);
        outcome
    }
}
