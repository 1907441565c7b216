//! What a command is given to read.
ghost use Rattle.std.specs.Prelude.{◌≡◌, ◌≤◌, ◌==◌, ◌∷◌, [], None, length, take, if◌then◌else◌};
ghost use Rattle.std.specs.Io.{ReadsAtMost};
ghost use Rattle.std.specs.Io.KnownBytes.{ReadConsumes};
ghost use Rattle.zy_bench.specs.Given.{left_of};

use std::io;
use std::io::Read;
use zy_report::failure::Failure;

/// A file, standard input, or a file and below it standard input.
#[derive(Drop)]
pub struct Given<F, S> {
    /// The file; none if there is none, and none after its end if standard input follows.
    file: Option<F>,
    /// Standard input; none where a file alone is read.
    standard: Option<S>,
    /// How many line feeds the file has, and how many were put behind it.
    lines: usize,
    /// Why the last call that failed has failed.
    failure: Option<Failure>,
}

impl<F: Drop, S> Given<F, S> {
    /// A file, if there is one, followed by standard input, if that is read.
    pub fn new(file: Option<F>, standard: Option<S>) -> Given<F, S> {
        Given {
            file,
            standard,
            lines: 0,
            failure: None,
        }
    }

    /// How many of the lines that were read so far are above standard input.
    pub fn lines(&self) -> usize {
        self.lines
    }

    /// Why a call has failed, if one has.
    pub fn failure(&self) -> Option<Failure> {
        self.failure
    }
}

impl<F: Read + Drop, S: Read> Given<F, S> {
    /// Reads the next bytes. If standard input follows the file, a line feed ends the file.
    fn next(&mut self, buffer: &mut [u8]) -> io::Result<usize>
        ensures bound { ReadsAtMost result buffer.new }
        ensures bytes { ReadConsumes (left_of F.remaining S.remaining self.old.file self.old.standard)
            (left_of F.remaining S.remaining self.new.file self.new.standard) result buffer.new }
    {
        let Some(file) = &mut self.file else {
            return self.next_of_standard(buffer);
        };
        let count = file.read(buffer)?;
        if count == 0 && !buffer.is_empty() && self.standard.is_some() {
            self.file = None;
            self.lines = self.lines.saturating_add(1);
            return Ok(line_feed(buffer));
        }
        self.lines = self.lines.saturating_add(line_feeds(buffer, count));
        Ok(count)
    }

    /// Reads the next bytes of standard input, where it is read.
    fn next_of_standard(&mut self, buffer: &mut [u8]) -> io::Result<usize>
        requires { self.old.file ≡ None }
        ensures bound { ReadsAtMost result buffer.new }
        ensures bytes { ReadConsumes (left_of F.remaining S.remaining self.old.file self.old.standard)
            (left_of F.remaining S.remaining self.new.file self.new.standard) result buffer.new }
    {
        match &mut self.standard {
            Some(standard) => standard.read(buffer),
            None => Ok(0),
        }
    }
}

/// A line feed, where there is room for one. It returns how many bytes that are.
fn line_feed(buffer: &mut [u8]) -> usize
    ensures bound { result ≤ length buffer.new }
    ensures bytes { take result buffer.new ≡ (if length buffer.old == 0 then [] else 10 ∷ []) }
{
    let Some(first) = buffer.first_mut() else {
        return 0;
    };
    *first = b'\n';
    1
}

/// How many of the first bytes are line feeds.
fn line_feeds(bytes: &[u8], count: usize) -> usize {
    let front = bytes.get(..count).unwrap_or(&[]);
    front.iter().filter(|byte| **byte == b'\n').count()
}

impl<F: Read + Drop, S: Read> Read for Given<F, S> {
    ghost remaining = { λ s. left_of F.remaining S.remaining s.file s.standard };

    fn read(&mut self, buffer: &mut [u8]) -> io::Result<usize> {
        let outcome = self.next(buffer);
        if let Err(error) = &outcome {
            let is_file = self.file.is_some();
            self.failure = Some(Failure::of(error, is_file));
        }
        outcome
    }
}
