//! Why a call on a stream failed. What is read and written is passed on, by the contracts of std's `Read` and `Write`.

use crate::shown::Shown;
use std::cell::Cell;
use std::io;
use std::io::{ErrorKind, Read, Seek, SeekFrom, Write};

/// The error of the last call on a stream, where that failed.
pub(crate) type Cause = Cell<Option<io::Error>>;

/// The error of the last call on each stream of a run, and of that for random bytes.
#[derive(Drop)]
pub(crate) struct Causes {
    /// Of what is read.
    pub input: Cause,
    /// Of standard output.
    pub output: Cause,
    /// Of the image that is written.
    pub image: Cause,
    /// Of the system's random bytes.
    pub random: Cause,
    /// Whether what is read is standard input.
    pub is_standard: Cell<bool>,
}

impl Causes {
    /// No call failed.
    pub fn new() -> Causes {
        Causes {
            input: Cell::new(None),
            output: Cell::new(None),
            image: Cell::new(None),
            random: Cell::new(None),
            is_standard: Cell::new(false),
        }
    }

    /// Tells on standard error which stream failed, and why. What is read has this name, unless it is standard input, and so has
    /// the image. Answers whether one failed.
    pub fn tell(&self, rt: &HostRuntime, input: &str, image: &str) -> bool {
        let input = if self.is_standard.get() {
            "standard input"
        } else {
            input
        };
        tell_cause(rt, input, &self.input)
            || tell_cause(rt, image, &self.image)
            || tell_cause(rt, "standard output", &self.output)
            || tell_cause(rt, "random bytes", &self.random)
    }
}

/// Keeps the error of a call, or that it has none.
pub(crate) fn keep<A>(cause: &Cause, answer: &io::Result<A>) {
    match answer {
        Ok(_) => cause.set(None),
        Err(error) => cause.set(Some(*error)),
    }
}

/// Tells on standard error why a call on the stream of this name failed, where one did. Answers whether one did.
fn tell_cause(rt: &HostRuntime, name: &str, cause: &Cause) -> bool {
    let name = Shown(name);
    match cause.get() {
        Some(error) if error.kind() == ErrorKind::WouldBlock => {
            let _ = eprintln!(rt; "tlsf: {name} is non-blocking, and has to wait");
            true
        }
        Some(error) => {
            let _ = eprintln!(rt; "tlsf: {name}: {error}");
            true
        }
        None => false,
    }
}

/// A reader or writer whose last error is kept.
#[derive(Drop)]
pub(crate) struct Noted<'a, T> {
    cause: &'a Cause,
    stream: T,
}

impl<'a, T> Noted<'a, T> {
    /// The stream, with where its last error is kept.
    pub fn new(cause: &'a Cause, stream: T) -> Noted<'a, T> {
        Noted { cause, stream }
    }
}

impl<R: Read> Read for Noted<'_, R> {
    ghost remaining = { λ noted. R.remaining noted.stream };

    fn read(&mut self, buf: &mut [u8]) -> io::Result<usize> {
        let answer = self.stream.read(buf);
        keep(self.cause, &answer);
        answer
    }
}

impl<R: Seek> Seek for Noted<'_, R> {
    ghost stream_position = { λ noted. R.stream_position noted.stream };

    ghost stream_bytes = { λ noted. R.stream_bytes noted.stream };

    fn seek(&mut self, to: SeekFrom) -> io::Result<u64> {
        let answer = self.stream.seek(to);
        keep(self.cause, &answer);
        answer
    }
}

impl<W: Write> Write for Noted<'_, W> {
    ghost contents = { λ noted. W.contents noted.stream };

    fn write(&mut self, buf: &[u8]) -> io::Result<usize> {
        let answer = self.stream.write(buf);
        match &answer {
            Ok(0) if !buf.is_empty() => {
                self.cause.set(Some(io::Error::from(ErrorKind::WriteZero)));
            }
            _ => keep(self.cause, &answer),
        }
        answer
    }

    fn flush(&mut self) -> io::Result<()> {
        let answer = self.stream.flush();
        keep(self.cause, &answer);
        answer
    }
}
