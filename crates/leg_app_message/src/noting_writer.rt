//! A writer that notes why writing failed.

ghost use Rattle.std.specs.Prelude.{◌≡◌, None};

use std::io;
use std::io::Write;

/// A writer that passes on what it is given, and notes why a write failed.
#[derive(Drop)]
pub struct NotingWriter<W: Write + Drop> {
    writer: W,
    error: Option<io::Error>,
}

impl<W: Write + Drop> NotingWriter<W> {
    /// A writer that passes on to this one.
    pub fn new(writer: W) -> NotingWriter<W>
        ensures writer { result.writer ≡ writer }
        ensures error { result.error ≡ None }
    {
        NotingWriter {
            writer,
            error: None,
        }
    }

    /// Why the last write that failed did so.
    pub fn error(&self) -> Option<io::Error>
        ensures { result ≡ self.now.error }
    {
        self.error
    }
}

impl<W: Write + Drop> Write for NotingWriter<W> {
    ghost contents = { λ w. W.contents w.writer };

    fn write(&mut self, buf: &[u8]) -> io::Result<usize> {
        match self.writer.write(buf) {
            Ok(taken) => Ok(taken),
            Err(error) => {
                self.error = Some(error);
                Err(error)
            }
        }
    }

    fn flush(&mut self) -> io::Result<()> {
        self.writer.flush()
    }
}
