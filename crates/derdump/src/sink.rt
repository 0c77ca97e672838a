//! A writer that records whether it failed, and whether it is flushed.
ghost use Rattle.std.specs.Prelude.{◌≡◌, ◌≢◌, ◌↔◌, ◌⊎◌, IsTrue, IsErr, IsOk, false};
ghost use Rattle.std.specs.IoError.{error_kind};
ghost use Rattle.std.specs.Io.{WritesAtMost};
ghost use Rattle.std.specs.Io.KnownBytes.{Keeps, WriteAppends};
ghost use Rattle.derdump.specs.Sinks.{IsFailedWrite, has_failed, is_flushed, octets_of};

use std::io;
use std::io::{ErrorKind, Write};

/// A writer, and whether a write or a flush of it failed: it returned an error, or took none of the octets. An
/// interrupted write didn't fail, since it is tried again. The writer is flushed if a flush succeeded and no write came
/// after it.
#[derive(Drop)]
pub struct Sink<W> {
    inner: W,
    failed: bool,
    flushed: bool,
}

impl<W: Write> Sink<W> {
    /// A writer over this one. Nothing has failed, and nothing is left to flush.
    pub fn new(inner: W) -> Sink<W>
        ensures clean { has_failed result ≡ false }
        ensures octets { octets_of W.contents result ≡ W.contents inner }
    {
        Sink {
            inner,
            failed: false,
            flushed: true,
        }
    }

    /// Whether a write or a flush failed.
    pub fn has_failed(&self) -> bool
        ensures { result ≡ has_failed self.now }
    {
        self.failed
    }
}

impl<W: Write> Write for Sink<W> {
    ghost contents = { octets_of W.contents };

    fn write(&mut self, octets: &[u8]) -> io::Result<usize>
        ensures bound { WritesAtMost result octets.now }
        ensures bytes { WriteAppends (octets_of W.contents self.old) (octets_of W.contents self.new) result octets.now }
        ensures failed { IsTrue (has_failed self.new) ↔ (IsTrue (has_failed self.old)
            ⊎ IsFailedWrite (λ e. error_kind e ≢ ErrorKind.Interrupted) result octets.now) }
        ensures unflushed { is_flushed self.new ≡ false }
    {
        let taken = self.inner.write(octets);
        self.failed |= is_failed_write(&taken, octets);
        self.flushed = false;
        taken
    }

    fn flush(&mut self) -> io::Result<()>
        ensures bytes { Keeps (octets_of W.contents self.old) (octets_of W.contents self.new) }
        ensures failed { IsTrue (has_failed self.new) ↔ (IsTrue (has_failed self.old) ⊎ IsErr result) }
        ensures flushed { IsTrue (is_flushed self.new) ↔ IsOk result }
    {
        let flushed = self.inner.flush();
        self.failed |= flushed.is_err();
        self.flushed = flushed.is_ok();
        flushed
    }
}

/// Whether a write of these octets failed.
fn is_failed_write(taken: &io::Result<usize>, octets: &[u8]) -> bool
    ensures { IsTrue result ↔ IsFailedWrite (λ e. error_kind e ≢ ErrorKind.Interrupted) taken.now octets.now }
{
    match taken {
        Ok(n) => *n == 0 && !octets.is_empty(),
        Err(e) => e.kind() != ErrorKind::Interrupted,
    }
}
