//! A writer that counts failed writes, and `send`, which writes all octets through it.
ghost use Rattle.std.specs.Prelude.{◌≡◌};
ghost use Rattle.std.specs.Io.{WritesAtMost};
ghost use Rattle.std.specs.Io.KnownBytes.{WriteAppends};
ghost use Rattle.der_object.specs.Writing.{inner_of, faults_of, faults_behind, written, Wrote};

use der_base::error::GenError;
use std::io;
use std::io::{ErrorKind, Write};

/// A writer that passes octets on to another one, and counts the writes that fail.
#[derive(Drop)]
pub struct FaultWriter<W> {
    inner: W,
    faults: u128,
}

impl<W> FaultWriter<W> {
    /// A writer over this one. No write has failed yet.
    pub fn new(inner: W) -> FaultWriter<W>
        ensures inner { inner_of result ≡ inner }
        ensures none { faults_of result ≡ 0 }
    {
        FaultWriter { inner, faults: 0 }
    }

    /// The inner writer, by value.
    pub fn into_inner(self) -> W
        ensures { result ≡ inner_of self }
    {
        let FaultWriter { inner, faults: _ } = self;
        inner
    }

    /// The number of writes that failed. It stops at `u128::MAX`.
    pub fn faults(&self) -> u128
        ensures { result ≡ faults_of self.now }
    {
        self.faults
    }
}

impl<W: Write> FaultWriter<W> {
    /// Passes octets on, and returns how many were written. A write fails if it returns an error, or writes none of one
    /// or more octets.
    pub fn write(&mut self, octets: &[u8]) -> io::Result<usize>
        ensures bound { WritesAtMost result octets.now }
        ensures octets { WriteAppends (written W.contents self.old) (written W.contents self.new) result octets.now }
        ensures faults { faults_of self.new ≡ faults_behind (faults_of self.old) result octets.now }
    {
        let taken = self.inner.write(octets);
        let failed = match &taken {
            Ok(n) => *n == 0 && !octets.is_empty(),
            Err(_) => true,
        };
        if failed {
            self.faults = self.faults.saturating_add(1);
        }
        taken
    }
}

/// Writes all octets, with further writes for what is left. It stops at the first write that fails, also if that was
/// interrupted.
pub fn send<W: Write>(w: &mut FaultWriter<W>, octets: &[u8]) -> Result<(), GenError>
    ensures { Wrote W.contents w.old w.new result octets.now }
{
    let mut at = 0;
    'writes: while at < octets.len() {
        match w.write(&octets[at..]) {
            Ok(0) => return Err(GenError::Io(ErrorKind::WriteZero)),
            Ok(n) => at += n,
            Err(e) => return Err(GenError::Io(e.kind())),
        }
    }
    Ok(())
}
