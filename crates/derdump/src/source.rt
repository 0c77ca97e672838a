//! A reader that records its last result.
ghost use Rattle.std.specs.Prelude.{◌≡◌, ◌+◌, ◌<◌, ◌≤◌, ◌^◌, length, take, IfSome, IfNone, MatchOption};
ghost use Rattle.std.specs.Io.KnownBytes.{Consumes, IsAtEnd, Keeps};
ghost use Rattle.derdump.specs.Sources.{IsFresh, octets_left, octets_taken, standing_of};

use std::io::Read;

/// The last result of a reader.
#[derive(Clone, Copy, Debug, PartialEq)]
pub enum Standing {
    /// Octets, or nothing was read yet.
    Open,
    /// The end.
    Ended,
    /// An error of any kind.
    Failed,
}

/// A reader, how many octets it gave, and its last result.
#[derive(Drop)]
pub struct Source<R> {
    inner: R,
    taken: u64,
    standing: Standing,
}

impl<R: Read> Source<R> {
    /// A reader over this one, which wasn't read yet.
    pub fn new(inner: R) -> Source<R>
        ensures fresh { IsFresh result }
        ensures octets { octets_left R.remaining result ≡ R.remaining inner }
    {
        Source {
            inner,
            taken: 0,
            standing: Standing::Open,
        }
    }

    /// Reads once. Returns how many octets were read, 0 at the end, and None on an error. After the end or an error
    /// there is no other read.
    pub fn read(&mut self, buffer: &mut [u8]) -> Option<usize>
        requires open { standing_of self.old ≡ Standing.Open }
        requires room { 0 < length buffer.old }
        requires count { octets_taken self.old + length buffer.old < 2 ^ 64 }
        ensures bound { IfSome result (λ n. n ≤ length buffer.new) }
        ensures more { IfSome result (λ n. 0 < n → standing_of self.new ≡ Standing.Open) }
        ensures ended { IfSome result (λ n. n ≡ 0 → standing_of self.new ≡ Standing.Ended) }
        ensures failed { IfNone result (standing_of self.new ≡ Standing.Failed) }
        ensures taken { IfSome result (λ n. octets_taken self.new ≡ octets_taken self.old + n) }
        ensures untaken { IfNone result (octets_taken self.new ≡ octets_taken self.old) }
        ensures octets { MatchOption result
            (Keeps (octets_left R.remaining self.old) (octets_left R.remaining self.new))
            (λ n. Consumes (octets_left R.remaining self.old) (octets_left R.remaining self.new) (take n buffer.new)) }
        ensures end { IfSome result (λ n. n ≡ 0 → IsAtEnd (octets_left R.remaining self.new)) }
    {
        match self.inner.read(buffer) {
            Ok(0) => {
                self.standing = Standing::Ended;
                Some(0)
            }
            Ok(n) => {
                self.taken += n as u64;
                Some(n)
            }
            Err(_) => {
                self.standing = Standing::Failed;
                None
            }
        }
    }
}
