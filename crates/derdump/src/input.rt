//! The input, read whole.
ghost use Rattle.std.specs.Prelude.{◌≡◌, ◌≤◌, ◌<◌, vec_len, IfOk, OnOk, IfErr, IfSome};
ghost use Rattle.std.specs.Io.KnownBytes.{IsAtEnd};
ghost use Rattle.derdump.specs.Sources.{GaveOctets, IsFresh, IsInputFault, limit, octets_left, octets_taken};
ghost use Rattle.derdump.specs.Sources.{standing_of};

use crate::fault::InputFault;
use crate::source::{Source, Standing};
use std::alloc::Global;
use std::io::Read;

/// The most octets that are read.
const MAX_INPUT: usize = 67108864;

/// Reads all octets of the reader. No read is tried again: an error of any kind ends it.
pub fn read_input<R: Read>(alloc: Global, reader: &mut Source<R>) -> Result<Vec<u8>, InputFault>
    requires { IsFresh reader.old }
    ensures whole { IfOk result (λ v. IfSome (octets_left R.remaining reader.old) (λ xs. v.items ≡ xs)) }
    ensures ended { OnOk result (standing_of reader.new ≡ Standing.Ended) }
    ensures end { OnOk result (IsAtEnd (octets_left R.remaining reader.new)) }
    ensures bound { IfOk result (λ v. vec_len v ≤ limit) }
    ensures counted { IfOk result (λ v. vec_len v ≡ octets_taken reader.new) }
    ensures fault { IfErr result (IsInputFault reader.new) }
    ensures taken { GaveOctets (octets_left R.remaining reader.old) (octets_left R.remaining reader.new)
        (octets_taken reader.new) }
{
    let mut input = Vec::new(alloc);
    let mut chunk = [0; 16384];
    'chunks: loop {
        let Some(n) = reader.read(&mut chunk) else {
            return Err(InputFault::ReadFailed);
        };
        if n == 0 {
            return Ok(input);
        }
        if n > MAX_INPUT - input.len() {
            return Err(InputFault::TooLarge);
        }
        if input.extend_from_slice(&chunk[..n]).is_err() {
            return Err(InputFault::OutOfMemory);
        }
    }
}
