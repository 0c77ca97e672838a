//! Octets in hexadecimal.
ghost use Rattle.std.specs.Prelude.{◌≡◌, ◌≤◌, ◌<◌, ◌*◌, ◌∷◌, length};
ghost use Rattle.der_base.specs.Pretty.{hex, hex_digit, hex_pair, spaced_hex};
ghost use Rattle.der_object.specs.Writing.{Wrote};
ghost use Rattle.der_values.specs.Octets.Room.{PutsBefore};

use crate::writer::{FaultWriter, send};
use der_base::error::GenError;
use der_values::octets::write_octets;
use std::io::Write;

/// The number of octets that are sent at once.
const MANY: usize = 64;

/// The number of characters for these octets, with a space before each.
const ROOM: usize = 192;

/// Sends octets in brackets, each as two hexadecimal digits, with spaces between them.
pub fn send_hex<W: Write>(w: &mut FaultWriter<W>, octets: &[u8]) -> Result<(), GenError>
    ensures { Wrote W.contents w.old w.new result (hex octets.now) }
{
    let Some((first, others)) = octets.split_first() else {
        return send(w, b"[]");
    };
    send(w, &[b'[', digit(*first / 16), digit(*first % 16)])?;
    send_spaced(w, others)?;
    send(w, b"]")
}

/// Sends octets, each after a space.
fn send_spaced<W: Write>(w: &mut FaultWriter<W>, octets: &[u8]) -> Result<(), GenError>
    ensures { Wrote W.contents w.old w.new result (spaced_hex octets.now) }
{
    let mut rest = octets;
    while let Some((some, others)) = rest.split_at_checked(MANY) {
        send_some(w, some)?;
        rest = others;
    }
    send_some(w, rest)
}

/// Sends at most `MANY` octets, each after a space.
fn send_some<W: Write>(w: &mut FaultWriter<W>, octets: &[u8]) -> Result<(), GenError>
    requires { length octets.now ≤ 64 }
    ensures { Wrote W.contents w.old w.new result (spaced_hex octets.now) }
{
    let mut room = [0; ROOM];
    let begin = write_spaced(&mut room, ROOM, octets);
    send(w, &room[begin..])
}

/// Writes octets so that they end at an offset, each after a space.
fn write_spaced(out: &mut [u8], end: usize, octets: &[u8]) -> usize
    requires room { 3 * length octets.now ≤ end }
    requires within { end ≤ length out.old }
    ensures { PutsBefore out.old out.new end (spaced_hex octets.now) result }
{
    let mut begin = end;
    for i in (0..octets.len()).rev() {
        begin = write_pair(out, begin, octets[i]);
    }
    begin
}

/// Writes a space and the two digits of an octet so that they end at an offset.
#[inline]
fn write_pair(out: &mut [u8], end: usize, octet: u8) -> usize
    requires room { 3 ≤ end }
    requires within { end ≤ length out.old }
    ensures { PutsBefore out.old out.new end (0x20 ∷ hex_pair octet) result }
{
    write_octets(out, end, &[b' ', digit(octet / 16), digit(octet % 16)])
}

/// The hexadecimal digit of a number below 16.
#[inline]
fn digit(n: u8) -> u8
    requires { n < 16 }
    ensures { result ≡ hex_digit n }
{
    if n < 10 { b'0' + n } else { b'a' + (n - 10) }
}
