//! Octets written before an offset of a buffer: headers, numbers, decimal digits and times, from the last octet to the
//! first.
ghost use Rattle.std.specs.Prelude.{◌≤◌, [], ◌∷◌, length};
ghost use Rattle.der_values.specs.Octets.Room.{PutsBefore};

pub mod decimal;
pub mod header;
pub mod time;

/// Writes octets before an offset.
pub fn write_octets(out: &mut [u8], end: usize, octets: &[u8]) -> usize
    requires room { length octets.now ≤ end }
    requires within { end ≤ length out.old }
    ensures { PutsBefore out.old out.new end octets.now result }
{
    let begin = end - octets.len();
    out[begin..end].copy_from_slice(octets);
    begin
}

/// Writes an octet before an offset.
pub fn write_octet(out: &mut [u8], end: usize, octet: u8) -> usize
    requires room { length (octet ∷ []) ≤ end }
    requires within { end ≤ length out.old }
    ensures { PutsBefore out.old out.new end (octet ∷ []) result }
{
    let begin = end - 1;
    out[begin] = octet;
    begin
}
