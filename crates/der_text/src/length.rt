//! Length octets of a form (X.690 8.1.3).
ghost use Rattle.std.specs.Prelude.{◌≡◌, ◌+◌, ◌-◌, ◌<◌, ◌≤◌, ◌∷◌, ◌++◌, length, replicate};
ghost use Rattle.std.specs.Option.{option_copied};
ghost use Rattle.der_base.specs.Octets.{octets, shortest_length};
ghost use Rattle.der_values.specs.Octets.Room.{PutsBefore};
ghost use Rattle.der_text.specs.Encoded.{length_octets, long_length};

use crate::item::Form;
use der_values::octets::header::{length_octet_count, octet_count, write_length, write_number};
use der_values::octets::write_octet;

/// The most length octets (X.690 8.1.3.5).
pub(crate) const MOST: usize = 127;

/// The length octets of a content length, if the form has them.
pub(crate) fn length_octets(room: &mut [u8; MOST], form: Form, content: usize) -> Option<&[u8]>
    ensures { option_copied result ≡ length_octets form content }
{
    match form {
        Form::Shortest => Some(shortest(room, content)),
        Form::Long(count) => long(room, usize::from(count), content),
        Form::Indefinite => Some(&[0x80]),
    }
}

/// The fewest length octets.
#[tactic(auto, using(der_values::proofs::OctetsLaws::Room::puts_tail))]
fn shortest(room: &mut [u8; MOST], content: usize) -> &[u8]
    ensures { result.now ≡ shortest_length content }
{
    let begin = MOST - length_octet_count(content);
    write_length(room, MOST, content);
    &room[begin..]
}

/// Length octets of the long form, with `count` octets after the first.
fn long(room: &mut [u8; MOST], count: usize, content: usize) -> Option<&[u8]>
    ensures { option_copied result ≡ long_length count (octets content) }
{
    let fewest = octet_count(content);
    if count == 0 || count >= MOST || fewest > count {
        return None;
    }
    let begin = MOST - 1 - count;
    write_long(room, count, count - fewest, content);
    Some(&room[begin..])
}

/// Writes a length, with zeros and the number of octets before it.
fn write_long(room: &mut [u8], count: usize, zeros: usize, content: usize)
    requires within { length room.old ≡ 127 }
    requires some { count < 127 }
    requires fits { zeros + length (octets content) ≡ count }
    ensures { PutsBefore room.old room.new 127 ((128 + count) ∷ (replicate zeros 0 ++ octets content)) (126 - count) }
{
    let begin = write_number(room, MOST, content);
    let begin = write_zeros(room, begin, zeros);
    write_octet(room, begin, 128 + count as u8);
}

/// Writes zeros before an offset.
fn write_zeros(room: &mut [u8], end: usize, count: usize) -> usize
    requires enough { count ≤ end }
    requires within { end ≤ length room.old }
    ensures { PutsBefore room.old room.new end (replicate count 0) result }
{
    let begin = end - count;
    room[begin..end].fill(0);
    begin
}
