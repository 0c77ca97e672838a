//! Texts that are written to a buffer, as far as its capacity allows.
ghost use Rattle.std.specs.Prelude.{◌≡◌, ◌∷◌, [], decimal};
ghost use Rattle.c_values.specs.Texts.{PutsText};
ghost use Rattle.der_base.specs.Pretty.{dotted, pointed};
ghost use Rattle.der_elements.specs.Check.Overlay.{overlay};
ghost use Rattle.der_values.specs.Identifiers.{u128_arcs_left};

use der_values::U128Arcs;
use itoa::Buffer;

/// Writes arcs in dotted form. Returns the length of the text.
pub fn put_arcs(room: &mut [u8], at: usize, mut arcs: U128Arcs<'_>) -> usize
    ensures { PutsText room.old at (dotted (u128_arcs_left arcs.entry)) room.new result }
{
    let Some(first) = arcs.next() else {
        return at;
    };
    let end = put_number(room, at, first);
    put_further_arcs(room, end, arcs)
}

/// Writes arcs, each after a dot.
fn put_further_arcs(room: &mut [u8], at: usize, arcs: U128Arcs<'_>) -> usize
    ensures { PutsText room.old at (pointed (u128_arcs_left arcs.entry)) room.new result }
{
    let mut end = at;
    for arc in arcs {
        end = put_text(room, end, b".");
        end = put_number(room, end, arc);
    }
    end
}

/// Writes a number in decimal.
fn put_number(room: &mut [u8], at: usize, number: u128) -> usize
    ensures { PutsText room.old at (decimal number) room.new result }
{
    let mut digits = Buffer::new();
    put_text(room, at, digits.format(number).as_bytes())
}

/// Writes a text at an offset, as far as the capacity allows. Returns the offset after the whole text.
pub fn put_text(room: &mut [u8], at: usize, text: &[u8]) -> usize
    ensures { PutsText room.old at text.now room.new result }
{
    let mut end = at;
    for octet in text {
        put_octet(room, end, *octet);
        end = end.saturating_add(1);
    }
    end
}

/// Writes an octet, if the capacity allows.
fn put_octet(room: &mut [u8], at: usize, octet: u8)
    ensures { room.new ≡ overlay room.old at (octet ∷ []) }
{
    if at < room.len() {
        room[at] = octet;
    }
}
