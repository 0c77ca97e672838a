//! The octets after a SEQUENCE.
ghost use Rattle.std.specs.Prelude.{◌≡◌, List, ℕ};
ghost use Rattle.x509.specs.Formats.{sequence, spells};

use der_cursor::Cursor;

/// The octets after the first element, if it is a SEQUENCE; else all octets.
pub(crate) fn after_sequence<'a>(octets: &'a [u8]) -> &'a [u8]
    ensures { (w : List ℕ) → (rest : List ℕ) → spells sequence octets.now w rest → result.now ≡ rest }
{
    let mut list = Cursor::new(octets);
    match list.open_sequence() {
        Ok(_) => list.remaining(),
        Err(_) => octets,
    }
}
