//! Writes texts to a buffer, as far as its capacity allows.
ghost use Rattle.std.specs.Prelude.{◌≡◌, IfSome};
ghost use Rattle.dumarewhi_page.specs.Content.Texts.{Puts};

use c_values::text::put_text;
use std::fmt;
use std::fmt::Write;

/// A buffer for a text, and the length of the text, which may be more.
#[derive(Drop)]
pub struct Room<'a> {
    octets: &'a mut [u8],
    pub(crate) length: usize,
}

impl<'a> Room<'a> {
    pub(crate) fn new(octets: &'a mut [u8]) -> Room<'a>
        ensures same_reference { result.octets.ghost_name ≡ octets.entry.ghost_name }
        ensures octets { result.octets.now ≡ octets.old }
        ensures length { result.length ≡ 0 }
    {
        Room { octets, length: 0 }
    }
}

impl fmt::Write for Room<'_> {
    ghost use Rattle.dumarewhi_page.specs.Content.Rooms.{TakesText};

    ghost write_str_gives = { TakesText };

    fn write_str(&mut self, text: &str) -> fmt::Result {
        self.length = put_text(self.octets, self.length, text.as_bytes());
        Ok(())
    }
}

/// Writes a text to a buffer, as far as its capacity allows. Returns the length of the text.
pub fn put<D: fmt::Display + Drop>(octets: &mut [u8], what: D) -> usize
    ensures { IfSome (D.output what) (λ text. Puts octets.old text octets.new result) }
{
    let mut room = Room::new(octets);
    match room.write(what) {
        Ok(()) => room.length,
        Err(_) => 0,
    }
}
