//! Texts that are written backwards.
ghost use Rattle.std.specs.Prelude.{◌≡◌, ◌+◌, ◌<◌, ◌≤◌, [], ◌∷◌, ◌++◌, decimal, length, take};
ghost use Rattle.der_base.specs.Pretty.{spaces};
ghost use Rattle.der_print.specs.Lines.{at_left, at_right};

use itoa::write_digits;

/// The most octets of a text.
const ROOM: usize = 104;

/// A text that is written backwards. The octets before it are spaces.
#[derive(Drop)]
pub(crate) struct Row {
    octets: [u8; ROOM],
    /// The offset of the text.
    start: usize,
    ghost within: { start ≤ 104 },
    ghost free: { take start octets ≡ spaces start },
}

impl Row {
    ghost use Rattle.der_print.specs.Texts.{row_text};

    /// An empty text.
    pub(crate) fn new() -> Row
        ensures text { row_text result ≡ [] }
        ensures room { result.start ≡ 104 }
    {
        Row {
            octets: [b' '; ROOM],
            start: ROOM,
        }
    }

    /// The text.
    pub(crate) fn as_bytes(&self) -> &[u8]
        ensures { result.now ≡ row_text self.now }
    {
        &self.octets[self.start..]
    }

    /// Puts an octet before the text.
    pub(crate) fn put(&mut self, octet: u8)
        requires { 0 < self.old.start }
        ensures text { row_text self.new ≡ octet ∷ row_text self.old }
        ensures room { self.new.start + 1 ≡ self.old.start }
    {
        self.start -= 1;
        self.octets[self.start] = octet;
    }

    /// Puts spaces before the text.
    pub(crate) fn put_spaces(&mut self, count: usize)
        requires { count ≤ self.old.start }
        ensures text { row_text self.new ≡ spaces count ++ row_text self.old }
        ensures room { self.new.start + count ≡ self.old.start }
    {
        self.start -= count;
    }

    /// Puts a number before the text, right-aligned in these columns.
    pub(crate) fn put_at_right(&mut self, columns: usize, number: usize)
        requires { (columns ≤ 20) × (20 ≤ self.old.start) }
        ensures text { row_text self.new ≡ at_right columns (decimal number) ++ row_text self.old }
        ensures room { self.old.start ≤ self.new.start + 20 }
    {
        let end = self.start;
        let start = write_digits(number as u64, &mut self.octets, end);
        self.start = start.min(end - columns);
    }

    /// Puts a number before the text, left-aligned in these columns.
    pub(crate) fn put_number_at_left(&mut self, columns: usize, number: usize)
        requires { (columns ≤ 20) × (20 ≤ self.old.start) }
        ensures text { row_text self.new ≡ at_left columns (decimal number) ++ row_text self.old }
        ensures room { self.old.start ≤ self.new.start + 20 }
    {
        let end = self.start - columns.saturating_sub(digits_of(number));
        self.start = write_digits(number as u64, &mut self.octets, end);
    }

    /// Puts octets before the text, left-aligned in these columns.
    pub(crate) fn put_at_left(&mut self, columns: usize, octets: &[u8])
        requires { (columns ≤ 20) × (length octets.now ≤ 20) × (20 ≤ self.old.start) }
        ensures text { row_text self.new ≡ at_left columns octets.now ++ row_text self.old }
        ensures room { self.old.start ≤ self.new.start + 20 }
    {
        let end = self.start - columns.saturating_sub(octets.len());
        self.start = end - octets.len();
        self.octets[self.start..end].copy_from_slice(octets);
    }
}

/// The number of decimal digits.
fn digits_of(number: usize) -> usize
    ensures { result ≡ length (decimal number) }
{
    match number.checked_ilog10() {
        Some(zeros) => zeros as usize + 1,
        None => 1,
    }
}
