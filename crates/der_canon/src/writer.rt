//! Writing from the first octet to the last. The length of a content is known at its end. Then it is written before the
//! content, which moves up if the length has more than one octet.
ghost use Rattle.std.specs.Prelude.{◌≡◌, ◌^◌, ◌<◌, ◌≤◌, ◌++◌, ◌∷◌, ℕ, List, [], IfErr, IfOk, MatchOption};
ghost use Rattle.std.specs.Prelude.{OnOk, false, length, not, true};
ghost use Rattle.der_base.specs.Octets.{identifier, shortest_length};
ghost use Rattle.der_canon.specs.Contents.{start_of};
ghost use Rattle.der_canon.specs.Errors.{IsErrorOfString};
ghost use Rattle.der_canon.specs.Same.{is_in_parts, with_bits, with_first, with_part};
ghost use Rattle.der_canon.specs.Pieces.{has_header};
ghost use Rattle.der_canon.specs.Sizing.{IsFound};
ghost use Rattle.der_canon.specs.Strings.{IsBrokenIn, IsKeptIn, IsStringIn};
ghost use Rattle.der_canon.specs.Values.{bits_in_der, boolean_in_der, value_in_der};
ghost use Rattle.der_canon.specs.Writing.{HasCompleted, HasStarts, HasWritten, Puts, PutsElement, PutsLength};
ghost use Rattle.der_canon.specs.Writing.{PutsPart, PutsPiece, WritesInput, all_octets};
ghost use Rattle.der_elements.specs.Walked.{visited_of};
ghost use Rattle.der_writer.specs.Octets.{cleared};

use crate::content::{boolean, without_unused};
use crate::error::NotCanonical;
use crate::octets::{LENGTH_OCTETS, fill_length, put_octets, wrap};
use crate::piece::{Piece, Pieces, is_bits_in_parts, is_in_parts, refuse_all};
use crate::strings::{Broken, InParts, check_string, refuse_string, string_in};
use arrayvec::ArrayVec;
use der_base::header::Class;
use der_base::rules::Rules;
use der_elements::{Element, MAX_DEPTH, Walk};
use der_values::octets::header::length_octet_count;

/// The most elements that are open: one at each depth.
const DEPTHS: usize = MAX_DEPTH + 1;

/// Writes the elements of an input as far as the capacity allows.
pub(crate) fn write_pieces(octets: &[u8], out: &mut [u8]) -> Result<(), NotCanonical>
    ensures size { length out.new ≡ length out.old }
    ensures written { OnOk result (WritesInput octets.now out.new) }
    ensures error { IfErr result (IsErrorOfString octets.now) }
{
    let mut pieces = Pieces::new(octets);
    let mut writer = Writer::new();
    let mut string = None;
    let mut read = 0;
    // An element has two octets at least, so the loop ends at the end of the input.
    'pieces: while read <= octets.len() {
        match pieces.next_piece() {
            Ok(Some(piece)) => match string_after(&piece, string, &writer, out) {
                Ok(next) => {
                    string = next;
                    writer.write(out, &piece);
                }
                Err(broken) => return Err(refuse_string(octets, broken)),
            },
            Ok(None) => {
                return match check_string(string, &writer, out) {
                    Ok(()) => {
                        writer.complete(out, 0);
                        Ok(())
                    }
                    Err(broken) => Err(refuse_string(octets, broken)),
                };
            }
            Err(refusal) => return Err(pieces.refuse(&refusal)),
        }
        read += 1;
    }
    Err(refuse_all(&Walk::new(&[], Rules::Der, false)))
}

/// The string whose parts may follow a piece. If the piece isn't a part of the string before it, that string has ended:
/// an error if it is broken.
fn string_after(
    piece: &Piece<'_>,
    string: Option<InParts>,
    writer: &Writer,
    out: &[u8],
) -> Result<Option<InParts>, Broken>
    ensures kept { IfOk result (λ s. has_header piece.now.form ≡ false → s ≡ string) }
    ensures begun { IfOk result (λ s. has_header piece.now.form ≡ true → IsStringIn (visited_of piece.now.element) s) }
    ensures checked { OnOk result (has_header piece.now.form ≡ true → IsKeptIn string writer.now out.now) }
    ensures broken { IfErr result (λ b. (has_header piece.now.form ≡ true) × IsBrokenIn string writer.now out.now b) }
{
    if !piece.has_header() {
        return Ok(string);
    }
    match check_string(string, writer, out) {
        Ok(()) => Ok(string_in(&piece.element)),
        Err(broken) => Err(broken),
    }
}

/// How far elements are written.
#[derive(Drop)]
pub(crate) struct Writer {
    /// How many octets there are, whatever the capacity.
    end: usize,
    /// Where the length of each open element is, from the outermost to the innermost.
    starts: ArrayVec<usize, DEPTHS>,
}

impl Writer {
    fn new() -> Writer
        ensures end { result.end ≡ 0 }
        ensures starts { result.starts.items ≡ [] }
    {
        Writer {
            end: 0,
            starts: ArrayVec::new(),
        }
    }

    /// Writes a piece after those that precede it.
    fn write(&mut self, out: &mut [u8], piece: &Piece<'_>)
        requires { IsFound piece.now.element }
        ensures size { length out.new ≡ length out.old }
        ensures piece { (xs : List (List ℕ)) (x : List ℕ) → HasWritten xs x self.old out.old
            → PutsPiece piece.now xs x self.new out.new }
    {
        if piece.has_header() {
            self.write_element(out, &piece.element);
        } else {
            self.write_part(out, &piece.element);
        }
    }

    /// Writes an element with its header.
    fn write_element(&mut self, out: &mut [u8], element: &Element<'_>)
        requires { IsFound element.now }
        ensures size { length out.new ≡ length out.old }
        ensures element { (xs : List (List ℕ)) (x : List ℕ) → HasWritten xs x self.old out.old
            → PutsElement element.now xs x self.new out.new }
    {
        self.complete(out, element.depth);
        if element.constructed {
            self.begin(out, element);
        } else if let Some(content) = element.content {
            self.put(out, element.identifier);
            self.put_length(out, content.len());
            self.put_value(out, element, content);
        }
    }

    /// Writes what a part adds to its string.
    fn write_part(&mut self, out: &mut [u8], element: &Element<'_>)
        requires { IsFound element.now }
        ensures size { length out.new ≡ length out.old }
        ensures part { (xs : List (List ℕ)) (x : List ℕ) → HasWritten xs x self.old out.old
            → PutsPart element.now xs x self.new out.new }
    {
        if element.constructed {
            return;
        }
        if let Some(content) = element.content {
            self.put_part(out, element.number, content);
        }
    }

    /// Completes the elements at this depth or deeper.
    fn complete(&mut self, out: &mut [u8], depth: usize)
        ensures size { length out.new ≡ length out.old }
        ensures few { length self.new.starts.items ≤ depth }
        ensures complete { (xs : List (List ℕ)) (x : List ℕ) → HasWritten xs x self.old out.old
            → HasCompleted depth xs x self.new out.new }
    {
        'completing: while self.starts.len() > depth {
            let Some(start) = self.starts.pop() else {
                return;
            };
            self.end_content(out, start);
        }
    }

    /// Makes everything from an offset on the content of one element. Its length replaces the octet that is reserved
    /// there.
    fn end_content(&mut self, out: &mut [u8], start: usize)
        ensures { PutsLength start self.old out.old self.new out.new }
    {
        let size = self.end.saturating_sub(start);
        let begin = self.end - size;
        let content_size = size.saturating_sub(1);
        let end = begin
            .saturating_add(length_octet_count(content_size))
            .saturating_add(content_size);
        wrap(out, begin, end, content_size);
        self.end = end;
    }

    /// Begins a constructed element, and reserves an octet for its length. A constructed string is written as a
    /// primitive element.
    fn begin(&mut self, out: &mut [u8], element: &Element<'_>)
        requires found { IsFound element.now }
        requires constructed { element.now.constructed ≡ true }
        requires room { length self.old.starts.items ≤ 100 }
        ensures size { length out.new ≡ length out.old }
        ensures begun { (xs : List (List ℕ)) (x : List ℕ) → HasWritten xs x self.old out.old
            → HasWritten ((x ++ identifier element.now.class (not (is_in_parts (visited_of element.now)))
            element.now.number) ∷ xs) (start_of (visited_of element.now)) self.new out.new }
    {
        self.put_identifier(out, element);
        self.begin_content(out);
        if is_bits_in_parts(element) {
            self.put(out, &[0]);
        }
    }

    /// Writes the identifier octets of a constructed element.
    fn put_identifier(&mut self, out: &mut [u8], element: &Element<'_>)
        requires found { IsFound element.now }
        requires constructed { element.now.constructed ≡ true }
        ensures { Puts (identifier element.now.class (not (is_in_parts (visited_of element.now))) element.now.number)
            self.old out.old self.new out.new }
    {
        if is_in_parts(element) {
            self.put(out, &[element.number as u8]);
        } else {
            self.put(out, element.identifier);
        }
    }

    /// Begins a content after the octet that is reserved for its length.
    fn begin_content(&mut self, out: &mut [u8])
        requires { length self.old.starts.items ≤ 100 }
        ensures size { length out.new ≡ length out.old }
        ensures begun { (xs : List (List ℕ)) (x : List ℕ) → HasWritten xs x self.old out.old
            → HasWritten (x ∷ xs) [] self.new out.new }
    {
        let start = self.end;
        self.put(out, &[0]);
        self.starts.push(start);
    }

    /// Writes what a primitive part of this type adds to its string.
    fn put_part(&mut self, out: &mut [u8], number: u32, content: &[u8])
        ensures size { length out.new ≡ length out.old }
        ensures part { (xs : List (List ℕ)) (x : List ℕ) → HasWritten xs x self.old out.old
            → HasWritten xs (with_part number content.now x) self.new out.new }
    {
        if number == 3 {
            self.put_bits_after(out, content);
        } else {
            self.put(out, content);
        }
    }

    /// Writes the bits of one more part of a BIT STRING, and its number of unused bits.
    fn put_bits_after(&mut self, out: &mut [u8], content: &[u8])
        ensures size { length out.new ≡ length out.old }
        ensures bits { (xs : List (List ℕ)) (x : List ℕ) → HasWritten xs x self.old out.old
            → HasWritten xs (with_bits content.now x) self.new out.new }
    {
        if let Some((unused, bits)) = content.split_first() {
            self.set_first(out, *unused);
            self.put_bits(out, bits, *unused);
        }
    }

    /// Sets the first octet of the innermost content, if it has one.
    fn set_first(&mut self, out: &mut [u8], octet: u8)
        ensures size { length out.new ≡ length out.old }
        ensures first { (xs : List (List ℕ)) (x : List ℕ) → HasWritten xs x self.old out.old
            → HasWritten xs (with_first octet x) self.new out.new }
    {
        let begin = self.content_start();
        if begin < self.end {
            put_octets(out, begin, begin + 1, &[octet]);
        }
    }

    /// Where the innermost content begins.
    fn content_start(&self) -> usize
        ensures { (xs : List (List ℕ)) → HasStarts xs self.now.starts.items → length (all_octets xs []) < 2 ^ 64
            → result ≡ length (all_octets xs []) }
    {
        match self.starts.as_slice().split_last() {
            Some((start, _)) => start.saturating_add(1),
            None => 0,
        }
    }

    /// The innermost content as written so far, if the buffer was large enough.
    pub(crate) fn innermost<'o>(&self, out: &'o [u8]) -> Option<&'o [u8]>
        ensures { MatchOption result
            ((xs : List (List ℕ)) (x : List ℕ) → HasWritten xs x self.now out.now
            → length out.now < length (all_octets xs x))
            (λ w. (xs : List (List ℕ)) (x : List ℕ) → HasWritten xs x self.now out.now → w.now ≡ x) }
    {
        let begin = self.content_start();
        if self.end > out.len() {
            return None;
        }
        if begin > self.end {
            return None;
        }
        Some(&out[begin..self.end])
    }

    /// Writes the content octets of a primitive element as DER has them.
    fn put_value(&mut self, out: &mut [u8], element: &Element<'_>, content: &[u8])
        ensures { Puts (value_in_der element.now.class element.now.number content.now)
            self.old out.old self.new out.new }
    {
        if element.class != Class::Universal {
            return self.put(out, content);
        }
        match element.number {
            1 => self.put_boolean(out, content),
            3 => self.put_bit_string(out, content),
            _ => self.put(out, content),
        }
    }

    /// Writes the content octet of a BOOLEAN.
    fn put_boolean(&mut self, out: &mut [u8], content: &[u8])
        ensures { Puts (boolean_in_der content.now) self.old out.old self.new out.new }
    {
        if content.len() == 1 {
            self.put(out, &[boolean(content[0])]);
        } else {
            self.put(out, content);
        }
    }

    /// Writes the content octets of a BIT STRING.
    fn put_bit_string(&mut self, out: &mut [u8], content: &[u8])
        ensures { Puts (bits_in_der content.now) self.old out.old self.new out.new }
    {
        if let Some((unused, bits)) = content.split_first() {
            self.put(out, &[*unused]);
            self.put_bits(out, bits, *unused);
        }
    }

    /// Writes the bits of a BIT STRING, and 0 for those that are unused.
    fn put_bits(&mut self, out: &mut [u8], bits: &[u8], unused: u8)
        ensures { Puts (cleared unused bits.now) self.old out.old self.new out.new }
    {
        if let Some((last, others)) = bits.split_last() {
            self.put(out, others);
            self.put(out, &[without_unused(*last, unused)]);
        }
    }

    /// Writes a length in the fewest octets (10.1).
    fn put_length(&mut self, out: &mut [u8], size: usize)
        ensures { Puts (shortest_length size) self.old out.old self.new out.new }
    {
        let mut room = [0; LENGTH_OCTETS];
        let octets = &mut room[..length_octet_count(size)];
        fill_length(octets, size);
        self.put(out, octets);
    }

    /// Writes octets after those before.
    fn put(&mut self, out: &mut [u8], octets: &[u8])
        ensures { Puts octets.now self.old out.old self.new out.new }
    {
        let end = self.end.saturating_add(octets.len());
        put_octets(out, self.end, end, octets);
        self.end = end;
    }
}
