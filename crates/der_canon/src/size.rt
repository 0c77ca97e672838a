//! How many octets elements have in DER.
ghost use Rattle.std.specs.Prelude.{◌≡◌, ◌+◌, ◌++◌, ◌∷◌, [], IfErr};
ghost use Rattle.std.specs.Prelude.{IfOk, IfSome, MatchOption, OnOk, OnSome, false, length, ◌^◌, ◌≤◌};
ghost use Rattle.der_canon.specs.Errors.{IsAll, IsErrorOf};
ghost use Rattle.der_canon.specs.NoDer.{AllHaveDer};
ghost use Rattle.der_canon.specs.Sizes.{Ends, HasSize, part_size, start_size, with_length};
ghost use Rattle.der_canon.specs.Sizing.{AddsElement, AddsPart, AddsPiece, ComesTo, IsFound, cost, most};
ghost use Rattle.der_elements.specs.Walked.{visited_of};

use crate::error::NotCanonical;
use crate::piece::{Piece, Pieces, is_bits_in_parts, refuse_all};
use arrayvec::ArrayVec;
use der_base::rules::Rules;
use der_elements::{Element, MAX_DEPTH, Walk};
use der_values::octets::header::length_octet_count;

/// The most elements that are open: one at each depth.
const DEPTHS: usize = MAX_DEPTH + 1;

/// How many octets the elements of an input have in DER.
pub(crate) fn size_of(octets: &[u8]) -> Result<usize, NotCanonical>
    ensures size { IfOk result (HasSize octets.now) }
    ensures have { OnOk result (AllHaveDer octets.now) }
    ensures refused { IfErr result (IsErrorOf octets.now) }
{
    let mut pieces = Pieces::new(octets);
    let mut sizes = Sizes::new();
    // Whether the octets so far can be counted.
    let mut fits = true;
    let mut read = 0;
    // An element has two octets at least, so the loop ends at the end of the input.
    'pieces: while read <= octets.len() {
        match pieces.next_piece() {
            Ok(Some(piece)) => fits = fits && sizes.add(&piece).is_some(),
            Ok(None) => {
                return match sizes.total() {
                    Some(size) if fits => Ok(size),
                    _ => Err(too_large()),
                };
            }
            Err(refusal) => return Err(pieces.refuse(&refusal)),
        }
        read += 1;
    }
    Err(too_large())
}

/// The error of elements that have more octets in DER than a usize counts.
fn too_large() -> NotCanonical
    ensures { IsAll result }
{
    refuse_all(&Walk::new(&[], Rules::Der, false))
}

/// How many octets the contents have that are still open, as far as their elements were read.
#[derive(Drop)]
struct Sizes {
    /// The contents around the innermost, the outermost first.
    around: ArrayVec<usize, DEPTHS>,
    /// The innermost content.
    here: usize,
}

impl Sizes {
    fn new() -> Sizes
        ensures around { result.around.items ≡ [] }
        ensures here { result.here ≡ 0 }
    {
        Sizes {
            around: ArrayVec::new(),
            here: 0,
        }
    }

    /// Adds one more piece.
    fn add(&mut self, piece: &Piece<'_>) -> Option<()>
        requires { IsFound piece.now.element }
        ensures adds { OnSome result (AddsPiece piece.now self.old self.new) }
        ensures most { ComesTo (most self.old + cost (visited_of piece.now.element)) self.new result }
    {
        if piece.has_header() {
            self.add_element(&piece.element)
        } else {
            self.add_part(&piece.element)
        }
    }

    /// How many octets there are in all.
    fn total(&mut self) -> Option<usize>
        ensures { MatchOption result (2 ^ 64 ≤ most self.old)
            (λ n. Ends 0 self.old.around.items self.old.here self.new.around.items n) }
    {
        match self.end(0) {
            Some(()) => Some(self.here),
            None => None,
        }
    }

    /// Adds an element with its header.
    fn add_element(&mut self, element: &Element<'_>) -> Option<()>
        requires { IsFound element.now }
        ensures adds { OnSome result (AddsElement element.now self.old self.new) }
        ensures most { ComesTo (most self.old + cost (visited_of element.now)) self.new result }
    {
        self.end(element.depth)?;
        self.grow(element.identifier.len())?;
        if element.constructed {
            self.begin(start_size(element));
            return Some(());
        }
        let size = with_length(element.content?.len())?;
        self.grow(size)
    }

    /// Adds what a part gives to its string.
    fn add_part(&mut self, element: &Element<'_>) -> Option<()>
        requires { IsFound element.now }
        ensures adds { OnSome result (AddsPart element.now self.old self.new) }
        ensures most { ComesTo (most self.old + cost (visited_of element.now)) self.new result }
    {
        if element.constructed {
            return Some(());
        }
        self.grow(part_size(element.number, element.content?))
    }

    /// Ends the contents that are deeper than this depth.
    fn end(&mut self, depth: usize) -> Option<()>
        ensures ends { OnSome result
            (Ends depth self.old.around.items self.old.here self.new.around.items self.new.here) }
        ensures around { OnSome result (length self.new.around.items ≤ depth) }
        ensures most { ComesTo (most self.old) self.new result }
    {
        'ending: while self.around.len() > depth {
            let outer = self.around.pop()?;
            self.here = outer.checked_add(with_length(self.here)?)?;
        }
        Some(())
    }

    /// Adds octets to the innermost content.
    fn grow(&mut self, octets: usize) -> Option<()>
        ensures around { OnSome result (self.new.around ≡ self.old.around) }
        ensures here { OnSome result (self.new.here ≡ self.old.here + octets) }
        ensures most { ComesTo (most self.old + octets) self.new result }
    {
        self.here = self.here.checked_add(octets)?;
        Some(())
    }

    /// Begins a content inside the innermost, which has this many octets so far.
    fn begin(&mut self, octets: usize)
        requires { length self.old.around.items ≤ 100 }
        ensures around { self.new.around.items ≡ self.old.around.items ++ self.old.here ∷ [] }
        ensures here { self.new.here ≡ octets }
    {
        self.around.push(self.here);
        self.here = octets;
    }
}

/// How many octets a content has with its length octets.
fn with_length(content: usize) -> Option<usize>
    ensures size { IfSome result (λ n. n ≡ with_length content) }
    ensures most { MatchOption result (2 ^ 64 ≤ content + 9) (λ n. n ≤ content + 9) }
{
    length_octet_count(content).checked_add(content)
}

/// How many octets a constructed string has before those of its parts: one for the unused bits of a BIT STRING.
fn start_size(element: &Element<'_>) -> usize
    ensures size { result ≡ start_size (visited_of element.now) }
    ensures most { result ≤ 1 }
{
    if is_bits_in_parts(element) { 1 } else { 0 }
}

/// How many octets a primitive part gives to its string.
fn part_size(number: u32, content: &[u8]) -> usize
    ensures size { result ≡ part_size false number content.now }
    ensures most { result ≤ length content.now }
{
    if number == 3 {
        content.len().saturating_sub(1)
    } else {
        content.len()
    }
}
