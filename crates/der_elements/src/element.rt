//! An element that a walk visits.
ghost use Rattle.std.specs.Prelude.{◌≡◌, ◌↔◌, ℕ, IsTrue, List, MatchOption, ◌∷◌, true};
ghost use Rattle.der_elements.specs.Visits.{begins_like_element, is_constructed_octet};

use crate::check::is_element;
use crate::name::TypeName;
use crate::path::Step;
use crate::walk::MAX_DEPTH;
use der_base::header::Class;
use der_base::rules::Rules;

/// An element of an input.
#[derive(Clone, Copy, Debug, PartialEq)]
pub struct Element<'a> {
    pub class: Class,
    pub constructed: bool,
    /// The tag number.
    pub number: u32,
    /// The identifier octets (X.690 8.1.2).
    pub identifier: &'a [u8],
    /// The offset of the header in the input.
    pub offset: usize,
    /// The number of header octets.
    pub header: usize,
    /// The length in the header. None if it is indefinite (X.690 8.1.3.6).
    pub length: Option<usize>,
    /// The content octets. None if the length is indefinite, and for a constructed element that is truncated.
    pub content: Option<&'a [u8]>,
    /// The number of elements around it.
    pub depth: usize,
    /// Its index among the elements of the same content, from 0.
    pub index: usize,
    /// For a string whose content is an element, the rules of that element: DER if they hold, else BER. The walk visits
    /// it next.
    pub holds: Option<Rules>,
    /// Whether the content octets of a text (X.690 8.23), a time (8.25) or an identifier (8.19, 8.20) break a rule of
    /// the type.
    pub breaks_its_type: bool,
}

impl<'a> Element<'a> {
    ghost use Rattle.der_elements.specs.Reading.{FindsString, Holds, IsHeld, front_of, string_front_of};

    /// The name of the type, or of the tag.
    pub fn name(&self) -> TypeName
        ensures class { result.class ≡ self.now.class }
        ensures number { result.number ≡ self.now.number }
    {
        TypeName {
            class: self.class,
            number: self.number,
        }
    }

    /// The last step of the path to this element.
    pub fn step(&self) -> Step
        ensures class { result.name.class ≡ self.now.class }
        ensures number { result.name.number ≡ self.now.number }
        ensures index { result.index ≡ self.now.index }
    {
        Step {
            name: self.name(),
            index: self.index,
        }
    }

    /// Whether this is an element of the universal type with this number.
    pub fn is_universal(&self, number: u32) -> bool
        ensures { IsTrue result ↔ ((self.now.class ≡ Class.Universal) × (self.now.number ≡ number)) }
    {
        self.class == Class::Universal && self.number == number
    }

    /// The rules of the element that this string contains: DER if they hold, else BER. None if its octets aren't one
    /// element.
    pub(crate) fn held(&self) -> Option<Rules>
        ensures { IsHeld true self.now result }
    {
        if self.holds_by(Rules::Der) {
            return Some(Rules::Der);
        }
        if self.holds_by(Rules::Ber) {
            return Some(Rules::Ber);
        }
        None
    }

    /// Whether this is a string whose octets are one element by these rules. A primitive element counts only by DER and
    /// only if it is universal, since many octets look like one.
    fn holds_by(&self, rules: Rules) -> bool
        ensures { IsTrue result ↔ Holds rules self.now }
    {
        match self.string_octets() {
            Some(octets) => {
                let depth = MAX_DEPTH.saturating_sub(self.depth);
                begins_like_element(octets, rules) && is_element(octets, rules, depth)
            }
            None => false,
        }
    }

    /// The octets of a primitive string that may contain an element: those of an OCTET STRING, or those of a BIT STRING
    /// without unused bits.
    pub(crate) fn string_octets(&self) -> Option<&'a [u8]>
        ensures { FindsString self.now result }
    {
        if self.constructed || self.class != Class::Universal {
            return None;
        }
        let Some(content) = self.content else {
            return None;
        };
        match self.number {
            4 => Some(content),
            3 => after_zero(content),
            _ => None,
        }
    }

    /// How many octets of a string precede the element that is visited next.
    pub(crate) fn front(&self) -> usize
        ensures { result ≡ front_of self.now }
    {
        if self.holds.is_some() {
            self.string_front()
        } else {
            0
        }
    }

    /// How many octets of a string precede the element in it: 1 for the octet in a BIT STRING that counts unused bits.
    pub(crate) fn string_front(&self) -> usize
        ensures { result ≡ string_front_of self.now.number }
    {
        if self.number == 3 { 1 } else { 0 }
    }
}

/// The octets after a first octet of 0.
fn after_zero(octets: &[u8]) -> Option<&[u8]>
    ensures { MatchOption result
        ((rest : List ℕ) → octets.now ≡ 0 ∷ rest → ⊥)
        (λ x. octets.now ≡ 0 ∷ x.now) }
{
    let Some((first, rest)) = octets.split_first() else {
        return None;
    };
    if *first == 0 { Some(rest) } else { None }
}

/// Whether the first octet is a constructed identifier octet. By DER, a universal one other than that of
/// end-of-contents octets will also do.
fn begins_like_element(octets: &[u8], rules: Rules) -> bool
    ensures { IsTrue result ↔ IsTrue (begins_like_element rules octets.now) }
{
    match octets {
        [first, ..] => match rules {
            Rules::Ber => is_constructed_octet(*first),
            Rules::Der => *first != 0 && (*first < 64 || is_constructed_octet(*first)),
        },
        [] => false,
    }
}

/// Whether an identifier octet is that of a constructed element (X.690 8.1.2.5).
fn is_constructed_octet(octet: u8) -> bool
    ensures { result ≡ is_constructed_octet octet }
{
    octet / 32 % 2 == 1
}
