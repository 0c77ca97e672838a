//! The walk.
ghost use Rattle.der_base.specs.Header.{length_of as length_in};
ghost use Rattle.der_elements.specs.Reading.{definite_of};
ghost use Rattle.std.specs.Prelude.{◌≡◌, ◌≢◌, ◌+◌, ◌^◌, ◌<◌, ◌≤◌, ◌↔◌, ◌++◌, ℕ, List, drop, length, [], false, true};
ghost use Rattle.std.specs.Prelude.{IfErr, IfOk, IfSome, IsSome, IsTrue, MatchOption, None};

use crate::cause::Cause;
use crate::check::may_be_constructed;
use crate::content::{Content, End, Open};
use crate::element::Element;
use crate::error::ElementError;
use crate::path::Path;
use crate::reason::Reason;
use arrayvec::ArrayVec;
use der_base::content::after_end_marker;
use der_base::error::{BerError, Err as Refused, Needed};
use der_base::header::{Class, Header, Length, Tag};
use der_base::rules::Rules;
use der_contents::check_content;

/// The most elements that may be around an element.
pub const MAX_DEPTH: usize = 100;

/// The most elements that are open at once.
const MAX_OPEN: usize = 101;

/// The number of end-of-contents octets (X.690 8.1.5).
const END_MARKER: usize = 2;

/// A walk through the elements of an input in preorder. It doesn't allocate.
#[derive(Drop)]
pub struct Walk<'a> {
    input: &'a [u8],
    /// The offset of the next element, or of the end of the content before it.
    at: usize,
    /// The innermost content that is open.
    content: Content,
    /// The open elements, the outermost first.
    opened: ArrayVec<Open, MAX_OPEN>,
    enters_strings: bool,
    keeps_values: bool,
}

impl<'a> Walk<'a> {
    ghost use Rattle.der_base.specs.declared.rules.Rules.{Rules};
    ghost use Rattle.der_elements.specs.Visits.{Extras, Visited, Visits};
    ghost use Rattle.std.specs.Option.{option_to_list};
    ghost use Rattle.der_elements.specs.Ends.{IsWithin, end_of, here_of, limit_of, octets_ahead};
    ghost use Rattle.der_elements.specs.Faults.{cause_of_end, cause_of_header, cause_of_lack, missing_in, place_of};
    ghost use Rattle.der_elements.specs.Walked.{HasVisited, IsRefused, KeepsVisited, VisitsNext, innermost_of};
    ghost use Rattle.der_elements.specs.Walked.{outermost_of, position_of, steps_of};
    ghost use Rattle.der_elements.specs.Reading.{EndsHere, EndsNowhere, FindsContent, IsChecked, IsHeld, Passes};
    ghost use Rattle.der_elements.specs.Reasons.{octets_after_end, octets_beyond};
    ghost use Rattle.der_elements.specs.Reading.{FailsCheck, Keeps, LacksContent, Refuses, StartsWith, StaysOpen};
    ghost use Rattle.der_elements.specs.Reading.{GoesInto, ReadsHere};
    ghost use Rattle.der_elements.specs.Reading.{VisitsTo, front_of};

    /// A walk from the start of an input. If it enters strings, it also visits an element that is the whole content of
    /// an OCTET STRING or a BIT STRING: a universal or constructed one by DER, or else a constructed one by BER.
    pub fn new(input: &'a [u8], rules: Rules, enters_strings: bool) -> Walk<'a>
        ensures { HasVisited (record { enters_strings = enters_strings; keeps_values = false })
            rules input.now result [] }
    {
        Walk {
            input,
            at: 0,
            content: Content::of_input(rules),
            opened: ArrayVec::new(),
            enters_strings,
            keeps_values: false,
        }
    }

    /// This walk, which by BER visits and marks a primitive element whose content breaks a rule of its type. Without
    /// this it rejects the element.
    pub fn keeping_values(self) -> Walk<'a>
        ensures { (x : Extras) (r : Rules) (i : List ℕ) → HasVisited x r i self.entry []
            → HasVisited (record { enters_strings = x.enters_strings; keeps_values = true }) r i result [] }
    {
        Walk {
            keeps_values: true,
            ..self
        }
    }

    /// The next element. None at the end of the input, which is then known to be valid. The walk has then visited every
    /// element.
    pub fn next_element(&mut self) -> Result<Option<Element<'a>>, ElementError>
        ensures visits { (x : Extras) (r : Rules) (i : List ℕ) (vs : List Visited) → HasVisited x r i self.old vs
            → VisitsNext x r i vs self.new result }
        ensures shorter { IfOk result (λ e. IsSome e → octets_ahead self.new < octets_ahead self.old) }
    {
        self.next_within(MAX_OPEN)
    }

    /// The next element, which may have fewer than `max_depth` elements around it.
    pub(crate) fn next_within(
        &mut self,
        max_depth: usize,
    ) -> Result<Option<Element<'a>>, ElementError>
        requires { max_depth ≤ 101 }
        ensures visits { (x : Extras) (r : Rules) (i : List ℕ) (vs : List Visited) → HasVisited x r i self.old vs
            → VisitsTo max_depth x r i vs self.new result }
        ensures shorter { IfOk result (λ e. IsSome e → octets_ahead self.new < octets_ahead self.old) }
    {
        self.close_ended();
        let here = self.octets_here();
        if here.is_empty() {
            if self.opened.is_empty() {
                return Ok(None);
            }
            return Err(self.refuse_end());
        }
        match self.read_element(here, max_depth) {
            Ok(element) => {
                self.pass(&element);
                Ok(Some(element))
            }
            Err(refusal) => Err(refusal),
        }
    }

    /// Walks on to the first fault. None if the rest of the input is valid.
    pub fn find_fault(&mut self) -> Option<ElementError>
        ensures { (x : Extras) (r : Rules) (i : List ℕ) (vs : List Visited) → HasVisited x r i self.old vs
            → (us : List Visited) × MatchOption result (Visits x r 101 0 0 i us) (IsRefused x r i us self.new) }
    {
        'elements: loop {
            match self.next_element() {
                Ok(Some(_)) => {}
                Ok(None) => return None,
                Err(refusal) => return Some(refusal),
            }
        }
    }

    /// The path to a rejected element: the elements around it, and itself if its header was read.
    pub fn path(&self, refusal: &ElementError) -> Path
        ensures { result.steps.items ≡ steps_of self.now.opened.items ++ option_to_list refusal.now.step }
    {
        let mut path = Path::new();
        for open in self.opened.as_slice() {
            path.push(open.step);
        }
        if let Some(step) = refusal.step {
            path.push(step);
        }
        path
    }

    /// Why a rejected element stops the walk, with what else is known there.
    pub fn reason(&self, refusal: &ElementError) -> Reason<'a>
        ensures cause { result.cause ≡ refusal.now.cause }
        ensures octets { result.octets.now ≡ drop refusal.now.offset self.now.input.now }
        ensures after_end { result.after_end ≡ octets_after_end (position_of self.now) refusal.now.cause }
        ensures beyond { result.beyond ≡ octets_beyond (position_of self.now) }
    {
        Reason {
            cause: refusal.cause,
            octets: self.octets_from(refusal.offset),
            after_end: self.octets_after_end(refusal.cause),
            beyond: self.octets_beyond(),
        }
    }

    /// The octets of the input from an offset on.
    fn octets_from(&self, offset: usize) -> &'a [u8]
        ensures { result.now ≡ drop offset self.now.input.now }
    {
        if offset < self.input.len() {
            &self.input[offset..]
        } else {
            &[]
        }
    }

    /// How many octets follow the last element of the input, if no element begins there.
    fn octets_after_end(&self, cause: Cause) -> usize
        ensures { result ≡ octets_after_end (position_of self.now) cause }
    {
        if self.opened.is_empty() && self.at > 0 && cause.begins_none() {
            self.input.len().saturating_sub(self.at)
        } else {
            0
        }
    }

    /// How many octets the outermost element lacks.
    fn octets_beyond(&self) -> usize
        ensures { result ≡ octets_beyond (position_of self.now) }
    {
        match self.outermost_end() {
            End::After(missing) => missing,
            End::At(_) | End::Unlimited => 0,
        }
    }

    /// How many elements are open where the walk stops: those around a rejected element, and the element itself if it
    /// lacks end-of-contents octets.
    pub fn depth(&self) -> usize
        ensures { result ≡ length self.now.opened.items }
    {
        self.opened.len()
    }

    /// Closes the elements whose content ends here.
    fn close_ended(&mut self)
        ensures keeps { KeepsVisited self.old self.new }
        ensures ahead { octets_ahead self.new ≤ octets_ahead self.old }
        ensures stays { StaysOpen self.new }
    {
        'ended: while self.close_last() {}
    }

    /// Closes the innermost element if its content ends here. Returns whether it does.
    fn close_last(&mut self) -> bool
        ensures keeps { KeepsVisited self.old self.new }
        ensures ahead { octets_ahead self.new ≤ octets_ahead self.old }
        ensures closes { result ≡ true → length self.old.opened.items ≡ length self.new.opened.items + 1 }
        ensures stays { result ≡ false → StaysOpen self.new }
    {
        let Some(after) = self.after_end() else {
            return false;
        };
        let Some(last) = self.opened.pop() else {
            return false;
        };
        self.content = last.around;
        self.at = after;
        true
    }

    /// The offset where the content around continues, if the content here ends here.
    fn after_end(&self) -> Option<usize>
        ensures { MatchOption result (EndsNowhere self.now) (λ after. EndsHere self.now after) }
    {
        if !self.content.has_marker {
            if self.content.end.is_reached(self.at, self.input.len()) {
                return Some(self.at);
            }
            return None;
        }
        match after_end_marker(self.octets_here()) {
            Some(_) => Some(self.at + END_MARKER),
            None => None,
        }
    }

    /// The octets from here to the end of the content. With an indefinite length they may go further.
    fn octets_here(&self) -> &'a [u8]
        ensures here { result.now ≡ here_of self.now }
        ensures fits { length self.now.input.now < 2 ^ 64 }
    {
        let end = self.content.end.limit(self.input.len());
        if self.at < end {
            &self.input[self.at..end]
        } else {
            &[]
        }
    }

    /// Reads the element at the start of the octets here, which may have fewer than `max_depth` elements around it.
    fn read_element(&self, here: &'a [u8], max_depth: usize) -> Result<Element<'a>, ElementError>
        requires fits { self.now.at + length here.now ≤ limit_of (length self.now.input.now) (end_of self.now) }
        requires some { here.now ≢ [] }
        requires depth { max_depth ≤ 101 }
        ensures read { IfOk result (λ e. ReadsHere self.now here.now e) }
        ensures shallow { IfOk result (λ e. e.depth < max_depth) }
        ensures refused { IfErr result (Refuses max_depth self.now here.now) }
    {
        let (rest, header) = match self.content.rules.read_header(here) {
            Ok(found) => found,
            Err(e) => return Err(self.refuse_header(e)),
        };
        let element = self.element_of(&header, here.len() - rest.len());
        let content = match self.content_of(&element, rest) {
            Ok(content) => content,
            Err(refusal) => return Err(refusal),
        };
        let element = Element { content, ..element };
        if element.depth >= max_depth {
            return Err(ElementError::of(&element, Cause::TooDeep));
        }
        let breaks_its_type = match self.check(&element) {
            Ok(breaks) => breaks,
            Err(refusal) => return Err(refusal),
        };
        Ok(Element {
            holds: self.held_in(&element),
            breaks_its_type,
            ..element
        })
    }

    /// The rules of the element that a string contains, if strings are entered.
    fn held_in(&self, element: &Element<'a>) -> Option<Rules>
        ensures { IsHeld self.now.enters_strings element.now result }
    {
        if self.enters_strings {
            element.held()
        } else {
            None
        }
    }

    /// The element with this header of `octets` octets, which begins here.
    fn element_of(&self, header: &Header<'a>, octets: usize) -> Element<'a>
        ensures { StartsWith header.now octets self.now.at (length self.now.opened.items) self.now.content.visited
            result }
    {
        Element {
            class: header.class(),
            constructed: header.constructed(),
            number: header.tag().0,
            identifier: header.raw_tag().unwrap_or(&[]),
            offset: self.at,
            header: octets,
            length: length_of(header),
            content: None,
            depth: self.opened.len(),
            index: self.content.visited,
            holds: None,
            breaks_its_type: false,
        }
    }

    /// The content octets of an element that begins here. None if the length is indefinite, and for a constructed
    /// element that is truncated.
    fn content_of(
        &self,
        element: &Element<'a>,
        here: &'a [u8],
    ) -> Result<Option<&'a [u8]>, ElementError>
        requires fits { element.now.offset + element.now.header + length here.now
            ≤ limit_of (length self.now.input.now) (end_of self.now) }
        ensures content { IfOk result (FindsContent element.now here.now) }
        ensures room { IfOk result (λ _. IfSome element.now.length (λ n.
            IsWithin (element.now.offset + element.now.header + n) (end_of self.now))) }
        ensures refused { IfErr result (LacksContent self.now here.now element.now) }
    {
        let Some(length) = element.length else {
            return Ok(None);
        };
        if length <= here.len() {
            return Ok(Some(&here[..length]));
        }
        let begin = element.offset + element.header;
        let past = self.content.end.overrun(begin, length, self.input.len());
        if past > 0 {
            return Err(ElementError::of(element, Cause::PastEnd(past)));
        }
        if element.constructed {
            return Ok(None);
        }
        Err(ElementError::of(element, self.cut(length - here.len())))
    }

    /// Checks whether an element may be constructed, or the content of a primitive one. Returns whether the content
    /// breaks a rule of its type.
    fn check(&self, element: &Element<'a>) -> Result<bool, ElementError>
        ensures checked { IfOk result (IsChecked self.now.keeps_values self.now.content.rules element.now) }
        ensures refused { IfErr result (FailsCheck self.now element.now) }
    {
        if !element.constructed {
            return self.check_primitive(element);
        }
        let tag = Tag(element.number);
        if may_be_constructed(self.content.rules, element.class, tag) {
            Ok(false)
        } else if may_be_constructed(Rules::Ber, element.class, tag) {
            Err(ElementError::of(element, Cause::ConstructedString))
        } else {
            Err(ElementError::of(element, Cause::Constructed))
        }
    }

    /// Checks the content of a primitive element. End-of-contents octets aren't an element. Returns whether the content
    /// breaks a rule of its type.
    fn check_primitive(&self, element: &Element<'a>) -> Result<bool, ElementError>
        requires { element.now.constructed ≡ false }
        ensures checked { IfOk result (IsChecked self.now.keeps_values self.now.content.rules element.now) }
        ensures refused { IfErr result (FailsCheck self.now element.now) }
    {
        if element.class != Class::Universal {
            return Ok(false);
        }
        if element.number == 0 {
            return Err(ElementError::of(element, Cause::EndMarker));
        }
        let content = element.content.unwrap_or(&[]);
        let Err(e) = check_content(self.content.rules, element.number, content) else {
            return Ok(false);
        };
        if self.keeps() {
            return Ok(true);
        }
        Err(ElementError::of(element, Cause::Value(e)))
    }

    /// Whether a walk visits an element here whose content breaks a rule of its type.
    fn keeps(&self) -> bool
        ensures { IsTrue result ↔ Keeps self.now }
    {
        self.keeps_values && self.content.rules == Rules::Ber
    }

    /// Moves on behind an element, or into it if its elements are visited next.
    fn pass(&mut self, element: &Element<'a>)
        requires room { length self.old.opened.items < 101 }
        requires begin { element.now.offset + element.now.header ≤ length self.old.input.now }
        requires front { element.now.offset + element.now.header + front_of element.now < 2 ^ 64 }
        ensures { Passes self.old element.now self.new }
    {
        let begin = element.offset + element.header;
        let end = match element.length {
            Some(length) => End::of(begin, length, self.input.len()),
            None => self.content.end,
        };
        self.content.visited = self.content.visited.saturating_add(1);
        if element.constructed || element.holds.is_some() {
            self.open_content(element, begin + element.front(), end);
        } else {
            self.at = end.limit(self.input.len());
        }
    }

    /// Opens the content of an element that begins and ends at these offsets.
    fn open_content(&mut self, element: &Element<'a>, begin: usize, end: End)
        requires { length self.old.opened.items < 101 }
        ensures { GoesInto self.old element.now begin end self.new }
    {
        let around = self.content;
        self.opened.push(Open {
            step: element.step(),
            offset: element.offset,
            around,
        });
        self.content = Content {
            rules: element.holds.unwrap_or(around.rules),
            end,
            has_marker: element.length.is_none(),
            visited: 0,
        };
        self.at = begin;
    }

    /// Where the outermost element ends, or the content here if no element is open.
    fn outermost_end(&self) -> End
        ensures { result ≡ outermost_of self.now.opened.items self.now.content.end }
    {
        match self.opened.as_slice().get(1) {
            Some(second) => second.around.end,
            None => self.content.end,
        }
    }

    /// The cause for a truncated input. The outermost element lacks the octets up to its end, or `least` if its end
    /// isn't known.
    fn cut(&self, least: usize) -> Cause
        ensures { result ≡ Cause.Cut (missing_in (position_of self.now) least) }
    {
        match self.outermost_end() {
            End::After(missing) => Cause::Cut(missing),
            End::At(_) | End::Unlimited => Cause::Cut(least),
        }
    }

    /// The cause for a header that lacks `missing` octets.
    fn lacks(&self, missing: usize) -> Cause
        ensures { result ≡ cause_of_lack (position_of self.now) missing }
    {
        match self.content.end {
            End::At(_) => Cause::PastEnd(missing),
            End::After(_) | End::Unlimited => self.cut(missing),
        }
    }

    /// The error at the end of the octets here: the input is truncated, or the innermost element lacks end-of-contents
    /// octets.
    fn refuse_end(&self) -> ElementError
        ensures cause { result.cause ≡ cause_of_end (position_of self.now) }
        ensures place { result.offset ≡ place_of (position_of self.now) result.cause }
        ensures step { result.step ≡ None }
    {
        match self.content.end {
            End::At(_) if self.content.has_marker => {
                ElementError::at(self.innermost(), Cause::NoEndMarker)
            }
            _ => ElementError::at(self.at, self.cut(END_MARKER)),
        }
    }

    /// The offset of the innermost open element, or 0.
    fn innermost(&self) -> usize
        ensures { result ≡ innermost_of self.now.opened.items }
    {
        match self.opened.as_slice().last() {
            Some(open) => open.offset,
            None => 0,
        }
    }

    /// The error at an element whose header can't be read.
    fn refuse_header(&self, e: Refused<BerError>) -> ElementError
        ensures cause { result.cause ≡ cause_of_header (position_of self.now) e }
        ensures place { result.offset ≡ self.now.at }
        ensures step { result.step ≡ None }
    {
        let cause = match e {
            Refused::Incomplete(Needed::Size(missing)) => self.lacks(missing),
            Refused::Error(e) | Refused::Failure(e) => Cause::Header(e),
            Refused::Incomplete(Needed::Unknown) | Refused::OutOfMemory => self.lacks(1),
        };
        ElementError::at(self.at, cause)
    }
}

/// The number of content octets in a header, if it is definite.
fn length_of(header: &Header<'_>) -> Option<usize>
    ensures { result ≡ definite_of (length_in header.now) }
{
    match header.length() {
        Length::Definite(length) => Some(length),
        Length::Indefinite => None,
    }
}
