//! The octets of a line.
ghost use Rattle.std.specs.Prelude.{◌≡◌, ◌≤◌, [], ◌∷◌, ◌++◌, IfOk, IfSome, OnOk, codes, drop, length, take};
ghost use Rattle.der_base.specs.Pretty.{spaces};
ghost use Rattle.der_print.specs.Cuts.{cut, in_columns};
ghost use Rattle.der_print.specs.Names.{table_of};
ghost use Rattle.der_print.specs.Parts.{AddsEnding, AddsPart, GrowsByEnding};
ghost use Rattle.der_print.specs.Texts.{content_of, octets_in};
ghost use Rattle.der_elements.specs.Walked.{visited_of};

use crate::cut::{characters, end_of};
use crate::ending::{ends_with_type, write_ending};
use crate::shown::are_shown;
use crate::style::Limit;
use der_elements::Element;
use oid_names::OwnNames;
use std::alloc::{AllocError, Global};
use std::fmt;
use std::fmt::Write;

/// The dots after a cut text.
const POINTS: &[u8] = b"...";

/// The most spaces of an indentation.
const SPACES: &[u8; 200] = &[b' '; 200];

/// The escape character.
const ESCAPE: u8 = 0x1b;

/// The octets of a line.
#[derive(Drop)]
pub(crate) struct LineOctets {
    octets: Vec<u8>,
}

impl LineOctets {
    /// An empty line.
    pub(crate) fn new(alloc: Global) -> LineOctets
        ensures { octets_in result ≡ [] }
    {
        LineOctets {
            octets: Vec::new(alloc),
        }
    }

    /// Clears the line and keeps its memory.
    pub(crate) fn clear(&mut self)
        ensures { octets_in self.new ≡ [] }
    {
        self.octets.clear();
    }

    /// The octets.
    pub(crate) fn as_bytes(&self) -> &[u8]
        ensures { result.now ≡ octets_in self.now }
    {
        self.octets.as_slice()
    }

    /// The number of octets.
    pub(crate) fn len(&self) -> usize
        ensures { result ≡ length (octets_in self.now) }
    {
        self.octets.len()
    }

    /// Puts octets at the end.
    pub(crate) fn put(&mut self, octets: &[u8]) -> Result<(), AllocError>
        ensures { OnOk result (octets_in self.new ≡ octets_in self.old ++ octets.now) }
    {
        self.octets.extend_from_slice(octets)
    }

    /// Puts octets at the end. Pushing one costs less than copying a slice.
    fn put_few(&mut self, octets: &[u8]) -> Result<(), AllocError>
        ensures { OnOk result (octets_in self.new ≡ octets_in self.old ++ octets.now) }
    {
        match octets {
            [octet] => self.push(*octet),
            _ => self.put(octets),
        }
    }

    /// Puts an octet at the end.
    pub(crate) fn push(&mut self, octet: u8) -> Result<(), AllocError>
        ensures { OnOk result (octets_in self.new ≡ octets_in self.old ++ octet ∷ []) }
    {
        self.octets.push(octet)?;
        Ok(())
    }

    /// Puts spaces at the end, at most 200.
    pub(crate) fn put_spaces(&mut self, count: usize) -> Result<(), AllocError>
        requires { count ≤ 200 }
        ensures { OnOk result (octets_in self.new ≡ octets_in self.old ++ spaces count) }
    {
        if count == 0 {
            return Ok(());
        }
        self.put(&SPACES[..count])
    }

    /// Puts an escape character and octets at the end.
    #[inline(never)]
    pub(crate) fn put_escaped(&mut self, octets: &[u8]) -> Result<(), AllocError>
        ensures { OnOk result (octets_in self.new ≡ octets_in self.old ++ 0x1b ∷ octets.now) }
    {
        self.push(ESCAPE)?;
        self.put(octets)
    }

    /// Puts a part at the end, as far as the limit allows.
    pub(crate) fn put_part(&mut self, text: &[u8], left: &mut Limit) -> Result<(), AllocError>
        ensures { OnOk result (AddsPart left.old text.now (octets_in self.old) (octets_in self.new) left.new) }
    {
        let start = self.len();
        self.put(text)?;
        self.end_part(start, left)
    }

    /// Puts a word and a space at the end, as far as the limit allows.
    pub(crate) fn put_word(&mut self, word: &[u8], left: &mut Limit) -> Result<(), AllocError>
        ensures { OnOk result
            (AddsPart left.old (word.now ++ codes " ") (octets_in self.old) (octets_in self.new) left.new) }
    {
        let start = self.len();
        self.put(word)?;
        self.push(b' ')?;
        self.end_part(start, left)
    }

    /// Puts the text of a value at the end.
    pub(crate) fn put_text<D: fmt::Display + Drop>(&mut self, value: D) -> Result<(), AllocError>
        ensures { OnOk result (IfSome (D.output value) (λ text.
            octets_in self.new ≡ octets_in self.old ++ text)) }
    {
        match self.write(value) {
            Ok(()) => Ok(()),
            Err(_) => Err(AllocError),
        }
    }

    /// Puts what follows the type on an element's line, as far as the limit allows. An error if memory runs out, or if
    /// it has a control character of ASCII, so the line stays one line.
    pub(crate) fn put_ending<'n>(
        &mut self,
        element: &Element<'_>,
        limit: Limit,
        own: Option<&'n OwnNames<'n>>,
    ) -> Result<(), AllocError>
        ensures { let v = visited_of element.now in let w = content_of element.now in
            OnOk result (AddsEnding (table_of own.entry) limit v w (octets_in self.old) (octets_in self.new)) }
    {
        if ends_with_type(element) {
            return Ok(());
        }
        let start = self.len();
        self.write_ending(element, limit, own)?;
        if !are_shown(self.octets_from(start)) {
            return Err(AllocError);
        }
        let mut left = limit;
        self.end_part(start, &mut left)
    }

    /// Puts what follows the type on an element's line at the end.
    fn write_ending<'n>(
        &mut self,
        element: &Element<'_>,
        limit: Limit,
        own: Option<&'n OwnNames<'n>>,
    ) -> Result<(), AllocError>
        ensures { let v = visited_of element.now in let w = content_of element.now in
            OnOk result (GrowsByEnding (table_of own.entry) limit v w self.old self.new) }
    {
        let mut f = fmt::Formatter::new(&mut *self);
        let written = write_ending(&mut f, element, limit, own);
        f.into_inner();
        match written {
            Ok(()) => Ok(()),
            Err(_) => Err(AllocError),
        }
    }

    /// Ends the last part of the line, from `start` on, and cuts it to the limit.
    #[inline(always)]
    pub(crate) fn end_part(&mut self, start: usize, left: &mut Limit) -> Result<(), AllocError>
        ensures { let old = octets_in self.old in
            OnOk result (AddsPart left.old (drop start old) (take start old) (octets_in self.new) left.new) }
    {
        if let Limit::Columns(columns) = *left {
            *left = self.end_columns(start, columns)?;
        }
        Ok(())
    }

    /// Ends the last part of the line, from `start` on, with this number of columns left.
    #[inline(never)]
    fn end_columns(&mut self, start: usize, columns: usize) -> Result<Limit, AllocError>
        ensures { let old = octets_in self.old in
            IfOk result (AddsPart (Limit.Columns columns) (drop start old) (take start old) (octets_in self.new)) }
    {
        self.cut(start, columns)?;
        let part = self.len().saturating_sub(start);
        Ok(Limit::Columns(columns.saturating_sub(part)))
    }

    /// Cuts the octets from an offset on to this number of columns.
    fn cut(&mut self, start: usize, columns: usize) -> Result<(), AllocError>
        ensures { let old = octets_in self.old in OnOk result
            (octets_in self.new ≡ take start old ++ in_columns columns (drop start old)) }
    {
        let text = self.octets_from(start);
        if characters(text) <= columns {
            return Ok(());
        }
        let (points, _) = POINTS.split_at(POINTS.len().min(columns));
        let kept = end_of(text, columns - points.len());
        self.octets.truncate(start.saturating_add(kept));
        self.put(points)?;
        Ok(())
    }

    /// The octets from an offset on.
    fn octets_from(&self, offset: usize) -> &[u8]
        ensures { result.now ≡ drop offset (octets_in self.now) }
    {
        let octets = self.octets.as_slice();
        if offset < octets.len() {
            &octets[offset..]
        } else {
            &[]
        }
    }
}

impl fmt::Write for LineOctets {
    ghost write_str_gives = { λ l text m. octets_in m ≡ octets_in l ++ text };

    fn write_str(&mut self, text: &str) -> fmt::Result {
        match self.put_few(text.as_bytes()) {
            Ok(()) => Ok(()),
            Err(_) => Err(fmt::Error),
        }
    }
}
