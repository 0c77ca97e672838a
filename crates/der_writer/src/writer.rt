//! The writer.
ghost use Rattle.std.specs.Prelude.{◌≡◌, ◌+◌, ◌<◌, ◌≤◌, ◌++◌, ◌↔◌, [], ◌∷◌, IsTrue, drop, false, length, take, true};
ghost use Rattle.der_base.specs.declared.header.Class.{Class};
ghost use Rattle.der_base.specs.Encoding.{element};
ghost use Rattle.der_base.specs.Octets.{class_number, identifier, shortest_length};
ghost use Rattle.der_writer.specs.SetsOf.{ClosesSetOf};
ghost use Rattle.der_writer.specs.Written.{Closes, EndsContent, FillsTo, Finishes, IsPlain, IsTagged, Opens, OpensBits};
ghost use Rattle.der_writer.specs.Written.{Puts, PutsLeaf, Resumes, Returns, StartsAt, class_from, class_put, number_put};
ghost use Rattle.der_writer.specs.Written.{reserved};

use crate::element::{
    LONG_LENGTH, LONG_TAG, fill_length, header_size, identifier_octet, identifier_octets,
    write_primitive,
};
use crate::set_of::sort_between;
use der_base::header::{Class, Tag};
use der_values::octets::header::{identifier_octet_count, length_octet_count};

/// Writes DER field after field into a buffer, from its first octet on. It goes on counting where the buffer is full,
/// and `finish` returns an error.
///
/// ```
/// let mut fields = Writer::new(&mut buffer);
/// let algorithm = fields.open_sequence();
/// fields.put_oid(b"\x2b\x65\x70");
/// fields.close(algorithm);
/// let size = fields.finish()?;
/// ```
///
/// C sees its fields in this order.
#[repr(C)]
#[derive(Drop)]
pub struct Writer<'b> {
    out: &'b mut [u8],
    // How many octets there are, room or not.
    count: usize,
    // Where the length of the innermost open element stands. 0 if no element is open.
    innermost: usize,
    pub(crate) implicit: NextTag,
}

/// The implicit tag of the next element, if it has one, in numbers of C.
#[repr(C)]
#[derive(Clone, Copy)]
pub(crate) struct NextTag {
    // The class, from 1 to 4. 0 if there is none.
    class: u32,
    number: u32,
}

/// An element that is open, which `close` closes. A mark of the same numbers is the same mark.
#[repr(C)]
#[derive(Drop)]
pub struct Mark {
    /// Where its length stands.
    pub start: usize,
    /// Where that of the element around it stands. 0 if there is none.
    pub outer: usize,
}

/// Why the octets aren't all in the buffer.
#[derive(Clone, Copy, Debug, PartialEq, thiserror::Error)]
pub enum WriteError {
    /// The buffer has no room. So many octets are needed.
    #[error("no room, needs {0}")]
    NoRoom(usize),
    /// An element wasn't closed, or not before the one around it.
    #[error("element not closed")]
    NotClosed,
}

impl<'b> Writer<'b> {
    /// A writer at the start of a buffer.
    pub fn new(out: &'b mut [u8]) -> Writer<'b>
        ensures { StartsAt out.entry result }
    {
        Writer::resume(out, 0, 0)
    }

    /// A writer that goes on in a buffer where another one was, whose `count` and `innermost` these are. The next
    /// element has no implicit tag.
    pub fn resume(out: &'b mut [u8], count: usize, innermost: usize) -> Writer<'b>
        ensures { Resumes out.entry count innermost result }
    {
        Writer {
            out,
            count,
            innermost,
            implicit: NextTag {
                class: 0,
                number: 0,
            },
        }
    }

    /// How many octets there are, room or not.
    pub fn count(&self) -> usize
        ensures { result ≡ self.now.count }
    {
        self.count
    }

    /// Where the length of the innermost open element stands. 0 if no element is open.
    pub fn innermost(&self) -> usize
        ensures { result ≡ self.now.innermost }
    {
        self.innermost
    }

    /// Puts the next element, which has to be primitive, under an implicit tag (X.690 8.14.3): it has the class
    /// context-specific and this number in place of those of its type.
    pub fn implicit(&mut self, number: u32) -> &mut Writer<'b>
        ensures same { result.ghost_name ≡ self.entry.ghost_name }
        ensures tagged { IsTagged Class.ContextSpecific number self.old result.now }
    {
        self.implicit_of(Class::ContextSpecific, number)
    }

    /// The same of a tag of another class.
    pub fn implicit_of(&mut self, class: Class, number: u32) -> &mut Writer<'b>
        ensures same { result.ghost_name ≡ self.entry.ghost_name }
        ensures tagged { IsTagged class number self.old result.now }
    {
        self.implicit = NextTag {
            class: class_from_one(class),
            number,
        };
        self
    }

    /// Puts octets as they are: elements of DER that were written before.
    #[inline]
    pub fn put_elements(&mut self, octets: &[u8])
        ensures { Puts octets.now self.old self.new }
    {
        self.implicit.class = 0;
        let end = self.count.saturating_add(octets.len());
        fill(self.out, self.count, end, octets);
        self.count = end;
    }

    /// Puts a primitive element of a universal type, or of the implicit tag that it has.
    #[inline]
    pub(crate) fn put_primitive(&mut self, tag: Tag, octets: &[u8])
        ensures { PutsLeaf tag.0 octets.now self.old self.new }
    {
        if self.has_short_header(tag, octets.len()) {
            self.put_short(tag.0 as u8, octets);
        } else {
            self.put_tagged(tag, octets);
        }
    }

    /// Puts an identifier octet, a length of one octet, and the content.
    #[inline]
    fn put_short(&mut self, identifier: u8, octets: &[u8])
        requires { length octets.now < 128 }
        ensures { Puts (identifier ∷ length octets.now ∷ octets.now) self.old self.new }
    {
        self.implicit.class = 0;
        let end = self.count.saturating_add(octets.len() + 2);
        fill_short(self.out, self.count, end, identifier, octets);
        self.count = end;
    }

    /// Whether a primitive element of a universal type has a header of two octets: it has no implicit tag.
    #[inline]
    fn has_short_header(&self, tag: Tag, content_size: usize) -> bool
        ensures { IsTrue result ↔ (IsPlain self.now × (tag.0 < 31) × (content_size < 128)) }
    {
        self.implicit.class == 0 && tag.0 < LONG_TAG && content_size < LONG_LENGTH
    }

    /// Puts a primitive element of any tag and size.
    #[inline(never)]
    fn put_tagged(&mut self, tag: Tag, octets: &[u8])
        ensures { PutsLeaf tag.0 octets.now self.old self.new }
    {
        let (class, number) = tag_put(self.implicit, tag);
        if number.0 < LONG_TAG && octets.len() < LONG_LENGTH {
            self.put_short(identifier_octet(class, false, number), octets);
        } else {
            self.put_long(tag, octets);
        }
    }

    /// Puts a primitive element with any header, from its last octet to the first.
    #[inline(never)]
    fn put_long(&mut self, tag: Tag, octets: &[u8])
        ensures { PutsLeaf tag.0 octets.now self.old self.new }
    {
        let (class, tag) = tag_put(self.implicit, tag);
        self.implicit.class = 0;
        let size = octets.len().saturating_add(header_size(tag, octets.len()));
        let end = self.count.saturating_add(size);
        put_between(self.out, self.count, end, class, tag, octets);
        self.count = end;
    }

    /// Puts a primitive element of one octet. A header of two octets and the content are written at once.
    #[inline]
    pub(crate) fn put_octet(&mut self, tag: Tag, octet: u8)
        ensures { PutsLeaf tag.0 (octet ∷ []) self.old self.new }
    {
        if self.has_short_header(tag, 1) {
            self.put_elements(&[tag.0 as u8, 1, octet]);
        } else {
            self.put_tagged_octet(tag, octet);
        }
    }

    /// The same under any tag.
    #[inline(never)]
    fn put_tagged_octet(&mut self, tag: Tag, octet: u8)
        ensures { PutsLeaf tag.0 (octet ∷ []) self.old self.new }
    {
        let (class, number) = tag_put(self.implicit, tag);
        if number.0 < LONG_TAG {
            self.put_elements(&[identifier_octet(class, false, number), 1, octet]);
        } else {
            self.put_long(tag, &[octet]);
        }
    }

    /// Puts a primitive element of two octets, as `put_octet`.
    #[inline]
    pub(crate) fn put_two_octets(&mut self, tag: Tag, first: u8, second: u8)
        ensures { PutsLeaf tag.0 (first ∷ second ∷ []) self.old self.new }
    {
        if self.has_short_header(tag, 2) {
            self.put_elements(&[tag.0 as u8, 2, first, second]);
        } else {
            self.put_tagged(tag, &[first, second]);
        }
    }

    /// The same of a content in two parts.
    pub(crate) fn put_parts(&mut self, tag: Tag, front: &[u8], octets: &[u8])
        ensures { PutsLeaf tag.0 (front.now ++ octets.now) self.old self.new }
    {
        let (class, tag) = tag_put(self.implicit, tag);
        let element = self.open(class, false, tag);
        self.put_elements(front);
        self.put_elements(octets);
        self.close(element);
    }

    /// Opens a SEQUENCE (8.9).
    pub fn open_sequence(&mut self) -> Mark
        ensures { Opens Class.Universal true 16 result self.old self.new }
    {
        self.open(Class::Universal, true, Tag::Sequence)
    }

    /// Opens a SET (8.11).
    pub fn open_set(&mut self) -> Mark
        ensures { Opens Class.Universal true 17 result self.old self.new }
    {
        self.open(Class::Universal, true, Tag::Set)
    }

    /// Opens an OCTET STRING whose octets are elements (8.7).
    pub fn open_octet_string(&mut self) -> Mark
        ensures { Opens Class.Universal false 4 result self.old self.new }
    {
        self.open(Class::Universal, false, Tag::OctetString)
    }

    /// Opens a BIT STRING whose bits are elements, as a key of RSA. All bits of its last octet are used (8.6.2.2).
    pub fn open_bit_string(&mut self) -> Mark
        ensures { OpensBits result self.old self.new }
    {
        let bits = self.open(Class::Universal, false, Tag::BitString);
        self.put_elements(&[0]);
        bits
    }

    /// Opens an element of the class context-specific: an explicit tag around what is put (8.14.2), or a SEQUENCE or
    /// SET with an implicit tag (8.14.3).
    pub fn open_tagged(&mut self, number: u32) -> Mark
        ensures { Opens Class.ContextSpecific true number result self.old self.new }
    {
        self.open(Class::ContextSpecific, true, Tag(number))
    }

    /// Opens an element of this class, constructed bit and tag number. What is put until it is closed is its content.
    pub fn open(&mut self, class: Class, constructed: bool, tag: Tag) -> Mark
        ensures { Opens class constructed tag.0 result self.old self.new }
    {
        let start = self.count.saturating_add(identifier_octet_count(tag));
        self.put_opening(class, constructed, tag);
        let outer = self.innermost;
        self.innermost = start;
        Mark { start, outer }
    }

    /// Puts identifier octets, and a 0 that is reserved for the length.
    fn put_opening(&mut self, class: Class, constructed: bool, tag: Tag)
        ensures { Puts (identifier class constructed tag.0 ++ reserved) self.old self.new }
    {
        if tag.0 < LONG_TAG {
            self.put_elements(&[identifier_octet(class, constructed, tag), 0]);
        } else {
            let mut room = [0; 8];
            let octets = identifier_octets(&mut room, class, constructed, tag);
            self.put_elements(octets);
        }
    }

    /// Closes an element. Those that were opened in it have to be closed before: otherwise nothing is closed, and
    /// `finish` returns `NotClosed`.
    pub fn close(&mut self, mark: Mark)
        ensures { Closes mark self.old self.new }
    {
        self.implicit.class = 0;
        if mark.start != self.innermost {
            return;
        }
        self.innermost = mark.outer;
        self.end_content(mark.start);
    }

    /// Closes a SET OF, as `close`, and sorts the elements that were put in it (11.6), in the buffer. For n of them it
    /// takes up to n^2/2 comparisons.
    pub fn close_set_of(&mut self, mark: Mark)
        ensures { ClosesSetOf mark self.old self.new }
    {
        if mark.start == self.innermost {
            sort_between(self.out, mark.start.saturating_add(1), self.count);
        }
        self.close(mark);
    }

    /// Makes all from an offset on the content of one element: its length is written there, in place of the octet that
    /// is reserved for it.
    #[inline]
    fn end_content(&mut self, start: usize)
        ensures { EndsContent start self.old self.new }
    {
        let size = self.count.saturating_sub(start);
        if size > 0 && size <= LONG_LENGTH {
            fill(self.out, start, start + 1, &[(size - 1) as u8]);
        } else {
            self.end_long_content(start);
        }
    }

    /// The same of a content that is moved, since its length has more octets.
    #[inline(never)]
    fn end_long_content(&mut self, start: usize)
        ensures { EndsContent start self.old self.new }
    {
        let size = self.count.saturating_sub(start);
        let start = self.count - size;
        let content_size = size.saturating_sub(1);
        let end = start
            .saturating_add(length_octet_count(content_size))
            .saturating_add(content_size);
        wrap(self.out, start, end, content_size);
        self.count = end;
    }

    /// How many octets there are, at the front of the buffer. `NotClosed` if an element is open; `NoRoom` if the buffer
    /// has fewer octets.
    pub fn finish(self) -> Result<usize, WriteError>
        ensures { Finishes self.entry self.exit.0.now result }
    {
        self.finished()
    }

    /// The same of a writer that goes on.
    pub fn finished(&self) -> Result<usize, WriteError>
        ensures { Returns self.now result }
    {
        if self.innermost != 0 {
            Err(WriteError::NotClosed)
        } else if self.count <= self.out.len() {
            Ok(self.count)
        } else {
            Err(WriteError::NoRoom(self.count))
        }
    }
}

/// Writes octets between two offsets, if the buffer has room.
#[inline]
fn fill(out: &mut [u8], begin: usize, end: usize, octets: &[u8])
    requires { end ≤ length out.old → begin + length octets.now ≡ end }
    ensures { FillsTo end out.old out.new begin octets.now }
{
    if end <= out.len() {
        copy(out, begin, end, octets);
    }
}

/// Writes an identifier octet, a length of one octet, and the content, if the buffer has room.
#[inline]
fn fill_short(out: &mut [u8], begin: usize, end: usize, identifier: u8, octets: &[u8])
    requires small { length octets.now < 128 }
    requires within { end ≤ length out.old → begin + 2 + length octets.now ≡ end }
    ensures { FillsTo end out.old out.new begin (identifier ∷ length octets.now ∷ octets.now) }
{
    if end <= out.len() {
        copy(out, begin, begin + 2, &[identifier, octets.len() as u8]);
        copy(out, begin + 2, end, octets);
    }
}

/// Writes octets between two offsets.
#[inline]
fn copy(out: &mut [u8], begin: usize, end: usize, octets: &[u8])
    requires between { begin + length octets.now ≡ end }
    requires within { end ≤ length out.old }
    ensures { FillsTo end out.old out.new begin octets.now }
{
    out[begin..end].copy_from_slice(octets);
}

/// Writes a primitive element between two offsets, if the buffer has room.
fn put_between(out: &mut [u8], begin: usize, end: usize, class: Class, tag: Tag, octets: &[u8])
    requires { end ≤ length out.old → begin + length (element class false tag.0 octets.now) ≡ end }
    ensures { FillsTo end out.old out.new begin (element class false tag.0 octets.now) }
{
    if end <= out.len() {
        write_primitive(&mut out[begin..end], class, tag, octets);
    }
}

/// The tag of the next element: that of its type, or an implicit one.
pub(crate) fn tag_put(implicit: NextTag, tag: Tag) -> (Class, Tag)
    ensures class { result.0 ≡ class_put implicit }
    ensures number { result.1.0 ≡ number_put implicit tag.0 }
{
    match implicit.class {
        0 => (Class::Universal, tag),
        class => (class_of(class), Tag(implicit.number)),
    }
}

/// The class with this number, from 1 on. Any number above 4 is that of the last one.
fn class_of(number: u32) -> Class
    ensures { result ≡ class_from number }
{
    match number {
        0 | 1 => Class::Universal,
        2 => Class::Application,
        3 => Class::ContextSpecific,
        _ => Class::Private,
    }
}

/// The number of a class, from 1 on.
fn class_from_one(class: Class) -> u32
    ensures { result ≡ class_number class + 1 }
{
    match class {
        Class::Universal => 1,
        Class::Application => 2,
        Class::ContextSpecific => 3,
        Class::Private => 4,
    }
}

/// Writes the length of an open element from an offset on, and moves its content up to the end.
fn wrap(out: &mut [u8], begin: usize, end: usize, content_size: usize)
    requires { end ≤ length out.old → begin + length (shortest_length content_size) + content_size ≡ end }
    ensures { FillsTo end out.old out.new begin
        (shortest_length content_size ++ take content_size (drop (begin + 1) out.old)) }
{
    if end <= out.len() {
        let content = end - content_size;
        move_up(out, begin + 1, content, content_size);
        fill_length(&mut out[begin..content], content_size);
    }
}

/// Moves so many octets up to another offset, if that is higher.
#[tactic(auto, using(crate::proofs::Moves::behind_stays))]
fn move_up(out: &mut [u8], from: usize, to: usize, count: usize)
    requires up { from ≤ to }
    requires within { to + count ≤ length out.old }
    ensures size { length out.new ≡ length out.old }
    ensures front { take from out.new ≡ take from out.old }
    ensures moved { take count (drop to out.new) ≡ take count (drop from out.old) }
    ensures behind { drop (to + count) out.new ≡ drop (to + count) out.old }
{
    if to > from {
        out.copy_within(from..from + count, to);
    }
}
