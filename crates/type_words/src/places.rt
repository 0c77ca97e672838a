//! How the elements of each open content are shown.
ghost use Rattle.std.specs.Prelude.{◌≡◌, ◌≤◌, ◌∷◌, [], slice_get};
ghost use Rattle.der_elements.specs.Walked.{visited_of};
ghost use Rattle.der_schema.specs.Meaning.{words_in};
ghost use Rattle.der_schema.specs.Steps.{label_in, label_of};
ghost use Rattle.type_words.specs.Items.{after, first_place, has_line, heads, here, inside, is_explicit};
ghost use Rattle.type_words.specs.Items.{is_handed_in, is_of_content, item_of, kind_of, named, next_indent};
ghost use Rattle.type_words.specs.Items.{notation_by};
ghost use Rattle.type_words.specs.Items.{place_or, places_past, plain_place, read_by, step, step_by, worded};
ghost use Rattle.type_words.specs.Places.{place_of, places_in, said_of, step_of};

use crate::item::{Item, Label};
use arrayvec::ArrayVec;
use der_elements::Element;
use der_schema::schema::{Class, Secrecy};
use der_schema::words::{Notation, Words};
use der_schema::{Name, content_of};

/// The most contents that are open: the input, and those of an element and all elements around it.
const MAX_PLACES: usize = 102;

/// How the elements of a content are shown that have no words of their own.
#[derive(Clone, Copy)]
pub(crate) struct Place<'a> {
    /// How many levels deep their lines are.
    indent: usize,
    label: Label<'a>,
    notation: Notation,
}

/// The elements of an input.
const FIRST: Place<'static> = Place {
    indent: 0,
    label: Label::Nothing,
    notation: Notation::Silent,
};

/// Nothing is shown.
const HIDDEN: Place<'static> = Place {
    indent: 0,
    label: Label::Nothing,
    notation: Notation::Skipped,
};

/// The value of unused entries.
impl Default for Place<'_> {
    fn default() -> Self {
        HIDDEN
    }
}

/// How the elements of each open content are shown, the outermost content first.
#[derive(Drop)]
pub(crate) struct Places<'a> {
    places: ArrayVec<Place<'a>, MAX_PLACES>,
}

impl<'a> Places<'a> {
    /// Those of an input before its first element.
    pub(crate) fn new() -> Places<'a>
        ensures { places_in result ≡ first_place ∷ [] }
    {
        let mut places = ArrayVec::new();
        places.push(FIRST);
        Places { places }
    }

    /// Moves past the next element, which has this name, and returns its item. None if it has no line.
    pub(crate) fn pass(
        &mut self,
        element: &Element<'_>,
        name: Option<Name>,
        input: &'a [u8],
    ) -> Option<Item<'a>>
        requires { element.now.depth ≤ 100 }
        ensures item { said_of result
            ≡ (step (places_in self.old) input.now (named (visited_of element.now) (label_of name))).item }
        ensures places { places_in self.new
            ≡ places_past (places_in self.old) input.now (named (visited_of element.now) (label_of name)) }
    {
        let passing = self.place_at(element.depth).pass(element, name, input);
        self.places.truncate(element.depth);
        self.places.push(passing.after);
        self.places.push(passing.inside);
        passing.item
    }

    /// How the elements of the content at this depth are shown.
    fn place_at(&self, depth: usize) -> Place<'a>
        ensures { place_of result ≡ place_or (slice_get (places_in self.now) depth) }
    {
        match self.places.as_slice().get(depth) {
            Some(place) => *place,
            None => HIDDEN,
        }
    }
}

/// What is said of an element, and how what is after it and inside it is shown.
#[derive(Clone, Copy)]
struct Passing<'a> {
    item: Option<Item<'a>>,
    after: Place<'a>,
    inside: Place<'a>,
}

impl<'a> Place<'a> {
    /// Passes an element of an input, with its name.
    fn pass(self, element: &Element<'_>, name: Option<Name>, input: &'a [u8]) -> Passing<'a>
        ensures { step_of result ≡ step_by (label_of name) (place_of self.entry) input.now (visited_of element.now) }
    {
        let Some(name) = name else {
            return Passing {
                item: None,
                after: self,
                inside: HIDDEN,
            };
        };
        let here = self.with(&name);
        Passing {
            item: here.item(kind_of(name.words), element, input),
            after: self.after(here.notation, heads(name.words), content_of(input, element)),
            inside: here.inside(is_explicit(element)),
        }
    }

    /// How an element is shown that has this name.
    fn with(self, name: &Name) -> Place<'a>
        ensures { place_of result ≡ here (place_of self.entry) (label_in name.now) }
    {
        let place = self.with_words(name.words);
        match name.secrecy {
            Secrecy::Public => place,
            Secrecy::SecretUnread | Secrecy::Secret => Place {
                notation: Notation::Skipped,
                ..place
            },
        }
    }

    /// How an element is shown that has these words.
    fn with_words(self, words: Option<&'static Words>) -> Place<'a>
        ensures { place_of result ≡ worded (place_of self.entry) (words_in words.entry) }
    {
        let Some(words) = words else {
            return self;
        };
        let label = if words.label.is_empty() {
            self.label
        } else {
            Label::Words(words.label)
        };
        Place {
            indent: self.indent,
            label,
            notation: notation_by(self.notation, words.notation),
        }
    }

    /// The item of an element that is shown so. None if it has no line.
    fn item(self, kind: &'static str, element: &Element<'_>, input: &'a [u8]) -> Option<Item<'a>>
        ensures { said_of result ≡ item_of (place_of self.entry) kind.now input.now (visited_of element.now) }
    {
        if has_line(self.notation) && !is_handed_in(self.notation, is_explicit(element)) {
            Some(Item {
                indent: self.indent,
                offset: element.offset,
                label: self.label,
                kind,
                notation: self.notation,
                octets: read_by(self.notation, element, input),
            })
        } else {
            None
        }
    }

    /// How the elements inside an element are shown that is shown so.
    fn inside(self, explicit: bool) -> Place<'a>
        ensures { place_of result ≡ inside (place_of self.entry) explicit }
    {
        match self.notation {
            Notation::Silent => self,
            Notation::Title | Notation::Count => plain_place(self.indent.saturating_add(1)),
            Notation::Word(_) => plain_place(self.indent),
            _ if is_handed_in(self.notation, explicit) => self,
            _ => HIDDEN,
        }
    }

    /// How the elements after one in this notation are shown, which heads them or not.
    fn after(self, notation: Notation, heads: bool, octets: &'a [u8]) -> Place<'a>
        ensures { place_of result ≡ after (place_of self.entry) notation heads octets.now }
    {
        let label = match notation {
            Notation::Label => Label::Identifier(octets),
            _ => self.label,
        };
        Place {
            indent: next_indent(self.indent, has_line(notation) && heads),
            label,
            notation: self.notation,
        }
    }
}

/// A place without a label, this deep.
fn plain_place(indent: usize) -> Place<'static>
    ensures { place_of result ≡ plain_place indent }
{
    Place { indent, ..FIRST }
}

/// How deep what follows is: one level deeper if a line heads it.
fn next_indent(indent: usize, headed: bool) -> usize
    ensures { result ≡ next_indent indent headed }
{
    if headed {
        indent.saturating_add(1)
    } else {
        indent
    }
}

/// The octets that a notation reads: the content octets, or all from the header on.
fn read_by<'a>(notation: Notation, element: &Element<'_>, input: &'a [u8]) -> &'a [u8]
    ensures { result.now ≡ read_by notation input.now (visited_of element.now) }
{
    match notation {
        Notation::Filter => &input[element.offset.min(input.len())..],
        _ => content_of(input, element),
    }
}

/// How an element is read: as it says, or as what is around it.
fn notation_by(around: Notation, own: Notation) -> Notation
    ensures { result ≡ notation_by around own }
{
    match (around, own) {
        (Notation::Skipped, _) => Notation::Skipped,
        (_, Notation::Silent) => around,
        _ => own,
    }
}

/// What is in front of the value.
fn kind_of(words: Option<&'static Words>) -> &'static str
    ensures { result.now ≡ kind_of (words_in words.entry) }
{
    match words {
        Some(words) => words.kind,
        None => "",
    }
}

/// Whether the line of an element heads what follows it.
fn heads(words: Option<&'static Words>) -> bool
    ensures { result ≡ heads (words_in words.entry) }
{
    match words {
        Some(words) => words.heads,
        None => false,
    }
}

/// Whether a line has this notation.
fn has_line(notation: Notation) -> bool
    ensures { result ≡ has_line notation }
{
    !matches!(
        notation,
        Notation::Silent | Notation::Skipped | Notation::Label
    )
}

/// Whether this notation reads the content octets.
fn is_of_content(notation: Notation) -> bool
    ensures { result ≡ is_of_content notation }
{
    match notation {
        Notation::Silent | Notation::Skipped | Notation::Title | Notation::Count => false,
        Notation::Word(_) | Notation::Label | Notation::Filter => false,
        _ => true,
    }
}

/// Whether an element that is an explicit tag or not leaves its notation to the element inside.
fn is_handed_in(notation: Notation, explicit: bool) -> bool
    ensures { result ≡ is_handed_in notation explicit }
{
    is_of_content(notation) && explicit
}

/// Whether an element is an explicit tag (X.690 8.14), or a constructed type under an implicit one.
fn is_explicit(element: &Element<'_>) -> bool
    ensures { result ≡ is_explicit (visited_of element.now) }
{
    element.constructed && element.class != Class::Universal
}
