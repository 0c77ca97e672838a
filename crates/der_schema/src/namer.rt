//! Names of elements in preorder.
ghost use Rattle.std.specs.Prelude.{◌≡◌, ◌≤◌, [], List, ℕ};

use crate::level::{Content, Level, nothing_selected};
use crate::levels::Levels;
use crate::matching::{Known, Name, name_by};
use crate::schema::Schema;
use der_elements::Element;

/// Names the elements of an input by a schema, one after another in preorder. It doesn't allocate.
///
/// # Examples
///
/// ```
/// let mut walk = Walk::new(input, Rules::Der, true);
/// let mut namer = Namer::new(input, schema);
/// while let Some(element) = walk.next_element()? {
///     let name = namer.name_of(&element);
///     println!("{:?} {:?}", element.offset, name);
/// }
/// ```
#[derive(Drop)]
pub struct Namer<'a> {
    known: Known<'a>,
    levels: Levels,
}

impl<'a> Namer<'a> {
    ghost use Rattle.der_elements.specs.Visits.{Visited};
    ghost use Rattle.der_elements.specs.Walked.{visited_of};
    ghost use Rattle.der_schema.specs.Meaning.{Root, root_of};
    ghost use Rattle.der_schema.specs.Ends.{is_whole_after};
    ghost use Rattle.der_schema.specs.Encodings.{all_seen};
    ghost use Rattle.der_schema.specs.Named.{HasNamed, NamesNext};

    /// A namer for the elements of an input that should have this type.
    pub fn new(input: &'a [u8], schema: Schema<'a>) -> Namer<'a>
        ensures { HasNamed (root_of schema.entry) input.now [] result }
    {
        let level = Level {
            expected: Content::Ordered(schema.components),
            selected: nothing_selected(),
        };
        Namer {
            known: Known {
                input,
                types: schema.types,
            },
            levels: Levels::new(level),
        }
    }

    /// The name of the next element that a walk through the input visits. None if the element isn't in the schema. Then
    /// no element inside it has a name, and none after it in the same content.
    pub fn name_of(&mut self, element: &Element<'_>) -> Option<Name>
        ensures { (sc : Root) (i : List ℕ) (vs : List Visited) → HasNamed sc i vs self.old → element.now.depth ≤ 100
            → NamesNext sc i vs (visited_of element.now) self.new result }
    {
        let is_item = self.levels.has_items(element.depth);
        name_by(self.levels.pass(element, &self.known), is_item)
    }

    /// Whether each content so far has all its mandatory components if the input ends here.
    pub fn is_whole(&self) -> bool
        ensures { (sc : Root) (i : List ℕ) (vs : List Visited) → HasNamed sc i vs self.now
            → result ≡ is_whole_after sc (all_seen i vs) }
    {
        self.levels.is_whole()
    }
}
