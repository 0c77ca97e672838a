//! What a schema expects in each open content.
ghost use Rattle.std.specs.Prelude.{◌≡◌, ◌+◌, ◌≤◌, [], ◌∷◌, ◌&&◌, drop, length, slice_get, true};
ghost use Rattle.std.specs.List.{list_all};
ghost use Rattle.der_schema.specs.Ends.{level_ends, whole_past};
ghost use Rattle.der_schema.specs.Meaning.{all_types};
ghost use Rattle.der_schema.specs.Opened.{name_in, opened_past, seen};
ghost use Rattle.der_schema.specs.Steps.{encoding_of, items_at, label_by};

use crate::level::{Level, may_all_end};
use crate::matching::{Called, Known, Step, has_items};
use der_elements::Element;

/// The most contents that are open: the input, and those of an element and all elements around it.
const MAX_LEVELS: usize = 102;

/// The most elements that may be around an element.
const MAX_DEPTH: usize = 100;

/// The value of unused entries. It is behind a reference because the compiler then copies it at once, and not entry by
/// entry.
const NO_LEVELS: &[Level; MAX_LEVELS] = &[Level::NOTHING; MAX_LEVELS];

/// Entries for what is expected in contents, the outermost first.
#[derive(Drop)]
struct Cells {
    levels: [Level; MAX_LEVELS],
}

impl Cells {
    ghost use Rattle.std.specs.Prelude.{◌≡◌, ◌+◌, ◌≤◌, Some, length, set, slice_get};
    ghost use Rattle.der_schema.specs.Meaning.{all_types, expected_of, has_items, past, state_of};
    ghost use Rattle.der_schema.specs.Steps.{encoding_of, passed_of};

    /// Moves past an element in the content around it, and enters the content of the element.
    #[inline(always)]
    fn pass(&mut self, element: &Element<'_>, known: &Known<'_>) -> Step
        requires shallow { element.now.depth ≤ 100 }
        requires sized { length self.old.levels ≡ 102 }
        ensures cells { self.new.levels ≡ set (set self.old.levels element.now.depth result.after)
            (element.now.depth + 1) result.inside }
        ensures step { (l : Level) → slice_get self.old.levels element.now.depth ≡ Some l
            → passed_of (all_types known.now.types.now) (has_items (expected_of l.expected)) result
            ≡ past (state_of (all_types known.now.types.now) l) (encoding_of known.now element.now) }
    {
        let depth = element.depth;
        let step = self.levels[depth].go_past(element, known);
        self.levels[depth + 1] = step.inside;
        step
    }
}

/// What is expected in each open content, the outermost first.
#[derive(Drop)]
pub(crate) struct Levels {
    cells: Cells,
    /// The number of open contents.
    len: usize,
    /// Whether each content that has ended had all its mandatory components.
    whole: bool,
    ghost bounded: { len ≤ 102 },
    ghost sized: { length cells.levels ≡ 102 },
}

impl Levels {
    ghost use Rattle.der_schema.specs.Levels.{levels_of, states_in};

    /// One open content.
    pub(crate) fn new(level: Level) -> Levels
        ensures levels { levels_of result ≡ level ∷ [] }
        ensures whole { result.whole ≡ true }
    {
        let mut levels = *NO_LEVELS;
        levels[0] = level;
        Levels {
            cells: Cells { levels },
            len: 1,
            whole: true,
        }
    }

    /// Whether the elements of the content at this depth are items.
    pub(crate) fn has_items(&self, depth: usize) -> bool
        ensures { result ≡ items_at (slice_get (levels_of self.now) depth) }
    {
        match self.level_at(depth) {
            Some(level) => has_items(level.expected),
            None => false,
        }
    }

    /// Moves past an element, and returns what it is called.
    #[inline(never)]
    pub(crate) fn pass(&mut self, element: &Element<'_>, known: &Known<'_>) -> Option<Called>
        ensures opened { element.now.depth ≤ 100 → states_in (all_types known.now.types.now) self.new
            ≡ opened_past (states_in (all_types known.now.types.now) self.old)
            (seen element.now.depth (encoding_of known.now element.now)) }
        ensures whole { element.now.depth ≤ 100 → self.new.whole
            ≡ whole_past self.old.whole (states_in (all_types known.now.types.now) self.old)
            (seen element.now.depth (encoding_of known.now element.now)) }
        ensures name { element.now.depth ≤ 100
            → label_by (items_at (slice_get (levels_of self.old) element.now.depth)) result
            ≡ name_in (states_in (all_types known.now.types.now) self.old)
            (seen element.now.depth (encoding_of known.now element.now)) }
    {
        let depth = element.depth;
        if depth > MAX_DEPTH || self.level_at(depth).is_none() {
            return None;
        }
        self.whole = self.is_whole_inside(depth);
        let step = self.cells.pass(element, known);
        self.len = depth + 2;
        step.called
    }

    /// Whether each content has all its mandatory components if it ends here.
    pub(crate) fn is_whole(&self) -> bool
        ensures { result ≡ (self.now.whole && list_all level_ends (levels_of self.now)) }
    {
        self.whole && may_all_end(self.as_slice())
    }

    /// Whether each content has all its mandatory components if those inside this one end here.
    fn is_whole_inside(&self, depth: usize) -> bool
        requires { depth ≤ 100 }
        ensures { result ≡ (self.now.whole && list_all level_ends (drop (depth + 1) (levels_of self.now))) }
    {
        let levels = self.as_slice();
        let begin = levels.len().min(depth + 1);
        self.whole && may_all_end(&levels[begin..])
    }

    /// What is expected in the content with this many elements around it.
    fn level_at(&self, depth: usize) -> Option<Level>
        ensures { result ≡ slice_get (levels_of self.now) depth }
    {
        self.as_slice().get(depth).copied()
    }

    /// The open contents.
    fn as_slice(&self) -> &[Level]
        ensures { result.now ≡ levels_of self.now }
    {
        &self.cells.levels[..self.len]
    }
}
