//! The place of an element.
ghost use Rattle.std.specs.Prelude.{◌≡◌, ◌↔◌, ◌∷◌, ◌++◌, [], IfOk, IsTrue, List, Option, Some, ℕ};
ghost use Rattle.der_actions.specs.FieldNames.{HasNamedBy};
ghost use Rattle.der_actions.specs.Paths.{path_of};
ghost use Rattle.der_actions.specs.Places.{FollowsPath, IsAsked, IsPathTo};
ghost use Rattle.der_schema.specs.declared.schema.Schema.{Schema};
ghost use Rattle.der_elements.specs.Visits.{Visited};
ghost use Rattle.der_elements.specs.Walked.{visited_of};

use crate::fields::Fields;
use crate::name::Name;
use crate::trail::Trail;
use der_elements::Element;
use std::alloc::{AllocError, Global};
use std::fmt;

/// The place of an element in an input.
#[derive(Clone, Copy, Debug, PartialEq)]
pub enum Place<'a> {
    /// A path to the element: as errors and JSON print it, or of the names of fields.
    Path(&'a str),
    /// The offset of the element in the input.
    Offset(usize),
}

impl fmt::Display for Place<'_> {
    fn fmt<W: fmt::Write>(&self, f: &mut fmt::Formatter<W>) -> fmt::Result {
        match self {
            Place::Path(path) => write!(f, "no element has the path {}", Name(path)),
            Place::Offset(offset) => write!(f, "no element begins at {offset}"),
        }
    }
}

/// Whether the element visited last is at a place. Without a place, the outermost elements are.
#[inline(always)]
pub(crate) fn is_asked(
    alloc: Global,
    place: Option<Place<'_>>,
    element: &Element<'_>,
    trail: &Trail,
    fields: &Fields<'_>,
) -> Result<bool, AllocError>
    ensures { (s : Option Schema) (i : List ℕ) (vs : List Visited) → let v = visited_of element.now in
        FollowsPath place.entry trail.now (vs ++ v ∷ []) → HasNamedBy s i (vs ++ v ∷ []) fields.now
        → IfOk result (λ asked. IsTrue asked ↔ IsAsked s i place.entry vs v) }
{
    match place {
        Some(place) => is_at(alloc, place, element, trail, fields),
        None => Ok(element.depth == 0),
    }
}

/// Whether the element visited last is at this place.
fn is_at(
    alloc: Global,
    place: Place<'_>,
    element: &Element<'_>,
    trail: &Trail,
    fields: &Fields<'_>,
) -> Result<bool, AllocError>
    ensures { (s : Option Schema) (i : List ℕ) (vs : List Visited) → let v = visited_of element.now in
        FollowsPath (Some place.entry) trail.now (vs ++ v ∷ []) → HasNamedBy s i (vs ++ v ∷ []) fields.now
        → IfOk result (λ asked. IsTrue asked ↔ IsAsked s i (Some place.entry) vs v) }
{
    match place {
        Place::Offset(offset) => Ok(element.offset == offset),
        Place::Path(path) => is_path(alloc, path, trail, fields),
    }
}

/// Whether a text is the path to the element visited last, as errors print it or of the names of fields.
fn is_path(
    alloc: Global,
    path: &str,
    trail: &Trail,
    fields: &Fields<'_>,
) -> Result<bool, AllocError>
    ensures { (s : Option Schema) (i : List ℕ) (vs : List Visited) → trail.now.steps.items ≡ path_of vs
        → HasNamedBy s i vs fields.now → IfOk result (λ is. IsTrue is ↔ IsPathTo s i vs path.now) }
{
    let has_types = trail.has_path(alloc, path)?;
    if has_types {
        return Ok(true);
    }
    fields.has_path(alloc, path)
}
