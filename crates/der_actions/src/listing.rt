//! The choice of the elements that are listed.
ghost use Rattle.std.specs.Prelude.{◌≡◌, ◌||◌, ◌∷◌, ◌++◌, IfOk, List, MatchBool, OnOk, Option, Some, [], false, ℕ};
ghost use Rattle.der_actions.specs.Places.{FollowsPath, around_after, is_listed, still_around};
ghost use Rattle.der_actions.specs.Choices.{HasChosen, Listed, listed_after};
ghost use Rattle.der_actions.specs.FieldNames.{HasNamedBy};
ghost use Rattle.der_schema.specs.declared.schema.Schema.{Schema};
ghost use Rattle.der_elements.specs.Visits.{Visited};
ghost use Rattle.der_elements.specs.Walked.{index_in, visited_of};

use crate::fields::Fields;
use crate::options::Options;
use crate::place::{Place, is_asked};
use crate::trail::Trail;
use der_elements::Element;
use std::alloc::{AllocError, Global};

/// Chooses the elements of a walk that are listed: those at a place, and those inside them up to a depth.
#[derive(Drop)]
pub(crate) struct Listing<'a> {
    place: Option<Place<'a>>,
    depth: Option<usize>,
    /// The depth of the outermost element at the place, while the walk is inside it.
    around: Option<usize>,
    /// Whether an element was listed.
    has_some: bool,
    /// The path to the element visited last, if the place is a path.
    trail: Trail,
}

impl<'a> Listing<'a> {
    /// The state before a walk.
    pub(crate) fn new(alloc: Global, options: &Options<'a>) -> Listing<'a>
        ensures { (s : Option Schema) (i : List ℕ) → HasChosen s i options.now result [] [] }
    {
        Listing {
            place: options.place,
            depth: options.depth,
            around: None,
            has_some: false,
            trail: Trail::new(alloc),
        }
    }

    /// Whether the next visited element is listed. `fields` has already moved on to it.
    pub(crate) fn takes(
        &mut self,
        alloc: Global,
        element: &Element<'_>,
        fields: &Fields<'_>,
    ) -> Result<bool, AllocError>
        ensures { (s : Option Schema) (i : List ℕ) (o : Options) (vs : List Visited) (us : List Listed)
            → HasChosen s i o self.old vs us → element.now.index ≡ index_in element.now.depth vs
            → let v = visited_of element.now in HasNamedBy s i (vs ++ v ∷ []) fields.now
            → IfOk result (λ taken. MatchBool taken
            (HasChosen s i o self.new (vs ++ v ∷ []) (us ++ listed_after vs v ∷ []))
            (HasChosen s i o self.new (vs ++ v ∷ []) us)) }
    {
        self.follow(element)?;
        let asked = is_asked(alloc, self.place, element, &self.trail, fields)?;
        self.around = around_after(self.around, asked, element.depth);
        let taken = is_listed(self.around, self.depth, element.depth);
        self.has_some = either(self.has_some, taken);
        Ok(taken)
    }

    /// Moves on to the next visited element, if a path is needed.
    fn follow(&mut self, element: &Element<'_>) -> Result<(), AllocError>
        ensures follows { (vs : List Visited) → FollowsPath self.old.place self.old.trail vs
            → element.now.index ≡ index_in element.now.depth vs
            → OnOk result (FollowsPath self.new.place self.new.trail (vs ++ visited_of element.now ∷ [])) }
        ensures keeps { (self.new.place ≡ self.old.place) × (self.new.depth ≡ self.old.depth)
            × (self.new.around ≡ self.old.around) × (self.new.has_some ≡ self.old.has_some) }
    {
        match self.place {
            Some(place) => follow_to(&mut self.trail, place, element),
            None => Ok(()),
        }
    }

    /// Whether an element was listed.
    pub(crate) fn has_some(&self) -> bool
        ensures { result ≡ self.now.has_some }
    {
        self.has_some
    }
}

/// Moves on to the next visited element, if the place is a path.
fn follow_to(trail: &mut Trail, place: Place<'_>, element: &Element<'_>) -> Result<(), AllocError>
    ensures { (vs : List Visited) → FollowsPath (Some place.entry) trail.old vs
        → element.now.index ≡ index_in element.now.depth vs
        → OnOk result (FollowsPath (Some place.entry) trail.new (vs ++ visited_of element.now ∷ [])) }
{
    match place {
        Place::Path(_) => trail.enter(element),
        Place::Offset(_) => Ok(()),
    }
}

/// The depth of the outermost element at the place, while the walk is inside it.
fn around_after(around: Option<usize>, asked: bool, depth: usize) -> Option<usize>
    ensures { result ≡ around_after around asked depth }
{
    match still_around(around, depth) {
        Some(before) => Some(before),
        None if asked => Some(depth),
        None => None,
    }
}

/// The depth of the element that the walk is still inside, before an element at this depth.
fn still_around(around: Option<usize>, depth: usize) -> Option<usize>
    ensures { result ≡ still_around around depth }
{
    match around {
        Some(before) if before < depth => Some(before),
        _ => None,
    }
}

/// Whether an element at this depth is listed.
fn is_listed(around: Option<usize>, most: Option<usize>, depth: usize) -> bool
    ensures { result ≡ is_listed around most depth }
{
    match (around, most) {
        (Some(before), Some(most)) => depth.saturating_sub(before) <= most,
        (Some(_), None) => true,
        (None, _) => false,
    }
}

/// Whether at least one of two is true.
fn either(first: bool, second: bool) -> bool
    ensures { result ≡ (first || second) }
{
    first || second
}
