//! The names of fields, and the paths of names.
ghost use Rattle.std.specs.Prelude.{◌≡◌, ◌≤◌, ◌↔◌, ◌∷◌, ◌++◌, [], IfOk, IsTrue, List, Option, ℕ, option_map};
ghost use Rattle.std.specs.Prelude.{string_bytes, take};
ghost use Rattle.der_actions.specs.FieldNames.{HasNamedBy, HasNamedSo, IsFieldIn};
ghost use Rattle.der_actions.specs.Paths.{HasNamePath, IsNamePathOf};
ghost use Rattle.text_json.specs.Fields.Fields.{label_text};
ghost use Rattle.der_schema.specs.declared.schema.Schema.{Schema};
ghost use Rattle.der_schema.specs.NamePaths.{name_path_text, name_step};
ghost use Rattle.der_schema.specs.Steps.{label_of};
ghost use Rattle.der_elements.specs.Visits.{Visited};
ghost use Rattle.der_elements.specs.Walked.{index_in, visited_of};

use der_elements::{Element, MAX_DEPTH};
use der_schema::{Name, NamePath, Namer, Schema};
use std::alloc::{AllocError, Global};
use text_json::fields::{Exposure, Secrets};

/// What a type tells about an element.
#[derive(Clone, Copy)]
pub(crate) struct Field {
    /// The name of the field. Empty if the type has none.
    pub name: &'static str,
    /// How much of the element may be printed.
    pub exposure: Exposure,
}

/// Names the elements of a walk by a type. Without a type, none has a name.
#[derive(Drop)]
pub(crate) struct Fields<'a> {
    namer: Option<Namer<'a>>,
    secrets: Secrets,
    /// The path of names to the element visited last.
    path: NamePath,
}

impl<'a> Fields<'a> {
    /// The state before a walk through an input.
    pub(crate) fn new(input: &'a [u8], schema: Option<Schema<'a>>) -> Fields<'a>
        ensures { HasNamedBy schema.entry input.now [] result }
    {
        Fields {
            namer: namer_of(input, schema),
            secrets: Secrets::new(),
            path: NamePath::new(),
        }
    }

    /// Moves on to the next visited element, and returns what the type tells about it.
    pub(crate) fn field_of(&mut self, element: &Element<'_>) -> Field
        ensures { (s : Option Schema) (i : List ℕ) (vs : List Visited) → HasNamedBy s i vs self.old
            → element.now.depth ≤ 100 → element.now.index ≡ index_in element.now.depth vs
            → let v = visited_of element.now in
            HasNamedBy s i (vs ++ v ∷ []) self.new × IsFieldIn s i vs v result }
    {
        match &mut self.namer {
            Some(namer) => {
                let name = namer.name_of(element);
                enter(&mut self.path, element, name);
                Field {
                    name: text_of(name),
                    exposure: self.secrets.pass(element, name),
                }
            }
            None => Field {
                name: "",
                exposure: Exposure::Full,
            },
        }
    }

    /// The path of names to the element visited last. None without a type.
    pub(crate) fn path(&self, alloc: Global) -> Result<Option<String>, AllocError>
        ensures { (s : Option Schema) (i : List ℕ) (vs : List Visited) → HasNamedBy s i vs self.now
            → IfOk result (λ path. IsNamePathOf s i vs (option_map string_bytes path)) }
    {
        match &self.namer {
            Some(_) => Ok(Some(text_of_path(alloc, &self.path)?)),
            None => Ok(None),
        }
    }

    /// Whether this text is the path of names to the element visited last.
    pub(crate) fn has_path(&self, alloc: Global, text: &str) -> Result<bool, AllocError>
        ensures { (s : Option Schema) (i : List ℕ) (vs : List Visited) → HasNamedBy s i vs self.now
            → IfOk result (λ has. IsTrue has ↔ HasNamePath s i vs text.now) }
    {
        match self.path(alloc)? {
            Some(path) => Ok(is_same(path.as_str(), text)),
            None => Ok(false),
        }
    }
}

/// A namer for the elements of an input, if there is a type.
fn namer_of<'a>(input: &'a [u8], schema: Option<Schema<'a>>) -> Option<Namer<'a>>
    ensures { HasNamedSo schema.entry result input.now [] }
{
    match schema {
        Some(schema) => Some(Namer::new(input, schema)),
        None => None,
    }
}

/// Moves on to the next visited element, which has this name.
fn enter(path: &mut NamePath, element: &Element<'_>, name: Option<Name>)
    ensures { element.now.depth ≤ 100 → path.new.steps.items ≡ take element.now.depth path.old.steps.items
        ++ name_step name element.now.index (visited_of element.now) ∷ [] }
{
    if element.depth <= MAX_DEPTH {
        path.enter(element, name);
    }
}

/// The text of a path of names.
fn text_of_path(alloc: Global, path: &NamePath) -> Result<String, AllocError>
    ensures { IfOk result (λ text. string_bytes text ≡ name_path_text path.now.steps.items) }
{
    format!(in alloc; "{path}")
}

/// Whether two texts are the same.
fn is_same(text: &str, other: &str) -> bool
    ensures { IsTrue result ↔ (text.now ≡ other.now) }
{
    text == other
}

/// The text of a name. Empty if there is none.
fn text_of(name: Option<Name>) -> &'static str
    ensures { result.now ≡ label_text (label_of name) }
{
    match name {
        Some(name) => name.text,
        None => "",
    }
}
