//! Paths of the names of fields.
ghost use Rattle.std.specs.Prelude.{◌≡◌, ◌≤◌, ◌++◌, ◌∷◌, [], Some, take};
ghost use Rattle.std.specs.Fmt.{DisplaysOnOk};
ghost use Rattle.der_schema.specs.NamePaths.{further_names, is_silent, name_step, named_text, shown};
ghost use Rattle.der_elements.specs.Walked.{visited_of};

use crate::matching::Name;
use arrayvec::ArrayVec;
use der_elements::{Element, Step};
use std::fmt;

/// The most steps of a path: one for the element, and one for each element around it.
const MAX_STEPS: usize = 102;

/// A step of a path: an element with its name.
#[derive(Clone, Copy, Debug, PartialEq)]
pub struct NameStep {
    /// The name of the element. None if it isn't in the schema.
    pub name: Option<Name>,
    /// The type of the element, and its index in the content.
    pub step: Step,
}

/// The value of unused entries.
impl Default for NameStep {
    fn default() -> NameStep {
        NameStep {
            name: None,
            step: Step::default(),
        }
    }
}

impl NameStep {
    /// Whether the step isn't written. This is so for the only element inside an explicit tag: the name of the tag
    /// stands for both.
    fn is_silent(&self) -> bool
        ensures { result ≡ is_silent self.now }
    {
        match self.name {
            Some(name) => !name.is_item && name.text.is_empty(),
            None => false,
        }
    }
}

/// The name of a component, the index of an item such as `[2]`, or the step of a walk if the element isn't in the
/// schema.
impl fmt::Display for NameStep {
    ghost use Rattle.std.specs.Prelude.{Some};
    ghost use Rattle.der_schema.specs.NamePaths.{name_step_text};

    ghost output = { λ x. Some (name_step_text x) };

    fn fmt<W: fmt::Write>(&self, f: &mut fmt::Formatter<W>) -> fmt::Result {
        let step = self.step;
        match self.name {
            Some(name) => write_named(f, name, step.index),
            None => write!(f, "{step}"),
        }
    }
}

/// Writes the step of an element that is in the schema.
fn write_named<W: fmt::Write>(f: &mut fmt::Formatter<W>, name: Name, index: usize) -> fmt::Result
    ensures { DisplaysOnOk W.Write.write_str_gives f.old result (Some (named_text name index)) f.new }
{
    let text = name.text;
    if name.is_item {
        write!(f, "[{index}]")
    } else {
        write!(f, "{text}")
    }
}

/// A step after the first.
#[derive(Clone, Copy)]
struct Further {
    step: NameStep,
}

/// The text of the step, after a dot unless it is an index.
impl fmt::Display for Further {
    ghost use Rattle.std.specs.Prelude.{◌++◌, Some};
    ghost use Rattle.der_schema.specs.NamePaths.{name_step_text, point_text};

    ghost output = { λ x. Some (point_text x.step ++ name_step_text x.step) };

    fn fmt<W: fmt::Write>(&self, f: &mut fmt::Formatter<W>) -> fmt::Result {
        let step = self.step;
        match step.name {
            Some(name) if name.is_item || name.text.is_empty() => write!(f, "{step}"),
            _ => write!(f, ".{step}"),
        }
    }
}

/// The path of names to the last element that a walk visited, such as `tbsCertificate.extensions[2].extnValue`. It has
/// a step for each element around that one except the outermost, and a step for itself. It doesn't allocate.
///
/// # Examples
///
/// ```
/// let mut path = NamePath::new();
/// while let Some(element) = walk.next_element()? {
///     path.enter(&element, namer.name_of(&element));
///     println!("{path}");
/// }
/// ```
#[derive(Drop)]
pub struct NamePath {
    steps: ArrayVec<NameStep, MAX_STEPS>,
}

impl NamePath {
    /// The path before a walk begins.
    pub fn new() -> NamePath
        ensures { result.steps.items ≡ [] }
    {
        NamePath {
            steps: ArrayVec::new(),
        }
    }

    /// Moves on to the next visited element, which has this name.
    pub fn enter(&mut self, element: &Element<'_>, name: Option<Name>)
        requires { element.now.depth ≤ 100 }
        ensures { self.new.steps.items ≡ take element.now.depth self.old.steps.items
            ++ name_step name element.now.index (visited_of element.now) ∷ [] }
    {
        self.steps.truncate(element.depth);
        self.steps.push(NameStep {
            name,
            step: element.step(),
        });
    }
}

impl fmt::Display for NamePath {
    ghost use Rattle.std.specs.Prelude.{Some};
    ghost use Rattle.der_schema.specs.NamePaths.{name_path_text};

    ghost output = { λ x. Some (name_path_text x.steps.items) };

    fn fmt<W: fmt::Write>(&self, f: &mut fmt::Formatter<W>) -> fmt::Result {
        let [_, inner @ ..] = self.steps.as_slice() else {
            return Ok(());
        };
        let [first, others @ ..] = shown(inner) else {
            return Ok(());
        };
        write!(f, "{first}")?;
        write_further(f, others)
    }
}

/// The steps from the first one that is written.
fn shown(steps: &[NameStep]) -> &[NameStep]
    ensures { result.now ≡ shown steps.now }
{
    let mut ahead = steps;
    while let Some((first, rest)) = ahead.split_first() {
        if !first.is_silent() {
            return ahead;
        }
        ahead = rest;
    }
    &[]
}

/// Writes steps, each after its separator.
fn write_further<W: fmt::Write>(f: &mut fmt::Formatter<W>, steps: &[NameStep]) -> fmt::Result
    ensures { DisplaysOnOk W.Write.write_str_gives f.old result (Some (further_names steps.now)) f.new }
{
    for step in steps {
        let further = Further { step: *step };
        write!(f, "{further}")?;
    }
    Ok(())
}
