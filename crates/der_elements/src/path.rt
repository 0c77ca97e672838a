//! The path to an element.
ghost use Rattle.std.specs.Prelude.{◌≡◌, ◌<◌, ◌↔◌, IsTrue, Some, [], ◌∷◌, ◌++◌, length};
ghost use Rattle.std.specs.Fmt.{DisplaysOnOk};
ghost use Rattle.der_elements.specs.Paths.{further_text};

use crate::name::TypeName;
use arrayvec::ArrayVec;
use der_base::header::Class;
use std::fmt;

/// The most steps of a path: one for each open element, and the rejected element.
const MAX_STEPS: usize = 102;

/// A step of a path: one element.
#[derive(Clone, Copy, Debug, PartialEq)]
pub struct Step {
    pub name: TypeName,
    /// The index among the elements of the same content, from 0.
    pub index: usize,
}

/// The value of unused entries.
impl Default for Step {
    fn default() -> Step {
        Step {
            name: TypeName {
                class: Class::Universal,
                number: 0,
            },
            index: 0,
        }
    }
}

/// A universal type is written with its index, such as `SEQUENCE[2]`, and any other tag without, such as `[3]`.
impl fmt::Display for Step {
    ghost use Rattle.std.specs.Prelude.{Some};
    ghost use Rattle.der_elements.specs.Paths.{step_text};

    ghost output = { λ x. Some (step_text x) };

    fn fmt<W: fmt::Write>(&self, f: &mut fmt::Formatter<W>) -> fmt::Result {
        let name = self.name;
        let index = self.index;
        match name.class {
            Class::Universal => write!(f, "{name}[{index}]"),
            Class::Application | Class::ContextSpecific | Class::Private => write!(f, "{name}"),
        }
    }
}

/// The steps from the top of an input to an element, such as `SEQUENCE[0].[3].INTEGER[1]`.
#[derive(Drop)]
pub struct Path {
    steps: ArrayVec<Step, MAX_STEPS>,
}

impl Path {
    pub(crate) fn new() -> Path
        ensures { result.steps.items ≡ [] }
    {
        Path {
            steps: ArrayVec::new(),
        }
    }

    /// Adds a last step.
    pub(crate) fn push(&mut self, step: Step)
        requires { length self.old.steps.items < 102 }
        ensures { self.new.steps.items ≡ self.old.steps.items ++ step ∷ [] }
    {
        self.steps.push(step);
    }

    /// Whether the path has no step. This is the path to the end of an input.
    pub fn is_empty(&self) -> bool
        ensures { IsTrue result ↔ (length self.now.steps.items ≡ 0) }
    {
        self.steps.is_empty()
    }
}

impl fmt::Display for Path {
    ghost use Rattle.std.specs.Prelude.{Some};
    ghost use Rattle.der_elements.specs.Paths.{path_text};

    ghost output = { λ x. Some (path_text x.steps.items) };

    fn fmt<W: fmt::Write>(&self, f: &mut fmt::Formatter<W>) -> fmt::Result {
        let [first, others @ ..] = self.steps.as_slice() else {
            return Ok(());
        };
        write!(f, "{first}")?;
        write_further(f, others)
    }
}

/// Writes steps, each after a dot.
fn write_further<W: fmt::Write>(f: &mut fmt::Formatter<W>, steps: &[Step]) -> fmt::Result
    ensures { DisplaysOnOk W.Write.write_str_gives f.old result (Some (further_text steps.now)) f.new }
{
    for step in steps {
        write!(f, ".{step}")?;
    }
    Ok(())
}
