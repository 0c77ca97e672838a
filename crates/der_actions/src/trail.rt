//! The path to the element that a walk visited last.
ghost use Rattle.std.specs.Prelude.{◌≡◌, ◌↔◌, ◌∷◌, ◌++◌, [], IfOk, IsTrue, OnOk, Some, take};
ghost use Rattle.std.specs.Fmt.{DisplaysOnOk};
ghost use Rattle.der_actions.specs.Paths.{step_at};
ghost use Rattle.der_elements.specs.Paths.{further_text, path_text};
ghost use Rattle.der_elements.specs.Walked.{visited_of};

use der_elements::{Element, Step};
use std::alloc::{AllocError, Global};
use std::fmt;

/// The path to the element that a walk visited last: a step for each element around it, and one for itself.
#[derive(Drop)]
pub(crate) struct Trail {
    steps: Vec<Step>,
}

impl Trail {
    /// The path before a walk begins.
    pub(crate) fn new(alloc: Global) -> Trail
        ensures { result.steps.items ≡ [] }
    {
        Trail {
            steps: Vec::new(alloc),
        }
    }

    /// Moves on to the next visited element.
    pub(crate) fn enter(&mut self, element: &Element<'_>) -> Result<(), AllocError>
        ensures { OnOk result (self.new.steps.items ≡ take element.now.depth self.old.steps.items
            ++ step_at element.now.index (visited_of element.now) ∷ []) }
    {
        self.steps.truncate(element.depth);
        self.steps.push(element.step())?;
        Ok(())
    }

    /// Whether this is the text of the path.
    pub(crate) fn has_path(&self, alloc: Global, text: &str) -> Result<bool, AllocError>
        ensures { IfOk result (λ has. IsTrue has ↔ (path_text self.now.steps.items ≡ text.now)) }
    {
        let path = format!(in alloc; "{self}")?;
        Ok(path.as_str() == text)
    }
}

impl fmt::Display for Trail {
    ghost use Rattle.std.specs.Prelude.{Some};
    ghost use Rattle.der_elements.specs.Paths.{path_text};

    ghost output = { λ x. Some (path_text x.steps.items) };

    fn fmt<W: fmt::Write>(&self, f: &mut fmt::Formatter<W>) -> fmt::Result {
        let [first, others @ ..] = self.steps.as_slice() else {
            return Ok(());
        };
        write!(f, "{first}")?;
        write_further(f, others)
    }
}

/// Writes steps, each after a dot.
fn write_further<W: fmt::Write>(f: &mut fmt::Formatter<W>, steps: &[Step]) -> fmt::Result
    ensures { DisplaysOnOk W.Write.write_str_gives f.old result (Some (further_text steps.now)) f.new }
{
    for step in steps {
        write!(f, ".{step}")?;
    }
    Ok(())
}
