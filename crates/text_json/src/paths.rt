//! The path to an element as text.
ghost use Rattle.std.specs.Prelude.{◌≡◌, ◌-◌, ◌∷◌, ◌++◌, [], IfOk, List, OnOk, length, map};
ghost use Rattle.std.specs.Prelude.{option_map, slice_get, string_bytes, take};
ghost use Rattle.text_json.specs.PathTexts.{HasTexts, step_of, text_after};
ghost use Rattle.der_elements.specs.declared.path.Step.{Step};
ghost use Rattle.der_elements.specs.Paths.{path_text};

use der_elements::{Element, Step};
use std::alloc::{AllocError, Global};

/// The paths, as text, to the element visited last and to the elements around it.
#[derive(Drop)]
pub struct Paths {
    texts: Vec<String>,
}

impl Paths {
    /// The paths before a walk begins.
    pub fn new(alloc: Global) -> Paths
        ensures { HasTexts result [] }
    {
        Paths {
            texts: Vec::new(alloc),
        }
    }

    /// Moves to the element that is visited next.
    pub fn enter(&mut self, alloc: Global, element: &Element<'_>) -> Result<(), AllocError>
        ensures { (path : List Step) → HasTexts self.old path
            → OnOk result (HasTexts self.new (take element.now.depth path ++ step_of element.now ∷ [])) }
    {
        self.texts.truncate(element.depth);
        let text = text_after(alloc, last_of(self.texts.as_slice()), element.step())?;
        self.texts.push(text)?;
        Ok(())
    }

    /// The path to the element visited last, such as `SEQUENCE[0].[3].INTEGER[1]`.
    pub fn last(&self) -> &str
        ensures { (path : List Step) → HasTexts self.now path → result.now ≡ path_text path }
    {
        last_of(self.texts.as_slice()).unwrap_or("")
    }
}

/// The last of the texts.
fn last_of(texts: &[String]) -> Option<&str>
    ensures { option_map (λ t. t.now) result ≡ slice_get (map string_bytes texts.now) (length texts.now - 1) }
{
    match texts.last() {
        Some(text) => Some(text.as_str()),
        None => None,
    }
}

/// The text of a path with one more step, after the text without it.
fn text_after(alloc: Global, before: Option<&str>, step: Step) -> Result<String, AllocError>
    ensures { IfOk result (λ text. string_bytes text ≡ text_after (option_map (λ t. t.now) before.entry) step) }
{
    match before {
        Some(before) => format!(in alloc; "{before}.{step}"),
        None => format!(in alloc; "{step}"),
    }
}
