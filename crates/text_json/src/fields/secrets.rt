//! Secret elements, which a type keeps from being printed.
ghost use Rattle.std.specs.Prelude.{◌≡◌, ◌∷◌, ◌++◌, [], List, ℕ};
ghost use Rattle.text_json.specs.Fields.Fields.{label_after};
ghost use Rattle.text_json.specs.Fields.Secrets.{Follows, IsExposure, is_inside, is_secret, is_secret_by};
ghost use Rattle.der_schema.specs.Meaning.{Root};
ghost use Rattle.der_schema.specs.Steps.{label_of};
ghost use Rattle.der_elements.specs.Visits.{Visited};
ghost use Rattle.der_elements.specs.Walked.{visited_of};

use der_elements::Element;
use der_schema::{Name, Secrecy};

/// The text that is printed instead of the value of a secret element.
pub const SECRET: &str = " (secret)";

/// How much of an element may be printed.
#[derive(Clone, Copy, Debug, PartialEq)]
pub enum Exposure {
    /// Everything.
    Full,
    /// Everything but the value, since the element is secret: its type, its lengths and the name of its field.
    Outline,
    /// Nothing, since the element is inside a secret one.
    Nothing,
}

/// Tells the secret elements of a walk, and those inside them.
///
/// # Examples
///
/// ```
/// let mut secrets = Secrets::new();
/// while let Some(element) = walk.next_element()? {
///     match secrets.pass(&element, namer.name_of(&element)) {
///         Exposure::Full => println!("{element:?}"),
///         Exposure::Outline | Exposure::Nothing => {}
///     }
/// }
/// ```
#[derive(Clone, Copy)]
pub struct Secrets {
    /// The number of elements around the secret element that the walk is in.
    around: Option<usize>,
}

impl Secrets {
    /// The state before a walk begins.
    pub fn new() -> Secrets
        ensures { (sc : Root) (i : List ℕ) → Follows sc i [] result }
    {
        Secrets { around: None }
    }

    /// Moves on to the next visited element, which has this name by the type.
    pub fn pass(&mut self, element: &Element<'_>, name: Option<Name>) -> Exposure
        ensures { (sc : Root) (i : List ℕ) (vs : List Visited) → Follows sc i vs self.old
            → let v = visited_of element.now in label_of name ≡ label_after sc i vs v
            → Follows sc i (vs ++ v ∷ []) self.new × IsExposure sc i vs v result }
    {
        if is_inside(self.around, element.depth) {
            return Exposure::Nothing;
        }
        if is_secret(name, element.holds.is_some()) {
            self.around = Some(element.depth);
            return Exposure::Outline;
        }
        self.around = None;
        Exposure::Full
    }
}

/// Whether an element at this depth is inside the secret element, if the walk is in one.
pub fn is_inside(around: Option<usize>, depth: usize) -> bool
    ensures { result ≡ is_inside around depth }
{
    match around {
        Some(around) => around < depth,
        None => false,
    }
}

/// Whether a type marks the element with this name as secret. `is_entered` says whether elements inside it are visited.
pub fn is_secret(name: Option<Name>, is_entered: bool) -> bool
    ensures { result ≡ is_secret (label_of name) is_entered }
{
    match name {
        Some(name) => is_secret_by(name.secrecy, is_entered),
        None => false,
    }
}

fn is_secret_by(secrecy: Secrecy, is_entered: bool) -> bool
    ensures { result ≡ is_secret_by secrecy is_entered }
{
    match secrecy {
        Secrecy::Public => false,
        Secrecy::SecretUnread => !is_entered,
        Secrecy::Secret => true,
    }
}
