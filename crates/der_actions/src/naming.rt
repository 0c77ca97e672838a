//! The type that names the elements of an input.
ghost use Rattle.std.specs.Prelude.{◌≡◌, ◌≢◌, ◌↔◌, ◌⊎◌, IfSome, IsTrue, None, Some, codes, false, true};
ghost use Rattle.std.specs.Prelude.{if◌then◌else◌};
ghost use Rattle.der_actions.specs.Namings.{IsAsAsked, IsByName, IsNamedBy, names_elements};
ghost use Rattle.der_actions.specs.declared.options.Action.{Action};
ghost use Rattle.der_actions.specs.declared.options.Naming.{Naming};

use crate::options::{Action, Naming};
use der_elements::Rules;
use der_known::KnownTypes;
use der_schema::{Schema, is_of_type};

/// The word for the first known type of an input.
const AUTO: &str = "auto";

/// The word for no type.
const NONE: &str = "none";

/// The naming for an action, by the word that the user gave, if any. None if no known type has the word as its name.
pub fn naming_of<'a>(
    action: Action,
    word: Option<&str>,
    types: &'a KnownTypes,
) -> Option<Naming<'a>>
    ensures unsaid { word.entry ≡ None
        → result ≡ Some (if names_elements action then Naming.ByFirst types.entry else Naming.Unnamed) }
    ensures auto { IfSome word.entry (λ w. names_elements action ≡ true → w.now ≡ codes "auto"
        → result ≡ Some (Naming.ByFirst types.entry)) }
    ensures none { IfSome word.entry (λ w. names_elements action ≡ true → w.now ≡ codes "none"
        → result ≡ Some Naming.Unnamed) }
    ensures named { IfSome word.entry (λ w. (names_elements action ≡ false)
        ⊎ ((w.now ≢ codes "auto") × (w.now ≢ codes "none")) → IsByName types.now w.now result) }
{
    match word {
        Some(word) => naming_said(action, word, types),
        None => Some(naming_unsaid(action, types)),
    }
}

/// The naming if the user gave no word: the first known type of an input if the action names elements, else none.
fn naming_unsaid<'a>(action: Action, types: &'a KnownTypes) -> Naming<'a>
    ensures { result ≡ (if names_elements action then Naming.ByFirst types.entry else Naming.Unnamed) }
{
    if names_elements(action) {
        return Naming::ByFirst(types);
    }
    Naming::Unnamed
}

/// Whether an action names elements. A check only checks the type.
fn names_elements(action: Action) -> bool
    ensures { result ≡ names_elements action }
{
    matches!(action, Action::Tree | Action::Json | Action::Get)
}

/// The naming for a word. None if no known type has it as its name. `auto` and `none` are words only for actions that
/// name elements.
fn naming_said<'a>(action: Action, word: &str, types: &'a KnownTypes) -> Option<Naming<'a>>
    ensures auto { names_elements action ≡ true → word.now ≡ codes "auto"
        → result ≡ Some (Naming.ByFirst types.entry) }
    ensures none { names_elements action ≡ true → word.now ≡ codes "none" → result ≡ Some Naming.Unnamed }
    ensures named { (names_elements action ≡ false) ⊎ ((word.now ≢ codes "auto") × (word.now ≢ codes "none"))
        → IsByName types.now word.now result }
{
    if names_elements(action) && word == AUTO {
        return Some(Naming::ByFirst(types));
    }
    if names_elements(action) && word == NONE {
        return Some(Naming::Unnamed);
    }
    naming_by(types, word)
}

/// The naming with the known type of this name, in any case of its letters, if there is one.
fn naming_by<'a>(types: &'a KnownTypes, name: &str) -> Option<Naming<'a>>
    ensures { IsByName types.now name.now result }
{
    match types.type_with_letters(name) {
        Some(schema) => Some(Naming::By(schema)),
        None => None,
    }
}

/// The type that names the elements of an input, if there is one.
pub(crate) fn schema_of<'a>(naming: Naming<'a>, rules: Rules, octets: &[u8]) -> Option<Schema<'a>>
    ensures { IsNamedBy naming.entry rules octets.now result }
{
    match naming {
        Naming::Unnamed => None,
        Naming::ByFirst(types) => types.type_of(octets, rules),
        Naming::By(schema) => Some(schema),
    }
}

/// Whether an input has the type that it has to have, if there is one.
pub(crate) fn is_as_asked(naming: Naming<'_>, rules: Rules, octets: &[u8]) -> bool
    ensures { IsTrue result ↔ IsAsAsked naming.entry rules octets.now }
{
    match naming {
        Naming::By(schema) => is_of_type(octets, rules, schema),
        Naming::Unnamed | Naming::ByFirst(_) => true,
    }
}
