//! The options of an action.
use crate::place::Place;
use der_elements::Rules;
use der_input::Form;
use der_known::KnownTypes;
use der_print::Style;
use der_schema::Schema;
use oid_names::OwnNames;

/// What to do with an input.
#[derive(Clone, Copy, Debug, PartialEq)]
pub enum Action {
    /// Prints a line for each element.
    Tree,
    /// Prints nothing, except why an input isn't valid.
    Check,
    /// Prints a line of JSON for each element.
    Json,
    /// Writes the DER encoding.
    Canon,
    /// Writes the octets of an element.
    Get,
    /// Prints a summary.
    Show,
}

/// The type that names the elements of an input.
#[derive(Clone, Copy)]
pub enum Naming<'a> {
    /// No type.
    Unnamed,
    /// The first known type that the input has, if it has one.
    ByFirst(&'a KnownTypes),
    /// This type. An input that doesn't have it is an error.
    By(Schema<'a>),
}

/// The options for all inputs.
#[derive(Clone, Copy)]
pub struct Options<'a> {
    pub action: Action,
    /// The rules of the elements.
    pub rules: Rules,
    /// Whether the elements inside strings are visited.
    pub enters_strings: bool,
    /// The form of the inputs. None if it is detected.
    pub form: Option<Form>,
    pub style: Style,
    /// The user's names of object identifiers. They precede the built-in names.
    pub own_names: Option<&'a OwnNames<'a>>,
    /// The type that names elements. It may be one that an input has to have.
    pub naming: Naming<'a>,
    /// The place of the element to list or write. None for the outermost elements.
    pub place: Option<Place<'a>>,
    /// The most elements that may be around a listed one, below the place. None for any number.
    pub depth: Option<usize>,
    /// Whether the summary is written as a JSON object.
    pub is_json: bool,
    /// Whether the JSON object of an element has its octets.
    pub has_octets: bool,
    /// Whether only the content of an element is written, without its header.
    pub is_content: bool,
    /// Whether a check prints nothing about an input that it rejects.
    pub is_quiet: bool,
    /// Whether breaking a rule of RFC 5280 is an error, after the input is shown.
    pub is_strict: bool,
    /// The current time, in seconds since 1970-01-01 00:00:00 UTC. Without it, a summary doesn't tell for how long
    /// something is valid.
    pub present: Option<u64>,
    /// Whether there are several files. If so, each tree begins with the file name, and JSON objects contain it.
    pub has_several_files: bool,
}
