//! The source of an element, for its JSON object.
ghost use Rattle.std.specs.Prelude.{◌≡◌, Some, None, if◌then◌else◌, option_map, string_bytes};
ghost use Rattle.der_actions.specs.Namings.{field_member};
ghost use Rattle.der_actions.specs.Sources.{AreAskedOctets};
ghost use Rattle.der_elements.specs.Walked.{visited_of};

use crate::options::Options;
use crate::origin::Origin;
use crate::part::octets_of;
use der_elements::Element;
use text_json::Source;

/// The names of an element.
#[derive(Clone, Copy)]
pub(crate) struct Names<'a> {
    /// The path to the element, as errors print it.
    pub path: &'a str,
    /// The name of the field. Empty if no type has one.
    pub field: &'a str,
    /// The path of names. None if no type names the input.
    pub field_path: &'a Option<String>,
}

/// The source of an element, with its octets if the options ask for them.
pub(crate) fn source_of<'a>(
    options: &Options<'_>,
    origin: Origin<'a>,
    names: Names<'a>,
    octets: &'a [u8],
    element: &Element<'_>,
) -> Source<'a>
    ensures file { option_map (λ x. x.now) result.file
        ≡ (if options.now.has_several_files then Some origin.entry.name.now else None) }
    ensures block { result.block ≡ option_map (λ b. b.number) origin.entry.block }
    ensures label { option_map (λ x. x.now) result.label ≡ option_map (λ b. b.shown.now) origin.entry.block }
    ensures path { result.path.now ≡ names.entry.path.now }
    ensures field { option_map (λ x. x.now) result.field ≡ field_member names.entry.field.now }
    ensures field_path { option_map (λ x. x.now) result.field_path
        ≡ option_map string_bytes names.entry.field_path.now }
    ensures octets { AreAskedOctets options.now octets.now (visited_of element.now)
        (option_map (λ x. x.now) result.octets) }
{
    let file = if options.has_several_files {
        Some(origin.name)
    } else {
        None
    };
    let (block, label) = block_of(origin);
    Source {
        file,
        block,
        label,
        path: names.path,
        field: field_member(names.field),
        field_path: text_in(names.field_path),
        octets: asked_octets(options, octets, element),
    }
}

/// The name of a field as a JSON member. None if it is empty.
fn field_member(field: &str) -> Option<&str>
    ensures { option_map (λ x. x.now) result ≡ field_member field.now }
{
    if field.is_empty() {
        return None;
    }
    Some(field)
}

/// The text, if there is one.
fn text_in<'a>(text: &'a Option<String>) -> Option<&'a str>
    ensures { option_map (λ x. x.now) result ≡ option_map string_bytes text.now }
{
    match text {
        Some(text) => Some(text.as_str()),
        None => None,
    }
}

/// The number and the label of a block.
fn block_of<'a>(origin: Origin<'a>) -> (Option<usize>, Option<&'a str>)
    ensures number { result.0 ≡ option_map (λ b. b.number) origin.entry.block }
    ensures label { option_map (λ x. x.now) result.1 ≡ option_map (λ b. b.shown.now) origin.entry.block }
{
    match origin.block {
        Some(block) => (Some(block.number), Some(block.shown)),
        None => (None, None),
    }
}

/// All octets of an element, if the options ask for them and the input has them.
fn asked_octets<'a>(
    options: &Options<'_>,
    octets: &'a [u8],
    element: &Element<'_>,
) -> Option<&'a [u8]>
    ensures { AreAskedOctets options.now octets.now (visited_of element.now) (option_map (λ x. x.now) result) }
{
    if !options.has_octets {
        return None;
    }
    octets_of(octets, element)
}
