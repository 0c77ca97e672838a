//! How an input matches a type.
ghost use Rattle.std.specs.Prelude.{◌≡◌, ◌↔◌};
ghost use Rattle.text_json.specs.Fields.Fields.{FitsSomehow};
ghost use Rattle.der_schema.specs.Known.{IsOfType};
ghost use Rattle.der_schema.specs.Meaning.{root_of};

use crate::fields::named::{Named, ended, refused};
use crate::fields::write::left_past;
use der_base::rules::Rules;
use der_elements::Walk;
use der_schema::{Namer, Schema};

/// How an input matches a type. `write_fields` returns the same; this call writes nothing.
///
/// # Examples
///
/// ```
/// let types = KnownTypes::new();
/// let schema = types.type_named("Certificate").context("a known type")?;
/// match fit_of(&input, schema, Rules::Der) {
///     Named::Left(offset) => writeln!(err, "not in {} from {offset} on", schema.name)?,
///     _ => {}
/// }
/// ```
pub fn fit_of<'a>(input: &'a [u8], schema: Schema<'_>, rules: Rules) -> Named<'a>
    ensures fits { FitsSomehow (root_of schema.entry) rules input.now result }
    ensures whole { (result ≡ Named.Whole) ↔ IsOfType (root_of schema.entry) rules input.now }
{
    let mut walk = Walk::new(input, rules, true).keeping_values();
    let mut namer = Namer::new(input, schema);
    let mut left = None;
    'elements: loop {
        match walk.next_element() {
            Ok(Some(element)) => {
                let name = namer.name_of(&element);
                left = left_past(left, name, element.offset);
            }
            Ok(None) => return ended(left, namer.is_whole()),
            Err(refusal) => return refused(walk, refusal, left),
        }
    }
}
