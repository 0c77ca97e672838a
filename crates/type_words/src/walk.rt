//! The items of an input.
ghost use Rattle.std.specs.Prelude.{IfOk, List};
ghost use Rattle.der_elements.specs.Visits.{Visited};
ghost use Rattle.der_schema.specs.Known.{all_extras};
ghost use Rattle.der_schema.specs.Meaning.{root_of};
ghost use Rattle.type_words.specs.Items.{items_of};
ghost use Rattle.type_words.specs.Lines.{AreLines};
ghost use Rattle.type_words.specs.Puts.{EndsWith, PutsAll};

use crate::item::Sink;
use crate::places::Places;
use crate::text::TextLines;
use der_base::rules::Rules;
use der_elements::{ElementError, Walk};
use der_schema::{Namer, Schema};
use std::alloc::{AllocError, Global};

/// Puts the items of an input by a type to a sink, one after another, up to the end of the input or to the first error,
/// which it returns. Strings that contain an element are entered. By BER, a value that breaks a rule of its type is no
/// error. It allocates only what the sink does. AllocError if there is no memory.
pub fn write_words<S: Sink>(
    input: &[u8],
    rules: Rules,
    schema: Schema<'_>,
    sink: &mut S,
) -> Result<Option<ElementError>, AllocError>
    ensures { IfOk result (λ end. (vs : List Visited) × EndsWith all_extras rules input.now vs end
        × PutsAll S.Sink.put_gives sink.old (items_of (root_of schema.entry) input.now vs) sink.new) }
{
    let mut walk = Walk::new(input, rules, true).keeping_values();
    let mut namer = Namer::new(input, schema);
    let mut places = Places::new();
    'elements: loop {
        match walk.next_element() {
            Ok(Some(element)) => {
                let name = namer.name_of(&element);
                if let Some(item) = places.pass(&element, name, input) {
                    sink.put(&item)?;
                }
            }
            Ok(None) => return Ok(None),
            Err(refusal) => return Ok(Some(refusal)),
        }
    }
}

/// The lines of an input by a type, up to the end of the input or to the first error, which comes with them.
pub fn words_text(
    alloc: Global,
    input: &[u8],
    rules: Rules,
    schema: Schema<'_>,
) -> Result<(Vec<u8>, Option<ElementError>), AllocError>
    ensures { IfOk result (λ found. (vs : List Visited) × EndsWith all_extras rules input.now vs found.1
        × AreLines (items_of (root_of schema.entry) input.now vs) found.0.items) }
{
    let mut lines = TextLines::new(alloc);
    let end = write_words(input, rules, schema, &mut lines)?;
    Ok((lines.into_bytes(), end))
}
