//! Summaries of octets by the words of a type.
ghost use Rattle.std.specs.Prelude.{IfOk};
ghost use Rattle.der_show.specs.ByTypes.{HasWords};

use crate::message::FoundWords;
use crate::words::words_by_type;
use der_base::rules::Rules;
use der_known::KnownTypes;
use std::alloc::Global;
use type_words::words_text;

/// The words of octets by the known type with this name, by BER. None if the octets aren't elements.
pub(crate) fn words_by_name(
    alloc: Global,
    octets: &[u8],
    types: &KnownTypes,
    name: &str,
) -> FoundWords
    ensures { IfOk result (λ found. HasWords types.now name.now octets.now found) }
{
    let Some(schema) = types.type_named(name) else {
        return Ok(None);
    };
    match words_text(alloc, octets, Rules::Ber, schema)? {
        (text, None) => Ok(Some(words_by_type(text, schema.name))),
        (_, Some(_)) => Ok(None),
    }
}
