//! The type that the user asks for.
ghost use Rattle.std.specs.Prelude.{◌≡◌, ◌≢◌, codes};
ghost use Rattle.der_schema.specs.Known.{IsFirstSchema, IsKnownType};
ghost use Rattle.der_schema.specs.Meaning.{all_types};

use der_base::rules::Rules;
use der_known::KnownTypes;
use der_schema::Schema;

/// The word that asks for the first known type of an input.
const AUTO: &str = "auto";

/// The type that a word asks for. For `auto` it is the first known type that the input has by these rules. Any other
/// word is the name of a known type in the document that defines it, such as `Certificate`. None if there is no such
/// type.
pub fn schema_named<'a>(
    types: &'a KnownTypes,
    word: &str,
    input: &[u8],
    rules: Rules,
) -> Option<Schema<'a>>
    ensures auto { word.now ≡ codes "auto"
        → IsFirstSchema (IsKnownType (all_types types.now.types) rules input.now) types.now.known.now
        (all_types types.now.types) result }
    ensures named { word.now ≢ codes "auto"
        → IsFirstSchema (λ k. k.name.now ≡ word.now) types.now.known.now (all_types types.now.types) result }
{
    if word == AUTO {
        return types.type_of(input, rules);
    }
    types.type_named(word)
}
