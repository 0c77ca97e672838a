//! The items of a text.
ghost use Rattle.std.specs.Prelude.{◌≡◌, drop};
ghost use Rattle.der_text.specs.Encoded.{GivesOrFaults};
ghost use Rattle.der_text.specs.Lexemes.{items_of};

use crate::error::Fault;
use crate::item::Item;
use crate::lexeme::read_lexeme;
use std::alloc::Global;

/// The items of a text, or the first fault.
pub(crate) fn read_items(alloc: Global, text: &[u8]) -> Result<Vec<Item>, Fault>
    ensures { GivesOrFaults (items_of text.now) result }
{
    let mut items = Vec::new(alloc);
    let mut rest = text;
    while let Some((first, after)) = rest.split_first() {
        let (more, used) = match read_lexeme(alloc, rest, *first, after) {
            Ok(lexeme) => lexeme,
            Err(problem) => {
                let left = rest.len();
                return Err(Fault { problem, left });
            }
        };
        items.extend_from_slice(&more)?;
        rest = without_first(after, used);
    }
    Ok(items)
}

/// A text without its first `count` octets, or empty if it has fewer.
fn without_first(text: &[u8], count: usize) -> &[u8]
    ensures { result.now ≡ drop count text.now }
{
    if count < text.len() {
        &text[count..]
    } else {
        &[]
    }
}
