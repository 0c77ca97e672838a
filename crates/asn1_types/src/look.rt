//! How elements of types are shown, as comments say.
ghost use Rattle.std.specs.Prelude.{◌≡◌, IfOk, slice_get};
ghost use Rattle.asn1_types.specs.Looks.{LooksAs, look_at, look_or};

use crate::item::{Item, fault_at};
use crate::numbers::Numbers;
use crate::tags::{Base, next_base};
use asn1_names::{Fault, Loaded, MOST_STEPS, Problem};
use der_schema::Secrecy;
use der_schema::words::{Notation, Words};
use std::alloc::Global;

/// How an element of a type is shown.
#[derive(Clone, Copy)]
pub(crate) struct Look {
    pub words: Option<&'static Words>,
    pub secrecy: Secrecy,
}

/// How an element of the type of an item is shown: by the first words of the item and of what references and implicit
/// tags lead to. It is as secret as the most secret of these.
pub(crate) fn look_of(items: &[Item], start: usize) -> Result<Look, Fault>
    ensures { IfOk result (λ look. LooksAs items.now start look) }
{
    let mut base = Base {
        tags: None,
        end: start,
    };
    let mut look = look_at(items, start);
    'steps: for _ in 0..MOST_STEPS {
        match next_base(items, base) {
            Some(next) => {
                base = next;
                let further = look_at(items, next.end);
                look = look.or(further);
            }
            None => return Ok(look),
        }
    }
    Err(fault_at(items, start, Problem::Endless))
}

/// What the comment of an item says.
fn look_at(items: &[Item], index: usize) -> Look
    ensures { result ≡ look_at (slice_get items.now index) }
{
    match items.get(index) {
        Some(item) => Look {
            words: item.words,
            secrecy: item.secrecy,
        },
        None => Look {
            words: None,
            secrecy: Secrecy::Public,
        },
    }
}

impl Look {
    /// These words, or those of the other if there are none, and the more secret of the two.
    fn or(self, other: Look) -> Look
        ensures { result ≡ look_or self other }
    {
        let secrecy = match (self.secrecy, other.secrecy) {
            (Secrecy::Public, _) | (_, Secrecy::Secret) => other.secrecy,
            _ => self.secrecy,
        };
        Look {
            words: self.words.or(other.words),
            secrecy,
        }
    }
}

/// What is said of an item.
#[derive(Clone, Copy)]
struct Shown {
    item: usize,
    words: Option<Words>,
    secrecy: Secrecy,
}

/// Sets the words of items, as the comments of their nodes say.
pub(crate) fn add_words(
    alloc: Global,
    loaded: &Loaded,
    items: &mut Vec<Item>,
) -> Result<(), Fault> {
    let mut numbers = Numbers::new(alloc);
    let mut shown = Vec::new(alloc);
    for (index, placed) in loaded.nodes.iter().enumerate() {
        if let Some(said) = placed.said {
            let names = match said.notation {
                Some(Notation::NumberOf(_) | Notation::NameOf(_)) => {
                    numbers.names_of(loaded, items, index)?
                }
                _ => &[],
            };
            shown.push(Shown {
                item: index,
                words: said.words(names),
                secrecy: said.secrecy.unwrap_or(Secrecy::Public),
            })?;
        }
    }
    let shown: &'static [Shown] = shown.leak();
    for one in shown {
        if let Some(item) = items.get_mut(one.item) {
            item.words = one.words.as_ref();
            item.secrecy = one.secrecy;
        }
    }
    Ok(())
}
