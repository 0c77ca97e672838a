//! The position of an element in a type: the path to it, and the extension that it is in.
ghost use Rattle.der_schema.specs.Meaning.{root_of};
ghost use Rattle.der_show.specs.Places.{FindsPlace};

use crate::extension::{Around, is_identifier};
use der_base::rules::Rules;
use der_elements::{Element, Walk};
use der_schema::{Name, NamePath, Namer, Schema};

/// The position of an element in a type.
#[derive(Drop)]
pub struct Place<'a> {
    pub element: Element<'a>,
    /// The name of the element. None if it isn't in the type.
    pub name: Option<Name>,
    /// The path to the element.
    pub path: NamePath,
    /// The content octets of the identifier of the extension that the element is in.
    pub extension: Option<&'a [u8]>,
}

/// The position in a type of the element that begins at an offset, by BER. None if no element begins there, or if there
/// is an error before it.
pub(crate) fn place_of<'a>(octets: &'a [u8], offset: usize, schema: Schema<'_>) -> Option<Place<'a>>
    ensures { FindsPlace (root_of schema.entry) octets.now offset result }
{
    let mut walk = Walk::new(octets, Rules::Ber, true).keeping_values();
    let mut namer = Namer::new(octets, schema);
    let mut path = NamePath::new();
    let mut around = Around::new();
    'elements: loop {
        match walk.next_element() {
            Ok(Some(element)) => {
                let name = namer.name_of(&element);
                path.enter(&element, name);
                around = around.past(&element, is_identifier(name, element.constructed));
                if element.offset == offset {
                    return Some(Place {
                        element,
                        name,
                        path,
                        extension: around.identifier(),
                    });
                }
            }
            Ok(None) => return None,
            Err(_) => return None,
        }
    }
}
