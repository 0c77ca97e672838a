//! The extension that an element of a walk is in.
ghost use Rattle.std.specs.Prelude.{◌≡◌, ◌↔◌, IsTrue, None, codes, false};
ghost use Rattle.std.specs.Option.{option_map};
ghost use Rattle.text_json.specs.Fields.Fields.{label_text};
ghost use Rattle.der_schema.specs.Steps.{label_of};
ghost use Rattle.der_show.specs.Around.{around_of, around_past};

use der_elements::Element;
use der_print::octets_or_none;
use der_schema::Name;

/// The name of the field with the identifier of an extension (RFC 5280 4.1).
const IDENTIFIER: &str = "extnID";

/// The extension of the element that a walk visited last.
#[derive(Clone, Copy)]
pub(crate) struct Around<'a> {
    extension: Option<Extension<'a>>,
}

/// An extension whose identifier was visited.
#[derive(Clone, Copy)]
pub(crate) struct Extension<'a> {
    /// The number of elements around its fields.
    depth: usize,
    /// The content octets of its identifier.
    identifier: &'a [u8],
}

impl<'a> Around<'a> {
    /// The state before a walk: no extension.
    pub(crate) fn new() -> Around<'a>
        ensures { around_of result ≡ None }
    {
        Around { extension: None }
    }

    /// The content octets of the identifier, if there is an extension.
    pub(crate) fn identifier(&self) -> Option<&'a [u8]>
        ensures { option_map (λ w. w.now) result ≡ option_map (λ x. x.1) (around_of self.now) }
    {
        match self.extension {
            Some(extension) => Some(extension.identifier),
            None => None,
        }
    }

    /// The state at the next visited element. `says` tells whether it is the identifier of an extension.
    pub(crate) fn past(self, element: &Element<'a>, says: bool) -> Around<'a>
        ensures { around_of result ≡ around_past (around_of self.entry) says element.now }
    {
        if says {
            return Around {
                extension: Some(Extension {
                    depth: element.depth,
                    identifier: octets_or_none(element.content),
                }),
            };
        }
        match self.extension {
            Some(extension) if extension.depth <= element.depth => self,
            _ => Around::new(),
        }
    }
}

/// Whether an element with this name is the identifier of an extension.
pub(crate) fn is_identifier(name: Option<Name>, constructed: bool) -> bool
    ensures { IsTrue result
        ↔ ((label_text (label_of name) ≡ codes "extnID") × (constructed ≡ false)) }
{
    match name {
        Some(name) => name.text == IDENTIFIER && !constructed,
        None => false,
    }
}
