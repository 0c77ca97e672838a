//! The first element of octets.
ghost use Rattle.der_base.specs.declared.header.Class.{Class};
ghost use Rattle.x509.specs.Formats.{element};
ghost use Rattle.x509.specs.Lists.{FindsFirst};

use der_base::header::{Class, Tag};
use der_cursor::Cursor;

/// The first element of octets. Its content isn't checked.
#[derive(Clone, Copy)]
pub(crate) struct FirstElement<'a> {
    /// Its encoding.
    pub octets: &'a [u8],
    /// Its content octets.
    pub content: &'a [u8],
    /// The octets after it.
    pub rest: &'a [u8],
}

/// Returns the first element, if it has this universal tag and this form.
pub(crate) fn first_element(octets: &[u8], constructed: bool, tag: Tag) -> Option<FirstElement<'_>>
    ensures { FindsFirst (element Class.Universal constructed tag.0) octets.now result }
{
    if octets.is_empty() {
        return None;
    }
    let mut list = Cursor::new(octets);
    let Ok(content) = list.open(Class::Universal, constructed, tag) else {
        return None;
    };
    let rest = list.remaining();
    Some(FirstElement {
        octets: &octets[..octets.len() - rest.len()],
        content: content.remaining(),
        rest,
    })
}
