//! Opens elements whose content may be cut.
ghost use Rattle.std.specs.Option.{option_map};
ghost use Rattle.std.specs.Prelude.{◌≡◌, ◌↔◌, IsTrue, take};
ghost use Rattle.x509.specs.Partial.Openings.{Finds, HasHeader, Opens, OpensSequenceIn};

use der_base::header::{Class, Header, Tag, der_read_element_header};

/// The content octets, as far as they are there, of the SEQUENCE inside a constructed element of this class and tag
/// number.
pub(crate) fn open_sequence_in(octets: &[u8], class: Class, tag: Tag) -> Option<&[u8]>
    ensures { Finds (OpensSequenceIn class tag.0 octets.now) (option_map (λ w. w.now) result) }
{
    match open(octets, class, tag) {
        Some(content) => open(content, Class::Universal, Tag::Sequence),
        None => None,
    }
}

/// The content octets, as far as they are there, of a constructed element of this class and tag number.
fn open(octets: &[u8], class: Class, tag: Tag) -> Option<&[u8]>
    ensures { Finds (Opens class tag.0 octets.now) (option_map (λ w. w.now) result) }
{
    let Ok((rest, header)) = der_read_element_header(octets) else {
        return None;
    };
    let Ok(length) = header.length().definite() else {
        return None;
    };
    if !is_header_of(&header, class, tag) {
        return None;
    }
    Some(first_octets(rest, length))
}

/// Returns whether a header is that of a constructed element of this class and tag number.
fn is_header_of(header: &Header<'_>, class: Class, tag: Tag) -> bool
    ensures { IsTrue result ↔ HasHeader header.now class tag.0 }
{
    header.class() == class && header.is_constructed() && header.tag() == tag
}

/// The first `count` octets, or all of them if there are fewer.
fn first_octets(octets: &[u8], count: usize) -> &[u8]
    ensures { result.now ≡ take count octets.now }
{
    &octets[..count.min(octets.len())]
}
