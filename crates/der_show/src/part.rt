//! The octets of an element.
ghost use Rattle.std.specs.Prelude.{◌≡◌, ◌+◌, drop, take};
ghost use Rattle.der_elements.specs.Walked.{visited_of};
ghost use Rattle.der_show.specs.InWords.{octets_in};

use der_elements::Element;

/// The octets of an element in an input: as many as its header says. With an indefinite length, those of the header
/// alone (X.690 8.1.3.6).
pub(crate) fn octets_of<'a>(octets: &'a [u8], element: &Element<'_>) -> &'a [u8]
    ensures { result.now ≡ octets_in octets.now (visited_of element.now) }
{
    let here = octets_from(octets, element.offset);
    first_octets(here, element.header, element.length.unwrap_or(0))
}

/// The octets from an offset on.
fn octets_from(octets: &[u8], offset: usize) -> &[u8]
    ensures { result.now ≡ drop offset octets.now }
{
    if offset < octets.len() {
        &octets[offset..]
    } else {
        &[]
    }
}

/// The octets of a header and of a content at the start, or all octets if there are fewer.
fn first_octets(octets: &[u8], header: usize, content: usize) -> &[u8]
    ensures { result.now ≡ take (header + content) octets.now }
{
    match header.checked_add(content) {
        Some(number) if number < octets.len() => &octets[..number],
        _ => octets,
    }
}
