//! The elements of a SET OF, in ascending order (X.690 11.6).
ghost use Rattle.std.specs.Prelude.{◌≤◌, length};
ghost use Rattle.der_writer.specs.Inner.Sorting.{Inserts, IsPlaceOf, Measures, Sorts, SortsBetween};

use der_base::any::Any;
use der_base::set_of_order::descends;

/// Sorts the elements between two offsets of a buffer, if it is large enough.
pub(crate) fn sort_between(out: &mut [u8], begin: usize, end: usize)
    ensures { SortsBetween begin end out.old out.new }
{
    if begin <= end && end <= out.len() {
        sort_elements(&mut out[begin..end]);
    }
}

/// Sorts elements.
fn sort_elements(content: &mut [u8])
    ensures { Sorts content.old content.new }
{
    let mut last = 0;
    while last < content.len() {
        let end = last + element_size(&content[last..]);
        insert_last(&mut content[..end], last);
        last = end;
    }
}

/// Moves the element at an offset before the first greater one of those before it.
fn insert_last(content: &mut [u8], last: usize)
    requires { last ≤ length content.old }
    ensures { Inserts last content.old content.new }
{
    let place = place_of(content, last);
    content[place..].rotate_left(last - place);
}

/// The offset of the first element before `last` that is greater than the one at `last`; `last` if there is none.
fn place_of(content: &[u8], last: usize) -> usize
    requires { last ≤ length content.now }
    ensures within { result ≤ last }
    ensures place { IsPlaceOf content.now last result }
{
    let (sorted, element) = content.split_at(last);
    let mut place = 0;
    while place < last {
        let size = element_size(&sorted[place..]);
        if descends(&sorted[place..place + size], element) {
            return place;
        }
        place += size;
    }
    last
}

/// The size of the element at the start of the octets, or their number if there is none.
fn element_size(octets: &[u8]) -> usize
    ensures { Measures octets.now result }
{
    match Any::from_der(octets) {
        Ok((rest, _)) => octets.len() - rest.len(),
        Err(_) => octets.len(),
    }
}
