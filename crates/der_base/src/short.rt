//! Elements as most are: an identifier octet and a length of one octet (X.690 8.1.2.2, 8.1.3.4). Readers try these
//! first, and read any other element in full.
ghost use Rattle.std.specs.Prelude.{IfSome};
ghost use Rattle.der_base.specs.Short.{IsShort};

/// The parts of an element with a header of two octets.
#[derive(Clone, Copy)]
pub struct Short<'a> {
    /// The identifier octet, if the tag number is below 31.
    pub first: u8,
    pub content: &'a [u8],
    /// What follows the element.
    pub rest: &'a [u8],
}

/// Splits an element whose length is one octet (8.1.3.4), if its content is whole.
#[inline(always)]
pub fn read_short(i: &[u8]) -> Option<Short<'_>>
    ensures { IfSome result (λ x. IsShort i.now x.first x.content.now x.rest.now) }
{
    let [first, size, behind @ ..] = i else {
        return None;
    };
    let size = usize::from(*size);
    if size >= 128 || size > behind.len() {
        return None;
    }
    let (content, rest) = behind.split_at(size);
    Some(Short {
        first: *first,
        content,
        rest,
    })
}
