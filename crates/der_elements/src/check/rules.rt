//! What an element may be, by the rules.
ghost use Rattle.std.specs.Prelude.{◌≡◌, ◌⊎◌, ◌↔◌, IsTrue};
ghost use Rattle.der_elements.specs.Check.Elements.{MayBeConstructed, MayHaveContent};
ghost use Rattle.der_contents.specs.ContentRules.{IsContent};

use der_base::header::{Class, Tag};
use der_base::rules::Rules;
use der_contents::check_content;

/// Whether an element of this class and number may be constructed. With a class other than Universal it always may. By
/// BER a SEQUENCE, a SET, a string or a time may be, and a type such as EXTERNAL. By DER a string or a time may not.
pub fn may_be_constructed(rules: Rules, class: Class, tag: Tag) -> bool
    ensures { IsTrue result ↔ MayBeConstructed rules class tag.0 }
{
    if class != Class::Universal {
        return true;
    }
    if rules == Rules::Der && tag.is_mapped() {
        return tag == Tag::Sequence || tag == Tag::Set;
    }
    !matches!(tag.0, 0..=2 | 5 | 6 | 9 | 10 | 13 | 14 | 31..=36)
}

/// Whether a primitive element of this class and number may have these content octets. With a class other than
/// Universal it always may. End-of-contents octets aren't an element.
pub(crate) fn may_have_content(rules: Rules, class: Class, tag: Tag, octets: &[u8]) -> bool
    ensures { IsTrue result ↔ MayHaveContent rules class tag.0 octets.now }
{
    if class != Class::Universal {
        return true;
    }
    tag != Tag::EndOfContent && is_content(rules, tag.0, octets)
}

/// Whether the octets are a content of the universal type with this number.
#[inline(always)]
pub(crate) fn is_content(rules: Rules, number: u32, octets: &[u8]) -> bool
    ensures { IsTrue result ↔ IsContent rules number octets.now }
{
    check_content(rules, number, octets).is_ok()
}

/// Whether it is the identifier octet of a SEQUENCE or a SET (8.9.1, 8.11.1).
#[inline(always)]
pub(crate) fn is_list_octet(first: u8) -> bool
    ensures { IsTrue result ↔ ((first ≡ 48) ⊎ (first ≡ 49)) }
{
    first == 0x30 || first == 0x31
}
