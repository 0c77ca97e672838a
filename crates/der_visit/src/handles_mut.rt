//! Visitors that may change objects. No function has a default body.
ghost use Rattle.std.specs.Prelude.{ℕ, ◌≡◌, ◌≤◌};
ghost use Rattle.std.specs.Global.{Box};
ghost use Rattle.der_base.specs.declared.header.Class.{Class};
ghost use Rattle.der_base.specs.declared.header.Tag.{Tag};
ghost use Rattle.der_base.specs.Tree.{Node, Content, end_of_content, boolean, integer, bit_string, string, null};
ghost use Rattle.der_base.specs.Tree.{enumerated, sequence, set, tagged, time};
ghost use Rattle.der_base.specs.Tree.{height, content_height, list_height};
ghost use Rattle.der_object.specs.View.{tree, content_tree, trees};
ghost use Rattle.der_object.specs.declared.object.BerObject.{BerObject};
ghost use Rattle.der_object.specs.declared.object.BerObjectContent.TheVariants.{BitString, Tagged};
ghost use Rattle.der_object.specs.declared.bit_string.BitStringObject.{BitStringObject};
ghost use Rattle.der_visit.specs.Changing.{HaveOneType, ChangesNode};
ghost use Rattle.der_visit.specs.Visiting.{oid_content, relative_oid_content, boxed_content, unknown_content};

use crate::walk_mut::WalkMut;
use der_base::any::Any;
use der_base::header::{Class, Tag};
use der_base::oid::Oid;
use der_base::time::ASN1DateTime;
use der_object::{BerObject, BerObjectContent, BitStringObject};
use std::mem;

/// [`VisitMut`](crate::VisitMut) without default bodies. At an object, `walk_mut` of [`WalkMut`] calls
/// `handle_object_mut`, and then the function of the type that its content has now. It does the same at each item that
/// a SEQUENCE or SET has then, one level deeper. The functions have the arguments of those of `VisitMut`.
///
/// `object_step` is what `handle_object_mut` does, and `content_step` what the other functions do. Each is a relation
/// of the visitor before, what is visited, its depth, the visitor after, and what is visited after. Each call does its
/// step, so the contract of `walk_mut` says which functions are called, on what and in which order, and leaves none
/// out.
///
/// Each `VisitMut` is a `HandlesMut`: `handle_null_mut` calls `visit_ber_null_mut`, and so on.
pub trait HandlesMut {
    ghost object_step: { Self → Node → ℕ → Self → Node → Type 0 };

    ghost content_step: { Self → Content → ℕ → Self → Content → Type 0 };

    fn handle_object_mut<'t>(&mut self, object: &mut BerObject<'t>, depth: usize)
        ensures step { object_step self.old (tree object.old) depth self.new (tree object.new) }
        ensures no_higher { height (tree object.new) ≤ height (tree object.old) };

    fn handle_endofcontent_mut(&mut self, depth: usize)
        ensures { content_step self.old end_of_content depth self.new end_of_content };

    fn handle_boolean_mut(&mut self, value: &mut bool, depth: usize)
        ensures { content_step self.old (boolean value.old) depth self.new (boolean value.new) };

    fn handle_integer_mut<'t>(&mut self, octets: &mut &'t [u8], depth: usize)
        ensures { content_step self.old (integer octets.old.now) depth self.new (integer octets.new.now) };

    fn handle_bitstring_mut<'t>(
        &mut self,
        unused: &mut u8,
        bits: &mut BitStringObject<'t>,
        depth: usize,
    )
        ensures { content_step self.old (bit_string unused.old bits.old.bytes.now) depth
            self.new (bit_string unused.new bits.new.bytes.now) };

    fn handle_octetstring_mut<'t>(&mut self, octets: &'t [u8], depth: usize)
        ensures { content_step self.old (string 4 octets.now) depth self.new (string 4 octets.now) };

    fn handle_null_mut(&mut self, depth: usize)
        ensures { content_step self.old null depth self.new null };

    fn handle_enum_mut(&mut self, number: &mut u64, depth: usize)
        ensures { content_step self.old (enumerated number.old) depth self.new (enumerated number.new) };

    fn handle_oid_mut<'t>(&mut self, oid: &mut Oid<'t>, depth: usize)
        ensures { content_step self.old (oid_content oid.old) depth self.new (oid_content oid.new) };

    fn handle_relative_oid_mut<'t>(&mut self, oid: &mut Oid<'t>, depth: usize)
        ensures { content_step self.old (relative_oid_content oid.old) depth self.new (relative_oid_content oid.new) };

    fn handle_numericstring_mut<'t>(&mut self, text: &mut &'t str, depth: usize)
        ensures { content_step self.old (string 18 text.old.now) depth self.new (string 18 text.new.now) };

    fn handle_visiblestring_mut<'t>(&mut self, text: &mut &'t str, depth: usize)
        ensures { content_step self.old (string 26 text.old.now) depth self.new (string 26 text.new.now) };

    fn handle_printablestring_mut<'t>(&mut self, text: &mut &'t str, depth: usize)
        ensures { content_step self.old (string 19 text.old.now) depth self.new (string 19 text.new.now) };

    fn handle_ia5string_mut<'t>(&mut self, text: &mut &'t str, depth: usize)
        ensures { content_step self.old (string 22 text.old.now) depth self.new (string 22 text.new.now) };

    fn handle_utf8string_mut<'t>(&mut self, text: &'t str, depth: usize)
        ensures { content_step self.old (string 12 text.now) depth self.new (string 12 text.now) };

    fn handle_teletexstring_mut<'t>(&mut self, text: &mut &'t str, depth: usize)
        ensures { content_step self.old (string 20 text.old.now) depth self.new (string 20 text.new.now) };

    fn handle_videotextstring_mut<'t>(&mut self, text: &mut &'t str, depth: usize)
        ensures { content_step self.old (string 21 text.old.now) depth self.new (string 21 text.new.now) };

    fn handle_objectdescriptor_mut<'t>(&mut self, text: &mut &'t str, depth: usize)
        ensures { content_step self.old (string 7 text.old.now) depth self.new (string 7 text.new.now) };

    fn handle_graphicstring_mut<'t>(&mut self, text: &mut &'t str, depth: usize)
        ensures { content_step self.old (string 25 text.old.now) depth self.new (string 25 text.new.now) };

    fn handle_generalstring_mut<'t>(&mut self, text: &mut &'t str, depth: usize)
        ensures { content_step self.old (string 27 text.old.now) depth self.new (string 27 text.new.now) };

    fn handle_bmpstring_mut<'t>(&mut self, octets: &mut &'t [u8], depth: usize)
        ensures { content_step self.old (string 30 octets.old.now) depth self.new (string 30 octets.new.now) };

    fn handle_universalstring_mut<'t>(&mut self, octets: &mut &'t [u8], depth: usize)
        ensures { content_step self.old (string 28 octets.old.now) depth self.new (string 28 octets.new.now) };

    fn handle_sequence_mut<'t>(&mut self, items: &mut Vec<BerObject<'t>>, depth: usize)
        ensures step { content_step self.old (sequence (trees items.old.items)) depth
            self.new (sequence (trees items.new.items)) }
        ensures no_higher { list_height (trees items.new.items) ≤ list_height (trees items.old.items) };

    fn handle_set_mut<'t>(&mut self, items: &mut Vec<BerObject<'t>>, depth: usize)
        ensures step { content_step self.old (set (trees items.old.items)) depth
            self.new (set (trees items.new.items)) }
        ensures no_higher { list_height (trees items.new.items) ≤ list_height (trees items.old.items) };

    fn handle_utctime_mut(&mut self, datetime: &ASN1DateTime, depth: usize)
        ensures { content_step self.old (time 23 datetime.now) depth self.new (time 23 datetime.now) };

    fn handle_generalizedtime_mut(&mut self, datetime: &ASN1DateTime, depth: usize)
        ensures { content_step self.old (time 24 datetime.now) depth self.new (time 24 datetime.now) };

    fn handle_optional_mut<'t>(&mut self, object: &mut Option<Box<BerObject<'t>>>, depth: usize)
        ensures { content_step self.old (boxed_content object.old) depth self.new (boxed_content object.new) };

    fn handle_tagged_mut<'t>(
        &mut self,
        class: &mut Class,
        tag: &mut Tag,
        object: &mut BerObject<'t>,
        depth: usize,
    )
        ensures { content_step self.old (tagged class.old tag.old.0 (tree object.old)) depth
            self.new (tagged class.new tag.new.0 (tree object.new)) };

    fn handle_unknown_mut<'t>(&mut self, any: &mut Any<'t>, depth: usize)
        ensures { content_step self.old (unknown_content any.old) depth self.new (unknown_content any.new) };
}

/// Each step of the walk is `handle_object_mut`, and then the function of the type that the content
/// has now.
impl<H: HandlesMut> WalkMut for H {
    ghost step = { ChangesNode H.object_step H.content_step };

    #[inline]
    fn visit_object_mut<'t>(&mut self, object: &mut BerObject<'t>, depth: usize) {
        self.handle_object_mut(object, depth);
        handle_content(self, &mut object.content, depth);
    }
}

/// Calls the function of a BIT STRING.
fn handle_bit_string<H: HandlesMut>(
    visitor: &mut H,
    content: &mut BerObjectContent<'_>,
    depth: usize,
)
    requires { (u : ℕ) × (b : BitStringObject) × (content.old ≡ BitString u b) }
    ensures step { H.content_step visitor.old (content_tree content.old) depth
        visitor.new (content_tree content.new) }
    ensures one_type { HaveOneType (content_tree content.old) (content_tree content.new) }
{
    let BerObjectContent::BitString(mut unused, mut bits) = *content else {
        unreachable!()
    };
    visitor.handle_bitstring_mut(&mut unused, &mut bits, depth);
    *content = BerObjectContent::BitString(unused, bits);
}

/// Calls the function of a tagged object.
fn handle_tagged<H: HandlesMut>(visitor: &mut H, content: &mut BerObjectContent<'_>, depth: usize)
    requires { (c : Class) × (t : Tag) × (o : Box BerObject) × (content.old ≡ Tagged c t o) }
    ensures step { H.content_step visitor.old (content_tree content.old) depth
        visitor.new (content_tree content.new) }
    ensures one_type { HaveOneType (content_tree content.old) (content_tree content.new) }
{
    let BerObjectContent::Tagged(mut class, mut tag, mut inner) = mem::replace(
        content,
        BerObjectContent::Null,
    ) else {
        unreachable!()
    };
    visitor.handle_tagged_mut(&mut class, &mut tag, &mut inner, depth);
    *content = BerObjectContent::Tagged(class, tag, inner);
}

/// Calls the function of the content's type.
#[inline]
fn handle_content<H: HandlesMut>(visitor: &mut H, content: &mut BerObjectContent<'_>, depth: usize)
    ensures step { H.content_step visitor.old (content_tree content.old) depth
        visitor.new (content_tree content.new) }
    ensures one_type { HaveOneType (content_tree content.old) (content_tree content.new) }
    ensures no_higher { content_height (content_tree content.new) ≤ content_height (content_tree content.old) }
{
    match content {
        BerObjectContent::EndOfContent => visitor.handle_endofcontent_mut(depth),
        BerObjectContent::Boolean(value) => visitor.handle_boolean_mut(value, depth),
        BerObjectContent::Integer(octets) => visitor.handle_integer_mut(octets, depth),
        BerObjectContent::BitString(..) => handle_bit_string(visitor, content, depth),
        BerObjectContent::OctetString(octets) => visitor.handle_octetstring_mut(octets, depth),
        BerObjectContent::Null => visitor.handle_null_mut(depth),
        BerObjectContent::Enum(number) => visitor.handle_enum_mut(number, depth),
        BerObjectContent::OID(oid) => visitor.handle_oid_mut(oid, depth),
        BerObjectContent::RelativeOID(oid) => visitor.handle_relative_oid_mut(oid, depth),
        BerObjectContent::NumericString(text) => visitor.handle_numericstring_mut(text, depth),
        BerObjectContent::VisibleString(text) => visitor.handle_visiblestring_mut(text, depth),
        BerObjectContent::PrintableString(text) => {
            visitor.handle_printablestring_mut(text, depth)
        }
        BerObjectContent::IA5String(text) => visitor.handle_ia5string_mut(text, depth),
        BerObjectContent::UTF8String(text) => visitor.handle_utf8string_mut(text, depth),
        BerObjectContent::T61String(text) => visitor.handle_teletexstring_mut(text, depth),
        BerObjectContent::VideotexString(text) => {
            visitor.handle_videotextstring_mut(text, depth)
        }
        BerObjectContent::ObjectDescriptor(text) => {
            visitor.handle_objectdescriptor_mut(text, depth)
        }
        BerObjectContent::GraphicString(text) => visitor.handle_graphicstring_mut(text, depth),
        BerObjectContent::GeneralString(text) => visitor.handle_generalstring_mut(text, depth),
        BerObjectContent::BmpString(octets) => visitor.handle_bmpstring_mut(octets, depth),
        BerObjectContent::UniversalString(octets) => {
            visitor.handle_universalstring_mut(octets, depth)
        }
        BerObjectContent::Sequence(items) => visitor.handle_sequence_mut(items, depth),
        BerObjectContent::Set(items) => visitor.handle_set_mut(items, depth),
        BerObjectContent::UTCTime(time) => visitor.handle_utctime_mut(time, depth),
        BerObjectContent::GeneralizedTime(time) => {
            visitor.handle_generalizedtime_mut(time, depth)
        }
        BerObjectContent::Optional(inner) => visitor.handle_optional_mut(inner, depth),
        BerObjectContent::Tagged(..) => handle_tagged(visitor, content, depth),
        BerObjectContent::Unknown(any) => visitor.handle_unknown_mut(any, depth),
    }
}
